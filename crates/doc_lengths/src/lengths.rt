//! The lengths of the lines of a document. Each stays at the greatest number.
ghost use Rattle.std.specs.Prelude.{◌≡◌, ◌≤◌, ℕ, List, Option, codes, length};
ghost use Rattle.std.specs.Option.{option_copied, option_map};
ghost use Rattle.std.specs.List.{flat_map};
ghost use Rattle.mvn_coords.specs.FileName.{BuildOf};
ghost use Rattle.mvn_metadata.specs.Written as written;
ghost use Rattle.doc_lengths.specs.Counts.{counted};

use mvn_coords::{Build, Stamp};
use mvn_metadata::{Doc, Entries, Listing, Pair, SnapshotBuild, Versions};

// An element with a value of so many bytes; its margin and its tags have `around` bytes more, and a line end.
fn element(margin: usize, name: usize, value: usize) -> usize
    requires margin { margin ≤ 100 }
    requires name { name ≤ 100 }
    ensures { (m n v : List ℕ) → length m ≡ margin → length n ≡ name → counted (length v) ≡ value → result ≡ counted (length (written.element m n v)) }
{
    value.saturating_add(margin + name + name + 6)
}

// Lines of so many bytes between two tags on lines of their own.
fn block(margin: usize, name: usize, lines: usize) -> usize
    requires margin { margin ≤ 100 }
    requires name { name ≤ 100 }
    ensures { (m n l : List ℕ) → length m ≡ margin → length n ≡ name → counted (length l) ≡ lines → result ≡ counted (length (written.block m n l)) }
{
    lines.saturating_add(margin + margin + name + name + 7)
}

fn str_len(text: &str) -> usize
    ensures { result ≡ counted (length text.now) }
{
    text.len()
}

fn bytes_len(bytes: &[u8]) -> usize
    ensures { result ≡ counted (length bytes.now) }
{
    bytes.len()
}

// The elements of the versions.
fn each_version(versions: &Versions) -> usize
    ensures { result ≡ counted (length (flat_map written.version_line versions.now)) }
{
    let mut size: usize = 0;
    for version in versions.iter() {
        size = size.saturating_add(element(6, 7, str_len(version.as_str())));
    }
    size
}

fn version_lines(versions: &Versions) -> usize
    ensures { result ≡ counted (length (written.version_lines versions.now)) }
{
    if versions.is_empty() {
        return 0;
    }
    block(4, 8, each_version(versions))
}

fn element_if(margin: usize, name: usize, value: Option<usize>) -> usize
    requires margin { margin ≤ 100 }
    requires name { name ≤ 100 }
    ensures { (m n : List ℕ) (v : Option (List ℕ)) → length m ≡ margin → length n ≡ name → option_map (λ x. counted (length x)) v ≡ value
        → result ≡ counted (length (written.element_if m n v)) }
{
    match value {
        Some(value) => element(margin, name, value),
        None => 0,
    }
}

fn updated_line(updated: Option<Stamp>) -> usize
    ensures { result ≡ counted (length (written.updated_line updated)) }
{
    match updated {
        Some(_) => element(4, 11, 14),
        None => 0,
    }
}

fn artifact_lines(versions: &Versions, updated: Option<Stamp>) -> usize
    ensures { result ≡ counted (length (written.artifact_lines versions.now updated)) }
{
    let latest = element_if(4, 6, text_len(versions.latest()));
    let release = element_if(4, 7, text_len(versions.release()));
    latest
        .saturating_add(release)
        .saturating_add(version_lines(versions))
        .saturating_add(updated_line(updated))
}

fn text_len(text: Option<&str>) -> Option<usize>
    ensures { result ≡ option_map (λ x. counted (length x)) (option_copied text.entry) }
{
    match text {
        Some(text) => Some(text.len()),
        None => None,
    }
}

fn classifier_line(classifier: usize) -> usize
    ensures { (c : List ℕ) → length c ≡ classifier → result ≡ counted (length (written.classifier_line c)) }
{
    if classifier == 0 {
        return 0;
    }
    element(8, 10, classifier)
}

// The lines of an entry.
fn entry_lines(pair: &Pair, snapshot: &SnapshotBuild) -> usize
    ensures { result ≡ counted (length (written.entry_lines (pair.now, snapshot.now))) }
{
    let base = str_len(snapshot.base.as_str());
    let build = bytes_len(snapshot.build.text().as_bytes());
    let version = base.saturating_add(1).saturating_add(build);
    let lines = classifier_line(pair.classifier.as_str().len())
        .saturating_add(element(8, 9, str_len(pair.extension.as_str())))
        .saturating_add(element(8, 5, version))
        .saturating_add(element(8, 7, 14));
    block(6, 15, lines)
}

fn each_entry(entries: &Entries) -> usize
    ensures { result ≡ counted (length (flat_map written.entry_lines entries.now)) }
{
    let mut size: usize = 0;
    for (pair, snapshot) in entries.iter() {
        size = size.saturating_add(entry_lines(pair, snapshot));
    }
    size
}

fn entries_lines(entries: &Entries) -> usize
    ensures { result ≡ counted (length (written.entries_lines entries.now)) }
{
    if entries.is_empty() {
        return 0;
    }
    block(4, 16, each_entry(entries))
}

fn newest_lines(newest: &Option<Build>) -> usize
    ensures { result ≡ counted (length (written.newest_lines newest.now)) }
{
    match newest {
        Some(build) => {
            let number = element(6, 11, bytes_len(build.number_text().as_bytes()));
            block(4, 8, element(6, 9, 15).saturating_add(number))
        }
        None => 0,
    }
}

fn stamp_of(build: &Option<Build>) -> Option<Stamp>
    ensures { result ≡ option_map (λ (b : BuildOf). b.stamp) build.now }
{
    match build {
        Some(build) => Some(build.stamp()),
        None => None,
    }
}

fn snapshot_lines(newest: &Option<Build>, entries: &Entries) -> usize
    ensures { result ≡ counted (length (written.snapshot_lines newest.now entries.now)) }
{
    newest_lines(newest)
        .saturating_add(updated_line(stamp_of(newest)))
        .saturating_add(entries_lines(entries))
}

fn listing_lines(listing: &Listing) -> usize
    ensures { result ≡ counted (length (written.listing_lines listing.now)) }
{
    match listing {
        Listing::Artifact { versions, updated } => {
            block(2, 10, artifact_lines(versions, *updated))
        }
        Listing::Snapshot {
            base,
            newest,
            entries,
        } => {
            let lines = block(2, 10, snapshot_lines(newest, entries));
            element(2, 7, str_len(base.as_str())).saturating_add(lines)
        }
    }
}

fn group_len(group: Option<&[u8]>) -> Option<usize>
    ensures { result ≡ option_map (λ x. counted (length x)) (option_copied group.entry) }
{
    match group {
        Some(group) => Some(group.len()),
        None => None,
    }
}

/// How many bytes the written text of a document has, which is counted and not written, so that it takes no memory. A text that
/// would have 2^64 bytes or more has 2^64 - 1.
pub fn text_length(doc: &Doc) -> usize
    ensures { result ≡ counted (length (written.text doc.now)) }
{
    let group = element_if(2, 7, group_len(doc.group()));
    let artifact = element_if(2, 10, text_len(doc.artifact()));
    let lines = group
        .saturating_add(artifact)
        .saturating_add(listing_lines(doc.listing()));
    // the declaration and the tags of the root
    lines.saturating_add(39 + 32 + 12)
}
