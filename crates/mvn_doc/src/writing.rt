//! The one written form of a document (Maven repository metadata 1.1.0).
ghost use Rattle.std.specs.Prelude.{◌≡◌, length, take, drop, ◌++◌, ◌∷◌, [], IfOk, codes};
ghost use Rattle.std.specs.List.{flat_map};
ghost use Rattle.std.specs.Option.{option_copied, option_map};
ghost use Rattle.mvn_coords.specs.Layout.{text_of_build};
ghost use Rattle.mvn_doc.specs.Sheet.{Adds};
ghost use Rattle.mvn_metadata.specs.Written as written;

use crate::sheet::Sheet;
use crate::sizes::text_size;
use mvn_coords::{Build, Stamp};
use mvn_metadata::{Doc, Entries, Listing, NoMemory, Pair, SnapshotBuild, Versions};
use mvn_version::Version;
use std::alloc::Global;
use texts::Text;

const HEAD: &str =
    "<?xml version=\"1.0\" encoding=\"UTF-8\"?>\n<metadata modelVersion=\"1.1.0\">\n";

/// The one text of a document: UTF-8, two blanks a level, a line feed after each line.
pub fn write(alloc: Global, doc: &Doc) -> Result<Vec<u8>, NoMemory>
    ensures { IfOk result (λ v. v.items ≡ written.text doc.now) }
{
    let mut out = Sheet::new(alloc, text_size(doc))?;
    whole(&mut out, doc);
    out.text()
}

fn whole(out: &mut Sheet, doc: &Doc)
    ensures { Adds out.old out.new (written.text doc.now) }
{
    out.word(HEAD);
    bytes_if(out, "  ", "groupId", doc.group());
    element_if(out, "  ", "artifactId", doc.artifact());
    listing(out, doc.listing());
    out.word("</metadata>\n");
}

fn open_tag(out: &mut Sheet, name: &str)
    ensures { Adds out.old out.new (written.open_tag name.now) }
{
    out.word("<");
    out.word(name);
    out.word(">");
}

fn close_tag(out: &mut Sheet, name: &str)
    ensures { Adds out.old out.new (written.close_tag name.now ++ 10 ∷ []) }
{
    out.word("</");
    out.word(name);
    out.word(">\n");
}

/// An element on a line of its own.
fn element(out: &mut Sheet, margin: &str, name: &str, value: &[u8])
    ensures { Adds out.old out.new (written.element margin.now name.now value.now) }
{
    out.word(margin);
    open_tag(out, name);
    out.put(value);
    close_tag(out, name);
}

fn element_if(out: &mut Sheet, margin: &str, name: &str, value: Option<&str>)
    ensures { Adds out.old out.new (written.element_if margin.now name.now (option_copied value.entry)) }
{
    match value {
        Some(value) => element(out, margin, name, value.as_bytes()),
        None => {}
    }
}

fn bytes_if(out: &mut Sheet, margin: &str, name: &str, value: Option<&[u8]>)
    ensures { Adds out.old out.new (written.element_if margin.now name.now (option_copied value.entry)) }
{
    if let Some(value) = value {
        element(out, margin, name, value);
    }
}

/// The tag before the lines of a block, on a line of its own.
fn open_line(out: &mut Sheet, margin: &str, name: &str)
    ensures { Adds out.old out.new (margin.now ++ written.open_tag name.now ++ 10 ∷ []) }
{
    out.word(margin);
    open_tag(out, name);
    out.word("\n");
}

/// The tag after them.
fn close_line(out: &mut Sheet, margin: &str, name: &str)
    ensures { Adds out.old out.new (margin.now ++ written.close_tag name.now ++ 10 ∷ []) }
{
    out.word(margin);
    close_tag(out, name);
}

/// A timestamp's text without its dot.
fn without_dot(out: &mut Sheet, text: &[u8])
    requires { length text.now ≡ 15 }
    ensures { Adds out.old out.new (take 8 text.now ++ drop 9 text.now) }
{
    out.put(&text[..8]);
    out.put(&text[9..]);
}

/// A timestamp without its dot, on a line of its own.
fn moment_line(out: &mut Sheet, margin: &str, name: &str, stamp: Stamp)
    ensures { Adds out.old out.new (written.element margin.now name.now (written.moment_text stamp)) }
{
    out.word(margin);
    open_tag(out, name);
    without_dot(out, &stamp.text());
    close_tag(out, name);
}

fn updated(out: &mut Sheet, stamp: Option<Stamp>)
    ensures { Adds out.old out.new (written.updated_line stamp) }
{
    if let Some(stamp) = stamp {
        moment_line(out, "    ", "lastUpdated", stamp);
    }
}

fn listing(out: &mut Sheet, listing: &Listing)
    ensures { Adds out.old out.new (written.listing_lines listing.now) }
{
    match listing {
        Listing::Artifact { versions, updated } => artifact(out, versions, *updated),
        Listing::Snapshot {
            base,
            newest,
            entries,
        } => {
            element(out, "  ", "version", base.as_str().as_bytes());
            snapshot(out, newest, entries);
        }
    }
}

fn artifact(out: &mut Sheet, versions: &Versions, last: Option<Stamp>)
    ensures { Adds out.old out.new
        (written.block (codes "  ") (codes "versioning") (written.artifact_lines versions.now last)) }
{
    open_line(out, "  ", "versioning");
    element_if(out, "    ", "latest", versions.latest());
    element_if(out, "    ", "release", versions.release());
    version_lines(out, versions);
    updated(out, last);
    close_line(out, "  ", "versioning");
}

fn version_lines(out: &mut Sheet, versions: &Versions)
    ensures { Adds out.old out.new (written.version_lines versions.now) }
{
    if versions.is_empty() {
        return;
    }
    open_line(out, "    ", "versions");
    each_version(out, versions);
    close_line(out, "    ", "versions");
}

/// The line of a version, in three pieces: a document may have many thousands.
fn version_line(out: &mut Sheet, version: &Version)
    ensures { Adds out.old out.new (written.version_line version.now) }
{
    out.word("      <version>");
    out.word(version.as_str());
    out.word("</version>\n");
}

fn each_version(out: &mut Sheet, versions: &Versions)
    ensures { Adds out.old out.new (flat_map written.version_line versions.now) }
{
    for version in versions.iter() {
        version_line(out, version);
    }
}

fn snapshot(out: &mut Sheet, newest: &Option<Build>, entries: &Entries)
    ensures { Adds out.old out.new
        (written.block (codes "  ") (codes "versioning") (written.snapshot_lines newest.now entries.now)) }
{
    open_line(out, "  ", "versioning");
    newest_lines(out, newest);
    updated(out, stamp_of(newest));
    entries_lines(out, entries);
    close_line(out, "  ", "versioning");
}

fn stamp_of(build: &Option<Build>) -> Option<Stamp>
    ensures { result ≡ option_map (λ b. b.stamp) build.now }
{
    match build {
        Some(build) => Some(build.stamp()),
        None => None,
    }
}

fn newest_lines(out: &mut Sheet, newest: &Option<Build>)
    ensures { Adds out.old out.new (written.newest_lines newest.now) }
{
    if let Some(build) = newest {
        open_line(out, "    ", "snapshot");
        element(out, "      ", "timestamp", &build.stamp().text());
        let number = build.number_text();
        element(out, "      ", "buildNumber", number.as_bytes());
        close_line(out, "    ", "snapshot");
    }
}

fn entries_lines(out: &mut Sheet, entries: &Entries)
    ensures { Adds out.old out.new (written.entries_lines entries.now) }
{
    if entries.is_empty() {
        return;
    }
    open_line(out, "    ", "snapshotVersions");
    each_entry(out, entries);
    close_line(out, "    ", "snapshotVersions");
}

fn each_entry(out: &mut Sheet, entries: &Entries)
    ensures { Adds out.old out.new (flat_map written.entry_lines entries.now) }
{
    for (pair, snapshot) in entries.iter() {
        entry_lines(out, pair, snapshot);
    }
}

fn entry_lines(out: &mut Sheet, pair: &Pair, snapshot: &SnapshotBuild)
    ensures { Adds out.old out.new (written.entry_lines (pair.now, snapshot.now)) }
{
    open_line(out, "      ", "snapshotVersion");
    classifier(out, &pair.classifier);
    element(
        out,
        "        ",
        "extension",
        pair.extension.as_str().as_bytes(),
    );
    value_line(out, "        ", "value", snapshot);
    moment_line(out, "        ", "updated", snapshot.build.stamp());
    close_line(out, "      ", "snapshotVersion");
}

/// The version of a build, on a line of its own.
fn value_line(out: &mut Sheet, margin: &str, name: &str, snapshot: &SnapshotBuild)
    ensures { Adds out.old out.new
        (written.element margin.now name.now (snapshot.now.base ++ 45 ∷ text_of_build snapshot.now.build)) }
{
    out.word(margin);
    open_tag(out, name);
    out.word(snapshot.base.as_str());
    out.word("-");
    out.put(snapshot.build.text().as_bytes());
    close_tag(out, name);
}

fn classifier(out: &mut Sheet, classifier: &Text)
    ensures { Adds out.old out.new (written.classifier_line classifier.now) }
{
    let classifier = classifier.as_str();
    if !classifier.is_empty() {
        element(out, "        ", "classifier", classifier.as_bytes());
    }
}
