//! How long the text of a document is about.
use mvn_metadata::{Doc, Entries, Listing, Versions};

/// About how many bytes the text of a document has: a guess that spares growing.
pub(crate) fn text_size(doc: &Doc) -> usize {
    let lines = match doc.listing() {
        Listing::Artifact { versions, .. } => versions_size(versions),
        Listing::Snapshot { base, entries, .. } => entries_size(entries, base.as_str().len()),
    };
    lines.saturating_add(1024)
}

fn versions_size(versions: &Versions) -> usize {
    let mut size: usize = 0;
    for version in versions.iter() {
        size = size
            .saturating_add(version.as_str().len())
            .saturating_add(27);
    }
    size
}

// A base has so many bytes.
fn entries_size(entries: &Entries, base: usize) -> usize {
    let mut size: usize = 0;
    for (pair, _) in entries.iter() {
        let names = pair
            .classifier
            .as_str()
            .len()
            .saturating_add(pair.extension.as_str().len());
        size = size
            .saturating_add(names)
            .saturating_add(base)
            .saturating_add(256);
    }
    size
}
