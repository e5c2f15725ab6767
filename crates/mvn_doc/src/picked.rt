//! The values that elements with their places tell.
ghost use Rattle.std.specs.Prelude.{◌≡◌, ◌∷◌, [], IfOk, fold, option_and_then};
ghost use Rattle.std.specs.Option.{option_copied};
ghost use Rattle.mvn_metadata.specs.Document.{with_build, with_version};
ghost use Rattle.mvn_doc.specs.Picked as spec;
ghost use Rattle.mvn_doc.specs.declared.place.Place.TheVariants as place;

use crate::place::{Place, Placed};
use crate::value;
use mvn_coords::{Build, Stamp};
use mvn_metadata::{Doc, Entries, Listing, NoMemory, Pair, SnapshotBuild, Versions};
use mvn_version::Version;
use std::alloc::Global;
use texts::{Bytes, Text};

/// The text of the first element at a place.
fn first_at<'a>(placed: &[Placed<'a>], place: Place) -> Option<&'a [u8]>
    ensures { option_copied result ≡ spec.first_at place placed.now }
{
    let first = placed.iter().find(|element| element.is_at(place))?;
    Some(first.text())
}

fn group(alloc: Global, placed: &[Placed<'_>]) -> Result<Option<Bytes>, NoMemory>
    ensures { IfOk result (λ g. g ≡ spec.group_in placed.now) }
{
    match first_at(placed, Place::GroupId).and_then(value::group) {
        Some(group) => Ok(Some(Bytes::new(alloc, group)?)),
        None => Ok(None),
    }
}

fn artifact(alloc: Global, placed: &[Placed<'_>]) -> Result<Option<Text>, NoMemory>
    ensures { IfOk result (λ a. a ≡ spec.artifact_in placed.now) }
{
    match first_at(placed, Place::ArtifactId).and_then(value::artifact) {
        Some(artifact) => Ok(Some(Text::new(alloc, artifact)?)),
        None => Ok(None),
    }
}

fn base(alloc: Global, placed: &[Placed<'_>]) -> Result<Option<Text>, NoMemory>
    ensures { IfOk result (λ b. b ≡ spec.base_in placed.now) }
{
    match first_at(placed, Place::BaseVersion).and_then(value::base_version) {
        Some(base) => Ok(Some(Text::new(alloc, base)?)),
        None => Ok(None),
    }
}

fn moment(placed: &[Placed<'_>]) -> Option<Stamp>
    ensures { result ≡ spec.moment_in placed.now }
{
    value::moment(first_at(placed, Place::LastUpdated)?)
}

/// The build that `snapshot` names.
fn build(placed: &[Placed<'_>]) -> Option<Build>
    ensures { result ≡ spec.build_in placed.now }
{
    let stamp = first_at(placed, Place::Timestamp).and_then(value::timestamp);
    let number = first_at(placed, Place::BuildNumber).and_then(value::number);
    value::build(stamp, number)
}

/// The document with each version that is listed.
fn with_versions(alloc: Global, doc: Doc, placed: &[Placed<'_>]) -> Result<Doc, NoMemory>
    ensures { IfOk result (λ d. d ≡ record doc { listing = fold with_version doc.listing (spec.versions_in placed.now) }) }
{
    let mut whole = doc;
    for element in placed {
        whole = with_version_of(alloc, whole, element)?;
    }
    Ok(whole)
}

/// The document with the version of an element, where it is one that is listed.
fn with_version_of(alloc: Global, doc: Doc, element: &Placed<'_>) -> Result<Doc, NoMemory>
    ensures { IfOk result (λ d. d ≡ record doc { listing = fold with_version doc.listing (spec.versions_in (element.now ∷ [])) }) }
{
    if !element.is_at(Place::Version) {
        return Ok(doc);
    }
    match value::version(element.text()) {
        Some(version) => doc.with_version(Version::parse(alloc, version)?),
        None => Ok(doc),
    }
}

/// The elements up to the next `snapshotVersion`.
fn section<'p, 'a>(placed: &'p [Placed<'a>]) -> &'p [Placed<'a>]
    ensures { result.now ≡ spec.section placed.now }
{
    for i in 0..placed.len() {
        if placed[i].is_at(Place::SnapshotVersion) {
            return &placed[..i];
        }
    }
    placed
}

/// The entry of a `snapshotVersion`, inside which these elements stand.
fn entry(alloc: Global, placed: &[Placed<'_>]) -> Result<Option<(Pair, SnapshotBuild)>, NoMemory>
    ensures { IfOk result (λ e. e ≡ spec.entry_in placed.now) }
{
    let classifier = value::classifier(first_at(placed, Place::Classifier).unwrap_or(b""));
    let extension = first_at(placed, Place::Extension).and_then(value::extension);
    let (Some(classifier), Some(extension)) = (classifier, extension) else {
        return Ok(None);
    };
    match snapshot_build(alloc, placed)? {
        Some(snapshot) => Ok(Some((pair(alloc, classifier, extension)?, snapshot))),
        None => Ok(None),
    }
}

fn pair(alloc: Global, classifier: &str, extension: &str) -> Result<Pair, NoMemory>
    ensures { IfOk result (λ p. p ≡ record { classifier = classifier.now; extension = extension.now }) }
{
    let classifier = Text::new(alloc, classifier)?;
    let extension = Text::new(alloc, extension)?;
    Ok(Pair {
        classifier,
        extension,
    })
}

fn snapshot_build(alloc: Global, placed: &[Placed<'_>]) -> Result<Option<SnapshotBuild>, NoMemory>
    ensures { IfOk result (λ h. h ≡ option_and_then spec.build_value (spec.first_at place.Value placed.now)) }
{
    match first_at(placed, Place::Value) {
        Some(text) => value::snapshot_build(alloc, text),
        None => Ok(None),
    }
}

/// The document with the entry of each `snapshotVersion`.
fn with_entries(alloc: Global, doc: Doc, placed: &[Placed<'_>]) -> Result<Doc, NoMemory>
    ensures { IfOk result (λ d. d ≡ record doc { listing = fold with_build doc.listing (spec.entries_in placed.now) }) }
{
    let mut whole = doc;
    for i in 0..placed.len() {
        if placed[i].is_at(Place::SnapshotVersion) {
            whole = with_entry_in(alloc, whole, section(&placed[i + 1..]))?;
        }
    }
    Ok(whole)
}

/// The document with the entry of a `snapshotVersion`, inside which these elements stand.
fn with_entry_in(alloc: Global, doc: Doc, placed: &[Placed<'_>]) -> Result<Doc, NoMemory>
    ensures { IfOk result (λ d. d ≡ record doc { listing = fold with_build doc.listing (spec.onto (spec.entry_in placed.now) []) }) }
{
    match entry(alloc, placed)? {
        Some((pair, snapshot)) => doc.with_build(pair, snapshot),
        None => Ok(doc),
    }
}

/// The document that elements with their places tell.
pub(crate) fn document(alloc: Global, placed: &[Placed<'_>]) -> Result<Doc, NoMemory>
    ensures { IfOk result (λ d. d ≡ spec.document_in placed.now) }
{
    let group = group(alloc, placed)?;
    let artifact = artifact(alloc, placed)?;
    match base(alloc, placed)? {
        Some(base) => {
            let listing = Listing::Snapshot {
                base,
                newest: build(placed),
                entries: Entries::new(alloc),
            };
            with_entries(alloc, Doc::new(group, artifact, listing), placed)
        }
        None => {
            let listing = Listing::Artifact {
                versions: Versions::new(alloc),
                updated: moment(placed),
            };
            with_versions(alloc, Doc::new(group, artifact, listing), placed)
        }
    }
}
