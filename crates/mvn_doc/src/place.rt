//! Where an element stands in a document.
ghost use Rattle.std.specs.Prelude.{◌≡◌, ◌-◌, ◌++◌, ◌∷◌, IfOk, OnOk, [], map, take, List};
ghost use Rattle.xml_subset.specs.Element.{Element as ShownElement, shown};
ghost use Rattle.mvn_doc.specs.Place as spec;

use byte_cuts::bytes::is;
use mvn_metadata::NoMemory;
use std::alloc::Global;
use std::marker::Model;
use xml_subset::Element;

/// What is known of an element by its way from the root (Maven repository metadata 1.1.0).
#[derive(Clone, Copy, Debug, PartialEq, Eq)]
pub enum Place {
    Outside,
    Metadata,
    GroupId,
    ArtifactId,
    BaseVersion,
    Versioning,
    LastUpdated,
    Versions,
    Version,
    Snapshot,
    Timestamp,
    BuildNumber,
    SnapshotVersions,
    SnapshotVersion,
    Classifier,
    Extension,
    Value,
    /// Any other element, and what stands inside it.
    Other,
}

fn in_metadata(name: &[u8]) -> Place
    ensures { result ≡ spec.in_metadata name.now }
{
    if is(name, b"groupId") {
        Place::GroupId
    } else if is(name, b"artifactId") {
        Place::ArtifactId
    } else if is(name, b"version") {
        Place::BaseVersion
    } else if is(name, b"versioning") {
        Place::Versioning
    } else {
        Place::Other
    }
}

fn in_versioning(name: &[u8]) -> Place
    ensures { result ≡ spec.in_versioning name.now }
{
    if is(name, b"lastUpdated") {
        Place::LastUpdated
    } else if is(name, b"versions") {
        Place::Versions
    } else if is(name, b"snapshot") {
        Place::Snapshot
    } else if is(name, b"snapshotVersions") {
        Place::SnapshotVersions
    } else {
        Place::Other
    }
}

fn in_snapshot(name: &[u8]) -> Place
    ensures { result ≡ spec.in_snapshot name.now }
{
    if is(name, b"timestamp") {
        Place::Timestamp
    } else if is(name, b"buildNumber") {
        Place::BuildNumber
    } else {
        Place::Other
    }
}

fn in_snapshot_version(name: &[u8]) -> Place
    ensures { result ≡ spec.in_snapshot_version name.now }
{
    if is(name, b"classifier") {
        Place::Classifier
    } else if is(name, b"extension") {
        Place::Extension
    } else if is(name, b"value") {
        Place::Value
    } else {
        Place::Other
    }
}

impl Place {
    /// The place of an element with this name inside one at this place.
    fn below(self, name: &[u8]) -> Place
        ensures { result ≡ spec.below self name.now }
    {
        match self {
            Place::Outside => Place::Metadata,
            Place::Metadata => in_metadata(name),
            Place::Versioning => in_versioning(name),
            Place::Versions if is(name, b"version") => Place::Version,
            Place::Snapshot => in_snapshot(name),
            Place::SnapshotVersions if is(name, b"snapshotVersion") => Place::SnapshotVersion,
            Place::SnapshotVersion => in_snapshot_version(name),
            _ => Place::Other,
        }
    }

    pub(crate) fn is_at(self, place: Place) -> bool
        ensures { result ≡ spec.is_at self place }
    {
        self as u8 == place as u8
    }
}

/// An element's place and its own text.
#[derive(Drop)]
pub struct Placed<'a> {
    place: Place,
    text: &'a [u8],
}

impl<'a> Model for Placed<'a> {
    ghost use Rattle.mvn_doc.specs.Place.{Placed as PlacedAs};

    ghost Value = { PlacedAs };

    ghost view = { λ p. record { place = p.place; text = p.text.now } };
}

impl<'a> Placed<'a> {
    pub(crate) fn is_at(&self, place: Place) -> bool
        ensures { result ≡ spec.is_at self.now.place place }
    {
        self.place.is_at(place)
    }

    pub(crate) fn text(&self) -> &'a [u8]
        ensures { result.now ≡ self.now.text }
    {
        self.text
    }
}

/// The place of the innermost open element; `Outside` where none is open.
fn innermost(around: &[Place]) -> Place
    ensures { result ≡ spec.innermost around.now }
{
    around.last().copied().unwrap_or(Place::Outside)
}

/// The place of an element, which is from here on the innermost open one.
fn enter(opened: &mut Vec<Place>, depth: usize, name: &[u8]) -> Result<Place, NoMemory>
    ensures place { IfOk result (λ p. p ≡ spec.below (spec.innermost (take (depth - 1) opened.old.items)) name.now) }
    ensures opened { OnOk result (opened.new.items ≡ take (depth - 1) opened.old.items
        ++ spec.below (spec.innermost (take (depth - 1) opened.old.items)) name.now ∷ []) }
{
    opened.truncate(depth.saturating_sub(1));
    let place = innermost(opened.as_slice()).below(name);
    opened.push(place)?;
    Ok(place)
}

/// Places one more element after those that are placed.
fn add_placed<'a>(
    placed: &mut Vec<Placed<'a>>,
    opened: &mut Vec<Place>,
    element: &'a Element<'a>,
) -> Result<(), NoMemory>
    ensures { OnOk result ((es : List ShownElement) → placed.new.items ++ spec.placed opened.new.items es
        ≡ placed.old.items ++ spec.placed opened.old.items (shown element.now ∷ es)) }
{
    let place = enter(opened, element.depth, element.name)?;
    placed.push(Placed {
        place,
        text: element.text.as_slice(),
    })?;
    Ok(())
}

/// Elements in document order with their places.
pub(crate) fn with_places<'a>(
    alloc: Global,
    elements: &'a [Element<'a>],
) -> Result<Vec<Placed<'a>>, NoMemory>
    ensures { IfOk result (λ ps. ps.items ≡ spec.placed [] (map shown elements.now)) }
{
    let mut placed = Vec::new(alloc);
    let mut opened = Vec::new(alloc);
    for element in elements {
        add_placed(&mut placed, &mut opened, element)?;
    }
    Ok(placed)
}
