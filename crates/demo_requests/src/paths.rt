//! The paths of the requests, each pushed after a text.
ghost use Rattle.std.specs.Prelude.{◌≡◌, ◌≤◌, ◌+◌, ◌++◌, OnOk};
ghost use Rattle.std.specs.Fmt.{decimal};
ghost use Rattle.demo_requests.specs.Requests as spec;

use crate::NoMemory;
use crate::requests::FIRST_MOMENT;
use mvn_coords::Stamp;
use std::alloc::Global;

pub(crate) fn push_number(alloc: Global, text: &mut Vec<u8>, number: u64) -> Result<(), NoMemory>
    ensures { OnOk result (text.new.items ≡ text.old.items ++ decimal number) }
{
    text.extend_from_slice(number.to_string(alloc)?.as_bytes())
}

/// The directory of an artifact.
pub(crate) fn push_directory(
    alloc: Global,
    text: &mut Vec<u8>,
    artifact: u64,
) -> Result<(), NoMemory>
    ensures { OnOk result (text.new.items ≡ text.old.items ++ spec.directory artifact) }
{
    text.extend_from_slice(b"demo/a")?;
    push_number(alloc, text, artifact)?;
    text.extend_from_slice(b"/")
}

/// The beginning of the names of a version's files, after its directory.
fn push_name(alloc: Global, text: &mut Vec<u8>, artifact: u64, version: u64) -> Result<(), NoMemory>
    ensures { OnOk result (text.new.items ≡ text.old.items ++ spec.name artifact version) }
{
    text.extend_from_slice(b"/a")?;
    push_number(alloc, text, artifact)?;
    text.extend_from_slice(b"-")?;
    push_number(alloc, text, version)?;
    text.extend_from_slice(b".0")
}

/// The file of a release.
pub(crate) fn push_release(
    alloc: Global,
    text: &mut Vec<u8>,
    artifact: u64,
    version: u64,
) -> Result<(), NoMemory>
    ensures { OnOk result (text.new.items ≡ text.old.items ++ spec.release artifact version) }
{
    push_directory(alloc, text, artifact)?;
    push_number(alloc, text, version)?;
    text.extend_from_slice(b".0")?;
    push_name(alloc, text, artifact, version)?;
    text.extend_from_slice(b".jar")
}

/// The directory of a snapshot.
pub(crate) fn push_snapshot(
    alloc: Global,
    text: &mut Vec<u8>,
    artifact: u64,
    version: u64,
) -> Result<(), NoMemory>
    ensures { OnOk result (text.new.items ≡ text.old.items ++ spec.snapshot artifact version) }
{
    push_directory(alloc, text, artifact)?;
    push_number(alloc, text, version)?;
    text.extend_from_slice(b".0-SNAPSHOT")
}

/// A moment's text and a number, each after a dash.
fn push_dashed(alloc: Global, text: &mut Vec<u8>, stamp: &[u8], number: u64) -> Result<(), NoMemory>
    ensures { OnOk result (text.new.items ≡ text.old.items ++ spec.dashed stamp.now number) }
{
    text.extend_from_slice(b"-")?;
    text.extend_from_slice(stamp)?;
    text.extend_from_slice(b"-")?;
    push_number(alloc, text, number)
}

/// The build of a place: its moment, a second after that of the place before it, and its number.
fn push_build_text(alloc: Global, text: &mut Vec<u8>, place: u32) -> Result<(), NoMemory>
    ensures { OnOk result (text.new.items ≡ text.old.items ++ spec.build_text place) }
{
    let number = u64::from(place);
    let stamp = Stamp::from_moment(FIRST_MOMENT + number).text();
    push_dashed(alloc, text, &stamp, number)
}

/// The file of a snapshot's build.
pub(crate) fn push_build(
    alloc: Global,
    text: &mut Vec<u8>,
    artifact: u64,
    version: u64,
    place: u32,
) -> Result<(), NoMemory>
    ensures { OnOk result (text.new.items ≡ text.old.items ++ spec.build artifact version place) }
{
    push_snapshot(alloc, text, artifact, version)?;
    push_name(alloc, text, artifact, version)?;
    push_build_text(alloc, text, place)?;
    text.extend_from_slice(b".jar")
}
