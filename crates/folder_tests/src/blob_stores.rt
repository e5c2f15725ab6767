// Stores of blobs, in memory and in a folder, through their trait, and reads that are checked. Each store is made in one function,
// which lends it to small ones that know the trait alone, and a call's answer is told as a plain value before the next call: so
// little is carried through the proofs.
ghost use Rattle.std.specs.Prelude.{◌≡◌};
ghost use Rattle.mvn_digest.specs.Digests.{digests_of as digests_in};

use crate::places::{clears, holds, makes, puts, stands};
use mvn_digest::{Digests, Hashes, Known};
use outside::{BlobFault, Blobs, CheckFault, Parcel, Piece, adopt_checked};
use outside_memory::{FaultScript, MemBlobs, read_whole, store_whole};
use outside_system::FolderBlobs;
use std::alloc::{AllocError, Global};
use std::fs::Files;

const FOLDER: &str = "folder_tests_blobs";

const NUMBERED: &str = "folder_tests_numbered";

const MISSING: &str = "folder_tests_missing";

/// The digests of a body.
fn digests_of(bytes: &[u8]) -> Digests
    ensures { result ≡ digests_in bytes.now }
{
    let mut hashes = Hashes::new();
    hashes.update(bytes);
    hashes.finish()
}

/// A store that says how many of its calls have failed.
pub trait Counted: Blobs {
    fn failures(&self) -> u64;
}

impl<R: Files + AllocGlobal + Clone + Drop> Counted for FolderBlobs<R> {
    fn failures(&self) -> u64 {
        self.faults()
    }
}

// Whether a store has these numbers.
pub fn lists<B: Blobs>(blobs: &mut B, numbers: &[u64]) -> Result<bool, BlobFault> {
    Ok(blobs.list()?.as_slice() == numbers)
}

// Whether nothing stands under a number.
pub fn lacks<B: Blobs>(blobs: &mut B, number: u64) -> Result<bool, BlobFault> {
    Ok(blobs.adopt(number)?.is_none())
}

// Bytes are stored under a number.
fn stores<B: Blobs>(blobs: &mut B, number: u64, bytes: &[u8]) -> Result<(), BlobFault> {
    store_whole(blobs, number, bytes)?;
    Ok(())
}

// Whether a call says so.
pub fn is_so(answer: Result<bool, BlobFault>) -> bool {
    matches!(answer, Ok(true))
}

// Whether a call fails.
pub fn has_failed<T: Drop>(answer: Result<T, BlobFault>) -> bool {
    matches!(answer, Err(BlobFault::Failed))
}

// Two blobs, one of them stored once more.
fn stores_two<B: Blobs>(blobs: &mut B) -> Result<bool, BlobFault> {
    stores(blobs, 10, b"a")?;
    stores(blobs, 7, b"abcdef")?;
    stores(blobs, 7, b"abc")?;
    lists(blobs, &[7, 10])
}

// The other one and a third number are removed.
fn removes_one<B: Blobs>(blobs: &mut B) -> Result<bool, BlobFault> {
    blobs.remove(10)?;
    blobs.remove(3)?;
    Ok(lists(blobs, &[7])? && lacks(blobs, 10)?)
}

// Whether a read gives these bytes.
fn gives<B: Blobs>(
    blobs: &mut B,
    held: &B::Held,
    at: u64,
    bytes: &[u8],
) -> Result<bool, BlobFault> {
    let mut buffer = [0; 2];
    let count = blobs.read_at(held, at, &mut buffer)?.min(2);
    Ok(&buffer[..count] == bytes)
}

// Both are read in turns, the longer one not to its end before the other, and both from the place that was asked.
fn reads_in_turns<B: Blobs>(blobs: &mut B) -> Result<bool, BlobFault> {
    match (blobs.adopt(7)?, blobs.adopt(10)?) {
        (Some(seven), Some(ten)) => Ok(
            gives(blobs, &seven, 0, b"ab")?
                && gives(blobs, &ten, 0, b"a")?
                && gives(blobs, &seven, 2, b"c")?
                && gives(blobs, &ten, 1, b"")?,
        ),
        _ => Ok(false),
    }
}

fn keeps_by_number<B: Blobs>(alloc: Global, blobs: &mut B) -> Result<bool, BlobFault> {
    Ok(
        stores_two(blobs)?
            && reads_in_turns(blobs)?
            && removes_one(blobs)?
            && reads_adopted(alloc, blobs)?,
    )
}

// Number 7 is taken into use again and read, to its end.
fn reads_adopted<B: Blobs>(alloc: Global, blobs: &mut B) -> Result<bool, BlobFault> {
    match blobs.adopt(7)? {
        Some(held) => Ok(read_whole(alloc, blobs, &held)?.as_slice() == b"abc".as_slice()),
        None => Ok(false),
    }
}

// Whether a store in memory does so.
fn memory_keeps(alloc: Global) -> bool {
    let mut blobs = MemBlobs::new(alloc, FaultScript::none(alloc));
    let kept = is_so(keeps_by_number(alloc, &mut blobs));
    kept && blobs.faults() == 0 && blobs.removed() == [10, 3].as_slice()
}

#[test]
fn a_store_in_memory_keeps_by_number(rt: HostRuntime) {
    assert!(rt; memory_keeps(rt.alloc()));
}

fn folder_blobs(rt: &HostRuntime, folder: &str) -> Result<FolderBlobs<HostRuntime>, AllocError> {
    FolderBlobs::new(rt.clone()?, String::from_str(rt.alloc(), folder)?)
}

// What is to hold of a store in a folder.
#[derive(Clone, Copy)]
enum Way {
    // It keeps by number.
    Keeps,
    // It has what another one has stored, and passes over what is no blob.
    ReadsAgain,
    // Where a folder stands under a number, nothing can be stored there, and nothing is listed or adopted.
    PassesOver,
    // Where its folder is missing, a store fails and a list, each counted.
    Misses,
}

fn keeps<B: Counted>(alloc: Global, blobs: &mut B) -> bool {
    let kept = is_so(keeps_by_number(alloc, blobs));
    kept && blobs.failures() == 0
}

fn reads_again<B: Counted>(alloc: Global, blobs: &mut B) -> bool {
    let read = is_so(reads_adopted(alloc, blobs));
    let listed = is_so(lists(blobs, &[7]));
    read && listed && blobs.failures() == 0
}

fn passes_over<B: Counted>(blobs: &mut B) -> bool {
    let stored = has_failed(stores(blobs, 7, b"abc"));
    let faults = blobs.failures();
    let listed = is_so(lists(blobs, &[8]));
    let absent = is_so(lacks(blobs, 7));
    stored && faults == 1 && listed && absent && blobs.failures() == 1
}

fn misses<B: Counted>(blobs: &mut B) -> bool {
    let stored = has_failed(stores(blobs, 1, b"abc"));
    let faults = blobs.failures();
    let listed = has_failed(lists(blobs, &[]));
    let more = blobs.failures();
    let absent = is_so(lacks(blobs, 1));
    let removed = blobs.remove(1).is_ok();
    stored && faults == 1 && listed && more == 2 && absent && removed && blobs.failures() == 2
}

fn folder_has(rt: &HostRuntime, folder: &str, what: Way) -> bool {
    match folder_blobs(rt, folder) {
        Ok(mut blobs) => match what {
            Way::Keeps => keeps(rt.alloc(), &mut blobs),
            Way::ReadsAgain => reads_again(rt.alloc(), &mut blobs),
            Way::PassesOver => passes_over(&mut blobs),
            Way::Misses => misses(&mut blobs),
        },
        Err(_) => false,
    }
}

// Another store of the same folder, as after a restart, has the blob.
#[test]
fn a_folder_keeps_by_number(rt: HostRuntime) {
    assert!(rt; makes(&rt, FOLDER));
    assert!(rt; folder_has(&rt, FOLDER, Way::Keeps));
    assert!(rt; puts(&rt, "folder_tests_blobs/8.part", b"left over"));
    assert!(rt; puts(&rt, "folder_tests_blobs/09", b"no number"));
    assert!(rt; folder_has(&rt, FOLDER, Way::ReadsAgain));
    assert!(rt; holds(&rt, "folder_tests_blobs/7", b"abc"));
    assert!(rt; clears(&rt, FOLDER));
}

// What was refused leaves nothing after.
#[test]
fn a_folder_with_a_number_is_no_blob(rt: HostRuntime) {
    assert!(rt; makes(&rt, NUMBERED) && makes(&rt, "folder_tests_numbered/7"));
    assert!(rt; puts(&rt, "folder_tests_numbered/8", b"abc"));
    assert!(rt; folder_has(&rt, NUMBERED, Way::PassesOver));
    assert!(rt; !stands(&rt, "folder_tests_numbered/7.part"));
    assert!(rt; clears(&rt, NUMBERED));
}

#[test]
fn a_missing_folder_fails(rt: HostRuntime) {
    assert!(rt; folder_has(&rt, MISSING, Way::Misses));
}

// Whether a checked look found these bytes in place of those that were recorded.
fn is_other<T: Drop>(look: Result<T, CheckFault>, bytes: &[u8]) -> bool {
    match look {
        Err(CheckFault::Differs { length, digests }) => {
            length == bytes.len() as u64 && digests == digests_of(bytes)
        }
        _ => false,
    }
}

// A checked look under a number for three bytes of which this is known.
fn look<B: Blobs>(
    alloc: Global,
    blobs: &mut B,
    number: u64,
    known: &Known,
) -> Result<Option<Parcel<B::Held>>, CheckFault> {
    let mut room = Piece::new(alloc).map_err(BlobFault::from)?;
    adopt_checked(blobs, number, 3, known, &mut room)
}

// Whether a checked look at `abc` finds these bytes in place of it.
fn finds(alloc: Global, bytes: &[u8], wanted: bool) -> bool {
    let abc = digests_of(b"abc").known();
    let mut blobs = MemBlobs::new(alloc, FaultScript::none(alloc));
    let stored = stores(&mut blobs, 1, bytes).is_ok();
    let other = is_other(look(alloc, &mut blobs, 1, &abc), bytes);
    stored && other == wanted && blobs.faults() == 0
}

#[test]
fn other_bytes_are_found(rt: HostRuntime) {
    assert!(rt; finds(rt.alloc(), b"", true));
    assert!(rt; finds(rt.alloc(), b"ab", true));
    assert!(rt; finds(rt.alloc(), b"abd", true));
    assert!(rt; finds(rt.alloc(), b"abcd", true));
    assert!(rt; finds(rt.alloc(), b"abc", false));
}

// Whether what was found is `abc`, and reads so.
fn is_abc<B: Blobs>(
    alloc: Global,
    blobs: &mut B,
    parcel: &Parcel<B::Held>,
) -> Result<bool, CheckFault> {
    let bytes = read_whole(alloc, blobs, &parcel.held)?;
    Ok(parcel.blob == 1 && bytes.as_slice() == b"abc".as_slice())
}

// What stands under 1 is taken into use as `abc` and read, and nothing stands under 2.
fn adopts_abc<B: Blobs>(alloc: Global, blobs: &mut B) -> Result<bool, CheckFault> {
    let abc = digests_of(b"abc").known();
    if look(alloc, blobs, 2, &abc)?.is_some() {
        return Ok(false);
    }
    match look(alloc, blobs, 1, &abc)? {
        Some(parcel) => is_abc(alloc, blobs, &parcel),
        None => Ok(false),
    }
}

fn is_checked(answer: Result<bool, CheckFault>) -> bool {
    matches!(answer, Ok(true))
}

fn memory_gives_abc(alloc: Global) -> bool {
    let mut blobs = MemBlobs::new(alloc, FaultScript::none(alloc));
    let stored = stores(&mut blobs, 1, b"abc").is_ok();
    let adopted = is_checked(adopts_abc(alloc, &mut blobs));
    stored && adopted
}

#[test]
fn the_recorded_bytes_are_given(rt: HostRuntime) {
    assert!(rt; memory_gives_abc(rt.alloc()));
}
