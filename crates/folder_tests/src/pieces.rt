// The calls of a real file system for blobs, which are written and read whole or piece by piece, and each of which may be refused.
// A store whose calls are noted is made in one function, which lends it to small ones that know its trait alone.
ghost use Rattle.std.specs.Prelude.{◌≡◌, IfOk, false};

use crate::blob_stores::{Counted, has_failed, is_so, lacks, lists};
use crate::noted::{Noted, Notes};
use crate::orders::are;
use crate::places::{clears, makes, puts, stands};
use mvn_digest::Hashes;
use outside::{BlobFault, Failed, Reading, Step};
use outside_memory::{read_whole, store_whole};
use outside_system::FolderBlobs;
use std::alloc::{AllocError, Global};
use std::fs;
use std::io::ErrorKind;
use std::os::unix::fs::symlink;

// Of a blob that is stored and read whole, an adoption, a list and a removal.
const BLOB_CALLS: &str = "overwrite orders_blobs/7.part
remove orders_blobs/7
write orders_blobs/7.part
sync orders_blobs/7.part
rename orders_blobs/7.part
to orders_blobs/7
open orders_blobs
sync orders_blobs
look at orders_blobs/7
open orders_blobs/7
read orders_blobs/7
read orders_blobs/7
look at orders_blobs/7
list orders_blobs/
look at orders_blobs/7
remove orders_blobs/7
remove orders_blobs/7.part
";

fn reads_abc<B: Counted>(alloc: Global, blobs: &mut B, held: &B::Held) -> Result<bool, BlobFault> {
    Ok(read_whole(alloc, blobs, held)?.as_slice() == b"abc".as_slice())
}

fn calls_all<B: Counted>(alloc: Global, blobs: &mut B) -> Result<bool, BlobFault> {
    let held = store_whole(blobs, 7, b"abc")?;
    let read = reads_abc(alloc, blobs, &held)?;
    let absent = lacks(blobs, 7)?;
    let listed = lists(blobs, &[7])?;
    blobs.remove(7)?;
    Ok(read && !absent && listed)
}

fn is_synced<B: Counted>(rt: &HostRuntime, notes: &Notes, blobs: &mut B) -> bool {
    let called = is_so(calls_all(rt.alloc(), blobs));
    called && are(rt, notes, BLOB_CALLS)
}

// Whether a call is told as one that failed, where one of the system's is refused.
fn is_told<B: Counted>(alloc: Global, blobs: &mut B) -> bool {
    let failed = has_failed(calls_all(alloc, blobs));
    failed && blobs.failures() == 1
}

// Whether it is not known then what stands under 7, nor what is there.
fn is_unknown<B: Counted>(blobs: &mut B) -> bool {
    let unknown = has_failed(lacks(blobs, 7));
    let unlisted = has_failed(lists(blobs, &[7]));
    unknown && unlisted && blobs.failures() == 2
}

// Whether what stands under 7 is neither read, adopted nor listed.
fn is_absent<B: Counted>(blobs: &mut B) -> Result<bool, BlobFault> {
    let absent = lacks(blobs, 7)?;
    Ok(lists(blobs, &[])? && absent)
}

// Whether no byte of a blob can be read.
fn is_unread<B: Counted>(blobs: &mut B, held: &B::Held, at: u64) -> bool {
    let unread = blobs.read_at(held, at, &mut [0; 1]).is_err();
    unread && blobs.failures() == 1
}

// A blob that was removed again.
fn removed<B: Counted>(blobs: &mut B) -> Result<B::Held, BlobFault> {
    let held = store_whole(blobs, 7, b"abc")?;
    blobs.remove(7)?;
    Ok(held)
}

// Whether another thing in its place is no blob.
fn is_no_blob<B: Counted>(rt: &HostRuntime, blobs: &mut B) -> Result<bool, BlobFault> {
    let held = removed(blobs)?;
    let made = symlink(rt, "/dev/null", "orders_special/7").is_ok();
    let unread = is_unread(blobs, &held, 0);
    let absent = is_absent(blobs)?;
    Ok(made && unread && absent && blobs.failures() == 1)
}

// A device is not opened, nor would a pipe be, on which an open waits until another one writes.
fn is_not_opened<B: Counted>(rt: &HostRuntime, notes: &Notes, blobs: &mut B) -> bool {
    let none = is_so(is_no_blob(rt, blobs));
    let calls = notes.take();
    none && !calls.as_str().contains("\nopen orders_special/7\n")
}

// A blob of two pieces, in the place of another.
const WRITTEN: &str = "overwrite pieces_whole/7.part
remove pieces_whole/7
write pieces_whole/7.part
write pieces_whole/7.part
sync pieces_whole/7.part
rename pieces_whole/7.part
to pieces_whole/7
open pieces_whole
sync pieces_whole
";

fn write_two<B: Counted>(blobs: &mut B) -> Result<B::Held, BlobFault> {
    let mut pen = blobs.begin(7)?;
    blobs.append(&mut pen, b"abc")?;
    blobs.append(&mut pen, b"de")?;
    blobs.seal(pen)
}

// One open, and one read after the last byte.
const READ: &str = "look at pieces_whole/7
open pieces_whole/7
read pieces_whole/7
read pieces_whole/7
";

// All of it in one read, and the end.
fn reads_abcde<B: Counted>(blobs: &mut B, held: &B::Held) -> Result<bool, Failed> {
    let mut buffer = [0; 5];
    let count = blobs.read_at(held, 0, &mut buffer)?;
    let end = blobs.read_at(held, 5, &mut [0; 1])?;
    Ok(count == 5 && buffer == *b"abcde" && end == 0)
}

// The file was closed at its end. It is opened again for two reads, and closed when it is removed.
const AGAIN: &str = "look at pieces_whole/7
open pieces_whole/7
read pieces_whole/7
read pieces_whole/7
remove pieces_whole/7
remove pieces_whole/7.part
look at pieces_whole/7
";

// Read again from the end to the front.
fn reads_backwards<B: Counted>(blobs: &mut B, held: &B::Held) -> Result<bool, Failed> {
    let mut last = [0; 2];
    let mut first = [0; 3];
    let two = blobs.read_at(held, 3, &mut last)?;
    let three = blobs.read_at(held, 0, &mut first)?;
    Ok(two == 2 && three == 3 && last == *b"de" && first == *b"abc")
}

// Removed while the file is open.
fn is_gone<B: Counted>(blobs: &mut B, held: &B::Held) -> bool {
    let removed = blobs.remove(7).is_ok();
    removed && is_unread(blobs, held, 3)
}

fn is_written_and_read<B: Counted>(
    rt: &HostRuntime,
    notes: &Notes,
    blobs: &mut B,
) -> Result<bool, BlobFault> {
    let held = write_two(blobs)?;
    let written = are(rt, notes, WRITTEN);
    let first = reads_abcde(blobs, &held)?;
    let read = are(rt, notes, READ);
    let second = reads_backwards(blobs, &held)?;
    let gone = is_gone(blobs, &held);
    Ok(written && first && read && second && gone && are(rt, notes, AGAIN))
}

// What a GET of a small file makes of the disk.
const READ_SMALL: &str = "look at pieces_small/7
open pieces_small/7
read pieces_small/7
read pieces_small/7
";

// A blob of 1,024 bytes.
fn write_small<B: Counted>(blobs: &mut B) -> Result<B::Held, BlobFault> {
    let mut pen = blobs.begin(7)?;
    blobs.append(&mut pen, &[b'a'; 1_024])?;
    blobs.seal(pen)
}

fn reading_of_small(alloc: Global) -> Result<Reading, AllocError>
    ensures { IfOk result (λ reading. reading.is_spent ≡ false) }
{
    let mut hashes = Hashes::new();
    hashes.update(&[b'a'; 1_024]);
    Reading::new(alloc, 1_024, hashes.finish())
}

fn reads_out<B: Counted>(alloc: Global, blobs: &mut B, held: &B::Held) -> Result<bool, BlobFault> {
    let mut reading = reading_of_small(alloc)?;
    Ok(reading.next(blobs, held)? == Step::Piece && reading.piece().len() == 1_024)
}

fn is_read_twice<B: Counted>(
    rt: &HostRuntime,
    notes: &Notes,
    blobs: &mut B,
) -> Result<bool, BlobFault> {
    let held = write_small(blobs)?;
    let _written = notes.take();
    Ok(reads_out(rt.alloc(), blobs, &held)? && are(rt, notes, READ_SMALL))
}

// A body that ends within its second piece.
fn tear<B: Counted>(blobs: &mut B) -> Result<(), BlobFault> {
    let mut pen = blobs.begin(7)?;
    blobs.append(&mut pen, b"abc")
}

// Whether a file is there and empty.
fn is_empty(rt: &HostRuntime, path: &str) -> bool {
    match fs::metadata(rt, path) {
        Ok(found) => found.len() == 0,
        Err(_) => false,
    }
}

// Its file is emptied, and goes with the number.
fn is_torn<B: Counted>(rt: &HostRuntime, blobs: &mut B) -> bool {
    let torn = tear(blobs).is_ok();
    let absent = is_so(is_absent(blobs));
    let empty = is_empty(rt, "pieces_torn/7.part");
    let removed = blobs.remove(7).is_ok();
    let left = stands(rt, "pieces_torn/7.part");
    torn && absent && empty && removed && !left && blobs.failures() == 0
}

// Bytes that the disk has no room for are refused, and so is the blob; the pen is let go.
fn is_full<B: Counted>(blobs: &mut B) -> Result<bool, BlobFault> {
    let mut pen = blobs.begin(7)?;
    let refused = has_failed(blobs.append(&mut pen, b"abc"));
    let again = has_failed(blobs.append(&mut pen, b"abc"));
    let sealed = has_failed(blobs.seal(pen));
    Ok(refused && again && sealed && blobs.failures() == 3)
}

// Whether a number's file cannot be made or removed, in whose place a folder stands.
fn is_refused<B: Counted>(blobs: &mut B, number: u64) -> bool {
    has_failed(blobs.begin(number))
}

// Bytes that are taken, and cannot be synced, are no blob.
fn is_unsynced<B: Counted>(blobs: &mut B) -> Result<bool, BlobFault> {
    let mut pen = blobs.begin(10)?;
    blobs.append(&mut pen, b"abc")?;
    let sealed = has_failed(blobs.seal(pen));
    Ok(sealed && lacks(blobs, 10)?)
}

fn all_fail<B: Counted>(blobs: &mut B) -> bool {
    let full = is_so(is_full(blobs));
    let absent = is_so(is_absent(blobs));
    let unsynced = is_so(is_unsynced(blobs));
    let made = is_refused(blobs, 8);
    let removed = is_refused(blobs, 9);
    full && absent && unsynced && made && removed && blobs.failures() == 6
}

// What is looked at of a store.
#[derive(Clone, Copy)]
enum Way {
    Synced,
    Special,
    Pieces,
    Small,
    Torn,
    Failing,
    Told,
    Unknown,
}

// Whether a store in a folder, whose calls are noted, does as it should, where this call is refused.
fn does_where(
    rt: &HostRuntime,
    folder: &str,
    refused: Option<&str>,
    way: Way,
) -> Result<bool, AllocError> {
    let notes = match refused {
        Some(call) => Notes::refusing(rt.alloc(), call, ErrorKind::TimedOut)?,
        None => Notes::new(rt.alloc())?,
    };
    let name = String::from_str(rt.alloc(), folder)?;
    let mut blobs = FolderBlobs::new(Noted::new(rt, &notes)?, name)?;
    match way {
        Way::Synced => Ok(is_synced(rt, &notes, &mut blobs)),
        Way::Special => Ok(is_not_opened(rt, &notes, &mut blobs)),
        Way::Pieces => Ok(is_so(is_written_and_read(rt, &notes, &mut blobs))),
        Way::Small => Ok(is_so(is_read_twice(rt, &notes, &mut blobs))),
        Way::Torn => Ok(is_torn(rt, &mut blobs)),
        Way::Failing => Ok(all_fail(&mut blobs)),
        Way::Told => Ok(is_told(rt.alloc(), &mut blobs)),
        Way::Unknown => Ok(is_unknown(&mut blobs)),
    }
}

fn does_well(rt: &HostRuntime, folder: &str, way: Way) -> bool {
    matches!(does_where(rt, folder, None, way), Ok(true))
}

// The first of a blob's calls that is passed over where it is refused.
fn passed_over(rt: &HostRuntime, folder: &str) -> Option<&'static str> {
    for call in BLOB_CALLS.lines() {
        let told = makes(rt, folder)
            && matches!(does_where(rt, folder, Some(call), Way::Told), Ok(true));
        if !told {
            return Some(call);
        }
    }
    None
}

// The same in a folder that is removed then.
fn ends_well(rt: &HostRuntime, folder: &str, way: Way) -> bool {
    does_well(rt, folder, way) && clears(rt, folder)
}

#[test]
fn a_blob_is_synced_and_then_its_name(rt: HostRuntime) {
    assert!(rt; makes(&rt, "orders_blobs") && ends_well(&rt, "orders_blobs", Way::Synced));
    assert_eq!(rt; passed_over(&rt, "orders_blobs"), None);
    assert!(rt; clears(&rt, "orders_blobs"));
}

// A look that is refused finds neither that a blob is there nor that it is not.
#[test]
fn a_refused_look_tells_nothing(rt: HostRuntime) {
    let refused = Some("look at pieces_unknown/7");
    assert!(rt; makes(&rt, "pieces_unknown") && puts(&rt, "pieces_unknown/7", b"abc"));
    assert!(rt;
        matches!(
            does_where(&rt, "pieces_unknown", refused, Way::Unknown),
            Ok(true)
        )
    );
    assert!(rt; clears(&rt, "pieces_unknown"));
}

#[test]
fn what_is_no_file_is_not_opened(rt: HostRuntime) {
    assert!(rt; makes(&rt, "orders_special") && ends_well(&rt, "orders_special", Way::Special));
}

#[test]
fn a_small_file_is_opened_once_and_read_twice(rt: HostRuntime) {
    assert!(rt; makes(&rt, "pieces_small") && ends_well(&rt, "pieces_small", Way::Small));
}

#[test]
fn a_body_in_pieces_is_synced_and_then_named(rt: HostRuntime) {
    assert!(rt; makes(&rt, "pieces_whole"));
    assert!(rt; puts(&rt, "pieces_whole/7", b"older and longer"));
    assert!(rt; ends_well(&rt, "pieces_whole", Way::Pieces));
}

// A torn body is no blob, also where one stood under its number.
#[test]
fn a_torn_body_leaves_no_blob(rt: HostRuntime) {
    assert!(rt; makes(&rt, "pieces_torn") && puts(&rt, "pieces_torn/7", b"older"));
    assert!(rt; ends_well(&rt, "pieces_torn", Way::Torn));
}

#[test]
fn each_call_of_a_pen_may_fail(rt: HostRuntime) {
    assert!(rt; makes(&rt, "pieces_failing"));
    assert!(rt; symlink(&rt, "/dev/full", "pieces_failing/7.part").is_ok());
    assert!(rt; symlink(&rt, "/dev/null", "pieces_failing/10.part").is_ok());
    assert!(rt; makes(&rt, "pieces_failing/8.part") && makes(&rt, "pieces_failing/9"));
    assert!(rt; does_well(&rt, "pieces_failing", Way::Failing));
    assert!(rt; !stands(&rt, "pieces_failing/9.part"));
    assert!(rt; clears(&rt, "pieces_failing"));
}
