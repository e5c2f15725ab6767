// What is done with a journal over a disk in memory, and what it leaves: plain values, of which nothing is to be proved.
ghost use Rattle.std.specs.Prelude.{◌≡◌, None};

use crate::images::images_of;
use crate::starts::{End, commits, journal_of, loads};
use row_tables::Records;
use std::alloc::{AllocError, Global};

/// A journal over this file is loaded; a change is committed, then it is loaded again, or two further changes are committed.
#[derive(Clone, Copy)]
pub struct Course<'a> {
    pub file: &'a [u8],
    // The calls of the disk that fail, and how many bytes such a write still writes.
    pub failing: &'a [u64],
    pub part: u64,
    // After how many calls of its disk the program is stopped.
    pub calls: u64,
    pub first: &'a [u8],
    pub loads_again: bool,
    pub second: &'a [u8],
    pub third: &'a [u8],
}

impl<'a> Course<'a> {
    /// Nothing fails, nothing is committed, and the program is stopped after so many calls.
    pub fn load(file: &'a [u8], calls: u64) -> Course<'a> {
        Course {
            file,
            failing: &[],
            part: 0,
            calls,
            first: &[],
            loads_again: false,
            second: &[],
            third: &[],
        }
    }
}

/// How the calls of a course ended; the second one is a commit or a load.
#[derive(Clone, Copy)]
pub struct Ends {
    pub loaded: bool,
    pub first: End,
    pub second: End,
    pub third: End,
}

/// What a course comes to: how its calls ended, the file, and all files that a crash may leave then.
#[derive(Drop)]
pub struct Left {
    pub ends: Ends,
    pub file: Vec<u8>,
    pub images: Vec<Vec<u8>>,
}

fn end_of_load<R: Records>(alloc: Global, records: &mut R) -> End {
    if loads(alloc, records) {
        End::Done
    } else {
        End::Failed
    }
}

// Both further changes.
fn goes_on<R: Records>(alloc: Global, records: &mut R, course: &Course<'_>) -> (End, End)
    requires ready { (R.shows records.old).IsReady }
    requires untold { (R.shows records.old).tables ≡ None }
{
    let second = commits(alloc, records, course.second);
    let third = commits(alloc, records, course.third);
    (second, third)
}

// What comes after the load.
fn begins<R: Records>(alloc: Global, records: &mut R, course: &Course<'_>) -> Ends
    requires ready { (R.shows records.old).IsReady }
    requires untold { (R.shows records.old).tables ≡ None }
{
    let first = commits(alloc, records, course.first);
    let (second, third) = if course.loads_again {
        (end_of_load(alloc, records), End::Skipped)
    } else {
        goes_on(alloc, records, course)
    };
    Ends {
        loaded: true,
        first,
        second,
        third,
    }
}

fn drive<R: Records>(alloc: Global, records: &mut R, course: &Course<'_>) -> Ends
    requires { (R.shows records.old).tables ≡ None }
{
    match records.load(alloc) {
        Ok(_) => begins(alloc, records, course),
        Err(_) => Ends {
            loaded: false,
            first: End::Skipped,
            second: End::Skipped,
            third: End::Skipped,
        },
    }
}

/// What is left of a course.
pub fn left_by(alloc: Global, course: &Course<'_>) -> Result<Left, AllocError> {
    let mut journal = journal_of(
        alloc,
        course.file,
        course.failing,
        course.part,
        course.calls,
    )?;
    let ends = drive(alloc, &mut journal, course);
    let disk = journal.disk().inside();
    let file = disk.bytes().to_vec(alloc)?;
    let images = images_of(alloc, disk)?;
    Ok(Left { ends, file, images })
}
