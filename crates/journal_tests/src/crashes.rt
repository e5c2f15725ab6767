// A journal that is stopped after each call of its disk: what a crash leaves loads to the tables from before, or to these and
// the one change under way.
use crate::courses::{Course, Left, left_by};
use crate::starts::{End, ONE_SESSION, last_in, opened};
use std::alloc::{AllocError, Global};
use std::test::Fail;

// Whether a start over this file finds one of these last sessions.
fn finds(alloc: Global, file: &[u8], sessions: &[u8]) -> Result<bool, AllocError> {
    match last_in(alloc, file)? {
        Some(last) => Ok(sessions.contains(&last)),
        None => Ok(false),
    }
}

// Whether it does so in each of these files.
fn all_find(alloc: Global, images: &[Vec<u8>], sessions: &[u8]) -> Result<bool, AllocError> {
    for image in images {
        if !finds(alloc, image, sessions)? {
            return Ok(false);
        }
    }
    Ok(true)
}

// A start over this file, which has the last session `before`, opens the next one and is stopped after so many calls; in
// `whole` calls it gets there.
fn crashes_well(
    alloc: Global,
    file: &[u8],
    before: u8,
    calls: u64,
    whole: u64,
) -> Result<bool, AllocError> {
    let after = before.saturating_add(1);
    let change = opened(after);
    let course = Course {
        first: &change,
        ..Course::load(file, calls)
    };
    let left = left_by(alloc, &course)?;
    let made = left.ends.first == End::Done;
    let sessions = if made {
        [after, after]
    } else {
        [before, after]
    };
    Ok(made == (calls >= whole) && all_find(alloc, &left.images, &sessions)?)
}

// The first number of calls of which that is not so.
fn bad_crash(
    alloc: Global,
    file: &[u8],
    before: u8,
    whole: u64,
) -> Result<Option<u64>, AllocError> {
    for calls in 0..16 {
        if !crashes_well(alloc, file, before, calls, whole)? {
            return Ok(Some(calls));
        }
    }
    Ok(None)
}

#[test]
fn a_commit_to_a_new_file_crashes_after_each_call(rt: HostRuntime) -> Result<(), Fail> {
    assert_eq!(rt; bad_crash(rt.alloc(), b"", 0, 9)?, None);
    Ok(())
}

#[test]
fn a_commit_after_another_crashes_after_each_call(rt: HostRuntime) -> Result<(), Fail> {
    assert_eq!(rt; bad_crash(rt.alloc(), &ONE_SESSION, 1, 7)?, None);
    Ok(())
}

// Bytes stand after its closed gate, which the load cuts off.
#[test]
fn a_commit_to_a_longer_file_crashes_after_each_call(rt: HostRuntime) -> Result<(), Fail> {
    let mut file = ONE_SESSION.to_vec(rt.alloc())?;
    file.extend_from_slice(b"left over")?;
    assert_eq!(rt; bad_crash(rt.alloc(), &file, 1, 11)?, None);
    Ok(())
}

// Whether each of these files has so many bytes.
fn all_have(images: &[Vec<u8>], size: usize) -> bool {
    for image in images {
        if image.len() < size {
            return false;
        }
    }
    true
}

// Whether a load of this file that is stopped after so many calls leaves this last session, and takes off nothing of the
// file's beginning of 8 bytes.
fn load_leaves(alloc: Global, file: &[u8], last: u8, calls: u64) -> Result<bool, AllocError> {
    let left = left_by(alloc, &Course::load(file, calls))?;
    let begun = all_have(&left.images, file.len().min(8));
    Ok(begun && all_find(alloc, &left.images, &[last])?)
}

// Whether a load of this file that is stopped after any call leaves what it has.
fn loads_well(alloc: Global, file: &[u8]) -> Result<bool, AllocError> {
    let Some(last) = last_in(alloc, file)? else {
        return Ok(false);
    };
    for calls in 0..8 {
        if !load_leaves(alloc, file, last, calls)? {
            return Ok(false);
        }
    }
    Ok(true)
}

// Whether that is so of each of these files.
fn all_load_well(alloc: Global, images: &[Vec<u8>]) -> Result<bool, AllocError> {
    for image in images {
        if !loads_well(alloc, image)? {
            return Ok(false);
        }
    }
    Ok(true)
}

// What a crash leaves of a commit to a new file that is stopped after so many calls loads well.
fn crashed_loads_well(alloc: Global, calls: u64) -> Result<bool, AllocError> {
    let change = opened(1);
    let mut course = Course::load(b"", calls);
    course.first = &change;
    let left = left_by(alloc, &course)?;
    all_load_well(alloc, &left.images)
}

// The load of each file that a crash leaves of a stopped commit is stopped in turn: the first number of calls after which
// one does not do well.
fn bad_load(alloc: Global) -> Result<Option<u64>, AllocError> {
    for calls in 0..12 {
        if !crashed_loads_well(alloc, calls)? {
            return Ok(Some(calls));
        }
    }
    Ok(None)
}

#[test]
fn a_load_crashes_after_each_call(rt: HostRuntime) -> Result<(), Fail> {
    assert_eq!(rt; bad_load(rt.alloc())?, None);
    Ok(())
}

// Whether the commit of the first change failed.
fn has_failed(left: &Left) -> bool {
    let first = left.ends.first;
    left.ends.loaded && (first == End::Failed || first == End::NoMemory)
}

// The course of a journal over a new file whose disk fails at these calls, of which this part is made, and is stopped after so
// many: the commit of session 5, then that of session 2.
fn course_of<'a>(
    failing: &'a [u64],
    part: u64,
    calls: u64,
    first: &'a [u8],
    second: &'a [u8],
) -> Course<'a> {
    let mut course = Course::load(b"", calls);
    course.failing = failing;
    course.part = part;
    course.first = first;
    course.second = second;
    course
}

// After the failure session 2 is opened: the first change or none while the second is not made, the second alone once it is.
// The file keeps its beginning.
fn undoes_well(alloc: Global, failing: u64, part: u64, calls: u64) -> Result<bool, AllocError> {
    let (five, two, at) = (opened(5), opened(2), [failing]);
    let left = left_by(alloc, &course_of(&at, part, calls, &five, &two))?;
    let made = left.ends.second == End::Done;
    let sessions = if made { [2, 2, 2] } else { [0, 2, 5] };
    let begun = all_have(&left.images, 8);
    Ok(has_failed(&left) && begun && all_find(alloc, &left.images, &sessions)?)
}

// After the failure the journal is loaded again: the change or none while that is not done, none once it is.
fn reloads_well(alloc: Global, failing: u64, part: u64, calls: u64) -> Result<bool, AllocError> {
    let (five, at) = (opened(5), [failing]);
    let mut course = course_of(&at, part, calls, &five, &[]);
    course.loads_again = true;
    let left = left_by(alloc, &course)?;
    let sessions = if left.ends.second == End::Done {
        [0, 0]
    } else {
        [0, 5]
    };
    Ok(has_failed(&left) && all_find(alloc, &left.images, &sessions)?)
}

// Whether both are so, stopped after any call after the one that fails.
fn both_do_well(alloc: Global, failing: u64, part: u64) -> Result<bool, AllocError> {
    for behind in 1..12u64 {
        let calls = failing.saturating_add(behind);
        if !undoes_well(alloc, failing, part, calls)? {
            return Ok(false);
        }
        if !reloads_well(alloc, failing, part, calls)? {
            return Ok(false);
        }
    }
    Ok(true)
}

// The first call that fails of which it is not. The load of a new file has the calls 0 to 4, the commit up to 4 more.
fn bad_failure(alloc: Global, part: u64) -> Result<Option<u64>, AllocError> {
    for failing in 5..9 {
        if !both_do_well(alloc, failing, part)? {
            return Ok(Some(failing));
        }
    }
    Ok(None)
}

#[test]
fn an_undo_crashes_after_each_call(rt: HostRuntime) -> Result<(), Fail> {
    assert_eq!(rt; bad_failure(rt.alloc(), 0)?, None);
    assert_eq!(rt; bad_failure(rt.alloc(), 6)?, None);
    assert_eq!(rt; bad_failure(rt.alloc(), 100)?, None);
    Ok(())
}

// The undo fails too: a commit fails with it, and leaves the first change or none.
fn undo_fails(alloc: Global, course: &Course<'_>) -> Result<bool, AllocError> {
    let left = left_by(alloc, course)?;
    let failed = left.ends.second == End::Failed || left.ends.second == End::NoMemory;
    Ok(has_failed(&left) && failed && all_find(alloc, &left.images, &[0, 5])?)
}

// The next one undoes it, and goes through.
fn undoes_at_last(alloc: Global, course: &Course<'_>) -> Result<bool, AllocError> {
    let left = left_by(alloc, course)?;
    Ok(left.ends.third == End::Done && all_find(alloc, &left.images, &[2])?)
}

fn undoes_later(alloc: Global, failing: u64, undo: u64, part: u64) -> Result<bool, AllocError> {
    let (five, two, at) = (opened(5), opened(2), [failing, undo]);
    let mut course = course_of(&at, part, u64::MAX, &five, &two);
    let failed = undo_fails(alloc, &course)?;
    course.third = &two;
    Ok(failed && undoes_at_last(alloc, &course)?)
}

// The undo has 4 calls, right after the one that failed: the first failure of which one of them does not do well.
fn bad_undo(alloc: Global, part: u64) -> Result<Option<u64>, AllocError> {
    for failing in 5..9u64 {
        for undo in failing + 1..failing + 5 {
            if !undoes_later(alloc, failing, undo, part)? {
                return Ok(Some(failing));
            }
        }
    }
    Ok(None)
}

#[test]
fn an_undo_fails_at_each_call(rt: HostRuntime) -> Result<(), Fail> {
    assert_eq!(rt; bad_undo(rt.alloc(), 0)?, None);
    assert_eq!(rt; bad_undo(rt.alloc(), 6)?, None);
    assert_eq!(rt; bad_undo(rt.alloc(), 100)?, None);
    Ok(())
}
