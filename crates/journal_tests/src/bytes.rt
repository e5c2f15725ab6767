// What commits make of the file of a journal over a disk in memory, byte for byte.
use crate::courses::{Course, left_by};
use crate::starts::{End, NEW, ONE_SESSION};
use std::alloc::{AllocError, Global};
use std::test::Fail;

// The change that opens session 1, and the empty one.
const OPENED: &[u8] = b"\x02\0\0\0\x01\x07\0\0\0\0\0\0\0\x01";

const EMPTY: &[u8] = b"\x02\0\0\0\0";

// The change of a PUT of `abc` to releases.
const DEPLOYED: &[u8] =
    b"\x02\0\0\0\x01\x01\0\x08releases\0\x1corg/acme/lib/1.0/lib-1.0.jar\0\0\0\0\0\0\0\x01\0\0\0\0\0\0\0\x03\xa9\x99\x3e\x36\x47\x06\x81\x6a\xba\x3e\x25\x71\x78\x50\xc2\x6c\x9c\xd0\xd8\x9d\x90\x01\x50\x98\x3c\xd2\x4f\xb0\xd6\x96\x3f\x7d\x28\xe1\x7f\x72\xba\x78\x16\xbf\x8f\x01\xcf\xea\x41\x41\x40\xde\x5d\xae\x22\x23\xb0\x03\x61\xa3\x96\x17\x7a\x9c\xb4\x10\xff\x61\xf2\x00\x15\xad\xdd\xaf\x35\xa1\x93\x61\x7a\xba\xcc\x41\x73\x49\xae\x20\x41\x31\x12\xe6\xfa\x4e\x89\xa9\x7e\xa2\x0a\x9e\xee\xe6\x4b\x55\xd3\x9a\x21\x92\x99\x2a\x27\x4f\xc1\xa8\x36\xba\x3c\x23\xa3\xfe\xeb\xbd\x45\x4d\x44\x23\x64\x3c\xe8\x0e\x2a\x9a\xc9\x4f\xa5\x4c\xa4\x9f\0\0\0\0\x65\xe0\x71\xc0";

// The file of it: 8 bytes of magic, a gate, 4 bytes of length, a payload of 202 and the closed gate.
const DEPLOYED_FILE: &[u8] =
    b"MVNROWS1\x01\0\0\0\xca\x02\0\0\0\x01\x01\0\x08releases\0\x1corg/acme/lib/1.0/lib-1.0.jar\0\0\0\0\0\0\0\x01\0\0\0\0\0\0\0\x03\xa9\x99\x3e\x36\x47\x06\x81\x6a\xba\x3e\x25\x71\x78\x50\xc2\x6c\x9c\xd0\xd8\x9d\x90\x01\x50\x98\x3c\xd2\x4f\xb0\xd6\x96\x3f\x7d\x28\xe1\x7f\x72\xba\x78\x16\xbf\x8f\x01\xcf\xea\x41\x41\x40\xde\x5d\xae\x22\x23\xb0\x03\x61\xa3\x96\x17\x7a\x9c\xb4\x10\xff\x61\xf2\x00\x15\xad\xdd\xaf\x35\xa1\x93\x61\x7a\xba\xcc\x41\x73\x49\xae\x20\x41\x31\x12\xe6\xfa\x4e\x89\xa9\x7e\xa2\x0a\x9e\xee\xe6\x4b\x55\xd3\x9a\x21\x92\x99\x2a\x27\x4f\xc1\xa8\x36\xba\x3c\x23\xa3\xfe\xeb\xbd\x45\x4d\x44\x23\x64\x3c\xe8\x0e\x2a\x9a\xc9\x4f\xa5\x4c\xa4\x9f\0\0\0\0\x65\xe0\x71\xc0\0";

// A change, how its commit ends, and the file after that.
type Commit<'a> = (&'a [u8], End, &'a [u8]);

// Whether a load alone leaves a file without a change.
fn is_new(alloc: Global, course: &Course<'_>) -> Result<bool, AllocError> {
    let left = left_by(alloc, course)?;
    Ok(left.ends.loaded && left.file.as_slice() == NEW.as_slice())
}

// Whether the first commit of a course ends so and leaves this file.
fn first_makes(
    alloc: Global,
    course: &Course<'_>,
    end: End,
    file: &[u8],
) -> Result<bool, AllocError> {
    let left = left_by(alloc, course)?;
    Ok(left.ends.first == end && left.file.as_slice() == file)
}

// The same of the second.
fn second_makes(
    alloc: Global,
    course: &Course<'_>,
    end: End,
    file: &[u8],
) -> Result<bool, AllocError> {
    let left = left_by(alloc, course)?;
    Ok(left.ends.second == end && left.file.as_slice() == file)
}

// Whether a new journal, of whose disk these calls fail, makes both of these commits so.
fn both_commit(
    alloc: Global,
    failing: &[u64],
    first: &Commit<'_>,
    second: &Commit<'_>,
) -> Result<bool, AllocError> {
    let (change, end, file) = *first;
    let (more, last, whole) = *second;
    let loaded = Course {
        failing,
        ..Course::load(b"", u64::MAX)
    };
    let new = is_new(alloc, &loaded)?;
    let once = Course {
        first: change,
        ..loaded
    };
    let one = first_makes(alloc, &once, end, file)?;
    let twice = Course {
        second: more,
        ..once
    };
    let two = second_makes(alloc, &twice, last, whole)?;
    Ok(new && one && two)
}

// A change of 14 bytes, and the file of its journal. An empty change has no frame.
#[test]
fn one_session_makes_28_bytes(rt: HostRuntime) -> Result<(), Fail> {
    let first = (OPENED, End::Done, ONE_SESSION.as_slice());
    let second = (EMPTY, End::Done, ONE_SESSION.as_slice());
    assert!(rt; both_commit(rt.alloc(), &[], &first, &second)?);
    Ok(())
}

#[test]
fn one_deployed_file_makes_216_bytes(rt: HostRuntime) -> Result<(), Fail> {
    let first = (DEPLOYED, End::Done, DEPLOYED_FILE);
    let second = (EMPTY, End::Done, DEPLOYED_FILE);
    assert!(rt; both_commit(rt.alloc(), &[], &first, &second)?);
    Ok(())
}

// The last call of a commit fails, after the open gate; an empty change undoes that frame.
#[test]
fn an_empty_change_undoes_a_frame(rt: HostRuntime) -> Result<(), Fail> {
    let first = (OPENED, End::Failed, ONE_SESSION.as_slice());
    let second = (EMPTY, End::Done, NEW.as_slice());
    assert!(rt; both_commit(rt.alloc(), &[8], &first, &second)?);
    Ok(())
}
