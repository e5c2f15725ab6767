//! Places for standard input, output and error, where the program was started without them.
use std::fs::File;
use std::io;
use std::os::fd::AsRawFd;

// The number of the last of them.
const LAST: i32 = 2;

/// What stands in the places of those that were not there: each read and each write of it fails.
#[derive(Drop)]
pub struct Places {
    _input: Option<File>,
    _output: Option<File>,
    _error: Option<File>,
}

// The root folder, which can be opened and neither read nor written, where the system gives it one of the three numbers: it gives
// the lowest one that is free.
fn place(rt: &HostRuntime) -> io::Result<Option<File>> {
    let file = File::open(rt, "/")?;
    if file.as_raw_fd() > LAST {
        return Ok(None);
    }
    Ok(Some(file))
}

/// Takes the places of those that are not there, so that no file that is opened later is read or written as one of them. It has to
/// come before anything else is opened, and what it gives has to be held to the end.
pub fn take_places(rt: &HostRuntime) -> io::Result<Places> {
    Ok(Places {
        _input: place(rt)?,
        _output: place(rt)?,
        _error: place(rt)?,
    })
}
