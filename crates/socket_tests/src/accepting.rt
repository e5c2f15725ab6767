//! Errors of accepting a connection: which of them pass, seen from a stand-in for the system's listener.

use crate::courses::{Act, GET, goes_by};
use crate::stand_in::Script;
use std::sync::Wait;
use std::thread::Threads;

// Whether a course goes so over a listener that fails with these errors first and is asked so often.
fn accepts<W: Threads + Wait>(
    rt: &HostRuntime,
    waits: &W,
    errors: &[i32],
    asked: usize,
    acts: &[Act],
) -> bool {
    let script = Script::of(errors, &[GET]);
    goes_by(rt, waits, &script, acts) && script.done.get().asked == asked
}

static PASSING: [Act; 4] = [
    Act::Client(b"x"),
    Act::Runs(&[]),
    Act::Takes(90, 60_000),
    Act::IsAny(true),
];

// A connection that was given up (103), a call that a signal interrupted (4) and too many open files (24) are no errors of the
// port's, and after the last it waits a moment. The last call finds no connection more.
#[test]
fn passing_errors_are_not_told(rt: HostRuntime) {
    assert!(rt; accepts(&rt, &rt, &[103, 4, 24], 5, &PASSING));
}

static ENDING: [Act; 3] = [Act::Client(b"x"), Act::Fails, Act::IsAny(false)];

// Any other error ends the port, as that a listener can't accept (22).
#[test]
fn another_error_ends_the_port(rt: HostRuntime) {
    assert!(rt; accepts(&rt, &rt, &[103, 22], 2, &ENDING));
}
