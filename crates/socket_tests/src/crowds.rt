//! Which connections go where the system has no room for one more, seen from a stand-in for its listener.

use crate::courses::{Act, GET, SERVED, goes_by};
use crate::stand_in::{Does, Script};
use std::sync::Wait;
use std::thread::Threads;

// Whether that comes of one that has had an answer and of a crowd after it, where the listener fails so.
fn is_left<W: Threads + Wait>(
    rt: &HostRuntime,
    waits: &W,
    errors: &[i32],
    crowd: &'static str,
    left: &'static str,
) -> bool {
    let script = Script::of(errors, &[GET]);
    script.does.set(Does(false, true, 1));
    let acts = [
        Act::Client(b"x"),
        Act::Runs(&SERVED),
        Act::Crowd(crowd),
        Act::Fails,
        Act::Shows(left),
    ];
    goes_by(rt, waits, &script, &acts)
}

// A listener that accepts one connection and finds no more, accepts a crowd, has no room so often (24: too many open files), and
// then can't accept (22). In a crowd each `b` stands for a connection of which a byte has come, `r` for one of which a request has
// come, and `s` for a silent one. A crowd of silent ones goes, the oldest first, and the one that has had an answer stays; one of
// which a byte has come is none of these, though no desk has read it yet. If eight or fewer are silent the one goes that has been
// idle longest, and a silent one only if there is no other. One of which a request has come does not go at all: the newest waits
// at the listener.
const CROWDS: [(&[i32], &str, &str); 7] = [
    (
        &[0, 0, 0, 0, 0, 0, 0, 0, 0, 0, 0, 24, 22],
        "sssssssss",
        ".x........",
    ),
    (
        &[0, 0, 0, 0, 0, 0, 0, 0, 0, 0, 0, 0, 24, 24, 24, 22],
        "ssssssssss",
        "!xx........",
    ),
    (
        &[0, 0, 0, 0, 0, 0, 0, 0, 0, 0, 0, 0, 24, 22],
        "bsssssssss",
        "..x........",
    ),
    (&[0, 0, 0, 0, 0, 24, 24, 24, 24, 22], "bsb", "!!x!"),
    (&[0, 0, 0, 0, 24, 22], "bb", "!.."),
    (&[0, 0, 0, 0, 0, 24, 24, 22], "rsr", "!.x."),
    (&[0, 0, 0, 0, 24, 24, 22], "rrr", "!..."),
];

#[test]
fn the_silent_ones_go_first(rt: HostRuntime) {
    for (errors, crowd, left) in CROWDS {
        assert!(rt; is_left(&rt, &rt, errors, crowd, left), "{crowd}");
    }
}
