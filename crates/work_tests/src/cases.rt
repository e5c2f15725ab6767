// A server as plain values: what it is given, and what it has to come to.
use crate::literals::{OUTPUT, SETTINGS};

/// A server.
#[derive(Clone, Copy)]
pub struct Case {
    pub settings: &'static str,
    // how many desks meet at their first reads
    pub members: u64,
    // the inputs of each desk's connections, and the calls of each port that fail
    pub desks: &'static [&'static [&'static str]],
    pub failing: &'static [u64],
    // what the cleaner's timer answers
    pub passes: &'static [bool],
    pub status: u8,
    pub line: &'static str,
    // how many connections each desk gives back, and what each of them took
    pub given: &'static [usize],
    pub output: &'static str,
    // how often the blobs of each desk failed
    pub faults: u64,
    // the pauses that the timer kept
    pub pauses: &'static [u64],
}

/// Four desks without connections.
pub const SERVER: Case = Case {
    settings: SETTINGS,
    members: 1,
    desks: &[&[], &[], &[], &[]],
    failing: &[],
    passes: &[],
    status: 0,
    line: "calls 0\n",
    given: &[0, 0, 0, 0],
    output: OUTPUT,
    faults: 0,
    pauses: &[],
};
