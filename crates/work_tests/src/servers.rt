// Servers of which at most one desk has connections.
use crate::cases::{Case, SERVER};
use crate::literals::{INPUT, INPUT_1};
use crate::serving::serve;
use std::test::Fail;

static OF_ONE_CONNECTION: Case = Case {
    desks: &[&[INPUT], &[], &[], &[]],
    line: "calls 4\n",
    given: &[1, 0, 0, 0],
    ..SERVER
};

#[test]
fn one_connection_makes_four_calls(rt: HostRuntime) -> Result<(), Fail> {
    serve(&rt, rt.alloc(), &OF_ONE_CONNECTION)
}

// The cleaner asks twice for what is to be unlisted, and once for what is to be removed.
static OF_A_PASS: Case = Case {
    desks: &[&[INPUT], &[], &[], &[]],
    passes: &[true, false],
    line: "calls 7\n",
    given: &[1, 0, 0, 0],
    pauses: &[3600, 3600],
    ..SERVER
};

#[test]
fn a_pass_makes_three_calls_more(rt: HostRuntime) -> Result<(), Fail> {
    serve(&rt, rt.alloc(), &OF_A_PASS)
}

// The settings say how long a pause is. The timer keeps only those that it has an answer for.
static OF_PAUSES: Case = Case {
    settings: "clean_seconds = 9\n[[hosted]]\nid = \"releases\"\nreleases = true\nsnapshots = false\n",
    passes: &[true, true],
    line: "calls 4\n",
    pauses: &[9, 9],
    ..SERVER
};

#[test]
fn a_pause_is_as_long_as_the_settings_say(rt: HostRuntime) -> Result<(), Fail> {
    serve(&rt, rt.alloc(), &OF_PAUSES)
}

// One desk serves both, and the others nobody.
static OF_TWO_CONNECTIONS: Case = Case {
    desks: &[&[INPUT, INPUT_1], &[], &[], &[]],
    line: "calls 8\n",
    given: &[2, 0, 0, 0],
    ..SERVER
};

#[test]
fn a_desk_serves_one_connection_after_another(rt: HostRuntime) -> Result<(), Fail> {
    serve(&rt, rt.alloc(), &OF_TWO_CONNECTIONS)
}

// The second call of the port fails, after one connection.
static OF_A_FAULT: Case = Case {
    desks: &[&[INPUT, INPUT_1]],
    failing: &[1],
    status: 6,
    line: "mvnrepod: input\n",
    given: &[1],
    ..SERVER
};

#[test]
fn a_port_that_fails_is_told(rt: HostRuntime) -> Result<(), Fail> {
    serve(&rt, rt.alloc(), &OF_A_FAULT)
}

// A port that is not asked gives nothing back.
static OF_REFUSED_SETTINGS: Case = Case {
    settings: "grace = 1\n",
    desks: &[&[INPUT], &[], &[], &[]],
    passes: &[true],
    status: 3,
    line: "mvnrepod: settings Unknown grace\n",
    ..SERVER
};

#[test]
fn settings_are_refused_before_a_connection_is_taken(rt: HostRuntime) -> Result<(), Fail> {
    serve(&rt, rt.alloc(), &OF_REFUSED_SETTINGS)
}
