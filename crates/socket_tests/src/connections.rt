//! Connections over the loopback interface.

use crate::courses::{Act, GET, GOES_ON, SERVED, Step, TELLS, client, goes, has_next};
use outside::{Failed, Port};
use outside_pace::Running;
use outside_sockets::TcpPort;
use std::net::{Ipv4Addr, Net, SocketAddr, SocketAddrV4};
use std::sync::Wait;
use std::test::Fail;

const OTHER: &[u8] = b"GET /y HTTP/1.1\r\nHost: h\r\n\r\n";

const PUT: &[u8] = b"PUT /x HTTP/1.1\r\nContent-Length: 3\r\n\r\n";

const OTHER_SERVED: [Step; 3] = [Step::Gives(OTHER), TELLS, Step::Ends];

// A client that pauses has its connection as before: a run of one request, which ends soon, and another one.
static PAUSING: [Act; 7] = [
    Act::Client(GET),
    Act::Runs(&SERVED),
    Act::Receives(false),
    Act::Pauses(1_500),
    Act::Sends(OTHER, 1),
    Act::Runs(&OTHER_SERVED),
    Act::Receives(false),
];

#[test]
fn a_connection_outlives_a_pause(rt: HostRuntime) {
    assert!(rt; goes(&rt, &rt, &PAUSING));
}

// A client that sends 40 requests at once, beside another one. A run has 16 requests where no desk waits, and one once another
// connection was accepted. Each has its turn, and no byte is lost.
static RUNS: [Act; 8] = [
    Act::Client(b""),
    Act::Sends(GET, 40),
    Act::Runs(&[Step::Counts(GET, 16)]),
    Act::Client(OTHER),
    Act::Runs(&[Step::Counts(GET, 1)]),
    Act::Runs(&[Step::Counts(OTHER, 1)]),
    Act::Runs(&[Step::Counts(GET, 1)]),
    Act::Runs(&[Step::Counts(GET, 1)]),
];

#[test]
fn a_run_ends_where_another_waits(rt: HostRuntime) {
    assert!(rt; goes(&rt, &rt, &RUNS));
}

// A client with half a head and a silent one hold no desk: another one is served meanwhile, and they are closed after the time
// of a head.
static SLOW: [Act; 9] = [
    Act::Client(b"GET / HTTP/1.1\r\nHost: "),
    Act::Client(b""),
    Act::Client(GET),
    Act::Runs(&SERVED),
    Act::Takes(0, 5_000),
    Act::Receives(false),
    Act::Shows("..."),
    Act::Meanwhile(12_000, OTHER, &OTHER_SERVED),
    Act::Shows("xx"),
];

#[test]
fn a_head_has_its_time(rt: HostRuntime) {
    assert!(rt; goes(&rt, &rt, &SLOW));
}

const LONG_RUN: [Step; 4] = [
    Step::Gives(GET),
    TELLS,
    Step::FirstSent(b" HTTP/1.1\r\nHost: h\r\n\r\n"),
    Step::Pause(11_500),
];

// A request is served that has waited for longer than a new connection is kept, since the desk had another one. So is one of
// which the desk had read a part before.
static LATE: [Act; 6] = [
    Act::Client(b"GET /x"),
    Act::Client(GET),
    Act::Client(OTHER),
    Act::Runs(&LONG_RUN),
    Act::Runs(&OTHER_SERVED),
    Act::Runs(&SERVED),
];

#[test]
fn a_request_may_wait_for_a_desk(rt: HostRuntime) {
    assert!(rt; goes(&rt, &rt, &LATE));
}

const BODY: [Step; 3] = [Step::Gives(PUT), GOES_ON, Step::Gives(b"abc")];

// A body is waited for after an interim answer.
static LATE_BODY: [Act; 2] = [Act::Client(PUT), Act::Meanwhile(1_200, b"abc", &BODY)];

#[test]
fn a_body_may_come_late(rt: HostRuntime) {
    assert!(rt; goes(&rt, &rt, &LATE_BODY));
}

const REFUSED: [Step; 3] = [Step::Sent(b"x", 60_000), Step::Gives(PUT), TELLS];

// The answer of a refused request reaches its client, of whose body so much came, and no desk waits for that.
static WITH_A_BODY: [Act; 4] = [
    Act::Client(PUT),
    Act::Runs(&REFUSED),
    Act::Takes(0, 1_000),
    Act::Receives(true),
];

static WITHOUT_BODY: [Act; 4] = [
    Act::Client(PUT),
    Act::Runs(&[Step::Gives(PUT), TELLS]),
    Act::Takes(0, 1_000),
    Act::Receives(true),
];

#[test]
fn a_refusal_reaches_its_client(rt: HostRuntime) {
    assert!(rt; goes(&rt, &rt, &WITHOUT_BODY));
    assert!(rt; goes(&rt, &rt, &WITH_A_BODY));
}

// Whether a listener at this port has no number and gives no connection, and ends.
fn is_refused<W: Wait>(rt: &HostRuntime, waits: &W, number: u16) -> Option<bool> {
    let running = Running::new(rt.alloc(), 1).ok()?;
    let mut port = TcpPort::bind(rt, waits, rt.alloc(), number, running.share().ok()?);
    let begun = port.number().is_none() && running.is_any();
    Some(begun && !has_next(&mut port) && !running.is_any() && !has_next(&mut port))
}

// A port that is in use fails at each connection.
#[test]
fn a_port_in_use_fails(rt: HostRuntime) -> Result<(), Fail> {
    let address = SocketAddr::V4(SocketAddrV4::new(Ipv4Addr::LOCALHOST, 0));
    let listener = rt.bind(address)?;
    let number = listener.local_addr()?.port();
    assert_eq!(rt; is_refused(&rt, &rt, number), Some(true));
    Ok(())
}

// Whether each of two desks of one listener has one of its two clients.
fn both_serve<P: Port, Q: Port>(
    rt: &HostRuntime,
    number: u16,
    port: &mut P,
    twin: &mut Q,
) -> Option<bool> {
    let _first = client(rt, number, GET)?;
    let _second = client(rt, number, OTHER)?;
    match port.next() {
        Ok(Some(link)) => {
            let served = has_next(twin);
            port.back(link);
            Some(served)
        }
        Ok(None) | Err(Failed) => None,
    }
}

fn have_twins<W: Wait>(
    rt: &HostRuntime,
    waits: &W,
    running: Running,
    other: Running,
) -> Option<bool> {
    let mut port = TcpPort::bind(rt, waits, rt.alloc(), 0, running);
    let mut twin = port.twin(rt, waits, other);
    let number = port.number()?;
    if twin.number() != Some(number) {
        return None;
    }
    both_serve(rt, number, &mut port, &mut twin)
}

#[test]
fn twins_share_a_listener(rt: HostRuntime) -> Result<(), Fail> {
    let running = Running::new(rt.alloc(), 1)?;
    let other = Running::new(rt.alloc(), 1)?;
    assert_eq!(rt; have_twins(&rt, &rt, running, other), Some(true));
    Ok(())
}
