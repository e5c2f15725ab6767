//! Exchanges with remote servers, seen from a stand-in for the system's network.

use crate::servers::{SHORT, listen};
use crate::stand_in::{Does, Script, StandIn, print_of};
use outside_remote::{Remote, RemoteFault};
use std::alloc::Global;
use std::net::Net;
use std::time::Clock;
use tcp_remote::{Limits, TcpRemote};

const REQUEST: &[u8] = b"GET /m2/a/b/1/b-1.pom HTTP/1.1\r\nHost: h\r\n\r\n";

const ANSWER: &[u8] = b"HTTP/1.1 200 OK\r\n\r\nabc";

// Whether an exchange gives the whole answer; none where it fails.
fn is_answered<R: Remote>(alloc: Global, remote: &mut R, port: u16) -> Option<bool> {
    let most = (ANSWER.len() as u64).saturating_sub(1);
    match remote.exchange(alloc, "127.0.0.1", port, REQUEST, most) {
        Ok(bytes) => Some(bytes.as_slice() == ANSWER),
        Err(RemoteFault::Failed | RemoteFault::NoMemory) => None,
    }
}

// What comes of one exchange over a network.
fn asked_over<R: Net + Clock + Drop>(rt: &HostRuntime, net: R, limits: Limits) -> Option<bool> {
    let (_listener, port) = listen(rt)?;
    let mut remote = TcpRemote::new(rt.alloc(), net, limits);
    is_answered(rt.alloc(), &mut remote, port)
}

// The same over a network by a script.
fn asked<'a>(rt: &'a HostRuntime, script: &'a Script<'a>, limits: Limits) -> Option<bool> {
    asked_over(rt, StandIn { rt, script }, limits)
}

// A request is written whole and in order, however few bytes a write takes.
#[test]
fn a_request_is_written_whole(rt: HostRuntime) {
    for takes in [1, 7, 41, 1_000] {
        let mut script = Script::of(&[], &[ANSWER]);
        script.takes = takes;
        assert!(rt; asked(&rt, &script, SHORT) == Some(true), "{takes}");
        let done = script.done.get();
        assert!(rt;
            done.written == REQUEST.len() && done.print == print_of(0, REQUEST),
            "{takes}"
        );
    }
}

// What comes of an exchange with the usual limits, where each look at the clock takes so many milliseconds: one to reach the
// server, one to write and one to read.
fn asked_slowly(rt: &HostRuntime, look: u64) -> Option<bool> {
    let script = Script::of(&[], &[ANSWER]);
    script.does.set(Does(false, true, look));
    let came = asked(rt, &script, Limits::usual())?;
    let done = script.done.get();
    Some(came && (look > 0 || done.read == 10_000 && done.write == 10_000))
}

// An exchange has 30 seconds in all, and each call 10.
#[test]
fn an_exchange_has_half_a_minute(rt: HostRuntime) {
    assert!(rt; asked_slowly(&rt, 0) == Some(true));
    assert!(rt; asked_slowly(&rt, 9_500) == Some(true));
    assert!(rt; asked_slowly(&rt, 10_100).is_none());
}
