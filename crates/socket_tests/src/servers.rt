//! Fetches over TCP, on the loopback interface.

use crate::answers::{answer, outcome, plan};
use outside_remote::{Remote, RemoteFault};
use remote_fetch::{LONGEST_BODY, fetch};
use std::alloc::{AllocError, Global};
use std::io::{Read, Write};
use std::net::{Ipv4Addr, Net, SocketAddr, SocketAddrV4, TcpListener, TcpStream};
use std::thread::{self, Threads};
use std::time::{Duration, Instant};
use tcp_remote::{Limits, TcpRemote};

/// Limits that a test can wait for.
pub const SHORT: Limits = Limits {
    connect: 2_000,
    wait: 400,
    whole: 1_000,
    pause: 1_500,
};

/// A listener at a free port, and its number.
pub fn listen(rt: &HostRuntime) -> Option<(TcpListener, u16)> {
    let address = SocketAddr::V4(SocketAddrV4::new(Ipv4Addr::LOCALHOST, 0));
    let listener = rt.bind(address).ok()?;
    let port = listener.local_addr().ok()?.port();
    Some((listener, port))
}

// What a fetch of the file from this port comes to.
fn file_from<R: Remote>(
    alloc: Global,
    remote: &mut R,
    host: &str,
    port: u16,
) -> Result<String, AllocError> {
    let plan = plan(alloc, host, port)?;
    if plan.limit > LONGEST_BODY {
        return String::from_str(alloc, "limit");
    }
    let came = fetch(alloc, remote, &plan)?;
    outcome(alloc, &came)
}

// Whether it comes to this.
fn comes_to<R: Remote>(alloc: Global, remote: &mut R, host: &str, port: u16, want: &str) -> bool {
    match file_from(alloc, remote, host, port) {
        Ok(text) => text.as_str() == want,
        Err(_) => false,
    }
}

// Reads a request of some kilobytes up to its empty line.
fn read_request(stream: &mut TcpStream) -> Option<()> {
    let mut last = [0; 4];
    for _ in 0..8_192 {
        if last == *b"\r\n\r\n" {
            return Some(());
        }
        let mut byte = [0; 1];
        stream.read_exact(&mut byte).ok()?;
        last = [last[1], last[2], last[3], byte[0]];
    }
    None
}

// Gives each of these answers over a connection of its own.
fn serve(alloc: Global, listener: &TcpListener, answers: &str) -> Option<()> {
    for text in answers.split(" << ") {
        let (mut stream, _) = listener.accept().ok()?;
        read_request(&mut stream)?;
        stream.write_all(answer(alloc, text).ok()?.as_slice()).ok()?;
    }
    Some(())
}

// The host that is asked, the answers of a server, and what comes of a fetch.
const TABLE: &str = "127.0.0.1 << HTTP/1.1 200 OK|Content-Length: 3||abc << A => got abc
localhost << HTTP/1.1 200 OK|Content-Length: 3||abc << A => got abc
127.0.0.1 << HTTP/1.1 200 OK|Content-Length: 3||abc << HTTP/1.1 404 Not Found|| << B => got abc
127.0.0.1 << HTTP/1.1 200 OK|Content-Length: 3||abcdef << A => got abc
127.0.0.1 << HTTP/1.1 200 OK|Content-Length: 5||abc => bad-answer 38
127.0.0.1 << HTTP/1.1 200 OK|Transfer-Encoding: chunked||3|abc|0|| << A => got abc
127.0.0.1 << HTTP/1.1 200 OK|Transfer-Encoding: chunked||3|abc| => bad-answer 55
127.0.0.1 << whole 65736 << A => got abc
127.0.0.1 << whole 65737 => too-large
127.0.0.1 <<  => bad-answer 0";

// Whether a row comes to what it says.
fn is_so<R: Threads>(threads: &R, rt: &HostRuntime, row: &'static str) -> Option<bool> {
    let (asked, want) = row.split_once(" => ")?;
    let (host, answers) = asked.split_once(" << ")?;
    let (listener, port) = listen(rt)?;
    let alloc = rt.alloc();
    let server = thread::spawn(threads, move || serve(alloc, &listener, answers).is_some()).ok()?;
    let mut remote = TcpRemote::new(alloc, rt, SHORT);
    let came = comes_to(alloc, &mut remote, host, port, want);
    Some(server.join(threads) && came)
}

#[test]
fn servers_are_fetched_from(rt: HostRuntime) {
    for row in TABLE.split('\n') {
        assert!(rt; is_so(&rt, &rt, row) == Some(true), "{row}");
    }
}

// Writes until the peer takes no more, with a pause between two pieces.
fn write_on(rt: &HostRuntime, listener: &TcpListener, pause: u64) -> Option<()> {
    let (mut stream, _) = listener.accept().ok()?;
    read_request(&mut stream)?;
    stream.write_all(b"HTTP/1.1 200 OK\r\n\r\n").ok()?;
    for _ in 0..1_000_000 {
        if stream.write(&[b'x'; 10]).is_err() {
            return Some(());
        }
        thread::sleep(rt, Duration::from_millis(pause));
    }
    None
}

// Whether a fetch from a server that never ends comes to this, and leaves it.
fn leaves<R: Threads>(threads: &R, rt: &HostRuntime, pause: u64, want: &str) -> Option<bool> {
    let (listener, port) = listen(rt)?;
    let own = rt.clone().ok()?;
    let server = thread::spawn(threads, move || write_on(&own, &listener, pause).is_some()).ok()?;
    let mut remote = TcpRemote::new(rt.alloc(), rt, SHORT);
    let came = comes_to(rt.alloc(), &mut remote, "127.0.0.1", port, want);
    drop(remote);
    Some(server.join(threads) && came)
}

// A server that never ends: the file is too long, and where it is slow, the time is over.
#[test]
fn an_endless_answer_is_left(rt: HostRuntime) {
    assert!(rt; leaves(&rt, &rt, 0, "too-large") == Some(true));
    assert!(rt; leaves(&rt, &rt, 100, "fault") == Some(true));
}

// How many connections a listener has, of which none was accepted.
fn connections(listener: &TcpListener) -> u64 {
    if listener.set_nonblocking(true).is_err() {
        return 100;
    }
    for count in 0..100 {
        if listener.accept().is_err() {
            return count;
        }
    }
    100
}

fn exchange_fails<R: Remote>(alloc: Global, remote: &mut R, host: &str, port: u16) -> bool {
    matches!(
        remote.exchange(alloc, host, port, b"GET / HTTP/1.1\r\n\r\n", 100),
        Err(RemoteFault::Failed)
    )
}

fn both_fail<R: Remote>(alloc: Global, remote: &mut R, host: &str, port: u16) -> bool {
    exchange_fails(alloc, remote, host, port) && exchange_fails(alloc, remote, host, port)
}

// Whether an exchange fails once its time is over.
fn fails_late<R: Remote>(rt: &HostRuntime, remote: &mut R, port: u16) -> bool {
    let Ok(begin) = Instant::now(rt) else {
        return false;
    };
    let failed = exchange_fails(rt.alloc(), remote, "127.0.0.1", port);
    match begin.elapsed(rt) {
        Ok(waited) => failed && waited.as_millis() >= 350,
        Err(_) => false,
    }
}

// Whether that is so of a server that says nothing, with five faults in all.
fn is_left_alone(rt: &HostRuntime) -> Option<bool> {
    let (listener, port) = listen(rt)?;
    let mut remote = TcpRemote::new(rt.alloc(), rt, SHORT);
    let first = fails_late(rt, &mut remote, port);
    let others = both_fail(rt.alloc(), &mut remote, "127.0.0.1", port);
    let asked = connections(&listener);
    thread::sleep(rt, Duration::from_millis(1_600));
    let later = both_fail(rt.alloc(), &mut remote, "127.0.0.1", port);
    let again = connections(&listener);
    Some(first && others && asked == 2 && later && again == 1 && remote.faults() == 5)
}

// A server that says nothing is left after the time of a read. After two failures it is left alone for a while, each exchange
// being a fault; then it is tried once.
#[test]
fn a_silent_server_is_left_alone(rt: HostRuntime) {
    assert!(rt; is_left_alone(&rt) == Some(true));
}

// Whether a host is asked though another one, whose port has the same number, is left alone. Nobody listens there.
fn is_asked_alone(rt: &HostRuntime) -> Option<bool> {
    let (listener, port) = listen(rt)?;
    let mut remote = TcpRemote::new(rt.alloc(), rt, SHORT);
    let first = both_fail(rt.alloc(), &mut remote, "127.0.0.2", port);
    let other = exchange_fails(rt.alloc(), &mut remote, "127.0.0.1", port);
    Some(first && other && connections(&listener) == 1)
}

#[test]
fn the_trouble_of_a_host_is_its_own(rt: HostRuntime) {
    assert!(rt; is_asked_alone(&rt) == Some(true));
}

fn are_faults(rt: &HostRuntime) -> Option<bool> {
    let (listener, port) = listen(rt)?;
    drop(listener);
    let mut remote = TcpRemote::new(rt.alloc(), rt, SHORT);
    let first = comes_to(rt.alloc(), &mut remote, "127.0.0.1", port, "fault");
    let second = comes_to(rt.alloc(), &mut remote, "nobody.invalid", port, "fault");
    Some(first && second && remote.faults() == 2)
}

// A port on which nobody listens, and a name that nobody has.
#[test]
fn a_server_that_is_not_there_is_a_fault(rt: HostRuntime) {
    assert!(rt; are_faults(&rt) == Some(true));
}
