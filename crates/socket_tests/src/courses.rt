//! Courses: what is done with a listener, its connections and its clients, as tables. One function makes the listener and lends it
//! to small ones that know the trait of a port alone, so that little is carried through the proofs.

use crate::stand_in::{Does, Script, StandIn};
use outside::{Failed, Port, Sink, Source, Stream};
use outside_pace::Running;
use outside_sockets::TcpPort;
use std::cell::Cell;
use std::io::{Eprint, ErrorKind, Read, Write};
use std::net::{Ipv4Addr, Net, SocketAddr, SocketAddrV4, TcpStream};
use std::sync::Wait;
use std::thread::{self, Threads};
use std::time::{Clock, Duration};

pub const GET: &[u8] = b"GET /x HTTP/1.1\r\nHost: h\r\n\r\n";

pub const ANSWER: &[u8] = b"HTTP/1.1 200 OK\r\n\r\n";

/// The answer is written, or an interim one.
pub const TELLS: Step = Step::Writes(ANSWER, true);

pub const GOES_ON: Step = Step::Writes(b"HTTP/1.1 100 Continue\r\n\r\n", true);

/// A run of one request.
pub const SERVED: [Step; 4] = [Step::Gives(GET), TELLS, Step::Ends, Step::Ends];

/// A call of a connection and what comes of it, or what is done beside.
#[derive(Clone, Copy)]
pub enum Step {
    /// A read gives these bytes.
    Gives(&'static [u8]),
    /// The same, and the system was told last that it may wait so many milliseconds.
    Timed(&'static [u8], u128),
    /// A few reads give these bytes, and none of those after them.
    Parts(&'static [u8]),
    /// A read gives the end within 300 milliseconds.
    Ends,
    /// A read fails, of which the system was told last that it may wait so many milliseconds.
    Fails(u128),
    /// So many of these requests come, and are answered.
    Counts(&'static [u8], u64),
    /// One of two reads fails that should give these bytes.
    OneFails(&'static [u8], &'static [u8]),
    /// A piece is taken whole, or it is not.
    Writes(&'static [u8], bool),
    /// The last client sends these bytes so often at once.
    Sent(&'static [u8], u64),
    /// The first client sends these bytes.
    FirstSent(&'static [u8]),
    /// Nothing is done for so many milliseconds.
    Pause(u64),
    /// The network by the script does so from now on.
    Does(Does),
    /// It has given at least so many bytes after the pieces, and fewer than so many.
    Gave(usize, usize),
}

/// What is done with a listener and its clients.
#[derive(Clone, Copy)]
pub enum Act {
    /// A client comes that has sent these bytes.
    Client(&'static [u8]),
    /// One for each letter: one that has sent a byte for `b`, one that has sent a request for `r`, a silent one for another.
    Crowd(&'static str),
    /// The next connection goes through these calls.
    Runs(&'static [Step]),
    /// So it does while the last client, who leaves then, sends these bytes after so many milliseconds.
    Meanwhile(u64, &'static [u8], &'static [Step]),
    /// The listener gives no connection.
    Fails,
    /// The last client sends these bytes so often at once.
    Sends(&'static [u8], u64),
    /// The last client has the answer, and where it is said, then the end.
    Receives(bool),
    /// Nothing is done for so many milliseconds.
    Pauses(u64),
    /// What comes of each client in a while, the first one's first: nothing (`.`), its end (`x`), or something else (`!`).
    Shows(&'static str),
    /// At least so many milliseconds have passed since the course or its last such act, and fewer than so many.
    Takes(u64, u64),
    /// The listener runs, or does not.
    IsAny(bool),
}

// What a course sees beside its listener: the number of its port, whether it runs, the script of the network, which that of the
// system does not read, and when the clock was looked at.
#[derive(Drop)]
struct Scene<'a> {
    rt: &'a HostRuntime,
    number: u16,
    running: &'a Running,
    script: &'a Script<'a>,
    begun: Cell<u64>,
}

/// The clock in milliseconds.
pub fn moment(rt: &HostRuntime) -> u64 {
    match rt.monotonic() {
        Ok(time) => u64::try_from(time.as_millis()).unwrap_or(u64::MAX),
        Err(_) => 0,
    }
}

/// A client of a port that has sent these bytes.
pub fn client(rt: &HostRuntime, number: u16, sent: &[u8]) -> Option<TcpStream> {
    let address = SocketAddr::V4(SocketAddrV4::new(Ipv4Addr::LOCALHOST, number));
    let mut peer = rt.connect(address).ok()?;
    peer.write_all(sent).ok()?;
    Some(peer)
}

impl Scene<'_> {
    fn joins(&self, peers: &mut Vec<TcpStream>, sent: &[u8]) -> bool {
        match client(self.rt, self.number, sent) {
            Some(peer) => peers.push(peer).is_ok(),
            None => false,
        }
    }

    fn pauses(&self, pause: u64) -> bool {
        thread::sleep(self.rt, Duration::from_millis(pause));
        true
    }

    fn takes(&self, least: u64, most: u64) -> bool {
        let now = moment(self.rt);
        let taken = now.saturating_sub(self.begun.get());
        self.begun.set(now);
        least <= taken && taken < most
    }
}

fn sends(scene: &Scene, peers: &mut Vec<TcpStream>, bytes: &[u8], times: u64) -> bool {
    let mut all = Vec::new(scene.rt.alloc());
    for _ in 0..times {
        if all.extend_from_slice(bytes).is_err() {
            return false;
        }
    }
    match peers.last_mut() {
        Some(peer) => peer.write_all(all.as_slice()).is_ok(),
        None => false,
    }
}

fn joins_with_crowd(scene: &Scene, peers: &mut Vec<TcpStream>, crowd: &str) -> bool {
    for letter in crowd.as_bytes() {
        let sent: &[u8] = match *letter {
            b'b' => b"x",
            b'r' => GET,
            _ => b"",
        };
        if !scene.joins(peers, sent) {
            return false;
        }
    }
    true
}

fn has_answer(peer: &mut TcpStream, ends: bool) -> bool {
    let mut buffer = [0; ANSWER.len()];
    let read = peer.read_exact(&mut buffer).is_ok() && buffer.as_slice() == ANSWER;
    read && (!ends || matches!(peer.read(&mut [0; 1]), Ok(0)))
}

fn receives(peers: &mut Vec<TcpStream>, ends: bool) -> bool {
    match peers.last_mut() {
        Some(peer) => has_answer(peer, ends),
        None => false,
    }
}

/// What comes of a connection in a while.
pub fn mark_of(peer: &mut TcpStream) -> char {
    if peer
        .set_read_timeout(Some(Duration::from_millis(100)))
        .is_err()
    {
        return '!';
    }
    match peer.read(&mut [0; 64]) {
        Ok(0) => 'x',
        Ok(_) => '!',
        Err(error) => match error.kind() {
            ErrorKind::WouldBlock | ErrorKind::TimedOut => '.',
            _ => '!',
        },
    }
}

fn shows(peers: &mut Vec<TcpStream>, want: &str) -> bool {
    let mut marks = want.chars();
    for peer in peers.iter_mut() {
        if marks.next() != Some(mark_of(peer)) {
            return false;
        }
    }
    marks.next().is_none()
}

fn gives<S: Source>(source: &mut S, want: &[u8]) -> bool {
    let mut buffer = [0; 256];
    match source.read(&mut buffer) {
        Ok(count) => count == want.len() && buffer.starts_with(want),
        Err(Failed) => false,
    }
}

fn gives_in_parts<S: Source>(source: &mut S, want: &[u8]) -> bool {
    let mut buffer = [0; 256];
    let mut got = 0;
    for _ in 0..4 {
        if got >= want.len() {
            break;
        }
        let Ok(count) = source.read(&mut buffer) else {
            return false;
        };
        if !want[got..].starts_with(&buffer[..count]) {
            return false;
        }
        got = got.saturating_add(count).min(want.len());
    }
    got == want.len()
}

fn takes<S: Sink>(sink: &mut S, piece: &[u8]) -> bool {
    sink.write(piece) == Ok(piece.len())
}

fn ends_soon<S: Source>(scene: &Scene, source: &mut S) -> bool {
    let begin = moment(scene.rt);
    gives(source, b"") && moment(scene.rt).saturating_sub(begin) < 300
}

fn count_of<S: Stream>(link: &mut S, request: &[u8]) -> u64 {
    for count in 0..64 {
        if !(gives(link, request) && takes(link, ANSWER)) {
            return count;
        }
    }
    64
}

fn is_taken<S: Stream>(
    scene: &Scene,
    peers: &mut Vec<TcpStream>,
    link: &mut S,
    step: Step,
) -> bool {
    match step {
        Step::Gives(want) => gives(link, want),
        Step::Timed(want, longest) => gives(link, want) && scene.script.done.get().read == longest,
        Step::Parts(want) => gives_in_parts(link, want),
        Step::Ends => ends_soon(scene, link),
        Step::Fails(longest) => {
            link.read(&mut [0; 128]).is_err() && scene.script.done.get().read == longest
        }
        Step::Counts(request, count) => count_of(link, request) == count,
        Step::OneFails(one, other) => !(gives(link, one) && gives(link, other)),
        Step::Writes(piece, taken) => takes(link, piece) == taken,
        Step::Sent(bytes, times) => sends(scene, peers, bytes, times),
        Step::FirstSent(bytes) => match peers.first_mut() {
            Some(peer) => peer.write_all(bytes).is_ok(),
            None => false,
        },
        Step::Pause(pause) => scene.pauses(pause),
        Step::Does(does) => {
            scene.script.does.set(does);
            true
        }
        Step::Gave(least, most) => {
            let more = scene.script.done.get().more;
            least <= more && more < most
        }
    }
}

fn are_taken<S: Stream>(
    scene: &Scene,
    peers: &mut Vec<TcpStream>,
    link: &mut S,
    steps: &[Step],
) -> bool {
    for step in steps {
        if !is_taken(scene, peers, link, *step) {
            return false;
        }
    }
    true
}

// Whether the next connection goes through these calls. It goes back after them.
fn runs<P: Port>(scene: &Scene, port: &mut P, peers: &mut Vec<TcpStream>, steps: &[Step]) -> bool {
    match port.next() {
        Ok(Some(mut link)) => {
            let taken = are_taken(scene, peers, &mut link, steps);
            port.back(link);
            taken
        }
        Ok(None) | Err(Failed) => false,
    }
}

fn runs_meanwhile<T: Threads, P: Port>(
    threads: &T,
    scene: &Scene,
    port: &mut P,
    peers: &mut Vec<TcpStream>,
    pause: u64,
    bytes: &'static [u8],
    steps: &[Step],
) -> Option<bool> {
    let mut peer = peers.pop()?;
    let own = scene.rt.clone().ok()?;
    let sender = thread::spawn(threads, move || {
        thread::sleep(&own, Duration::from_millis(pause));
        let sent = peer.write_all(bytes).is_ok();
        (sent, peer)
    })
    .ok()?;
    let taken = runs(scene, port, peers, steps);
    let (sent, _peer) = sender.join(threads);
    Some(taken && sent)
}

/// Whether there is a next connection. It goes back.
pub fn has_next<P: Port>(port: &mut P) -> bool {
    match port.next() {
        Ok(Some(link)) => {
            port.back(link);
            true
        }
        Ok(None) | Err(Failed) => false,
    }
}

fn is_gone<T: Threads, P: Port>(
    threads: &T,
    scene: &Scene,
    port: &mut P,
    peers: &mut Vec<TcpStream>,
    act: Act,
) -> bool {
    match act {
        Act::Client(sent) => scene.joins(peers, sent),
        Act::Crowd(crowd) => joins_with_crowd(scene, peers, crowd),
        Act::Runs(steps) => runs(scene, port, peers, steps),
        Act::Meanwhile(pause, bytes, steps) => {
            runs_meanwhile(threads, scene, port, peers, pause, bytes, steps) == Some(true)
        }
        Act::Fails => !has_next(port),
        Act::Sends(bytes, times) => sends(scene, peers, bytes, times),
        Act::Receives(ends) => receives(peers, ends),
        Act::Pauses(pause) => scene.pauses(pause),
        Act::Shows(want) => shows(peers, want),
        Act::Takes(least, most) => scene.takes(least, most),
        Act::IsAny(runs) => scene.running.is_any() == runs,
    }
}

// Whether all acts go so. A line says which does not.
fn plays<T: Threads, P: Port>(threads: &T, scene: &Scene, port: &mut P, acts: &[Act]) -> bool {
    let mut peers = Vec::new(scene.rt.alloc());
    for (n, act) in acts.iter().enumerate() {
        if !is_gone(threads, scene, port, &mut peers, *act) {
            let _ = eprintln!(scene.rt; "act {n}");
            return false;
        }
    }
    true
}

fn goes_over<R: Net + Clock + Eprint + Clone + Drop, W: Wait + Drop, T: Threads>(
    rt: &HostRuntime,
    threads: &T,
    waits: W,
    net: R,
    script: &Script,
    acts: &[Act],
) -> Option<bool> {
    let running = Running::new(rt.alloc(), 1).ok()?;
    let shared = running.share().ok()?;
    let mut port = TcpPort::bind(net, waits, rt.alloc(), 0, shared);
    let number = port.number()?;
    let scene = Scene {
        rt,
        number,
        running: &running,
        script,
        begun: Cell::new(moment(rt)),
    };
    Some(plays(threads, &scene, &mut port, acts))
}

/// Whether a course goes so over the system's network.
pub fn goes<W: Threads + Wait>(rt: &HostRuntime, waits: &W, acts: &[Act]) -> bool {
    let script = Script::of(&[], &[]);
    goes_over(rt, waits, waits, rt, &script, acts) == Some(true)
}

/// Whether a course goes so over a network by a script.
pub fn goes_by<'a, W: Threads + Wait>(
    rt: &'a HostRuntime,
    waits: &W,
    script: &'a Script<'a>,
    acts: &[Act],
) -> bool {
    goes_over(rt, waits, waits, StandIn { rt, script }, script, acts) == Some(true)
}
