//! The listener.
ghost use Rattle.std.specs.Prelude.{◌≡◌, ◌+◌, None, min, IfOk, IfSome, IsOk, IsSome, OnErr, OnSome};
ghost use Rattle.outside.specs.Faults.{HasCause, last_count};

use crate::door::{Door, Told, now};
use crate::hearing::Hall;
use crate::limits::{NO_ROOM, milliseconds};
use crate::links::{Rest, TcpLink, set_up};
use crate::paces::PatrolPace;
use outside::{Failed, Port};
use outside_pace::{Pace, Running};
use std::alloc::Global;
use std::io::{self, Eprint, ErrorKind};
use std::marker::Model;
use std::net::{Ipv4Addr, Net, OpenListener, SocketAddr, SocketAddrV4};
use std::sync::{Arc, Wait};
use std::thread;
use std::time::Clock;

// The system's numbers for: too many open files, of the process and of all; no buffer space; no memory.
const ROOM_ERRORS: [i32; 4] = [24, 23, 105, 12];

// How many connections are accepted at once.
const ARRIVALS: u32 = 64;

/// A desk's part of a listener on a port of 127.0.0.1. Contracts see how many calls have failed; it tells no connections.
///
/// `next` gives a connection of which a whole head has come, and `back` gives it to the doorman (`Door`), who keeps it where it
/// goes on. A desk that waits in `next` is the doorman meanwhile, and a timer of the listener (`pace`) closes those that were kept
/// too long, whatever the desks do. Where the port could not be taken, as one that is in use,
/// a line of standard error says so at once and each `next` fails; and where the listener fails, each desk's does. The first
/// failure tells those who watch the program's ports that this one has ended. A line says where the server listens when the
/// first desk asks for its first connection.
#[derive(Drop)]
pub struct TcpPort<R: Net + Clock + Eprint + Clone + Drop, W: Wait + Drop> {
    hall: Hall<R, W>,
    door: Option<Arc<Door<R>, Global>>,
    running: Option<Running>,
    faults: u64,
}

impl<R: Net + Clock + Eprint + Clone + Drop, W: Wait + Drop> Model for TcpPort<R, W> {
    ghost use Rattle.std.specs.Prelude.{ℕ};

    ghost Value = { ℕ };

    ghost view = { λ p. p.faults };
}

fn door_at<R: Net>(rt: &R, alloc: Global, port: u16) -> io::Result<Arc<Door<R>, Global>> {
    let address = SocketAddr::V4(SocketAddrV4::new(Ipv4Addr::LOCALHOST, port));
    let door = Door::new(rt, alloc, rt.bind(address)?)?;
    Arc::new(alloc, door).map_err(|_| io::Error::from(ErrorKind::OutOfMemory))
}

// The number of a listener's port.
fn number_of(listener: &impl OpenListener) -> Option<u16> {
    let address = listener.local_addr().ok()?;
    Some(address.port())
}

impl<R: Net + Clock + Eprint + Clone + Drop, W: Wait + Drop> TcpPort<R, W> {
    // A desk's part of it.
    fn at(
        rt: R,
        waits: W,
        alloc: Global,
        door: Option<Arc<Door<R>, Global>>,
        running: Running,
    ) -> TcpPort<R, W>
        ensures { result ≡ 0 }
    {
        if let Some(door) = &door {
            door.crowd.add_desk();
        }
        TcpPort {
            hall: Hall {
                rt,
                waits,
                alloc,
                spare: None,
                turns: 0,
            },
            door,
            running: Some(running),
            faults: 0,
        }
    }

    /// Takes a port of 127.0.0.1; 0 stands for one that is free. `running` counts it among the program's ports.
    pub fn bind(rt: R, waits: W, alloc: Global, port: u16, running: Running) -> TcpPort<R, W>
        ensures { result ≡ 0 }
    {
        let door = match door_at(&rt, alloc, port) {
            Ok(door) => Some(door),
            Err(error) => {
                let _ = eprintln!(rt; "mvnrepod: cannot listen on 127.0.0.1:{port}: {error}");
                None
            }
        };
        TcpPort::at(rt, waits, alloc, door, running)
    }

    /// The same listener for one worker more.
    pub fn twin(&self, rt: R, waits: W, running: Running) -> TcpPort<R, W>
        ensures { result ≡ 0 }
    {
        let door = match &self.door {
            Some(door) => Arc::try_clone(door).ok(),
            None => None,
        };
        TcpPort::at(rt, waits, self.hall.alloc, door, running)
    }

    /// A timer that keeps its pauses by this one, and patrols for the doorman meanwhile.
    pub fn pace<P: Pace + Drop>(&self, rt: R, pace: P) -> PatrolPace<R, P> {
        let door = match &self.door {
            Some(door) => Arc::try_clone(door).ok(),
            None => None,
        };
        PatrolPace::new(rt, door, pace)
    }

    /// The number of the port, where it was taken.
    pub fn number(&self) -> Option<u16> {
        number_of(&self.door.as_ref()?.listener)
    }
}

// What to do where a connection could not be accepted.
enum Next {
    /// None waits.
    Enough,
    /// Accept another one.
    Again,
    /// The same, when there is room.
    Later,
    /// Give up.
    Never,
}

fn next_after(error: &io::Error) -> Next {
    match error.kind() {
        ErrorKind::WouldBlock => Next::Enough,
        ErrorKind::ConnectionAborted | ErrorKind::ConnectionReset | ErrorKind::Interrupted => {
            Next::Again
        }
        _ => match error.raw_os_error() {
            Some(number) if ROOM_ERRORS.contains(&number) => Next::Later,
            _ => Next::Never,
        },
    }
}

// Takes in the connections that wait at the listener.
fn let_in<R: Net + Clock, W: Wait>(rt: &R, waits: &W, door: &Door<R>) -> Result<(), Failed> {
    for _ in 0..ARRIVALS {
        if !door.has_place(waits) {
            return Ok(());
        }
        match door.listener.accept() {
            Ok((stream, _)) => {
                if let Ok(patience) = set_up(&stream) {
                    door.let_in(waits, now(rt), stream, patience);
                }
            }
            Err(error) => match next_after(&error) {
                Next::Enough => break,
                Next::Again => {}
                Next::Later => {
                    if !door.make_room(waits) {
                        thread::sleep(rt, milliseconds(NO_ROOM));
                        break;
                    }
                }
                Next::Never => return Err(Failed),
            },
        }
    }
    if door.open() { Ok(()) } else { Err(Failed) }
}

// Says where the server listens.
fn announce<R: Net + Eprint>(rt: &R, door: &Door<R>) {
    if let Some(number) = number_of(&door.listener) {
        let _ = eprintln!(rt; "mvnrepod: listening on 127.0.0.1:{number}");
    }
}

// The next connection of which a whole head has come.
fn found<R: Net + Clock + Eprint + Clone + Drop, W: Wait + Drop>(
    hall: &mut Hall<R, W>,
    door: &Door<R>,
) -> Result<TcpLink<R::Stream, R>, Failed>
    ensures { IfOk result (λ link. link ≡ record { reads = 0; writes = 0 }) }
{
    if door.is_first() {
        announce(&hall.rt, door);
    }
    for _ in 0..u64::MAX {
        if door.is_over() {
            break;
        }
        let told = door.wait(&mut hall.turns);
        if door.is_over() {
            break;
        }
        door.patrol(now(&hall.rt));
        match told {
            Told::Nothing => {}
            Told::Arrivals => let_in(&hall.rt, &hall.waits, door)?,
            Told::Bytes(key) => {
                if let Some(kept) = door.take(&hall.waits, key) {
                    if let Some(link) = hall.listen(door, kept)? {
                        return Ok(link);
                    }
                    door.reopen();
                }
            }
        }
    }
    Err(Failed)
}

impl<R: Net + Clock + Eprint + Clone + Drop, W: Wait + Drop> Port for TcpPort<R, W> {
    type Link = TcpLink<R::Stream, R>;

    ghost faults = { λ p. p };

    ghost has_place = { λ _. Unit {0} };

    fn next(&mut self) -> Result<Option<TcpLink<R::Stream, R>>, Failed>
        ensures cause { HasCause self.old self.new result }
        ensures once { OnErr result (self.new ≡ min (self.old + 1) last_count) }
        ensures some { IfOk result (λ link. IsSome link) }
        ensures fresh { IfOk result (λ found. IfSome found (λ link. link ≡ record { reads = 0; writes = 0 })) }
    {
        let next = match &self.door {
            Some(door) => found(&mut self.hall, door),
            None => Err(Failed),
        };
        match next {
            Ok(link) => Ok(Some(link)),
            Err(Failed) => {
                if let Some(door) = &self.door {
                    door.end();
                }
                if let Some(running) = self.running.take() {
                    running.end_one();
                }
                self.faults = self.faults.saturating_add(1);
                Err(Failed)
            }
        }
    }

    fn back(&mut self, link: TcpLink<R::Stream, R>)
        ensures { self.new ≡ self.old }
    {
        let Some(door) = &self.door else {
            return;
        };
        let now = now(&self.hall.rt);
        let more = match link.finish() {
            Rest::Kept(stream, waits, front, silent) => {
                let held = if front.is_empty() {
                    self.hall.take_back(front);
                    None
                } else {
                    Some(front)
                };
                door.keep_on(&self.hall.waits, now, stream, waits, held, !silent);
                !silent
            }
            Rest::Closing(stream, front) => {
                self.hall.take_back(front);
                door.close(&self.hall.waits, now, stream);
                false
            }
            Rest::Over(front) => {
                self.hall.take_back(front);
                door.crowd.end_link();
                false
            }
        };
        // One of which more may have come is looked at soon, and may have a request under way.
        if !more {
            door.reopen();
        }
    }
}
