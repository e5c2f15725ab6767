//! What a desk makes of a connection that it is told of.
ghost use Rattle.std.specs.Prelude.{◌≡◌, IfOk, IfSome};

use crate::door::{Door, now};
use crate::front::Front;
use crate::limits::PAUSE;
use crate::links::{TcpLink, is_silence, let_wait};
use crate::room::{Kept, State};
use outside::Failed;
use std::alloc::Global;
use std::net::Net;
use std::os::fd::AsRawFd;
use std::sync::{Arc, Wait};
use std::time::Clock;

/// What a desk has beside its connections.
#[derive(Drop)]
pub struct Hall<R: Net + Clock + Clone + Drop, W: Wait + Drop> {
    pub rt: R,
    pub waits: W,
    pub alloc: Global,
    /// Room for the bytes of one connection, where the last one has left some.
    pub spare: Option<Front>,
    /// How many connections it may take of the line before it asks the system again.
    pub turns: u64,
}

/// What was heard of a connection.
enum Heard {
    /// A whole head.
    Request,
    /// Less than that.
    Part,
    /// Nothing.
    Nothing,
    /// Its end.
    End,
}

// Reads once of a connection, unless a request of it is held.
fn hear<R: Net>(kept: &mut Kept<R::Stream>, front: &mut Front) -> Heard {
    if front.request().is_some() {
        return Heard::Request;
    }
    let read = if kept.unsure {
        front.read_now(kept.stream.as_raw_fd())
    } else if let_wait(&kept.stream, &mut kept.waits, PAUSE) {
        front.read_from(&mut kept.stream)
    } else {
        return Heard::End;
    };
    match read {
        Ok(0) => Heard::End,
        Ok(_) if front.request().is_some() => Heard::Request,
        Ok(_) => Heard::Part,
        Err(kind) if is_silence(kind) => Heard::Nothing,
        Err(_) => Heard::End,
    }
}

impl<R: Net + Clock + Clone + Drop, W: Wait + Drop> Hall<R, W> {
    /// Takes room back.
    pub fn take_back(&mut self, front: Front) {
        let mut front = front;
        front.clear();
        self.spare = Some(front);
    }

    // Room for the bytes of a connection: what it has, or what is spare, or new one.
    fn room_for(&mut self, held: Option<Front>) -> Option<Front> {
        match held.or(self.spare.take()) {
            Some(front) => Some(front),
            None => Front::new(self.alloc).ok(),
        }
    }

    // Keeps a connection of which no whole head has come.
    fn keep_on(&mut self, door: &Door<R>, kept: Kept<R::Stream>, front: Front, state: State) {
        let mut kept = kept;
        if let State::Heading = kept.state {
            kept.front = Some(front);
        } else if let State::Heading = state {
            kept.state = state;
            kept.since = now(&self.rt);
            kept.front = Some(front);
        } else {
            self.take_back(front);
        }
        door.keep(&self.waits, kept, false);
    }

    /// Listens to a connection that was told of: a run of it, where a whole head has come. Else it is kept, or closed where it
    /// is at its end.
    pub fn listen(
        &mut self,
        door: &Door<R>,
        kept: Kept<R::Stream>,
    ) -> Result<Option<TcpLink<R::Stream, R>>, Failed>
        ensures { IfOk result (λ found. IfSome found (λ link. link ≡ record { reads = 0; writes = 0 })) }
    {
        let mut kept = kept;
        if let State::Closing(dropped) = kept.state {
            door.go_on_closing(&self.waits, kept, dropped);
            return Ok(None);
        }
        let Some(mut front) = self.room_for(kept.front.take()) else {
            drop(kept);
            door.crowd.end_link();
            return Ok(None);
        };
        match hear::<R>(&mut kept, &mut front) {
            Heard::Request => {
                let timer = self.rt.clone().map_err(|_| Failed)?;
                let crowd = Arc::try_clone(&door.crowd).map_err(|_| Failed)?;
                let Kept {
                    stream,
                    waits,
                    front: _,
                    state: _,
                    since: _,
                    known: _,
                    cold: _,
                    unsure: _,
                } = kept;
                Ok(Some(TcpLink::new(stream, waits, front, timer, crowd)))
            }
            Heard::Part => {
                self.keep_on(door, kept, front, State::Heading);
                Ok(None)
            }
            Heard::Nothing => {
                self.keep_on(door, kept, front, State::Idle);
                Ok(None)
            }
            Heard::End => {
                self.take_back(front);
                drop(kept);
                door.crowd.end_link();
                Ok(None)
            }
        }
    }
}
