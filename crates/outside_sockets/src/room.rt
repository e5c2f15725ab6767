//! The places of the connections that no desk has, one for each number of a descriptor.
ghost use Rattle.std.specs.Prelude.{◌≡◌, List, [], ◌∷◌, ◌++◌};
ghost use Rattle.outside_sockets.specs.Choice.{GoesFirst};
ghost use Rattle.outside_sockets.specs.Standing.{StandsAs};

use crate::choice::{Rank, Standing, is_first};
use crate::front::{Come, Front, has_come};
use crate::heads::Head;
use crate::limits::{COLD, FIRST_BYTE, IDLE, LINGER, PLACES, SPARED, WHOLE_HEAD};
use std::alloc::{AllocError, Global};
use std::net::OpenStream;
use std::os::fd::AsRawFd;
use std::sync::{Mutex, Wait};
use std::time::Duration;

/// What a connection waits for that no desk has.
#[derive(Clone, Copy)]
pub enum State {
    /// Its first byte.
    New,
    /// The rest of a head.
    Heading,
    /// Its next request.
    Idle,
    /// Its end, and so many bytes were dropped.
    Closing(usize),
}

/// A connection that no desk has.
#[derive(Drop)]
pub struct Kept<N: Drop> {
    pub stream: N,
    /// How long the system lets a read wait.
    pub waits: Duration,
    /// What has come of it, where something has.
    pub front: Option<Front>,
    pub state: State,
    /// Since when it has been in this state, in milliseconds of the clock.
    pub since: u64,
    /// Whether the system watches it already.
    pub known: bool,
    /// Whether it has been quiet for a while.
    pub cold: bool,
    /// Whether it stands in the line though the system has not told that bytes came.
    pub unsure: bool,
}

// Whether bytes have come that were not read. It does not wait.
fn has_unread<N: OpenStream>(stream: &N) -> bool {
    let mut first = [0];
    let unread = stream.set_nonblocking(true).is_ok()
        && matches!(stream.peek(&mut first), Ok(count) if count > 0);
    stream.set_nonblocking(false).is_ok() && unread
}

impl<N: OpenStream + AsRawFd + Drop> Kept<N> {
    // Whether it has been kept too long.
    fn is_late(&self, now: u64) -> bool {
        let most = match self.state {
            State::New => FIRST_BYTE,
            State::Heading => WHOLE_HEAD,
            State::Idle => IDLE,
            State::Closing(_) => LINGER,
        };
        now.saturating_sub(self.since) >= most
    }

    fn is_closing(&self) -> bool {
        matches!(self.state, State::Closing(_))
    }

    // What has come of it, whether it was read or not.
    fn has_come(&self) -> Come {
        let fd = self.stream.as_raw_fd();
        match &self.front {
            Some(front) => front.has_come(fd),
            None => has_come(fd, Head::new(), 0),
        }
    }

    // Whether it is a new one of which no byte has come.
    fn is_silent(&self) -> bool {
        matches!(self.state, State::New) && matches!(self.has_come(), Come::Nothing)
    }

    // Whether a request of it waits for a desk.
    fn has_asked(&self) -> bool {
        !self.is_closing() && matches!(self.has_come(), Come::Request)
    }

    // If the front of a head lies unread of it, the head has its time from now on.
    fn begin_head(&mut self, now: u64) {
        if matches!(self.state, State::New | State::Idle) && matches!(self.has_come(), Come::Part) {
            self.state = State::Heading;
            self.since = now;
        }
    }

    fn rank(&self) -> Rank
        ensures { StandsAs self.now.state result }
    {
        match self.state {
            State::New => Rank::Silent,
            State::Heading | State::Idle => Rank::Heard,
            State::Closing(_) => Rank::Closing,
        }
    }

    /// Sets it beside those that were met, of which `first` goes first. Whether bytes of a new one lie unread is asked of the
    /// system only where that decides.
    pub fn weigh(&self, number: usize, first: &mut Option<Standing>)
        ensures { (met : List Standing) → GoesFirst met first.old → (standing : Standing) × StandsAs self.now.state standing.rank
            × (standing.since ≡ self.now.since) × (standing.number ≡ number) × GoesFirst (met ++ standing ∷ []) first.new }
    {
        let mut standing = Standing {
            rank: self.rank(),
            since: self.since,
            number,
        };
        if !is_first(*first, standing) {
            return;
        }
        if let State::New = self.state {
            if has_unread(&self.stream) {
                standing.rank = Rank::Heard;
                if !is_first(*first, standing) {
                    return;
                }
            }
        }
        *first = Some(standing);
    }

    // The same, unless a request of it waits for a desk. The system is asked only where that decides.
    fn weigh_without_request(&self, number: usize, first: &mut Option<Standing>) {
        let mut next = *first;
        self.weigh(number, &mut next);
        if matches!(next, Some(it) if it.number == number) && !self.has_asked() {
            *first = next;
        }
    }

    /// Whether a request is held of it.
    pub fn has_request(&self) -> bool {
        match &self.front {
            Some(front) => front.request().is_some(),
            None => false,
        }
    }
}

/// As many places as there may be descriptors, each with a lock of its own. It takes no memory once it was made.
#[derive(Drop)]
pub struct Room<N: Drop> {
    places: Vec<Mutex<Option<Kept<N>>>>,
}

impl<N: OpenStream + AsRawFd + Drop> Room<N> {
    /// A room that is empty.
    pub fn new(alloc: Global) -> Result<Room<N>, AllocError> {
        let mut places = Vec::with_capacity(alloc, PLACES)?;
        for _ in 0..PLACES {
            places.push(Mutex::new(None))?;
        }
        Ok(Room { places })
    }

    fn place(&self, number: i32) -> Option<&Mutex<Option<Kept<N>>>> {
        self.places.get(usize::try_from(number).ok()?)
    }

    /// Keeps the connection with this descriptor, and asks the system to tell of it. Where either can't be it is given back.
    pub fn put<W: Wait, F: FnOnce() -> bool>(
        &self,
        waits: &W,
        number: i32,
        kept: Kept<N>,
        ask: F,
    ) -> Option<Kept<N>>
        requires { F.pre ask }
    {
        let Some(place) = self.place(number) else {
            return Some(kept);
        };
        let mut held = place.lock(waits);
        *held = Some(kept);
        if ask() { None } else { held.take() }
    }

    /// The connection with this descriptor, which is kept no longer; none where it was closed before.
    pub fn take<W: Wait>(&self, waits: &W, number: i32) -> Option<Kept<N>> {
        self.place(number)?.lock(waits).take()
    }

    // The one that goes first if one has to be closed: of all, or of those that are not silent if few are silent. One of which a
    // request waits for a desk does not go.
    fn first_to_go<W: Wait>(&self, waits: &W) -> Option<Standing> {
        let mut first = None;
        let mut first_heard = None;
        let mut silent = 0u64;
        for (number, place) in self.places.iter().enumerate() {
            if let Some(kept) = &*place.lock(waits) {
                kept.weigh_without_request(number, &mut first);
                if silent <= SPARED && kept.is_silent() {
                    silent = silent.saturating_add(1);
                } else {
                    kept.weigh_without_request(number, &mut first_heard);
                }
            }
        }
        match first_heard {
            Some(heard) if silent <= SPARED && matches!(heard.rank, Rank::Heard) => first_heard,
            _ => first,
        }
    }

    /// Whether one can be closed.
    pub fn can_close<W: Wait>(&self, waits: &W) -> bool {
        for place in &self.places {
            if let Some(kept) = &*place.lock(waits) {
                if !kept.has_asked() {
                    return true;
                }
            }
        }
        false
    }

    /// The one that goes first, which is kept no longer; none if a desk has taken it meanwhile, or a request of it has come.
    pub fn take_first<W: Wait>(&self, waits: &W) -> Option<Kept<N>> {
        let first = self.first_to_go(waits)?;
        let mut held = self.places.get(first.number)?.lock(waits);
        match &*held {
            Some(kept) if kept.since == first.since && !kept.has_asked() => held.take(),
            _ => None,
        }
    }

    /// Closes those that have been kept too long, unless a request of them waits for a desk, and has others be cold. If `busy`, no
    /// desk waits, and the heads that began unseen begin now. It says how many were closed, and how many are warm no longer. It
    /// passes over a place that another desk looks at.
    pub fn look_around(&self, now: u64, busy: bool) -> (u64, u64) {
        let mut closed = 0u64;
        let mut cooled = 0u64;
        for place in &self.places {
            let Some(mut held) = place.try_lock() else {
                continue;
            };
            let Some(kept) = &mut *held else {
                continue;
            };
            if !kept.cold && now.saturating_sub(kept.since) >= COLD {
                kept.cold = true;
                cooled = cooled.saturating_add(1);
            }
            if busy || kept.is_late(now) {
                kept.begin_head(now);
            }
            if kept.is_late(now) && !kept.has_asked() {
                if !kept.cold {
                    cooled = cooled.saturating_add(1);
                }
                *held = None;
                closed = closed.saturating_add(1);
            }
        }
        (closed, cooled)
    }
}
