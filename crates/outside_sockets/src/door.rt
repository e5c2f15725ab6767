//! The doorman: the connections that no desk has, and whichever desk waits looks after them.
//!
//! One set of descriptors of the system (`epoll`) has the listener and all connections. Of each the system tells one desk once, and
//! not again before it is asked again. A connection that it told of stands in the line (`Line`) until a desk takes it, and so does
//! one whose run has ended while more may have come: of that one the system is asked again only after a read that found nothing.
//! The desk that takes a connection from its place (`Room`) has it alone.
//!
//! Nobody sleeps while one stands in the line: a desk that begins to wait counts itself first and looks at the line then, and one
//! that has added to the line takes one of it, and wakes a desk that waits if another one still stands there.
use crate::closing::{begin, drop_some};
use crate::crowd::Crowd;
use crate::front::Front;
use crate::limits::{BATCH, LOOK, PATROL, PAUSE, milliseconds};
use crate::line::Line;
use crate::room::{Kept, Room, State};
use libc::net as c;
use mio::{Poll, Token, Waker};
use os::EpollEvent;
use std::alloc::{AllocError, Global};
use std::io;
use std::net::{Net, OpenListener};
use std::os::fd::AsRawFd;
use std::sync::atomic::{AtomicU64, Ordering};
use std::sync::{Arc, Wait};
use std::time::{Clock, Duration};

// The numbers of the listener and of the waker; those of connections are below.
const LISTENER: u64 = u64::MAX;

const WAKER: u64 = u64::MAX - 1;

const BYTES: u32 = c::EPOLLIN | c::EPOLLRDHUP | c::EPOLLONESHOT;

/// What a desk that waits is told.
#[derive(Clone, Copy)]
pub enum Told {
    /// Nothing for a while.
    Nothing,
    /// The listener has connections.
    Arrivals,
    /// The connection of this number has bytes, or is at its end.
    Bytes(u64),
}

/// What all desks of a server share.
#[derive(Drop)]
pub struct Door<R: Net> {
    poll: Poll,
    waker: Waker,
    pub listener: R::Listener,
    room: Room<R::Stream>,
    line: Line,
    pub crowd: Arc<Crowd, Global>,
    // Whether the listener is left alone, since each connection has a request under way.
    shut: AtomicU64,
    ended: AtomicU64,
    announced: AtomicU64,
    patrol: AtomicU64,
}

/// The clock in milliseconds.
pub fn now(timer: &impl Clock) -> u64 {
    match timer.monotonic() {
        Ok(time) => u64::try_from(time.as_millis()).unwrap_or(u64::MAX),
        Err(_) => 0,
    }
}

fn no_room(_: AllocError) -> io::Error {
    io::Error::from(io::ErrorKind::OutOfMemory)
}

impl<R: Net> Door<R> {
    /// The doorman of a listener.
    pub fn new(rt: &R, alloc: Global, listener: R::Listener) -> io::Result<Door<R>> {
        listener.set_nonblocking(true)?;
        let poll = Poll::new(rt)?;
        let waker = Waker::new(poll.registry(), Token(WAKER as usize))?;
        let room: Room<R::Stream> = Room::new(alloc).map_err(no_room)?;
        let door: Door<R> = Door {
            poll,
            waker,
            listener,
            room,
            line: Line::new(alloc).map_err(no_room)?,
            crowd: Crowd::new(alloc).map_err(no_room)?,
            shut: AtomicU64::new(0),
            ended: AtomicU64::new(0),
            announced: AtomicU64::new(0),
            patrol: AtomicU64::new(0),
        };
        if !door.watch(c::EPOLL_CTL_ADD, door.listener.as_raw_fd(), LISTENER) {
            return Err(io::Error::from_raw_os_error(os::errno()));
        }
        Ok(door)
    }

    fn watch(&self, op: i32, fd: i32, key: u64) -> bool {
        os::epoll_ctl(self.poll.as_raw_fd(), op, fd, BYTES, key) == 0
    }

    /// Has the system tell of the listener again.
    pub fn open(&self) -> bool {
        self.watch(c::EPOLL_CTL_MOD, self.listener.as_raw_fd(), LISTENER)
    }

    /// Says that the listener has failed. A desk that waits is told.
    pub fn end(&self) {
        self.ended.store(1, Ordering::SeqCst);
        let _ = self.waker.wake();
    }

    /// Whether the listener has failed.
    pub fn is_over(&self) -> bool {
        self.ended.load(Ordering::SeqCst) != 0
    }

    /// Whether this is the first time that this is asked. Later ones write nothing that other desks read.
    pub fn is_first(&self) -> bool {
        self.announced.load(Ordering::SeqCst) == 0 && self.announced.swap(1, Ordering::SeqCst) == 0
    }

    // The connection whose turn it is. If others stand in the line, a desk that waits is woken for them.
    fn next_in_line(&self) -> Option<Told> {
        let key = self.line.take()?;
        self.share();
        Some(Told::Bytes(key))
    }

    // Wakes a desk that waits, if somebody stands in the line.
    fn share(&self) {
        if self.crowd.is_anyone_waiting() && !self.line.is_empty() {
            let _ = self.waker.wake();
        }
    }

    // Counts a desk as waiting, unless somebody stands in the line. Whether it counted it.
    fn begins_wait(&self) -> bool {
        if !self.line.is_empty() {
            return false;
        }
        self.crowd.begin_wait();
        if self.line.is_empty() {
            return true;
        }
        self.crowd.end_wait();
        false
    }

    // Asks the system for events. If nobody stands in the line it waits for one, at most for the time of a patrol. How many came.
    fn ask(&self, found: &mut [EpollEvent; BATCH]) -> usize {
        let set = self.poll.as_raw_fd();
        let most = if self.crowd.is_anyone_waiting() {
            1
        } else {
            BATCH
        };
        if !self.begins_wait() {
            return os::epoll_wait(set, &mut found[..], 0);
        }
        let count = os::epoll_wait(set, &mut found[..most], PATROL as i32);
        self.crowd.end_wait();
        count
    }

    // Adds to the line whom the system tells of. Whether the listener has connections.
    fn look(&self) -> bool {
        let mut found = [EpollEvent { events: 0, data: 0 }; BATCH];
        let count = self.ask(&mut found);
        let mut arrivals = false;
        for event in found.iter().take(count) {
            match event.data {
                LISTENER => arrivals = true,
                WAKER => {}
                key => {
                    let _ = self.line.add(key);
                }
            }
        }
        arrivals
    }

    /// Waits until there is something to do, at most for the time of a patrol. `turns` is how many connections a desk may take of
    /// the line before it asks the system again: as many as stood there when it last asked.
    pub fn wait(&self, turns: &mut u64) -> Told {
        if *turns > 0 {
            if let Some(told) = self.next_in_line() {
                *turns = turns.saturating_sub(1);
                return told;
            }
        }
        let arrivals = self.look();
        *turns = self.line.count().min(LOOK);
        if arrivals {
            self.share();
            return Told::Arrivals;
        }
        *turns = turns.saturating_sub(1);
        self.next_in_line().unwrap_or(Told::Nothing)
    }

    // Closes a connection that was kept. Whether there was one.
    fn lose(&self, kept: Option<Kept<R::Stream>>) -> bool {
        let Some(kept) = kept else {
            return false;
        };
        self.line
            .remove(u64::from(kept.stream.as_raw_fd().unsigned_abs()));
        self.crowd.end_links(1);
        if !kept.cold {
            self.crowd.cool_down(1);
        }
        true
    }

    /// Keeps a connection. If a request of it is held, or more may have come of it, it stands in the line; else the system tells of
    /// it once, when bytes come. If neither can be it is closed.
    pub fn keep<W: Wait>(&self, waits: &W, kept: Kept<R::Stream>, more: bool) {
        let fd = kept.stream.as_raw_fd();
        let op = if kept.known {
            c::EPOLL_CTL_MOD
        } else {
            c::EPOLL_CTL_ADD
        };
        let stands = kept.known && (more || kept.has_request());
        let mut kept = kept;
        kept.known = true;
        kept.unsure = more;
        let key = u64::from(fd.unsigned_abs());
        let set = self.poll.as_raw_fd();
        let refused = self.room.put(
            waits,
            fd,
            kept,
            || if stands {
                self.line.add(key)
            } else {
                os::epoll_ctl(set, op, fd, BYTES, key) == 0
            },
        );
        self.lose(refused);
    }

    /// Has the system tell of the listener again, if it was left alone. It is called after each event by which a connection may
    /// have ended, or have no request under way any more.
    pub fn reopen(&self) {
        if self.shut.load(Ordering::SeqCst) == 0 || self.shut.swap(0, Ordering::SeqCst) == 0 {
            return;
        }
        if !self.open() {
            self.end();
        }
    }

    // Whether a connection more may be open, if need be in the place of another one.
    fn may_accept<W: Wait>(&self, waits: &W) -> bool {
        !self.crowd.is_full() || self.room.can_close(waits)
    }

    /// Whether there is a place for a connection more. If not, the listener is left alone until there may be one (`reopen`).
    pub fn has_place<W: Wait>(&self, waits: &W) -> bool {
        if self.may_accept(waits) {
            return true;
        }
        self.shut.store(1, Ordering::SeqCst);
        // A place that came free before this was to be seen is found here, and a later one reopens the listener.
        if self.may_accept(waits) {
            self.reopen();
        }
        false
    }

    /// Keeps one that was just accepted, if need be in the place of one that is closed. Two are closed if there is one too many:
    /// a desk may have taken the one that was to be closed for an earlier one.
    pub fn let_in<W: Wait>(&self, waits: &W, now: u64, stream: R::Stream, patience: Duration) {
        for _ in 0..2 {
            if self.crowd.is_full() {
                let _ = self.make_room(waits);
            }
        }
        self.crowd.add_link();
        self.keep(
            waits,
            Kept {
                stream,
                waits: patience,
                front: None,
                state: State::New,
                since: now,
                known: false,
                cold: false,
                unsure: false,
            },
            false,
        );
    }

    /// Keeps one whose run is over, with what has come of it.
    pub fn keep_on<W: Wait>(
        &self,
        waits: &W,
        now: u64,
        stream: R::Stream,
        patience: Duration,
        front: Option<Front>,
        more: bool,
    ) {
        let state = match &front {
            Some(_) => State::Heading,
            None => State::Idle,
        };
        self.keep(
            waits,
            Kept {
                stream,
                waits: patience,
                front,
                state,
                since: now,
                known: true,
                cold: false,
                unsure: false,
            },
            more,
        );
    }

    /// The connection of a number.
    pub fn take<W: Wait>(&self, waits: &W, key: u64) -> Option<Kept<R::Stream>> {
        let mut kept = self.room.take(waits, i32::try_from(key).ok()?)?;
        if kept.cold {
            kept.cold = false;
            self.crowd.warm_up();
        }
        Some(kept)
    }

    /// Closes the connection that goes first. Whether there was one.
    pub fn make_room<W: Wait>(&self, waits: &W) -> bool {
        self.lose(self.room.take_first(waits))
    }

    /// Closes the connections that have been kept too long, once a second. It does not wait.
    pub fn patrol(&self, now: u64) {
        let due = self.patrol.load(Ordering::SeqCst);
        if now < due {
            return;
        }
        let next = now.saturating_add(PATROL);
        if self
            .patrol
            .compare_exchange(due, next, Ordering::SeqCst, Ordering::SeqCst)
            .is_err()
        {
            return;
        }
        let busy = !self.crowd.is_anyone_waiting();
        let (closed, cooled) = self.room.look_around(now, busy);
        self.crowd.end_links(closed);
        self.crowd.cool_down(cooled);
        self.reopen();
    }

    /// Closes a connection, which may take a while that no desk waits for.
    pub fn close<W: Wait>(&self, waits: &W, now: u64, stream: R::Stream) {
        if begin(&stream) {
            self.go_on_closing(
                waits,
                Kept {
                    stream,
                    waits: milliseconds(PAUSE),
                    front: None,
                    state: State::Closing(0),
                    since: now,
                    known: true,
                    cold: false,
                    unsure: false,
                },
                0,
            );
        } else {
            drop(stream);
            self.crowd.end_link();
        }
    }

    /// Drops what has come of a connection that is being closed, and keeps it while more may come.
    pub fn go_on_closing<W: Wait>(&self, waits: &W, kept: Kept<R::Stream>, dropped: usize) {
        let mut kept = kept;
        match drop_some(&mut kept.stream, dropped) {
            Some(dropped) => {
                kept.state = State::Closing(dropped);
                self.keep(waits, kept, false);
            }
            None => {
                drop(kept);
                self.crowd.end_link();
            }
        }
    }
}
