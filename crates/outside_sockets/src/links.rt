//! One connection.
ghost use Rattle.std.specs.Prelude.{◌≡◌, ◌<◌, ◌≤◌, length, IfOk};
ghost use Rattle.outside.specs.Faults.{HasCause};

use crate::crowd::Crowd;
use crate::effort::{Effort, moment};
use crate::front::{Front, read_once};
use crate::limits::{PAUSE, SLICE, milliseconds};
use outside::{Failed, Sink, Source, Stream, Tells};
use std::alloc::Global;
use std::io::{self, ErrorKind, Read, Write};
use std::marker::Model;
use std::net::OpenStream;
use std::sync::Arc;
use std::time::{Clock, Duration};

// How often a call is tried that a signal interrupts, or that waits for a slice of its time.
const TRIES: u32 = 1_000_000;

/// How far a run has come.
#[derive(Clone, Copy)]
enum Stage {
    /// It goes on.
    Open,
    /// The end was given to a read between two requests, and the connection may go on; whether the peer was silent before.
    Paused(bool),
    /// The peer has ended it.
    Ended,
}

/// A connection, and one run of its requests.
#[derive(Drop)]
struct Run<N: OpenStream + Read + Write + Drop, T: Clock + Drop> {
    stream: N,
    timer: T,
    crowd: Arc<Crowd, Global>,
    front: Front,
    stage: Stage,
    /// How many requests have begun.
    begun: u64,
    /// How many bytes of the last one were not given yet.
    left: u64,
    /// Whether something was written after it.
    answered: bool,
    effort: Effort,
    /// How long the system lets a read wait.
    waits: Duration,
}

/// A connection over TCP for one run of requests. Contracts see how many of its reads and writes have failed; it tells no bytes.
///
/// It is handed out once a whole head has come. A read gives bytes of one request alone. Between two requests it waits 10
/// milliseconds, or not at all where another connection may want the desk or the run is long enough: where no whole head has come
/// by then it gives the end, and the connection goes back to the doorman with what has come. Inside a request a call that moves
/// nothing for 30 seconds fails, and so does one by which the request's body and its answer have waited 10 seconds and moved
/// less than 4 KiB a second on average. What the system refuses fails too. Once the end was read, each read gives it again.
#[derive(Drop)]
pub struct TcpLink<N: OpenStream + Read + Write + Drop, T: Clock + Drop> {
    run: Run<N, T>,
    read_faults: u64,
    write_faults: u64,
}

/// What becomes of a connection at the end of a run.
pub enum Rest<N> {
    /// It goes on: its stream, how long the system lets a read wait, what has come and was not given, and whether the peer was
    /// silent then.
    Kept(N, Duration, Front, bool),
    /// The server has ended it, and the peer may still be sending.
    Closing(N, Front),
    /// The peer has ended it.
    Over(Front),
}

impl<N: OpenStream + Read + Write + Drop, T: Clock + Drop> Model for TcpLink<N, T> {
    ghost use Rattle.outside_sockets.specs.Counts.{LinkCounts};

    ghost Value = { LinkCounts };

    ghost view = { λ l. record { reads = l.read_faults; writes = l.write_faults } };
}

/// Sets up a connection that was just accepted: what is written goes out at once, a write waits a slice of its time, and a read as
/// long as is given back. An error where the system refuses that.
pub fn set_up<N: OpenStream>(stream: &N) -> io::Result<Duration> {
    let pause = milliseconds(PAUSE);
    stream.set_nodelay(true)?;
    stream.set_write_timeout(Some(milliseconds(SLICE)))?;
    stream.set_read_timeout(Some(pause))?;
    Ok(pause)
}

/// Lets a read wait as long as this. The system is told only where it was told another time before. Whether it did so.
pub fn let_wait<N: OpenStream>(stream: &N, waits: &mut Duration, patience: u64) -> bool {
    let patience = milliseconds(patience);
    if *waits == patience {
        return true;
    }
    if stream.set_read_timeout(Some(patience)).is_err() {
        return false;
    }
    *waits = patience;
    true
}

/// Whether a call that failed so says that the peer does nothing for now.
pub fn is_silence(kind: ErrorKind) -> bool {
    matches!(kind, ErrorKind::WouldBlock | ErrorKind::TimedOut)
}

impl<N: OpenStream + Read + Write + Drop, T: Clock + Drop> Run<N, T> {
    // Waits for a whole head. Whether one is held.
    fn await_head(&mut self) -> Result<bool, Failed> {
        if self.front.request().is_some() {
            return Ok(true);
        }
        if !let_wait(&self.stream, &mut self.waits, PAUSE) {
            return Err(Failed);
        }
        match self.front.read_from(&mut self.stream) {
            Ok(0) | Err(ErrorKind::ConnectionReset) => {
                self.stage = Stage::Ended;
                Ok(false)
            }
            Ok(_) => Ok(self.front.request().is_some()),
            Err(kind) if is_silence(kind) => Ok(false),
            Err(_) => Err(Failed),
        }
    }

    // Begins the next request. Whether there is one; else the run is over.
    fn begin(&mut self) -> Result<bool, Failed> {
        let enough = self.begun > 0 && self.crowd.ends_run(self.begun);
        if enough || !self.await_head()? {
            if let Stage::Open = self.stage {
                self.stage = Stage::Paused(!enough);
            }
            return Ok(false);
        }
        let Some(count) = self.front.begin() else {
            return Err(Failed);
        };
        self.left = count;
        self.begun = self.begun.saturating_add(1);
        self.answered = false;
        self.effort = Effort::none();
        Ok(true)
    }

    // Reads of a body as the peer sends it.
    fn read_body(&mut self, buffer: &mut [u8]) -> Result<usize, Failed>
        ensures { IfOk result (λ n. n ≤ length buffer.new) }
    {
        if !let_wait(&self.stream, &mut self.waits, SLICE) {
            return Err(Failed);
        }
        for _ in 0..TRIES {
            let since = moment(&self.timer);
            match read_once(&mut self.stream, buffer) {
                Ok(0) => {
                    self.stage = Stage::Ended;
                    return Ok(0);
                }
                Ok(count) => {
                    self.effort = self.effort.with_moved(&self.timer, since, count);
                    return if self.effort.is_too_much() {
                        Err(Failed)
                    } else {
                        Ok(count)
                    };
                }
                Err(kind) if is_silence(kind) => {
                    self.effort = self.effort.with_silence(&self.timer, since);
                    if self.effort.is_too_much() {
                        break;
                    }
                }
                Err(_) => break,
            }
        }
        Err(Failed)
    }

    fn read(&mut self, buffer: &mut [u8]) -> Result<usize, Failed>
        ensures { IfOk result (λ n. n ≤ length buffer.new) }
    {
        if buffer.is_empty() || !matches!(self.stage, Stage::Open) {
            return Ok(0);
        }
        if self.left == 0 && !self.begin()? {
            return Ok(0);
        }
        let mut count = self.front.give(buffer, self.left);
        if count == 0 {
            let most = usize::try_from(self.left)
                .unwrap_or(usize::MAX)
                .min(buffer.len());
            count = self.read_body(&mut buffer[..most])?;
        }
        self.left = self.left.saturating_sub(count as u64);
        Ok(count)
    }

    fn write(&mut self, piece: &[u8]) -> Result<usize, Failed>
        ensures { IfOk result (λ n. (n ≤ length piece.now) × (0 < length piece.now → 0 < n)) }
    {
        self.answered = true;
        for _ in 0..TRIES {
            let since = moment(&self.timer);
            match self.stream.write(piece) {
                Ok(0) if !piece.is_empty() => break,
                Ok(count) => {
                    self.effort = self.effort.with_moved(&self.timer, since, count);
                    return if self.effort.is_too_much() {
                        Err(Failed)
                    } else {
                        Ok(count)
                    };
                }
                Err(error) if error.kind() == ErrorKind::Interrupted => {}
                Err(error) if is_silence(error.kind()) => {
                    self.effort = self.effort.with_silence(&self.timer, since);
                    if self.effort.is_too_much() {
                        break;
                    }
                }
                Err(_) => break,
            }
        }
        Err(Failed)
    }
}

impl<N: OpenStream + Read + Write + Drop, T: Clock + Drop> TcpLink<N, T> {
    /// A run of a connection of which these bytes have come, and whose reads the system lets wait so long.
    pub fn new(
        stream: N,
        waits: Duration,
        front: Front,
        timer: T,
        crowd: Arc<Crowd, Global>,
    ) -> TcpLink<N, T>
        ensures { result ≡ record { reads = 0; writes = 0 } }
    {
        TcpLink {
            run: Run {
                stream,
                timer,
                crowd,
                front,
                stage: Stage::Open,
                begun: 0,
                left: 0,
                answered: true,
                effort: Effort::none(),
                waits,
            },
            read_faults: 0,
            write_faults: 0,
        }
    }

    /// Ends the run. The connection goes on where the end was given to a read between two requests, no request is without an
    /// answer, and no call has failed.
    pub fn finish(self) -> Rest<N> {
        let TcpLink {
            run,
            read_faults,
            write_faults,
        } = self;
        let Run {
            stream,
            timer: _,
            crowd: _,
            front,
            stage,
            begun: _,
            left: _,
            answered,
            effort: _,
            waits,
        } = run;
        match stage {
            Stage::Paused(silent) if answered && read_faults == 0 && write_faults == 0 => {
                Rest::Kept(stream, waits, front, silent)
            }
            Stage::Ended => Rest::Over(front),
            _ => Rest::Closing(stream, front),
        }
    }
}

impl<N: OpenStream + Read + Write + Drop, T: Clock + Drop> Tells for TcpLink<N, T> {
    ghost read_faults = { λ l. l.reads };

    ghost write_faults = { λ l. l.writes };
}

impl<N: OpenStream + Read + Write + Drop, T: Clock + Drop> Source for TcpLink<N, T> {
    fn read(&mut self, buffer: &mut [u8]) -> Result<usize, Failed> {
        let read = self.run.read(buffer);
        if read.is_err() {
            self.read_faults = self.read_faults.saturating_add(1);
        }
        read
    }
}

impl<N: OpenStream + Read + Write + Drop, T: Clock + Drop> Sink for TcpLink<N, T> {
    fn write(&mut self, piece: &[u8]) -> Result<usize, Failed> {
        let written = self.run.write(piece);
        if written.is_err() {
            self.write_faults = self.write_faults.saturating_add(1);
        }
        written
    }
}

impl<N: OpenStream + Read + Write + Drop, T: Clock + Drop> Stream for TcpLink<N, T> {}
