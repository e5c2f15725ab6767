//! A stand-in for the system's network: its listener fails as it is told, and its connections give the bytes that they are told.
ghost use Rattle.std.specs.Prelude.{◌≤◌, length, IfOk};

use std::cell::Cell;
use std::fmt::Display;
use std::io::{self, Eprint, ErrorKind, Read, Write};
use std::net::{Net, OpenListener, OpenStream, Shutdown, SocketAddr, TcpListener, TcpStream};
use std::os::fd::{AsRawFd, RawFd};
use std::time::{Clock, Duration};

/// What the stand-in does from now on: whether reads give 7,000 bytes each after the pieces, where else nothing comes in time;
/// whether writes are taken; and how many milliseconds pass at each look at the clock.
#[derive(Clone, Copy)]
pub struct Does(pub bool, pub bool, pub u64);

/// What it has done, and was told.
#[derive(Clone, Copy, Default)]
pub struct Done {
    /// How often the listener and the clock were asked, and how many lines were written to standard error.
    pub asked: usize,
    pub looks: u64,
    pub lines: usize,
    /// How many pieces were given, how many bytes of the one that is next, and how many after them.
    pub given: usize,
    pub begun: usize,
    pub more: usize,
    /// How many bytes were written, and a number by them and their order.
    pub written: usize,
    pub print: u64,
    /// That writes go out at once, how long a read and a write may wait, in milliseconds, and how often the former was told.
    pub at_once: bool,
    pub read: u128,
    pub write: u128,
    pub told: usize,
}

/// The errors of the listener's first calls, 0 where one is to accept a connection; what the reads of a connection give; and how
/// many bytes a write takes at most.
#[derive(Drop)]
pub struct Script<'a> {
    errors: &'a [i32],
    pieces: &'a [&'a [u8]],
    pub takes: usize,
    pub does: Cell<Does>,
    pub done: Cell<Done>,
}

impl<'a> Script<'a> {
    pub fn of(errors: &'a [i32], pieces: &'a [&'a [u8]]) -> Script<'a> {
        Script {
            errors,
            pieces,
            takes: usize::MAX,
            does: Cell::new(Does(false, true, 0)),
            done: Cell::new(Done::default()),
        }
    }
}

/// A network by a script.
#[derive(Clone, Copy)]
pub struct StandIn<'a> {
    pub rt: &'a HostRuntime,
    pub script: &'a Script<'a>,
}

impl Clock for StandIn<'_> {
    fn monotonic(&self) -> io::Result<Duration> {
        let mut done = self.script.done.get();
        let more = done.looks.saturating_mul(self.script.does.get().2);
        done.looks = done.looks.saturating_add(1);
        self.script.done.set(done);
        Ok(
            self.rt
                .monotonic()?
                .saturating_add(Duration::from_millis(more)),
        )
    }

    fn since_1970(&self) -> io::Result<Duration> {
        self.rt.since_1970()
    }

    fn sleep(&self, duration: Duration) {
        self.rt.sleep(duration)
    }
}

impl Eprint for StandIn<'_> {
    fn eprint<D: Display + Drop>(&self, _value: D) -> io::Result<()> {
        Ok(())
    }

    fn eprintln<D: Display + Drop>(&self, _value: D) -> io::Result<()> {
        let mut done = self.script.done.get();
        done.lines = done.lines.saturating_add(1);
        self.script.done.set(done);
        Ok(())
    }
}

impl<'a> Net for StandIn<'a> {
    type Stream = Scripted<'a>;

    type Listener = FailingListener<'a>;

    fn bind(&self, address: SocketAddr) -> io::Result<FailingListener<'a>> {
        let listener = self.rt.bind(address)?;
        Ok(FailingListener {
            listener,
            script: self.script,
        })
    }

    fn connect(&self, address: SocketAddr) -> io::Result<Scripted<'a>> {
        let stream = self.rt.connect(address)?;
        Ok(Scripted {
            stream,
            script: self.script,
        })
    }

    fn connect_timeout(&self, address: SocketAddr, longest: Duration) -> io::Result<Scripted<'a>> {
        let stream = self.rt.connect_timeout(address, longest)?;
        Ok(Scripted {
            stream,
            script: self.script,
        })
    }
}

/// A number by these bytes and their order, after others that have this one.
pub fn print_of(before: u64, bytes: &[u8]) -> u64 {
    let mut print = before;
    for byte in bytes {
        print = print.wrapping_mul(31).wrapping_add(u64::from(*byte));
    }
    print
}

/// A listener that fails with some errors first.
#[derive(Drop)]
pub struct FailingListener<'a> {
    listener: TcpListener,
    script: &'a Script<'a>,
}

impl AsRawFd for FailingListener<'_> {
    fn as_raw_fd(&self) -> RawFd {
        self.listener.as_raw_fd()
    }
}

impl<'a> OpenListener for FailingListener<'a> {
    type Stream = Scripted<'a>;

    fn accept(&self) -> io::Result<(Scripted<'a>, SocketAddr)> {
        let mut done = self.script.done.get();
        let number = self.script.errors.get(done.asked).copied().unwrap_or(0);
        done.asked = done.asked.saturating_add(1);
        self.script.done.set(done);
        if number != 0 {
            return Err(io::Error::from_raw_os_error(number));
        }
        let (stream, address) = self.listener.accept()?;
        let script = self.script;
        Ok((Scripted { stream, script }, address))
    }

    fn local_addr(&self) -> io::Result<SocketAddr> {
        self.listener.local_addr()
    }

    fn set_nonblocking(&self, nonblocking: bool) -> io::Result<()> {
        self.listener.set_nonblocking(nonblocking)
    }
}

/// A connection whose reads give the script's pieces, whatever its peer sends.
#[derive(Drop)]
pub struct Scripted<'a> {
    stream: TcpStream,
    script: &'a Script<'a>,
}

impl AsRawFd for Scripted<'_> {
    fn as_raw_fd(&self) -> RawFd {
        self.stream.as_raw_fd()
    }
}

impl OpenStream for Scripted<'_> {
    fn shutdown(&self, how: Shutdown) -> io::Result<()> {
        self.stream.shutdown(how)
    }

    fn set_nodelay(&self, nodelay: bool) -> io::Result<()> {
        let mut done = self.script.done.get();
        done.at_once = nodelay;
        self.script.done.set(done);
        Ok(())
    }

    fn set_nonblocking(&self, nonblocking: bool) -> io::Result<()> {
        self.stream.set_nonblocking(nonblocking)
    }

    fn peek(&self, buf: &mut [u8]) -> io::Result<usize> {
        self.stream.peek(buf)
    }

    fn set_read_timeout(&self, longest: Option<Duration>) -> io::Result<()> {
        let mut done = self.script.done.get();
        done.told = done.told.saturating_add(1);
        done.read = longest.map_or(0, |time| time.as_millis());
        self.script.done.set(done);
        Ok(())
    }

    fn set_write_timeout(&self, longest: Option<Duration>) -> io::Result<()> {
        let mut done = self.script.done.get();
        done.write = longest.map_or(0, |time| time.as_millis());
        self.script.done.set(done);
        Ok(())
    }
}

// What a read gives after the pieces.
fn more(script: &Script, buffer: &mut [u8]) -> io::Result<usize>
    ensures { IfOk result (λ n. n ≤ length buffer.new) }
{
    if !script.does.get().0 {
        return Err(io::Error::from(ErrorKind::WouldBlock));
    }
    let count = buffer.len().min(7_000);
    let mut done = script.done.get();
    done.more = done.more.saturating_add(count);
    script.done.set(done);
    Ok(count)
}

impl Read for Scripted<'_> {
    fn read(&mut self, buffer: &mut [u8]) -> io::Result<usize> {
        let mut done = self.script.done.get();
        let Some(piece) = self.script.pieces.get(done.given).copied() else {
            return more(self.script, buffer);
        };
        let (_, rest) = piece.split_at(done.begun.min(piece.len()));
        let count = rest.len().min(buffer.len());
        buffer[..count].copy_from_slice(&rest[..count]);
        if count < rest.len() {
            done.begun = piece.len() - rest.len() + count;
        } else {
            done.given = done.given.saturating_add(1);
            done.begun = 0;
        }
        self.script.done.set(done);
        Ok(count)
    }
}

impl Write for Scripted<'_> {
    fn write(&mut self, piece: &[u8]) -> io::Result<usize> {
        if !self.script.does.get().1 {
            return Err(io::Error::from(ErrorKind::WouldBlock));
        }
        let count = piece.len().min(self.script.takes);
        let mut done = self.script.done.get();
        done.written = done.written.saturating_add(count);
        done.print = print_of(done.print, &piece[..count]);
        self.script.done.set(done);
        Ok(count)
    }

    fn flush(&mut self) -> io::Result<()> {
        Ok(())
    }
}
