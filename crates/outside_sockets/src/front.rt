//! The bytes of a connection that have come before they are wanted.
ghost use Rattle.std.specs.Prelude.{◌≤◌, length, IfOk};

use crate::heads::{Head, Reach};
use crate::limits::HEAD_BYTES;
use libc::net as c;
use std::alloc::{AllocError, Global};
use std::io::{self, ErrorKind, Read};

// How often a call that a signal interrupts is tried.
const TRIES: u32 = 1_000_000;

/// Bytes that were read of a connection and not given to a run yet: a request, the front of one, or several. It takes no memory
/// once it was made.
#[derive(Drop)]
pub struct Front {
    bytes: Vec<u8>,
    // Those from `start` to `end` are held, and those before `looked` were looked at.
    start: usize,
    looked: usize,
    end: usize,
    // What has come of the head that goes on at `looked`.
    head: Head,
    // The length of the body after the head that ends there, where one does.
    body: Option<u64>,
}

impl Front {
    /// Nothing.
    pub fn new(alloc: Global) -> Result<Front, AllocError> {
        Ok(Front {
            bytes: vec![in alloc; 0; HEAD_BYTES]?,
            start: 0,
            looked: 0,
            end: 0,
            head: Head::new(),
            body: None,
        })
    }

    /// Forgets what is held.
    pub fn clear(&mut self) {
        self.start = 0;
        self.looked = 0;
        self.end = 0;
        self.head = Head::new();
        self.body = None;
    }

    /// Whether nothing is held.
    pub fn is_empty(&self) -> bool {
        self.start >= self.end
    }

    // Whether no byte more can be held.
    fn is_full(&self) -> bool {
        self.start == 0 && self.end >= self.bytes.len()
    }

    // Goes on to the end of the head, or of what is held.
    fn look(&mut self) {
        if self.body.is_some() {
            return;
        }
        if let Some(bytes) = self.bytes.get(self.looked..self.end) {
            let (count, head, body) = went_over(self.head, bytes);
            self.looked = self.looked.saturating_add(count);
            self.head = head;
            self.body = body;
        }
    }

    /// How many bytes the request that is next has in all; none where its head is not whole. Where no byte more can be held all
    /// of them count as a head, which the server then refuses.
    pub fn request(&self) -> Option<u64> {
        let head = self.looked.saturating_sub(self.start) as u64;
        match self.body {
            Some(length) => Some(head.saturating_add(length)),
            None if self.is_full() => Some(self.end.saturating_sub(self.start) as u64),
            None => None,
        }
    }

    /// Begins with the request that is next: how many bytes it has in all.
    pub fn begin(&mut self) -> Option<u64> {
        let count = self.request()?;
        let last = usize::try_from(count).unwrap_or(usize::MAX);
        self.looked = self.start.saturating_add(last).min(self.end);
        self.head = Head::new();
        self.body = None;
        self.look();
        Some(count)
    }

    // Moves what is held to the front.
    fn pack(&mut self) {
        let start = self.start;
        let end = self.end;
        if start > 0 && start <= end && end <= self.bytes.len() {
            self.bytes[..end].rotate_left(start);
            self.start = 0;
            self.looked = self.looked.saturating_sub(start);
            self.end = end - start;
        }
    }

    /// Reads once, and looks at what has come. How many bytes came: none is the end.
    pub fn read_from<N: Read>(&mut self, stream: &mut N) -> Result<usize, ErrorKind> {
        self.pack();
        let end = self.end.min(self.bytes.len());
        let count = read_once(stream, &mut self.bytes[end..])?;
        self.end = end.saturating_add(count);
        self.look();
        Ok(count)
    }

    /// The same of the connection with this descriptor, without waiting.
    pub fn read_now(&mut self, fd: i32) -> Result<usize, ErrorKind> {
        self.pack();
        let end = self.end.min(self.bytes.len());
        let count = receive(fd, &mut self.bytes[end..], false)?;
        self.end = end.saturating_add(count);
        self.look();
        Ok(count)
    }

    /// What has come of the connection with this descriptor, whose bytes are held here.
    pub fn has_come(&self, fd: i32) -> Come {
        if self.request().is_some() {
            return Come::Request;
        }
        has_come(fd, self.head, self.end.saturating_sub(self.start))
    }

    /// Gives at most so many of the bytes that are held, from their front. How many it gave.
    pub fn give(&mut self, buffer: &mut [u8], most: u64) -> usize
        ensures { result ≤ length buffer.new }
    {
        let Some(held) = self.bytes.get(self.start..self.end) else {
            return 0;
        };
        let most = usize::try_from(most).unwrap_or(usize::MAX);
        let count = held.len().min(buffer.len()).min(most);
        buffer[..count].copy_from_slice(&held[..count]);
        self.start = self.start.saturating_add(count);
        count
    }
}

// Goes over these bytes to the end of a head, or to theirs: how many that are, what has come of the head, and the length of its
// body if it ends there.
fn went_over(head: Head, bytes: &[u8]) -> (usize, Head, Option<u64>) {
    let mut head = head;
    let mut count = 0usize;
    for byte in bytes {
        count = count.saturating_add(1);
        if head.passes(*byte) {
            continue;
        }
        match head.with(*byte) {
            Reach::Open(next) => head = next,
            Reach::Whole(length) => return (count, head, Some(length)),
        }
    }
    (count, head, None)
}

/// What has come of a connection that no desk has.
#[derive(Clone, Copy)]
pub enum Come {
    /// A whole head, or as many bytes as a head may have.
    Request,
    /// Bytes that were not read yet, and no whole head.
    Part,
    /// Nothing that was not read yet.
    Nothing,
}

/// What has come of the connection with this descriptor, so many bytes of whose head were read. The bytes that were not read
/// stay unread.
pub fn has_come(fd: i32, head: Head, held: usize) -> Come {
    let mut bytes = [0; HEAD_BYTES];
    let room = HEAD_BYTES.saturating_sub(held);
    match receive(fd, &mut bytes[..room], true) {
        Ok(count) if count > 0 => match went_over(head, &bytes[..count]) {
            (_, _, None) if count < room => Come::Part,
            _ => Come::Request,
        },
        _ => Come::Nothing,
    }
}

// One read that does not wait, tried again if a signal interrupts it. Whether the bytes stay unread.
fn receive(fd: i32, buffer: &mut [u8], stay: bool) -> Result<usize, ErrorKind>
    ensures { IfOk result (λ n. n ≤ length buffer.new) }
{
    let flags = if stay {
        c::MSG_PEEK | c::MSG_DONTWAIT
    } else {
        c::MSG_DONTWAIT
    };
    for _ in 0..TRIES {
        let count = unsafe { c::recv(fd, buffer, flags) };
        if count >= 0 {
            return Ok((count as usize).min(buffer.len()));
        }
        let kind = io::Error::from_raw_os_error(os::errno()).kind();
        if kind != ErrorKind::Interrupted {
            return Err(kind);
        }
    }
    Err(ErrorKind::Interrupted)
}

/// One read, tried again where a signal interrupts it.
pub fn read_once<N: Read>(stream: &mut N, buffer: &mut [u8]) -> Result<usize, ErrorKind>
    ensures { IfOk result (λ n. n ≤ length buffer.new) }
{
    for _ in 0..TRIES {
        match stream.read(buffer) {
            Ok(count) => return Ok(count),
            Err(error) if error.kind() == ErrorKind::Interrupted => {}
            Err(error) => return Err(error.kind()),
        }
    }
    Err(ErrorKind::Interrupted)
}
