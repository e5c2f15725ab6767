// A run of the program as plain values: what comes in, what fails, and what has to be answered.
use crate::failures::Object;
use std::alloc::{AllocError, Global};
use std::mem;

/// The call of an object that fails, if one does, and the room of both sinks.
#[derive(Clone, Copy)]
pub struct Script {
    pub failing: Option<(Object, u64)>,
    pub room: usize,
    pub line_room: usize,
}

impl Script {
    /// Nothing fails.
    pub const PLAIN: Script = Script {
        failing: None,
        room: 500_000,
        line_room: 100,
    };

    /// Whether nothing fails, and both sinks have room.
    pub fn is_plain(self) -> bool {
        self.failing.is_none()
            && self.room >= Script::PLAIN.room
            && self.line_room >= Script::PLAIN.line_room
    }

    /// The call of this object that fails, if one does.
    pub fn call_of(self, object: Object) -> Option<u64> {
        match self.failing {
            Some((failing, call)) if failing == object => Some(call),
            _ => None,
        }
    }
}

/// The pieces that an input comes in.
#[derive(Clone, Copy)]
pub enum Pieces {
    WholeAndBytes,
    Blocks,
    Bytes,
}

impl Pieces {
    /// The greatest pieces, by runs.
    pub fn most(self) -> &'static [usize] {
        match self {
            Pieces::WholeAndBytes => &[1_000_000, 1],
            Pieces::Blocks => &[4096],
            Pieces::Bytes => &[1],
        }
    }
}

/// A blob that is stored before a run.
#[derive(Drop)]
pub struct Stored {
    pub blob: u64,
    pub bytes: Vec<u8>,
}

/// What comes in on a connection, and what has to be written on it and printed after it.
#[derive(Drop)]
pub struct Link {
    pub input: Vec<u8>,
    pub answers: Vec<u8>,
    pub line: Vec<u8>,
}

impl Link {
    /// Nothing comes in, and no call is made.
    fn new(alloc: Global) -> Result<Link, AllocError> {
        Ok(Link {
            input: Vec::new(alloc),
            answers: Vec::new(alloc),
            line: Vec::from_slice(alloc, b"calls 0 end Closed\n")?,
        })
    }
}

/// A run of the program: its words, its settings, what was there before, its input and the pieces that it comes in, and what
/// the run has to write and to give.
#[derive(Drop)]
pub struct Case {
    pub name: String,
    /// The words of the program; none for a replay at the moment and by the step.
    pub words: Vec<String>,
    pub settings: Vec<u8>,
    /// The first moment of the clock, in seconds, and the seconds from one moment to the next.
    pub moment: u64,
    pub step: u64,
    pub stored: Vec<Stored>,
    /// What the first blob gives when it is read, in place of what is stored; no byte for that. Where there is any, no run of the
    /// program is made, and one core serves all connections.
    pub given: Vec<u8>,
    /// The input of an earlier run over the same records and blobs; no byte for none.
    pub before: Vec<u8>,
    /// The blobs that are gone after it.
    pub lost: Vec<u64>,
    /// What the remote answers, exchange by exchange; after them it fails.
    pub remote: Vec<Vec<u8>>,
    /// How many exchanges are made with it, where the case says it.
    pub exchanges: Option<u64>,
    pub script: Script,
    pub pieces: Pieces,
    /// The connections that one core serves before the last one. Where there are any, no run of the program is made, and the line
    /// after each has the calls of the core so far.
    pub earlier: Vec<Link>,
    pub last: Link,
    pub status: u8,
    /// The numbers of the blobs that are there in the end, where the case says them.
    pub blobs: Option<Vec<u64>>,
}

/// 2024-02-29T12:00:00Z.
const MOMENT: u64 = 1_709_208_000;

impl Case {
    /// A replay of nothing, by these settings.
    pub fn new(alloc: Global, name: &str, settings: &[u8]) -> Result<Case, AllocError> {
        Ok(Case {
            name: String::from_str(alloc, name)?,
            words: Vec::new(alloc),
            settings: Vec::from_slice(alloc, settings)?,
            moment: MOMENT,
            step: 0,
            stored: Vec::new(alloc),
            given: Vec::new(alloc),
            before: Vec::new(alloc),
            lost: Vec::new(alloc),
            remote: Vec::new(alloc),
            exchanges: None,
            script: Script::PLAIN,
            pieces: Pieces::WholeAndBytes,
            earlier: Vec::new(alloc),
            last: Link::new(alloc)?,
            status: 0,
            blobs: None,
        })
    }

    /// Begins the next connection.
    pub(crate) fn begin_next(&mut self, alloc: Global) -> Result<(), AllocError> {
        let next = Link::new(alloc)?;
        Ok(self.earlier.push(mem::replace(&mut self.last, next))?)
    }
}
