// A stream in lock step: its second request comes only once the answer to the first was taken whole.
use crate::literals::SETTINGS;
use outside::{Blobs, Clock, Failed, Sink, Source, Stream, Tells};
use outside_memory::{FaultScript, MemBlobs, MemHeld, ScriptClock};
use outside_remote::{Remote, ScriptRemote};
use repo_config::Settings;
use repo_core::Core;
use repo_course::End;
use repo_run::begin;
use repo_server::serve_stream;
use row_tables::{MemRecords, Records};
use std::alloc::{AllocError, Global};
use std::test::Fail;

type MemCore = Core<MemRecords, ScriptClock, MemHeld>;

const PUT_ABC: &str =
    "PUT /repository/releases/org/acme/lib/1.0/lib-1.0.jar HTTP/1.1\r\nHost: x\r\nContent-Length: 3\r\n\r\nabc";

const GET_LAST: &str =
    "GET /repository/releases/org/acme/lib/1.0/lib-1.0.jar HTTP/1.1\r\nHost: x\r\nConnection: close\r\n\r\n";

const CREATED: &str =
    "HTTP/1.1 201 Created\r\nContent-Type: text/plain\r\nContent-Length: 8\r\n\r\ncreated\n";

const ABC_LAST: &str =
    "HTTP/1.1 200 OK\r\nContent-Type: application/octet-stream\r\nContent-Length: 3\r\nX-Checksum-SHA1: a9993e364706816aba3e25717850c26c9cd0d89d\r\nX-Checksum-MD5: 900150983cd24fb0d6963f7d28e17f72\r\nConnection: close\r\n\r\nabc";

/// Gives a PUT and then a GET, each in one read, and fails where one is asked for too early.
#[derive(Drop)]
struct LockStep {
    given: u8,
    /// How many bytes of answers were taken, and whether they are the right ones.
    taken: usize,
    right: bool,
    faults: u64,
}

/// The byte that has to stand at a place of the answers.
fn answer_at(place: usize) -> Option<u8> {
    if place < CREATED.len() {
        CREATED.as_bytes().get(place).copied()
    } else {
        ABC_LAST.as_bytes().get(place - CREATED.len()).copied()
    }
}

/// Whether the bytes are those that have to stand from a place of the answers on.
fn are_right(place: usize, piece: &[u8]) -> bool {
    let mut at = place;
    for byte in piece {
        if answer_at(at) != Some(*byte) {
            return false;
        }
        at = at.saturating_add(1);
    }
    true
}

impl LockStep {
    /// The next request, where its time has come; empty at the end.
    fn next(&self) -> Option<&'static str> {
        match self.given {
            0 => Some(PUT_ABC),
            1 if self.right && self.taken == CREATED.len() => Some(GET_LAST),
            1 => None,
            _ => Some(""),
        }
    }
}

impl Tells for LockStep {
    ghost read_faults = { λ s. s.faults };
}

impl Source for LockStep {
    fn read(&mut self, buffer: &mut [u8]) -> Result<usize, Failed> {
        match self.next() {
            Some(request) if request.len() <= buffer.len() => {
                buffer[..request.len()].copy_from_slice(request.as_bytes());
                self.given = self.given.saturating_add(1);
                Ok(request.len())
            }
            _ => {
                self.faults = self.faults.saturating_add(1);
                Err(Failed)
            }
        }
    }
}

impl Sink for LockStep {
    fn write(&mut self, piece: &[u8]) -> Result<usize, Failed> {
        self.right = self.right && are_right(self.taken, piece);
        self.taken = self.taken.saturating_add(piece.len());
        Ok(piece.len())
    }
}

impl Stream for LockStep {}

// The settings that a text says. Where the text stood here, what is known of them would be computed.
fn settings_of(alloc: Global, text: &str) -> Option<Settings> {
    match repo_config::read(alloc, text.as_bytes()) {
        Ok(settings) => Some(settings),
        Err(_) => None,
    }
}

// A repository over what is recorded and stored. Nothing is known of it: who calls it copies its settings from it.
fn begun<K: Records + Drop, B: Blobs, C: Clock + Drop>(
    alloc: Global,
    settings: &Settings,
    records: K,
    blobs: &mut B,
    clock: C,
) -> Option<Core<K, C, B::Held>> {
    begin(alloc, settings, records, blobs, clock).ok()
}

// A repository over nothing.
fn core_of(alloc: Global, settings: &Settings, blobs: &mut MemBlobs) -> Option<MemCore> {
    let records = MemRecords::new(alloc, Vec::new(alloc));
    let clock = ScriptClock::stepping(alloc, 1_709_208_000, 1);
    begun(alloc, settings, records, blobs, clock)
}

// How a stream ends, served by a repository by the settings that this has. Nothing more is said of it.
fn served_by<B: Blobs, R: Remote, K: Records, C: Clock, T: Stream>(
    alloc: Global,
    core: &mut Core<K, C, B::Held>,
    blobs: &mut B,
    remote: &mut R,
    stream: &mut T,
) -> Result<End, AllocError> {
    let settings: Settings = core.settings().copied(alloc)?;
    Ok(serve_stream(alloc, &settings, core, blobs, remote, stream))
}

// Served by a repository over nothing; nothing where there is none.
fn end_of<T: Stream>(alloc: Global, settings: &Settings, stream: &mut T) -> Option<End> {
    let mut blobs = MemBlobs::new(alloc, FaultScript::none(alloc));
    let mut remote = ScriptRemote::new(alloc, Vec::new(alloc), Vec::new(alloc));
    let mut core = core_of(alloc, settings, &mut blobs)?;
    served_by(alloc, &mut core, &mut blobs, &mut remote, stream).ok()
}

// Whether a stream is served to its end, and took the right answers.
fn is_in_step(alloc: Global, settings: &Settings) -> bool {
    let mut stream = LockStep {
        given: 0,
        taken: 0,
        right: true,
        faults: 0,
    };
    let end = end_of(alloc, settings, &mut stream);
    end == Some(End::Closed) && stream.right && stream.taken == CREATED.len() + ABC_LAST.len()
}

#[test]
fn an_answer_is_written_before_the_next_request_comes(rt: HostRuntime) -> Result<(), Fail> {
    match settings_of(rt.alloc(), SETTINGS) {
        Some(settings) => assert!(rt; is_in_step(rt.alloc(), &settings)),
        None => Err("no settings")?,
    }
    Ok(())
}
