// What runs by steps stand over, and what the last one has come to.
ghost use Rattle.std.specs.Prelude.{◌<◌, IfOk, vec_len};

use crate::objects::{
    MemCleaner, MemDesk, MemPort, blobs_of, cleaner_of, desks_of, port_of, silent, sink_of,
    source_of, written_on,
};
use crate::over::{Beside, Over};
use crate::recorded::{Recorded, journal_of, run_recorded};
use case_texts::{Script, Stored};
use core_steps::CaseBlobs;
use outside_memory::{MemSink, MemSource, ScriptClock};
use run_desks::{Cleaner, Desk};
use std::alloc::{AllocError, Global};
use std::mem;

/// Nothing fails, and a connection takes as much.
const SCRIPT: Script = Script {
    failing: None,
    room: 4_000,
    line_room: 0,
};

/// A store with these blobs, of which this call fails, if there is one, counted from 0 once they stand there.
pub(crate) fn blobs_after(
    alloc: Global,
    all: &[Stored],
    failing: Option<u64>,
) -> Result<CaseBlobs, AllocError> {
    let calls: u64 = (all.len() as u64).saturating_mul(3);
    let failing: Option<u64> = match failing {
        Some(call) => Some(call.saturating_add(calls)),
        None => None,
    };
    blobs_of(alloc, all, failing)
}

/// The words of a command: the settings' name, and the folder's, but for a replay.
fn words_with(alloc: Global, command: &str) -> Result<Vec<String>, AllocError> {
    let mut words: Vec<String> = Vec::new(alloc);
    words.push(String::from_str(alloc, command)?)?;
    words.push(String::from_str(alloc, "s0.toml")?)?;
    if command != "replay" {
        words.push(String::from_str(alloc, "data")?)?;
    }
    Ok(words)
}

/// What runs stand over, and what the last one has come to.
#[derive(Drop)]
pub(crate) struct Stand {
    pub(crate) alloc: Global,
    pub(crate) settings: Vec<u8>,
    pub(crate) at: u64,
    pub(crate) room: usize,
    pub(crate) records: Recorded,
    /// What the desk and the cleaner have, and which calls of the next stores fail.
    pub(crate) blobs: CaseBlobs,
    pub(crate) garbage: CaseBlobs,
    pub(crate) blobs_fail: Option<u64>,
    pub(crate) garbage_fails: Option<u64>,
    pub(crate) answers: Vec<u8>,
    pub(crate) line: Vec<u8>,
    pub(crate) status: u8,
}

impl Stand {
    /// An empty journal, no settings, and nothing stored, at 2024-02-29T12:00:00Z.
    pub(crate) fn new(alloc: Global) -> Result<Stand, AllocError> {
        Ok(Stand {
            alloc,
            settings: Vec::new(alloc),
            at: 1_709_208_000,
            room: 2_000,
            records: Recorded::Journal(journal_of(alloc, b"", &[], 0)?),
            blobs: blobs_of(alloc, &[], None)?,
            garbage: blobs_of(alloc, &[], None)?,
            blobs_fail: None,
            garbage_fails: None,
            answers: Vec::new(alloc),
            line: Vec::new(alloc),
            status: 0,
        })
    }

    /// What a run has beside its desks and its records; the cleaner's blobs are away meanwhile.
    fn beside(&mut self) -> Result<Beside, AllocError> {
        let none: CaseBlobs = blobs_of(self.alloc, &[], None)?;
        let garbage: CaseBlobs = mem::replace(&mut self.garbage, none);
        let cleaner: MemCleaner = cleaner_of(self.alloc, garbage)?;
        let settings: MemSource = source_of(self.alloc, self.settings.as_slice(), 1_000, None)?;
        let out: MemSink = sink_of(self.alloc, self.room)?;
        let clock: ScriptClock = ScriptClock::stepping(self.alloc, self.at, 0);
        Ok(Beside {
            settings,
            cleaner,
            clock,
            out,
        })
    }

    /// Takes back what a run has left.
    fn take_back(&mut self, over: Over, records: Recorded) -> Result<(), AllocError> {
        self.answers = Vec::from_slice(self.alloc, written_on(&over.desk.port))?;
        self.line = Vec::from_slice(self.alloc, over.out.bytes())?;
        self.status = over.status;
        let Over {
            desk,
            cleaner,
            out: _,
            status: _,
        } = over;
        let Desk {
            port: _,
            blobs,
            remote: _,
        } = desk;
        let Cleaner {
            blobs: garbage,
            pace: _,
        } = cleaner;
        self.blobs = blobs;
        self.garbage = garbage;
        self.records = records;
        Ok(())
    }

    /// The one desk, whose connection gives this input.
    fn desks(&mut self, input: &[u8]) -> Result<Vec<MemDesk>, AllocError>
        ensures { IfOk result (λ desks. 0 < vec_len desks) }
    {
        let none: CaseBlobs = blobs_of(self.alloc, &[], None)?;
        let blobs: CaseBlobs = mem::replace(&mut self.blobs, none);
        let port: MemPort = port_of(self.alloc, input, SCRIPT, 1_000)?;
        desks_of(self.alloc, port, blobs, silent(self.alloc))
    }

    /// Runs the program with this command, its one connection giving this input.
    pub(crate) fn run(&mut self, command: &str, input: &[u8]) -> Result<(), AllocError> {
        let words: Vec<String> = words_with(self.alloc, command)?;
        let desks: Vec<MemDesk> = self.desks(input)?;
        let beside: Beside = self.beside()?;
        let records: Recorded = mem::replace(&mut self.records, Recorded::Away);
        match run_recorded(self.alloc, words.as_slice(), desks, beside, records) {
            Some((over, records)) => self.take_back(over, records),
            None => Ok(()),
        }
    }
}
