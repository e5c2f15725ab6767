// What a run is given, in memory. No function here says what it gives, so that who calls several of them carries no facts.
ghost use Rattle.std.specs.Prelude.{◌<◌, IfOk, vec_len};

use case_texts::{Case, Object, Script, Stored, Went};
use core_steps::{CaseBlobs, CaseHeld};
use outside::{Blobs, Duplex};
use outside_memory::{
    FaultScript, MemLink, MemSink, MemSource, ScriptClock, ScriptPort, store_whole,
};
use outside_pace::ScriptPace;
use outside_remote::ScriptRemote;
use repo_core::Core;
use row_tables::MemRecords;
use run_desks::{Cleaner, Desk};
use std::alloc::{AllocError, Global};
use texts::Bytes;

pub(crate) type MemPort = ScriptPort<MemLink>;

pub(crate) type CaseCore = Core<MemRecords, ScriptClock, CaseHeld>;

pub(crate) type MemDesk = Desk<MemPort, CaseBlobs, ScriptRemote>;

pub(crate) type MemCleaner = Cleaner<CaseBlobs, ScriptPace>;

/// The number of the call that fails, if there is one.
fn numbers_of(alloc: Global, call: Option<u64>) -> Result<Vec<u64>, AllocError> {
    Vec::from_slice(alloc, call.as_slice())
}

/// The call with this number fails, if there is one.
fn failing_at(alloc: Global, call: Option<u64>) -> Result<FaultScript, AllocError> {
    Ok(FaultScript::failing_at(numbers_of(alloc, call)?))
}

/// A source of these bytes, so many at most a read, of which one fails, if there is such a call.
pub(crate) fn source_of(
    alloc: Global,
    bytes: &[u8],
    most: usize,
    failing: Option<u64>,
) -> Result<MemSource, AllocError> {
    let faults: FaultScript = failing_at(alloc, failing)?;
    Ok(MemSource::new(Vec::from_slice(alloc, bytes)?, most.max(1), faults))
}

/// A sink with this room.
pub(crate) fn sink_of(alloc: Global, room: usize) -> Result<MemSink, AllocError> {
    Ok(MemSink::new(alloc, room, FaultScript::none(alloc))?)
}

/// A connection that gives this input in pieces of so many bytes.
fn link_of(
    alloc: Global,
    input: &[u8],
    script: Script,
    most: usize,
) -> Result<MemLink, AllocError> {
    let source: MemSource = source_of(alloc, input, most, script.call_of(Object::Reads))?;
    let sink: MemSink = sink_of(alloc, script.room)?;
    Ok(Duplex { source, sink })
}

/// A port with one connection.
pub(crate) fn port_of(
    alloc: Global,
    input: &[u8],
    script: Script,
    most: usize,
) -> Result<MemPort, AllocError> {
    let faults: FaultScript = failing_at(alloc, script.call_of(Object::Port))?;
    let links: Vec<MemLink> = vec![in alloc; link_of(alloc, input, script, most)?]?;
    Ok(ScriptPort::new(alloc, links, faults)?)
}

/// A remote that gives no answer.
pub(crate) fn silent(alloc: Global) -> ScriptRemote {
    ScriptRemote::new(alloc, Vec::new(alloc), Vec::new(alloc))
}

/// The remote of a case.
pub(crate) fn remote_of(alloc: Global, case: &Case) -> Result<ScriptRemote, AllocError> {
    let mut answers: Vec<Bytes> = Vec::new(alloc);
    for answer in &case.remote {
        answers.push(Bytes::new(alloc, answer.as_slice())?)?;
    }
    Ok(ScriptRemote::new(alloc, answers, Vec::new(alloc)))
}

/// The one desk of a run.
pub(crate) fn desks_of(
    alloc: Global,
    port: MemPort,
    blobs: CaseBlobs,
    remote: ScriptRemote,
) -> Result<Vec<MemDesk>, AllocError>
    ensures { IfOk result (λ desks. 0 < vec_len desks) }
{
    Ok(vec![in alloc;
        Desk {
            port,
            blobs,
            remote
        },
    ]?)
}

/// What was written on the connection that was given back to a port.
pub(crate) fn written_on(port: &MemPort) -> &[u8] {
    match port.given_back().first() {
        Some(link) => link.sink.bytes(),
        None => &[],
    }
}

/// What a desk came to with its one connection.
pub(crate) fn went_of(
    alloc: Global,
    desk: &MemDesk,
    line: Vec<u8>,
    status: u8,
) -> Result<Went, AllocError> {
    Ok(Went {
        answers: Vec::from_slice(alloc, written_on(&desk.port))?,
        line,
        status,
        blob_faults: desk.blobs.faults(),
        exchanges: desk.remote.made().len() as u64,
        blobs: None,
    })
}

/// A word and a number after it.
fn push_number(
    alloc: Global,
    words: &mut Vec<String>,
    word: &str,
    number: u64,
) -> Result<(), AllocError> {
    words.push(String::from_str(alloc, word)?)?;
    words.push(format!(in alloc; "{number}")?)?;
    Ok(())
}

/// The words of a replay at the moment and by the step of a case.
pub(crate) fn replay_of(alloc: Global, case: &Case) -> Result<Vec<String>, AllocError> {
    let mut words: Vec<String> = Vec::new(alloc);
    words.push(String::from_str(alloc, "replay")?)?;
    words.push(String::from_str(alloc, "settings.toml")?)?;
    push_number(alloc, &mut words, "--at", case.moment)?;
    if case.step > 0 {
        push_number(alloc, &mut words, "--step", case.step)?;
    }
    Ok(words)
}

/// The words of a case.
pub(crate) fn words_of(alloc: Global, case: &Case) -> Result<Vec<String>, AllocError> {
    if case.words.is_empty() {
        return replay_of(alloc, case);
    }
    let mut words: Vec<String> = Vec::new(alloc);
    for word in &case.words {
        words.push(word.clone()?)?;
    }
    Ok(words)
}

/// A cleaner with these blobs, which waits for nothing.
pub(crate) fn cleaner_of(alloc: Global, blobs: CaseBlobs) -> Result<MemCleaner, AllocError> {
    let pace: ScriptPace = ScriptPace::new(alloc, Vec::new(alloc))?;
    Ok(Cleaner { blobs, pace })
}

/// The clock of a case.
pub(crate) fn clock_of(alloc: Global, case: &Case) -> ScriptClock {
    ScriptClock::stepping(alloc, case.moment, case.step)
}

/// What outlasts a run: blobs and records.
#[derive(Drop)]
pub(crate) struct Store {
    pub(crate) blobs: CaseBlobs,
    pub(crate) records: MemRecords,
}

/// Stores a blob. Where that fails it is not there, as the script of a case may want it.
fn put(blobs: &mut CaseBlobs, stored: &Stored) {
    let _ = store_whole(blobs, stored.blob, stored.bytes.as_slice());
}

/// Removes a blob.
fn remove(blobs: &mut CaseBlobs, blob: u64) {
    let _ = blobs.remove(blob);
}

/// These blobs, in a store of which this call fails, if there is one.
pub(crate) fn blobs_of(
    alloc: Global,
    all: &[Stored],
    failing: Option<u64>,
) -> Result<CaseBlobs, AllocError> {
    let mut blobs: CaseBlobs = CaseBlobs::new(alloc, numbers_of(alloc, failing)?);
    for stored in all {
        put(&mut blobs, stored);
    }
    Ok(blobs)
}

/// What is there before all runs of a case.
pub(crate) fn store_of(alloc: Global, case: &Case, script: Script) -> Result<Store, AllocError> {
    let blobs: CaseBlobs = blobs_of(alloc, case.stored.as_slice(), script.call_of(Object::Blobs))?;
    let records: MemRecords = records_of(alloc, script.call_of(Object::Records))?;
    Ok(Store { blobs, records })
}

/// Records without a row, of which this call fails, if there is one.
pub(crate) fn records_of(alloc: Global, failing: Option<u64>) -> Result<MemRecords, AllocError> {
    Ok(MemRecords::new(alloc, numbers_of(alloc, failing)?))
}

/// The first blob gives what a case says, if it says something.
pub(crate) fn give(alloc: Global, blobs: &mut CaseBlobs, case: &Case) -> Result<(), AllocError> {
    if case.given.is_empty() {
        return Ok(());
    }
    blobs.give(alloc, case.given.as_slice())
}

/// Takes away what a case has lost.
pub(crate) fn lose(blobs: &mut CaseBlobs, case: &Case) {
    for blob in &case.lost {
        remove(blobs, *blob);
    }
}

/// The numbers of the blobs that are there. Nothing where they can not be listed.
pub(crate) fn listed(blobs: &mut CaseBlobs) -> Option<Vec<u64>> {
    blobs.list().ok()
}
