// Runs of the program by cases.
use crate::objects::{
    MemDesk, MemPort, Store, blobs_of, cleaner_of, clock_of, desks_of, listed, lose, port_of,
    remote_of, replay_of, silent, sink_of, source_of, store_of, went_of, words_of,
};
use crate::over::{Beside, Over, run_over};
use case_texts::{Case, Object, Script, Went};
use core_steps::CaseBlobs;
use outside_remote::ScriptRemote;
use row_tables::MemRecords;
use run_desks::Desk;
use std::alloc::{AllocError, Global};

/// What a run came to, and what it leaves behind.
#[derive(Drop)]
struct Left {
    went: Went,
    store: Store,
}

/// What a run came to, and what it leaves.
fn left_of(alloc: Global, over: Over, records: MemRecords) -> Result<Left, AllocError> {
    let line: Vec<u8> = Vec::from_slice(alloc, over.out.bytes())?;
    let went: Went = went_of(alloc, &over.desk, line, over.status)?;
    let Over {
        desk,
        cleaner: _,
        out: _,
        status: _,
    } = over;
    let Desk {
        port: _,
        blobs,
        remote: _,
    } = desk;
    let store = Store { blobs, records };
    Ok(Left { went, store })
}

/// The settings of a case, its clock, a sink for its line, and a cleaner that is never asked.
fn beside_of(alloc: Global, case: &Case, script: Script) -> Result<Beside, AllocError> {
    let none: CaseBlobs = blobs_of(alloc, &[], None)?;
    Ok(Beside {
        settings: source_of(
            alloc,
            case.settings.as_slice(),
            1_000_000,
            script.call_of(Object::Settings),
        )?,
        cleaner: cleaner_of(alloc, none)?,
        clock: clock_of(alloc, case),
        out: sink_of(alloc, script.line_room)?,
    })
}

/// Runs the program with these words over a store, on one desk with this port and this remote.
fn run_on(
    alloc: Global,
    words: &[String],
    store: Store,
    port: MemPort,
    remote: ScriptRemote,
    beside: Beside,
) -> Result<Option<Left>, AllocError> {
    let Store { blobs, records } = store;
    let desks: Vec<MemDesk> = desks_of(alloc, port, blobs, remote)?;
    match run_over(alloc, words, desks, beside, records) {
        Some((over, records)) => Ok(Some(left_of(alloc, over, records)?)),
        None => Ok(None),
    }
}

/// The greatest pieces of an earlier run.
const BLOCK: usize = 4096;

/// What the run before that of a case leaves. Nothing where that run did not end well.
fn store_after(alloc: Global, case: &Case, script: Script) -> Result<Option<Store>, AllocError> {
    let store: Store = store_of(alloc, case, script)?;
    if case.before.is_empty() {
        return Ok(Some(store));
    }
    let words: Vec<String> = replay_of(alloc, case)?;
    let plain: Script = Script::PLAIN;
    let port: MemPort = port_of(alloc, case.before.as_slice(), plain, BLOCK)?;
    let beside: Beside = beside_of(alloc, case, plain)?;
    match run_on(alloc, words.as_slice(), store, port, silent(alloc), beside)? {
        Some(left) if left.went.status == 0 => Ok(Some(left.store)),
        _ => Ok(None),
    }
}

/// What the program came to, run as a case says with this script, its input in pieces of so many bytes. Nothing where the run
/// before it did not end well.
pub(crate) fn run_of(
    alloc: Global,
    case: &Case,
    script: Script,
    most: usize,
) -> Result<Option<Went>, AllocError> {
    let Some(mut store) = store_after(alloc, case, script)? else {
        return Ok(None);
    };
    lose(&mut store.blobs, case);
    let words: Vec<String> = words_of(alloc, case)?;
    let port: MemPort = port_of(alloc, case.last.input.as_slice(), script, most)?;
    let remote: ScriptRemote = remote_of(alloc, case)?;
    let beside: Beside = beside_of(alloc, case, script)?;
    let Some(left) = run_on(alloc, words.as_slice(), store, port, remote, beside)? else {
        return Ok(None);
    };
    let Left {
        mut went,
        mut store,
    } = left;
    went.blobs = listed(&mut store.blobs);
    Ok(Some(went))
}
