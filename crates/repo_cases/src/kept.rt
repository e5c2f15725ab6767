// Connections one after another over one core. The functions over any records, clock and blobs say nothing of what they give, so
// that those that call them at the forms in memory carry no facts.
use crate::objects::{
    CaseCore, MemDesk, MemPort, Store, clock_of, give, listed, port_of, remote_of, store_of,
    went_of,
};
use case_texts::{Case, Link, Went};
use outside::{Blobs, Clock, Port};
use outside_memory::ScriptClock;
use outside_remote::{Remote, ScriptRemote};
use repo_config::{Settings, read};
use repo_core::Core;
use repo_course::End;
use repo_run::{begin, serve_first};
use row_tables::Records;
use run_desks::Desk;
use std::alloc::{AllocError, Global};

/// The settings of a case. Nothing where they can not be read.
fn settings_of(alloc: Global, case: &Case) -> Option<Settings> {
    read(alloc, case.settings.as_slice()).ok()
}

/// A core of these settings over what is recorded and stored. Nothing where it does not start.
fn begun<K: Records + Drop, B: Blobs, C: Clock + Drop>(
    alloc: Global,
    settings: &Settings,
    records: K,
    blobs: &mut B,
    clock: C,
) -> Option<Core<K, C, B::Held>> {
    begin(alloc, settings, records, blobs, clock).ok()
}

/// Serves the first connection of a desk by the settings of the core. How it ended, if the port gave it.
fn serve<P: Port, B: Blobs, R: Remote, K: Records, C: Clock>(
    alloc: Global,
    desk: &mut Desk<P, B, R>,
    core: &mut Core<K, C, B::Held>,
) -> Result<Option<End>, AllocError> {
    let settings: Settings = core.settings().copied(alloc)?;
    Ok(serve_first(alloc, &settings, desk, core))
}

/// How a connection ended, as its line says it.
fn end_word(end: Option<End>) -> &'static str {
    match end {
        Some(End::Closed) => "Closed",
        Some(End::TornRequest) => "TornRequest",
        Some(End::TurnLimit) => "TurnLimit",
        Some(End::SourceFault) => "SourceFault",
        Some(End::SinkFault) => "SinkFault",
        None => "none",
    }
}

/// The line of a connection: the calls of the core so far, and how it ended.
fn line_of(alloc: Global, calls: u64, end: Option<End>) -> Result<Vec<u8>, AllocError> {
    let end: &str = end_word(end);
    Ok(format!(in alloc; "calls {calls} end {end}\n")?.into_bytes())
}

/// A core that runs, and its one desk.
#[derive(Drop)]
pub(crate) struct Kept {
    core: CaseCore,
    desk: MemDesk,
}

impl Kept {
    /// A core over what is there before all runs of a case. Nothing where it does not start.
    pub(crate) fn new(alloc: Global, case: &Case) -> Result<Option<Kept>, AllocError> {
        let Store { mut blobs, records } = store_of(alloc, case, case.script)?;
        let Some(settings) = settings_of(alloc, case) else {
            return Ok(None);
        };
        let clock: ScriptClock = clock_of(alloc, case);
        let Some(core) = begun(alloc, &settings, records, &mut blobs, clock) else {
            return Ok(None);
        };
        give(alloc, &mut blobs, case)?;
        // Each connection brings its own port.
        let port: MemPort = port_of(alloc, b"", case.script, 1)?;
        let remote: ScriptRemote = remote_of(alloc, case)?;
        let desk = Desk {
            port,
            blobs,
            remote,
        };
        Ok(Some(Kept { core, desk }))
    }

    /// The numbers of the blobs that are there in the end. Nothing where they can not be listed.
    pub(crate) fn list(&mut self) -> Option<Vec<u64>> {
        listed(&mut self.desk.blobs)
    }

    /// Serves a connection of a case, its input in pieces of so many bytes.
    pub(crate) fn go(
        &mut self,
        alloc: Global,
        case: &Case,
        link: &Link,
        most: usize,
    ) -> Result<Went, AllocError> {
        self.desk.port = port_of(alloc, link.input.as_slice(), case.script, most)?;
        let end: Option<End> = serve(alloc, &mut self.desk, &mut self.core)?;
        let line: Vec<u8> = line_of(alloc, self.core.calls(), end)?;
        went_of(alloc, &self.desk, line, 0)
    }
}
