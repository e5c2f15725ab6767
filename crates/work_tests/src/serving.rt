// A server over objects in memory. No function here says what it gives, so that who calls several of them carries no facts.
ghost use Rattle.std.specs.Prelude.{◌<◌, vec_len};

use crate::cases::Case;
use outside::{Blobs, Clock, Duplex, Port, Sink, Source};
use outside_meeting::HeldBlobs;
use outside_memory::{FaultScript, MemBlobs, MemLink, MemSink, MemSource, ScriptClock, ScriptPort};
use outside_pace::{Pace, ScriptPace};
use outside_remote::{Remote, ScriptRemote};
use repo_run::Ran;
use row_tables::{MemRecords, Records};
use run_desks::{Cleaner, Desk};
use run_serve::run;
use std::alloc::{AllocError, Global};
use std::process::Abort;
use std::sync::Wait;
use std::test::Fail;
use std::thread::Threads;

type MemPort = ScriptPort<MemLink>;

type HeldDesk = Desk<MemPort, HeldBlobs, ScriptRemote>;

type HeldCleaner = Cleaner<HeldBlobs, ScriptPace>;

type HeldRan = Ran<MemPort, HeldBlobs, ScriptRemote, ScriptPace, MemRecords, ScriptClock>;

// A run of which nothing is known: what it came to is compared.
fn run_plainly<
    P: Port + Drop + Send,
    B: Blobs + Drop + Send,
    R: Remote + Drop + Send,
    Q: Pace + Drop + Send,
    K: Records + Send,
    C: Clock + Send,
    S: Source,
    O: Sink,
    W: Threads + Wait + Sync,
>(
    rt: &W,
    alloc: Global,
    words: &[String],
    settings: &mut S,
    desks: Vec<Desk<P, B, R>>,
    cleaner: Cleaner<B, Q>,
    records: K,
    clock: C,
    out: &mut O,
) -> Ran<P, B, R, Q, K, C>
where
    P::Link: Send,
    B::Held: Send,
    B::Pen: Send,
    requires { 0 < vec_len desks }
{
    run(
        rt, alloc, words, settings, desks, cleaner, records, clock, out,
    )
}

/// The first twin over a store without blobs; so many others are to meet.
pub fn first_twin(alloc: Global, members: u64) -> Result<HeldBlobs, AllocError> {
    let store = MemBlobs::new(alloc, FaultScript::none(alloc));
    HeldBlobs::new(alloc, store, members)
}

// A source that gives a text, so many bytes a read.
fn source_of(alloc: Global, text: &str, most: usize) -> Result<MemSource, AllocError> {
    let bytes = Vec::from_slice(alloc, text.as_bytes())?;
    Ok(MemSource::new(bytes, most.max(1), FaultScript::none(alloc)))
}

fn sink_of(alloc: Global, room: usize) -> Result<MemSink, AllocError> {
    Ok(MemSink::new(alloc, room, FaultScript::none(alloc))?)
}

// A connection that gives this input, seven bytes at a time.
fn link_of(alloc: Global, input: &str) -> Result<MemLink, AllocError> {
    let source = source_of(alloc, input, 7)?;
    let sink = sink_of(alloc, 10_000)?;
    Ok(Duplex { source, sink })
}

fn links_of(alloc: Global, inputs: &[&str]) -> Result<Vec<MemLink>, AllocError> {
    let mut links = Vec::new(alloc);
    for input in inputs {
        links.push(link_of(alloc, input)?)?;
    }
    Ok(links)
}

fn port_of(alloc: Global, inputs: &[&str], failing: &[u64]) -> Result<MemPort, AllocError> {
    let faults = FaultScript::failing_at(Vec::from_slice(alloc, failing)?);
    let links = links_of(alloc, inputs)?;
    Ok(ScriptPort::new(alloc, links, faults)?)
}

fn desk_of(
    alloc: Global,
    twin: &HeldBlobs,
    inputs: &[&str],
    failing: &[u64],
) -> Result<HeldDesk, AllocError> {
    let port = port_of(alloc, inputs, failing)?;
    let blobs = twin.member()?;
    let remote = ScriptRemote::new(alloc, Vec::new(alloc), Vec::new(alloc));
    Ok(Desk {
        port,
        blobs,
        remote,
    })
}

// The desks of a case, whose blobs are twins of this one.
fn desks_of(alloc: Global, twin: &HeldBlobs, case: &Case) -> Result<Vec<HeldDesk>, AllocError> {
    let mut desks = Vec::new(alloc);
    for inputs in case.desks {
        desks.push(desk_of(alloc, twin, inputs, case.failing)?)?;
    }
    Ok(desks)
}

// A timer that gives these answers, for a cleaner with these blobs.
fn cleaner_of(
    alloc: Global,
    blobs: HeldBlobs,
    answers: &[bool],
) -> Result<HeldCleaner, AllocError> {
    let pace = ScriptPace::new(alloc, Vec::from_slice(alloc, answers)?)?;
    Ok(Cleaner { blobs, pace })
}

// The words of a server.
fn words_of(alloc: Global) -> Result<Vec<String>, AllocError> {
    let mut words = Vec::new(alloc);
    for word in ["serve", "settings.toml", "data", "8080"] {
        words.push(String::from_str(alloc, word)?)?;
    }
    Ok(words)
}

// Where a server reads its settings, and where it prints its line.
#[derive(Drop)]
struct Ends {
    settings: MemSource,
    out: MemSink,
}

fn ends_of(alloc: Global, case: &Case) -> Result<Ends, AllocError> {
    let settings = source_of(alloc, case.settings, 1_000_000)?;
    let out = sink_of(alloc, 1000)?;
    Ok(Ends { settings, out })
}

// Whether so many connections came back, each of which took this output.
fn are_given(links: &[MemLink], count: usize, output: &str) -> bool {
    for link in links {
        if link.sink.bytes() != output.as_bytes() {
            return false;
        }
    }
    links.len() == count
}

// What the others of a case say of a desk.
fn is_left(desk: &HeldDesk, count: usize, case: &Case) -> bool {
    desk.blobs.faults() == case.faults && are_given(desk.port.given_back(), count, case.output)
}

fn are_left(desks: &[HeldDesk], case: &Case) -> bool {
    for (desk, count) in desks.iter().zip(case.given) {
        if !is_left(desk, *count, case) {
            return false;
        }
    }
    desks.len() == case.given.len()
}

fn has_ended(status: u8, out: &MemSink, case: &Case) -> bool {
    status == case.status && out.bytes() == case.line.as_bytes()
}

// What is not as the case says, of a server that has ended and of the sink that took its line.
fn other_in(ran: &HeldRan, out: &MemSink, case: &Case) -> Option<&'static str> {
    if !has_ended(ran.status, out, case) {
        return Some("the end");
    }
    if !are_left(ran.desks.as_slice(), case) {
        return Some("the desks");
    }
    if ran.cleaner.pace.kept() != case.pauses {
        return Some("the pauses");
    }
    None
}

// Runs the program as a server over no records.
fn other_of<R: Threads + Wait + Sync>(
    rt: &R,
    alloc: Global,
    words: &[String],
    desks: Vec<HeldDesk>,
    cleaner: HeldCleaner,
    ends: Ends,
    case: &Case,
) -> Option<&'static str>
    requires { 0 < vec_len desks }
{
    let Ends { settings, out } = ends;
    let mut settings = settings;
    let mut out = out;
    let records = MemRecords::new(alloc, Vec::new(alloc));
    let clock = ScriptClock::stepping(alloc, 1_709_208_000, 1);
    let ran = run_plainly(
        rt,
        alloc,
        words,
        &mut settings,
        desks,
        cleaner,
        records,
        clock,
        &mut out,
    );
    other_in(&ran, &out, case)
}

// Runs the server of a case, and says what is not as the case says.
fn first_other<R: Threads + Wait + Sync>(
    rt: &R,
    alloc: Global,
    case: &Case,
) -> Result<Option<&'static str>, AllocError> {
    let twin = first_twin(alloc, case.members)?;
    let desks = desks_of(alloc, &twin, case)?;
    let cleaner = cleaner_of(alloc, twin, case.passes)?;
    let ends = ends_of(alloc, case)?;
    let words = words_of(alloc)?;
    if desks.is_empty() {
        return Ok(Some("no desk"));
    }
    Ok(other_of(rt, alloc, words.as_slice(), desks, cleaner, ends, case))
}

/// A server comes to what its case says.
pub fn serve<R: Abort + Threads + Wait + Sync>(
    rt: &R,
    alloc: Global,
    case: &Case,
) -> Result<(), Fail> {
    assert_eq!(rt; first_other(rt, alloc, case)?, None);
    Ok(())
}
