//! The command `demo`: requests that are made of numbers are answered by a repository, each over a connection in memory.
ghost use Rattle.std.specs.Prelude.{◌≡◌, codes, IfErr, IfOk};
ghost use Rattle.demo_requests.specs.Requests.{request as request_text};
ghost use Rattle.outside_remote.specs.Exchanges.{Sees};
ghost use Rattle.repo_course.specs.Serving.{AllTell};
ghost use Rattle.run_desks.specs.Seen.{looks, store_seen};
ghost use Rattle.run_lines.specs.Reading.{File};
ghost use Rattle.repo_run.specs.Demo.{Demonstrates, giving};
ghost use Rattle.repo_run.specs.DemoSteps.{Answers, AsksFiles, ShowsAll, Steps, TellsAll, TellsShown, resources};
ghost use Rattle.repo_run.specs.Surroundings.{connection as connection_seen, desk_state, output_seen, view_of};

use crate::begun::{begin, refuse_start};
use crate::ran::Ended;
use crate::tally::{Files, Tally, counted, is_starved, tell_summary};
use demo_requests::{next_number, request, settings};
use outside::{Blobs, Clock, Duplex, Held, NoMemory, Port, Sink, Tells};
use outside_memory::{FaultScript, MemLink, MemSink, MemSource};
use outside_remote::Remote;
use repo_config::Settings;
use repo_core::{Core, StartFault};
use repo_course::End;
use repo_model::{Ask, Command, Finding, Question, Reply};
use repo_server::serve_stream;
use row_tables::Records;
use run_desks::Desk;
use run_lines::{NO_MEMORY, fault};
use std::alloc::{AllocError, Global};

/// How many bytes of an answer there is room for, and how many of a request are read at a time.
const ROOM: usize = 65_536;

/// A connection that gives a request.
fn connection(alloc: Global, request: Vec<u8>) -> Result<MemLink, NoMemory>
    ensures { IfOk result (λ link. connection_seen ⟦<MemLink as Tells>⟧ link ≡ giving request.items) }
{
    let sink = MemSink::new(alloc, ROOM, FaultScript::none(alloc))?;
    Ok(Duplex {
        source: MemSource::new(request, ROOM, FaultScript::none(alloc)),
        sink,
    })
}

/// Serves a request over a connection of its own, and gives what has taken the answer, and how the stream ended.
fn answer_to<B: Blobs, R: Remote, K: Records, C: Clock>(
    alloc: Global,
    settings: &Settings,
    core: &mut Core<K, C, B::Held>,
    blobs: &mut B,
    remote: &mut R,
    request: Vec<u8>,
) -> Result<(MemSink, End), NoMemory>
    requires { core.old.settings ≡ settings.now }
    ensures ok { IfOk result (λ took. Answers settings.now (AllTell B.Held.bytes) request.items core.old core.new
        (resources (store_seen ⟦<B as Blobs>⟧ blobs.old) (R.sees remote.old)) (resources (store_seen ⟦<B as Blobs>⟧ blobs.new) (R.sees remote.new)) (record { bytes = took.0.taken; ending = took.1 })) }
    ensures err { IfErr result (λ fault. (core.new ≡ core.old)
        × (resources (store_seen ⟦<B as Blobs>⟧ blobs.new) (R.sees remote.new) ≡ resources (store_seen ⟦<B as Blobs>⟧ blobs.old) (R.sees remote.old))) }
    ensures settings { core.new.settings ≡ core.old.settings }
{
    let mut link = connection(alloc, request)?;
    let ending = serve_stream(alloc, settings, core, blobs, remote, &mut link);
    Ok((link.sink, ending))
}

/// Answers the request of a number at a place. An answer for which its connection has no room is one for which memory runs out.
fn answer_next<B: Blobs, R: Remote, K: Records, C: Clock>(
    alloc: Global,
    settings: &Settings,
    core: &mut Core<K, C, B::Held>,
    blobs: &mut B,
    remote: &mut R,
    number: u64,
    place: u32,
) -> Result<MemSink, NoMemory>
    requires { core.old.settings ≡ settings.now }
    ensures steps { Steps settings.now (AllTell B.Held.bytes) (request_text number place) core.old core.new
        (resources (store_seen ⟦<B as Blobs>⟧ blobs.old) (R.sees remote.old)) (resources (store_seen ⟦<B as Blobs>⟧ blobs.new) (R.sees remote.new)) result }
    ensures settings { core.new.settings ≡ core.old.settings }
{
    let text = request(alloc, number, place)?;
    let (answer, ending) = answer_to(alloc, settings, core, blobs, remote, text)?;
    let End::Closed = ending else {
        return Err(AllocError);
    };
    if is_starved(answer.bytes()) {
        return Err(AllocError);
    }
    Ok(answer)
}

/// Answers so many requests, and counts how.
fn answer_all<B: Blobs, R: Remote, K: Records, C: Clock>(
    alloc: Global,
    settings: &Settings,
    core: &mut Core<K, C, B::Held>,
    blobs: &mut B,
    remote: &mut R,
    from: u16,
    requests: u32,
) -> Result<Tally, NoMemory>
    requires { core.old.settings ≡ settings.now }
    ensures { ShowsAll settings.now (AllTell B.Held.bytes) from requests core.old core.new
        (resources (store_seen ⟦<B as Blobs>⟧ blobs.old) (R.sees remote.old)) (resources (store_seen ⟦<B as Blobs>⟧ blobs.new) (R.sees remote.new)) result }
{
    let mut tally = Tally {
        ok: 0,
        created: 0,
        missing: 0,
    };
    let mut number = u64::from(from);
    for answered in 0..requests {
        number = next_number(number);
        let answer = answer_next(alloc, settings, core, blobs, remote, number, answered + 1)?;
        tally = counted(tally, answer.bytes());
    }
    Ok(tally)
}

/// Asks how many files there are, and how many of them fade. `None` when memory ran out.
fn ask_files<K: Records, C: Clock, H: Held>(core: &mut Core<K, C, H>) -> Option<Files>
    ensures { AsksFiles core.old core.new result }
{
    match core.ask(Command::Ask(Question::Status)) {
        Reply::Found(Finding::Counts { files, fading, .. }) => Some(Files { files, fading }),
        _ => None,
    }
}

/// Asks for the files, and prints the lines.
fn tell_all<K: Records, C: Clock, H: Held, O: Sink>(
    alloc: Global,
    out: &mut O,
    core: &mut Core<K, C, H>,
    requests: u32,
    tally: Tally,
) -> u8
    ensures { TellsAll requests tally core.old core.new (output_seen ⟦<O as Tells>⟧ out.old) (output_seen ⟦<O as Tells>⟧ out.new) result }
{
    match ask_files(core) {
        Some(found) => tell_summary(
            alloc,
            out,
            u64::from(requests),
            tally,
            core.calls(),
            found.files,
            found.fading,
        ),
        None => fault(out, b"mvnrepod: memory\n", NO_MEMORY),
    }
}

/// Prints how the requests were answered, or that memory ran out.
fn tell_shown<K: Records, C: Clock, H: Held, O: Sink>(
    alloc: Global,
    out: &mut O,
    core: &mut Core<K, C, H>,
    requests: u32,
    shown: Result<Tally, NoMemory>,
) -> u8
    ensures { TellsShown requests shown core.old core.new (output_seen ⟦<O as Tells>⟧ out.old) (output_seen ⟦<O as Tells>⟧ out.new) result }
{
    match shown {
        Ok(tally) => tell_all(alloc, out, core, requests, tally),
        Err(_) => fault(out, b"mvnrepod: memory\n", NO_MEMORY),
    }
}

/// Opens a repository over the desk's blobs, answers so many requests, and prints how.
pub(crate) fn demo<P: Port, B: Blobs, R: Remote, K: Records, C: Clock, O: Sink>(
    alloc: Global,
    from: u16,
    requests: u32,
    desk: &mut Desk<P, B, R>,
    records: K,
    clock: C,
    out: &mut O,
) -> Ended<K, C>
    ensures { (source source' : File) → Demonstrates (AllTell B.Held.bytes) from requests
        (view_of ⟦<K as Records>⟧ ⟦<C as Clock>⟧ ⟦<O as Tells>⟧ source (desk_state (looks ⟦<P as Port>⟧ ⟦<P::Link as Tells>⟧ ⟦<B as Blobs>⟧ ⟦<B::Held as Held>⟧ ⟦<R as Remote>⟧) desk.old) records clock out.old)
        (view_of ⟦<K as Records>⟧ ⟦<C as Clock>⟧ ⟦<O as Tells>⟧ source' (desk_state (looks ⟦<P as Port>⟧ ⟦<P::Link as Tells>⟧ ⟦<B as Blobs>⟧ ⟦<B::Held as Held>⟧ ⟦<R as Remote>⟧) desk.new) result.records result.clock out.new)
        result.status }
{
    let settings = match settings(alloc) {
        Ok(settings) => settings,
        Err(_) => {
            let status = refuse_start(alloc, out, &StartFault::NoMemory);
            return Ended {
                status,
                records,
                clock,
            };
        }
    };
    let mut core = match begin(alloc, &settings, records, &mut desk.blobs, clock) {
        Ok(core) => core,
        Err((refusal, records, clock)) => {
            let status = refuse_start(alloc, out, &refusal);
            return Ended {
                status,
                records,
                clock,
            };
        }
    };
    let shown = answer_all(
        alloc,
        &settings,
        &mut core,
        &mut desk.blobs,
        &mut desk.remote,
        from,
        requests,
    );
    let status = tell_shown(alloc, out, &mut core, requests, shown);
    let (records, clock) = core.end();
    Ended {
        status,
        records,
        clock,
    }
}
