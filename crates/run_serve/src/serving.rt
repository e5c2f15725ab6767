//! A server, from its settings to its line.
ghost use Rattle.std.specs.Prelude.{◌≡◌, ◌<◌, vec_len};
ghost use Rattle.seat_server.specs.Rules.{rules};
ghost use Rattle.repo_run.specs.Surroundings.{output_seen, view, view_of};
ghost use Rattle.run_desks.specs.Seen.{run_resources, looks};
ghost use Rattle.run_lines.specs.Reading.{File};
ghost use Rattle.run_serve.specs.Serving.{Serves, ServesBy, ServesWith};

use crate::calls::tell_work;
use desk_work::{Worked, work};
use outside::{Blobs, Clock, Held, Port, Sink, Source, Tells};
use outside_pace::Pace;
use outside_remote::Remote;
use repo_config::Settings;
use repo_core::Core;
use repo_run::{Ran, begin, refuse_start};
use row_tables::Records;
use run_desks::{Cleaner, Desk};
use run_lines::{NO_MEMORY, fault, settings_of};
use std::alloc::Global;
use std::sync::Wait;
use std::thread::Threads;
use turn_lock::{Thing, Turns};
use turn_seats::Repository;

// Works with a repository that was opened, and prints how many calls there were.
fn serve_core<
    P: Port + Drop + Send,
    B: Blobs + Drop + Send,
    R: Remote + Drop + Send,
    Q: Pace + Drop + Send,
    K: Records + Send,
    C: Clock + Send,
    O: Sink,
    W: Threads + Wait + Sync,
>(
    rt: &W,
    alloc: Global,
    settings: Settings,
    core: Core<K, C, B::Held>,
    desks: Vec<Desk<P, B, R>>,
    cleaner: Cleaner<B, Q>,
    out: &mut O,
) -> Ran<P, B, R, Q, K, C>
where
    P::Link: Send,
    B::Held: Send,
    B::Pen: Send,
    requires settings { core.settings ≡ settings }
    ensures serves { (source : File) → ServesWith (looks ⟦<P as Port>⟧ ⟦<P::Link as Tells>⟧ ⟦<B as Blobs>⟧ ⟦<B::Held as Held>⟧ ⟦<R as Remote>⟧)
        (rules ⟦<Core<K, C, B::Held> as Thing>⟧ ⟦<Core<K, C, B::Held> as Repository>⟧.sight) settings core (run_resources ⟦<B as Blobs>⟧ ⟦<Q as Pace>⟧ desks.items cleaner) (output_seen ⟦<O as Tells>⟧ out.old)
        (view_of ⟦<K as Records>⟧ ⟦<C as Clock>⟧ ⟦<O as Tells>⟧ source (run_resources ⟦<B as Blobs>⟧ ⟦<Q as Pace>⟧ result.desks.items result.cleaner) result.records result.clock out.new)
        result.status }
{
    let (turns, seat) = match Turns::begin(alloc, core) {
        Ok(begun) => begun,
        Err((core, _)) => {
            let status = fault(out, b"mvnrepod: memory\n", NO_MEMORY);
            let (records, clock) = core.end();
            return Ran {
                status,
                desks,
                cleaner,
                records,
                clock,
            };
        }
    };
    let Worked {
        desks,
        cleaner,
        repository,
        calls,
        refused,
        failed,
    } = work(rt, alloc, settings, turns, seat, desks, cleaner);
    let status = tell_work(alloc, out, refused, failed, calls);
    let (records, clock) = repository.end();
    Ran {
        status,
        desks,
        cleaner,
        records,
        clock,
    }
}

// Opens the repository of these settings over what is recorded and over the first desk's blobs, and works with it.
fn serve_by<
    P: Port + Drop + Send,
    B: Blobs + Drop + Send,
    R: Remote + Drop + Send,
    Q: Pace + Drop + Send,
    K: Records + Send,
    C: Clock + Send,
    O: Sink,
    W: Threads + Wait + Sync,
>(
    rt: &W,
    alloc: Global,
    settings: Settings,
    desks: Vec<Desk<P, B, R>>,
    cleaner: Cleaner<B, Q>,
    records: K,
    clock: C,
    out: &mut O,
) -> Ran<P, B, R, Q, K, C>
where
    P::Link: Send,
    B::Held: Send,
    B::Pen: Send,
    requires desks { 0 < vec_len desks }
    ensures serves { (source source' : File) → ServesBy (looks ⟦<P as Port>⟧ ⟦<P::Link as Tells>⟧ ⟦<B as Blobs>⟧ ⟦<B::Held as Held>⟧ ⟦<R as Remote>⟧)
        (rules ⟦<Core<K, C, B::Held> as Thing>⟧ ⟦<Core<K, C, B::Held> as Repository>⟧.sight) settings
        (view_of ⟦<K as Records>⟧ ⟦<C as Clock>⟧ ⟦<O as Tells>⟧ source (run_resources ⟦<B as Blobs>⟧ ⟦<Q as Pace>⟧ desks.items cleaner) records clock out.old)
        (view_of ⟦<K as Records>⟧ ⟦<C as Clock>⟧ ⟦<O as Tells>⟧ source' (run_resources ⟦<B as Blobs>⟧ ⟦<Q as Pace>⟧ result.desks.items result.cleaner) result.records result.clock out.new)
        result.status }
{
    let mut desks = desks;
    match begin(alloc, &settings, records, &mut desks[0].blobs, clock) {
        Ok(core) => serve_core(rt, alloc, settings, core, desks, cleaner, out),
        Err((refusal, records, clock)) => {
            let status = refuse_start(alloc, out, &refusal);
            Ran {
                status,
                desks,
                cleaner,
                records,
                clock,
            }
        }
    }
}

/// Reads the settings, opens a repository of them over what is recorded and over the first desk's blobs, and serves by it:
/// each desk the connections of its port, one after another and all desks at once, until none is left; and beside them the
/// cleaner makes its passes, until its timer says that none is wanted. There is at least one desk, and all come back.
///
/// | status | where | line |
/// |---|---|---|
/// | 0 | no port handed out a connection any more, and nothing below applies | `calls N` |
/// | 3 | the settings are refused | `mvnrepod: settings NAME KEY` |
/// | 4 | the records or the blobs failed before any connection was served, or the records are another's or do not read from a place on | `mvnrepod: store`, `mvnrepod: not-ours`, `mvnrepod: row FRAME AT` |
/// | 5 | a recorded file's blob is not what was recorded | `mvnrepod: damaged ..` |
/// | 6 | the source of the settings failed, or a port | `mvnrepod: input` |
/// | 7 | `out` failed at the line of status 0 | a front of it |
/// | 8 | memory ran out before any connection was served, or for a line | `mvnrepod: memory` |
///
/// Each failure is one that its object counted. N is the number of calls of the repository: the length of the one history of all
/// desks and the cleaner, in which each call is answered as the one-thread repository would at that point.
pub fn serve<
    P: Port + Drop + Send,
    B: Blobs + Drop + Send,
    R: Remote + Drop + Send,
    Q: Pace + Drop + Send,
    K: Records + Send,
    C: Clock + Send,
    S: Source,
    O: Sink,
    W: Threads + Wait + Sync,
>(
    rt: &W,
    alloc: Global,
    settings: &mut S,
    desks: Vec<Desk<P, B, R>>,
    cleaner: Cleaner<B, Q>,
    records: K,
    clock: C,
    out: &mut O,
) -> Ran<P, B, R, Q, K, C>
where
    P::Link: Send,
    B::Held: Send,
    B::Pen: Send,
    requires desks { 0 < vec_len desks }
    ensures serves { Serves (looks ⟦<P as Port>⟧ ⟦<P::Link as Tells>⟧ ⟦<B as Blobs>⟧ ⟦<B::Held as Held>⟧ ⟦<R as Remote>⟧)
        (rules ⟦<Core<K, C, B::Held> as Thing>⟧ ⟦<Core<K, C, B::Held> as Repository>⟧.sight)
        (view ⟦<S as Tells>⟧ ⟦<B as Blobs>⟧ ⟦<Q as Pace>⟧ ⟦<K as Records>⟧ ⟦<C as Clock>⟧ ⟦<O as Tells>⟧ settings.old desks.items cleaner records clock out.old)
        (view ⟦<S as Tells>⟧ ⟦<B as Blobs>⟧ ⟦<Q as Pace>⟧ ⟦<K as Records>⟧ ⟦<C as Clock>⟧ ⟦<O as Tells>⟧ settings.new result.desks.items result.cleaner result.records result.clock out.new)
        result.status }
{
    match settings_of(alloc, settings, out) {
        Ok(settings) => serve_by(rt, alloc, settings, desks, cleaner, records, clock, out),
        Err(status) => Ran {
            status,
            desks,
            cleaner,
            records,
            clock,
        },
    }
}
