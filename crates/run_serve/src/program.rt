//! A run of the program: its words, and what is done by them.
ghost use Rattle.std.specs.Prelude.{◌≡◌, ◌<◌, map, vec_len};
ghost use Rattle.std.specs.String.{string_bytes};
ghost use Rattle.seat_server.specs.Rules.{rules};
ghost use Rattle.repo_run.specs.Surroundings.{view};
ghost use Rattle.repo_run.specs.Words.{asked};
ghost use Rattle.run_desks.specs.Seen.{looks};
ghost use Rattle.run_serve.specs.Running.{ByWords, MatchRun, RunsBy};

use crate::serving::serve;
use outside::{Blobs, Clock, Held, Port, Sink, Source, Tells};
use outside_pace::Pace;
use outside_remote::Remote;
use repo_core::Core;
use repo_run::{Action, Ran, run_once, wanted};
use row_tables::Records;
use run_desks::{Cleaner, Desk};
use run_lines::{NO_MEMORY, fault};
use std::alloc::Global;
use std::sync::Wait;
use std::thread::Threads;
use turn_lock::Thing;
use turn_seats::Repository;

/// Does what the words ask for: the words of a server as `serve` does, and all others as `run_once`, by the same words. There is at
/// least one desk, and all come back; where the words are no server's, the cleaner's timer is not asked. The statuses and the
/// lines are those of the one or of the other; 8 comes with `mvnrepod: memory` when memory ran out for reading the words.
pub fn run<
    P: Port + Drop + Send,
    B: Blobs + Drop + Send,
    R: Remote + Drop + Send,
    Q: Pace + Drop + Send,
    K: Records + Send,
    C: Clock + Send,
    S: Source,
    O: Sink,
    W: Threads + Wait + Sync,
>(
    rt: &W,
    alloc: Global,
    words: &[String],
    settings: &mut S,
    desks: Vec<Desk<P, B, R>>,
    cleaner: Cleaner<B, Q>,
    records: K,
    clock: C,
    out: &mut O,
) -> Ran<P, B, R, Q, K, C>
where
    P::Link: Send,
    B::Held: Send,
    B::Pen: Send,
    requires desks { 0 < vec_len desks }
    ensures status { MatchRun (asked (map string_bytes words.now)).command result.status }
    ensures run { RunsBy (looks ⟦<P as Port>⟧ ⟦<P::Link as Tells>⟧ ⟦<B as Blobs>⟧ ⟦<B::Held as Held>⟧ ⟦<R as Remote>⟧)
        (rules ⟦<Core<K, C, B::Held> as Thing>⟧ ⟦<Core<K, C, B::Held> as Repository>⟧.sight) (asked (map string_bytes words.now)).command
        (view ⟦<S as Tells>⟧ ⟦<B as Blobs>⟧ ⟦<Q as Pace>⟧ ⟦<K as Records>⟧ ⟦<C as Clock>⟧ ⟦<O as Tells>⟧ settings.old desks.items cleaner records clock out.old)
        (view ⟦<S as Tells>⟧ ⟦<B as Blobs>⟧ ⟦<Q as Pace>⟧ ⟦<K as Records>⟧ ⟦<C as Clock>⟧ ⟦<O as Tells>⟧ settings.new result.desks.items result.cleaner result.records result.clock out.new)
        result.status }
    ensures pace { ByWords (asked (map string_bytes words.now)).command (Unit {0}) (result.cleaner.pace ≡ cleaner.pace) }
{
    match wanted(alloc, words) {
        Ok(wanted) => match wanted.command {
            Action::Serve => serve(rt, alloc, settings, desks, cleaner, records, clock, out),
            Action::Replay
            | Action::Check
            | Action::Clean
            | Action::Demo { .. }
            | Action::Nothing => run_once(
                alloc, words, settings, desks, cleaner, records, clock, out,
            ),
        },
        Err(_) => {
            let status = fault(out, b"mvnrepod: memory\n", NO_MEMORY);
            Ran {
                status,
                desks,
                cleaner,
                records,
                clock,
            }
        }
    }
}
