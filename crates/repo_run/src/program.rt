//! A run of the program: its words, and what is done by them.
ghost use Rattle.std.specs.Prelude.{◌≡◌, ◌<◌, map, vec_len};
ghost use Rattle.std.specs.String.{string_bytes};
ghost use Rattle.run_desks.specs.Seen.{looks};
ghost use Rattle.repo_run.specs.Running.{Acts, Runs};
ghost use Rattle.repo_run.specs.Status.{MatchAction};
ghost use Rattle.repo_run.specs.Surroundings.{view};
ghost use Rattle.repo_run.specs.Words.{asked};

use crate::actions::Action;
use crate::cleans::clean;
use crate::demo::demo;
use crate::ran::{Ended, Ran};
use crate::replays::replay;
use crate::words::wanted;
use outside::{Blobs, Clock, Held, Port, Sink, Source, Tells};
use outside_pace::Pace;
use outside_remote::Remote;
use row_tables::Records;
use run_desks::{Cleaner, Desk};
use run_lines::{NO_MEMORY, REFUSED, fault};
use std::alloc::Global;
use store_check::check;

/// Does what a command asks for, with one desk and the cleaner.
fn act<B: Blobs, S: Source, P: Port, R: Remote, Q: Pace, K: Records, C: Clock, O: Sink>(
    alloc: Global,
    command: Action,
    settings: &mut S,
    desk: &mut Desk<P, B, R>,
    cleaner: &mut Cleaner<B, Q>,
    records: K,
    clock: C,
    out: &mut O,
) -> Ended<K, C>
    ensures status { MatchAction command result.status }
    ensures run { Acts (looks ⟦<P as Port>⟧ ⟦<P::Link as Tells>⟧ ⟦<B as Blobs>⟧ ⟦<B::Held as Held>⟧ ⟦<R as Remote>⟧) command
        (view ⟦<S as Tells>⟧ ⟦<B as Blobs>⟧ ⟦<Q as Pace>⟧ ⟦<K as Records>⟧ ⟦<C as Clock>⟧ ⟦<O as Tells>⟧ settings.old desk.old cleaner.old records clock out.old)
        (view ⟦<S as Tells>⟧ ⟦<B as Blobs>⟧ ⟦<Q as Pace>⟧ ⟦<K as Records>⟧ ⟦<C as Clock>⟧ ⟦<O as Tells>⟧ settings.new desk.new cleaner.new result.records result.clock out.new)
        result.status }
    ensures pace { cleaner.new.pace ≡ cleaner.old.pace }
{
    match command {
        Action::Replay => replay(alloc, settings, desk, records, clock, out),
        Action::Check => {
            let mut records = records;
            let status = check(alloc, settings, &mut records, &mut desk.blobs, out);
            Ended {
                status,
                records,
                clock,
            }
        }
        Action::Clean => clean(alloc, settings, &mut cleaner.blobs, records, clock, out),
        Action::Demo { from, calls } => demo(alloc, from, calls, desk, records, clock, out),
        Action::Serve | Action::Nothing => {
            let status = fault(out, b"mvnrepod: words\n", REFUSED);
            Ended {
                status,
                records,
                clock,
            }
        }
    }
}

/// Does what the words ask for, but for those of a server, which are refused: this call never waits. There is at least one desk, and
/// all come back: the others as they were, and the cleaner's timer, which is not asked.
///
/// `replay` reads the settings, opens a repository of them over what is recorded and stored, takes the first connection from
/// the first desk's port, serves it, at most 1,000 requests, and gives it back. `clean` opens a repository over the cleaner's
/// blobs and makes one pass over it. `check` looks at each recorded file in the first desk's blobs, once the settings were
/// read. `demo` opens a repository over the first desk's blobs, under settings of its own, answers requests that are made of numbers,
/// each over a connection in memory, and asks how many files there are. Other words are refused. `out` takes one line, of a
/// cleaning two, of a demonstration seven, of a check one more for each damaged file, or a front of these where `out` fails.
///
/// | status | where | line |
/// |---|---|---|
/// | 0 | the connection ended, or there was none, and nothing below applies | `calls N end END` |
/// | 0 | a check, all files being as they were recorded | `checked N` |
/// | 0 | a cleaning that was made to its end | `unlisted N`, `removed N` |
/// | 0 | all requests of a demonstration were answered | `requests N`, `ok N`, `created N`, `missing N`, `calls N`, `files N`, `fading N` |
/// | 2 | the words are refused | `mvnrepod: words` |
/// | 3 | the settings are refused | `mvnrepod: settings NAME KEY` |
/// | 4 | the records or the blobs failed, before the port was asked or in a check or a cleaning | `mvnrepod: store` |
/// | 4 | the records are another's, or do not read from a place on | `mvnrepod: not-ours`, `mvnrepod: row FRAME AT` |
/// | 5 | a recorded file's blob is not what was recorded, and the words ask for no check | `mvnrepod: damaged ..` |
/// | 6 | the source of the settings failed, the port, or the connection's source | `mvnrepod: input` |
/// | 7 | the connection's sink failed, or `out` while the lines of status 0 or 9 were printed | none, or a front of these lines |
/// | 8 | memory ran out | `mvnrepod: memory` |
/// | 9 | a check has named a file | `damaged ..` for each, then `checked N` |
///
/// Each failure is one that its object counted. N is a number of calls of the repository, of files or of blobs; END is
/// `Closed`, `TornRequest` or `TurnLimit`; NAME is the refusal of the settings and KEY the key or the id that it names, if any.
pub fn run_once<B: Blobs, S: Source, P: Port, R: Remote, Q: Pace, K: Records, C: Clock, O: Sink>(
    alloc: Global,
    words: &[String],
    settings: &mut S,
    desks: Vec<Desk<P, B, R>>,
    cleaner: Cleaner<B, Q>,
    records: K,
    clock: C,
    out: &mut O,
) -> Ran<P, B, R, Q, K, C>
    requires { 0 < vec_len desks }
    ensures status { MatchAction (asked (map string_bytes words.now)).command result.status }
    ensures run { Runs (looks ⟦<P as Port>⟧ ⟦<P::Link as Tells>⟧ ⟦<B as Blobs>⟧ ⟦<B::Held as Held>⟧ ⟦<R as Remote>⟧) (asked (map string_bytes words.now)).command
        (view ⟦<S as Tells>⟧ ⟦<B as Blobs>⟧ ⟦<Q as Pace>⟧ ⟦<K as Records>⟧ ⟦<C as Clock>⟧ ⟦<O as Tells>⟧ settings.old desks.items cleaner records clock out.old)
        (view ⟦<S as Tells>⟧ ⟦<B as Blobs>⟧ ⟦<Q as Pace>⟧ ⟦<K as Records>⟧ ⟦<C as Clock>⟧ ⟦<O as Tells>⟧ settings.new result.desks.items result.cleaner result.records result.clock out.new)
        result.status }
    ensures pace { result.cleaner.pace ≡ cleaner.pace }
{
    let mut desks = desks;
    let mut cleaner = cleaner;
    match wanted(alloc, words) {
        Ok(wanted) => {
            let Ended {
                status,
                records,
                clock,
            } = act(
                alloc,
                wanted.command,
                settings,
                &mut desks[0],
                &mut cleaner,
                records,
                clock,
                out,
            );
            Ran {
                status,
                desks,
                cleaner,
                records,
                clock,
            }
        }
        Err(_) => {
            let status = fault(out, b"mvnrepod: memory\n", NO_MEMORY);
            Ran {
                status,
                desks,
                cleaner,
                records,
                clock,
            }
        }
    }
}
