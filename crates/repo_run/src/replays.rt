//! The command `replay`: the settings are read, and the first connection of a desk is served.
ghost use Rattle.std.specs.Prelude.{◌≡◌};
ghost use Rattle.repo_course.specs.Serving.{AllTell};
ghost use Rattle.run_desks.specs.Seen.{looks};
ghost use Rattle.run_lines.specs.Reading.{File};
ghost use Rattle.repo_run.specs.FirstConnection.{ServesFirst};
ghost use Rattle.repo_run.specs.Replay.{Replays, ReplaysBy};
ghost use Rattle.repo_run.specs.Surroundings.{desk_state, source_seen, view_of};

use crate::begun::{begin, refuse_start};
use crate::ran::Ended;
use crate::reports::report_first;
use outside::{Blobs, Clock, Held, Port, Sink, Source, Tells};
use outside_remote::Remote;
use repo_config::Settings;
use repo_core::Core;
use repo_course::End;
use repo_server::serve_stream;
use row_tables::Records;
use run_desks::Desk;
use run_lines::settings_of;
use std::alloc::Global;

/// Serves the first stream of the desk's port, if there is one. `None` where the port failed.
pub fn serve_first<P: Port, B: Blobs, R: Remote, K: Records, C: Clock>(
    alloc: Global,
    settings: &Settings,
    desk: &mut Desk<P, B, R>,
    core: &mut Core<K, C, B::Held>,
) -> Option<End>
    requires { core.old.settings ≡ settings.now }
    ensures { ServesFirst (AllTell B.Held.bytes) ⟦<P::Link as Tells>⟧ settings.now
        (desk_state (looks ⟦<P as Port>⟧ ⟦<P::Link as Tells>⟧ ⟦<B as Blobs>⟧ ⟦<B::Held as Held>⟧ ⟦<R as Remote>⟧) desk.old)
        (desk_state (looks ⟦<P as Port>⟧ ⟦<P::Link as Tells>⟧ ⟦<B as Blobs>⟧ ⟦<B::Held as Held>⟧ ⟦<R as Remote>⟧) desk.new)
        core.old core.new result }
{
    match desk.port.next() {
        Ok(Some(mut link)) => {
            let end = serve_stream(
                alloc,
                settings,
                core,
                &mut desk.blobs,
                &mut desk.remote,
                &mut link,
            );
            desk.port.back(link);
            Some(end)
        }
        Ok(None) => Some(End::Closed),
        Err(_) => None,
    }
}

/// Serves the first connection of the desk by a repository of these settings, and prints how it ended.
fn serve<P: Port, B: Blobs, R: Remote, K: Records, C: Clock, O: Sink>(
    alloc: Global,
    settings: &Settings,
    desk: &mut Desk<P, B, R>,
    records: K,
    clock: C,
    out: &mut O,
) -> Ended<K, C>
    ensures { (source source' : File) → Replays (AllTell B.Held.bytes) ⟦<P::Link as Tells>⟧ settings.now
        (view_of ⟦<K as Records>⟧ ⟦<C as Clock>⟧ ⟦<O as Tells>⟧ source (desk_state (looks ⟦<P as Port>⟧ ⟦<P::Link as Tells>⟧ ⟦<B as Blobs>⟧ ⟦<B::Held as Held>⟧ ⟦<R as Remote>⟧) desk.old) records clock out.old)
        (view_of ⟦<K as Records>⟧ ⟦<C as Clock>⟧ ⟦<O as Tells>⟧ source' (desk_state (looks ⟦<P as Port>⟧ ⟦<P::Link as Tells>⟧ ⟦<B as Blobs>⟧ ⟦<B::Held as Held>⟧ ⟦<R as Remote>⟧) desk.new) result.records result.clock out.new)
        result.status }
{
    settings.form();
    let mut core = match begin(alloc, settings, records, &mut desk.blobs, clock) {
        Ok(core) => core,
        Err((refusal, records, clock)) => {
            let status = refuse_start(alloc, out, &refusal);
            return Ended {
                status,
                records,
                clock,
            };
        }
    };
    let ended = serve_first(alloc, settings, desk, &mut core);
    let status = report_first(alloc, out, core.calls(), ended);
    let (records, clock) = core.end();
    Ended {
        status,
        records,
        clock,
    }
}

/// Reads the settings, and serves by them.
pub(crate) fn replay<S: Source, P: Port, B: Blobs, R: Remote, K: Records, C: Clock, O: Sink>(
    alloc: Global,
    settings: &mut S,
    desk: &mut Desk<P, B, R>,
    records: K,
    clock: C,
    out: &mut O,
) -> Ended<K, C>
    ensures { ReplaysBy (AllTell B.Held.bytes) ⟦<P::Link as Tells>⟧
        (view_of ⟦<K as Records>⟧ ⟦<C as Clock>⟧ ⟦<O as Tells>⟧ (source_seen ⟦<S as Tells>⟧ settings.old) (desk_state (looks ⟦<P as Port>⟧ ⟦<P::Link as Tells>⟧ ⟦<B as Blobs>⟧ ⟦<B::Held as Held>⟧ ⟦<R as Remote>⟧) desk.old) records clock out.old)
        (view_of ⟦<K as Records>⟧ ⟦<C as Clock>⟧ ⟦<O as Tells>⟧ (source_seen ⟦<S as Tells>⟧ settings.new) (desk_state (looks ⟦<P as Port>⟧ ⟦<P::Link as Tells>⟧ ⟦<B as Blobs>⟧ ⟦<B::Held as Held>⟧ ⟦<R as Remote>⟧) desk.new) result.records result.clock out.new)
        result.status }
{
    match settings_of(alloc, settings, out) {
        Ok(settings) => serve(alloc, &settings, desk, records, clock, out),
        Err(status) => Ended {
            status,
            records,
            clock,
        },
    }
}
