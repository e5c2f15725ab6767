//! The line of a stream that was served, and its status.
ghost use Rattle.std.specs.Prelude.{◌≡◌, IfOk};
ghost use Rattle.repo_run.specs.Lines.{end_name, ending_line};
ghost use Rattle.repo_run.specs.Replay.{Finishes, Reports, ReportsFirst};
ghost use Rattle.repo_run.specs.Surroundings.{output_seen};

use outside::{Sink, Tells};
use repo_course::End;
use run_lines::{DONE, INPUT, NO_MEMORY, OUTPUT, fault, print};
use std::alloc::{AllocError, Global};

fn end_name(end: End) -> &'static str
    ensures { result.now ≡ end_name end }
{
    match end {
        End::Closed => "Closed",
        End::TornRequest => "TornRequest",
        End::TurnLimit => "TurnLimit",
        End::SourceFault => "SourceFault",
        End::SinkFault => "SinkFault",
    }
}

fn ending_line(alloc: Global, calls: u64, end: End) -> Result<Vec<u8>, AllocError>
    ensures { IfOk result (λ line. line.items ≡ ending_line calls end) }
{
    let mut line = Vec::from_slice(alloc, b"calls ")?;
    line.extend_from_slice(calls.to_string(alloc)?.as_bytes())?;
    line.extend_from_slice(b" end ")?;
    line.extend_from_slice(end_name(end).as_bytes())?;
    line.push(b'\n')?;
    Ok(line)
}

/// Prints how many calls a stream made and how it ended.
fn finish<O: Sink>(alloc: Global, out: &mut O, calls: u64, end: End) -> u8
    ensures { Finishes calls end (output_seen ⟦<O as Tells>⟧ out.old) (output_seen ⟦<O as Tells>⟧ out.new) result }
{
    let Ok(line) = ending_line(alloc, calls, end) else {
        return fault(out, b"mvnrepod: memory\n", NO_MEMORY);
    };
    if print(out, line.as_slice()) {
        DONE
    } else {
        OUTPUT
    }
}

/// The status of a stream that was served, and its line.
fn report<O: Sink>(alloc: Global, out: &mut O, calls: u64, end: End) -> u8
    ensures { Reports end calls (output_seen ⟦<O as Tells>⟧ out.old) (output_seen ⟦<O as Tells>⟧ out.new) result }
{
    match end {
        End::SourceFault => fault(out, b"mvnrepod: input\n", INPUT),
        End::SinkFault => OUTPUT,
        End::Closed | End::TornRequest | End::TurnLimit => finish(alloc, out, calls, end),
    }
}

/// The status of a replay and its line. `None` is that the port failed.
pub(crate) fn report_first<O: Sink>(
    alloc: Global,
    out: &mut O,
    calls: u64,
    ended: Option<End>,
) -> u8
    ensures { ReportsFirst ended calls (output_seen ⟦<O as Tells>⟧ out.old) (output_seen ⟦<O as Tells>⟧ out.new) result }
{
    match ended {
        Some(end) => report(alloc, out, calls, end),
        None => fault(out, b"mvnrepod: input\n", INPUT),
    }
}
