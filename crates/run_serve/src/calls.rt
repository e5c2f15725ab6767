//! The line of a server that has ended, and its status.
ghost use Rattle.std.specs.Prelude.{◌≡◌, IfOk, MatchBool};
ghost use Rattle.run_lines.specs.Lines.{memory_line};
ghost use Rattle.run_lines.specs.Printing.{Prints};
ghost use Rattle.repo_run.specs.Surroundings.{output_seen};
ghost use Rattle.run_serve.specs.Calls.{TellsCalls, TellsWork, calls_line};

use outside::{Sink, Tells};
use run_lines::{DONE, INPUT, NO_MEMORY, OUTPUT, fault, print};
use std::alloc::{AllocError, Global};

fn calls_line(alloc: Global, calls: u64) -> Result<Vec<u8>, AllocError>
    ensures { IfOk result (λ line. line.items ≡ calls_line calls) }
{
    let mut line = Vec::from_slice(alloc, b"calls ")?;
    line.extend_from_slice(calls.to_string(alloc)?.as_bytes())?;
    line.push(b'\n')?;
    Ok(line)
}

/// Prints how many calls there were.
fn tell_calls<O: Sink>(alloc: Global, out: &mut O, calls: u64) -> u8
    ensures { TellsCalls calls (output_seen ⟦<O as Tells>⟧ out.old) (output_seen ⟦<O as Tells>⟧ out.new) result }
{
    let Ok(line) = calls_line(alloc, calls) else {
        return fault(out, b"mvnrepod: memory\n", NO_MEMORY);
    };
    if print(out, line.as_slice()) {
        DONE
    } else {
        OUTPUT
    }
}

/// Prints how many calls there were, or that a port failed, or that memory ran out before any connection was served.
pub fn tell_work<O: Sink>(alloc: Global, out: &mut O, refused: bool, failed: bool, calls: u64) -> u8
    ensures { MatchBool refused
        (Prints memory_line (output_seen ⟦<O as Tells>⟧ out.old) (output_seen ⟦<O as Tells>⟧ out.new) × (result ≡ 8))
        (TellsWork failed calls (output_seen ⟦<O as Tells>⟧ out.old) (output_seen ⟦<O as Tells>⟧ out.new) result) }
{
    if refused {
        fault(out, b"mvnrepod: memory\n", NO_MEMORY)
    } else if failed {
        fault(out, b"mvnrepod: input\n", INPUT)
    } else {
        tell_calls(alloc, out, calls)
    }
}
