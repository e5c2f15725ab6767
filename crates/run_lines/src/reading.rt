//! The settings of a run.
ghost use Rattle.run_lines.specs.Printing.{output};
ghost use Rattle.run_lines.specs.Reading.{Reads, file};

use crate::printing::fault;
use crate::refusals::refuse;
use crate::statuses::INPUT;
use outside::{Sink, Source};
use repo_config::{Settings, SourceFault, read_from};
use std::alloc::Global;

/// The settings that a source says. Where it fails or says none, the line that tells it was printed, as far as that can be,
/// and the status of the run is given.
pub fn settings_of<S: Source, O: Sink>(
    alloc: Global,
    source: &mut S,
    out: &mut O,
) -> Result<Settings, u8>
    ensures { Reads (file (S.left source.old) (S.read_faults source.old)) (file (S.left source.new) (S.read_faults source.new))
        (output (O.taken out.old) (O.write_faults out.old)) (output (O.taken out.new) (O.write_faults out.new)) result }
{
    match read_from(alloc, source) {
        Ok(settings) => Ok(settings),
        Err(SourceFault::Failed) => Err(fault(out, b"mvnrepod: input\n", INPUT)),
        Err(SourceFault::Refused(refusal)) => Err(refuse(alloc, out, &refusal)),
    }
}
