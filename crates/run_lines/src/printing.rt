//! Lines that are printed.
ghost use Rattle.std.specs.Prelude.{◌≡◌, MatchBool};
ghost use Rattle.run_lines.specs.Printing.{Prints, PrintsPart, PrintsWhole, output};

use outside::{Sink, write_all};

/// Prints a text. It says whether all of it was printed; where it was not, a fault was counted, and a front of the text
/// was printed.
pub fn print<O: Sink>(out: &mut O, text: &[u8]) -> bool
    ensures { MatchBool result
        (PrintsWhole text.now (output (O.taken out.old) (O.write_faults out.old)) (output (O.taken out.new) (O.write_faults out.new)))
        (PrintsPart text.now (output (O.taken out.old) (O.write_faults out.old)) (output (O.taken out.new) (O.write_faults out.new))) }
{
    write_all(out, text).is_ok()
}

/// Prints the line of a failure, as far as that can be printed, and gives its status.
pub fn fault<O: Sink>(out: &mut O, line: &[u8], status: u8) -> u8
    ensures prints { Prints line.now (output (O.taken out.old) (O.write_faults out.old)) (output (O.taken out.new) (O.write_faults out.new)) }
    ensures status { result ≡ status }
{
    print(out, line);
    status
}
