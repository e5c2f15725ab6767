//! How many answers have which status, and the lines that tell it.
ghost use Rattle.std.specs.Prelude.{◌≡◌, ◌<◌, ◌++◌, codes, IfOk, OnOk};
ghost use Rattle.run_lines.specs.Printing.{Prints};
ghost use Rattle.repo_run.specs.Demo.{TellsSummary, answers_text, figure, has_status, rows_text, summary};
ghost use Rattle.repo_run.specs.DemoSteps.{counted, more};
ghost use Rattle.repo_run.specs.Surroundings.{output_seen};

use outside::{Sink, Tells};
use run_lines::{DONE, NO_MEMORY, OUTPUT, fault, print};
use std::alloc::{AllocError, Global};

/// How many answers have the statuses 200, 201 and 404.
#[derive(Clone, Copy)]
pub struct Tally {
    pub ok: u64,
    pub created: u64,
    pub missing: u64,
}

/// How many files there are, and how many of them fade.
#[derive(Clone, Copy)]
pub struct Files {
    pub files: u64,
    pub fading: u64,
}

/// Whether memory ran out for the answer.
pub(crate) fn is_starved(answer: &[u8]) -> bool
    ensures { result ≡ has_status (codes "507") answer.now }
{
    answer.starts_with(b"HTTP/1.1 507")
}

/// The count, and one more where it is said so; the count is below 2^63.
fn more(count: u64, has: bool) -> u64
    requires { count < 9223372036854775808 }
    ensures { result ≡ more has count }
{
    if has { count + 1 } else { count }
}

/// The counts with one more answer. They are below 2^63.
pub(crate) fn counted(tally: Tally, answer: &[u8]) -> Tally
    requires ok { tally.ok < 9223372036854775808 }
    requires created { tally.created < 9223372036854775808 }
    requires missing { tally.missing < 9223372036854775808 }
    ensures { result ≡ counted answer.now tally }
{
    Tally {
        ok: more(tally.ok, answer.starts_with(b"HTTP/1.1 200")),
        created: more(tally.created, answer.starts_with(b"HTTP/1.1 201")),
        missing: more(tally.missing, answer.starts_with(b"HTTP/1.1 404")),
    }
}

/// Adds a line with a name and a number.
fn push_figure(
    alloc: Global,
    text: &mut Vec<u8>,
    name: &[u8],
    number: u64,
) -> Result<(), AllocError>
    ensures { OnOk result (text.new.items ≡ text.old.items ++ figure name.now number) }
{
    text.extend_from_slice(name)?;
    text.push(b' ')?;
    text.extend_from_slice(number.to_string(alloc)?.as_bytes())?;
    text.push(b'\n')?;
    Ok(())
}

fn push_answers(
    alloc: Global,
    text: &mut Vec<u8>,
    requests: u64,
    tally: Tally,
) -> Result<(), AllocError>
    ensures { OnOk result (text.new.items ≡ text.old.items ++ answers_text requests tally) }
{
    push_figure(alloc, text, b"requests", requests)?;
    push_figure(alloc, text, b"ok", tally.ok)?;
    push_figure(alloc, text, b"created", tally.created)?;
    push_figure(alloc, text, b"missing", tally.missing)
}

fn push_rows(
    alloc: Global,
    text: &mut Vec<u8>,
    calls: u64,
    files: u64,
    fading: u64,
) -> Result<(), AllocError>
    ensures { OnOk result (text.new.items ≡ text.old.items ++ rows_text calls files fading) }
{
    push_figure(alloc, text, b"calls", calls)?;
    push_figure(alloc, text, b"files", files)?;
    push_figure(alloc, text, b"fading", fading)
}

fn summary(
    alloc: Global,
    requests: u64,
    tally: Tally,
    calls: u64,
    files: u64,
    fading: u64,
) -> Result<Vec<u8>, AllocError>
    ensures { IfOk result (λ text. text.items ≡ summary requests tally calls files fading) }
{
    let mut text = Vec::new(alloc);
    push_answers(alloc, &mut text, requests, tally)?;
    push_rows(alloc, &mut text, calls, files, fading)?;
    Ok(text)
}

/// Prints how many requests were answered how, how many calls there were, and how many files there are and how many of them fade.
pub(crate) fn tell_summary<O: Sink>(
    alloc: Global,
    out: &mut O,
    requests: u64,
    tally: Tally,
    calls: u64,
    files: u64,
    fading: u64,
) -> u8
    ensures { TellsSummary (summary requests tally calls files fading) (output_seen ⟦<O as Tells>⟧ out.old) (output_seen ⟦<O as Tells>⟧ out.new) result }
{
    let Ok(text) = summary(alloc, requests, tally, calls, files, fading) else {
        return fault(out, b"mvnrepod: memory\n", NO_MEMORY);
    };
    if print(out, text.as_slice()) {
        DONE
    } else {
        OUTPUT
    }
}
