// Changes of one row over a real file.
use crate::commits::{commit_all, rows_in};
use crate::writes::write_all;
use std::io;
use std::process::ExitCode;

#[derive(Clone, Copy)]
enum Mode {
    Commits,
    Writes,
    Load,
}

// What the words ask for: how, the folder, and how many changes.
fn asked(words: &[String]) -> Option<(Mode, &str, u64)> {
    let [mode, folder, count] = words else {
        return None;
    };
    let mode = match mode.as_str() {
        "commits" => Mode::Commits,
        "writes" => Mode::Writes,
        "load" => Mode::Load,
        _ => return None,
    };
    Some((mode, folder.as_str(), count.as_str().parse::<u64>().ok()?))
}

/// Does what the words ask for, and prints how many rows a load of the file then gives.
pub(crate) fn run_bench(rt: &HostRuntime, words: &[String]) -> io::Result<ExitCode> {
    let Some((mode, folder, count)) = asked(words) else {
        return Ok(ExitCode::from(2));
    };
    match mode {
        Mode::Commits => commit_all(rt, folder, count)?,
        Mode::Writes => write_all(rt, folder, count)?,
        Mode::Load => {}
    }
    let rows = rows_in(rt, folder)?;
    println!(rt; "{rows}")?;
    Ok(ExitCode::SUCCESS)
}
