//! `mvnrepod`: a Maven repository manager.
#![tactic(auto)]

use repo_run::{Action, INPUT, NO_MEMORY, wanted};
use run_system::{status_for, take_places};
use std::process::ExitCode;
use std::{env, io};

/// What is said where the words name no command.
const USAGE: &str = "mvnrepod 1.0, a Maven repository manager

    mvnrepod serve SETTINGS DATA PORT             answers requests at 127.0.0.1:PORT, until it is killed
    mvnrepod check SETTINGS DATA                  looks whether all files are as they were recorded
    mvnrepod clean SETTINGS DATA                  makes one cleaning
    mvnrepod replay SETTINGS [--at T] [--step S]  answers requests on standard input, in memory
    mvnrepod demo --from N --calls M              answers M requests of its own, in memory

SETTINGS is a file of TOML, and DATA the folder that keeps everything; only serve makes it.";

/// The words after the program's name; none where one of them is no text.
fn words_of(rt: &HostRuntime) -> io::Result<Vec<String>> {
    match env::args(rt) {
        Ok(args) => Ok(args.skip(1).collect(rt.alloc())?),
        Err(error) if error.kind() == io::ErrorKind::InvalidData => Ok(Vec::new(rt.alloc())),
        Err(error) => Err(error),
    }
}

fn main(rt: HostRuntime) -> ExitCode {
    let Ok(_places) = take_places(&rt) else {
        return ExitCode::from(INPUT);
    };
    let Ok(words) = words_of(&rt) else {
        return ExitCode::from(NO_MEMORY);
    };
    let Ok(wanted) = wanted(rt.alloc(), words.as_slice()) else {
        return ExitCode::from(NO_MEMORY);
    };
    if matches!(wanted.command, Action::Nothing) {
        let _ = eprintln!(rt; "{USAGE}");
    }
    match status_for(&rt, &rt, words.as_slice(), &wanted) {
        Ok(status) => ExitCode::from(status),
        Err(_) => ExitCode::from(NO_MEMORY),
    }
}
