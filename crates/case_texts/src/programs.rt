// Programs over files of cases.
use crate::names::Names;
use crate::reading::Refusal;
use crate::steps::{Steps, Told, follow};
use std::alloc::Global;
use std::io::Read;
use std::process::ExitCode;
use std::rt::{Env, Files};
use std::{env, fs, io};

/// What judges the cases of files, one after the other. What a file names counts in the files after it.
pub trait Judge {
    /// How the cases of a text go.
    fn judge(&mut self, alloc: Global, text: &str) -> Result<Vec<Told>, Refusal>;
}

/// The names so far, and what takes the steps of cases.
#[derive(Drop)]
struct Follower<S: Steps + Drop> {
    names: Names,
    steps: S,
}

impl<S: Steps + Drop> Judge for Follower<S> {
    fn judge(&mut self, alloc: Global, text: &str) -> Result<Vec<Told>, Refusal> {
        follow(alloc, &mut self.names, &mut self.steps, text)
    }
}

/// Prints how a case went. Whether it went as it has to.
fn report(rt: &impl Print, told: &Told) -> io::Result<bool> {
    let name: &str = told.name.as_str();
    match &told.wrong {
        None => {
            println!(rt; "ok {name}")?;
            Ok(true)
        }
        Some(wrong) => {
            println!(rt; "WRONG {name}, {wrong}")?;
            Ok(false)
        }
    }
}

/// Judges the cases of a text. Whether all go as they have to.
fn judge_text<J: Judge>(
    rt: &(impl AllocGlobal + Print),
    judge: &mut J,
    from: &str,
    text: &str,
) -> io::Result<bool> {
    let cases: Vec<Told> = match judge.judge(rt.alloc(), text) {
        Ok(cases) => cases,
        Err(refusal) => {
            let line = refusal.line;
            let fault = refusal.fault;
            println!(rt; "REFUSED {from}:{line}: {fault}")?;
            return Ok(false);
        }
    };
    let mut all = true;
    for told in &cases {
        all = report(rt, told)? && all;
    }
    Ok(all)
}

/// Judges the cases of these files, or of the standard input where there is none, and prints `ok NAME` for each that goes as it has to,
/// and how the others go wrong. Whether all go as they have to.
pub fn judge_files<J: Judge>(
    rt: &(impl AllocGlobal + Files + Input + Print),
    judge: &mut J,
    files: &[String],
) -> io::Result<bool> {
    if files.is_empty() {
        let text: String = io::read_to_string(rt.alloc(), rt.reader())?;
        return judge_text(rt, judge, "input", text.as_str());
    }
    let mut all = true;
    for file in files {
        let text: String = fs::read_to_string(rt, file.as_str())?;
        all = judge_text(rt, judge, file.as_str(), text.as_str())? && all;
    }
    Ok(all)
}

/// The status of a program of which all cases go as they have to, or not.
pub fn status_of(all: bool) -> ExitCode {
    if all {
        ExitCode::SUCCESS
    } else {
        ExitCode::FAILURE
    }
}

/// Follows the cases of steps in these files, or in the standard input where there is none, each to the first step of which something
/// else is told than what has to be, and prints how they go. Whether all go as they have to.
pub fn follow_files<S: Steps + Drop>(
    rt: &(impl AllocGlobal + Files + Input + Print),
    steps: S,
    files: &[String],
) -> io::Result<bool> {
    let names: Names = Names::new(rt.alloc());
    judge_files(rt, &mut Follower { names, steps }, files)
}

/// A program that follows the cases of steps in the files that its words name.
pub fn run_steps<S: Steps + Drop>(
    rt: &(impl AllocGlobal + Env + Files + Input + Print),
    steps: S,
) -> io::Result<ExitCode> {
    let files: Vec<String> = env::args(rt)?.skip(1).collect(rt.alloc())?;
    Ok(status_of(follow_files(rt, steps, files.as_slice())?))
}

/// The words before a mark, and those after it; nothing after it where it is none of them.
pub fn parted<'a>(words: &'a [String], mark: &str) -> (&'a [String], Option<&'a [String]>) {
    let mut rest: &[String] = words;
    for place in 0..words.len() {
        let [word, behind @ ..] = rest else {
            break;
        };
        if word.as_str() == mark {
            return (words.get(..place).unwrap_or(&[]), Some(behind));
        }
        rest = behind;
    }
    (words, None)
}

/// Follows the cases of steps in the files that the words before a mark name, or in the standard input where there is neither a word
/// nor the mark. The words after the mark where all cases go as they have to; else the status of the program.
pub fn follow_before<'a, S: Steps + Drop>(
    rt: &(impl AllocGlobal + Files + Input + Print),
    steps: S,
    words: &'a [String],
    mark: &str,
) -> io::Result<Result<&'a [String], ExitCode>> {
    let (files, behind) = parted(words, mark);
    let all: bool = if behind.is_some() && files.is_empty() {
        true
    } else {
        follow_files(rt, steps, files)?
    };
    match behind {
        Some(behind) if all => Ok(Ok(behind)),
        _ => Ok(Err(status_of(all))),
    }
}
