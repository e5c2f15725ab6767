//! Takes steps about the words of the command line, settings, patterns of paths, request heads and answers, and prints `ok NAME` for
//! each case of which is told what has to be, and the first difference of the others. The cases stand in files that the words name, in
//! the form of `case_texts`. The status is 0 where all cases go as they have to.
//!
//! Words after `--settings`, with files of cases before it or none, are files of settings, of each of which it prints a line: what it
//! says, or that it is refused or not read. The stored run reads the commented example, a file that is missing, a folder, and one that does not end.
#![tactic(auto)]

mod answers;
mod commands;
mod files;
mod patterns;
mod requests;
mod settings;

use crate::files::report_all;
use case_texts::{Steps, Tale, copied, follow_before};
use std::alloc::{AllocError, Global};
use std::process::ExitCode;
use std::{env, io};

/// What is told of a step about the command line, patterns, requests or answers.
fn told(alloc: Global, key: &str, words: &[String]) -> Tale {
    if let Some(told) = commands::told(alloc, key, words)? {
        return Ok(Some(told));
    }
    if let Some(told) = patterns::told(alloc, key, words)? {
        return Ok(Some(told));
    }
    if let Some(told) = requests::told(alloc, key, words)? {
        return Ok(Some(told));
    }
    answers::told(alloc, key, words)
}

/// The text that `@` stands for in texts of settings.
#[derive(Drop)]
struct Middle {
    text: String,
}

impl Middle {
    /// What is told of a step about settings, or of the middle.
    fn told(&mut self, alloc: Global, key: &str, words: &[String]) -> Tale {
        match (key, words) {
            ("middle", [text]) => {
                self.text = copied(alloc, text.as_str())?;
                Ok(Some(copied(alloc, "done")?))
            }
            _ => settings::told(alloc, self.text.as_str(), key, words),
        }
    }
}

impl Steps for Middle {
    fn begin(&mut self, alloc: Global) -> Result<(), AllocError> {
        self.text = String::new(alloc);
        Ok(())
    }

    fn step(&mut self, alloc: Global, key: &str, words: &[String]) -> Tale {
        match told(alloc, key, words)? {
            Some(told) => Ok(Some(told)),
            None => self.told(alloc, key, words),
        }
    }
}

fn main(rt: HostRuntime) -> io::Result<ExitCode> {
    let words: Vec<String> = env::args(&rt)?.skip(1).collect(rt.alloc())?;
    let text: String = String::new(rt.alloc());
    match follow_before(&rt, Middle { text }, words.as_slice(), "--settings")? {
        Ok(paths) => {
            report_all(&rt, paths)?;
            Ok(ExitCode::SUCCESS)
        }
        Err(status) => Ok(status),
    }
}
