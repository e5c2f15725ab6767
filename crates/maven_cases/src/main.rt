//! Takes steps about Maven's paths, versions, digests and documents, and groups, and prints `ok NAME` for each case of which is told what has to
//! be, and the first difference of the others. The cases stand in files that the words name, in the form of `case_texts`. Paths and
//! versions are also generated, and plain, slow programs say the same of them. The status is 0 where all cases go as they have to.
//!
//! With `--digests` after the files, or alone, it reads the standard input in pieces of 65,536 bytes, and prints its SHA-1, MD5, SHA-256
//! and SHA-512, a line each, which are taken in one pass: for `bench/digests` and `bench/pieces`. The status is 2 where a word follows.
#![tactic(auto)]

mod digest_lines;
mod digests;
mod documents;
mod elements;
mod generated_paths;
mod groups;
mod paths;
mod plain_paths;
mod plain_versions;
mod values;
mod versions;

use crate::digest_lines::run_digests;
use crate::documents::Documents;
use case_texts::{Steps, Tale, follow_before};
use std::alloc::{AllocError, Global};
use std::process::ExitCode;
use std::{env, io};

/// What is told of a step about paths, versions, digests, elements, values or members of a group.
fn told(alloc: Global, key: &str, words: &[String]) -> Tale {
    if let Some(told) = paths::told(alloc, key, words)? {
        return Ok(Some(told));
    }
    if let Some(told) = versions::told(alloc, key, words)? {
        return Ok(Some(told));
    }
    if let Some(told) = digests::told(alloc, key, words)? {
        return Ok(Some(told));
    }
    if let Some(told) = elements::told(alloc, key, words)? {
        return Ok(Some(told));
    }
    if let Some(told) = values::told(alloc, key, words)? {
        return Ok(Some(told));
    }
    groups::told(alloc, key, words)
}

impl Steps for Documents {
    fn begin(&mut self, alloc: Global) -> Result<(), AllocError> {
        *self = Documents::new(alloc);
        Ok(())
    }

    fn step(&mut self, alloc: Global, key: &str, words: &[String]) -> Tale {
        match told(alloc, key, words)? {
            Some(told) => Ok(Some(told)),
            None => self.told(key, words),
        }
    }
}

fn main(rt: HostRuntime) -> io::Result<ExitCode> {
    let words: Vec<String> = env::args(&rt)?.skip(1).collect(rt.alloc())?;
    let cases = Documents::new(rt.alloc());
    match follow_before(&rt, cases, words.as_slice(), "--digests")? {
        Ok(behind) if behind.is_empty() => {
            run_digests(&rt)?;
            Ok(ExitCode::SUCCESS)
        }
        Ok(_) => Ok(ExitCode::from(2)),
        Err(status) => Ok(status),
    }
}
