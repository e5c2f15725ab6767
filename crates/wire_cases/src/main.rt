//! Takes steps about streams of requests, the bytes of answers, and fetches from a remote in memory, and prints `ok NAME` for each case
//! of which is told what has to be, and the first difference of the others. The cases stand in files that the words name, in the form of
//! `case_texts`. Streams are also generated, and a plain, slow program says the same of them. The status is 0 where all cases go as they
//! have to.
//!
//! The step `fetch` has what is fetched and its limit, `file N` or `document N`, and each answer of the remote after `<<`. `!` is an
//! exchange that fails, `=` in front of a text an answer 200 with this body, `-` no bytes, and any other text is literal, `|` being
//! CR LF. It tells what comes of it and how many exchanges were made; `made N` tells one of these: host, port, limit and request
//! (RFC 9110, section 15; RFC 9112, sections 4, 6.3 and 7.1).
#![tactic(auto)]

mod answers;
mod bodies;
mod fetching;
mod fields;
mod generated;
mod outcomes;
mod plain;
mod remotes;
mod streams;

use crate::fetching::Fetching;
use case_texts::{Steps, Tale, run_steps};
use std::alloc::{AllocError, Global};
use std::io;
use std::process::ExitCode;

/// What is told of a step about streams of requests or answers.
fn told(alloc: Global, key: &str, words: &[String]) -> Tale {
    if let Some(told) = streams::told(alloc, key, words)? {
        return Ok(Some(told));
    }
    if let Some(told) = fields::told(alloc, key, words)? {
        return Ok(Some(told));
    }
    if let Some(told) = bodies::told(alloc, key, words)? {
        return Ok(Some(told));
    }
    answers::told(alloc, key, words)
}

impl Steps for Fetching {
    fn begin(&mut self, alloc: Global) -> Result<(), AllocError> {
        *self = Fetching::new(alloc);
        Ok(())
    }

    fn step(&mut self, alloc: Global, key: &str, words: &[String]) -> Tale {
        match told(alloc, key, words)? {
            Some(told) => Ok(Some(told)),
            None => self.told(alloc, key, words),
        }
    }
}

fn main(rt: HostRuntime) -> io::Result<ExitCode> {
    run_steps(&rt, Fetching::new(rt.alloc()))
}
