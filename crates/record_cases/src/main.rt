//! Takes steps about changes as bytes, tables and journals, and prints `ok NAME` for each case of which is told what has to be, and the
//! first difference of the others. The cases stand in files that the words name, in the form of `case_texts`. The words of a step that
//! are bytes stand one after the other, with the escapes of a line of text. The status is 0 where all cases go as they have to.
//!
//! | Step | What it tells |
//! |---|---|
//! | `change BYTES ..`, `written BYTES ..`, `starts BYTES ..` | what is read of them, the bytes that are written of that, and where its items begin |
//! | `item BYTES ..`, `second-item BYTES ..`, `long-item BYTES ..` | where a change of this one item is refused: of the first version, of the second, and of the first with 4,100,001 blanks after it |
//! | `applied ITEM ..` | the first of these items of the first version that does not fit |
//! | `completed ITEM .. then ITEM ..` | the same of items of the first version, and then of the second, and which rows have their further digests |
//! | `load BYTES ..` | what a load of a journal with this file comes to, and the file that it leaves |
//!
//! Words after `--bench`, with files before it or none, are those of changes of one row over a real file, for `bench/journal`: `commits`, `writes` or `load`, a folder,
//! and how many changes, which `load` passes over. `commits` commits them to a journal in the folder's file `records`; `writes` puts the
//! same bytes there by two writes and two syncs each. It prints how many rows a load of the file then gives. The status is 2 where they
//! are none of these.
#![tactic(auto)]

mod bench;
mod changes;
mod commits;
mod journals;
mod rows;
mod writes;

use crate::bench::run_bench;
use case_texts::{Steps, Tale, follow_before};
use std::alloc::{AllocError, Global};
use std::process::ExitCode;
use std::{env, io};

/// Steps of which none changes what comes after it.
#[derive(Drop)]
struct Records;

impl Steps for Records {
    fn begin(&mut self, _alloc: Global) -> Result<(), AllocError> {
        Ok(())
    }

    fn step(&mut self, alloc: Global, key: &str, words: &[String]) -> Tale {
        match changes::told(alloc, key, words)? {
            Some(told) => Ok(Some(told)),
            None => journals::told(alloc, key, words),
        }
    }
}

fn main(rt: HostRuntime) -> io::Result<ExitCode> {
    let words: Vec<String> = env::args(&rt)?.skip(1).collect(rt.alloc())?;
    match follow_before(&rt, Records, words.as_slice(), "--bench")? {
        Ok(bench) => run_bench(&rt, bench),
        Err(status) => Ok(status),
    }
}
