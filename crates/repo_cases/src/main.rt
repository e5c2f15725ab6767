//! Runs the program, or the repository alone, over memory by cases from files in the form of `case_texts`, and prints `ok NAME` for each
//! that goes as it has to, and how the others go wrong.
//!
//! | Words | What they are |
//! |---|---|
//! | `FILE ..` | files of runs of the program; where there is no word, they stand in the standard input |
//! | `--steps FILE ..` | files of cases of steps about runs over what is recorded and stored, below |
//! | `--core FILE ..` | files of cases of steps of `core_steps`, at the repository alone |
//! | `--bench WORD ..` | a repository under many commands, for `bench/core` |
//!
//! They stand in this order, and each may be missing; where `--steps` or `--core` has no file after it, its cases stand in the standard
//! input. Texts that a file names count in the files of its kind after it. The status is 0 where all cases go as they have to, and 1 where
//! one does not, or a file is refused or not read; nothing after `--bench` is done then.
//!
//! | Step of `--steps` | What it does, or tells |
//! |---|---|
//! | `journal BYTES ..` | the records are a journal with this file, whose words stand one after the other, with the escapes of a line of text |
//! | `journal-fails N PART BYTES ..` | the same, of whose disk call N fails, a write after its first PART bytes |
//! | `many N FRONT AFTER` | the same with one change of N files, of at most 9,999, that an older program recorded, their numbers from 1,000 on, and what desk and cleaner have of them; of an item what stands before the path and after the number |
//! | `records-fail N` | the records are in memory, empty, and call N of them fails |
//! | `store N TEXT ..` | what desk and cleaner have stored, each for itself |
//! | `blobs-fail N`, `garbage-fails N` | the next `store` gives the desk, or the cleaner, a store of which call N fails, counted after it |
//! | `settings TEXT`, `at N`, `room N` | the settings, the moment of the clock, and the room for lines |
//! | `run COMMAND INPUT` | a run with one connection that gives this input: its status and its lines, `;` being a line's end |
//! | `trial COMMAND INPUT FIRST SECOND` | such a run, which may fail; a check by the same disk and store; over the file that the first run left a new start's check, and what it answers to both other inputs |
//! | `answers` | what the last run wrote on its connection |
//! | `recorded BYTES ..`, `length` | whether the journal has this file, or the file that it has; how long that is |
//! | `blobs` | the numbers that desk and cleaner removed, and those that the desk has |
//!
//! After `--bench` stand `counts` or `times`, `releases` or `snapshots`, how many rows are meant, how many versions an artifact or
//! builds a directory has, the stride from one row to the next, how many builds are kept, and then steps, each a name and the turns from
//! and before which it is taken, as `put:0:400`. Each line has a form of commands, how many were called and what their replies say in
//! all; with `times` also how many nanoseconds the calls took. The status is 2 where they are none of these.
#![tactic(auto)]

mod core_bench;
mod kept;
mod many;
mod no_records;
mod objects;
mod over;
mod recorded;
mod runs;
mod stand;
mod starts;
mod steps;
mod trying;
mod worlds;

use crate::core_bench::run_bench;
use crate::stand::Stand;
use crate::trying::wrong_of;
use crate::worlds::World;
use case_texts::{
    Book, Case, CaseFault, Judge, Refusal, Steps, Tale, Told, follow_files, judge_files, parted,
    read_cases, status_of,
};
use core_steps::take;
use std::alloc::{AllocError, Global};
use std::process::ExitCode;
use std::{env, io};

/// How a case went.
fn judged(alloc: Global, case: &Case) -> Result<Told, AllocError> {
    Ok(Told {
        name: case.name.clone()?,
        wrong: wrong_of(alloc, case)?,
    })
}

/// How these cases went.
fn all_judged(alloc: Global, cases: &[Case]) -> Result<Vec<Told>, AllocError> {
    let mut all: Vec<Told> = Vec::new(alloc);
    for case in cases {
        all.push(judged(alloc, case)?)?;
    }
    Ok(all)
}

/// Judges runs of the program, by the texts that were named so far.
#[derive(Drop)]
struct RunCases {
    book: Book,
}

impl Judge for RunCases {
    fn judge(&mut self, alloc: Global, text: &str) -> Result<Vec<Told>, Refusal> {
        let cases: Vec<Case> = read_cases(alloc, &mut self.book, text)?;
        all_judged(alloc, cases.as_slice()).map_err(|_| Refusal {
            line: 0,
            fault: CaseFault::OutOfMemory,
        })
    }
}

impl Steps for Stand {
    fn begin(&mut self, alloc: Global) -> Result<(), AllocError> {
        *self = Stand::new(alloc)?;
        Ok(())
    }

    fn step(&mut self, alloc: Global, key: &str, words: &[String]) -> Tale {
        self.told(alloc, key, words)
    }
}

impl Steps for World {
    fn begin(&mut self, alloc: Global) -> Result<(), AllocError> {
        *self = World::new(alloc, &[]).map_err(|_| AllocError)?;
        Ok(())
    }

    fn step(&mut self, alloc: Global, key: &str, words: &[String]) -> Tale {
        match take(self, alloc, key, words) {
            Ok(told) => Ok(Some(told)),
            Err(fault) => Ok(Some(format!(in alloc; "{fault}")?)),
        }
    }
}

/// Whether all runs of the program in these files go as they have to.
fn judge_runs(rt: &HostRuntime, files: &[String]) -> io::Result<bool> {
    let book: Book = Book::new(rt.alloc());
    judge_files(rt, &mut RunCases { book }, files)
}

/// Whether all cases of steps over what is recorded and stored go as they have to; they do where there are no words for them.
fn follow_steps(rt: &HostRuntime, files: Option<&[String]>) -> io::Result<bool> {
    match files {
        Some(files) => follow_files(rt, Stand::new(rt.alloc())?, files),
        None => Ok(true),
    }
}

/// The same of cases of steps at the repository alone.
fn follow_core(rt: &HostRuntime, files: Option<&[String]>) -> io::Result<bool> {
    match files {
        Some(files) => {
            let world: World = World::new(rt.alloc(), &[]).map_err(|_| AllocError)?;
            follow_files(rt, world, files)
        }
        None => Ok(true),
    }
}

/// Whether all cases of the files that these words name go as they have to.
fn judge_words(rt: &HostRuntime, words: &[String]) -> io::Result<bool> {
    let (words, core) = parted(words, "--core");
    let (runs, steps) = parted(words, "--steps");
    let other: bool = steps.is_some() || core.is_some();
    let ran: bool = (other && runs.is_empty()) || judge_runs(rt, runs)?;
    let followed: bool = follow_steps(rt, steps)?;
    let taken: bool = follow_core(rt, core)?;
    Ok(ran && followed && taken)
}

fn main(rt: HostRuntime) -> io::Result<ExitCode> {
    let words: Vec<String> = env::args(&rt)?.skip(1).collect(rt.alloc())?;
    let (cases, bench) = parted(words.as_slice(), "--bench");
    let Some(bench) = bench else {
        return Ok(status_of(judge_words(&rt, cases)?));
    };
    if !cases.is_empty() && !judge_words(&rt, cases)? {
        return Ok(ExitCode::FAILURE);
    }
    run_bench(&rt, bench)
}
