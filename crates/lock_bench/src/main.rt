//! Threads that count together, behind the turn lock or behind std's mutex, for `bench/lock`. The words are `turns` or `mutex`, how many threads, and how many calls each of them makes. It prints the count.
#![tactic(auto)]

mod behind_mutex;
mod behind_turns;
mod counter;

use std::alloc::AllocError;
use std::process::ExitCode;
use std::{env, io};

/// What the words ask for: the lock, the threads beside this one, and the calls of each.
fn asked(words: &[String]) -> Option<(bool, usize, u64)> {
    let [lock, threads, calls] = words else {
        return None;
    };
    let is_turns = lock.as_str() == "turns";
    if !is_turns && lock.as_str() != "mutex" {
        return None;
    }
    let threads = threads.as_str().parse::<usize>().ok()?;
    let calls = calls.as_str().parse::<u64>().ok()?;
    Some((is_turns, threads.checked_sub(1)?, calls))
}

fn main(rt: HostRuntime) -> io::Result<ExitCode> {
    let words: Vec<String> = env::args(&rt)?.skip(1).collect(rt.alloc())?;
    let Some((is_turns, others, calls)) = asked(&words) else {
        return Ok(ExitCode::from(2));
    };
    let count = if is_turns {
        behind_turns::count(&rt, rt.alloc(), others, calls)
    } else {
        behind_mutex::count(&rt, rt.alloc(), others, calls)
    };
    match count {
        Ok(count) => println!(rt; "{count}")?,
        Err(AllocError) => return Ok(ExitCode::from(8)),
    }
    Ok(ExitCode::SUCCESS)
}
