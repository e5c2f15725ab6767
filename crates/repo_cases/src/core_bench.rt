// A repository in memory, without records, under many commands.
ghost use Rattle.std.specs.Prelude.{◌≡◌, All, IfOk, IsTrue};
ghost use Rattle.repo_model.specs.Command.{meets};
ghost use Rattle.repo_model.specs.Shown.{shown_command};

use crate::no_records::NoRecords;
use core_steps::{CaseBlobs, CaseHeld, Form, Maker, Rows, Step};
use outside_memory::ScriptClock;
use repo_core::{Command, Core, Reply, start};
use repo_model::{Finding, SessionResult};
use std::alloc::{AllocError, Global};
use std::io::{self, ErrorKind};
use std::process::ExitCode;
use std::time::{Clock, Duration, Instant};

/// A repository in memory.
type Repository = Core<NoRecords, ScriptClock, CaseHeld>;

/// Commands that are made before the clock is read, and then called one after the other.
const BATCH: u64 = 1_000;

// The repositories `releases` and `snapshots`. Each turn's moment is 100 seconds later than the one before.
fn repository(alloc: Global, keep: &str) -> io::Result<Repository> {
    let settings = format!(in alloc;
        "grace_seconds = 60\n[[hosted]]\nid = \"releases\"\nreleases = true\nsnapshots = false\n[[hosted]]\nid = \"snapshots\"\nreleases = false\nsnapshots = true\nkeep_count = {keep}\nkeep_days = 0\n"
    )?;
    let Ok(settings) = repo_config::read(alloc, settings.as_str().as_bytes()) else {
        return Err(ErrorKind::InvalidData.into());
    };
    let mut blobs = CaseBlobs::new(alloc, Vec::new(alloc));
    let clock = ScriptClock::stepping(alloc, 1_700_000_000, 100);
    match start(alloc, settings, NoRecords, &mut blobs, clock) {
        Ok(core) => Ok(core),
        Err(_) => Err(ErrorKind::InvalidData.into()),
    }
}

// The number that a reply gives, or 1 where it says that something is there or done.
fn number_of(reply: &Reply<CaseHeld>) -> u64 {
    match reply {
        Reply::File { lease, .. } => *lease,
        Reply::Draft(draft) => *draft,
        Reply::Ended(SessionResult::Done(files)) => *files,
        Reply::Unlisted(rows) => *rows,
        Reply::Collected { expired, .. } => *expired,
        Reply::Found(Finding::Counts { files, .. }) => *files,
        Reply::Doc { .. } | Reply::Created | Reply::Done => 1,
        Reply::Opened(_) | Reply::Staged => 1,
        _ => 0,
    }
}

/// Commands of one form: how many were called, the sum of what their replies say, and how long they took.
#[derive(Clone, Copy)]
pub struct Figure {
    pub form: Form,
    pub calls: u64,
    pub told: u64,
    pub nanoseconds: u64,
}

impl Figure {
    fn new(form: Form) -> Figure {
        Figure {
            form,
            calls: 0,
            told: 0,
            nanoseconds: 0,
        }
    }

    fn add(&mut self, numbers: &[u64], spent: Duration) {
        let nanoseconds = u64::try_from(spent.as_nanos()).unwrap_or(u64::MAX);
        self.nanoseconds = self.nanoseconds.saturating_add(nanoseconds);
        self.calls = self.calls.saturating_add(numbers.len() as u64);
        for number in numbers {
            self.told = self.told.saturating_add(*number);
        }
    }
}

// The number at a place, 0 where there is none.
fn number_at(numbers: &[u64], place: u64) -> u64 {
    match numbers.get(place as usize) {
        Some(number) => *number,
        None => 0,
    }
}

// Adds a command, where it meets its condition.
fn push(
    core: &Repository,
    batch: &mut Vec<Command<CaseHeld>>,
    command: Command<CaseHeld>,
) -> Result<(), AllocError>
    requires { All (λ c. IsTrue (meets core.now.settings (shown_command c))) batch.old.items }
    ensures { All (λ c. IsTrue (meets core.now.settings (shown_command c))) batch.new.items }
{
    if Repository::fits(core.settings(), &command) {
        batch.push(command)?;
    }
    Ok(())
}

// Calls a command, and gives what its reply says.
fn call_one(core: &mut Repository, command: Command<CaseHeld>) -> u64
    requires { IsTrue (meets core.old.settings (shown_command command)) }
    ensures { core.new.settings ≡ core.old.settings }
{
    let reply = core.call(command);
    number_of(&reply)
}

// Calls commands, the last one first, and gives what their replies say.
fn call_all(
    core: &mut Repository,
    mut batch: Vec<Command<CaseHeld>>,
    mut numbers: Vec<u64>,
) -> Result<Vec<u64>, AllocError>
    requires { All (λ c. IsTrue (meets core.old.settings (shown_command c))) batch.items }
{
    while let Some(command) = batch.pop() {
        let number = call_one(core, command);
        numbers.push(number)?;
    }
    Ok(numbers)
}

/// A repository, and what its commands are made of.
#[derive(Drop)]
pub struct CoreBench {
    alloc: Global,
    core: Repository,
    maker: Maker,
}

impl CoreBench {
    /// A repository that keeps so many builds.
    pub fn new(alloc: Global, rows: Rows, keep: &str) -> io::Result<CoreBench> {
        Ok(CoreBench {
            alloc,
            core: repository(alloc, keep)?,
            maker: Maker::new(alloc, rows),
        })
    }

    // The commands of the turns from `from` on, before `end`, the first one last, with numbers that were given.
    fn batch(
        &mut self,
        form: Form,
        turns: (u64, u64),
        given: &[u64],
    ) -> Result<Vec<Command<CaseHeld>>, AllocError>
        ensures { IfOk result (λ batch. All (λ c. IsTrue (meets self.new.core.settings (shown_command c))) batch.items) }
    {
        let (from, end) = turns;
        let mut batch = Vec::new(self.alloc);
        for n in (from..end).rev() {
            let number = number_at(given, n.saturating_sub(from));
            let command = self.maker.command(form, n, number)?;
            push(&self.core, &mut batch, command)?;
        }
        Ok(batch)
    }

    // Makes the commands of some turns and calls them. Their time is that of the calls. Gives what the replies say.
    fn call<R: Clock>(
        &mut self,
        rt: &R,
        figure: &mut Figure,
        turns: (u64, u64),
        given: &[u64],
    ) -> io::Result<Vec<u64>> {
        let batch = self.batch(figure.form, turns, given)?;
        let numbers = Vec::with_capacity(self.alloc, batch.len())?;
        let begin = Instant::now(rt)?;
        let numbers = call_all(&mut self.core, batch, numbers)?;
        figure.add(&numbers, begin.elapsed(rt)?);
        Ok(numbers)
    }

    /// Takes a step, a batch of each of its forms after the other.
    pub fn take<R: Clock>(&mut self, rt: &R, step: Step) -> io::Result<(Figure, Option<Figure>)> {
        let mut first = Figure::new(step.first);
        let mut second = match step.second {
            Some(form) => Some(Figure::new(form)),
            None => None,
        };
        let batches = step.end.saturating_sub(step.from).div_ceil(BATCH);
        for n in 0..batches {
            let from = step.from.saturating_add(n.saturating_mul(BATCH));
            let turns = (from, from.saturating_add(BATCH).min(step.end));
            let given = self.call(rt, &mut first, turns, &[])?;
            if let Some(second) = &mut second {
                self.call(rt, second, turns, &given)?;
            }
        }
        Ok((first, second))
    }
}

fn print(rt: &impl Print, figure: &Figure, times: bool) -> io::Result<()> {
    print!(rt; "{:?} {} {}", figure.form, figure.calls, figure.told)?;
    if times {
        print!(rt; " {}", figure.nanoseconds)?;
    }
    println!(rt)
}

// Takes the steps that the words name at a bench, and prints a line for each form of commands; whether all words are steps.
fn take_all(
    rt: &(impl Clock + Print),
    bench: &mut CoreBench,
    words: &[String],
    times: bool,
) -> io::Result<bool> {
    for word in words {
        let Some(step) = Step::of(word.as_str()) else {
            return Ok(false);
        };
        let (first, second) = bench.take(rt, step)?;
        print(rt, &first, times)?;
        if let Some(second) = second {
            print(rt, &second, times)?;
        }
    }
    Ok(true)
}

/// Takes the steps that the words name, and prints a line for each form of commands.
pub fn run_bench(
    rt: &(impl AllocGlobal + Clock + Print),
    words: &[String],
) -> io::Result<ExitCode> {
    let [mode, kind, rows, size, stride, keep, steps @ ..] = words else {
        return Ok(ExitCode::from(2));
    };
    let Some(rows) = Rows::of(kind, rows, size, stride) else {
        return Ok(ExitCode::from(2));
    };
    let mut bench = CoreBench::new(rt.alloc(), rows, keep.as_str())?;
    if take_all(rt, &mut bench, steps, mode.as_str() == "times")? {
        Ok(ExitCode::SUCCESS)
    } else {
        Ok(ExitCode::from(2))
    }
}
