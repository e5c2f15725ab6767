//! The program's words as a command of `clap`.
ghost use Rattle.std.specs.Prelude.{◌≡◌, IfOk, false};
ghost use Rattle.clap.specs.Words.{app_of, rule_of};
ghost use Rattle.clap.specs.declared.Command.{out-Command as fields_of};
ghost use Rattle.command_words.specs.Program as spec;

use clap::builder::ValueParser;
use clap::{Arg, Command};
use std::alloc::{AllocError, Global};

/// The greatest moment at which the clock may begin, 9999-12-30T22:00:00Z, and the greatest step of it, a day.
const LAST_MOMENT: u64 = 253_402_207_200;

const LONGEST_STEP: u64 = 86_400;

/// The greatest port (RFC 793).
const LAST_PORT: u64 = 65_535;

/// The greatest number from which a demonstration begins, and the most requests of it.
const LAST_START: u64 = 65_535;

const MOST_CALLS: u64 = 100_000;

/// The program, with a subcommand for each thing that it does. It has no words for help and its version.
pub(crate) fn program<'a>(alloc: Global) -> Result<Command<'a>, AllocError>
    ensures { IfOk result (λ command. (app_of command ≡ spec.program) × ((fields_of command).has_globals ≡ false)) }
{
    let clean = over_data(alloc, "clean")?;
    let serve = serve(alloc)?;
    let demo = demo(alloc)?;
    looking(alloc)?
        .subcommand(clean)?
        .subcommand(serve)?
        .subcommand(demo)
}

/// The program without what changes a folder.
fn looking<'a>(alloc: Global) -> Result<Command<'a>, AllocError>
    ensures { IfOk result (λ command. (app_of command ≡ spec.looking) × ((fields_of command).has_globals ≡ false)) }
{
    let replay = replay(alloc)?;
    let check = over_data(alloc, "check")?;
    without_help(Command::new(alloc, "mvnrepod"))
        .no_binary_name(true)
        .disable_help_subcommand(true)
        .subcommand_required(true)
        .subcommand(replay)?
        .subcommand(check)
}

fn replay<'a>(alloc: Global) -> Result<Command<'a>, AllocError>
    ensures { IfOk result (λ command. (app_of command ≡ spec.replay) × ((fields_of command).has_globals ≡ false)) }
{
    let settings = Arg::new(alloc, "settings").required(true);
    let at = number(alloc, "at", LAST_MOMENT);
    let step = number(alloc, "step", LONGEST_STEP);
    without_help(Command::new(alloc, "replay"))
        .arg(settings)?
        .arg(at)?
        .arg(step)
}

/// A command over settings and a folder of data.
fn over_data<'a>(alloc: Global, name: &'a str) -> Result<Command<'a>, AllocError>
    ensures { IfOk result (λ command. (app_of command ≡ spec.over_data name.entry.now) × ((fields_of command).has_globals ≡ false)) }
{
    let settings = Arg::new(alloc, "settings").required(true);
    let data = Arg::new(alloc, "data").required(true);
    without_help(Command::new(alloc, name))
        .arg(settings)?
        .arg(data)
}

fn serve<'a>(alloc: Global) -> Result<Command<'a>, AllocError>
    ensures { IfOk result (λ command. (app_of command ≡ spec.serve) × ((fields_of command).has_globals ≡ false)) }
{
    let port = Arg::new(alloc, "port")
        .required(true)
        .value_parser(ValueParser::Unsigned(1, LAST_PORT));
    over_data(alloc, "serve")?.arg(port)
}

fn demo<'a>(alloc: Global) -> Result<Command<'a>, AllocError>
    ensures { IfOk result (λ command. (app_of command ≡ spec.demo) × ((fields_of command).has_globals ≡ false)) }
{
    let from = required_number(alloc, "from", LAST_START);
    let calls = required_number(alloc, "calls", MOST_CALLS);
    without_help(Command::new(alloc, "demo"))
        .arg(from)?
        .arg(calls)
}

fn without_help<'a>(command: Command<'a>) -> Command<'a>
    ensures app { app_of result ≡ spec.without_help (app_of command.entry) }
    ensures globals { (fields_of result).has_globals ≡ (fields_of command.entry).has_globals }
{
    command.disable_help_flag(true).disable_version_flag(true)
}

/// An option with a whole number up to a limit.
fn number<'a>(alloc: Global, name: &'a str, most: u64) -> Arg<'a>
    ensures rule { rule_of result ≡ spec.number name.entry.now most }
    ensures local { result.global ≡ false }
{
    Arg::new(alloc, name)
        .long(name)
        .value_parser(ValueParser::Unsigned(0, most))
}

/// The same option, which is not left out.
fn required_number<'a>(alloc: Global, name: &'a str, most: u64) -> Arg<'a>
    ensures rule { rule_of result ≡ spec.required_number name.entry.now most }
    ensures local { result.global ≡ false }
{
    Arg::new(alloc, name)
        .long(name)
        .required(true)
        .value_parser(ValueParser::Unsigned(0, most))
}
