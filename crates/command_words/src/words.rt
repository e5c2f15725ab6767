//! Words read as what they ask for.
ghost use Rattle.std.specs.Prelude.{◌≡◌, IfErr, IfOk, Some, map, string_bytes};
ghost use Rattle.std.specs.Option.{option_and_then};
ghost use Rattle.clap.specs.Words.{found_of, kind_of, rows_of, subcommand_rows_of};
ghost use Rattle.command_words.specs.Wanted as spec;

use crate::commands::program;
use crate::wanted::{Wanted, WordsFault};
use clap::error::ErrorKind;
use clap::{ArgMatches, Error};
use std::alloc::Global;
use texts::Text;

/// What the words after the program's name ask for. Which words are the program's is `clap`'s reading of them, so
/// `--at=5`, `--at +5` and options before the settings are; a word twice is not.
pub fn read_words(alloc: Global, words: &[String]) -> Result<Wanted, WordsFault>
    ensures ok { IfOk result (λ wanted. spec.wanted_of (map string_bytes words.now) ≡ Some wanted) }
    ensures fault { IfErr result (spec.IsFault (spec.wanted_of (map string_bytes words.now))) }
{
    let Ok(command) = program(alloc) else {
        return Err(WordsFault::NoMemory);
    };
    match command.try_get_matches_from(words) {
        Ok(matches) => wanted_in(alloc, &matches),
        Err(error) => Err(fault_of(&error)),
    }
}

fn fault_of(error: &Error) -> WordsFault
    ensures { spec.IsKind (kind_of error.now) result }
{
    match error.kind() {
        ErrorKind::OutOfMemory => WordsFault::NoMemory,
        _ => WordsFault::Refused,
    }
}

fn wanted_in(alloc: Global, matches: &ArgMatches<'_>) -> Result<Wanted, WordsFault>
    ensures ok { IfOk result (λ wanted. option_and_then spec.wanted_by (subcommand_rows_of matches.now) ≡ Some wanted) }
    ensures fault { IfErr result (spec.IsFault (option_and_then spec.wanted_by (subcommand_rows_of matches.now))) }
{
    match matches.subcommand() {
        Some((name, found)) => subcommand_in(alloc, name, found),
        None => Err(WordsFault::Refused),
    }
}

fn subcommand_in(alloc: Global, name: &str, found: &ArgMatches<'_>) -> Result<Wanted, WordsFault>
    ensures ok { IfOk result (λ wanted. spec.wanted_by (name.now, rows_of (found_of found.now)) ≡ Some wanted) }
    ensures fault { IfErr result (spec.IsFault (spec.wanted_by (name.now, rows_of (found_of found.now)))) }
{
    if name == "replay" {
        return replay_in(alloc, found);
    }
    if name == "check" {
        return check_in(alloc, found);
    }
    if name == "clean" {
        return clean_in(alloc, found);
    }
    if name == "serve" {
        return serve_in(alloc, found);
    }
    if name == "demo" {
        return Ok(demo_in(found));
    }
    Err(WordsFault::Refused)
}

fn replay_in(alloc: Global, found: &ArgMatches<'_>) -> Result<Wanted, WordsFault>
    ensures ok { IfOk result (λ wanted. wanted ≡ spec.replay_in (rows_of (found_of found.now))) }
    ensures fault { IfErr result (λ fault. fault ≡ WordsFault.NoMemory) }
{
    Ok(Wanted::Replay {
        settings: owned(alloc, text_at(found, "settings"))?,
        at: number_at(found, "at"),
        step: number_at(found, "step"),
    })
}

fn check_in(alloc: Global, found: &ArgMatches<'_>) -> Result<Wanted, WordsFault>
    ensures ok { IfOk result (λ wanted. wanted ≡ spec.check_in (rows_of (found_of found.now))) }
    ensures fault { IfErr result (λ fault. fault ≡ WordsFault.NoMemory) }
{
    Ok(Wanted::Check {
        settings: owned(alloc, text_at(found, "settings"))?,
        data: owned(alloc, text_at(found, "data"))?,
    })
}

fn clean_in(alloc: Global, found: &ArgMatches<'_>) -> Result<Wanted, WordsFault>
    ensures ok { IfOk result (λ wanted. wanted ≡ spec.clean_in (rows_of (found_of found.now))) }
    ensures fault { IfErr result (λ fault. fault ≡ WordsFault.NoMemory) }
{
    Ok(Wanted::Clean {
        settings: owned(alloc, text_at(found, "settings"))?,
        data: owned(alloc, text_at(found, "data"))?,
    })
}

fn serve_in(alloc: Global, found: &ArgMatches<'_>) -> Result<Wanted, WordsFault>
    ensures ok { IfOk result (λ wanted. wanted ≡ spec.serve_in (rows_of (found_of found.now))) }
    ensures fault { IfErr result (λ fault. fault ≡ WordsFault.NoMemory) }
{
    Ok(Wanted::Serve {
        settings: owned(alloc, text_at(found, "settings"))?,
        data: owned(alloc, text_at(found, "data"))?,
        port: small_at(found, "port"),
    })
}

fn demo_in(found: &ArgMatches<'_>) -> Wanted
    ensures { result ≡ spec.demo_in (rows_of (found_of found.now)) }
{
    Wanted::Demo {
        from: small_at(found, "from"),
        calls: count_at(found, "calls"),
    }
}

fn owned(alloc: Global, text: &str) -> Result<Text, WordsFault>
    ensures ok { IfOk result (λ owned. owned ≡ text.now) }
    ensures fault { IfErr result (λ fault. fault ≡ WordsFault.NoMemory) }
{
    match Text::new(alloc, text) {
        Ok(text) => Ok(text),
        Err(_) => Err(WordsFault::NoMemory),
    }
}

fn text_at<'a>(found: &ArgMatches<'a>, id: &str) -> &'a str
    ensures { result.now ≡ spec.text_at id.now (rows_of (found_of found.now)) }
{
    match found.get_str(id) {
        Some(text) => text,
        None => "",
    }
}

fn number_at(found: &ArgMatches<'_>, id: &str) -> u64
    ensures { result ≡ spec.number_at id.now (rows_of (found_of found.now)) }
{
    match found.get_str(id) {
        Some(text) => number_of(text),
        None => 0,
    }
}

fn count_at(found: &ArgMatches<'_>, id: &str) -> u32
    ensures { result ≡ spec.count_of (spec.number_at id.now (rows_of (found_of found.now))) }
{
    let number = number_at(found, id);
    if number < 1 << 32 { number as u32 } else { 0 }
}

fn small_at(found: &ArgMatches<'_>, id: &str) -> u16
    ensures { result ≡ spec.small_of (spec.number_at id.now (rows_of (found_of found.now))) }
{
    let number = number_at(found, id);
    if number < 1 << 16 { number as u16 } else { 0 }
}

fn number_of(text: &str) -> u64
    ensures { result ≡ spec.number_of text.now }
{
    match text.parse::<u64>() {
        Ok(number) => number,
        Err(_) => 0,
    }
}
