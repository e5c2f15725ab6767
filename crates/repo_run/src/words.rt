//! What the words of the command line ask for.
ghost use Rattle.std.specs.Prelude.{◌≡◌, [], map, IfOk};
ghost use Rattle.std.specs.String.{string_bytes};
ghost use Rattle.repo_run.specs.Words.{asked, asked_by, over_folder};

use crate::actions::{Action, Wanted};
use command_words::{WordsFault, read_words};
use outside::NoMemory;
use std::alloc::{AllocError, Global};
use texts::Text;

fn empty(alloc: Global) -> Text
    ensures { result ≡ [] }
{
    Text::from_string(String::new(alloc))
}

fn nothing(alloc: Global) -> Wanted
    ensures { result ≡ asked_by None }
{
    Wanted {
        command: Action::Nothing,
        settings: empty(alloc),
        folder: empty(alloc),
        at: 0,
        step: 0,
        port: 0,
    }
}

fn over_folder(command: Action, settings: Text, folder: Text) -> Wanted
    ensures { result ≡ over_folder command settings folder }
{
    Wanted {
        command,
        settings,
        folder,
        at: 0,
        step: 0,
        port: 0,
    }
}

fn asked_by(alloc: Global, words: command_words::Wanted) -> Wanted
    ensures { result ≡ asked_by (Some words) }
{
    match words {
        command_words::Wanted::Replay { settings, at, step } => Wanted {
            command: Action::Replay,
            settings,
            folder: empty(alloc),
            at,
            step,
            port: 0,
        },
        command_words::Wanted::Check { settings, data } => over_folder(
            Action::Check,
            settings,
            data,
        ),
        command_words::Wanted::Clean { settings, data } => over_folder(
            Action::Clean,
            settings,
            data,
        ),
        command_words::Wanted::Serve {
            settings,
            data,
            port,
        } => Wanted {
            command: Action::Serve,
            settings,
            folder: data,
            at: 0,
            step: 0,
            port,
        },
        command_words::Wanted::Demo { from, calls } => over_folder(
            Action::Demo { from, calls },
            empty(alloc),
            empty(alloc),
        ),
    }
}

/// Reads the words after the program's name: `replay SETTINGS [--at T] [--step S]`, T up to 253402207200 and S up to 86400, or
/// `check SETTINGS DATA`, `clean SETTINGS DATA` or `serve SETTINGS DATA PORT`, PORT from 1 to 65535, or `demo --from N --calls M`,
/// N up to 65535 and M up to 100000; all else asks for nothing.
pub fn wanted(alloc: Global, words: &[String]) -> Result<Wanted, NoMemory>
    ensures { IfOk result (λ wanted. wanted ≡ asked (map string_bytes words.now)) }
{
    match read_words(alloc, words) {
        Ok(words) => Ok(asked_by(alloc, words)),
        Err(WordsFault::Refused) => Ok(nothing(alloc)),
        Err(WordsFault::NoMemory) => Err(AllocError),
    }
}
