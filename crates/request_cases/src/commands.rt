// Words of the command line.
use case_texts::{Tale, copied};
use command_words::{Wanted, WordsFault, read_words};
use std::alloc::{AllocError, Global};
use texts::Text;

/// Words over a folder.
fn over_folder(
    alloc: Global,
    name: &str,
    settings: &Text,
    data: &Text,
) -> Result<String, AllocError> {
    let settings = settings.as_str();
    let data = data.as_str();
    format!(in alloc; "{name} {settings} {data}")
}

/// What was read: the settings, the moment and the step of a replay, the two numbers of a demonstration, and the words themselves of others.
fn shown(alloc: Global, wanted: &Wanted) -> Result<String, AllocError> {
    match wanted {
        Wanted::Replay { settings, at, step } => {
            let settings = settings.as_str();
            format!(in alloc; "{settings} {at} {step}")
        }
        Wanted::Check { settings, data } => over_folder(alloc, "check", settings, data),
        Wanted::Clean { settings, data } => over_folder(alloc, "clean", settings, data),
        Wanted::Serve {
            settings,
            data,
            port,
        } => {
            let folder = over_folder(alloc, "serve", settings, data)?;
            format!(in alloc; "{folder} {port}")
        }
        Wanted::Demo { from, calls } => format!(in alloc; "demo {from} {calls}"),
    }
}

/// Words of which nothing is known.
fn read_plainly(alloc: Global, words: &[String]) -> Result<Wanted, WordsFault> {
    read_words(alloc, words)
}

/// What is told of a step about the command line.
pub(crate) fn told(alloc: Global, key: &str, words: &[String]) -> Tale {
    if key != "command" {
        return Ok(None);
    }
    Ok(Some(match read_plainly(alloc, words) {
        Ok(wanted) => shown(alloc, &wanted)?,
        Err(WordsFault::Refused) => copied(alloc, "refused")?,
        Err(WordsFault::NoMemory) => copied(alloc, "no memory")?,
    }))
}
