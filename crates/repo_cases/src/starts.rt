// What a start came to, in words.
use core_steps::WorldFault;
use repo_core::{Damaged, StartFault};
use std::alloc::Global;

fn damage_of(alloc: Global, damaged: &Damaged) -> Result<String, WorldFault> {
    let repo: &str = damaged.repo.as_str();
    let path: &str = damaged.path.as_str();
    let recorded: u64 = damaged.recorded.length;
    let found: String = match &damaged.found {
        Some(print) => format!(in alloc; "found {}", print.length)?,
        None => String::from_str(alloc, "found none")?,
    };
    Ok(format!(in alloc; "damaged {repo} {path} recorded {recorded} {found}")?)
}

/// What a start came to, in words.
pub(crate) fn told_start(alloc: Global, fault: &Option<StartFault>) -> Result<String, WorldFault> {
    match fault {
        None => Ok(String::from_str(alloc, "started")?),
        Some(StartFault::Store) => Ok(String::from_str(alloc, "store-fault")?),
        Some(StartFault::Damaged(damaged)) => damage_of(alloc, damaged),
        Some(_) => Ok(String::from_str(alloc, "refused")?),
    }
}
