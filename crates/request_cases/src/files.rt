// Settings in files of the system.
use outside_system::file_source;
use repo_config::{Settings, SettingsFault, SourceFault, read_from};
use std::io;
use std::rt::Files;

fn show(rt: &impl Print, path: &str, settings: &Settings) -> io::Result<()> {
    let hosted = settings.hosted().len();
    let proxies = settings.proxies().len();
    let groups = settings.groups().len();
    let grace = settings.grace_seconds();
    println!(rt; "{path}: {hosted} hosted, {proxies} proxy, {groups} group, grace {grace}")
}

// One line on what a file says.
fn report(rt: &(impl Files + AllocGlobal + Print + Eprint), path: &str) -> io::Result<()> {
    let mut source = file_source(rt, path);
    match read_from(rt.alloc(), &mut source) {
        Ok(settings) => show(rt, path, &settings),
        Err(SourceFault::Failed) => println!(rt; "{path}: not read"),
        Err(SourceFault::Refused(SettingsFault::Range(key))) => {
            let key = key.as_str();
            println!(rt; "{path}: Range {key}")
        }
        Err(SourceFault::Refused(_)) => println!(rt; "{path}: refused"),
    }
}

/// Prints a line on what each of these files says.
pub(crate) fn report_all(
    rt: &(impl Files + AllocGlobal + Print + Eprint),
    paths: &[String],
) -> io::Result<()> {
    for path in paths {
        report(rt, path.as_str())?;
    }
    Ok(())
}
