//! Settings that are refused.
ghost use Rattle.std.specs.Prelude.{◌≡◌, ◌++◌, IfOk, Some};
ghost use Rattle.run_lines.specs.Lines.{refusal_line, settings_line};
ghost use Rattle.run_lines.specs.Printing.{output};
ghost use Rattle.run_lines.specs.Refusing.{Refuses};

use crate::printing::fault;
use crate::statuses::{NO_MEMORY, SETTINGS};
use outside::Sink;
use repo_config::SettingsFault;
use std::alloc::{AllocError, Global};

/// The line of settings that are refused: the name of the refusal, and the key or the id that it names.
fn settings_line(alloc: Global, name: &str, key: &str) -> Result<Vec<u8>, AllocError>
    ensures { IfOk result (λ line. line.items ≡ settings_line (name.now ++ key.now)) }
{
    let mut line = Vec::from_slice(alloc, b"mvnrepod: settings ")?;
    line.extend_from_slice(name.as_bytes())?;
    line.extend_from_slice(key.as_bytes())?;
    line.push(b'\n')?;
    Ok(line)
}

fn line_of(alloc: Global, fault: &SettingsFault) -> Result<Vec<u8>, AllocError>
    ensures { IfOk result (λ line. refusal_line fault.now ≡ Some line.items) }
{
    match fault {
        SettingsFault::NotToml => settings_line(alloc, "NotToml", ""),
        SettingsFault::Unknown(key) => settings_line(alloc, "Unknown ", key.as_str()),
        SettingsFault::Missing(key) => settings_line(alloc, "Missing ", key.as_str()),
        SettingsFault::Range(key) => settings_line(alloc, "Range ", key.as_str()),
        SettingsFault::TwiceNamed(id) => settings_line(alloc, "TwiceNamed ", id.as_str()),
        SettingsFault::NoMember(id) => settings_line(alloc, "NoMember ", id.as_str()),
        SettingsFault::MemberIsGroup(id) => settings_line(alloc, "MemberIsGroup ", id.as_str()),
        SettingsFault::NoMemory => Err(AllocError),
    }
}

/// Prints why settings are refused, or that memory ran out.
pub fn refuse<O: Sink>(alloc: Global, out: &mut O, refusal: &SettingsFault) -> u8
    ensures { Refuses refusal.now (output (O.taken out.old) (O.write_faults out.old)) (output (O.taken out.new) (O.write_faults out.new)) result }
{
    match line_of(alloc, refusal) {
        Ok(line) => fault(out, line.as_slice(), SETTINGS),
        Err(_) => fault(out, b"mvnrepod: memory\n", NO_MEMORY),
    }
}
