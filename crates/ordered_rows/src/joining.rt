//! Texts put together.
ghost use Rattle.std.specs.Prelude.{◌≡◌, ◌++◌, IfOk, string_bytes};

use outside::NoMemory;
use std::alloc::Global;

/// Five texts as one.
pub fn joined(
    alloc: Global,
    base: &str,
    version: &str,
    slash: &str,
    front: &str,
    end: &str,
) -> Result<String, NoMemory>
    ensures { IfOk result (λ t. string_bytes t ≡ base.now ++ (version.now ++ (slash.now ++ (front.now ++ end.now)))) }
{
    let mut text = String::from_str(alloc, base)?;
    text.push_str(version)?;
    text.push_str(slash)?;
    text.push_str(front)?;
    text.push_str(end)?;
    Ok(text)
}
