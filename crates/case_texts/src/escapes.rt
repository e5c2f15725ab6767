// Lines of text, and the bytes that they stand for.
ghost use Rattle.std.specs.Prelude.{◌≡◌, ◌==◌, ◌++◌, false, OnOk, IsOkUnless};
ghost use Rattle.std.specs.List.{list_any};
ghost use Rattle.case_texts.specs.declared.escapes.WrittenFault.TheVariants.{OutOfMemory};

use std::alloc::{AllocError, Global};

/// Why a text stands for no bytes.
#[derive(Clone, Copy, PartialEq, Eq, Debug)]
pub enum WrittenFault {
    OutOfMemory,
    /// A backslash is followed by nothing that it may stand before.
    Escape,
}

impl From<AllocError> for WrittenFault {
    ghost from_gives = { λ _ fault. fault ≡ OutOfMemory };

    fn from(_error: AllocError) -> WrittenFault {
        WrittenFault::OutOfMemory
    }
}

/// How far an escape has come.
#[derive(Clone, Copy, PartialEq, Eq)]
enum Escape {
    Outside,
    Begun,
    High,
    Low(u8),
}

/// The value of a hexadecimal digit.
fn digit_value(byte: u8) -> Result<u8, WrittenFault> {
    match byte {
        b'0'..=b'9' => Ok(byte - b'0'),
        b'a'..=b'f' => Ok(byte - b'a' + 10),
        _ => Err(WrittenFault::Escape),
    }
}

fn push(all: &mut Vec<u8>, byte: u8) -> Result<Escape, WrittenFault> {
    all.push(byte).map_err(AllocError::from)?;
    Ok(Escape::Outside)
}

/// Adds the digits of a number.
fn push_number(all: &mut Vec<u8>, number: u64) -> Result<Escape, WrittenFault> {
    let digits: String = format!(in *all.allocator(); "{number}")?;
    all.extend_from_slice(digits.as_bytes())?;
    Ok(Escape::Outside)
}

/// Adds what stands after a backslash.
fn push_escaped(all: &mut Vec<u8>, byte: u8, number: u64) -> Result<Escape, WrittenFault> {
    match byte {
        b'\\' => push(all, b'\\'),
        b'r' => push(all, b'\r'),
        b'n' => push(all, b'\n'),
        b't' => push(all, b'\t'),
        b'#' => push_number(all, number),
        b'x' => Ok(Escape::High),
        _ => Err(WrittenFault::Escape),
    }
}

/// Adds the next byte of a line.
fn push_byte(
    all: &mut Vec<u8>,
    escape: Escape,
    byte: u8,
    number: u64,
) -> Result<Escape, WrittenFault> {
    match escape {
        Escape::Outside if byte == b'\\' => Ok(Escape::Begun),
        Escape::Outside => push(all, byte),
        Escape::Begun => push_escaped(all, byte, number),
        Escape::High => Ok(Escape::Low(digit_value(byte)?)),
        Escape::Low(high) => push(all, (high % 16) * 16 + digit_value(byte)? % 16),
    }
}

/// Adds the bytes of a line that may have escapes, and its end, unless a backslash takes it away.
fn push_with_escapes(
    all: &mut Vec<u8>,
    line: &[u8],
    end: &[u8],
    number: u64,
) -> Result<(), WrittenFault> {
    let mut escape = Escape::Outside;
    for byte in line {
        escape = push_byte(all, escape, *byte, number)?;
    }
    match escape {
        Escape::Outside => Ok(all.extend_from_slice(end)?),
        Escape::Begun => Ok(()),
        Escape::High | Escape::Low(_) => Err(WrittenFault::Escape),
    }
}

/// Adds the bytes of a line without its mark, and its end, unless a backslash takes it away. `\#` writes the number. At an error
/// some of the bytes may have been added.
pub fn push_line(
    all: &mut Vec<u8>,
    line: &[u8],
    end: &[u8],
    number: u64,
) -> Result<(), WrittenFault>
    // A line without a backslash stands for itself.
    ensures plain { list_any (λ b. b == 92) line.now ≡ false → OnOk result (all.new.items ≡ all.old.items ++ line.now ++ end.now) }
    ensures plain_fault { list_any (λ b. b == 92) line.now ≡ false → IsOkUnless result WrittenFault.OutOfMemory }
{
    if line.contains(&b'\\') {
        return push_with_escapes(all, line, end, number);
    }
    all.extend_from_slice(line)?;
    all.extend_from_slice(end)?;
    Ok(())
}

/// What stands after a line's mark and a blank.
fn unmarked(line: &str) -> &[u8] {
    match line.as_bytes() {
        [_, b' ', rest @ ..] => rest,
        [_, rest @ ..] => rest,
        [] => &[],
    }
}

/// The bytes that the text of an entry stands for, with this number.
pub fn written(alloc: Global, text: &str, number: u64) -> Result<Vec<u8>, WrittenFault> {
    let mut all: Vec<u8> = Vec::new(alloc);
    for line in text.lines() {
        let end: &[u8] = if line.starts_with('>') {
            b"\r\n"
        } else {
            b"\n"
        };
        push_line(&mut all, unmarked(line), end, number)?;
    }
    Ok(all)
}
