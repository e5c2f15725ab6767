// The plain, slow program for the front of a stream: it sees all bytes at once and cuts them into lines. The calls of a wire are
// compared with it.

ghost use Rattle.std.specs.Prelude.{◌≤◌, length, IfSome};

use std::alloc::{AllocError, Global};

// A part with a mark after it.
fn add(line: &mut Vec<u8>, part: &[u8], mark: u8) -> Result<(), AllocError> {
    line.extend_from_slice(part)?;
    line.push(mark)?;
    Ok(())
}

/// The front of a request's line: method, target and digit of HTTP/1.x.
pub(crate) fn start(
    alloc: Global,
    method: &[u8],
    target: &[u8],
    minor: &[u8],
) -> Result<Vec<u8>, AllocError> {
    let mut line = Vec::new(alloc);
    for part in [method, target, minor] {
        add(&mut line, part, b' ')?;
    }
    Ok(line)
}

/// Puts a field after a request's line.
pub(crate) fn add_field(line: &mut Vec<u8>, name: &[u8], value: &[u8]) -> Result<(), AllocError> {
    add(line, name, b'=')?;
    add(line, value, b'|')
}

/// What the bytes begin with, as a request's line or a word, and what is left.
pub(crate) fn front(alloc: Global, bytes: &[u8]) -> Result<(Vec<u8>, &[u8]), AllocError> {
    let window = &bytes[..bytes.len().min(8192)];
    let start = blank_length(window);
    let Some(end) = end_of_head(window, start) else {
        return Ok((Vec::from_slice(alloc, word_of(bytes))?, bytes));
    };
    let (before, rest) = bytes.split_at(end);
    let (said, is_head) = head_of(alloc, &before[start..])?;
    Ok((said, if is_head { rest } else { bytes }))
}

// What is said of bytes in which no head ends.
fn word_of(bytes: &[u8]) -> &'static [u8] {
    if bytes.len() >= 8192 {
        b"TooLong"
    } else if has_only(bytes, b"\r\n") {
        b"Clean"
    } else {
        b"Torn"
    }
}

// The line of a request with this head, or a word and false.
fn head_of(alloc: Global, head: &[u8]) -> Result<(Vec<u8>, bool), AllocError> {
    let lines = parts(alloc, head, b'\n')?;
    read(alloc, lines.as_slice())
}

// The bytes of the blank lines in front.
fn blank_length(window: &[u8]) -> usize
    ensures { result ≤ length window.now }
{
    let mut rest = window;
    for _ in 0..window.len() {
        match rest {
            [b'\n', more @ ..] | [b'\r', b'\n', more @ ..] => rest = more,
            _ => break,
        }
    }
    window.len().saturating_sub(rest.len())
}

// After the first empty line of a head that begins at `start`.
fn end_of_head(window: &[u8], start: usize) -> Option<usize>
    requires { start ≤ length window.now }
    ensures { IfSome result (λ end. (start ≤ end) × (end ≤ length window.now)) }
{
    for i in start..window.len() {
        match &window[i..] {
            [b'\n', b'\n', ..] => return Some(i + 2),
            [b'\n', b'\r', b'\n', ..] => return Some(i + 3),
            _ => {}
        }
    }
    None
}

fn without_end(line: &[u8]) -> &[u8] {
    line.strip_suffix(b"\r").unwrap_or(line)
}

fn refused(alloc: Global, word: &[u8]) -> Result<(Vec<u8>, bool), AllocError> {
    Ok((Vec::from_slice(alloc, word)?, false))
}

fn read(alloc: Global, lines: &[&[u8]]) -> Result<(Vec<u8>, bool), AllocError> {
    // The first line, 64 lines of fields, the empty line, and nothing after its line feed.
    if lines.len() > 67 {
        return refused(alloc, b"TooLong");
    }
    match lines {
        [first, fields @ .., _, _] => read_lines(alloc, without_end(first), fields),
        _ => refused(alloc, b"Broken"),
    }
}

fn read_lines(
    alloc: Global,
    first: &[u8],
    fields: &[&[u8]],
) -> Result<(Vec<u8>, bool), AllocError> {
    let Some((method, target, minor)) = start_of(first) else {
        return refused(alloc, b"Broken");
    };
    let mut line = start(alloc, method, target, minor)?;
    if add_fields(&mut line, fields)? {
        Ok((line, true))
    } else {
        refused(alloc, b"Broken")
    }
}

// The method, the target and the digit of the version.
fn start_of(line: &[u8]) -> Option<(&[u8], &[u8], &'static [u8])> {
    let (method, rest) = halves(line, b' ')?;
    let (target, version) = halves(rest, b' ')?;
    let minor = minor_of(version)?;
    (is_token(method) && is_target(target)).then_some((method, target, minor))
}

fn minor_of(version: &[u8]) -> Option<&'static [u8]> {
    match version {
        b"HTTP/1.0" => Some(b"0"),
        b"HTTP/1.1" => Some(b"1"),
        _ => None,
    }
}

// Puts the fields after a request's line, up to a line that is none. Whether each is one.
fn add_fields(line: &mut Vec<u8>, fields: &[&[u8]]) -> Result<bool, AllocError> {
    for field in fields {
        match pair(without_end(field)) {
            Some((name, value)) => add_field(line, name, value)?,
            None => return Ok(false),
        }
    }
    Ok(true)
}

fn parts(alloc: Global, text: &[u8], mark: u8) -> Result<Vec<&[u8]>, AllocError> {
    text.split(|b| *b == mark).collect(alloc)
}

fn has_only(text: &[u8], bytes: &[u8]) -> bool {
    for b in text {
        if !bytes.contains(b) {
            return false;
        }
    }
    true
}

// Whether each byte is `mark`, or neither below `from` nor 127.
fn is_visible(text: &[u8], mark: u8, from: u8) -> bool {
    for b in text {
        if *b != mark && (*b < from || *b == 127) {
            return false;
        }
    }
    true
}

// RFC 9110, section 5.6.2.
fn is_token(text: &[u8]) -> bool {
    !text.is_empty()
        && has_only(
            text,
            b"!#$%&'*+-.^_`|~0123456789ABCDEFGHIJKLMNOPQRSTUVWXYZabcdefghijklmnopqrstuvwxyz",
        )
}

fn is_target(text: &[u8]) -> bool {
    !text.is_empty() && is_visible(text, b'!', b'!') && str::from_utf8(text).is_ok()
}

// What stands before the first mark and after it.
fn halves(line: &[u8], mark: u8) -> Option<(&[u8], &[u8])> {
    for i in 0..line.len() {
        if line[i] == mark {
            return Some((&line[..i], &line[i + 1..]));
        }
    }
    None
}

// The name and the value of a field line, the value without the blanks at its ends.
fn pair(line: &[u8]) -> Option<(&[u8], &[u8])> {
    let (name, value) = halves(line, b':')?;
    if !is_token(name) || !is_visible(value, b'\t', b' ') {
        return None;
    }
    Some((name, value.trim_ascii()))
}
