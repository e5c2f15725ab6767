//! A version text cut into tokens.

ghost use Rattle.std.specs.Prelude.{◌≡◌, ◌+◌, ◌<◌, IfOk, map, reverse, drop, length, slice_index};
ghost use Rattle.mvn_version.specs.Token.{folded_byte, folded, separator_mark, is_dot, is_seam, seam_follows, shown, tokens};

use std::alloc::{AllocError, Global};

/// What stands before a token.
#[derive(Clone, Copy, Debug)]
pub enum Mark {
    Dot,
    Dash,
    /// Nothing: a digit meets another byte.
    Seam,
}

impl Mark {
    pub fn is_dot(self) -> bool
        ensures { result ≡ is_dot self }
    {
        matches!(self, Mark::Dot)
    }

    pub fn is_seam(self) -> bool
        ensures { result ≡ is_seam self }
    {
        matches!(self, Mark::Seam)
    }
}

/// A part of a version text between two cuts: digits alone, no digit at all, or no byte.
#[derive(Clone, Copy, Debug)]
pub struct Token<'a> {
    pub mark: Mark,
    pub text: &'a [u8],
}

fn folded_byte(c: u8) -> u8
    ensures { result ≡ folded_byte c }
{
    if c == b'_' {
        b'-'
    } else {
        c.to_ascii_lowercase()
    }
}

/// The text without regard to case, with `_` read as `-`.
pub fn folded(alloc: Global, text: &[u8]) -> Result<Vec<u8>, AllocError>
    ensures { IfOk result (λ v. v.items ≡ folded text.now) }
{
    text.iter().map(|c| folded_byte(*c)).collect(alloc)
}

fn separator_mark(c: u8) -> Option<Mark>
    ensures { result ≡ separator_mark c }
{
    match c {
        b'.' => Some(Mark::Dot),
        b'-' => Some(Mark::Dash),
        _ => None,
    }
}

// Whether the text is cut after `i` although no separator stands there.
fn seam_follows(text: &[u8], i: usize) -> bool
    requires { i < length text.now }
    ensures { result ≡ seam_follows (slice_index text.now i) (drop (i + 1) text.now) }
{
    match text[i + 1..].first() {
        None => false,
        Some(next) => {
            separator_mark(*next).is_none() && text[i].is_ascii_digit() != next.is_ascii_digit()
        }
    }
}

/// The tokens of a folded text, the last one first.
pub fn tokens<'a>(alloc: Global, text: &'a [u8]) -> Result<Vec<Token<'a>>, AllocError>
    ensures { IfOk result (λ v. map shown (reverse v.items) ≡ tokens text.now) }
{
    let mut tokens = Vec::new(alloc);
    let mut end = text.len();
    for i in (0..text.len()).rev() {
        if let Some(mark) = separator_mark(text[i]) {
            tokens.push(Token {
                mark,
                text: &text[i + 1..end],
            })?;
            end = i;
        } else if seam_follows(text, i) {
            tokens.push(Token {
                mark: Mark::Seam,
                text: &text[i + 1..end],
            })?;
            end = i + 1;
        }
    }
    tokens.push(Token {
        mark: Mark::Dot,
        text: &text[..end],
    })?;
    Ok(tokens)
}
