//! The elements of a key.

ghost use Rattle.std.specs.Prelude.{◌≡◌, IfOk, map, reverse};
ghost use Rattle.byte_cuts.specs.Cuts.{significant};
ghost use Rattle.mvn_version.specs.Element.{rank_number, shown};
ghost use Rattle.mvn_version.specs.Key.{element, elements, full_word, is_number, is_release, is_zero, number, word, word_rank};
ghost use Rattle.mvn_version.specs.Order.{end_mark, ended};
ghost use Rattle.mvn_version.specs.Token.{shown as shown_token};

use crate::token::{Mark, Token};
use byte_cuts::bytes::{is, significant};
use std::alloc::{AllocError, Global};

/// The kinds of a key's elements, in rising order.
#[derive(Clone, Copy, Debug, PartialEq, Eq, PartialOrd, Ord)]
pub enum Rank {
    Alpha,
    Beta,
    Milestone,
    Candidate,
    Snapshot,
    End,
    ServicePack,
    Word,
    DashNumber,
    DotNumber,
}

/// An element of a key. Elements compare by their rank, then by the count of digits, then by the bytes.
#[derive(Debug, PartialEq, Eq, PartialOrd, Ord, Drop)]
pub struct Element {
    pub rank: Rank,
    /// How many digits a number has without leading zeros; 0 for a word.
    pub digits: usize,
    /// The digits of a number, the bytes of a word that has no rank of its own, and else nothing.
    pub text: Vec<u8>,
}

fn is_number(text: &[u8]) -> bool
    ensures { result ≡ is_number text.now }
{
    text.iter().all(|c| c.is_ascii_digit())
}

fn is_zero(text: &[u8]) -> bool
    ensures { result ≡ is_zero text.now }
{
    text.iter().all(|c| *c == b'0')
}

fn is_release(word: &[u8]) -> bool
    ensures { result ≡ is_release word.now }
{
    is(word, b"ga") || is(word, b"final") || is(word, b"release")
}

// The word in full, where `joined` says that a digit follows it at once.
fn full_word<'a>(word: &'a [u8], joined: bool) -> &'a [u8]
    ensures { result.now ≡ full_word joined word.now }
{
    match word {
        b"a" if joined => b"alpha",
        b"b" if joined => b"beta",
        b"m" if joined => b"milestone",
        b"cr" => b"rc",
        _ => word,
    }
}

fn word_rank(word: &[u8]) -> Rank
    ensures { rank_number result ≡ word_rank word.now }
{
    if is(word, b"alpha") {
        Rank::Alpha
    } else if is(word, b"beta") {
        Rank::Beta
    } else if is(word, b"milestone") {
        Rank::Milestone
    } else if is(word, b"rc") {
        Rank::Candidate
    } else if is(word, b"snapshot") {
        Rank::Snapshot
    } else if is(word, b"sp") {
        Rank::ServicePack
    } else {
        Rank::Word
    }
}

// The element that stands where a key has ended.
fn end_mark(alloc: Global) -> Element
    ensures { shown result ≡ end_mark }
{
    Element {
        rank: Rank::End,
        digits: 0,
        text: Vec::new(alloc),
    }
}

fn number(alloc: Global, mark: Mark, digits: &[u8]) -> Result<Element, AllocError>
    ensures { IfOk result (λ e. shown e ≡ number mark (significant digits.now)) }
{
    let digits = significant(digits);
    let rank = match mark {
        Mark::Dot => Rank::DotNumber,
        Mark::Dash | Mark::Seam => Rank::DashNumber,
    };
    Ok(Element {
        rank,
        digits: digits.len(),
        text: Vec::from_slice(alloc, digits)?,
    })
}

fn word(alloc: Global, text: &[u8]) -> Result<Element, AllocError>
    ensures { IfOk result (λ e. shown e ≡ word text.now) }
{
    let rank = word_rank(text);
    let kept = if rank == Rank::Word { text } else { &[] };
    Ok(Element {
        rank,
        digits: 0,
        text: Vec::from_slice(alloc, kept)?,
    })
}

fn token_element(alloc: Global, mark: Mark, text: &[u8]) -> Result<Element, AllocError>
    ensures { IfOk result (λ e. shown e ≡ element (record { mark = mark; text = text.now })) }
{
    if is_number(text) {
        number(alloc, mark, text)
    } else {
        word(alloc, text)
    }
}

/// The elements of a key with the mark of its end, from the tokens of a text, the last one first.
pub fn elements(alloc: Global, tokens: &[Token]) -> Result<Vec<Element>, AllocError>
    ensures { IfOk result (λ v. map shown v.items ≡ ended (elements (map shown_token (reverse tokens.now)))) }
{
    let mut elements = Vec::new(alloc);
    elements.push(end_mark(alloc))?;
    // Whether zeros trail that stand before the tokens so far, and whether a digit begins these without a separator.
    let mut trail = true;
    let mut joined = false;
    for token in tokens {
        let text = full_word(token.text, joined);
        joined = token.mark.is_seam();
        if is_release(text) || (trail && is_zero(text)) {
            continue;
        }
        trail = !is_number(text) || !token.mark.is_dot();
        elements.push(token_element(alloc, token.mark, text)?)?;
    }
    elements.reverse();
    Ok(elements)
}
