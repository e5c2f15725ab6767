// The plain, slow program for the version order: a list for each step.

use std::alloc::{AllocError, Global};
use std::cmp::Ordering;
use std::mem;

/// Rank, count of digits, and digits or bytes.
pub(crate) type Element = (u8, usize, Vec<u8>);

const SEAM: u8 = b'~';

static RANKS: [(&[u8], u8); 6] = [
    (b"alpha", 1),
    (b"beta", 2),
    (b"milestone", 3),
    (b"rc", 4),
    (b"snapshot", 5),
    (b"sp", 7),
];

static LEFT_OUT: [&[u8]; 3] = [b"ga", b"final", b"release"];

#[derive(Drop)]
struct Piece {
    mark: u8,
    text: Vec<u8>,
}

fn empty(alloc: Global, mark: u8) -> Piece {
    Piece {
        mark,
        text: Vec::new(alloc),
    }
}

fn lowered(byte: u8) -> u8 {
    match byte {
        b'_' => b'-',
        b'A'..=b'Z' => byte | 0x20,
        other => other,
    }
}

fn is_separator(byte: u8) -> bool {
    byte == b'.' || byte == b'-'
}

// The mark of the piece that a byte begins after a text, or none where it begins none.
fn mark_at(text: &[u8], byte: u8) -> Option<u8> {
    if is_separator(byte) {
        return Some(byte);
    }
    let last = text.last()?;
    (last.is_ascii_digit() != byte.is_ascii_digit()).then_some(SEAM)
}

// Puts a byte after the piece, or after a new piece where it begins one.
fn add(
    alloc: Global,
    pieces: &mut Vec<Piece>,
    piece: &mut Piece,
    byte: u8,
) -> Result<(), AllocError> {
    if let Some(mark) = mark_at(piece.text.as_slice(), byte) {
        pieces.push(mem::replace(piece, empty(alloc, mark)))?;
    }
    if !is_separator(byte) {
        piece.text.push(byte)?;
    }
    Ok(())
}

fn pieces(alloc: Global, text: &str) -> Result<Vec<Piece>, AllocError> {
    let mut pieces = Vec::new(alloc);
    let mut piece = empty(alloc, b'.');
    for byte in text.as_bytes() {
        add(alloc, &mut pieces, &mut piece, lowered(*byte))?;
    }
    pieces.push(piece)?;
    Ok(pieces)
}

fn full<'a>(text: &'a [u8], next: Option<&Piece>) -> &'a [u8] {
    let joined = match next {
        None => false,
        Some(piece) => piece.mark == SEAM,
    };
    match (text, joined) {
        (b"a", true) => b"alpha",
        (b"b", true) => b"beta",
        (b"m", true) => b"milestone",
        (b"cr", _) => b"rc",
        _ => text,
    }
}

fn is_number(text: &[u8]) -> bool {
    for c in text {
        if !c.is_ascii_digit() {
            return false;
        }
    }
    true
}

fn is_zero(text: &[u8]) -> bool {
    for c in text {
        if *c != b'0' {
            return false;
        }
    }
    true
}

// Whether the first token is in a run of zeros that stands before the end, a word or a `-`.
fn is_taken(tokens: &[(u8, &[u8])]) -> bool {
    for n in 0..tokens.len() {
        if !is_zero(tokens[n].1) {
            return false;
        }
        match tokens.get(n + 1) {
            None => return true,
            Some(next) => {
                if next.0 != b'.' || !is_number(next.1) {
                    return true;
                }
            }
        }
    }
    false
}

// The digits without the zeros in front.
fn without_zeros(digits: &[u8]) -> &[u8] {
    for n in 0..digits.len() {
        if digits[n] != b'0' {
            return &digits[n..];
        }
    }
    b""
}

fn rank_of(word: &[u8]) -> u8 {
    for (text, rank) in &RANKS {
        if word == *text {
            return *rank;
        }
    }
    8
}

fn element(alloc: Global, mark: u8, text: &[u8]) -> Result<Element, AllocError> {
    let (rank, count, kept) = if is_number(text) {
        let digits = without_zeros(text);
        (if mark == b'.' { 10 } else { 9 }, digits.len(), digits)
    } else {
        let rank = rank_of(text);
        (rank, 0, if rank == 8 { text } else { b"" })
    };
    Ok((rank, count, Vec::from_slice(alloc, kept)?))
}

fn is_left_out(text: &[u8]) -> bool {
    for word in &LEFT_OUT {
        if text == *word {
            return true;
        }
    }
    false
}

// The mark and the text of each piece that counts.
fn tokens_of(alloc: Global, pieces: &[Piece]) -> Result<Vec<(u8, &[u8])>, AllocError> {
    let mut tokens = Vec::new(alloc);
    for (i, piece) in pieces.iter().enumerate() {
        let text = full(piece.text.as_slice(), pieces.get(i + 1));
        if !is_left_out(text) {
            tokens.push((piece.mark, text))?;
        }
    }
    Ok(tokens)
}

fn elements_of(alloc: Global, tokens: &[(u8, &[u8])]) -> Result<Vec<Element>, AllocError> {
    let mut elements = Vec::new(alloc);
    for (i, token) in tokens.iter().enumerate() {
        if !is_taken(&tokens[i..]) {
            elements.push(element(alloc, token.0, token.1)?)?;
        }
    }
    Ok(elements)
}

pub(crate) fn key(alloc: Global, text: &str) -> Result<Vec<Element>, AllocError> {
    let pieces = pieces(alloc, text)?;
    let tokens = tokens_of(alloc, pieces.as_slice())?;
    elements_of(alloc, tokens.as_slice())
}

pub(crate) fn compare(alloc: Global, left: &[Element], right: &[Element]) -> Ordering {
    let end: Element = (6, 0, Vec::new(alloc));
    for i in 0..left.len().max(right.len()) {
        let order = left
            .get(i)
            .unwrap_or(&end)
            .cmp(right.get(i).unwrap_or(&end));
        if order != Ordering::Equal {
            return order;
        }
    }
    Ordering::Equal
}
