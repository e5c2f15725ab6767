// Cases, entry by entry.
ghost use Rattle.std.specs.Prelude.{IfErr};
ghost use Rattle.case_texts.specs.Faults.{HasLine};
ghost use Rattle.case_texts.specs.Refusals.{IsPlaced};

use crate::books::Book;
use crate::cases::{Case, Pieces, Stored};
use crate::entries::{EntriesFault, Entry, read_entries};
use crate::escapes::{WrittenFault, push_line, written};
use crate::failures::Object;
use crate::words;
use std::alloc::{AllocError, Global};
use std::fmt;

/// Why a line says no part of a case.
#[derive(Clone, Copy, PartialEq, Eq, Debug)]
pub enum CaseFault {
    OutOfMemory,
    /// Its word is none of a file of cases.
    Word,
    /// It stands in front of the first case.
    NoCase,
    /// A number is none.
    Number,
    /// A text is named twice, or was not named, or is missing.
    Text,
    /// A backslash is followed by nothing that it may stand before.
    Escape,
    /// There is text, and no entry takes it.
    NoPlace,
}

impl fmt::Display for CaseFault {
    fn fmt<W: fmt::Write>(&self, f: &mut fmt::Formatter<W>) -> fmt::Result {
        match self {
            CaseFault::OutOfMemory => write!(f, "out of memory"),
            CaseFault::Word => write!(f, "no word of a case"),
            CaseFault::NoCase => write!(f, "no case above it"),
            CaseFault::Number => write!(f, "no number"),
            CaseFault::Text => write!(f, "no text, or one too many"),
            CaseFault::Escape => write!(f, "no escape"),
            CaseFault::NoPlace => write!(f, "text that nothing takes"),
        }
    }
}

impl From<AllocError> for CaseFault {
    fn from(_error: AllocError) -> CaseFault {
        CaseFault::OutOfMemory
    }
}

impl From<WrittenFault> for CaseFault {
    fn from(fault: WrittenFault) -> CaseFault {
        match fault {
            WrittenFault::OutOfMemory => CaseFault::OutOfMemory,
            WrittenFault::Escape => CaseFault::Escape,
        }
    }
}

/// Why a file of cases is refused, and the line from 1; 0 when memory ran out.
#[derive(Clone, Copy, PartialEq, Eq, Debug)]
pub struct Refusal {
    pub line: u64,
    pub fault: CaseFault,
}

impl From<EntriesFault> for Refusal {
    ghost from_gives = { λ fault refusal. HasLine fault → IsPlaced refusal };

    fn from(fault: EntriesFault) -> Refusal {
        match fault {
            EntriesFault::OutOfMemory => Refusal {
                line: 0,
                fault: CaseFault::OutOfMemory,
            },
            EntriesFault::NoEntry(line) => Refusal {
                line,
                fault: CaseFault::NoPlace,
            },
        }
    }
}

/// The number that a word is.
fn number_in(word: &str) -> Result<u64, CaseFault> {
    words::number_of(word).ok_or(CaseFault::Number)
}

/// What one number says.
fn number_of(entry: &Entry) -> Result<u64, CaseFault> {
    number_in(entry.rest.as_str())
}

fn size_of(entry: &Entry) -> Result<usize, CaseFault> {
    usize::try_from(number_of(entry)?).map_err(|_| CaseFault::Number)
}

/// Which call of an object fails.
fn set_failing(case: &mut Case, entry: &Entry) -> Result<(), CaseFault> {
    let Some((object, call)) = entry.rest.split_once(' ') else {
        return Err(CaseFault::Number);
    };
    let object: Object = Object::of(object).ok_or(CaseFault::Word)?;
    case.script.failing = Some((object, number_in(call)?));
    Ok(())
}

fn pieces_of(entry: &Entry) -> Result<Pieces, CaseFault> {
    match entry.rest.as_str() {
        "whole" => Ok(Pieces::WholeAndBytes),
        "blocks" => Ok(Pieces::Blocks),
        "bytes" => Ok(Pieces::Bytes),
        _ => Err(CaseFault::Word),
    }
}

/// The words of the program.
fn words_of(alloc: Global, entry: &Entry) -> Result<Vec<String>, CaseFault> {
    let mut words: Vec<String> = Vec::new(alloc);
    for word in entry.rest.split_whitespace() {
        words
            .push(String::from_str(alloc, word)?)
            .map_err(AllocError::from)?;
    }
    Ok(words)
}

/// A blob that is there before all else.
fn stored_of(alloc: Global, entry: &Entry) -> Result<Stored, CaseFault> {
    Ok(Stored {
        blob: number_of(entry)?,
        bytes: written(alloc, entry.text.as_str(), 1)?,
    })
}

/// The blobs that are there in the end.
fn blobs_of(alloc: Global, entry: &Entry) -> Result<Vec<u64>, CaseFault> {
    let mut blobs: Vec<u64> = Vec::new(alloc);
    for word in entry.rest.split_whitespace() {
        blobs.push(number_in(word)?).map_err(AllocError::from)?;
    }
    Ok(blobs)
}

/// The line that has to be printed.
fn line_of(alloc: Global, entry: &Entry) -> Result<Vec<u8>, CaseFault> {
    let mut line: Vec<u8> = Vec::new(alloc);
    push_line(&mut line, entry.rest.as_bytes(), b"\n", 1)?;
    Ok(line)
}

/// What the remote answers to one exchange.
fn answer_of(alloc: Global, book: &Book, entry: &Entry) -> Result<Vec<u8>, CaseFault> {
    let mut answer: Vec<u8> = Vec::new(alloc);
    book.push_parts(&mut answer, entry)?;
    Ok(answer)
}

/// What an entry says of a case by a number.
fn set_number(case: &mut Case, entry: &Entry) -> Result<(), CaseFault> {
    match entry.key.as_str() {
        "moment" => case.moment = number_of(entry)?,
        "step" => case.step = number_of(entry)?,
        "exchanges" => case.exchanges = Some(number_of(entry)?),
        "lost" => case.lost.push(number_of(entry)?).map_err(AllocError::from)?,
        "room" => case.script.room = size_of(entry)?,
        "line-room" => case.script.line_room = size_of(entry)?,
        "status" => case.status = u8::try_from(number_of(entry)?).map_err(|_| CaseFault::Number)?,
        _ => return Err(CaseFault::Word),
    }
    Ok(())
}

/// What an entry without lines of text says of a case.
fn set_value(alloc: Global, case: &mut Case, entry: &Entry) -> Result<(), CaseFault> {
    match entry.key.as_str() {
        "words" => case.words = words_of(alloc, entry)?,
        "fails" => set_failing(case, entry)?,
        "pieces" => case.pieces = pieces_of(entry)?,
        "line" => case.last.line = line_of(alloc, entry)?,
        "no-line" => case.last.line = Vec::new(alloc),
        "next" => case.begin_next(alloc)?,
        "blobs" => case.blobs = Some(blobs_of(alloc, entry)?),
        _ => return set_number(case, entry),
    }
    Ok(())
}

/// What an entry says of a case.
fn set(alloc: Global, book: &Book, case: &mut Case, entry: &Entry) -> Result<(), CaseFault> {
    match entry.key.as_str() {
        "send" => book.push_parts(&mut case.last.input, entry),
        "answer" => book.push_parts(&mut case.last.answers, entry),
        "before" => book.push_parts(&mut case.before, entry),
        "given" => book.push_parts(&mut case.given, entry),
        "settings" => {
            case.settings.clear();
            book.push_parts(&mut case.settings, entry)
        }
        "remote" => {
            let answer = answer_of(alloc, book, entry)?;
            Ok(case.remote.push(answer).map_err(AllocError::from)?)
        }
        "stored" => {
            let stored = stored_of(alloc, entry)?;
            Ok(case.stored.push(stored).map_err(AllocError::from)?)
        }
        _ if !entry.text.is_empty() => Err(CaseFault::NoPlace),
        _ => set_value(alloc, case, entry),
    }
}

/// The case that an entry begins.
fn begun(alloc: Global, book: &Book, entry: &Entry) -> Result<Case, CaseFault> {
    if entry.rest.is_empty() {
        return Err(CaseFault::NoCase);
    }
    if !entry.text.is_empty() {
        return Err(CaseFault::NoPlace);
    }
    let settings: Vec<u8> = book.bytes(alloc, "SETTINGS")?;
    Ok(Case::new(alloc, entry.rest.as_str(), settings.as_slice())?)
}

/// Takes in an entry.
fn add(
    alloc: Global,
    book: &mut Book,
    cases: &mut Vec<Case>,
    entry: &Entry,
) -> Result<(), CaseFault> {
    match entry.key.as_str() {
        "text" => book.name(alloc, entry),
        "case" => {
            let case = begun(alloc, book, entry)?;
            Ok(cases.push(case).map_err(AllocError::from)?)
        }
        _ => set(
            alloc,
            book,
            cases.last_mut().ok_or(CaseFault::NoCase)?,
            entry,
        ),
    }
}

/// The cases of a text, by the texts that are named so far. The book has the texts that this one names, too.
pub fn read_cases(alloc: Global, book: &mut Book, text: &str) -> Result<Vec<Case>, Refusal>
    ensures { IfErr result IsPlaced }
{
    let mut cases: Vec<Case> = Vec::new(alloc);
    for entry in &read_entries(alloc, text)? {
        if let Err(fault) = add(alloc, book, &mut cases, entry) {
            let line = entry.line;
            return Err(Refusal { line, fault });
        }
    }
    Ok(cases)
}
