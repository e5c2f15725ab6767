// Entries: a line that begins with a word, and the lines of text after it.
ghost use Rattle.std.specs.Prelude.{◌≡◌, ◌+◌, ◌<◌, ◌↔◌, IfOk, IfErr, OnOk, IsErrOf, vec_len};
ghost use Rattle.case_texts.specs.Marks.{mark_of};
ghost use Rattle.case_texts.specs.Faults.{HasLine};
ghost use Rattle.case_texts.specs.declared.entries.EntriesFault.TheVariants.{OutOfMemory};

use std::alloc::{AllocError, Global};

/// What a line is.
#[derive(Clone, Copy, PartialEq, Eq)]
enum Mark {
    Nothing,
    Text,
    Entry,
}

/// A line that begins with a word, and the lines of text after it.
#[derive(Drop)]
pub struct Entry {
    /// The number of its line, from 1.
    pub line: u64,
    pub ghost numbered: { 0 < line },
    /// Its word.
    pub key: String,
    /// What stands after the word and a blank.
    pub rest: String,
    /// The lines of text, each with its mark and a line end.
    pub text: String,
}

/// Why a text has no entries.
#[derive(Clone, Copy, PartialEq, Eq, Debug)]
pub enum EntriesFault {
    OutOfMemory,
    /// The line with this number is text, and no entry stands above it.
    NoEntry(u64),
}

impl From<AllocError> for EntriesFault {
    ghost from_gives = { λ _ fault. fault ≡ OutOfMemory };

    fn from(_error: AllocError) -> EntriesFault {
        EntriesFault::OutOfMemory
    }
}

fn read_mark(line: &str) -> Mark
    ensures { result ≡ mark_of line.now }
{
    match line.as_bytes() {
        [] | [b'#', ..] => Mark::Nothing,
        [b'>' | b'|', ..] => Mark::Text,
        _ => Mark::Entry,
    }
}

/// The entry that a line begins.
fn begun(alloc: Global, number: u64, line: &str) -> Result<Entry, AllocError>
    requires { 0 < number }
    ensures { IfOk result (λ entry. entry.line ≡ number) }
{
    let (key, rest) = line.split_once(' ').unwrap_or((line, ""));
    Ok(Entry {
        line: number,
        key: String::from_str(alloc, key)?,
        rest: String::from_str(alloc, rest)?,
        text: String::new(alloc),
    })
}

impl Entry {
    fn push_text(&mut self, line: &str) -> Result<(), AllocError> {
        self.text.push_str(line)?;
        self.text.push_str("\n")
    }
}

/// Adds a line to the entries above it.
fn add_line(
    alloc: Global,
    entries: &mut Vec<Entry>,
    number: u64,
    line: &str,
) -> Result<(), EntriesFault>
    requires { 0 < number }
    ensures nothing { mark_of line.now ≡ Mark.Nothing → entries.new.items ≡ entries.old.items }
    ensures text { mark_of line.now ≡ Mark.Text → vec_len entries.new ≡ vec_len entries.old }
    ensures entry { mark_of line.now ≡ Mark.Entry → OnOk result (vec_len entries.new ≡ vec_len entries.old + 1) }
    ensures refused { IsErrOf result (EntriesFault.NoEntry number) → (mark_of line.now ≡ Mark.Text) × (vec_len entries.old ≡ 0) }
    ensures line { IfErr result HasLine }
{
    match read_mark(line) {
        Mark::Nothing => Ok(()),
        Mark::Text => match entries.last_mut() {
            Some(entry) => Ok(entry.push_text(line)?),
            None => Err(EntriesFault::NoEntry(number)),
        },
        Mark::Entry => {
            let entry = begun(alloc, number, line)?;
            Ok(entries.push(entry).map_err(AllocError::from)?)
        }
    }
}

/// The entries of a text, in their order.
pub fn read_entries(alloc: Global, text: &str) -> Result<Vec<Entry>, EntriesFault>
    ensures { IfErr result HasLine }
{
    let mut entries: Vec<Entry> = Vec::new(alloc);
    let mut number: u64 = 0;
    for line in text.lines() {
        number = number.saturating_add(1);
        add_line(alloc, &mut entries, number, line)?;
    }
    Ok(entries)
}
