// Texts that have a name, and what entries say by them.
use crate::entries::Entry;
use crate::escapes::written;
use crate::reading::CaseFault;
use crate::words::number_of;
use std::alloc::{AllocError, Global};

/// A text and its name.
#[derive(Drop)]
pub(crate) struct Named {
    pub(crate) name: String,
    pub(crate) text: String,
}

/// The text with a name.
pub(crate) fn text_with<'a>(all: &'a [Named], name: &str) -> Option<&'a str> {
    for named in all {
        if named.name.as_str() == name {
            return Some(named.text.as_str());
        }
    }
    None
}

/// The texts that were named so far.
#[derive(Drop)]
pub struct Book {
    texts: Vec<Named>,
}

/// How often a text stands, the numbers that it is written with counted from the first.
#[derive(Clone, Copy)]
struct Times {
    first: u64,
    last: u64,
}

const ONCE: Times = Times { first: 1, last: 1 };

fn number_in(word: &str) -> Result<u64, CaseFault> {
    number_of(word).ok_or(CaseFault::Number)
}

/// `N` or `A..B`.
fn times_of(word: &str) -> Result<Times, CaseFault> {
    match word.split_once("..") {
        Some((first, last)) => Ok(Times {
            first: number_in(first)?,
            last: number_in(last)?,
        }),
        None => Ok(Times {
            first: 1,
            last: number_in(word)?,
        }),
    }
}

/// Adds the bytes of a text that no number changes so many times.
fn push_alike(all: &mut Vec<u8>, text: &str, times: Times) -> Result<(), CaseFault> {
    let bytes: Vec<u8> = written(*all.allocator(), text, times.first)?;
    for _ in times.first..times.last.saturating_add(1) {
        all.extend_from_slice(bytes.as_slice())?;
    }
    Ok(())
}

/// Adds a text so many times.
fn push_times(all: &mut Vec<u8>, text: &str, times: Times) -> Result<(), CaseFault> {
    if text.find("\\#").is_none() {
        return push_alike(all, text, times);
    }
    for number in times.first..times.last.saturating_add(1) {
        let bytes: Vec<u8> = written(*all.allocator(), text, number)?;
        all.extend_from_slice(bytes.as_slice())?;
    }
    Ok(())
}

impl Book {
    pub fn new(alloc: Global) -> Book {
        Book {
            texts: Vec::new(alloc),
        }
    }

    fn text(&self, name: &str) -> Option<&str> {
        text_with(&self.texts, name)
    }

    /// Names the text of an entry.
    pub(crate) fn name(&mut self, alloc: Global, entry: &Entry) -> Result<(), CaseFault> {
        let name: &str = entry.rest.as_str();
        if name.is_empty() || entry.text.is_empty() || self.text(name).is_some() {
            return Err(CaseFault::Text);
        }
        written(alloc, entry.text.as_str(), 1)?;
        let named = Named {
            name: String::from_str(alloc, name)?,
            text: String::from_str(alloc, entry.text.as_str())?,
        };
        Ok(self.texts.push(named).map_err(AllocError::from)?)
    }

    /// The bytes of the text with a name.
    pub(crate) fn bytes(&self, alloc: Global, name: &str) -> Result<Vec<u8>, CaseFault> {
        match self.text(name) {
            Some(text) => Ok(written(alloc, text, 1)?),
            None => Err(CaseFault::Text),
        }
    }

    /// Adds what a word says, `NAME` or `TIMES*NAME`. How often the lines of text after it stand, where it is `TIMES*`.
    fn push_word(&self, all: &mut Vec<u8>, word: &str) -> Result<Option<Times>, CaseFault> {
        let (times, name) = match word.split_once('*') {
            Some((times, name)) => (times_of(times)?, name),
            None => (ONCE, word),
        };
        if name.is_empty() {
            return Ok(Some(times));
        }
        match self.text(name) {
            Some(text) => push_times(all, text, times)?,
            None => return Err(CaseFault::Text),
        }
        Ok(None)
    }

    /// Adds texts by their names, and lines of text after them.
    pub(crate) fn push_texts(
        &self,
        all: &mut Vec<u8>,
        parts: &str,
        text: &str,
    ) -> Result<(), CaseFault> {
        let mut times: Option<Times> = None;
        for word in parts.split_whitespace() {
            if times.is_some() {
                return Err(CaseFault::Text);
            }
            times = self.push_word(all, word)?;
        }
        match times {
            Some(_) if text.is_empty() => Err(CaseFault::Text),
            Some(times) => push_times(all, text, times),
            None => push_times(all, text, ONCE),
        }
    }

    /// Adds what an entry says: texts by their names, and after them its own lines of text.
    pub(crate) fn push_parts(&self, all: &mut Vec<u8>, entry: &Entry) -> Result<(), CaseFault> {
        self.push_texts(all, entry.rest.as_str(), entry.text.as_str())
    }
}
