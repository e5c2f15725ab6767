// Names that stand for texts in the steps of cases.
use crate::books::{Book, Named, text_with};
use crate::entries::Entry;
use crate::reading::CaseFault;
use std::alloc::{AllocError, Global};

/// The names so far.
#[derive(Drop)]
pub(crate) struct Names {
    book: Book,
    all: Vec<Named>,
}

/// The text that bytes are.
fn text_of(alloc: Global, bytes: &[u8]) -> Result<String, CaseFault> {
    Ok(String::from_utf8_lossy(alloc, bytes)?)
}

impl Names {
    pub(crate) fn new(alloc: Global) -> Names {
        Names {
            book: Book::new(alloc),
            all: Vec::new(alloc),
        }
    }

    fn push(&mut self, alloc: Global, name: &str, text: String) -> Result<(), CaseFault> {
        if text_with(&self.all, name).is_some() {
            return Err(CaseFault::Text);
        }
        let name: String = String::from_str(alloc, name)?;
        let named = Named { name, text };
        Ok(self.all.push(named).map_err(AllocError::from)?)
    }

    /// Names the lines of text of an entry.
    pub(crate) fn name_text(&mut self, alloc: Global, entry: &Entry) -> Result<(), CaseFault> {
        let name: &str = entry.rest.as_str();
        self.book.name(alloc, entry)?;
        let bytes: Vec<u8> = self.book.bytes(alloc, name)?;
        let text: String = text_of(alloc, bytes.as_slice())?;
        self.push(alloc, name, text)
    }

    /// Names what stands after the first blank.
    pub(crate) fn name_word(&mut self, alloc: Global, rest: &str) -> Result<(), CaseFault> {
        let (name, text) = rest.split_once(' ').ok_or(CaseFault::Text)?;
        let text: String = String::from_str(alloc, text)?;
        self.push(alloc, name, text)
    }

    /// Names texts, each so many times, and lines of text after them.
    pub(crate) fn name_parts(&mut self, alloc: Global, entry: &Entry) -> Result<(), CaseFault> {
        let (name, parts) = entry.rest.as_str().split_once(' ').ok_or(CaseFault::Text)?;
        let mut bytes: Vec<u8> = Vec::new(alloc);
        self.book
            .push_texts(&mut bytes, parts, entry.text.as_str())?;
        let text: String = text_of(alloc, bytes.as_slice())?;
        self.push(alloc, name, text)
    }

    /// What a word stands for.
    fn meaning<'a>(&'a self, word: &'a str) -> &'a str {
        match text_with(&self.all, word) {
            Some(text) => text,
            None if word == "-" => "",
            None => word,
        }
    }

    /// The words of a text, each as what it stands for.
    pub(crate) fn words(&self, alloc: Global, text: &str) -> Result<Vec<String>, AllocError> {
        let mut words: Vec<String> = Vec::new(alloc);
        for word in text.split_whitespace() {
            words.push(String::from_str(alloc, self.meaning(word))?)?;
        }
        Ok(words)
    }

    /// The same, with a blank between two.
    pub(crate) fn spelled(&self, alloc: Global, text: &str) -> Result<String, AllocError> {
        let mut spelled: String = String::new(alloc);
        for word in text.split_whitespace() {
            if !spelled.is_empty() {
                spelled.push(' ')?;
            }
            spelled.push_str(self.meaning(word))?;
        }
        Ok(spelled)
    }
}
