//! The elements of the tokens so far.

ghost use Rattle.std.specs.Prelude.{◌≡◌, ◌+◌, ℕ, List, OnOk, [], length, slice_get};
ghost use Rattle.std.specs.Bool.{OnTrue};
ghost use Rattle.std.specs.Option.{option_copied};
ghost use Rattle.xml_subset.specs.Document.{may_stand};
ghost use Rattle.xml_subset.specs.Token.{Text, Open, Empty, Close, End, shown};
ghost use Rattle.xml_subset.specs.Tree.{IsSound, Takes, begun, has_begun, names};

use crate::cut::{is_all_white, trimmed};
use crate::document::{Element, MAX_DEPTH};
use crate::token::Token;
use std::alloc::{AllocError, Global};

/// An element that is open.
#[derive(Drop)]
pub struct Opened<'a> {
    /// Its place among the elements.
    pub index: usize,
    pub name: &'a [u8],
    /// Its own text so far.
    pub text: Vec<u8>,
}

/// The elements of the tokens so far.
#[derive(Drop)]
pub struct Tree<'a> {
    pub alloc: Global,
    /// Those that have begun, in the order of their tags; an open one has no text yet.
    pub elements: Vec<Element<'a>>,
    /// Those that are open, the innermost last.
    pub open: Vec<Opened<'a>>,
}

impl<'a> Tree<'a> {
    pub(crate) fn new(alloc: Global) -> Tree<'a>
        ensures elements { result.elements.items ≡ [] }
        ensures none_open { result.open.items ≡ [] }
    {
        Tree {
            alloc,
            elements: Vec::new(alloc),
            open: Vec::new(alloc),
        }
    }

    fn has_begun(&self) -> bool
        ensures { result ≡ has_begun (begun self.now) }
    {
        !self.elements.is_empty()
    }

    /// The name of the innermost open element.
    fn innermost(&self) -> Option<&'a [u8]>
        ensures { option_copied result ≡ slice_get (names self.now.open.items) 0 }
    {
        Some(self.open.last()?.name)
    }

    /// Whether the token may follow the tokens so far.
    pub(crate) fn may_stand(&self, root: &[u8], token: &Token) -> bool
        ensures { result ≡ may_stand root.now (names self.now.open.items) (has_begun (begun self.now)) (shown token.now) }
    {
        match (*token, self.innermost()) {
            (Token::Comment, _) => true,
            (Token::Open(name) | Token::Empty(name), None) => !self.has_begun() && name == root,
            (Token::Open(_) | Token::Empty(_), Some(_)) => self.open.len() < MAX_DEPTH,
            (Token::Text(bytes), None) => is_all_white(bytes),
            (Token::Character(_) | Token::Close(_), None) => false,
            (Token::Text(_) | Token::Character(_), Some(_)) => true,
            (Token::Close(name), Some(innermost)) => name == innermost,
        }
    }

    /// Whether the text may end here.
    pub(crate) fn is_whole(&self) -> bool
        ensures value { (root : List ℕ) → result ≡ may_stand root (names self.now.open.items) (has_begun (begun self.now)) End }
        ensures closed { OnTrue result (self.now.open.items ≡ []) }
    {
        self.open.is_empty() && self.has_begun()
    }

    /// Adds to the text of the innermost open element.
    fn add_text(&mut self, bytes: &[u8]) -> Result<(), AllocError>
        requires { IsSound self.old }
        ensures { OnOk result (Takes self.old self.new (Text bytes.now)) }
    {
        if let Some(mut innermost) = self.open.pop() {
            innermost.text.extend_from_slice(bytes)?;
            self.open.push(innermost)?;
        }
        Ok(())
    }

    /// An element that begins here, without text.
    fn element(&self, name: &'a [u8]) -> Element<'a>
        ensures depth { result.depth ≡ length self.now.open.items + 1 }
        ensures name { result.name.now ≡ name.now }
        ensures text { result.text.items ≡ [] }
    {
        Element {
            depth: self.open.len() + 1,
            name,
            text: Vec::new(self.alloc),
        }
    }

    /// Begins an element that has nothing inside.
    fn add_empty(&mut self, name: &'a [u8]) -> Result<(), AllocError>
        requires { IsSound self.old }
        ensures { OnOk result (Takes self.old self.new (Empty name.entry.now)) }
    {
        let element = self.element(name);
        self.elements.push(element)?;
        Ok(())
    }

    /// Begins an element that is open then.
    fn begin(&mut self, name: &'a [u8]) -> Result<(), AllocError>
        requires { IsSound self.old }
        ensures { OnOk result (Takes self.old self.new (Open name.entry.now)) }
    {
        let opened = Opened {
            index: self.elements.len(),
            name,
            text: Vec::new(self.alloc),
        };
        let element = self.element(name);
        self.elements.push(element)?;
        self.open.push(opened)?;
        Ok(())
    }

    /// Ends the innermost open element, which gets its text.
    fn end(&mut self, name: &[u8]) -> Result<(), AllocError>
        requires { IsSound self.old }
        ensures { OnOk result (Takes self.old self.new (Close name.now)) }
    {
        if let Some(innermost) = self.open.pop() {
            let text = Vec::from_slice(self.alloc, trimmed(&innermost.text))?;
            self.elements[innermost.index].text = text;
        }
        Ok(())
    }

    /// Takes one more token.
    pub(crate) fn take(&mut self, token: Token<'a>) -> Result<(), AllocError>
        requires { IsSound self.old }
        ensures { OnOk result (Takes self.old self.new (shown token.entry)) }
    {
        match token {
            Token::Text(bytes) => self.add_text(bytes),
            Token::Character(c) => {
                let mut room = [0; 4];
                self.add_text(c.encode_utf8(&mut room).as_bytes())
            }
            Token::Comment => Ok(()),
            Token::Open(name) => self.begin(name),
            Token::Empty(name) => self.add_empty(name),
            Token::Close(name) => self.end(name),
        }
    }
}
