//! Documents.

ghost use Rattle.std.specs.Prelude.{◌≡◌, ◌-◌, ◌≤◌, IfOk, IfErr, Ok, Some, map, length};
ghost use Rattle.std.specs.Option.{option_copied};
ghost use Rattle.xml_subset.specs.Document.{IsFaultOf, outline, outline_after, without_declaration, without_mark};
ghost use Rattle.xml_subset.specs.Element.{shown};
ghost use Rattle.xml_subset.specs.declared.document.XmlFault.TheVariants.{Malformed};

use crate::cut::{after, begins_white};
use crate::token::first_token;
use crate::tree::Tree;
use byte_cuts::bytes::behind;
use std::alloc::{AllocError, Global};

/// The greatest depth of an element; the root has depth 1.
pub const MAX_DEPTH: usize = 32;

/// An element of a document.
#[derive(Debug, Drop)]
pub struct Element<'a> {
    /// From 1 for the root to `MAX_DEPTH`.
    pub depth: usize,
    /// The name as written, with its prefix.
    pub name: &'a [u8],
    /// The character data of the element itself, without what stands inside the elements in it: the pieces joined,
    /// references to characters replaced by their UTF-8, and white space taken off both ends.
    pub text: Vec<u8>,
}

/// Why a document was not read.
#[derive(Clone, Copy, Debug, PartialEq, Eq)]
pub enum XmlFault {
    /// It is no document of the subset: the token that starts `at` this byte cannot be cut or may not stand there, or
    /// the text ends here too early. Bytes are counted from 0, a byte order mark included.
    Malformed { at: usize },
    /// There was no memory; it may come at any text.
    NoMemory,
}

impl From<AllocError> for XmlFault {
    ghost use Rattle.std.specs.Prelude.{◌≡◌};
    ghost use Rattle.xml_subset.specs.declared.document.XmlFault.TheVariants.{NoMemory};

    ghost from_gives = { λ _ fault. fault ≡ NoMemory };

    fn from(_fault: AllocError) -> XmlFault {
        XmlFault::NoMemory
    }
}

/// The text after a byte order mark.
fn without_mark(text: &[u8]) -> &[u8]
    ensures { result.now ≡ without_mark text.now }
{
    behind(&[0xEF, 0xBB, 0xBF], text).unwrap_or(text)
}

/// The text after a declaration.
fn without_declaration(text: &[u8]) -> Option<&[u8]>
    ensures { option_copied result ≡ without_declaration text.now }
{
    match behind(b"<?xml", text) {
        Some(rest) if begins_white(rest) => after(b"?>", rest),
        _ => Some(text),
    }
}

/// The elements of a document whose root has this name, in the order of their tags. `NoMemory` may come at any text;
/// `Malformed` tells the place of the first fault from the left. Time and memory are linear in the text.
pub fn outline<'a>(alloc: Global, root: &[u8], text: &'a [u8]) -> Result<Vec<Element<'a>>, XmlFault>
    ensures elements { IfOk result (λ es. outline root.now text.now ≡ Ok (map shown es.items)) }
    ensures fault { IfErr result (IsFaultOf (outline root.now text.now)) }
{
    let unmarked = without_mark(text);
    match without_declaration(unmarked) {
        Some(rest) => elements(alloc, root, text, rest),
        None => Err(malformed(text, unmarked)),
    }
}

/// The fault at the place where this is left of the text.
fn malformed(text: &[u8], rest: &[u8]) -> XmlFault
    requires { length rest.now ≤ length text.now }
    ensures { result ≡ Malformed (length text.now - length rest.now) }
{
    XmlFault::Malformed {
        at: text.len() - rest.len(),
    }
}

/// The elements of a text, of which this follows the declaration.
fn elements<'a>(
    alloc: Global,
    root: &[u8],
    text: &[u8],
    mut rest: &'a [u8],
) -> Result<Vec<Element<'a>>, XmlFault>
    requires { length rest.now ≤ length text.now }
    ensures elements { IfOk result (λ es. outline_after root.now text.now (Some rest.entry.now) ≡ Ok (map shown es.items)) }
    ensures fault { IfErr result (IsFaultOf (outline_after root.now text.now (Some rest.entry.now))) }
{
    let mut tree = Tree::new(alloc);
    while !rest.is_empty() {
        let Some((token, more)) = first_token(rest) else {
            return Err(malformed(text, rest));
        };
        if !tree.may_stand(root, &token) {
            return Err(malformed(text, rest));
        }
        tree.take(token)?;
        rest = more;
    }
    if !tree.is_whole() {
        return Err(malformed(text, rest));
    }
    Ok(tree.elements)
}
