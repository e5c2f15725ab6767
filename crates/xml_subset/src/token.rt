//! Tokens.

ghost use Rattle.std.specs.Prelude.{◌≡◌, ◌≤◌, length};
ghost use Rattle.std.specs.Option.{option_map};
ghost use Rattle.std.specs.List.{prefix_len};
ghost use Rattle.xml_subset.specs.Token as spec;
ghost use Rattle.xml_subset.specs.Token.{shown};

use crate::cut::{after, name, without_white};
use crate::reference::reference;
use crate::tag::tag_rest;
use byte_cuts::bytes::behind;

/// A token of a text.
#[derive(Clone, Copy)]
pub enum Token<'a> {
    /// Character data.
    Text(&'a [u8]),
    /// A reference to a character.
    Character(char),
    Comment,
    /// A tag that opens an element of this name.
    Open(&'a [u8]),
    /// The tag of an element of this name that has nothing inside.
    Empty(&'a [u8]),
    /// A tag that closes an element of this name.
    Close(&'a [u8]),
}

fn is_text_byte(byte: u8) -> bool
    ensures { result ≡ spec.is_text_byte byte }
{
    !matches!(byte, b'<' | b'&')
}

/// How many bytes of character data there are at the front.
fn data_len(text: &[u8]) -> usize
    ensures value { result ≡ prefix_len spec.is_text_byte text.now }
    ensures bound { result ≤ length text.now }
{
    text.iter().take_while(|c| is_text_byte(**c)).count()
}

/// The comment after `<!--`.
fn comment(text: &[u8]) -> Option<(Token<'_>, &[u8])>
    ensures { option_map (λ cut. (shown cut.0, cut.1.now)) result ≡ spec.comment text.now }
{
    let rest = after(b"-->", text)?;
    Some((Token::Comment, rest))
}

/// The close tag after `</`.
fn close_tag(text: &[u8]) -> Option<(Token<'_>, &[u8])>
    ensures { option_map (λ cut. (shown cut.0, cut.1.now)) result ≡ spec.close_tag text.now }
{
    let (name, rest) = name(text)?;
    let rest = behind(b">", without_white(rest))?;
    Some((Token::Close(name), rest))
}

/// The open or empty tag after `<`.
fn open_tag(text: &[u8]) -> Option<(Token<'_>, &[u8])>
    ensures { option_map (λ cut. (shown cut.0, cut.1.now)) result ≡ spec.open_tag text.now }
{
    let (name, rest) = name(text)?;
    let (is_empty, rest) = tag_rest(rest)?;
    let token = if is_empty {
        Token::Empty(name)
    } else {
        Token::Open(name)
    };
    Some((token, rest))
}

/// The tag or comment after `<`.
fn markup(text: &[u8]) -> Option<(Token<'_>, &[u8])>
    ensures { option_map (λ cut. (shown cut.0, cut.1.now)) result ≡ spec.markup text.now }
{
    if let Some(rest) = behind(b"!--", text) {
        comment(rest)
    } else if let Some(rest) = behind(b"/", text) {
        close_tag(rest)
    } else {
        open_tag(text)
    }
}

/// The reference after `&`.
fn referred(text: &[u8]) -> Option<(Token<'_>, &[u8])>
    ensures { option_map (λ cut. (shown cut.0, cut.1.now)) result ≡ spec.referred text.now }
{
    let (character, rest) = reference(text)?;
    Some((Token::Character(character), rest))
}

/// The first token of a text, and what follows it.
#[tactic(auto, unfolding(crate::specs::Token::first_token))]
pub(crate) fn first_token(text: &[u8]) -> Option<(Token<'_>, &[u8])>
    ensures { option_map (λ cut. (shown cut.0, cut.1.now)) result ≡ spec.first_token text.now }
{
    match text {
        [] => None,
        [b'<', rest @ ..] => markup(rest),
        [b'&', rest @ ..] => referred(rest),
        [_, ..] => {
            let (data, rest) = text.split_at(data_len(text));
            Some((Token::Text(data), rest))
        }
    }
}
