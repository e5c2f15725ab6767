// A message that only proofs read: it has no bytes when it runs.
ghost use Rattle.std.specs.Prelude.{◌≡◌, [], ◌++◌};

use boxcar::tag::{Names, Tag};

// How a message goes on: its bytes so far, then the piece.
struct Ends;

impl<'a> Names<(&'a Tag, &'a [u8])> for Ends {
    ghost numbers = { λ parts. parts.0.now.numbers ++ parts.1.now };
}

// The empty message.
pub fn empty() -> Tag
    ensures { result.numbers ≡ [] }
{
    Tag::empty()
}

// The message with `piece` after it.
pub fn joined(message: &Tag, piece: &[u8]) -> Tag
    ensures { result.numbers ≡ message.now.numbers ++ piece.now }
{
    Tag::of::<(&Tag, &[u8]), Ends>(&(message, piece))
}
