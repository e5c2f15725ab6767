//! Laws of this crate's definitions. Each is the contract of a function that does nothing.
ghost use Rattle.std.specs.Prelude.{◌≡◌, ℕ, ◌++◌, List, [], Some};
ghost use Rattle.httparse.specs.Grammar.{ReadsRequest, RequestHead};
ghost use Rattle.http_wire.specs.Answer.{shown};
ghost use Rattle.http_wire.specs.Front.{Bad, Whole, front};
ghost use Rattle.http_wire.specs.Head.{Head, head_of, head_said};
ghost use Rattle.http_wire.specs.declared.answers.Answer.{Answer};
ghost use Rattle.http_wire.specs.declared.faults.HeadFault.{HeadFault};

use crate::{FIELD_LINES, HEAD_BYTES};

/// The bytes spell a head exactly where they are a request head of `httparse`'s grammar without blank lines
/// before it, and the head is what that one says.
pub fn head_is_of_the_grammar()
    ensures sound { (bytes : List ℕ) (head : Head) → head_of bytes ≡ Some head
        → (tree : RequestHead) × ReadsRequest bytes tree [] × (tree.blank ≡ []) × (head ≡ head_said tree) }
    ensures complete { (bytes : List ℕ) (tree : RequestHead) → ReadsRequest bytes tree []
        → tree.blank ≡ [] → head_of bytes ≡ Some (head_said tree) }
{}

/// More bytes after a stream don't change a whole or a refused head at its front.
pub fn front_stays()
    ensures whole { (bytes more : List ℕ) (head : Head) (rest : List ℕ) → front bytes ≡ Whole head rest
        → front (bytes ++ more) ≡ Whole head (rest ++ more) }
    ensures bad { (bytes more : List ℕ) (fault : HeadFault) → front bytes ≡ Bad fault
        → front (bytes ++ more) ≡ Bad fault }
{}

/// The body stands right after the head, which doesn't depend on it.
pub fn body_follows_head()
    ensures { (answer : Answer) → shown answer ≡ shown (record answer { body = [] }) ++ answer.body }
{}

/// The most bytes of a head, and the most field lines.
pub fn limits()
    ensures head { HEAD_BYTES ≡ 8192 }
    ensures fields { FIELD_LINES ≡ 64 }
{}
