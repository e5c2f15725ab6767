// Members of a group: whose turn it is.
use case_texts::{Tale, copied};
use group_view::{Stance, Turn, next};
use std::alloc::{AllocError, Global};

/// What a member says: `s` answers, `f` asks its remote, any other letter passes.
fn stance_of(letter: u8) -> Stance {
    match letter {
        b's' => Stance::Serve,
        b'f' => Stance::Fetch,
        _ => Stance::Pass,
    }
}

/// The letter of what is done, with the member's place from 0.
fn told_turn(alloc: Global, turn: Turn) -> Result<String, AllocError> {
    match turn {
        Turn::Ask(member) => format!(in alloc; "f{member}"),
        Turn::Serve(member) => format!(in alloc; "s{member}"),
        Turn::Nothing => copied(alloc, "none"),
    }
}

/// Whose turn it is of a file, and of a document.
fn told_turns(alloc: Global, letters: &str) -> Result<String, AllocError> {
    let stances: Vec<Stance> = letters
        .as_bytes()
        .iter()
        .copied()
        .map(stance_of)
        .collect(alloc)?;
    let file: String = told_turn(alloc, next(stances.as_slice(), false))?;
    let document: String = told_turn(alloc, next(stances.as_slice(), true))?;
    format!(in alloc; "{file} {document}")
}

/// What is told of a step about the members of a group.
pub(crate) fn told(alloc: Global, key: &str, words: &[String]) -> Tale {
    match (key, words) {
        ("turns", [letters]) => Ok(Some(told_turns(alloc, letters.as_str())?)),
        _ => Ok(None),
    }
}
