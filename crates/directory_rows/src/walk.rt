//! From row to row of a directory, past all that stands deeper.
ghost use Rattle.std.specs.Prelude.{◌≡◌, ◌==◌, ◌++◌, ◌∷◌, false, true, IfOk, string_bytes};
ghost use Rattle.std.specs.List.{list_any};
ghost use Rattle.directory_rows.specs.Walks.{IsPlace, IsStep, IsUpTo, IsWalkOf};
ghost use Rattle.mvn_coords.specs.Layout.{Directory};

use ordered_rows::joined;
use outside::NoMemory;
use std::alloc::Global;

/// Where a walk over the rows of a directory goes on from a row.
#[derive(Drop)]
pub enum Step {
    /// The row may be the directory's.
    Here,
    /// Neither it nor a later one is.
    Past,
    /// Neither it nor a later one before this text is.
    To(String),
}

/// Where a name stands, beside the names that begin with a word.
#[derive(Clone, Copy)]
pub enum Place<'a> {
    /// It begins with the word and has no slash.
    Fits,
    /// A slash follows this front of it.
    Deeper(&'a str),
    /// It comes before all of them.
    Before,
    /// It comes after all of them.
    After,
}

fn place_of<'a>(word: &str, name: &'a str) -> Place<'a>
    ensures { IsPlace word.now name.now result }
{
    if !name.starts_with(word) {
        return if name < word {
            Place::Before
        } else {
            Place::After
        };
    }
    match name.split_once('/') {
        Some((front, _)) => Place::Deeper(front),
        None => Place::Fits,
    }
}

/// Where a walk over the rows of a directory goes on from a path. `base` is the directory's path and a slash, `word` its
/// artifact and a dash, with which the names of its files begin; in a snapshot directory they stand right below it, else
/// in its version directories.
pub fn step_from(
    alloc: Global,
    base: &str,
    word: &str,
    is_snapshot: bool,
    path: &str,
) -> Result<Step, NoMemory>
    ensures { (d : Directory) → IsWalkOf d base.now word.now is_snapshot → IsUpTo base.now path.now
        → IfOk result (IsStep d path.now) }
{
    let Some(below) = path.strip_prefix(base) else {
        return Ok(Step::Past);
    };
    if is_snapshot {
        return step_among(alloc, base, word, below);
    }
    match below.split_once('/') {
        Some((version, name)) => step_below(alloc, base, word, version, name),
        None => Ok(Step::Here),
    }
}

/// The step in a snapshot directory.
fn step_among(alloc: Global, base: &str, word: &str, name: &str) -> Result<Step, NoMemory>
    ensures { (d : Directory) → IsWalkOf d base.now word.now true → IfOk result (IsStep d (base.now ++ name.now)) }
{
    match place_of(word, name) {
        Place::Fits => Ok(Step::Here),
        Place::Deeper(front) => Ok(Step::To(joined(alloc, base, "", "", front, "0")?)),
        Place::Before => Ok(Step::To(joined(alloc, base, "", "", word, "")?)),
        Place::After => Ok(Step::Past),
    }
}

/// The step in a version directory.
fn step_below(
    alloc: Global,
    base: &str,
    word: &str,
    version: &str,
    name: &str,
) -> Result<Step, NoMemory>
    requires { list_any (λ b. b == 47) version.now ≡ false }
    ensures { (d : Directory) → IsWalkOf d base.now word.now false → IfOk result (IsStep d (base.now ++ (version.now ++ 47 ∷ name.now))) }
{
    match place_of(word, name) {
        Place::Fits => Ok(Step::Here),
        Place::Deeper(front) => Ok(Step::To(joined(alloc, base, version, "/", front, "0")?)),
        Place::Before => Ok(Step::To(joined(alloc, base, version, "/", word, "")?)),
        Place::After => Ok(Step::To(joined(alloc, base, version, "0", "", "")?)),
    }
}
