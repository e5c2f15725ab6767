// Cases of steps, each followed to the first step of which something else is told.
use crate::entries::{Entry, read_entries};
use crate::names::Names;
use crate::reading::{CaseFault, Refusal};
use std::alloc::{AllocError, Global};

/// What is told of a step; nothing where it is none.
pub type Tale = Result<Option<String>, AllocError>;

/// What takes the steps of cases.
pub trait Steps {
    /// Begins a case: of the case before it nothing is left.
    fn begin(&mut self, alloc: Global) -> Result<(), AllocError>;

    /// Takes the step of a word and of those after it: what is told of it. Nothing where they are no step.
    fn step(&mut self, alloc: Global, key: &str, words: &[String]) -> Tale;
}

/// How a case went: the first step of which something else was told, if there is one.
#[derive(Drop)]
pub struct Told {
    pub name: String,
    pub wrong: Option<String>,
}

/// What is told of the step that these words are.
fn take_words<S: Steps>(
    alloc: Global,
    steps: &mut S,
    words: &[String],
) -> Result<String, AllocError> {
    let told: Option<String> = match words {
        [key, rest @ ..] => steps.step(alloc, key.as_str(), rest)?,
        [] => None,
    };
    match told {
        Some(told) => Ok(told),
        None => String::from_str(alloc, "no step"),
    }
}

/// How something else was told of a step than what has to be, if it was.
fn difference<S: Steps>(
    alloc: Global,
    names: &Names,
    steps: &mut S,
    entry: &Entry,
) -> Result<Option<String>, CaseFault> {
    let key: &str = entry.key.as_str();
    let (rest, want) = entry.rest.rsplit_once("= ").ok_or(CaseFault::Word)?;
    let step: String = format!(in alloc; "{key} {rest}")?;
    let words: Vec<String> = names.words(alloc, step.as_str())?;
    let want: String = names.spelled(alloc, want)?;
    let told: String = take_words(alloc, steps, words.as_slice())?;
    if told.as_str() == want.as_str() {
        return Ok(None);
    }
    let line: u64 = entry.line;
    Ok(Some(format!(in alloc; "line {line}, {step}: wanted {want:?}, told {told:?}")?))
}

/// Begins a case.
fn begin<S: Steps>(
    alloc: Global,
    steps: &mut S,
    cases: &mut Vec<Told>,
    name: &str,
) -> Result<(), CaseFault> {
    steps.begin(alloc)?;
    let name: String = String::from_str(alloc, name)?;
    let told = Told { name, wrong: None };
    Ok(cases.push(told).map_err(AllocError::from)?)
}

/// Takes a step of the case that is followed, until something else is told of one.
fn follow_step<S: Steps>(
    alloc: Global,
    names: &Names,
    steps: &mut S,
    cases: &mut Vec<Told>,
    entry: &Entry,
) -> Result<(), CaseFault> {
    let told = cases.last_mut().ok_or(CaseFault::NoCase)?;
    if told.wrong.is_none() {
        told.wrong = difference(alloc, names, steps, entry)?;
    }
    Ok(())
}

/// Takes in an entry: a name, the beginning of a case, or a step.
fn take<S: Steps>(
    alloc: Global,
    names: &mut Names,
    steps: &mut S,
    cases: &mut Vec<Told>,
    entry: &Entry,
) -> Result<(), CaseFault> {
    match entry.key.as_str() {
        "text" => names.name_text(alloc, entry),
        "word" => names.name_word(alloc, entry.rest.as_str()),
        "parts" => names.name_parts(alloc, entry),
        "case" => begin(alloc, steps, cases, entry.rest.as_str()),
        _ => follow_step(alloc, names, steps, cases, entry),
    }
}

/// How the cases of a text go, by the names so far, to which those of the text are added.
pub(crate) fn follow<S: Steps>(
    alloc: Global,
    names: &mut Names,
    steps: &mut S,
    text: &str,
) -> Result<Vec<Told>, Refusal> {
    let mut cases: Vec<Told> = Vec::new(alloc);
    let entries: Vec<Entry> = read_entries(alloc, text)?;
    for entry in &entries {
        let line: u64 = entry.line;
        take(alloc, names, steps, &mut cases, entry).map_err(|fault| Refusal { line, fault })?;
    }
    Ok(cases)
}
