// Cases, each run in its pieces and with its calls failing, and what is told of one that does not go as it has to.
use crate::kept::Kept;
use crate::runs::run_of;
use case_texts::{Case, Object, Script, Went, wrong_blobs, wrong_link, wrong_run};
use std::alloc::{AllocError, Global};

/// How a run of a case goes wrong in pieces of so many bytes.
fn wrong_program(alloc: Global, case: &Case, most: usize) -> Result<Option<String>, AllocError> {
    let Some(went) = run_of(alloc, case, case.script, most)? else {
        return Ok(Some(String::from_str(alloc, "the run before it did not end well")?));
    };
    match wrong_run(alloc, case, &went)? {
        Some(told) => Ok(Some(told)),
        None => wrong_blobs(alloc, case, &went),
    }
}

/// How the connections of a case before the last one go wrong over a core, the first that does.
fn wrong_earlier(
    alloc: Global,
    case: &Case,
    kept: &mut Kept,
    most: usize,
) -> Result<Option<String>, AllocError> {
    for link in &case.earlier {
        let went: Went = kept.go(alloc, case, link, most)?;
        let wrong: Option<String> = wrong_link(alloc, link, &went)?;
        if wrong.is_some() {
            return Ok(wrong);
        }
    }
    Ok(None)
}

/// How the last connection of a case goes wrong over a core, or what it leaves.
fn wrong_last(
    alloc: Global,
    case: &Case,
    kept: &mut Kept,
    most: usize,
) -> Result<Option<String>, AllocError> {
    let mut went: Went = kept.go(alloc, case, &case.last, most)?;
    went.blobs = kept.list();
    match wrong_link(alloc, &case.last, &went)? {
        Some(told) => Ok(Some(told)),
        None => wrong_blobs(alloc, case, &went),
    }
}

/// How connections of one core go wrong in pieces of so many bytes, the first that does.
fn wrong_links(alloc: Global, case: &Case, most: usize) -> Result<Option<String>, AllocError> {
    let Some(mut kept) = Kept::new(alloc, case)? else {
        return Ok(Some(String::from_str(alloc, "no start")?));
    };
    match wrong_earlier(alloc, case, &mut kept, most)? {
        Some(told) => Ok(Some(told)),
        None => wrong_last(alloc, case, &mut kept, most),
    }
}

/// How a case goes wrong in pieces of so many bytes.
fn wrong_in(alloc: Global, case: &Case, most: usize) -> Result<Option<String>, AllocError> {
    let wrong: Option<String> = if case.earlier.is_empty() && case.given.is_empty() {
        wrong_program(alloc, case, most)?
    } else {
        wrong_links(alloc, case, most)?
    };
    match wrong {
        Some(told) => Ok(Some(format!(in alloc; "in pieces of {most}: {told}")?)),
        None => Ok(None),
    }
}

/// What a case came to with this call of an object failing. Nothing, where no call failed.
fn failed_run(
    alloc: Global,
    case: &Case,
    object: Object,
    call: u64,
) -> Result<Option<Went>, AllocError> {
    let failing = Some((object, call));
    let script = Script {
        failing,
        ..case.script
    };
    match run_of(alloc, case, script, 1_000_000)? {
        Some(went) if went.is_as_said(case) && went.blob_faults == 0 => Ok(None),
        ran => Ok(ran),
    }
}

/// How a case goes wrong where a call of an object fails, told with the number of the call.
fn unsound(
    alloc: Global,
    case: &Case,
    went: &Went,
    object: Object,
    call: u64,
) -> Result<String, AllocError> {
    let of: &str = object.name();
    let told: String = match wrong_run(alloc, case, went)? {
        Some(told) => told,
        None => String::new(alloc),
    };
    format!(in alloc; "fails {of} {call}: {told}")
}

/// No case that is run so makes as many calls of an object.
const MOST_CALLS: u64 = 1_000;

/// How a case goes wrong with a call of an object failing, the first that does.
fn unsound_by(alloc: Global, case: &Case, object: Object) -> Result<Option<String>, AllocError> {
    for call in 0..MOST_CALLS {
        let Some(went) = failed_run(alloc, case, object, call)? else {
            return Ok(None);
        };
        if !case.is_sound(&went, object, call) {
            return Ok(Some(unsound(alloc, case, &went, object, call)?));
        }
    }
    Ok(Some(String::from_str(alloc, "calls have no end")?))
}

/// How a case of which nothing fails goes wrong with a call of one of its objects failing, the first that does.
fn unsound_of(alloc: Global, case: &Case) -> Result<Option<String>, AllocError> {
    for object in Object::ALL {
        let wrong: Option<String> = unsound_by(alloc, case, object)?;
        if wrong.is_some() {
            return Ok(wrong);
        }
    }
    Ok(None)
}

/// How a case goes wrong, in the first of its pieces in which it does, or with the first call of one of its objects failing: the
/// pieces or the call, and the first difference.
pub(crate) fn wrong_of(alloc: Global, case: &Case) -> Result<Option<String>, AllocError> {
    for most in case.pieces.most() {
        let wrong: Option<String> = wrong_in(alloc, case, *most)?;
        if wrong.is_some() {
            return Ok(wrong);
        }
    }
    if case.is_tried() {
        return unsound_of(alloc, case);
    }
    Ok(None)
}
