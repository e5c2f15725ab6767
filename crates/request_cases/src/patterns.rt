// Patterns of paths. Each call is made in a small function of its own, so that what it promises is not carried through the others.
use case_texts::{Tale, copied, joined, yes_or_no};
use path_patterns::{PatternFault, Patterns, is_let_through, is_pattern};
use std::alloc::{AllocError, Global};

fn parse(alloc: Global, texts: &[String]) -> Result<Patterns, PatternFault> {
    Patterns::parse(alloc, texts)
}

/// Whether one of the patterns matches the path, or the place of the first that is none.
fn told_match(alloc: Global, path: &str, texts: &[String]) -> Result<String, AllocError> {
    match parse(alloc, texts) {
        Ok(patterns) => copied(alloc, yes_or_no(patterns.allows(path))),
        Err(PatternFault::BadPattern { index }) => format!(in alloc; "bad {index}"),
        Err(_) => copied(alloc, "no memory"),
    }
}

/// Whether a path is let through by an allow list and a block list.
fn told_through(
    alloc: Global,
    path: &str,
    allow: &[String],
    block: &[String],
) -> Result<String, AllocError> {
    match (parse(alloc, allow), parse(alloc, block)) {
        (Ok(allow), Ok(block)) => { copied(alloc, yes_or_no(is_let_through(&allow, &block, path))) }
        _ => copied(alloc, "refused"),
    }
}

/// The words in front of a bar, and those after it.
fn parted(words: &[String]) -> (&[String], &[String]) {
    for (n, word) in words.iter().enumerate() {
        if word.as_str() == "|" {
            return (
                words.get(..n).unwrap_or(&[]),
                words.get(n.saturating_add(1)..).unwrap_or(&[]),
            );
        }
    }
    (words, &[])
}

/// The patterns of a list that these texts were added to.
fn added(alloc: Global, texts: &[String]) -> Result<Patterns, AllocError> {
    let mut patterns = Patterns::new(alloc);
    for text in texts {
        patterns.add(text.as_str())?;
    }
    Ok(patterns)
}

/// How many patterns these texts make, and whether one of them matches the path.
fn told_added(alloc: Global, path: &str, texts: &[String]) -> Result<String, AllocError> {
    let patterns: Patterns = added(alloc, texts)?;
    let count: usize = patterns.texts().len();
    let is_match: &str = yes_or_no(patterns.allows(path));
    format!(in alloc; "{count} {is_match}")
}

/// What is told of a step about patterns.
pub(crate) fn told(alloc: Global, key: &str, words: &[String]) -> Tale {
    Ok(Some(match (key, words) {
        ("match", [path, texts @ ..]) => told_match(alloc, path.as_str(), texts)?,
        ("through", [path, lists @ ..]) => {
            let (allow, block) = parted(lists);
            told_through(alloc, path.as_str(), allow, block)?
        }
        ("added", [path, texts @ ..]) => told_added(alloc, path.as_str(), texts)?,
        ("pattern", _) => { copied(alloc, yes_or_no(is_pattern(joined(alloc, words)?.as_str())))? }
        _ => return Ok(None),
    }))
}
