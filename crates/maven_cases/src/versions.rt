// Maven's version order: pairs, lists and generated pairs, which a plain program orders too.
use crate::plain_versions;
use case_texts::{Tale, copied, joined};
use mvn_version::{Version, compare};
use std::alloc::{AllocError, Global};
use std::cmp::Ordering;

const PARTS: &str =
    "0 1 00 10 9 . . . - - _ + a b m x rc cr ga final Release sp SNAPSHOT alpha beta milestone";

fn real_order(alloc: Global, left: &str, right: &str) -> Result<Ordering, AllocError> {
    let left = Version::parse(alloc, left)?;
    let right = Version::parse(alloc, right)?;
    Ok(compare(&left, &right))
}

fn plain_order(alloc: Global, left: &str, right: &str) -> Result<Ordering, AllocError> {
    let left = plain_versions::key(alloc, left)?;
    let right = plain_versions::key(alloc, right)?;
    Ok(plain_versions::compare(alloc, &left, &right))
}

/// The order of two texts, or none where the plain program orders them otherwise.
fn order_of(alloc: Global, left: &str, right: &str) -> Result<Option<Ordering>, AllocError> {
    let order = real_order(alloc, left, right)?;
    Ok((plain_order(alloc, left, right)? == order).then_some(order))
}

fn told_order(alloc: Global, left: &str, right: &str) -> Result<&'static str, AllocError> {
    Ok(match order_of(alloc, left, right)? {
        Some(Ordering::Less) => "below",
        Some(Ordering::Equal) => "alike",
        Some(Ordering::Greater) => "above",
        None => "other",
    })
}

fn part_at(place: u64) -> &'static str {
    PARTS.split_whitespace().nth(place as usize).unwrap_or("")
}

/// One to five parts, by the digits of a scrambled seed.
fn generated(alloc: Global, seed: u64) -> Result<String, AllocError> {
    let mut left = seed.wrapping_mul(0x9e37_79b9_7f4a_7c15);
    let mut text = String::new(alloc);
    for _ in 0..1 + seed % 5 {
        left ^= left >> 29;
        text.push_str(part_at(left % 26))?;
        left /= 26;
    }
    Ok(text)
}

/// How many of the pairs that begin with the text of a seed are alike, or none where the two programs order one otherwise.
fn alike_with(alloc: Global, seed: u64) -> Result<Option<u32>, AllocError> {
    let left: String = generated(alloc, seed)?;
    let mut alike = 0u32;
    for other in 1..9 {
        let right: String = generated(alloc, seed.wrapping_add(other))?;
        match order_of(alloc, left.as_str(), right.as_str())? {
            Some(Ordering::Equal) => alike = alike.saturating_add(1),
            Some(_) => {}
            None => return Ok(None),
        }
    }
    Ok(Some(alike))
}

/// What is told of generated pairs: `agreed` where the two programs order all alike, and some are alike, and not all.
fn told_of_generated(alloc: Global) -> Result<&'static str, AllocError> {
    let mut alike = 0u32;
    for seed in 0..400 {
        match alike_with(alloc, seed)? {
            Some(count) => alike = alike.saturating_add(count),
            None => return Ok("other"),
        }
    }
    Ok(match alike {
        10..1000 => "agreed",
        _ => "too few",
    })
}

fn parsed(alloc: Global, texts: &[String]) -> Result<Vec<Version>, AllocError> {
    let mut versions = Vec::new(alloc);
    for text in texts {
        versions.push(Version::parse(alloc, text.as_str())?)?;
    }
    Ok(versions)
}

/// The texts in the order of their versions.
fn sorted(alloc: Global, texts: &[String]) -> Result<String, AllocError> {
    let mut versions = parsed(alloc, texts)?;
    versions.sort()?;
    let mut words: Vec<String> = Vec::new(alloc);
    for version in &versions {
        words.push(copied(alloc, version.as_str())?)?;
    }
    joined(alloc, words.as_slice())
}

/// What is told of a step about versions.
pub(crate) fn told(alloc: Global, key: &str, words: &[String]) -> Tale {
    Ok(Some(match (key, words) {
        ("versions", [left, right]) => {
            copied(alloc, told_order(alloc, left.as_str(), right.as_str())?)?
        }
        ("sorted", _) => sorted(alloc, words)?,
        ("generated-versions", []) => copied(alloc, told_of_generated(alloc)?)?,
        _ => return Ok(None),
    }))
}
