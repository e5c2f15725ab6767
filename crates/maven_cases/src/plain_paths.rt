// The plain, slow program for the path rule: a list of segments, judged step by step.

use mvn_coords::PathFault;
use std::alloc::{AllocError, Global};

/// What a path names in one line, or its fault.
pub(crate) type Said = Result<String, PathFault>;

// A word, the segments of a group, each before a slash, and what else there is, each after a blank but the first.
pub(crate) fn line(
    alloc: Global,
    word: &str,
    group: &[&str],
    parts: &[&str],
) -> Result<String, AllocError> {
    let mut line = format!(in alloc; "{word} ")?;
    for segment in group {
        line.push_str(segment)?;
        line.push_str("/")?;
    }
    for (n, part) in parts.iter().enumerate() {
        line.push_str(if n == 0 { "" } else { " " })?;
        line.push_str(part)?;
    }
    Ok(line)
}

pub(crate) fn said(alloc: Global, path: &str) -> Result<Said, AllocError> {
    if path.is_empty() {
        return Ok(Err(PathFault::Empty));
    }
    if path.len() > 1024 {
        return Ok(Err(PathFault::Long));
    }
    let segments: Vec<&str> = path.split('/').collect(alloc)?;
    said_of(alloc, segments.as_slice())
}

fn said_of(alloc: Global, segments: &[&str]) -> Result<Said, AllocError> {
    let Some((last, directory)) = segments.split_last() else {
        return Ok(Err(PathFault::Empty));
    };
    if !are_segments(segments) {
        return Ok(Err(PathFault::BadSegment));
    }
    match side_of(last) {
        Ok(("maven-metadata.xml", side)) => document(alloc, directory, side),
        Ok((name, side)) => file(alloc, directory, name, side),
        Err(fault) => Ok(Err(fault)),
    }
}

fn are_segments(segments: &[&str]) -> bool {
    for segment in segments {
        if !is_segment(segment) {
            return false;
        }
    }
    true
}

fn is_segment(s: &str) -> bool {
    (1..=255).contains(&s.len()) && s != "." && s != ".." && has_only(s, "._+-")
}

// Letters, digits and these marks.
fn has_only(s: &str, marks: &str) -> bool {
    for b in s.as_bytes() {
        if !b.is_ascii_alphanumeric() && !marks.as_bytes().contains(b) {
            return false;
        }
    }
    true
}

// Whether the segments are a group and an artifact.
fn fits(group: &[&str], artifact: &str) -> bool {
    for segment in group {
        if !has_only(segment, "_-") {
            return false;
        }
    }
    has_only(artifact, "_-.")
}

fn are_digits(s: &str) -> bool {
    for b in s.as_bytes() {
        if !b.is_ascii_digit() {
            return false;
        }
    }
    true
}

fn is_side(name: &str) -> bool {
    match name.rsplit_once('.') {
        Some((_, word)) => matches!(word, "sha1" | "md5" | "sha256" | "sha512"),
        None => false,
    }
}

// The last segment without its side suffix, and the side.
fn side_of(last: &str) -> Result<(&str, &'static str), PathFault> {
    let Some((rest, word)) = last.rsplit_once('.') else {
        return Ok((last, ""));
    };
    let side = match word {
        "sha1" => "sha1",
        "md5" => "md5",
        "sha256" => "sha256",
        "sha512" => "sha512",
        _ => return Ok((last, "")),
    };
    if is_side(rest) {
        Err(PathFault::BadSide)
    } else {
        Ok((rest, side))
    }
}

fn is_version(s: &str) -> bool {
    s.len() <= 128 && s != "SNAPSHOT" && s != "-SNAPSHOT"
}

fn is_snapshot(segment: &str) -> bool {
    segment.ends_with("-SNAPSHOT") && segment != "-SNAPSHOT"
}

fn document(alloc: Global, directory: &[&str], side: &str) -> Result<Said, AllocError> {
    let Some((last, above)) = directory.split_last() else {
        return Ok(Err(PathFault::Short));
    };
    let (group, artifact, version) = match above.split_last() {
        Some((artifact, group)) if is_snapshot(last) && !group.is_empty() => (
            group, *artifact, *last,
        ),
        _ => (above, *last, ""),
    };
    if !fits(group, artifact) || !is_version(version) {
        return Ok(Err(PathFault::BadSegment));
    }
    Ok(Ok(line(alloc, "document", group, &[artifact, version, side])?))
}

fn file<'a>(
    alloc: Global,
    directory: &[&'a str],
    name: &'a str,
    side: &'a str,
) -> Result<Said, AllocError> {
    match directory {
        [group @ .., artifact, version] if !group.is_empty() => {
            if !fits(group, artifact) || !is_version(version) {
                return Ok(Err(PathFault::BadSegment));
            }
            file_in(alloc, group, [*artifact, *version, name, side])
        }
        _ => Ok(Err(PathFault::Short)),
    }
}

// What is said of a file by its group, artifact, version, name and side.
fn file_in(
    alloc: Global,
    group: &[&str],
    [artifact, version, name, side]: [&str; 4],
) -> Result<Said, AllocError> {
    match parts_of_name(artifact, version, name) {
        Ok((build, classifier, extension)) => {
            let parts = [artifact, version, build, classifier, extension, side];
            Ok(Ok(line(alloc, "file", group, &parts)?))
        }
        Err(fault) => Ok(Err(fault)),
    }
}

// The classifier, which may be missing, and the extension.
fn tail_of(tail: &str) -> Option<(&str, &str)> {
    let (dashed, extension) = tail.split_once('.')?;
    let classifier = if dashed.is_empty() {
        ""
    } else {
        dashed.strip_prefix("-")?
    };
    if extension.is_empty() || dashed == "-" {
        return None;
    }
    Some((classifier, extension))
}

// What stands in a name after these parts of its front.
fn behind<'a>(name: &'a str, front: &[&str]) -> Result<&'a str, PathFault> {
    let mut rest = name;
    for part in front {
        match rest.strip_prefix(*part) {
            Some(more) => rest = more,
            None => return Err(PathFault::NotNamed),
        }
    }
    Ok(rest)
}

// The build of a name, `yyyyMMdd.HHmmss-number` or nothing, and its tail.
fn ending<'a>(
    artifact: &str,
    version: &str,
    name: &'a str,
) -> Result<(&'a str, &'a str), PathFault> {
    match version.strip_suffix("-SNAPSHOT") {
        Some(base) => build(behind(name, &[artifact, "-", base, "-"])?),
        None => Ok(("", behind(name, &[artifact, "-", version])?)),
    }
}

// The build of a name, its classifier and its extension.
fn parts_of_name<'a>(
    artifact: &str,
    version: &str,
    name: &'a str,
) -> Result<(&'a str, &'a str, &'a str), PathFault> {
    let (build, tail) = ending(artifact, version, name)?;
    match tail_of(tail) {
        Some((classifier, extension)) => Ok((build, classifier, extension)),
        None => Err(PathFault::NotNamed),
    }
}

// Whether a name goes on with `SNAPSHOT` in place of a build.
fn is_literal(rest: &str) -> bool {
    match rest.strip_prefix("SNAPSHOT") {
        Some(after) => after.is_empty() || after.starts_with('.') || after.starts_with('-'),
        None => false,
    }
}

// What stands after a dash and the number of a build.
fn after_number(after: &str) -> Option<&str> {
    let run = after.strip_prefix("-")?;
    let digits = leading_digits(run);
    if digits == 0 || digits > 9 || run.starts_with('0') {
        return None;
    }
    let (_, tail) = run.split_at_checked(digits)?;
    Some(tail)
}

fn build(rest: &str) -> Result<(&str, &str), PathFault> {
    if is_literal(rest) {
        return Err(PathFault::LiteralSnapshot);
    }
    match rest.split_at_checked(15) {
        Some((stamp, after)) if is_stamp(stamp) => {
            let tail = after_number(after).ok_or(PathFault::BadBuild)?;
            Ok((rest.strip_suffix(tail).unwrap_or(rest), tail))
        }
        _ => Err(PathFault::BadStamp),
    }
}

// How many digits a text begins with.
fn leading_digits(s: &str) -> usize {
    for (n, b) in s.as_bytes().iter().enumerate() {
        if !b.is_ascii_digit() {
            return n;
        }
    }
    s.len()
}

// The number that the digits write, or 99 where they are none.
fn number(text: &str) -> u32 {
    if are_digits(text) {
        text.parse().unwrap_or(99)
    } else {
        99
    }
}

fn days_of(year: u32, month: u32) -> u32 {
    let leap = year % 4 == 0 && (year % 100 != 0 || year % 400 == 0);
    match month {
        1 | 3 | 5 | 7 | 8 | 10 | 12 => 31,
        4 | 6 | 9 | 11 => 30,
        2 if leap => 29,
        2 => 28,
        _ => 0,
    }
}

// A text in three parts, of this length, of two bytes and of two bytes.
fn parts_of(text: &str, first: usize) -> Option<(&str, &str, &str)> {
    let (front, rest) = text.split_at_checked(first)?;
    let (middle, end) = rest.split_at_checked(2)?;
    (end.len() == 2).then_some((front, middle, end))
}

fn is_date(text: &str) -> bool {
    match parts_of(text, 4) {
        Some((year, month, day)) => {
            let days = days_of(number(year), number(month));
            are_digits(year) && (1..=days).contains(&number(day))
        }
        None => false,
    }
}

fn is_time(text: &str) -> bool {
    match parts_of(text, 2) {
        Some((hour, minute, second)) => {
            number(hour) < 24 && number(minute) < 60 && number(second) < 60
        }
        None => false,
    }
}

fn is_stamp(text: &str) -> bool {
    match text.split_once('.') {
        Some((date, time)) => is_date(date) && is_time(time),
        None => false,
    }
}
