//! The name of a file in its version directory.
ghost use Rattle.std.specs.Prelude.{◌≡◌, ◌++◌, ◌∷◌, [], Option, None, IfSome, IsTrue, MatchOption, take, drop};
ghost use Rattle.std.specs.Option.{option_copied, option_map};
ghost use Rattle.std.specs.List.{position};
ghost use Rattle.byte_cuts.specs.Cuts as cuts;
ghost use Rattle.mvn_coords.specs.FileName as spec;
ghost use Rattle.mvn_coords.specs.Civil.{time_of};

use crate::build::build_number;
use crate::{Build, PathFault, Stamp};
use byte_cuts::text::{before, behind};
use std::marker::Model;

/// What a file's name tells beside artifact and version directory.
#[derive(Drop)]
pub(crate) struct Ending<'a> {
    pub build: Option<Build>,
    pub classifier: &'a str,
    pub extension: &'a str,
}

impl<'a> Model for Ending<'a> {
    ghost use Rattle.mvn_coords.specs.FileName.{Ending as EndingOf};

    ghost Value = { EndingOf };

    ghost view = { λ e. record {
      build = e.build;
      classifier = e.classifier.now;
      extension = e.extension.now;
    } };
}

/// X, where a directory is X-SNAPSHOT.
pub(crate) fn base_of(directory: &str) -> Option<&str>
    ensures { option_copied result ≡ spec.base_of directory.now }
{
    if directory.len() <= 9 {
        return None;
    }
    before("-SNAPSHOT", directory)
}

/// What is left of a name after `artifact-version`.
#[tactic(auto, using(crate::proofs::Cuts::after_version))]
fn after_version<'a>(artifact: &str, version: &str, name: &'a str) -> Option<&'a str>
    ensures { option_copied result ≡ cuts.behind (artifact.now ++ 45 ∷ version.now) name.now }
{
    let dashed = behind(artifact, name)?;
    let rest = behind("-", dashed)?;
    behind(version, rest)
}

/// What is left of a name after `artifact-base-`.
#[tactic(auto, using(crate::proofs::Cuts::after_base))]
fn after_base<'a>(artifact: &str, base: &str, name: &'a str) -> Option<&'a str>
    ensures { option_copied result ≡ cuts.behind (artifact.now ++ 45 ∷ base.now ++ 45 ∷ []) name.now }
{
    let rest = after_version(artifact, base, name)?;
    behind("-", rest)
}

/// The classifier, empty where there is none, and the extension.
fn tail(text: &str) -> Option<(&str, &str)>
    ensures { option_map (λ x. (x.0.now, x.1.now)) result ≡ spec.tail_of text.now }
{
    if let Some(extension) = behind(".", text) {
        if extension.is_empty() {
            return None;
        }
        return Some(("", extension));
    }
    let (classifier, extension) = behind("-", text)?.split_once('.')?;
    if classifier.is_empty() || extension.is_empty() {
        return None;
    }
    Some((classifier, extension))
}

fn ending_with(build: Option<Build>, text: &str) -> Result<Ending<'_>, PathFault>
    ensures { result ≡ spec.ending_of build text.now }
{
    let (classifier, extension) = tail(text).ok_or(PathFault::NotNamed)?;
    Ok(Ending {
        build,
        classifier,
        extension,
    })
}

/// The ending of a name in a version directory of a release.
fn release<'a>(artifact: &str, directory: &str, name: &'a str) -> Result<Ending<'a>, PathFault>
    ensures { result ≡ spec.release_ending artifact.now directory.now name.now }
{
    let text = after_version(artifact, directory, name).ok_or(PathFault::NotNamed)?;
    ending_with(None, text)
}

/// Whether `SNAPSHOT` stands where a unique snapshot has its timestamp and number.
fn is_literal(text: &str) -> bool
    ensures { result ≡ spec.is_literal text.now }
{
    match behind("SNAPSHOT", text) {
        Some(rest) => is_end_of_word(rest),
        None => false,
    }
}

/// Whether a word that stands before this text ends there.
fn is_end_of_word(rest: &str) -> bool
    ensures { result ≡ spec.is_end_of_word rest.now }
{
    match rest.as_bytes() {
        [] => true,
        [next, ..] => *next == b'.' || *next == b'-',
    }
}

/// The place of the first byte that is no digit.
fn first_other(bytes: &[u8]) -> Option<usize>
    ensures { result ≡ position spec.is_no_digit bytes.now }
{
    bytes.iter().position(|b| !b.is_ascii_digit())
}

/// How many digits a text begins with.
fn digit_count(text: &str) -> usize
    ensures { result ≡ spec.digit_count text.now }
{
    first_other(text.as_bytes()).unwrap_or(text.len())
}

/// The digits at a text's front, and what follows them.
fn split_digits(text: &str) -> (&str, &str)
    ensures front { result.0.now ≡ take (spec.digit_count text.now) text.now }
    ensures back { result.1.now ≡ drop (spec.digit_count text.now) text.now }
{
    text.split_at(digit_count(text))
}

/// The number after `-`, and what follows its digits.
fn numbered(text: &str) -> Option<(u32, &str)>
    ensures value { option_map (λ x. (x.0, x.1.now)) result ≡ spec.numbered text.now }
    ensures range { IfSome result (λ x. IsTrue (spec.is_build_number x.0)) }
{
    let run = behind("-", text)?;
    let (digits, rest) = split_digits(run);
    Some((build_number(digits)?, rest))
}

/// The first 15 bytes of a text, and what follows them; none where they can be no stamp.
fn split_stamp(text: &str) -> Option<(&str, &str)>
    ensures { MatchOption result (time_of (take 15 text.now) ≡ None)
        (λ x. (x.0.now ≡ take 15 text.now) × (x.1.now ≡ drop 15 text.now)) }
{
    text.split_at_checked(15)
}

/// The ending of a name in the version directory base-SNAPSHOT.
fn snapshot<'a>(artifact: &str, base: &str, name: &'a str) -> Result<Ending<'a>, PathFault>
    ensures { result ≡ spec.snapshot_ending artifact.now base.now name.now }
{
    let text = after_base(artifact, base, name).ok_or(PathFault::NotNamed)?;
    if is_literal(text) {
        return Err(PathFault::LiteralSnapshot);
    }
    let (front, rest) = split_stamp(text).ok_or(PathFault::BadStamp)?;
    let stamp = Stamp::parse(front).ok_or(PathFault::BadStamp)?;
    let (number, rest) = numbered(rest).ok_or(PathFault::BadBuild)?;
    let build = Build::new(stamp, number).ok_or(PathFault::BadBuild)?;
    ending_with(Some(build), rest)
}

/// The ending of a name in a version directory.
pub(crate) fn ending_in<'a>(
    artifact: &str,
    dir: &str,
    name: &'a str,
) -> Result<Ending<'a>, PathFault>
    ensures { result ≡ spec.ending_in artifact.now dir.now name.now (spec.base_of dir.now) }
{
    match base_of(dir) {
        Some(base) => snapshot(artifact, base, name),
        None => release(artifact, dir, name),
    }
}
