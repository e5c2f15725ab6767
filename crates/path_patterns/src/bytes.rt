//! A segment of a pattern, held against a segment of a path.
ghost use Rattle.std.specs.Prelude.{◌≡◌};
ghost use Rattle.path_patterns.specs.Matching as spec;
ghost use Rattle.path_patterns.specs.Verdict.{IsVerdict};

use crate::verdict::Verdict;

/// Whether a pattern's segment matches a path's. Each byte of the one meets each byte of the other at most once.
#[tactic(auto, using(crate::proofs::Verdicts::head_of_run))]
pub(crate) fn segment_matches(pattern: &[u8], text: &[u8]) -> bool
    ensures { result ≡ spec.segment_matches pattern.now text.now }
{
    match match_bytes(pattern, text) {
        Verdict::Matches => true,
        Verdict::Differs => false,
        Verdict::RunsOut => false,
    }
}

/// How a text fares with a pattern's segment.
#[cycle(bytes)]
fn match_bytes(pattern: &[u8], text: &[u8]) -> Verdict
    ensures { IsVerdict (spec.segment_matches pattern.now) text.now result }
{
    let Some((wanted, behind)) = pattern.split_first() else {
        return if text.is_empty() {
            Verdict::Matches
        } else {
            Verdict::Differs
        };
    };
    if *wanted == b'*' {
        return match_after_run(behind, text);
    }
    let Some((byte, rest)) = text.split_first() else {
        return Verdict::RunsOut;
    };
    if *byte != *wanted {
        return Verdict::Differs;
    }
    match_bytes(behind, rest)
}

/// How the ends of a text fare with it, the longest first.
#[cycle(bytes)]
fn match_after_run(pattern: &[u8], text: &[u8]) -> Verdict
    ensures { IsVerdict (spec.run_then (spec.segment_matches pattern.now)) text.now result }
{
    let mut left = text;
    'ends: loop {
        match match_bytes(pattern, left) {
            Verdict::Differs => {}
            verdict => return verdict,
        }
        match left.split_first() {
            Some((_, rest)) => left = rest,
            None => return Verdict::RunsOut,
        }
    }
}
