//! The segments of a text, and those of a pattern held against those of a path.
ghost use Rattle.std.specs.Prelude.{◌≡◌, ◌<◌, ◌∷◌, ◌==◌, IfSome, codes, length, position};
ghost use Rattle.std.specs.Str.{bytes_eq};
ghost use Rattle.mvn_coords.specs.Segment.{segments};
ghost use Rattle.path_patterns.specs.Matching.{run_then, segments_match};
ghost use Rattle.path_patterns.specs.Segments.{segments_left};
ghost use Rattle.path_patterns.specs.Verdict.{IsVerdict};

use crate::bytes::segment_matches;
use crate::verdict::Verdict;

/// The first segment of a text, and the text of those after it, if there are any.
pub(crate) fn split_segment(text: &[u8]) -> (&[u8], Option<&[u8]>)
    ensures { segments text.now ≡ result.0.now ∷ segments_left result.1 }
{
    match first_slash(text) {
        Some(at) => (&text[..at], Some(&text[at + 1..])),
        None => (text, None),
    }
}

fn first_slash(text: &[u8]) -> Option<usize>
    ensures place { result ≡ position (λ b. b == 47) text.now }
    ensures bound { IfSome result (λ at. at < length text.now) }
{
    text.iter().position(|byte| *byte == b'/')
}

/// Whether a segment of a pattern is `**`.
pub(crate) fn is_run(segment: &[u8]) -> bool
    ensures { result ≡ bytes_eq segment.now (codes "**") }
{
    segment == b"**".as_slice()
}

/// Whether the segments of a pattern match those of a path. Each of the ones meets each of the others at most once.
#[cycle(segments)]
pub(crate) fn match_segments(pattern: Option<&[u8]>, path: Option<&[u8]>) -> Verdict
    ensures { IsVerdict (segments_match (segments_left pattern.entry)) (segments_left path.entry) result }
{
    let Some(pattern) = pattern else {
        return match path {
            Some(_) => Verdict::Differs,
            None => Verdict::Matches,
        };
    };
    let (wanted, behind) = split_segment(pattern);
    if is_run(wanted) {
        return match_after_run(behind, path);
    }
    let Some(path) = path else {
        return Verdict::RunsOut;
    };
    let (segment, rest) = split_segment(path);
    if !segment_matches(wanted, segment) {
        return Verdict::Differs;
    }
    match_segments(behind, rest)
}

/// Whether the segments of a pattern match what is left of a path's after some front.
#[cycle(segments)]
fn match_after_run(pattern: Option<&[u8]>, path: Option<&[u8]>) -> Verdict
    ensures { IsVerdict (run_then (segments_match (segments_left pattern.entry))) (segments_left path.entry) result }
{
    let mut left = path;
    'ends: loop {
        match match_segments(pattern, left) {
            Verdict::Differs => {}
            verdict => return verdict,
        }
        match left {
            Some(text) => left = split_segment(text).1,
            None => return Verdict::RunsOut,
        }
    }
}
