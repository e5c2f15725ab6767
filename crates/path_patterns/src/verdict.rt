//! How a text fares with a pattern.

/// What is known where the front of a text was held against the front of a pattern.
#[derive(Clone, Copy, PartialEq, Eq)]
pub(crate) enum Verdict {
    /// The pattern matches the whole text.
    Matches,
    /// It doesn't.
    Differs,
    /// It doesn't, and neither does it match what is left of the text after any front.
    RunsOut,
}
