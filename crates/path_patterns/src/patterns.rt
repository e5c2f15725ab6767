//! Lists of patterns, and the paths that they let through.
ghost use Rattle.std.specs.Prelude.{◌≡◌, [], ◌∷◌, ◌++◌, IfOk, IfErr, IsTrue, None, OnErr, OnOk, filter, map, not, position, string_bytes};
ghost use Rattle.path_patterns.specs.Matching.{matches};
ghost use Rattle.path_patterns.specs.Pattern.{are_patterns, first_bad, is_pattern, some_matches};
ghost use Rattle.path_patterns.specs.Pattern as spec;
ghost use Rattle.path_patterns.specs.Fault.{IsFaultIn};

use crate::form::is_pattern;
use crate::segments::match_segments;
use crate::verdict::Verdict;
use std::alloc::{AllocError, Global};
use std::marker::Model;
use texts::Text;

/// Why texts are no list of patterns.
#[derive(Debug, Drop)]
pub enum PatternFault {
    /// The text at this place, counted from 0, is no pattern; all before it are.
    BadPattern { index: usize },
    /// Memory was wanting.
    NoMemory,
}

/// A list of patterns, each of them well formed. Contracts see their texts.
#[derive(Drop)]
pub struct Patterns {
    texts: Vec<Text>,
}

impl Model for Patterns {
    ghost use Rattle.std.specs.Prelude.{ℕ, List, IsTrue};
    ghost use Rattle.path_patterns.specs.Pattern.{are_patterns};

    ghost Value = { List (List ℕ) };

    ghost view = { λ p. p.texts.items };

    ghost invariant = { λ p. IsTrue (are_patterns p.texts.items) };
}

impl Patterns {
    /// The list of no pattern, which matches no path.
    pub fn new(alloc: Global) -> Patterns
        ensures { result ≡ [] }
    {
        Patterns {
            texts: Vec::new(alloc),
        }
    }

    /// The patterns of these texts, or the first text that is none.
    pub fn parse(alloc: Global, patterns: &[String]) -> Result<Patterns, PatternFault>
        ensures ok { IfOk result (λ p. (p ≡ map string_bytes patterns.now)
            × (first_bad (map string_bytes patterns.now) ≡ None)) }
        ensures fault { IfErr result (IsFaultIn (map string_bytes patterns.now)) }
    {
        if let Some(index) = first_bad(patterns) {
            return Err(PatternFault::BadPattern { index });
        }
        let mut parsed = Patterns::new(alloc);
        for pattern in patterns {
            if parsed.add(pattern.as_str()).is_err() {
                return Err(PatternFault::NoMemory);
            }
        }
        Ok(parsed)
    }

    /// Adds a text at the end where it is a pattern, and leaves the list as it is where it is none, or when
    /// memory runs out.
    pub fn add(&mut self, text: &str) -> Result<(), AllocError>
        ensures ok { OnOk result (self.new ≡ self.old ++ filter is_pattern (text.now ∷ [])) }
        ensures err { OnErr result (self.new ≡ self.old) }
    {
        if !is_pattern(text) {
            return Ok(());
        }
        let text = Text::new(*self.texts.allocator(), text)?;
        self.texts.push(text)?;
        Ok(())
    }

    /// The texts of the patterns, in order.
    pub fn texts(&self) -> &[Text]
        ensures texts { result.now ≡ self.now }
        ensures form { IsTrue (are_patterns self.now) }
    {
        self.texts.as_slice()
    }

    /// Another list of the same patterns.
    pub fn copied(&self, alloc: Global) -> Result<Patterns, AllocError>
        ensures { IfOk result (λ copy. copy ≡ self.now) }
    {
        let mut copy = Patterns::new(alloc);
        for text in self.texts() {
            copy.add(text.as_str())?;
        }
        Ok(copy)
    }

    /// Whether one of the patterns matches the whole path. It takes time up to the length of the patterns times that of
    /// the path, and no memory. Of a side file the path of its file is asked for.
    pub fn allows(&self, path: &str) -> bool
        ensures { result ≡ some_matches self.now path.now }
    {
        self.texts
            .iter()
            .any(|pattern| matches(pattern.as_str(), path))
    }
}

/// Whether a path is let through: a pattern of the first list matches it, and none of the second.
pub fn is_let_through(allow: &Patterns, block: &Patterns, path: &str) -> bool
    ensures { result ≡ spec.is_let_through allow.now block.now path.now }
{
    allow.allows(path) && !block.allows(path)
}

fn first_bad(patterns: &[String]) -> Option<usize>
    ensures { result ≡ position (λ text. not (is_pattern (string_bytes text))) patterns.now }
{
    patterns.iter().position(|text| !is_pattern(text.as_str()))
}

#[tactic(auto, using(crate::proofs::Verdicts::head_of_run))]
fn matches(pattern: &str, path: &str) -> bool
    ensures { result ≡ matches pattern.now path.now }
{
    match match_segments(Some(pattern.as_bytes()), Some(path.as_bytes())) {
        Verdict::Matches => true,
        Verdict::Differs => false,
        Verdict::RunsOut => false,
    }
}
