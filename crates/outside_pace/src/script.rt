ghost use Rattle.std.specs.Prelude.{◌≡◌, [], Some, IfOk};
ghost use Rattle.outside_pace.specs.Pauses.{first_answer, paused};

use crate::pace::Pace;
use std::alloc::{AllocError, Global};
use std::marker::Model;
use std::vec::IntoIter;

/// A timer in memory: it gives the answers of a list at once, and `false` after them. Its pauses take no memory.
#[derive(Drop)]
pub struct ScriptPace {
    left: IntoIter<bool>,
    kept: Vec<u64>,
}

impl Model for ScriptPace {
    ghost use Rattle.std.specs.Prelude.{◌+◌, ◌≤◌, length, vec_capacity};
    ghost use Rattle.std.specs.Vec.Iter.{into_iter_items};
    ghost use Rattle.outside_pace.specs.Pauses.{Pauses};

    ghost Value = { Pauses };

    ghost view = { λ p. record { left = into_iter_items p.left; kept = p.kept.items } };

    ghost invariant = { λ p. length p.kept.items + length (into_iter_items p.left) ≤ vec_capacity p.kept };
}

impl ScriptPace {
    /// A timer that gives these answers.
    pub fn new(alloc: Global, answers: Vec<bool>) -> Result<ScriptPace, AllocError>
        ensures { IfOk result (λ pace. pace ≡ record { left = answers.items; kept = [] }) }
    {
        let kept = Vec::with_capacity(alloc, answers.len())?;
        Ok(ScriptPace {
            left: answers.into_iter(),
            kept,
        })
    }

    /// The pauses that were kept, in seconds, in their order.
    pub fn kept(&self) -> &[u64]
        ensures { result.now ≡ self.now.kept }
    {
        self.kept.as_slice()
    }
}

impl Pace for ScriptPace {
    ghost pauses = { λ p. Some p };

    fn pause(&mut self, seconds: u64) -> bool
        ensures given { result ≡ first_answer self.old.left }
        ensures left { self.new ≡ paused seconds self.old }
    {
        match self.left.next() {
            Some(answer) => {
                self.kept.push_reserved(seconds);
                answer
            }
            None => false,
        }
    }
}
