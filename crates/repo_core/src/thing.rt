//! The repository as an object that any number of threads ask in turn.
use crate::repository::Core;
use outside::{Clock, Held};
use repo_model::{Command, Reply};
use row_tables::Records;
use turn_lock::Thing;
use turn_seats::Repository;

impl<K: Records, C: Clock, H: Held> Thing for Core<K, C, H> {
    ghost use Rattle.std.specs.Prelude.{IsTrue};
    ghost use Rattle.repo_model.specs.Command.{meets};
    ghost use Rattle.repo_model.specs.Settings.{Settings};
    ghost use Rattle.repo_model.specs.Shown.{shown_command};
    ghost use Rattle.repo_core.specs.CoreTurn.{CoreStep};

    type Call = Command<H>;

    type Reply = Reply<H>;

    ghost Fixed = { Settings };

    ghost fixed = { λ core. core.settings };

    ghost may_ask = { λ settings call. IsTrue (meets settings (shown_command call)) };

    ghost turned = { λ old call reply new. CoreStep old call reply new };

    ghost stays_fixed = { λ old new call reply step. step.turn.same };

    fn turn(&mut self, call: Command<H>) -> Reply<H> {
        self.call(call)
    }
}

impl<K: Records, C: Clock, H: Held> Repository for Core<K, C, H> {
    ghost use Rattle.repo_model.specs.Shown.{shown_command, shown_reply};

    ghost sight = { record { asked = shown_command; answered = shown_reply; settings = λ core. core.settings; state = λ core. core.state } };

    ghost takes = { λ core call fits. fits };

    ghost is_turn = { λ old new call reply step. (record { fits = step.turn.fits; leaves = step.turn.state; answer = step.answer }, step.turn.same) };
}
