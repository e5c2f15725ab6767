//! The repository as one who takes commands.
use crate::repository::Core;
use outside::{Clock, Held};
use repo_model::{Ask, Command, Reply};
use row_tables::Records;

impl<K: Records, C: Clock, H: Held> Ask for Core<K, C, H> {
    ghost use Rattle.std.specs.Prelude.{◌≡◌, ℕ, IsTrue, []};
    ghost use Rattle.repo_model.specs.Asking.{IsAnswerTo};
    ghost use Rattle.repo_model.specs.Command.{meets};
    ghost use Rattle.repo_model.specs.Shown.{shown_command, shown_reply};
    ghost use Rattle.repo_core.specs.CoreTurn.{CoreTurn};

    type Call = Command<H>;

    type Given = Reply<H>;

    ghost asked = { shown_command };

    ghost answered = { shown_reply };

    ghost settings = { λ core. core.settings };

    ghost state = { λ core. core.state };

    ghost ready = { λ core. Unit {0} };

    ghost asks = { λ old entry new. CoreTurn old.settings old entry new };

    ghost due = { λ old entry new turn. (turn.same, ([], tt, turn.fits, turn.state)) };

    fn ask(&mut self, call: Command<H>) -> Reply<H>
        requires ready { Unit {0} }
        requires meets { IsTrue (meets self.old.settings (shown_command call)) }
        ensures turn { (moment faults : ℕ)
            × CoreTurn self.old.settings self.old (record { command = shown_command call; moment = moment; reply = shown_reply result; faults = faults }) self.new }
        ensures answer { IsAnswerTo self.old.settings (shown_command call) (shown_reply result) }
        ensures ready { Unit {0} }
        ensures settings { self.new.settings ≡ self.old.settings }
    {
        self.call(call)
    }
}
