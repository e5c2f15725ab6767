//! Why commands are refused.
ghost use Rattle.std.specs.Prelude.{◌≡◌, ◌↔◌, ◌⊎◌, ℕ, false, IsTrue};
ghost use Rattle.repo_model.specs.Settings.{Settings};
ghost use Rattle.repo_model.specs.State.{State};
ghost use Rattle.repo_model.specs.Command.{Command};
ghost use Rattle.repo_model.specs.Reply.{Reply, no_memory, is_free};
ghost use Rattle.repo_model.specs.Turn.{turn};
ghost use Rattle.repo_model.specs.History.{Entry, Fits};
ghost use Rattle.repo_laws.specs.Causes.{Cause};
ghost use Rattle.repo_laws.specs.Replies.{is_refusal};

/// A refusal is the reply of a turn exactly where it has its cause in the state: nothing at the path, a kind that the repository
/// does not take, no open session of the number, no draft of the number, another content at the path, another digest than the
/// one that was said, no more sessions or staged files, a release directory without its pom, or no number left; of a look at a
/// proxy or a group that this is what is seen there. So is it of an entry, but when memory runs out.
pub fn refusals_have_causes()
    ensures turn { (settings : Settings) (s : State) (now : ℕ) (c : Command) (r : Reply) → IsTrue (is_refusal r)
        → ((turn settings s now c).reply ≡ r) ↔ Cause settings s now c r }
    ensures entry { (settings : Settings) (old : State) (e : Entry) → Fits settings old e → is_free e.reply ≡ false → IsTrue (is_refusal e.reply)
        → Cause settings old e.moment e.command e.reply }
    ensures comes { (settings : Settings) (old : State) (e : Entry) (r : Reply) → Fits settings old e → IsTrue (is_refusal r) → Cause settings old e.moment e.command r
        → (e.reply ≡ r) ⊎ (e.reply ≡ no_memory) }
{}
