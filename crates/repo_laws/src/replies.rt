//! What replies say, and how far they are determined.
ghost use Rattle.std.specs.Prelude.{false, true, ◌≡◌, ℕ, ◌≤◌, ◌↔◌, min, max, List, Some, map, option_map, IsTrue, All};
ghost use Rattle.outside.specs.Faults.{Rose};
ghost use Rattle.outside.specs.Moments.{Moments, moments_after};
ghost use Rattle.std.specs.List.Sorted.{IsNonDecreasing};
ghost use Rattle.std.specs.List.{AllZip};
ghost use Rattle.repo_model.specs.declared.print.Print.{Print};
ghost use Rattle.repo_model.specs.Settings.{Settings};
ghost use Rattle.repo_model.specs.Data.{is_same_print};
ghost use Rattle.repo_model.specs.State.{State};
ghost use Rattle.repo_model.specs.Effect.{with_effects};
ghost use Rattle.repo_model.specs.Command.{Command, done, drop_draft};
ghost use Rattle.repo_model.specs.Reply.{given_back, dropped, store_fault, is_free, can_get};
ghost use Rattle.repo_model.specs.Turn.{turn};
ghost use Rattle.repo_model.specs.History.{Entry, Fits, Legal, latest_moment, ticked, after, end};
ghost use Rattle.repo_laws.specs.Faults.{is_store_fault, AsksRecords};
ghost use Rattle.repo_laws.specs.Replies.{is_refusal, given_up, may_change_rows, AsksAlike, moments_of};

/// The reply of a turn is one of those that its command can get.
pub fn commands_get_their_replies()
    ensures turn { (settings : Settings) (s : State) (now : ℕ) (c : Command) → IsTrue (can_get c (turn settings s now c).reply) }
    ensures entry { (settings : Settings) (old : State) (e : Entry) → Fits settings old e → is_free e.reply ≡ false → IsTrue (can_get e.command e.reply) }
{}

/// Giving a lease back and giving a draft up are never refused, not because memory ran out either.
pub fn giving_up_is_never_refused()
    ensures lease { (settings : Settings) (old : State) (e : Entry) (lease : ℕ) → Fits settings old e → e.command ≡ done lease → e.reply ≡ given_back }
    ensures draft { (settings : Settings) (old : State) (e : Entry) (draft : ℕ) → Fits settings old e → e.command ≡ drop_draft draft → e.reply ≡ dropped }
{}

/// A command that is refused changes nothing but the moment, and gives up the blob that was sent for nothing: where the path
/// has a file of another content, and, of a staged file, where no session is open or no more files may be staged. Rows of hosted
/// repositories change only where the reply says so.
pub fn refusals_change_nothing()
    ensures refused { (settings : Settings) (old : State) (e : Entry) → Fits settings old e → is_refusal e.reply ≡ true
        → after settings old e ≡ with_effects (ticked old e.moment e.faults) (given_up e.command e.reply) }
    ensures rows { (settings : Settings) (old : State) (e : Entry) → Fits settings old e → may_change_rows e.reply ≡ false
        → (after settings old e).hosted ≡ old.hosted }
{}

/// Apart from running out of memory and failing records the reply and the next state are functions of the state, the command and the
/// moment. So two legal histories from one state that ask alike have the same replies and the same end.
pub fn replies_are_determined()
    ensures reply { (settings : Settings) (old : State) (e : Entry) → Fits settings old e → is_free e.reply ≡ false
        → e.reply ≡ (turn settings old e.moment e.command).reply }
    ensures state { (settings : Settings) (old : State) (e : Entry) → is_free e.reply ≡ false
        → after settings old e ≡ with_effects (ticked old e.moment e.faults) (turn settings old e.moment e.command).effects }
    ensures replies { (settings : Settings) (start : State) (one other : List Entry) → Legal settings start one → Legal settings start other
        → AllZip AsksAlike one other → map (λ e. e.reply) one ≡ map (λ e. e.reply) other }
    ensures ends { (settings : Settings) (start : State) (one other : List Entry) → Legal settings start one → Legal settings start other
        → AllZip AsksAlike one other → end settings start one ≡ end settings start other }
{}

/// The moments of a legal history never fall, and none is later than the latest moment, where the last one before is not.
pub fn moments_rise()
    ensures rising { (settings : Settings) (start : State) (entries : List Entry) → Legal settings start entries → IsNonDecreasing (moments_of start entries) }
    ensures capped { (settings : Settings) (start : State) (entries : List Entry) → Legal settings start entries → start.last ≤ latest_moment
        → All (λ moment. moment ≤ latest_moment) (moments_of start entries) }
{}

/// The records are said to have failed only where they were asked to commit and their count of faults rose; where they were
/// asked and it rose, nothing else is replied.
pub fn store_faults_have_a_cause()
    ensures cause { (settings : Settings) (old : State) (e : Entry) → Fits settings old e → e.reply ≡ store_fault
        → AsksRecords settings old e × Rose old.faults e.faults }
    ensures others { (settings : Settings) (old : State) (e : Entry) → Fits settings old e → AsksRecords settings old e → is_store_fault e.reply ≡ false
        → e.faults ≡ old.faults }
{}

/// Each turn reads the clock once: its moment is what the clock gives, up to the latest moment, but none before the last one.
pub fn moments_are_the_clocks()
    ensures told { (settings : Settings) (old : State) (e : Entry) (left : Moments) → Fits settings old e → old.clock ≡ Some left
        → e.moment ≡ max old.last (min latest_moment left.next) }
    ensures left { (settings : Settings) (old : State) (e : Entry) → (after settings old e).clock ≡ option_map moments_after old.clock }
    ensures latest { latest_moment ≡ 253402207200 }
{}

/// Contents count as equal exactly where their lengths and all four digests are the same.
pub fn prints_compare()
    ensures { (a b : Print) → IsTrue (is_same_print a b) ↔ (a ≡ b) }
{}
