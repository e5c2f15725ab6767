//! Why a stream is answered as it is. No function here has code: its contract is the law.
ghost use Rattle.std.specs.Prelude.{◌≡◌, ℕ, List, [], ◌++◌, map};
ghost use Rattle.repo_model.specs.History.{Entry, Legal};
ghost use Rattle.repo_model.specs.Settings.{Settings};
ghost use Rattle.repo_model.specs.State.{State};
ghost use Rattle.repo_course.specs.Asking.{LiesIn};
ghost use Rattle.repo_course.specs.Serving.{AllTell, Outside, ServesStream};
ghost use Rattle.repo_course.specs.declared.outcomes.End.{End};
ghost use Rattle.closed_laws.specs.Streams.{AreTurns, Seen};
ghost use Rattle.answer_laws.specs.Marked.{Mark, entries_of, own_entry, own_of};
ghost use Rattle.answer_laws.specs.Why.{AllAnsweredByCause};

use outside::Held;

/// A stream is a sequence of turns. Each is opened by its head, makes the steps of its request's course, whose entries are the turn's,
/// and ends as is due for the head or for just one of the steps, in the mode of the request; an I/O action's counts of faults lie between
/// the turn's. Each entry is the caller's own in the history, at its place among the caller's entries, and fits the state there: where
/// the reply refuses the command, the cause is in that state; where it says that the records failed, their count has risen there; and
/// where it says that there is no draft, an entry of another, between the turn's own one that gave it and this one, has spent it.
///
/// The entries of the stream stand among the caller's own in a legal history, whose others are told by a mark; or they lie anywhere in
/// a legal history; or they are all of it.
pub fn streams_are_answered_by_cause<H: Held>()
    ensures among { (settings : Settings) (n : ℕ) (start : State) (history : List Mark) (past entries rest : List Entry) (old new : Outside) (ending : End) →
        Legal settings start (entries_of history) → own_of history ≡ past ++ (entries ++ rest) → ServesStream settings (AllTell H.bytes) n entries old new ending →
        (turns : List Seen) × AreTurns settings (AllTell H.bytes) n turns entries old new ending
        × AllAnsweredByCause settings (AllTell H.bytes) start history past rest old turns }
    ensures lying { (settings : Settings) (n : ℕ) (start : State) (history entries : List Entry) (old new : Outside) (ending : End) →
        Legal settings start history → LiesIn entries history → ServesStream settings (AllTell H.bytes) n entries old new ending →
        (marks : List Mark) × (entries_of marks ≡ history) × (own_of marks ≡ entries)
        × (turns : List Seen) × AreTurns settings (AllTell H.bytes) n turns entries old new ending
        × AllAnsweredByCause settings (AllTell H.bytes) start marks [] [] old turns }
    ensures alone { (settings : Settings) (n : ℕ) (start : State) (entries : List Entry) (old new : Outside) (ending : End) →
        Legal settings start entries → ServesStream settings (AllTell H.bytes) n entries old new ending →
        (turns : List Seen) × AreTurns settings (AllTell H.bytes) n turns entries old new ending
        × AllAnsweredByCause settings (AllTell H.bytes) start (map own_entry entries) [] [] old turns }
{}
