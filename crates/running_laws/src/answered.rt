//! A desk's answers, and what they stand for after a crash. No function here has code: its contract is the law.
ghost use mathlib.Core.Option.{some};
ghost use lib.ListN.{get_elem?};
ghost use Rattle.std.specs.Prelude.{◌≡◌, ℕ, Bool, List, [], ◌++◌, take, true, Option, Some, Ok};
ghost use Rattle.http_wire.specs.Front.{Whole, front};
ghost use Rattle.http_wire.specs.Head.{Head};
ghost use Rattle.repo_model.specs.Data.{repository};
ghost use Rattle.repo_model.specs.declared.session.SessionResult.TheVariants.{Done};
ghost use Rattle.repo_model.specs.History.{Entry, Legal};
ghost use Rattle.repo_laws.specs.Sound.{AreNamedApart, IsSound};
ghost use Rattle.running_laws.specs.Committed.{CommitOutlasts};
ghost use Rattle.repo_model.specs.Settings.{Settings};
ghost use Rattle.repo_model.specs.State.{State};
ghost use Rattle.repo_model.specs.Tables.{Tables};
ghost use Rattle.row_tables.specs.Crashes.{Unsettled};
ghost use Rattle.repo_routes.specs.Intent.{Judged, commits, puts_file};
ghost use Rattle.repo_routes.specs.Judge.{judge};
ghost use Rattle.repo_course.specs.Serving.{AllTell, Outside, RequestTurn};
ghost use Rattle.repo_course.specs.declared.outcomes.End.{End};
ghost use Rattle.repo_course.specs.declared.response.Response.{Response};
ghost use Rattle.repo_course.specs.declared.response.Response.TheVariants.{Created, Ended};
ghost use Rattle.answer_laws.specs.Marked.{Mark, entries_of, own_of};
ghost use Rattle.answer_laws.specs.Why.{AllCaused, IsAnsweredByCause};
ghost use Rattle.run_desks.specs.Seen.{looks};
ghost use Rattle.run_desks.specs.declared.objects.Desk.{Desk};
ghost use Rattle.turn_lock.specs.History.{IsStep, Legal as AreCalls};
ghost use Rattle.turn_lock.specs.Rule.{Kept};
ghost use Rattle.turn_lock.specs.Seats.{mine, opening, seen, IsSeatOf};
ghost use Rattle.turn_seats.specs.Ending.{HoldsSeat};
ghost use Rattle.seat_server.specs.Rules.{rules};
ghost use Rattle.desk_work.specs.Visits.{Attended};
ghost use Rattle.desk_laws.specs.Answered.{DeskAnswered};
ghost use Rattle.served_laws.specs.Crashed.{Made, OutlastsCrashes, entries_made};
ghost use Rattle.running_laws.specs.Answered.{IsAgain, PutAgainOutlasts, PutOutlasts, answer_to};

use outside::{Blobs, Held, Port, Tells};
use outside_remote::Remote;
use turn_lock::Thing;
use turn_seats::Repository;

/// What a desk has served so far, with a seat of its own, while its server still runs: each turn of each of these connections ends by its
/// cause, in any legal history of the turns that holds what the seat has made. Such a history is what the seat itself has seen; and at any
/// time the one history that the rule of the turns keeps.
pub fn desks_so_far_are_answered_by_cause<P: Port, B: Blobs, R: Remote, T: Repository>()
    ensures desk { (settings : Settings) (turns : _) (own new : _) (desk back : Desk P B R P.Link B.Held B.Pen) (log : _) →
        AreCalls (IsStep T.fixed T.may_ask T.turned) (opening turns) log → HoldsSeat log new → T.sight.settings (opening turns) ≡ settings → mine own ≡ [] →
        Attended (looks ⟦<P as Port>⟧ ⟦<P::Link as Tells>⟧ ⟦<B as Blobs>⟧ ⟦<B::Held as Held>⟧ ⟦<R as Remote>⟧) (rules ⟦<T as Thing>⟧ T.sight) settings turns own new desk back →
        DeskAnswered (looks ⟦<P as Port>⟧ ⟦<P::Link as Tells>⟧ ⟦<B as Blobs>⟧ ⟦<B::Held as Held>⟧ ⟦<R as Remote>⟧) settings T.sight (T.sight.state (opening turns)) log desk back }
    ensures seen { (turns : _) (seat : _) → IsSeatOf (IsStep T.fixed T.may_ask T.turned) turns seat → HoldsSeat (seen seat) seat }
    ensures now { (turns : _) (seat : _) (log : _) (shared : _) (by : ℕ) → IsSeatOf (IsStep T.fixed T.may_ask T.turned) turns seat →
        Kept (IsStep T.fixed T.may_ask T.turned) (opening turns) log shared → get_elem? shared.views by ≡ some seat.token.me.0 →
        AreCalls (IsStep T.fixed T.may_ask T.turned) (opening turns) log × HoldsSeat log seat }
{}

/// A PUT of a file into a repository that was answered `201 Created`, on a stream that told its input, in a history that outlasts crashes, as that
/// which any seat has seen does: all of its body came, and at each moment from the return of its `Put` on, as long as no call may take the file away,
/// what a crash leaves is read so: after a start over it, under the same settings, a GET of the path shows the file with that body. One that was
/// answered that the file stood (`same`, `relisted`): all of its body came, and a row of its length and digests stands at the path then; where it was
/// relisted, a start answers it after a crash at each moment from then on, as long as no call may take it away.
pub fn answered_puts_outlast_crashes<H: Held>()
    ensures created { (settings : Settings) (start : State) (t : Tables) (old : Unsettled) (made : List Made) (marks : List Mark) (last : Bool) (past entries rest : List Entry)
        (before behind : Outside) (ending : Option End) (input came : List ℕ) (head : Head) (request : Judged) (repo path : List ℕ) (count : ℕ)
        (turned : RequestTurn settings (AllTell H.bytes) last entries before behind ending) → OutlastsCrashes settings start t old made → entries_of marks ≡ entries_made made →
        AllCaused settings (AllTell H.bytes) start marks past [] entries rest → before.input ≡ Some input → front input ≡ Whole head came → judge settings head ≡ Ok request →
        request.intent ≡ puts_file (repository repo) path count → answer_to settings (AllTell H.bytes) last entries before behind ending turned ≡ Some Created →
        PutOutlasts settings start t old made (AllTell H.bytes) repo path count came (take count came) }
    ensures again { (settings : Settings) (start : State) (t : Tables) (old : Unsettled) (made : List Made) (marks : List Mark) (last : Bool) (past entries rest : List Entry)
        (before behind : Outside) (ending : Option End) (input came : List ℕ) (head : Head) (request : Judged) (repo path : List ℕ) (count : ℕ) (said : Response)
        (turned : RequestTurn settings (AllTell H.bytes) last entries before behind ending) → AreNamedApart settings.hosted → IsSound settings start → Legal settings start (entries_made made) →
        OutlastsCrashes settings start t old made → entries_of marks ≡ entries_made made →
        AllCaused settings (AllTell H.bytes) start marks past [] entries rest → before.input ≡ Some input → front input ≡ Whole head came → judge settings head ≡ Ok request →
        request.intent ≡ puts_file (repository repo) path count → IsAgain said → answer_to settings (AllTell H.bytes) last entries before behind ending turned ≡ Some said →
        PutAgainOutlasts settings start t old made said repo path count came (take count came) }
{}

/// A commit of a session that was answered `done` with so many files, in such a history, is one of its entries; where the session was open before, each
/// file that was staged in it stands in its repository after the commit, with the fingerprint that was staged, and a start answers it after a crash at
/// each moment from then on, as long as no call may take it away. So it is of the pom of each staged release's version directory, whether it was staged or
/// stood before. Each later commit of the session is answered with the same result, unless memory runs out.
pub fn answered_commits_outlast_crashes<H: Held>()
    ensures { (settings : Settings) (start : State) (t : Tables) (old : Unsettled) (made : List Made) (marks : List Mark) (last : Bool) (past entries rest : List Entry)
        (before behind : Outside) (ending : Option End) (input came : List ℕ) (head : Head) (request : Judged) (n k : ℕ)
        (turned : RequestTurn settings (AllTell H.bytes) last entries before behind ending) → AreNamedApart settings.hosted → IsSound settings start → Legal settings start (entries_made made) →
        OutlastsCrashes settings start t old made → entries_of marks ≡ entries_made made →
        AllCaused settings (AllTell H.bytes) start marks past [] entries rest → before.input ≡ Some input → front input ≡ Whole head came → judge settings head ≡ Ok request →
        request.intent ≡ commits n → answer_to settings (AllTell H.bytes) last entries before behind ending turned ≡ Some (Ended (Done k)) →
        CommitOutlasts settings start t old made n k }
{}

/// Of one turn of a connection that need not have ended, whose entries stand in a legal history after others of its caller: it ends by its cause, and each
/// of its entries is caused there.
pub fn turns_are_answered_by_cause<H: Held>()
    ensures { (settings : Settings) (start : State) (history : List Mark) (last : Bool) (past entries rest : List Entry) (before behind : Outside) (ending : Option End) →
        Legal settings start (entries_of history) → own_of history ≡ past ++ (entries ++ rest) → RequestTurn settings (AllTell H.bytes) last entries before behind ending →
        IsAnsweredByCause settings (AllTell H.bytes) last entries before behind ending × AllCaused settings (AllTell H.bytes) start history past [] entries rest }
{}
