//! What follows for drafts, leases and blobs. No function here has code: its contract is the law.
ghost use Rattle.std.specs.Prelude.{◌≡◌, ◌≤◌, ℕ, Bool, List, [], map};
ghost use Rattle.std.specs.List.{AllZip};
ghost use Rattle.repo_model.specs.Data.{Blob};
ghost use Rattle.repo_model.specs.History.{Entry, Legal};
ghost use Rattle.repo_model.specs.Settings.{Settings};
ghost use Rattle.repo_model.specs.State.{State};
ghost use Rattle.repo_course.specs.Asking.{IsWoven};
ghost use Rattle.repo_course.specs.Serving.{AllTell, Outside, ServesStream};
ghost use Rattle.repo_course.specs.declared.outcomes.End.{End};
ghost use Rattle.repo_laws.specs.Closed.{IsLentAs};
ghost use Rattle.repo_server.specs.Lent.{IsLent};
ghost use Rattle.run_desks.specs.Seen.{RunResources, looks};
ghost use Rattle.run_desks.specs.declared.objects.Desk.{Desk};
ghost use Rattle.crash_laws.specs.Handed.{AllHandTold, AnyHands, HandOnce};
ghost use Rattle.turn_lock.specs.Seats.{opening, mine, joined, seen};
ghost use Rattle.turn_seats.specs.Ending.{HoldsSeat};
ghost use Rattle.seat_laws.specs.Closing.{IsFit, SeesAll};
ghost use Rattle.seat_server.specs.Rules.{rules};
ghost use Rattle.desk_work.specs.Working.{Works};
ghost use Rattle.desk_laws.specs.Answered.{DeskAnswered};
ghost use Rattle.desk_laws.specs.Back.{GiveAllBack};
ghost use Rattle.desk_laws.specs.Fetched.{AreFilesFetched};
ghost use Rattle.turn_seats.specs.Seated.{entry_of};

use outside::{Blobs, Held, Port, Tells};
use outside_remote::Remote;
use repo_model::Ask;
use turn_lock::Thing;
use turn_seats::Repository;

/// A file that whoever takes commands gave as its last reply is lent in the state that is known then. As long as this lease is not given
/// back, no entry gives its blob out to be removed (`repo_laws::numbers::readers_last`).
pub fn lent_files_are_leased<A: Ask>()
    ensures { (asker : A) (blob : Blob) → IsLent A.asks asker blob → (lease : ℕ) × IsLentAs lease blob.number (A.state asker) }
{}

/// A stream that is served puts, stages, lands or gives up each draft that it was given, and gives each lease back, by a later entry
/// of its own, wherever its entries lie in a legal history, also among those of others.
pub fn streams_give_all_back<H: Held>()
    ensures { (settings : Settings) (n : ℕ) (start end : State) (entries : List Entry) (old new : Outside) (ending : End) →
        IsWoven settings start entries end → ServesStream settings (AllTell H.bytes) n entries old new ending → GiveAllBack entries }
{}

/// Where desks and the cleaner have worked to the end, no draft and no lease is left: none stood as the turns began, and the seat that
/// was handed in had made no call and had taken no other seat in.
pub fn servers_leave_nothing<P: Port, B: Blobs, R: Remote, T: Repository>()
    ensures { (settings : Settings) (turns : _) (seat : _) (old new : RunResources (List (Desk P B R P.Link B.Held B.Pen))) (thing : T) (calls : ℕ) (failed : Bool) →
        Works (looks ⟦<P as Port>⟧ ⟦<P::Link as Tells>⟧ ⟦<B as Blobs>⟧ ⟦<B::Held as Held>⟧ ⟦<R as Remote>⟧) (rules ⟦<T as Thing>⟧ T.sight) settings turns seat old new thing calls failed →
        mine seat ≡ [] → joined seat ≡ [] → (T.sight.state (opening turns)).yard.drafts ≡ [] → (T.sight.state (opening turns)).yard.leases ≡ [] →
        ((T.sight.state thing).yard.drafts ≡ []) × ((T.sight.state thing).yard.leases ≡ []) }
{}

/// Where desks and the cleaner have worked to the end, each file that a look was answered with is a row of a hosted repository that was
/// asked; or it is of a proxy that was asked, which kept it as the turns began, or for which one of the desks fetched it: its bytes came
/// whole, and a side file of the remote said their digest. The seat that was handed in had made no call and had taken no other seat in.
pub fn servers_answer_what_was_fetched<P: Port, B: Blobs, R: Remote, T: Repository>()
    ensures { (settings : Settings) (turns : _) (seat : _) (old new : RunResources (List (Desk P B R P.Link B.Held B.Pen))) (thing : T) (calls : ℕ) (failed : Bool) →
        (works : Works (looks ⟦<P as Port>⟧ ⟦<P::Link as Tells>⟧ ⟦<B as Blobs>⟧ ⟦<B::Held as Held>⟧ ⟦<R as Remote>⟧) (rules ⟦<T as Thing>⟧ T.sight) settings turns seat old new thing calls failed) →
        mine seat ≡ [] → joined seat ≡ [] →
        AreFilesFetched (looks ⟦<P as Port>⟧ ⟦<P::Link as Tells>⟧ ⟦<B as Blobs>⟧ ⟦<B::Held as Held>⟧ ⟦<R as Remote>⟧) (T.sight.settings (opening turns)) (T.sight.state (opening turns))
        (map (entry_of T.sight) works.ended.log) old.desks new.desks }
{}

/// Each blob that a served stream hands over, to be put, staged or landed, tells its bytes and has their fingerprint, where the store's blobs tell
/// theirs. Of a stream that is served alone no two have one number, and none has a number that was drawn before.
pub fn streams_hand_over_each_blob_once<H: Held>()
    ensures told { (settings : Settings) (n : ℕ) (entries : List Entry) (old new : Outside) (ending : End) →
        ServesStream settings (AllTell H.bytes) n entries old new ending → AllTell H.bytes → AllHandTold entries }
    ensures once { (settings : Settings) (n : ℕ) (start : State) (entries : List Entry) (old new : Outside) (ending : End) →
        Legal settings start entries → ServesStream settings (AllTell H.bytes) n entries old new ending → HandOnce entries }
    ensures drawn { (settings : Settings) (n : ℕ) (start : State) (entries : List Entry) (old new : Outside) (ending : End) →
        Legal settings start entries → ServesStream settings (AllTell H.bytes) n entries old new ending →
        (k : ℕ) → AnyHands k entries → start.yard.next_draft ≤ k }
{}

/// So it is of the one history of all desks and the cleaner, where they have worked to the end: no two blobs that are handed over in it have one
/// number, whichever desks stored them. The seat that was handed in had made no call and had taken no other seat in.
pub fn servers_hand_over_each_blob_once<P: Port, B: Blobs, R: Remote, T: Repository>()
    ensures told { (settings : Settings) (turns : _) (seat : _) (old new : RunResources (List (Desk P B R P.Link B.Held B.Pen))) (thing : T) (calls : ℕ) (failed : Bool) →
        (works : Works (looks ⟦<P as Port>⟧ ⟦<P::Link as Tells>⟧ ⟦<B as Blobs>⟧ ⟦<B::Held as Held>⟧ ⟦<R as Remote>⟧) (rules ⟦<T as Thing>⟧ T.sight) settings turns seat old new thing calls failed) →
        mine seat ≡ [] → joined seat ≡ [] → AllTell B.Held.bytes → AllHandTold (map (entry_of T.sight) works.ended.log) }
    ensures once { (settings : Settings) (turns : _) (seat : _) (old new : RunResources (List (Desk P B R P.Link B.Held B.Pen))) (thing : T) (calls : ℕ) (failed : Bool) →
        (works : Works (looks ⟦<P as Port>⟧ ⟦<P::Link as Tells>⟧ ⟦<B as Blobs>⟧ ⟦<B::Held as Held>⟧ ⟦<R as Remote>⟧) (rules ⟦<T as Thing>⟧ T.sight) settings turns seat old new thing calls failed) →
        mine seat ≡ [] → joined seat ≡ [] → HandOnce (map (entry_of T.sight) works.ended.log) }
    ensures drawn { (settings : Settings) (turns : _) (seat : _) (old new : RunResources (List (Desk P B R P.Link B.Held B.Pen))) (thing : T) (calls : ℕ) (failed : Bool) →
        (works : Works (looks ⟦<P as Port>⟧ ⟦<P::Link as Tells>⟧ ⟦<B as Blobs>⟧ ⟦<B::Held as Held>⟧ ⟦<R as Remote>⟧) (rules ⟦<T as Thing>⟧ T.sight) settings turns seat old new thing calls failed) →
        mine seat ≡ [] → joined seat ≡ [] → (k : ℕ) → AnyHands k (map (entry_of T.sight) works.ended.log) → (T.sight.state (opening turns)).yard.next_draft ≤ k }
{}

/// Each turn of each connection of each desk ends by its cause, as `streams_are_answered_by_cause` of `answer_laws` says, in the one
/// history of all desks and the cleaner: in it the calls by the desk's number are just the entries of its connections, one after another,
/// and where one is told that there is no draft, a call of another number has spent it.
pub fn desks_are_answered_by_cause<P: Port, B: Blobs, R: Remote, T: Repository>()
    ensures { (settings : Settings) (turns : _) (seat : _) (old new : RunResources (List (Desk P B R P.Link B.Held B.Pen))) (thing : T) (calls : ℕ) (failed : Bool) →
        (works : Works (looks ⟦<P as Port>⟧ ⟦<P::Link as Tells>⟧ ⟦<B as Blobs>⟧ ⟦<B::Held as Held>⟧ ⟦<R as Remote>⟧) (rules ⟦<T as Thing>⟧ T.sight) settings turns seat old new thing calls failed) →
        T.sight.settings (opening turns) ≡ settings →
        AllZip (DeskAnswered (looks ⟦<P as Port>⟧ ⟦<P::Link as Tells>⟧ ⟦<B as Blobs>⟧ ⟦<B::Held as Held>⟧ ⟦<R as Remote>⟧) settings T.sight (T.sight.state (opening turns)) works.ended.log) old.desks new.desks }
{}

/// The one history of all desks and the cleaner, and what the seats with which they ended have seen of it, keep the laws of the repository,
/// as `seats_see_closed_histories` of `seat_laws` says: what a document named is answered, what was given out stays gone, releases stay.
/// The turns began with settings that name each repository once, and with a sound state, as a repository that was started has.
pub fn seats_of_servers_see_closed_histories<P: Port, B: Blobs, R: Remote, T: Repository>()
    ensures whole { (settings : Settings) (turns : _) (seat : _) (old new : RunResources (List (Desk P B R P.Link B.Held B.Pen))) (thing : T) (calls : ℕ) (failed : Bool) →
        (works : Works (looks ⟦<P as Port>⟧ ⟦<P::Link as Tells>⟧ ⟦<B as Blobs>⟧ ⟦<B::Held as Held>⟧ ⟦<R as Remote>⟧) (rules ⟦<T as Thing>⟧ T.sight) settings turns seat old new thing calls failed) →
        IsFit T.sight (opening turns) → SeesAll T.sight (opening turns) works.ended.log }
    ensures cleaner { (settings : Settings) (turns : _) (seat : _) (old new : RunResources (List (Desk P B R P.Link B.Held B.Pen))) (thing : T) (calls : ℕ) (failed : Bool) →
        (works : Works (looks ⟦<P as Port>⟧ ⟦<P::Link as Tells>⟧ ⟦<B as Blobs>⟧ ⟦<B::Held as Held>⟧ ⟦<R as Remote>⟧) (rules ⟦<T as Thing>⟧ T.sight) settings turns seat old new thing calls failed) →
        IsFit T.sight (opening turns) → SeesAll T.sight (opening turns) (seen works.cleaning) }
    ensures desk { (settings : Settings) (turns : _) (seat : _) (old new : RunResources (List (Desk P B R P.Link B.Held B.Pen))) (thing : T) (calls : ℕ) (failed : Bool) →
        (works : Works (looks ⟦<P as Port>⟧ ⟦<P::Link as Tells>⟧ ⟦<B as Blobs>⟧ ⟦<B::Held as Held>⟧ ⟦<R as Remote>⟧) (rules ⟦<T as Thing>⟧ T.sight) settings turns seat old new thing calls failed) →
        IsFit T.sight (opening turns) → (own : _) → HoldsSeat works.ended.log own → SeesAll T.sight (opening turns) (seen own) }
{}
