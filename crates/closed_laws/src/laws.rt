//! What follows for the files that a served document names. No function here has code: its contract is the law.
ghost use Rattle.std.specs.Prelude.{◌≡◌, ℕ, Bool, List, [], ◌∷◌, ◌++◌, Option, Some, Ok};
ghost use Rattle.http_wire.specs.Front.{Whole, front};
ghost use Rattle.http_wire.specs.Head.{Head};
ghost use Rattle.repo_model.specs.Command.{look};
ghost use Rattle.repo_model.specs.History.{Entry, Legal, end};
ghost use Rattle.repo_model.specs.Settings.{Settings};
ghost use Rattle.repo_model.specs.Data.{Row};
ghost use Rattle.repo_model.specs.State.{State, opening};
ghost use Rattle.outside.specs.Moments.{Moments};
ghost use Rattle.mvn_coords.specs.declared.fault.Side.{Side};
ghost use Rattle.repo_laws.specs.Sound.{AreNamedApart, IsSound};
ghost use Rattle.repo_routes.specs.Intent.{Judged, reads};
ghost use Rattle.repo_routes.specs.Judge.{judge};
ghost use Rattle.repo_routes.specs.declared.intent.Sort.{Sort};
ghost use Rattle.repo_course.specs.declared.outcomes.End.{End};
ghost use Rattle.repo_course.specs.Serving.{AllTell, Outside, ServesStream, RequestTurn};
ghost use Rattle.repo_course.specs.Course.{mode_for};
ghost use Rattle.closed_laws.specs.Answered.{ReadShows, IsLookedUp, ShowsReply};
ghost use Rattle.closed_laws.specs.Streams.{AllShowAfter, AllShowWhatWasNamed, AreTurns, Seen};
ghost use Rattle.closed_laws.specs.Named.{IsSideOf, ShowsNamed, ShowsSide, WasNamed};

use outside::Held;

/// A GET or HEAD of a path looks there first, and all that is seen of it is by the reply: the file's answer, whole, with both
/// checksums, or an alternative with its cause; or, after the plan of a fetch, what comes of that. Where the input is told,
/// that is the request whose head comes; and each turn whose first command is a look is such a request.
pub fn reads_are_answered<H: Held>()
    ensures requests { (settings : Settings) (last : Bool) (entries : List Entry) (old new : Outside) (ending : Option End) (input rest repo path : List ℕ)
        (sort : Sort) (head : Head) (request : Judged) →
        RequestTurn settings (AllTell H.bytes) last entries old new ending → old.input ≡ Some input → front input ≡ Whole head rest →
        judge settings head ≡ Ok request → request.intent ≡ reads repo path sort →
        IsLookedUp repo path (λ e. ShowsReply e.reply) (mode_for request last) rest entries old new ending }
    ensures looks { (settings : Settings) (last : Bool) (e : Entry) (more : List Entry) (old new : Outside) (ending : Option End)
        (repo path tried : List ℕ) → RequestTurn settings (AllTell H.bytes) last (e ∷ more) old new ending → e.command ≡ look repo path tried →
        ReadShows settings last repo path (ShowsReply e.reply) old new ending }
{}

/// A GET of a file that a served document named, whose look comes no later than the grace after the document was answered, gets
/// the 200 with the file's bytes and both checksums, whole, as the row had it then, and a GET of its side file the side text. Or
/// the count of the blobs rose, and 503 `blob-fault` is answered; or the blob, which tells no bytes, has others than were
/// recorded, and 503 `blob-differs` is answered; or memory ran out; or no lease is left; or the count of the sink rose, which
/// took a front of the answer. To a HEAD comes the head. So it is of each turn whose first entry lies in a legal history from a
/// sound state, whoever made the others: of each that looks there, and, where the input is told, of each whose request reads
/// there.
pub fn named_files_are_served<H: Held>()
    ensures files { (settings : Settings) (start : State) (before later : List Entry) (e : Entry) (repo tried : List ℕ) (row : Row)
        (last : Bool) (more : List Entry) (old new : Outside) (ending : Option End) →
        AreNamedApart settings.hosted → IsSound settings start → Legal settings start (before ++ e ∷ later) → WasNamed settings start before repo row e.moment →
        RequestTurn settings (AllTell H.bytes) last (e ∷ more) old new ending → e.command ≡ look repo row.path tried →
        ReadShows settings last repo row.path (ShowsNamed (end settings start before) row.blob) old new ending }
    ensures sides { (settings : Settings) (start : State) (before later : List Entry) (e : Entry) (repo at tried : List ℕ) (side : Side) (row : Row)
        (last : Bool) (more : List Entry) (old new : Outside) (ending : Option End) →
        AreNamedApart settings.hosted → IsSound settings start → Legal settings start (before ++ e ∷ later) → WasNamed settings start before repo row e.moment →
        RequestTurn settings (AllTell H.bytes) last (e ∷ more) old new ending → e.command ≡ look repo at tried → IsSideOf row.path side at →
        ReadShows settings last repo at (ShowsSide side row.blob) old new ending }
    ensures file_requests { (settings : Settings) (start : State) (before entries later : List Entry) (repo : List ℕ) (row : Row) (last : Bool)
        (old new : Outside) (ending : Option End) (input rest : List ℕ) (sort : Sort) (head : Head) (request : Judged) →
        AreNamedApart settings.hosted → IsSound settings start →
        RequestTurn settings (AllTell H.bytes) last entries old new ending → old.input ≡ Some input → front input ≡ Whole head rest →
        judge settings head ≡ Ok request → request.intent ≡ reads repo row.path sort →
        IsLookedUp repo row.path (λ e mode from to stop. Legal settings start (before ++ e ∷ later) → WasNamed settings start before repo row e.moment → ShowsNamed (end settings start before) row.blob mode from to stop)
        (mode_for request last) rest entries old new ending }
    ensures side_requests { (settings : Settings) (start : State) (before entries later : List Entry) (repo at : List ℕ) (side : Side) (row : Row) (last : Bool)
        (old new : Outside) (ending : Option End) (input rest : List ℕ) (sort : Sort) (head : Head) (request : Judged) →
        AreNamedApart settings.hosted → IsSound settings start → IsSideOf row.path side at →
        RequestTurn settings (AllTell H.bytes) last entries old new ending → old.input ≡ Some input → front input ≡ Whole head rest →
        judge settings head ≡ Ok request → request.intent ≡ reads repo at sort →
        IsLookedUp repo at (λ e mode from to stop. Legal settings start (before ++ e ∷ later) → WasNamed settings start before repo row e.moment → ShowsSide side row.blob mode from to stop)
        (mode_for request last) rest entries old new ending }
{}

/// A stream is a sequence of turns, and each turn whose first entry looks at a file that was named before it, or at a side file of it,
/// shows that, wherever the entry lies in a legal history, also among entries of others. Where a stream is served alone its entries
/// lie one after another, after those of earlier streams or of none: so a replay's.
pub fn streams_serve_named_files<H: Held>()
    ensures among_others { (settings : Settings) (n : ℕ) (start : State) (entries : List Entry) (old new : Outside) (ending : End) →
        AreNamedApart settings.hosted → IsSound settings start → ServesStream settings (AllTell H.bytes) n entries old new ending →
        (turns : List Seen) × AreTurns settings (AllTell H.bytes) n turns entries old new ending × AllShowWhatWasNamed settings start old turns }
    ensures alone { (settings : Settings) (n : ℕ) (start : State) (before entries : List Entry) (old new : Outside) (ending : End) →
        AreNamedApart settings.hosted → IsSound settings start → Legal settings start (before ++ entries) →
        ServesStream settings (AllTell H.bytes) n entries old new ending →
        (turns : List Seen) × AreTurns settings (AllTell H.bytes) n turns entries old new ending × AllShowAfter settings start before old turns }
    ensures first { (settings : Settings) (n : ℕ) (clock : Option Moments) (entries : List Entry) (old new : Outside) (ending : End) →
        AreNamedApart settings.hosted → Legal settings (opening settings clock) entries → ServesStream settings (AllTell H.bytes) n entries old new ending →
        (turns : List Seen) × AreTurns settings (AllTell H.bytes) n turns entries old new ending × AllShowAfter settings (opening settings clock) [] old turns }
{}
