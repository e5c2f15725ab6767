//! What follows for served streams. No function here has code: its contract is the law.
ghost use Rattle.std.specs.Prelude.{◌≡◌, ◌≢◌, ◌↔◌, ◌⊎◌, if◌then◌else◌, ℕ, ◌*◌, ◌≤◌, Bool, false, length, List, ◌++◌, ◌∷◌, [], Option, Some, None, Result, Ok, Err, IfOk, IfErr};
ghost use Rattle.std.specs.List.{AllByRecursion};
ghost use Rattle.fetch_plan.specs.declared.Outcome.{Outcome as Came};
ghost use Rattle.fetch_plan.specs.declared.Outcome.TheVariants as came;
ghost use Rattle.fetch_plan.specs.declared.Plan.{Plan};
ghost use Rattle.outside.specs.Faults.{Rose};
ghost use Rattle.outside.specs.Moments.{Moments};
ghost use Rattle.remote_fetch.specs.declared.contents.Content.{Content};
ghost use Rattle.http_wire.specs.declared.faults.HeadFault.{HeadFault};
ghost use Rattle.http_wire.specs.Front.{Whole, front};
ghost use Rattle.http_wire.specs.Head.{Head};
ghost use Rattle.repo_routes.specs.Framing as framing;
ghost use Rattle.repo_routes.specs.Intent.{Judged};
ghost use Rattle.repo_routes.specs.Judge.{IsJudged, judge};
ghost use Rattle.repo_routes.specs.declared.judging.Refused.{Refused};
ghost use Rattle.http_wire.specs.declared.answers.Status.TheVariants as status;
ghost use Rattle.repo_course.specs.Answers.{fetch_status};
ghost use Rattle.repo_course.specs.Course.{Fetch, course_of, fetch_fault, refuses_head, response_missed};
ghost use Rattle.repo_course.specs.declared.fetched.FetchFault.{FetchFault};
ghost use Rattle.repo_course.specs.declared.fetched.FetchFault.TheVariants as unfetched;
ghost use Rattle.repo_course.specs.declared.fetched.Verdict.TheVariants as verdict;
ghost use Rattle.repo_course.specs.declared.response.Response.TheVariants as response;
ghost use Rattle.repo_course.specs.declared.outcomes.End.{End};
ghost use Rattle.repo_course.specs.Serving.{AllTell, Outside, ServesStream, RequestTurn};
ghost use Rattle.repo_model.specs.History.{Entry, Legal, end};
ghost use Rattle.repo_model.specs.Command.{land, look};
ghost use Rattle.repo_model.specs.Data.{Blob};
ghost use Rattle.repo_model.specs.Reply.{file, no_draft};
ghost use Rattle.repo_model.specs.Settings.{Settings};
ghost use Rattle.repo_model.specs.State.{State, opening};
ghost use Rattle.repo_laws.specs.Laws.{AnyByRecursion};
ghost use Rattle.repo_laws.specs.Looks.{IsAsked};
ghost use Rattle.course_laws.specs.AsPlayed.{AreFetched, plans_of, BeginsAt, IsAsPlayed, IsPlayedUpTo, NoFaults, RowsTold, StoodStill};
ghost use Rattle.course_laws.specs.Complete.{IsComplete};
ghost use Rattle.course_laws.specs.Duties.{AnswersDue, Fulfils, duty_of, duty_without_head, length_of, most_asked};
ghost use Rattle.course_laws.specs.Endings.{EndsByCause};
ghost use Rattle.course_laws.specs.Granted.{AllGranted, ComesWhole, IsAnsweredFor, Succeeds};
ghost use Rattle.course_laws.specs.Landed.{AllLandWhatCame, HasOrigin};
ghost use Rattle.course_laws.specs.LeftBehind.{IsDrawn, LeavesNothing};
ghost use Rattle.course_laws.specs.PutBodies.{AllPutBody};
ghost use Rattle.course_laws.specs.Refusals.{IsRefusedBy};
ghost use Rattle.course_laws.specs.Verdicts.{with_faults};
ghost use Rattle.course_laws.specs.Worked.{IsAnswered, abc_200, created_201, last_get, put_abc};

use outside::Held;

/// A stream ends by a failure of its source or of its sink exactly where that side's count rose, which is then the only
/// one of the two that did; a count at the end of its type leaves it open.
pub fn ends_have_their_causes<H: Held>()
    ensures { (settings : Settings) (n : ℕ) (entries : List Entry) (old new : Outside) (ending : End) →
        ServesStream settings (AllTell H.bytes) n entries old new ending → EndsByCause ending old new }
{}

/// A stream of at most `n` requests makes at most `n` times the commands of one: three; or where that is more one for each hosted
/// repository and one more; or two, and two more for a proxy, or for each member of the greatest group.
pub fn calls_are_few<H: Held>()
    ensures { (settings : Settings) (n : ℕ) (entries : List Entry) (old new : Outside) (ending : End) →
        ServesStream settings (AllTell H.bytes) n entries old new ending → length entries ≤ most_asked settings * n }
{}

/// A stream that is served alone leaves no draft and no lease after: each draft that a course was given was put,
/// landed or given up, and each lease was given back, on every way out. The drafts and leases that stood before, of other
/// callers, stand as they did.
pub fn nothing_is_left_behind<H: Held>()
    ensures { (settings : Settings) (n : ℕ) (entries : List Entry) (start : State) (old new : Outside) (ending : End) → IsDrawn start.yard
        → Legal settings start entries → ServesStream settings (AllTell H.bytes) n entries old new ending → LeavesNothing start.yard (end settings start entries).yard }
{}

/// A stream that is served alone finds each draft of its own: no call of it is answered NoDraft.
pub fn own_drafts_are_there<H: Held>()
    ensures { (settings : Settings) (n : ℕ) (entries : List Entry) (start : State) (old new : Outside) (ending : End)
        → Legal settings start entries → ServesStream settings (AllTell H.bytes) n entries old new ending → AllByRecursion (λ (e : Entry). e.reply ≢ no_draft) entries }
{}

/// What a stream lands is what it fetched: each landing is of a plan for which exchanges with the remote were made in the stream, and
/// with what they came to; a file is the one that was stored, with the bytes that were fetched.
pub fn landings_are_fetched<H: Held>()
    ensures { (settings : Settings) (n : ℕ) (entries : List Entry) (old new : Outside) (ending : End) →
        ServesStream settings (AllTell H.bytes) n entries old new ending → AllLandWhatCame old.remote new.remote entries }
{}

/// Each file that a request puts or stages has the body that came after its head, on a stream that tells its input: as many bytes as the
/// head announced, and all of these came. Its blob has their fingerprint, and tells them, where it tells its bytes.
pub fn puts_have_the_body_that_came<H: Held>()
    ensures { (settings : Settings) (last : Bool) (entries : List Entry) (old new : Outside) (ending : Option End) (input rest : List ℕ)
        (head : Head) (request : Judged) →
        RequestTurn settings (AllTell H.bytes) last entries old new ending → old.input ≡ Some input → front input ≡ Whole head rest →
        judge settings head ≡ Ok request → AllPutBody (length_of request.intent) rest entries }
{}

/// Where a turn lands that its fetch was a fault, the count of the remote's faults rose in it, or stands at the end of its type.
pub fn remote_faults_are_counted<H: Held>()
    ensures { (settings : Settings) (last : Bool) (entries : List Entry) (old new : Outside) (ending : Option End) →
        RequestTurn settings (AllTell H.bytes) last entries old new ending →
        AnyByRecursion (λ e. (plan : Plan) × (e.command ≡ land plan came.Fault)) entries → Rose old.remote.faults new.remote.faults }
{}

/// Each file that a stream answers, which is served alone, is a row of a hosted repository that was asked; or it is of a proxy that was
/// asked, which kept it before the stream, or for which it was fetched in it: its bytes came whole, and a side file of the remote said
/// their digest.
pub fn answered_files_were_fetched<H: Held>()
    ensures { (settings : Settings) (n : ℕ) (start : State) (before later : List Entry) (e : Entry) (old new : Outside) (ending : End)
        (id path tried : List ℕ) (lease : ℕ) (blob : Blob) →
        Legal settings start (before ++ e ∷ later) → ServesStream settings (AllTell H.bytes) n (before ++ e ∷ later) old new ending →
        e.command ≡ look id path tried → e.reply ≡ file lease blob →
        (one : List ℕ) × IsAsked settings id one × HasOrigin start (end settings start before) one path blob old.remote new.remote }
{}

/// Each course of a request, and each refusal, has an answer for each reply that its commands can get in a state in order, and for
/// all that its I/O actions can come to: unless memory ran out, it does not end out of memory. So a plan never comes where nothing
/// may be fetched any more.
pub fn courses_are_complete()
    ensures requests { (settings : Settings) (judged : Result Judged Refused) (last : Bool) → IfOk judged (IsJudged settings) → IsComplete settings (course_of judged last) }
    ensures no_heads { (settings : Settings) (fault : HeadFault) → IsComplete settings (refuses_head fault) }
{}

/// Each course of a request, and each refusal, does what it owes, whatever is replied and however its I/O actions end: a request asks
/// at most three commands, or for a read two and two more for each fetch, or for a pass one for each repository and one more, and a
/// refusal none; it puts its draft or gives it
/// up, gives its lease back and holds it while a file is sent; it invites its body where the client waits for that, reads it by
/// its length, once, and asks nothing but a draft before; a pass goes over the repositories that are asked for. It ends once, as is
/// due for what its commands and I/O actions came to: with an answer in the mode of the request, which closes the connection where
/// the body was not read or memory ran out, and is a head alone to HEAD; or, after a file, whole or cut, or where a side of the
/// stream failed, with none.
pub fn courses_keep_their_duties()
    ensures requests { (judged : Result Judged Refused) (last : Bool) → Fulfils (duty_of judged last) (course_of judged last) }
    ensures no_heads { (fault : HeadFault) → Fulfils (duty_without_head fault) (refuses_head fault) }
{}

/// Each course of a request, and each refusal, gives the answer that is due for what its commands and I/O actions came to, and no other,
/// whatever is replied and however the I/O actions end.
pub fn answers_have_their_causes()
    ensures requests { (judged : Result Judged Refused) (last : Bool) →
        let duty = duty_of judged last in AnswersDue duty.by_text (course_of judged last) duty.stand.rounds duty.stand.due }
    ensures no_heads { (fault : HeadFault) →
        let duty = duty_without_head fault in AnswersDue duty.by_text (refuses_head fault) duty.stand.rounds duty.stand.due }
{}

/// Where nothing is there, a read says what its fetches came to: the first fault, of all that were made; or where none had one, that the
/// remote has nothing there, or for a group that nothing is there; so it does where none was made. No fault is told of a fetch where
/// the remote gave what was asked for, or has nothing there, and 504 just where the fetch was a fault.
pub fn first_faults_are_said()
    ensures first { (of_group : Bool) (before more : List (Option FetchFault)) (why : FetchFault) →
        AllByRecursion (λ (x : Option FetchFault). x ≡ None) before →
        response_missed (with_faults (verdict.Unasked of_group) (before ++ Some why ∷ more)) ≡ response.NotFetched why }
    ensures gone { (of_group : Bool) (whys : List (Option FetchFault)) → whys ≢ [] → AllByRecursion (λ (x : Option FetchFault). x ≡ None) whys →
        response_missed (with_faults (verdict.Unasked of_group) whys) ≡ (if of_group then response.NotThere else response.RemoteGone) }
    ensures unasked { (of_group : Bool) → response_missed (verdict.Unasked of_group) ≡ response.NotThere }
    ensures faultless { (o : Came Content) → (fetch_fault o ≡ None) ↔ ((o ≡ came.Gone) ⊎ ((what : Content) × (o ≡ came.Got what))) }
    ensures faults { (o : Came Content) → (fetch_fault o ≡ Some unfetched.Fault) ↔ (o ≡ came.Fault) }
    ensures status { (why : FetchFault) → (fetch_status why ≡ status.GatewayTimeout) ↔ (why ≡ unfetched.Fault) }
{}

/// A request of a served stream whose head is refused asks nothing, and its answer says why, unless memory ran out, which
/// is answered by a head alone only to HEAD, or a side of the stream failed. The input is told.
pub fn refusals_are_answered<H: Held>()
    ensures { (settings : Settings) (last : Bool) (entries : List Entry) (old new : Outside) (ending : Option End) (input rest : List ℕ)
        (head : Head) (refused : Refused) →
        RequestTurn settings (AllTell H.bytes) last entries old new ending → old.input ≡ Some input → front input ≡ Whole head rest →
        judge settings head ≡ Err refused → (entries ≡ []) × IsRefusedBy refused last old new ending }
{}

/// Each course of a request that is not refused by its head comes to an answer of 200 or 201, or sends the file that it was
/// lent, where each command gets what it asks for, no I/O action fails and the body is refused by nothing that it says; a pass over the
/// repositories that are asked for is answered by what it did. Where the file has another content than was recorded, that is
/// answered, or the stream ends after a front of it. It invites the body where the client waits for that, and has read it then.
pub fn courses_succeed()
    ensures { (request : Judged) (last : Bool) →
        let duty = duty_of (Ok request) last in Succeeds duty.by_text duty.mode false (course_of (Ok request) last) duty.stand }
{}

/// A request of a served stream that nothing refuses, neither its head, nor a reply to its commands, nor what its body says, and
/// whose body came whole, gets its answer of 200 or 201, whole, where no count of the stream and the blobs rose, unless the blob
/// of a file, which tells no bytes, has others than were recorded, which is then answered, or ends the stream after the head and
/// a front of them, whole pieces of 65,536; or unless memory ran out, by a command or for what is read or sent; then that is
/// answered, by a head alone only to HEAD, after a draft that was given up too. No more of the input is used than the head and
/// the body. The input is told.
pub fn granted_requests_are_answered<H: Held>()
    ensures { (settings : Settings) (last : Bool) (entries : List Entry) (old new : Outside) (ending : Option End) (input rest : List ℕ)
        (head : Head) (request : Judged) →
        RequestTurn settings (AllTell H.bytes) last entries old new ending → old.input ≡ Some input → front input ≡ Whole head rest →
        judge settings head ≡ Ok request → ComesWhole request rest → AllGranted entries → NoFaults old new →
        IsAnsweredFor request last rest entries old new ending }
{}

/// The body that a request's course has to read is the one that its head announces, and the connection of a request that is
/// refused goes on only where its head announces none: so no byte of a body is ever read as a head.
pub fn bodies_are_whole()
    ensures requests { (settings : Settings) (head : Head) →
        IfOk (judge settings head) (λ request. framing.length_of head ≡ Ok (length_of request.intent)) }
    ensures refusals { (settings : Settings) (head : Head) →
        IfErr (judge settings head) (λ refused. refused.close ≡ false → framing.length_of head ≡ Ok 0) }
{}

/// Where no blob failed, and the records did not, a stream that is served alone has taken what is played from the machine's
/// state, the input and what its fetches came to, up to some place: all of it, or up to where the source or the sink failed, by
/// which it ended, or up to where memory ran out. Its fetches are of the plans that its looks were answered, one for each, in
/// their order; only the last plan may be left. Only the answer that says that memory ran out may stand after that place, or a
/// front of it where the sink failed in it; it stands after the whole answers of the requests before, and maybe `100 Continue`,
/// and is a head alone only where the next request is a HEAD. The blobs tell their bytes, and so do the files that stand there,
/// the clock, the input and the output.
pub fn broken_is_a_front<H: Held>()
    ensures { (settings : Settings) → AllTell H.bytes →
        (n : ℕ) (entries : List Entry) (start : State) (old new : Outside) (ending : End) (input before : List ℕ) →
        Legal settings start entries → StoodStill start.faults (end settings start entries).faults →
        BeginsAt start input before old → StoodStill old.blob_faults new.blob_faults →
        ServesStream settings (AllTell H.bytes) n entries old new ending →
        (fetched : List Fetch) × AreFetched (plans_of entries) fetched old.remote new.remote
        × IsPlayedUpTo settings n (record { state = start; input = input; fetched = fetched }) before old new ending }
{}

/// Where nothing failed, such a stream has taken exactly what is played, and ended as that does; or the whole answers of the
/// first requests, maybe `100 Continue` of the next, and the answer that says that memory ran out, its head alone only to
/// HEAD, and it was closed. Its fetches are of the plans of its looks, as above.
pub fn faultless_is_played<H: Held>()
    ensures { (settings : Settings) → AllTell H.bytes →
        (n : ℕ) (entries : List Entry) (start : State) (old new : Outside) (ending : End) (input before : List ℕ) →
        Legal settings start entries → StoodStill start.faults (end settings start entries).faults →
        BeginsAt start input before old → NoFaults old new →
        ServesStream settings (AllTell H.bytes) n entries old new ending →
        (fetched : List Fetch) × AreFetched (plans_of entries) fetched old.remote new.remote
        × IsAsPlayed settings n (record { state = start; input = input; fetched = fetched }) before new.output ending }
{}

/// Before its first turn a repository has no files, so each file that stands there is told.
pub fn first_files_are_told()
    ensures { (settings : Settings) (clock : Option Moments) → RowsTold (opening settings clock) }
{}

/// A worked exchange, from an empty repository, whatever the clock tells and the settings say beside its two repositories.
pub fn worked_exchange()
    ensures { IsAnswered (put_abc ++ last_get) (created_201 ++ abc_200) }
{}
