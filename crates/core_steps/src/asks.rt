// What a core is asked, as plain values.
use mvn_digest::Digest;
use repo_model::Question;

/// A command: repositories, paths, numbers and contents.
#[derive(Clone, Copy)]
pub enum Ask<'a> {
    Look(&'a str, &'a str),
    // where the remotes of these members were tried already
    LookAgain(&'a str, &'a str, &'a [String]),
    Done(u64),
    MayPut(&'a str, &'a str),
    Put(&'a str, &'a str, u64, &'a [u8]),
    Drop(u64),
    PutSide(&'a str, &'a str, Digest),
    PutDoc(&'a str, &'a str),
    Unlist(&'a str),
    Collect,
    Question(Question),
    Open(&'a str),
    // at a session
    MayStage(u64, &'a str),
    Stage(u64, &'a str, u64, &'a [u8]),
    Commit(u64),
    Abort(u64),
    StageSide(u64, &'a str, Digest),
    StageDoc(u64, &'a str),
    // what came of a fetch: of which proxy and path, under which draft, and in which words
    Land(&'a str, &'a str, Option<u64>, &'a [String]),
}
