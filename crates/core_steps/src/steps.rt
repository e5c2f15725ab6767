// Steps in words: a command, or what a case does beside.
use crate::asks::Ask;
use crate::faults::WorldFault;
use crate::generated::told_of_generated;
use crate::replies::digest_of;
use mvn_coords::Side;
use mvn_digest::{Digest, read_side};
use repo_model::{Item, Question};
use std::alloc::{AllocError, Global};

/// Cores over memory, one after the other. The steps of a case know no more of a world, so that what a core promises is not carried
/// through them.
pub trait Cores: Drop {
    /// Begins again: nothing is recorded or stored, and no core runs. The calls of the store with these numbers fail; the first has the
    /// number 0.
    fn renew(&mut self, failing: &[u64]) -> Result<(), WorldFault>;

    /// Another world: nothing is recorded or stored in it, and no core runs.
    fn another(&self) -> Result<Self, WorldFault>;

    /// A start by a clock from this moment, each so many seconds after the one before: what it came to.
    fn start(&mut self, settings: &[u8], at: u64, step: u64) -> Result<String, WorldFault>;

    /// A start by a clock that stands at the first of these moments and tells the others, of which the last is repeated: what it came to.
    fn start_at(&mut self, settings: &[u8], moments: &[u64]) -> Result<String, WorldFault>;

    /// Ends the core that runs.
    fn stop(&mut self) -> Result<(), WorldFault>;

    /// How many calls the core had that was ended last, and what its clock then told.
    fn ended(&self) -> (u64, u64);

    /// The items that are recorded, while no core runs.
    fn items(&self) -> Result<&[Item], WorldFault>;

    /// New records, of which these calls fail.
    fn fail_at(&mut self, failing: &[u64]) -> Result<(), WorldFault>;

    /// The blobs that were removed from the store, in their order, and those that are there.
    fn told_blobs(&mut self) -> Result<String, WorldFault>;

    /// Stores bytes past the core.
    fn store(&mut self, blob: u64, bytes: &[u8]) -> Result<(), WorldFault>;

    /// Removes a blob past the core.
    fn remove(&mut self, blob: u64) -> Result<(), WorldFault>;

    /// Whether a command meets its condition.
    fn fits(&mut self, ask: Ask<'_>) -> Result<bool, WorldFault>;

    /// The reply to a command, in words; `unfit` where it does not meet its condition.
    fn ask(&mut self, ask: Ask<'_>) -> Result<String, WorldFault>;

    /// Keeps the parcel of a file that is there; whether there is one.
    fn borrow(&mut self, repo: &str, path: &str) -> Result<bool, WorldFault>;

    /// The bytes of the parcel that is kept.
    fn read(&mut self) -> Result<Vec<u8>, WorldFault>;

    /// Whether a session gives the draft of a number at a path of its own, and takes a file without bytes there.
    fn stages(&mut self, session: u64, number: u64) -> Result<bool, WorldFault>;
}

/// The number that a word is.
pub(crate) fn number_of(word: &str) -> Result<u64, WorldFault> {
    case_texts::number_of(word).ok_or(WorldFault::NoStep)
}

/// The numbers that words are.
pub(crate) fn numbers_of(alloc: Global, words: &[String]) -> Result<Vec<u64>, WorldFault> {
    let mut numbers: Vec<u64> = Vec::new(alloc);
    for word in words {
        numbers
            .push(number_of(word.as_str())?)
            .map_err(AllocError::from)?;
    }
    Ok(numbers)
}

/// The draft that a word is; none where it is `no-draft`.
fn draft_of(word: &str) -> Result<Option<u64>, WorldFault> {
    if word == "no-draft" {
        return Ok(None);
    }
    Ok(Some(number_of(word)?))
}

/// The digest that `sha1:` or `md5:` and small digits say.
pub(crate) fn said_by(word: &str) -> Result<Digest, WorldFault> {
    let read = match word.split_once(':') {
        Some(("sha1", digits)) => read_side(digits.as_bytes(), Side::Sha1),
        Some(("md5", digits)) => read_side(digits.as_bytes(), Side::Md5),
        Some(("sha256", digits)) => read_side(digits.as_bytes(), Side::Sha256),
        Some(("sha512", digits)) => read_side(digits.as_bytes(), Side::Sha512),
        _ => None,
    };
    read.ok_or(WorldFault::NoStep)
}

/// The command that these words are.
fn ask_of<'a>(key: &str, words: &'a [String]) -> Result<Ask<'a>, WorldFault> {
    match (key, words) {
        ("look", [repo, path]) => Ok(Ask::Look(repo.as_str(), path.as_str())),
        ("look-again", [repo, path, tried @ ..]) => {
            Ok(Ask::LookAgain(repo.as_str(), path.as_str(), tried))
        }
        ("land", [proxy, path, draft, words @ ..]) => Ok(Ask::Land(
            proxy.as_str(),
            path.as_str(),
            draft_of(draft.as_str())?,
            words,
        )),
        ("unlist", [repo]) => Ok(Ask::Unlist(repo.as_str())),
        ("open", [repo]) => Ok(Ask::Open(repo.as_str())),
        ("collect", []) => Ok(Ask::Collect),
        _ => put_of(key, words),
    }
}

/// What is put at a repository, or another command that these words are.
fn put_of<'a>(key: &str, words: &'a [String]) -> Result<Ask<'a>, WorldFault> {
    match (key, words) {
        ("may-put", [repo, path]) => Ok(Ask::MayPut(repo.as_str(), path.as_str())),
        ("put", [repo, path, draft, bytes]) => Ok(Ask::Put(
            repo.as_str(),
            path.as_str(),
            number_of(draft.as_str())?,
            bytes.as_bytes(),
        )),
        ("put-side", [repo, path, said]) => Ok(Ask::PutSide(
            repo.as_str(),
            path.as_str(),
            said_by(said.as_str())?,
        )),
        ("put-document", [repo, path]) => Ok(Ask::PutDoc(repo.as_str(), path.as_str())),
        _ => other_of(key, words),
    }
}

/// The question of this name, or the command of a number that these words are.
fn other_of<'a>(key: &str, words: &'a [String]) -> Result<Ask<'a>, WorldFault> {
    match words {
        [] => match Question::named(key) {
            Some(question) => Ok(Ask::Question(question)),
            None => Err(WorldFault::NoStep),
        },
        [number, rest @ ..] => numbered(key, number_of(number.as_str())?, rest),
    }
}

/// The command of a number that these words are: a lease, a draft or a session.
fn numbered<'a>(word: &str, number: u64, rest: &'a [String]) -> Result<Ask<'a>, WorldFault> {
    match (word, rest) {
        ("done", []) => Ok(Ask::Done(number)),
        ("drop", []) => Ok(Ask::Drop(number)),
        ("commit", []) => Ok(Ask::Commit(number)),
        ("abort", []) => Ok(Ask::Abort(number)),
        ("may-stage", [path]) => Ok(Ask::MayStage(number, path.as_str())),
        ("stage", [path, draft, bytes]) => Ok(Ask::Stage(
            number,
            path.as_str(),
            number_of(draft.as_str())?,
            bytes.as_bytes(),
        )),
        ("stage-side", [path, said]) => {
            Ok(Ask::StageSide(number, path.as_str(), said_by(said.as_str())?))
        }
        ("stage-document", [path]) => Ok(Ask::StageDoc(number, path.as_str())),
        _ => Err(WorldFault::NoStep),
    }
}

fn yes_or_no(alloc: Global, is_so: bool) -> Result<String, WorldFault> {
    Ok(String::from_str(alloc, if is_so { "yes" } else { "no" })?)
}

fn done(alloc: Global) -> Result<String, WorldFault> {
    Ok(String::from_str(alloc, "done")?)
}

/// The item at a place, in words.
fn told_item(alloc: Global, item: Option<&Item>) -> Result<String, WorldFault> {
    match item {
        Some(Item::Removed { repo, path }) => {
            let repo: &str = repo.as_str();
            let path: &str = path.as_str();
            Ok(format!(in alloc; "removed {repo} {path}")?)
        }
        Some(_) => Ok(String::from_str(alloc, "another")?),
        None => Ok(String::from_str(alloc, "none")?),
    }
}

/// Whether so many sessions are opened, which have the numbers from 1 on.
fn opens_all<W: Cores>(
    world: &mut W,
    alloc: Global,
    repo: &str,
    count: u64,
) -> Result<bool, WorldFault> {
    for number in 1..count.saturating_add(1) {
        let want: String = format!(in alloc; "session {number}")?;
        if world.ask(Ask::Open(repo))?.as_str() != want.as_str() {
            return Ok(false);
        }
    }
    Ok(true)
}

/// Whether so many files are staged, their drafts having the numbers from 1 on.
fn stages_all<W: Cores>(world: &mut W, session: u64, count: u64) -> Result<bool, WorldFault> {
    for number in 1..count.saturating_add(1) {
        if !world.stages(session, number)? {
            return Ok(false);
        }
    }
    Ok(true)
}

/// What is told of a world while no core runs, or of the blobs.
fn seen<W: Cores>(
    world: &mut W,
    alloc: Global,
    key: &str,
    words: &[String],
) -> Result<Option<String>, WorldFault> {
    match (key, words) {
        ("ended", []) => {
            let (calls, moment) = world.ended();
            Ok(Some(format!(in alloc; "{calls} {moment}")?))
        }
        ("recorded", []) => {
            let count: usize = world.items()?.len();
            Ok(Some(format!(in alloc; "{count}")?))
        }
        ("item", [place]) => {
            let place: usize = place
                .as_str()
                .parse::<usize>()
                .map_err(|_| WorldFault::NoStep)?;
            Ok(Some(told_item(alloc, world.items()?.get(place))?))
        }
        ("blobs", []) => Ok(Some(world.told_blobs()?)),
        ("generated", [count]) => {
            let told: &str = told_of_generated(world, alloc, number_of(count.as_str())?)?;
            Ok(Some(String::from_str(alloc, told)?))
        }
        ("read", []) => Ok(Some(String::from_utf8_lossy(alloc, world.read()?.as_slice())?)),
        ("side", [name, text]) => {
            let side: Side = if name.as_str() == "sha1" {
                Side::Sha1
            } else {
                Side::Md5
            };
            match read_side(text.as_bytes(), side) {
                Some(digest) => Ok(Some(digest_of(alloc, &digest)?)),
                None => Ok(Some(String::from_str(alloc, "none")?)),
            }
        }
        _ => Ok(None),
    }
}

/// Starts, in words: by a moment and a step, or at moments.
fn started<W: Cores>(
    world: &mut W,
    alloc: Global,
    key: &str,
    words: &[String],
) -> Result<Option<String>, WorldFault> {
    match (key, words) {
        ("start", [settings, at, step]) => Ok(Some(world.start(
            settings.as_bytes(),
            number_of(at.as_str())?,
            number_of(step.as_str())?,
        )?)),
        ("start-at", [settings, moments @ ..]) => {
            let moments: Vec<u64> = numbers_of(alloc, moments)?;
            Ok(Some(world.start_at(settings.as_bytes(), moments.as_slice())?))
        }
        _ => Ok(None),
    }
}

/// What is done beside commands, in words.
fn done_beside<W: Cores>(
    world: &mut W,
    alloc: Global,
    key: &str,
    words: &[String],
) -> Result<Option<String>, WorldFault> {
    match (key, words) {
        ("stop", []) => world.stop()?,
        ("records-fail", failing) => world.fail_at(numbers_of(alloc, failing)?.as_slice())?,
        ("blobs-fail", failing) => world.renew(numbers_of(alloc, failing)?.as_slice())?,
        ("store", [blob, bytes]) => world.store(number_of(blob.as_str())?, bytes.as_bytes())?,
        ("remove", [blob]) => world.remove(number_of(blob.as_str())?)?,
        _ => return Ok(None),
    }
    Ok(Some(done(alloc)?))
}

/// What is asked and answered by yes or no.
fn judged<W: Cores>(
    world: &mut W,
    alloc: Global,
    key: &str,
    words: &[String],
) -> Result<Option<String>, WorldFault> {
    let is_so: bool = match (key, words) {
        ("borrow", [repo, path]) => world.borrow(repo.as_str(), path.as_str())?,
        ("open-all", [repo, count]) => {
            opens_all(world, alloc, repo.as_str(), number_of(count.as_str())?)?
        }
        ("stage-all", [session, count]) => stages_all(
            world,
            number_of(session.as_str())?,
            number_of(count.as_str())?,
        )?,
        ("fits", [word, rest @ ..]) => world.fits(ask_of(word.as_str(), rest)?)?,
        _ => return Ok(None),
    };
    Ok(Some(yes_or_no(alloc, is_so)?))
}

/// Takes the step of a word and of those after it: what is told of it.
pub fn take<W: Cores>(
    world: &mut W,
    alloc: Global,
    key: &str,
    words: &[String],
) -> Result<String, WorldFault> {
    if let Some(told) = started(world, alloc, key, words)? {
        return Ok(told);
    }
    if let Some(told) = done_beside(world, alloc, key, words)? {
        return Ok(told);
    }
    if let Some(told) = judged(world, alloc, key, words)? {
        return Ok(told);
    }
    match seen(world, alloc, key, words)? {
        Some(told) => Ok(told),
        None => world.ask(ask_of(key, words)?),
    }
}
