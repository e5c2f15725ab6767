// Commands of plain values.
use crate::asks::Ask;
use crate::blobs::{CaseBlobs, CaseHeld};
use crate::faults::WorldFault;
use crate::fetched::land;
use crate::steps::numbers_of;
use ids::Id;
use mvn_digest::{Digest, Hashes};
use outside::Parcel;
use outside_memory::store_whole;
use repo_model::{Command, Numbers, Place};
use std::alloc::Global;
use texts::Text;

type CaseCommand = Command<CaseHeld>;

/// A parcel of these bytes, stored under a number.
pub fn parcel_of(
    blobs: &mut CaseBlobs,
    blob: u64,
    bytes: &[u8],
) -> Result<Parcel<CaseHeld>, WorldFault> {
    let mut hashes = Hashes::new();
    hashes.update(bytes);
    let held = store_whole(blobs, blob, bytes)?;
    Ok(Parcel {
        blob,
        held,
        length: bytes.len() as u64,
        digests: hashes.finish(),
    })
}

/// A text of which nothing is known.
pub(crate) fn text_of(alloc: Global, text: &str) -> Result<Text, WorldFault> {
    Ok(Text::new(alloc, text)?)
}

fn place_at(alloc: Global, repo: &str) -> Result<Place, WorldFault> {
    Ok(Place::Repository(text_of(alloc, repo)?))
}

fn look(
    alloc: Global,
    repo: &str,
    path: &str,
    tried: &[String],
) -> Result<CaseCommand, WorldFault> {
    let tried = Numbers::from_vec(numbers_of(alloc, tried)?);
    let repo = text_of(alloc, repo)?;
    let path = text_of(alloc, path)?;
    Ok(Command::Look { repo, path, tried })
}

fn unlist(alloc: Global, repo: &str) -> Result<CaseCommand, WorldFault> {
    let repo = Id::from_text(text_of(alloc, repo)?);
    Ok(Command::Unlist { repo })
}

fn open(alloc: Global, repo: &str) -> Result<CaseCommand, WorldFault> {
    let repo = text_of(alloc, repo)?;
    Ok(Command::Open { repo })
}

fn put(
    alloc: Global,
    repo: &str,
    path: &str,
    parcel: Parcel<CaseHeld>,
) -> Result<CaseCommand, WorldFault> {
    let repo = text_of(alloc, repo)?;
    let path = text_of(alloc, path)?;
    Ok(Command::Put {
        repo,
        path,
        draft: parcel.blob,
        parcel,
    })
}

/// The command that stages a parcel in a session.
pub fn stage(
    alloc: Global,
    session: u64,
    path: &str,
    parcel: Parcel<CaseHeld>,
) -> Result<CaseCommand, WorldFault> {
    let path = text_of(alloc, path)?;
    Ok(Command::Stage {
        session,
        path,
        draft: parcel.blob,
        parcel,
    })
}

/// The command that asks for a draft.
pub fn may_put(alloc: Global, place: Place, path: &str) -> Result<CaseCommand, WorldFault> {
    let path = text_of(alloc, path)?;
    Ok(Command::MayPut { place, path })
}

fn put_side(
    alloc: Global,
    place: Place,
    path: &str,
    said: Digest,
) -> Result<CaseCommand, WorldFault> {
    let path = text_of(alloc, path)?;
    Ok(Command::PutSide { place, path, said })
}

fn put_doc(alloc: Global, place: Place, path: &str) -> Result<CaseCommand, WorldFault> {
    let path = text_of(alloc, path)?;
    Ok(Command::PutDoc { place, path })
}

// A command at a place in a repository.
fn at_repository(alloc: Global, repo: &str, ask: Ask<'_>) -> Result<CaseCommand, WorldFault> {
    let place = place_at(alloc, repo)?;
    match ask {
        Ask::MayPut(_, path) => may_put(alloc, place, path),
        Ask::PutSide(_, path, said) => put_side(alloc, place, path, said),
        Ask::PutDoc(_, path) => put_doc(alloc, place, path),
        _ => Err(WorldFault::NoStep),
    }
}

/// The command that is asked; the bytes of a file are stored first.
pub fn command_of(
    alloc: Global,
    blobs: &mut CaseBlobs,
    ask: Ask<'_>,
) -> Result<CaseCommand, WorldFault> {
    match ask {
        Ask::Look(repo, path) => look(alloc, repo, path, &[]),
        Ask::LookAgain(repo, path, tried) => look(alloc, repo, path, tried),
        Ask::Done(lease) => Ok(Command::Done { lease }),
        Ask::Drop(draft) => Ok(Command::Drop { draft }),
        Ask::MayPut(repo, _) | Ask::PutSide(repo, _, _) | Ask::PutDoc(repo, _) => {
            at_repository(alloc, repo, ask)
        }
        Ask::Put(repo, path, draft, bytes) => put(
            alloc,
            repo,
            path,
            parcel_of(blobs, draft, bytes)?,
        ),
        Ask::Unlist(repo) => unlist(alloc, repo),
        Ask::Collect => Ok(Command::Collect),
        Ask::Question(question) => Ok(Command::Ask(question)),
        Ask::Open(repo) => open(alloc, repo),
        Ask::Land(proxy, path, draft, words) => land(alloc, blobs, proxy, path, draft, words),
        _ => session_command_of(alloc, blobs, ask),
    }
}

fn session_command_of(
    alloc: Global,
    blobs: &mut CaseBlobs,
    ask: Ask<'_>,
) -> Result<CaseCommand, WorldFault> {
    match ask {
        Ask::MayStage(number, path) => may_put(alloc, Place::Session(number), path),
        Ask::Stage(session, path, draft, bytes) => {
            stage(alloc, session, path, parcel_of(blobs, draft, bytes)?)
        }
        Ask::Commit(session) => Ok(Command::Commit { session }),
        Ask::Abort(session) => Ok(Command::Abort { session }),
        Ask::StageSide(number, path, said) => {
            put_side(alloc, Place::Session(number), path, said)
        }
        Ask::StageDoc(number, path) => put_doc(alloc, Place::Session(number), path),
        _ => Err(WorldFault::NoStep),
    }
}
