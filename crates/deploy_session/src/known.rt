//! The sessions that are known, by number.
ghost use Rattle.std.specs.Prelude.{◌≡◌, ◌∷◌, ◌++◌, ℕ, [], None, Some, true, find, is_some, IsTrue, OnOk, OnErr};
ghost use Rattle.std.specs.List.{list_all};
ghost use Rattle.std.specs.Option.{option_map};
ghost use Rattle.repo_model.specs.Data.{Blob};
ghost use Rattle.repo_model.specs.Shown.{shown_parcel};
ghost use Rattle.repo_model.specs.State.{is_open_at, is_session, change_first};
ghost use Rattle.repo_model.specs.Effect.{stages, sessions_after};
ghost use Rattle.repo_model.specs.Turn.{staged_at, stage_in};
ghost use Rattle.deploy_session.specs.Known.{is_drawn};
ghost use Rattle.deploy_session.specs.Shown.{shown_session, shown_sessions, IsJudged};

use crate::answers::{Stage, Standing};
use crate::files::{self, MOST_STAGED};
use outside::{Held, NoMemory, Parcel};
use repo_model::{Print, SessionResult};
use std::alloc::Global;
use std::collections::BTreeMap;
use texts::Text;

/// A session for the hosted repository of an id: its staged files by path, or how it ended.
#[derive(Drop)]
pub struct Session<H: Held> {
    pub repo: Text,
    pub files: BTreeMap<String, Parcel<H>>,
    pub ended: Option<SessionResult>,
}

/// The session of a number, open or ended.
pub fn session_of<'a, H: Held>(
    known: &'a BTreeMap<u64, Session<H>>,
    number: u64,
) -> Option<&'a Session<H>>
    ensures { option_map (λ s. shown_session (number, s.now)) result ≡ find (is_session number) (shown_sessions known.now.entries) }
{
    known.get(&number)
}

/// The session that is open under a number.
pub fn open_of<'a, H: Held>(
    known: &'a BTreeMap<u64, Session<H>>,
    number: u64,
) -> Option<&'a Session<H>>
    ensures { option_map (λ s. shown_session (number, s.now)) result ≡ find (is_open_at number) (shown_sessions known.now.entries) }
{
    // Its contract says that the numbers rise.
    let _len = known.len();
    let Some(session) = session_of(known, number) else {
        return None;
    };
    if session.ended.is_some() {
        return None;
    }
    Some(session)
}

/// Whether a content of this fingerprint may be staged at a path; else what staging it comes to.
pub fn judge<H: Held>(
    known: &BTreeMap<u64, Session<H>>,
    number: u64,
    path: &str,
    sent: Print,
) -> Result<(), Stage>
    ensures { (n : ℕ) (blob : Blob) → blob.print ≡ sent
        → IsJudged result n (stage_in path.now n blob (find (is_open_at number) (shown_sessions known.now.entries))) }
{
    let Some(session) = open_of(known, number) else {
        return Err(Stage::NoSession);
    };
    match files::standing(&session.files, path, sent) {
        Standing::Free => {
            if session.files.len() >= MOST_STAGED {
                Err(Stage::SessionFull)
            } else {
                Ok(())
            }
        }
        Standing::Other(kept) => Err(Stage::Taken { kept, sent }),
        Standing::Same => Err(Stage::Same),
    }
}

/// Adds a session under a number that is greater than all.
pub fn add<H: Held>(
    known: &mut BTreeMap<u64, Session<H>>,
    number: u64,
    session: Session<H>,
) -> Result<(), NoMemory>
    requires { IsTrue (list_all (is_drawn number) (shown_sessions known.old.entries)) }
    ensures ok { OnOk result (known.new.entries ≡ known.old.entries ++ (number, session) ∷ []) }
    ensures err { OnErr result (known.new.entries ≡ known.old.entries) }
{
    known.insert(number, session)?;
    Ok(())
}

/// Adds a file to the session that is open under a number, which has none at the path.
pub fn add_file<H: Held>(
    alloc: Global,
    known: &mut BTreeMap<u64, Session<H>>,
    number: u64,
    path: &str,
    parcel: Parcel<H>,
) -> Result<(), NoMemory>
    requires { option_map (λ session. staged_at path.now session.staged) (find (is_open_at number) (shown_sessions known.old.entries)) ≡ Some None }
    ensures ok { OnOk result (shown_sessions known.new.entries ≡ sessions_after (stages number path.now (shown_parcel parcel)) (shown_sessions known.old.entries)) }
    ensures err { OnErr result (shown_sessions known.new.entries ≡ shown_sessions known.old.entries) }
{
    let Some(session) = known.get_mut(&number) else {
        return Ok(());
    };
    files::add(alloc, &mut session.files, path, parcel)
}

/// Ends the session that is open under a number; its files are its own no more.
pub fn end<H: Held>(
    alloc: Global,
    known: &mut BTreeMap<u64, Session<H>>,
    number: u64,
    how: SessionResult,
)
    requires { is_some (find (is_open_at number) (shown_sessions known.old.entries)) ≡ true }
    ensures { shown_sessions known.new.entries
        ≡ change_first (is_open_at number) (λ session. record session { staged = []; ended = Some how }) (shown_sessions known.old.entries) }
{
    if let Some(session) = known.get_mut(&number) {
        session.files = BTreeMap::new(alloc);
        session.ended = Some(how);
    }
}
