//! Sessions that open and end once that is recorded.
ghost use Rattle.std.specs.Prelude.{◌≡◌, ◌<◌, ◌∷◌, [], Some, true, find, is_some, IsTrue, IfOk, OnOk, OnErr};
ghost use Rattle.std.specs.List.{list_all};
ghost use Rattle.repo_model.specs.declared.item.Item.TheVariants.{SessionOpened, SessionEnded};
ghost use Rattle.repo_model.specs.Effect.{opens, sessions_after};
ghost use Rattle.repo_model.specs.State.{is_open_at, change_first, number_end};
ghost use Rattle.row_tables.specs.Leaving.{Leaves, MayTake, end_of};
ghost use Rattle.deploy_session.specs.Known.{is_drawn};
ghost use Rattle.deploy_session.specs.Shown.{shown_sessions};

use crate::known::{self, Session};
use hosted_repo::change_of;
use outside::{Held, NoMemory};
use repo_model::{Item, SessionResult};
use row_tables::{Change, CommitFault, Records};
use std::alloc::Global;
use std::collections::BTreeMap;
use texts::Text;

// The change that a session is which opens.
fn opened_change(alloc: Global, number: u64) -> Result<Change, NoMemory>
    requires first { 0 < number }
    requires last { number < number_end }
    ensures { IfOk result (λ change. change ≡ SessionOpened number ∷ []) }
{
    change_of(alloc, Item::SessionOpened(number))
}

// The change that a session is which is given up.
fn ended_change(alloc: Global, number: u64) -> Result<Change, NoMemory>
    requires first { 0 < number }
    requires last { number < number_end }
    ensures { IfOk result (λ change. change ≡ SessionEnded number SessionResult.Aborted ∷ []) }
{
    let result = SessionResult::Aborted;
    change_of(
        alloc,
        Item::SessionEnded {
            session: number,
            result,
        },
    )
}

/// Opens a session under a number that is greater than all, once that is recorded. Where that fails nothing is changed.
pub fn begin<H: Held, K: Records>(
    alloc: Global,
    known: &mut BTreeMap<u64, Session<H>>,
    records: &mut K,
    number: u64,
    repo: &str,
) -> Result<(), CommitFault>
    requires first { 0 < number }
    requires last { number < number_end }
    requires drawn { IsTrue (list_all (is_drawn number) (shown_sessions known.old.entries)) }
    requires records { MayTake (SessionOpened number ∷ []) (K.shows records.old) }
    ensures ok { OnOk result (shown_sessions known.new.entries ≡ sessions_after (opens number repo.now) (shown_sessions known.old.entries)) }
    ensures err { OnErr result (shown_sessions known.new.entries ≡ shown_sessions known.old.entries) }
    ensures records { Leaves (SessionOpened number ∷ []) (end_of result) (K.shows records.old) (K.shows records.new) }
{
    let repo = Text::new(alloc, repo)?;
    let change = opened_change(alloc, number)?;
    let session = Session {
        repo,
        files: BTreeMap::new(alloc),
        ended: None,
    };
    // The session makes its own room, and goes again where it is not recorded.
    known::add(known, number, session)?;
    if let Err(fault) = records.commit(alloc, &change) {
        known.remove(&number);
        return Err(fault);
    }
    Ok(())
}

/// Gives the session up that is open under a number, once that is recorded. Where that fails nothing is changed.
pub fn give_up<H: Held, K: Records>(
    alloc: Global,
    known: &mut BTreeMap<u64, Session<H>>,
    records: &mut K,
    number: u64,
) -> Result<(), CommitFault>
    requires first { 0 < number }
    requires last { number < number_end }
    requires there { is_some (find (is_open_at number) (shown_sessions known.old.entries)) ≡ true }
    requires records { MayTake (SessionEnded number SessionResult.Aborted ∷ []) (K.shows records.old) }
    ensures ok { OnOk result (shown_sessions known.new.entries
        ≡ change_first (is_open_at number) (λ session. record session { staged = []; ended = Some SessionResult.Aborted }) (shown_sessions known.old.entries)) }
    ensures err { OnErr result (known.new.entries ≡ known.old.entries) }
    ensures records { Leaves (SessionEnded number SessionResult.Aborted ∷ []) (end_of result) (K.shows records.old) (K.shows records.new) }
{
    let change = ended_change(alloc, number)?;
    records.commit(alloc, &change)?;
    known::end(alloc, known, number, SessionResult::Aborted);
    Ok(())
}
