//! Sessions after a start, from those that are recorded.
ghost use Rattle.std.specs.Prelude.{◌≡◌, ◌++◌, fold, max, IsTrue, IfOk, OnOk};
ghost use Rattle.std.specs.List.{list_all};
ghost use Rattle.repo_model.specs.Restart.{session_from, sessions_from};
ghost use Rattle.repo_model.specs.Tables.{RecordedSession};
ghost use Rattle.row_tables.specs.Applying.{AreRising};
ghost use Rattle.row_tables.specs.Items.{is_number};
ghost use Rattle.row_tables.specs.Stored as stored;
ghost use Rattle.deploy_session.specs.Known.{is_drawn};
ghost use Rattle.deploy_session.specs.Shown.{shown_sessions};

use crate::known::{self, Session};
use outside::{Held, NoMemory};
use row_tables::SessionRow;
use std::alloc::Global;
use std::collections::BTreeMap;
use texts::Text;

// Adds a recorded session whose number is greater than all, if it has ended.
fn add_ended<H: Held>(
    alloc: Global,
    known: &mut BTreeMap<u64, Session<H>>,
    row: SessionRow,
) -> Result<(), NoMemory>
    requires { IsTrue (list_all (is_drawn row.number) (shown_sessions known.old.entries)) }
    ensures { OnOk result (shown_sessions known.new.entries ≡ shown_sessions known.old.entries ++ session_from row.number row.result) }
{
    let Some(how) = row.result else {
        return Ok(());
    };
    // Its repository is of no more use.
    let session = Session {
        repo: Text::new(alloc, "")?,
        files: BTreeMap::new(alloc),
        ended: Some(how),
    };
    known::add(known, row.number, session)
}

/// The recorded sessions that have ended.
pub fn ended_of<H: Held>(
    alloc: Global,
    rows: &[SessionRow],
) -> Result<BTreeMap<u64, Session<H>>, NoMemory>
    requires rising { AreRising (stored.shown_sessions rows.now) }
    requires numbers { IsTrue (list_all (λ (s : RecordedSession). is_number s.number) (stored.shown_sessions rows.now)) }
    ensures { IfOk result (λ known. shown_sessions known.entries ≡ sessions_from (stored.shown_sessions rows.now)) }
{
    let mut known = BTreeMap::new(alloc);
    for row in rows {
        add_ended(alloc, &mut known, *row)?;
    }
    Ok(known)
}

/// The greatest number of a recorded session, or 0.
pub fn greatest_of(rows: &[SessionRow]) -> u64
    ensures { result ≡ fold (λ m (one : RecordedSession). max m one.number) 0 (stored.shown_sessions rows.now) }
{
    let mut greatest = 0;
    for row in rows {
        greatest = greatest.max(row.number);
    }
    greatest
}
