//! A start: what is recorded and stored becomes a repository.
ghost use Rattle.std.specs.Prelude.{◌≡◌, ◌⊎◌, [], None, Option, IfOk, IfErr, IfSome, OnOk, OnErr};
ghost use Rattle.std.specs.Option.{ForSome, option_map};
ghost use Rattle.outside.specs.Moments.{Moments};
ghost use Rattle.repo_config.specs.Form.{IsSettings};
ghost use Rattle.repo_model.specs.Restart.{blobs_named};
ghost use Rattle.repo_model.specs.State.{opening};
ghost use Rattle.repo_model.specs.Tables.{Tables as Plain, no_tables};
ghost use Rattle.repo_laws.specs.Holds.{StandsFor};
ghost use Rattle.row_tables.specs.Recorded.{IsBuiltUp};
ghost use Rattle.row_tables.specs.Crashes.{Rests};
ghost use Rattle.blob_audit.specs.Order.{all_rows};
ghost use Rattle.repo_restart.specs.Faults.{HasRestoreCause};
ghost use Rattle.repo_restart.specs.Faults as restoring;
ghost use Rattle.repo_restart.specs.Leftovers.{ClearsFront};
ghost use Rattle.blob_audit.specs.Damages.{IsFirstDamaged};
ghost use Rattle.row_completion.specs.Completion.{IsComplete, IsDigested, IsDigestedWhereTold};
ghost use Rattle.repo_parts.specs.Hosted.{AreInUse};
ghost use Rattle.repo_parts.specs.Proxies.{AreCachedInUse};
ghost use Rattle.repo_parts.specs.Shelves.{AreShelved};
ghost use Rattle.repo_core.specs.Start.{AreCompleted, AreLoaded, Starts};
ghost use Rattle.repo_core.specs.StartFaults.{HasStartCause, IsUnread, OnDamage, RefusesAs};
ghost use Rattle.repo_core.specs.Stock.{state_of};
ghost use Rattle.repo_core.specs.Whole.{counting};

use crate::faults::StartFault;
use crate::loading::load;
use crate::machine::{Machine, Stock};
use crate::repository::Core;
use blob_yard::Yard;
use deploy_session::Sessions;
use outside::{Blobs, Clock};
use repo_config::Settings;
use repo_parts::empty_shelves;
use repo_restart::{RestoreFault, restore};
use row_tables::{Records, Tables};
use std::alloc::Global;

// Rows, documents, numbers and sessions, by what is recorded; the shelves are empty.
fn stock_of<B: Blobs>(
    alloc: Global,
    settings: &Settings,
    tables: &Tables,
    blobs: &mut B,
) -> Result<Stock<B::Held>, RestoreFault>
    requires built { IsBuiltUp tables.now }
    requires complete { IsComplete tables.now }
    requires form { IsSettings settings.now }
    ensures starts { IfOk result (λ stock. (clock : Option Moments)
        → Starts settings.now tables.now (B.shelf blobs.old) (B.shelf blobs.new) clock 0 (state_of stock clock)) }
    ensures kept { IfOk result (λ stock. AreInUse stock.yard.kept stock.repos.items) }
    ensures cached { IfOk result (λ stock. AreCachedInUse stock.yard.kept stock.proxies.items) }
    ensures numbers { IfOk result (λ stock. stock.yard.yard.next_session ≡ stock.sessions.next) }
    ensures shelved { IfOk result (λ stock. AreShelved settings.now.groups stock.repos.items stock.proxies.items stock.shelves.items) }
    ensures damaged { restoring.OnDamage result (λ damage.
        IsFirstDamaged (B.shelf blobs.old) (all_rows tables.now) damage × (B.shelf blobs.new ≡ B.shelf blobs.old)) }
    ensures shelf { OnErr result (ClearsFront (blobs_named tables.now) (B.shelf blobs.old) (B.shelf blobs.new)) }
    ensures cause { HasRestoreCause (B.faults blobs.old) (B.faults blobs.new) result }
{
    let sessions = Sessions::start(alloc, tables)?;
    let shelves = empty_shelves(alloc, settings.groups())?;
    let restored = restore(alloc, settings.hosted(), settings.proxies(), tables, blobs)?;
    let next = restored.next;
    let yard = Yard::start(alloc, &restored.named, next, sessions.next_number())?;
    Ok(Stock {
        repos: restored.repos,
        proxies: restored.proxies,
        shelves,
        yard,
        sessions,
        last: tables.greatest_moment(),
    })
}

/// A repository by these settings, over what is recorded and stored.
///
/// The records are loaded; a refusal of theirs ends the call. Where recorded files lack SHA-256 and SHA-512 these are completed,
/// as `row_completion::complete` does, which reads each recorded file: what a blob is found to have is committed, and nothing else is.
/// Then each recorded file is looked at: its blob is read once more and compared with what was recorded, and the first that
/// differs, or is not there, is `Damaged`. Then the blobs that no row names are removed, in the order of the store; where that fails, or memory runs out,
/// the first ones of these are gone and no others. `Store` comes where the records or the store failed.
///
/// The state is the one that the machine's definition makes of the tables so completed: rows with the bytes that stand, documents
/// of proxies, which know no path that their remotes lack, results of sessions, no drafts, leases and open sessions, and the
/// greatest moment that is recorded. At an error the records and the clock come back.
pub fn start<K: Records, B: Blobs, C: Clock>(
    alloc: Global,
    settings: Settings,
    mut records: K,
    blobs: &mut B,
    clock: C,
) -> Result<Core<K, C, B::Held>, (StartFault, K, C)>
    ensures settings { IfOk result (λ core. core.settings ≡ settings) }
    ensures state { IfOk result (λ core. (t : Plain) × AreCompleted (K.shows records).tables (K.loading records) (B.shelf blobs.old) t
        × (core.tables ≡ option_map (λ _. t) (K.shows records).tables)
        × Starts settings t (B.shelf blobs.old) (B.shelf blobs.new) (C.moments clock) (K.shows records).faults core.state) }
    ensures tables { IfOk result (λ core. IsDigestedWhereTold (B.shelf blobs.old) (K.shows records).tables core.tables) }
    ensures complete { IfOk result (λ core. ForSome core.tables IsComplete) }
    ensures stands { IfOk result (λ core. ForSome core.tables (λ t. StandsFor t core.state)) }
    ensures calls { IfOk result (λ core. core.calls ≡ 0) }
    ensures settled { IfOk result (λ core. core.unsettled.pending ≡ None) }
    ensures rests { IfOk result (λ core. Rests core.tables core.unsettled) }
    // Where nothing was recorded or stored yet, it is the state before the first turn.
    ensures opening { IfOk result (λ core. IfSome (K.shows records).tables (λ t. t ≡ no_tables → IfSome (B.shelf blobs.old).blobs (λ them. them ≡ []
        → core.state ≡ counting (K.shows records).faults (opening settings (C.moments clock))))) }
    ensures still { OnOk result (B.faults blobs.new ≡ B.faults blobs.old) }
    ensures refused { IfErr result (λ error. IfSome (K.loading records) (λ expected. RefusesAs expected error.0)) }
    ensures unread { IfErr result (λ error. IsUnread error.0 → (K.shows records).tables ≡ None) }
    ensures damaged { IfErr result (λ error. OnDamage error.0 (λ damage. (loaded t : Plain)
        × AreLoaded (K.shows records).tables (K.loading records) loaded × IsDigested (B.shelf blobs.old) loaded t × IsFirstDamaged (B.shelf blobs.old) (all_rows t) damage × (B.shelf blobs.new ≡ B.shelf blobs.old))) }
    ensures shelf { OnErr result ((B.shelf blobs.new ≡ B.shelf blobs.old) ⊎ ((t : Plain) × AreLoaded (K.shows records).tables (K.loading records) t
        × ClearsFront (blobs_named t) (B.shelf blobs.old) (B.shelf blobs.new))) }
    ensures cause { IfErr result (λ error.
        HasStartCause (K.shows records).faults (K.shows error.1).faults (B.faults blobs.old) (B.faults blobs.new) error.0) }
    ensures records { IfErr result (λ error. IsDigestedWhereTold (B.shelf blobs.old) (K.shows records).tables (K.shows error.1).tables) }
    ensures clock { IfErr result (λ error. error.2 ≡ clock) }
{
    // Their ids differ, and have their form.
    settings.form();
    let tables = match load(alloc, &mut records, blobs) {
        Ok(tables) => tables,
        Err(fault) => return Err((fault, records, clock)),
    };
    match stock_of(alloc, &settings, &tables, blobs) {
        Ok(stock) => Ok(Core::over(Machine::of(settings, stock, clock), records)),
        Err(fault) => Err((StartFault::from(fault), records, clock)),
    }
}
