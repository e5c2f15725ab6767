//! A recorded file is looked at and taken up by its repository or proxy.
ghost use Rattle.std.specs.Prelude.{◌≡◌, ◌≤◌, ◌∷◌, [], None, IsTrue, OnOk};
ghost use Rattle.std.specs.List.{position};
ghost use Rattle.repo_model.specs.Data.{listed};
ghost use Rattle.repo_model.specs.History.{latest_moment};
ghost use Rattle.repo_model.specs.Prints.{print_in};
ghost use Rattle.repo_model.specs.Shown.{shown_print};
ghost use Rattle.repo_model.specs.State.{is_proxy, is_repository, row_at};
ghost use Rattle.repo_model.specs.Paths.{FadesRightly};
ghost use Rattle.repo_laws.specs.Files.{files_in};
ghost use Rattle.ordered_rows.specs.Rows as rows;
ghost use Rattle.row_tables.specs.Items.{is_file_path};
ghost use Rattle.row_tables.specs.Stored as stored;
ghost use Rattle.blob_audit.specs.Damages.{AreDamaged};
ghost use Rattle.blob_audit.specs.Files.{shown_file};
ghost use Rattle.repo_restart.specs.Faults.{HasRestoreCause, OnDamage};
ghost use Rattle.repo_restart.specs.Taking.{CanTake, TakesFile, rows_in, with_cached, with_file, with_proxys_file, with_taken};

use crate::faults::RestoreFault;
use blob_audit::{Found, RecordedFile, damage_of, look_at};
use hosted_repo::{HostedBuilder, Phase};
use outside::{Blobs, Held, NoMemory, Parcel, Piece};
use proxy_rules::Proxy;
use row_tables::RowPhase;
use std::alloc::{AllocError, Global};

// The phase that was recorded.
fn phase_of(phase: RowPhase) -> Phase
    ensures { rows.shown_phase result ≡ stored.shown_phase phase }
{
    match phase {
        RowPhase::Listed => Phase::Listed,
        RowPhase::Fading(since) => Phase::Fading(since),
    }
}

// The place of the repository of an id.
fn place_of<H: Held>(repos: &[HostedBuilder<H>], id: &str) -> Option<usize>
    ensures { result ≡ position (is_repository id.now) repos.now }
{
    repos.iter().position(|repo| repo.has_id(id))
}

// The row of a hosted file comes back with its blob, to the repository of its id. Where there is none the blob is let go.
fn take_row<H: Held>(
    repos: &mut Vec<HostedBuilder<H>>,
    file: &RecordedFile<'_>,
    parcel: Parcel<H>,
) -> Result<(), NoMemory>
    requires path { IsTrue (is_file_path (shown_file file.now).row.row.path) }
    requires moment { file.now.row.now.accepted ≤ latest_moment }
    requires fading { FadesRightly (shown_file file.now).row.row }
    requires free { row_at (shown_file file.now).row.row.path (rows_in (shown_file file.now).row.repo repos.old.items) ≡ None }
    requires number { parcel.blob ≡ file.now.row.now.blob }
    requires print { shown_print parcel ≡ print_in file.now.row.now.print }
    ensures { OnOk result (repos.new.items ≡ with_taken (shown_file file.now).row (H.bytes parcel.held) repos.old.items) }
{
    let Some(place) = place_of(repos, file.place.0.as_str()) else {
        return Ok(());
    };
    let row = file.row;
    match repos[place].restore(
        file.place.1.as_str(),
        parcel,
        row.accepted,
        phase_of(row.phase),
    ) {
        Ok(()) => Ok(()),
        Err(_let_go) => Err(AllocError),
    }
}

/// The place of the proxy of an id.
pub fn proxy_place<H: Held>(proxies: &[Proxy<H>], id: &str) -> Option<usize>
    ensures { result ≡ position (is_proxy id.now) proxies.now }
{
    proxies.iter().position(|proxy| proxy.has_id(id))
}

// A proxy's file comes back with its blob, to the proxy of its id. Where there is none the blob is let go.
fn take_cached<H: Held>(
    proxies: &mut Vec<Proxy<H>>,
    file: &RecordedFile<'_>,
    parcel: Parcel<H>,
) -> Result<(), NoMemory>
    requires path { IsTrue (is_file_path (shown_file file.now).row.row.path) }
    requires moment { file.now.row.now.accepted ≤ latest_moment }
    requires visible { (shown_file file.now).row.row.phase ≡ listed }
    requires free { row_at (shown_file file.now).row.row.path (files_in (shown_file file.now).row.repo proxies.old.items) ≡ None }
    requires number { parcel.blob ≡ file.now.row.now.blob }
    requires print { shown_print parcel ≡ print_in file.now.row.now.print }
    ensures { OnOk result (proxies.new.items ≡ with_cached (shown_file file.now).row (H.bytes parcel.held) proxies.old.items) }
{
    let Some(place) = proxy_place(proxies, file.place.0.as_str()) else {
        return Ok(());
    };
    match proxies[place].restore_file(file.place.1.as_str(), parcel, file.row.accepted) {
        Ok(()) => Ok(()),
        Err(_let_go) => Err(AllocError),
    }
}

// Takes up a file with its blob.
fn take_parcel<H: Held>(
    repos: &mut Vec<HostedBuilder<H>>,
    proxies: &mut Vec<Proxy<H>>,
    file: &RecordedFile<'_>,
    parcel: Parcel<H>,
) -> Result<(), NoMemory>
    requires can { CanTake (shown_file file.now) repos.old.items proxies.old.items }
    requires number { parcel.blob ≡ file.now.row.now.blob }
    requires print { shown_print parcel ≡ print_in file.now.row.now.print }
    ensures repos { OnOk result (repos.new.items ≡ with_file (shown_file file.now) (H.bytes parcel.held) repos.old.items) }
    ensures proxies { OnOk result (proxies.new.items ≡ with_proxys_file (shown_file file.now) (H.bytes parcel.held) proxies.old.items) }
{
    if file.is_hosted {
        take_row(repos, file, parcel)
    } else {
        take_cached(proxies, file, parcel)
    }
}

/// Looks at the blob of a recorded file in the room that is lent, and takes a sound file up. `Damaged` comes where the blob is
/// not the recorded one.
pub fn take_file<B: Blobs>(
    alloc: Global,
    blobs: &mut B,
    repos: &mut Vec<HostedBuilder<B::Held>>,
    proxies: &mut Vec<Proxy<B::Held>>,
    file: &RecordedFile<'_>,
    room: &mut Piece,
) -> Result<(), RestoreFault>
    requires { CanTake (shown_file file.now) repos.old.items proxies.old.items }
    ensures taken { OnOk result (TakesFile (B.shelf blobs.old) (shown_file file.now) repos.old.items repos.new.items proxies.old.items proxies.new.items) }
    ensures damaged { OnDamage result (λ damage. AreDamaged (B.shelf blobs.old) ((shown_file file.now).row ∷ []) (damage ∷ [])) }
    ensures cause { HasRestoreCause (B.faults blobs.old) (B.faults blobs.new) result }
    ensures kept { B.shelf blobs.new ≡ B.shelf blobs.old }
{
    match look_at(blobs, file.row, room)? {
        Found::Whole(parcel) => take_parcel(repos, proxies, file, parcel)?,
        Found::Other(found) => return Err(RestoreFault::Damaged(damage_of(alloc, file, found)?)),
    }
    Ok(())
}
