//! Recorded files in an ordered map.
ghost use Rattle.std.specs.Prelude.{◌≡◌, None, not, filter, OnOk, OnErr, string_bytes};
ghost use Rattle.std.specs.Option.{option_map};
ghost use Rattle.repo_model.specs.Data.{Row};
ghost use Rattle.repo_model.specs.Document.{is_listed};
ghost use Rattle.repo_model.specs.Effect.{fade, list_again};
ghost use Rattle.repo_model.specs.Tables.{is_recorded, recorded_at, with_recorded, change_recorded, digested, lacks_at};
ghost use Rattle.row_tables.specs.Stored.{shown_row, shown_rows, shown_entry};

use mvn_digest::Further;
use repo_model::Recorded;
use std::alloc::AllocError;
use std::collections::BTreeMap;

/// The id of a repository and a path in it.
pub type Place = (String, String);

/// A recorded file is visible, or unlisted since a moment.
#[derive(Clone, Copy, Debug, PartialEq, Eq)]
pub enum RowPhase {
    Listed,
    Fading(u64),
}

/// A recorded file: its blob's number, what is recorded of its content, the moment when it was accepted, and its phase.
#[derive(Clone, Copy, Debug, PartialEq, Eq)]
pub struct FileRow {
    pub blob: u64,
    pub print: Recorded,
    pub accepted: u64,
    pub phase: RowPhase,
}

/// The file at a place.
pub fn file_at(rows: &BTreeMap<Place, FileRow>, place: &Place) -> Option<FileRow>
    ensures { option_map (shown_row (string_bytes place.now.1)) result
        ≡ recorded_at (string_bytes place.now.0) (string_bytes place.now.1) (shown_rows rows.now.entries) }
{
    rows.get(place).copied()
}

/// Whether the file at a place is visible; None where there is none.
pub fn phase_at(rows: &BTreeMap<Place, FileRow>, place: &Place) -> Option<bool>
    ensures { result ≡ option_map (λ (r : Row). is_listed r.phase)
        (recorded_at (string_bytes place.now.0) (string_bytes place.now.1) (shown_rows rows.now.entries)) }
{
    match file_at(rows, place) {
        Some(row) => Some(row.phase == RowPhase::Listed),
        None => None,
    }
}

/// Adds a file at a place that has none.
pub fn add_file(
    rows: &mut BTreeMap<Place, FileRow>,
    place: Place,
    row: FileRow,
) -> Result<(), AllocError>
    requires { recorded_at (string_bytes place.0) (string_bytes place.1) (shown_rows rows.old.entries) ≡ None }
    ensures ok { OnOk result (shown_rows rows.new.entries ≡ with_recorded (shown_entry (place, row)) (shown_rows rows.old.entries)) }
    ensures err { OnErr result (shown_rows rows.new.entries ≡ shown_rows rows.old.entries) }
{
    rows.insert(place, row)?;
    Ok(())
}

/// The file at a place fades since a moment.
pub fn fade_file(rows: &mut BTreeMap<Place, FileRow>, place: &Place, moment: u64)
    ensures { shown_rows rows.new.entries
        ≡ change_recorded (string_bytes place.now.0) (string_bytes place.now.1) (fade moment) (shown_rows rows.old.entries) }
{
    if let Some(row) = rows.get_mut(place) {
        row.phase = RowPhase::Fading(moment);
    }
}

/// The file at a place is listed again, accepted at a moment.
pub fn relist_file(rows: &mut BTreeMap<Place, FileRow>, place: &Place, accepted: u64)
    ensures { shown_rows rows.new.entries
        ≡ change_recorded (string_bytes place.now.0) (string_bytes place.now.1) (list_again accepted) (shown_rows rows.old.entries) }
{
    if let Some(row) = rows.get_mut(place) {
        row.accepted = accepted;
        row.phase = RowPhase::Listed;
    }
}

/// Whether a file stands at a place that lacks its SHA-256 and SHA-512.
pub fn lacks_at(rows: &BTreeMap<Place, FileRow>, place: &Place) -> bool
    ensures { result ≡ lacks_at (string_bytes place.now.0) (string_bytes place.now.1) (shown_rows rows.now.entries) }
{
    match file_at(rows, place) {
        Some(row) => row.print.digests.further.is_none(),
        None => false,
    }
}

/// The file at a place has these further digests.
pub fn digest_file(rows: &mut BTreeMap<Place, FileRow>, place: &Place, further: Further)
    ensures { shown_rows rows.new.entries
        ≡ change_recorded (string_bytes place.now.0) (string_bytes place.now.1) (digested further) (shown_rows rows.old.entries) }
{
    if let Some(row) = rows.get_mut(place) {
        row.print.digests.further = Some(further);
    }
}

/// Takes the file at a place away.
pub fn remove_file(rows: &mut BTreeMap<Place, FileRow>, place: &Place)
    ensures { shown_rows rows.new.entries
        ≡ filter (λ r. not (is_recorded (string_bytes place.now.0) (string_bytes place.now.1) r)) (shown_rows rows.old.entries) }
{
    rows.remove(place);
}
