//! Rows in an ordered map from path to row.
ghost use Rattle.std.specs.Prelude.{◌≡◌, length};
ghost use Rattle.std.specs.Option.{option_map};
ghost use Rattle.repo_model.specs.State.{row_at};
ghost use Rattle.repo_model.specs.Shown.{shown_print};
ghost use Rattle.ordered_rows.specs.Rows.{is_before, shown_at, shown_phase, shown_rows};
ghost use Rattle.ordered_rows.specs.Standings.{standing};

use crate::row::{Phase, Row};
use crate::standings::Standing;
use mvn_digest::Digests;
use outside::{Held, Parcel};
use repo_model::Print;
use std::collections::BTreeMap;

/// The fingerprint of a stored blob.
pub fn print_of<H: Held>(parcel: &Parcel<H>) -> Print
    ensures { result ≡ shown_print parcel.now }
{
    Print {
        length: parcel.length,
        digests: parcel.digests,
    }
}

/// The digests of a content have 20, 16, 32 and 64 bytes.
pub fn sizes(digests: Digests)
    ensures sha1 { length digests.sha1 ≡ 20 }
    ensures md5 { length digests.md5 ≡ 16 }
    ensures sha256 { length digests.sha256 ≡ 32 }
    ensures sha512 { length digests.sha512 ≡ 64 }
{}

/// The row at a path.
pub fn find<'a, H: Held>(rows: &'a BTreeMap<String, Row<H>>, path: &str) -> Option<&'a Row<H>>
    ensures { option_map (λ row. shown_at path.now row.now) result ≡ row_at path.now (shown_rows rows.now.entries) }
{
    rows.get(path)
}

/// What stands at a path, beside a content of this fingerprint.
pub fn standing<H: Held>(rows: &BTreeMap<String, Row<H>>, path: &str, sent: Print) -> Standing
    ensures { result ≡ standing sent (row_at path.now (shown_rows rows.now.entries)) }
{
    let Some(row) = find(rows, path) else {
        return Standing::Free;
    };
    let kept = print_of(&row.parcel);
    if kept != sent {
        return Standing::Other(kept);
    }
    match row.phase {
        Phase::Listed => Standing::Same,
        Phase::Fading(_) => Standing::Unlisted,
    }
}

/// Whether a row is unlisted since before a moment.
pub fn is_before(phase: Phase, limit: u64) -> bool
    ensures { result ≡ is_before limit (shown_phase phase) }
{
    match phase {
        Phase::Listed => false,
        Phase::Fading(since) => since < limit,
    }
}
