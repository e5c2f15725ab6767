//! All recorded files in one order.
ghost use Rattle.std.specs.Prelude.{◌≡◌, IfOk, length, map, string_bytes};
ghost use Rattle.repo_model.specs.Tables.{place_cmp};
ghost use Rattle.row_tables.specs.Stored.{shown_rows};
ghost use Rattle.blob_audit.specs.Files.{shown_file};
ghost use Rattle.blob_audit.specs.Order.{is_at_most, files_of, all_files, all_rows};

use itertools::Itertools;
use row_tables::{FileRow, Place, Tables};
use std::alloc::{AllocError, Global};
use std::collections::BTreeMap;

/// A recorded file, lent: whether it is a hosted repository's and not a proxy's, its place and its row.
#[derive(Clone, Copy)]
pub struct RecordedFile<'a> {
    pub is_hosted: bool,
    pub place: &'a Place,
    pub row: &'a FileRow,
}

// Whether a place stands no later than another.
fn comes_first(a: &Place, b: &Place) -> bool
    ensures { result ≡ is_at_most (place_cmp (string_bytes a.now.0) (string_bytes a.now.1) (string_bytes b.now.0) (string_bytes b.now.1)) }
{
    a <= b
}

// The files of these rows.
fn files_of<'a>(
    alloc: Global,
    is_hosted: bool,
    rows: &'a BTreeMap<Place, FileRow>,
) -> Result<Vec<RecordedFile<'a>>, AllocError>
    ensures { IfOk result (λ files. map shown_file files.items ≡ files_of is_hosted (shown_rows rows.now.entries)) }
{
    let mut files = Vec::with_capacity(alloc, rows.len())?;
    for (place, row) in rows {
        files.push(RecordedFile {
            is_hosted,
            place,
            row,
        })?;
    }
    Ok(files)
}

/// The recorded files of hosted repositories and of proxies, in byte order of repository and then of path; at one place a hosted
/// file stands before a proxy's.
pub fn all_files(alloc: Global, tables: &Tables) -> Result<Vec<RecordedFile<'_>>, AllocError>
    ensures files { IfOk result (λ files. map shown_file files.items ≡ all_files tables.now) }
    ensures rows { IfOk result (λ files. map (λ f. (shown_file f).row) files.items ≡ all_rows tables.now) }
    ensures count { IfOk result (λ files. length files.items ≡ length (all_rows tables.now)) }
{
    let hosted = files_of(alloc, true, tables.hosted())?;
    let cached = files_of(alloc, false, tables.cached())?;
    hosted
        .into_iter()
        .merge_by(cached.into_iter(), |a, b| comes_first(a.place, b.place))
        .collect_vec(alloc)
}
