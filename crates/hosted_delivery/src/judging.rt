//! Whether staged files may be deployed: what stands against it is found before anything is changed.
ghost use Rattle.std.specs.Prelude.{◌≡◌, fold, IfOk, string_bytes};
ghost use Rattle.std.specs.List.{list_any};
ghost use Rattle.std.specs.Option.{option_map, option_to_list};
ghost use Rattle.mvn_coords.specs.Layout.{version_directory_of};
ghost use Rattle.repo_model.specs.Deploy.{bare_directory, has_pom, least, offence, pom_of, without_pom};
ghost use Rattle.repo_model.specs.Document.{is_listed};
ghost use Rattle.repo_model.specs.Paths.{file_at};
ghost use Rattle.repo_model.specs.State.{is_staged};
ghost use Rattle.hosted_delivery.specs.Deliveries.{IsJudged, NamesOther, shown_files, shown_other};
ghost use Rattle.ordered_rows.specs.Rows.{shown_phase, shown_rows};

use crate::put_all::PutAll;
use mvn_coords::{Coord, Kind, kind_of};
use ordered_rows::{Phase, Row, Standing, find, joined, print_of, standing};
use outside::{Held, NoMemory, Parcel};
use repo_model::Print;
use std::alloc::Global;
use std::collections::BTreeMap;
use texts::Text;

/// A path at which a row of another content stands than is staged there.
#[derive(Clone, Copy)]
pub struct Other<'a> {
    pub path: &'a str,
    pub kept: Print,
    pub sent: Print,
}

/// The first path in byte order at which a row of another content stands than is staged there.
fn first_other<'a, H: Held>(
    rows: &BTreeMap<String, Row<H>>,
    staged: &'a BTreeMap<String, Parcel<H>>,
) -> Option<Other<'a>>
    ensures { option_map shown_other result ≡ offence (shown_rows rows.now.entries) (shown_files staged.now.entries) }
{
    for (path, parcel) in staged {
        let sent = print_of(parcel);
        if let Standing::Other(kept) = standing(rows, path.as_str(), sent) {
            return Some(Other {
                path: path.as_str(),
                kept,
                sent,
            });
        }
    }
    None
}

/// Whether a path is staged.
fn is_staged<H: Held>(staged: &BTreeMap<String, Parcel<H>>, path: &str) -> bool
    ensures { result ≡ list_any (is_staged path.now) (shown_files staged.now.entries) }
{
    staged.contains_key(path)
}

/// Whether a pom is staged, or a row is visible at its path.
fn is_there<H: Held>(
    rows: &BTreeMap<String, Row<H>>,
    staged: &BTreeMap<String, Parcel<H>>,
    pom: &str,
) -> bool
    ensures { result ≡ has_pom (shown_rows rows.now.entries) (shown_files staged.now.entries) pom.now }
{
    // Its contract says that each path stands once.
    let _len = rows.len();
    if is_staged(staged, pom) {
        return true;
    }
    match find(rows, pom) {
        Some(row) => is_visible(row),
        None => false,
    }
}

fn is_visible<H: Held>(row: &Row<H>) -> bool
    ensures { result ≡ is_listed (shown_phase row.now.phase) }
{
    matches!(row.phase, Phase::Listed)
}

/// The path of a file's version directory.
fn directory_of(alloc: Global, c: &Coord<'_>) -> Result<String, NoMemory>
    ensures { IfOk result (λ t. string_bytes t ≡ version_directory_of c.now) }
{
    joined(alloc, c.group(), "/", c.artifact(), "/", c.dir())
}

/// The path of a release's pom, from that of its version directory.
fn pom_of(alloc: Global, c: &Coord<'_>, dir: &str) -> Result<String, NoMemory>
    ensures { IfOk result (λ t. dir.now ≡ version_directory_of c.now → string_bytes t ≡ pom_of c.now) }
{
    let mut pom = joined(alloc, dir, "/", c.artifact(), "-", c.dir())?;
    pom.push_str(".pom")?;
    Ok(pom)
}

/// The directory of a release's file, where it has no pom.
fn bare_of<H: Held>(
    alloc: Global,
    rows: &BTreeMap<String, Row<H>>,
    staged: &BTreeMap<String, Parcel<H>>,
    path: &str,
) -> Result<Option<String>, NoMemory>
    ensures { IfOk result (λ dir. option_to_list (option_map string_bytes dir)
        ≡ bare_directory (shown_rows rows.now.entries) (shown_files staged.now.entries) (file_at path.now)) }
{
    let Ok(Kind::File(c)) = kind_of(path) else {
        return Ok(None);
    };
    let None = c.build() else {
        return Ok(None);
    };
    let dir = directory_of(alloc, &c)?;
    let pom = pom_of(alloc, &c, dir.as_str())?;
    if is_there(rows, staged, pom.as_str()) {
        return Ok(None);
    }
    Ok(Some(dir))
}

/// The lesser of two texts in byte order, where both are there.
fn lesser(best: Option<String>, text: Option<String>) -> Option<String>
    ensures { option_map string_bytes result ≡ fold least (option_map string_bytes best) (option_to_list (option_map string_bytes text)) }
{
    match (best, text) {
        (Some(best), Some(text)) => Some(if text < best { text } else { best }),
        (None, text) => text,
        (best, None) => best,
    }
}

/// The first release directory in byte order that has a staged file and no pom.
fn first_bare<H: Held>(
    alloc: Global,
    rows: &BTreeMap<String, Row<H>>,
    staged: &BTreeMap<String, Parcel<H>>,
) -> Result<Option<String>, NoMemory>
    ensures { IfOk result (λ dir. option_map string_bytes dir ≡ without_pom (shown_rows rows.now.entries) (shown_files staged.now.entries)) }
{
    let mut best = None;
    for (path, _) in staged {
        let bare = bare_of(alloc, rows, staged, path.as_str())?;
        best = lesser(best, bare);
    }
    Ok(best)
}

/// The answer that names a path with another content.
fn offends(alloc: Global, other: Other<'_>) -> PutAll
    ensures { NamesOther other.entry result }
{
    match Text::new(alloc, other.path) {
        Ok(path) => PutAll::Offends {
            path,
            kept: other.kept,
            sent: other.sent,
        },
        Err(_) => PutAll::NoMemory,
    }
}

/// Whether staged files may be deployed; else what deploying them comes to.
pub fn judge<H: Held>(
    alloc: Global,
    rows: &BTreeMap<String, Row<H>>,
    staged: &BTreeMap<String, Parcel<H>>,
) -> Result<(), PutAll>
    ensures { IsJudged (shown_rows rows.now.entries) (shown_files staged.now.entries) result }
{
    if let Some(other) = first_other(rows, staged) {
        return Err(offends(alloc, other));
    }
    match first_bare(alloc, rows, staged) {
        Ok(Some(dir)) => Err(PutAll::MissingPom {
            dir: Text::from_string(dir),
        }),
        Ok(None) => Ok(()),
        Err(_) => Err(PutAll::NoMemory),
    }
}
