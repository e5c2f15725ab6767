//! The staged files of a session.
ghost use Rattle.std.specs.Prelude.{◌≡◌, None, OnOk, OnErr, IfOk, map, length};
ghost use Rattle.std.specs.Option.{option_map};
ghost use Rattle.repo_model.specs.Shown.{shown_parcel, shown_print};
ghost use Rattle.repo_model.specs.Effect.{with_staged};
ghost use Rattle.repo_model.specs.Turn.{has_room, staged_at};
ghost use Rattle.deploy_session.specs.Shown.{shown_files, standing};

use crate::answers::Standing;
use outside::{Held, NoMemory, Parcel};
use repo_model::Print;
use std::alloc::Global;
use std::collections::BTreeMap;

/// The most files that a session stages.
pub const MOST_STAGED: usize = 1000;

/// Staged files by path, in byte order.
pub type Files<H> = BTreeMap<String, Parcel<H>>;

/// The fingerprint of a stored blob.
pub fn print_of<H: Held>(parcel: &Parcel<H>) -> Print
    ensures { result ≡ shown_print parcel.now }
{
    Print {
        length: parcel.length,
        digests: parcel.digests,
    }
}

/// The file at a path.
pub fn find<'a, H: Held>(
    files: &'a BTreeMap<String, Parcel<H>>,
    path: &str,
) -> Option<&'a Parcel<H>>
    ensures { option_map (λ p. shown_parcel p.now) result ≡ staged_at path.now (shown_files files.now.entries) }
{
    files.get(path)
}

/// Whether a session with these files may stage one at a path: it has one there, or fewer than 1,000.
pub fn has_room<H: Held>(files: &BTreeMap<String, Parcel<H>>, path: &str) -> bool
    ensures { result ≡ has_room path.now (shown_files files.now.entries) }
{
    find(files, path).is_some() || files.len() < MOST_STAGED
}

/// What stands at a path, beside a content of this fingerprint.
pub fn standing<H: Held>(files: &BTreeMap<String, Parcel<H>>, path: &str, sent: Print) -> Standing
    ensures { result ≡ standing sent (staged_at path.now (shown_files files.now.entries)) }
{
    let Some(parcel) = find(files, path) else {
        return Standing::Free;
    };
    let kept = print_of(parcel);
    if kept != sent {
        return Standing::Other(kept);
    }
    Standing::Same
}

/// Adds a file at a path that has none.
pub fn add<H: Held>(
    alloc: Global,
    files: &mut BTreeMap<String, Parcel<H>>,
    path: &str,
    parcel: Parcel<H>,
) -> Result<(), NoMemory>
    requires { staged_at path.now (shown_files files.old.entries) ≡ None }
    ensures ok { OnOk result (shown_files files.new.entries ≡ with_staged (record { path = path.now; blob = shown_parcel parcel }) (shown_files files.old.entries)) }
    ensures err { OnErr result (files.new.entries ≡ files.old.entries) }
{
    let path = String::from_str(alloc, path)?;
    files.insert(path, parcel)?;
    Ok(())
}

/// The numbers of the blobs, in byte order of path.
pub fn blobs_of<H: Held>(
    alloc: Global,
    files: &BTreeMap<String, Parcel<H>>,
) -> Result<Vec<u64>, NoMemory>
    ensures { IfOk result (λ blobs. blobs.items ≡ map (λ file. file.blob.number) (shown_files files.now.entries)) }
{
    let mut blobs = Vec::new(alloc);
    for (_, parcel) in files {
        blobs.push(parcel.blob)?;
    }
    Ok(blobs)
}
