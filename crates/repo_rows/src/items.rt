//! Items, and changes of items.
ghost use Rattle.std.specs.Prelude.{◌≡◌, ◌≤◌, zero, suc};
ghost use Rattle.repo_rows.specs.Given.{Gives};
ghost use Rattle.row_tables.specs.Reading.{then_at, place_at, moment_at, digested_at, item_of, item_at, items_at, counted_items_at, change_at};

use crate::faults::ReadFault;
use crate::fields::{Place, read_file, read_further, read_kept, read_result};
use crate::numbers::{Read, read_moment, read_serial, read_u32};
use crate::strings::read_place;
use repo_model::Item;
use row_tables::Version;
use std::alloc::Global;

// A place and a moment.
fn read_dated(alloc: Global, bytes: &[u8]) -> Read<'_, (Place, u64)>
    ensures { Gives (λ x. (x.0, x.1.now)) result (then_at place_at moment_at bytes.now) }
{
    let (place, rest) = read_place(alloc, bytes)?;
    let (moment, rest) = read_moment(rest)?;
    Ok(((place, moment), rest))
}

// An item of a hosted repository after its tag.
#[tactic(auto, unfolding(row_tables::specs::Reading::item_of))]
fn hosted_behind(alloc: Global, version: Version, tag: u8, bytes: &[u8]) -> Read<'_, Item>
    requires { tag ≤ 4 }
    ensures { Gives (λ x. (x.0, x.1.now)) result (item_of version tag bytes.now) }
{
    match tag {
        1 => {
            let (((repo, path), (blob, (print, accepted))), rest) = read_file(
                alloc, version, bytes,
            )?;
            Ok((
                Item::HostedPut {
                    repo,
                    path,
                    blob,
                    print,
                    accepted,
                },
                rest,
            ))
        }
        2 => {
            let (((repo, path), moment), rest) = read_dated(alloc, bytes)?;
            Ok((Item::Faded { repo, path, moment }, rest))
        }
        3 => {
            let (((repo, path), accepted), rest) = read_dated(alloc, bytes)?;
            Ok((
                Item::Relisted {
                    repo,
                    path,
                    accepted,
                },
                rest,
            ))
        }
        4 => {
            let ((repo, path), rest) = read_place(alloc, bytes)?;
            Ok((Item::Removed { repo, path }, rest))
        }
        _ => Err(ReadFault::Refused(bytes.len() + 1)),
    }
}

// The digests of a file after their tag.
#[tactic(auto, unfolding(row_tables::specs::Reading::digested_at))]
fn digested_after(alloc: Global, version: Version, bytes: &[u8]) -> Read<'_, Item>
    ensures { Gives (λ x. (x.0, x.1.now)) result (digested_at version bytes.now) }
{
    match version {
        Version::First => Err(ReadFault::Refused(bytes.len() + 1)),
        Version::Second => {
            let ((repo, path), rest) = read_place(alloc, bytes)?;
            let (further, rest) = read_further(rest)?;
            Ok((
                Item::Digested {
                    repo,
                    path,
                    further,
                },
                rest,
            ))
        }
    }
}

// An item after its tag.
#[tactic(auto, unfolding(row_tables::specs::Reading::item_of))]
fn item_after(alloc: Global, version: Version, tag: u8, bytes: &[u8]) -> Read<'_, Item>
    ensures { Gives (λ x. (x.0, x.1.now)) result (item_of version tag bytes.now) }
{
    match tag {
        0..=4 => hosted_behind(alloc, version, tag, bytes),
        5 => {
            let (((repo, path), (blob, (print, accepted))), rest) = read_file(
                alloc, version, bytes,
            )?;
            Ok((
                Item::CachedFile {
                    repo,
                    path,
                    blob,
                    print,
                    accepted,
                },
                rest,
            ))
        }
        6 => {
            let (((repo, path), (checked, document)), rest) = read_kept(alloc, bytes)?;
            Ok((
                Item::CachedDoc {
                    repo,
                    path,
                    checked,
                    document,
                },
                rest,
            ))
        }
        7 => {
            let (number, rest) = read_serial(bytes)?;
            Ok((Item::SessionOpened(number), rest))
        }
        8 => {
            let (session, rest) = read_serial(bytes)?;
            let (result, rest) = read_result(rest)?;
            Ok((Item::SessionEnded { session, result }, rest))
        }
        9 => digested_after(alloc, version, bytes),
        _ => Err(ReadFault::Refused(bytes.len() + 1)),
    }
}

#[tactic(auto, unfolding(row_tables::specs::Reading::item_at))]
fn read_item(alloc: Global, version: Version, bytes: &[u8]) -> Read<'_, Item>
    ensures { Gives (λ x. (x.0, x.1.now)) result (item_at version bytes.now) }
{
    match bytes {
        [] => Err(ReadFault::Refused(0)),
        [tag, rest @ ..] => item_after(alloc, version, *tag, rest),
    }
}

fn read_items(alloc: Global, version: Version, count: u32, bytes: &[u8]) -> Read<'_, Vec<Item>>
    ensures { Gives (λ x. (x.0.items, x.1.now)) result (items_at version count bytes.now) }
{
    let mut items = Vec::new(alloc);
    let mut rest = bytes;
    for _ in 0..count {
        let (item, after) = read_item(alloc, version, rest)?;
        items.push(item)?;
        rest = after;
    }
    Ok((items, rest))
}

// How many items a change of a version has, and these.
#[tactic(auto, unfolding(row_tables::specs::Reading::counted_items_at))]
fn read_counted(alloc: Global, version: Version, bytes: &[u8]) -> Read<'_, Vec<Item>>
    ensures { Gives (λ x. (x.0.items, x.1.now)) result (counted_items_at version bytes.now) }
{
    let (count, rest) = read_u32(bytes)?;
    read_items(alloc, version, count, rest)
}

/// The items of a change.
#[tactic(auto, unfolding(row_tables::specs::Reading::change_at))]
pub fn read_change(alloc: Global, bytes: &[u8]) -> Read<'_, Vec<Item>>
    ensures { Gives (λ x. (x.0.items, x.1.now)) result (change_at bytes.now) }
{
    match bytes {
        [] => Err(ReadFault::Refused(0)),
        [1, rest @ ..] => read_counted(alloc, Version::First, rest),
        [2, rest @ ..] => read_counted(alloc, Version::Second, rest),
        [_, ..] => Err(ReadFault::Refused(bytes.len())),
    }
}
