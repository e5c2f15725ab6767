//! Items that are committed, at most 1,000 in one change, beside the tables that they are applied to.
ghost use Rattle.std.specs.Prelude.{◌≡◌, ◌+◌, ◌++◌, List, None, Ok, drop, min, length, reverse, take, IfOk, IfSome, OnOk, OnErr};
ghost use Rattle.std.specs.List.{AllByRecursion};
ghost use Rattle.std.specs.Option.{option_map};
ghost use Rattle.ordered_rows.specs.Recording.{IsShort};
ghost use Rattle.repo_model.specs.Tables.{applied};
ghost use Rattle.repo_model.specs.declared.item.Item.{Item as Recorded};
ghost use Rattle.row_tables.specs.Applying.{with_items};
ghost use Rattle.row_tables.specs.Leaving.{HasCause, Leaves, end_of};

use repo_model::Item;
use row_tables::{ApplyFault, Change, CommitFault, Records, Tables};
use std::alloc::{AllocError, Global};

/// A change has at most so many items.
const MOST_ITEMS: usize = 1_000;

// The same items, from the last one to the first.
fn turned(items: Vec<Item>) -> Vec<Item>
    ensures { reverse result.items ≡ items.items }
{
    let mut turned = items;
    turned.reverse();
    turned
}

// Takes the first items, at most 1,000, of some that stand from the last one to the first, so that no other item is moved.
fn take_first(items: &mut Vec<Item>) -> Result<Vec<Item>, AllocError>
    ensures first { IfOk result (λ first. first.items ≡ take (min 1000 (length items.old.items)) (reverse items.old.items)) }
    ensures rest { OnOk result (reverse items.new.items ≡ drop (min 1000 (length items.old.items)) (reverse items.old.items)) }
    ensures fewer { OnOk result (length items.new.items + min 1000 (length items.old.items) ≡ length items.old.items) }
{
    let count = MOST_ITEMS.min(items.len());
    let first = items.split_off(items.len() - count)?;
    Ok(turned(first))
}

// Of items that stand from the last one to the first, applies the first 1,000 to the tables and commits them as one change, and
// gives the rest.
fn commit_first<K: Records>(
    alloc: Global,
    records: &mut K,
    tables: &mut Tables,
    items: Vec<Item>,
) -> Result<Vec<Item>, CommitFault>
    requires ready { (K.shows records.old).IsReady }
    requires told { IfSome (K.shows records.old).tables (λ told. tables.old ≡ told) }
    requires short { AllByRecursion IsShort (reverse items.items) }
    requires fit { applied tables.old (reverse items.items) ≡ Ok (with_items tables.old (reverse items.items)) }
    ensures rest { IfOk result (λ rest. reverse rest.items ≡ drop (min 1000 (length items.items)) (reverse items.items)) }
    ensures fewer { IfOk result (λ rest. length rest.items + min 1000 (length items.items) ≡ length items.items) }
    ensures tables { OnOk result (tables.new ≡ with_items tables.old (take (min 1000 (length items.items)) (reverse items.items))) }
    ensures records { Leaves (take (min 1000 (length items.items)) (reverse items.items)) (end_of result) (K.shows records.old) (K.shows records.new) }
    ensures settled { OnOk result ((K.shows records.new).unsettled.pending ≡ None) }
{
    let mut rest = items;
    let first = take_first(&mut rest)?;
    let change = Change::of(first);
    match tables.apply(alloc, &change) {
        Ok(()) => {}
        Err(ApplyFault::NoMemory) => return Err(CommitFault::NoMemory),
        Err(ApplyFault::Misfit { .. }) => unreachable!(),
    }
    records.commit(alloc, &change)?;
    Ok(rest)
}

/// Applies items, which fit, to the tables and commits them in their order, at most 1,000 in one change. Where that fails the
/// first ones are recorded and no others.
pub fn commit_all<K: Records>(
    alloc: Global,
    records: &mut K,
    tables: &mut Tables,
    items: Vec<Item>,
) -> Result<(), CommitFault>
    requires ready { (K.shows records.old).IsReady }
    requires told { IfSome (K.shows records.old).tables (λ told. tables.old ≡ told) }
    requires short { AllByRecursion IsShort items.items }
    requires fit { applied tables.old items.items ≡ Ok (with_items tables.old items.items) }
    ensures tables { OnOk result (tables.new ≡ with_items tables.old items.items) }
    ensures recorded { OnOk result ((K.shows records.new).tables ≡ option_map (λ _. tables.new) (K.shows records.old).tables) }
    ensures front { OnErr result ((front rest : List Recorded) × (items.items ≡ front ++ rest)
        × ((K.shows records.new).tables ≡ option_map (λ _. with_items tables.old front) (K.shows records.old).tables)) }
    ensures cause { HasCause (end_of result) (K.shows records.old).faults (K.shows records.new).faults }
    ensures settled { (K.shows records.old).unsettled.pending ≡ None → OnOk result ((K.shows records.new).unsettled.pending ≡ None) }
    ensures ready { (K.shows records.new).IsReady }
{
    let mut rest = turned(items);
    while !rest.is_empty() {
        rest = commit_first(alloc, records, tables, rest)?;
    }
    Ok(())
}
