//! Numbers of blobs: those that rows name, and the greatest.
ghost use Rattle.std.specs.Prelude.{◌≡◌, ◌<◌, ◌++◌, ℕ, List, if◌then◌else◌, nat_lt, max, fold, map, IfOk, OnOk};
ghost use Rattle.std.specs.List.Sorted.{IsNonDecreasing, IsPermutation};
ghost use Rattle.repo_model.specs.Restart.{blobs_named};
ghost use Rattle.repo_model.specs.State.{is_among, number_end};
ghost use Rattle.repo_model.specs.Tables.{RecordedRow};
ghost use Rattle.row_tables.specs.Stored.{shown_rows};

use outside::NoMemory;
use repo_model::NUMBER_END;
use row_tables::{FileRow, Place, Tables};
use std::alloc::Global;
use std::collections::BTreeMap;

// Adds the numbers of the blobs of some rows.
fn push_numbers(numbers: &mut Vec<u64>, rows: &BTreeMap<Place, FileRow>) -> Result<(), NoMemory>
    ensures { OnOk result (numbers.new.items ≡ numbers.old.items ++ map (λ (r : RecordedRow). r.row.blob.number) (shown_rows rows.now.entries)) }
{
    for (_, row) in rows {
        numbers.push(row.blob)?;
    }
    Ok(())
}

/// The numbers of the blobs that rows name: of hosted repositories, and then of proxies.
pub fn named_numbers(alloc: Global, tables: &Tables) -> Result<Vec<u64>, NoMemory>
    ensures { IfOk result (λ numbers. numbers.items ≡ blobs_named tables.now) }
{
    let mut numbers = Vec::new(alloc);
    push_numbers(&mut numbers, tables.hosted())?;
    push_numbers(&mut numbers, tables.cached())?;
    Ok(numbers)
}

/// The greatest of some numbers below 2^63 and of another one, which is below it too.
pub fn greatest_from(least: u64, numbers: &[u64]) -> u64
    requires { least < number_end }
    ensures value { result ≡ fold (λ (m n : ℕ). if nat_lt n number_end then max m n else m) least numbers.now }
    ensures below { result < number_end }
{
    let mut greatest = least;
    for number in numbers {
        if *number < NUMBER_END {
            greatest = greatest.max(*number);
        }
    }
    greatest
}

/// The same numbers, so that they do not fall.
pub fn sorted_numbers(alloc: Global, numbers: &[u64]) -> Result<Vec<u64>, NoMemory>
    ensures order { IfOk result (λ sorted. IsNonDecreasing sorted.items) }
    ensures same { IfOk result (λ sorted. IsPermutation numbers.now sorted.items) }
{
    let mut sorted = Vec::new(alloc);
    sorted.extend_from_slice(numbers)?;
    sorted.sort_unstable();
    Ok(sorted)
}

/// Whether a number is among these, which do not fall.
pub fn is_named(sorted: &[u64], number: u64) -> bool
    requires { IsNonDecreasing sorted.now }
    ensures { result ≡ is_among number sorted.now }
{
    sorted.binary_search(&number).is_ok()
}
