//! The files of buckets and archives, whose numbers differ. The judgement of a state asks so.

ghost use Rattle.std.specs.Prelude.{◌≡◌, ◌↔◌, ◌==◌, ◌+◌, ℕ, IsTrue, OnOk, IfOk};
ghost use Rattle.std.specs.List.{sum_by, count_by};
ghost use Rattle.std.specs.List.Sorted.{IsNonDecreasing};
ghost use Rattle.ix_replay.specs.Amounts.{file_in, uses};
ghost use Rattle.ix_replay.specs.Bounds.{AreApart};

use ix_base::{Area, File, NoMemory};
use ix_items::Item;
use std::alloc::Global;

/// The file of a bucket, or of the archive of a frozen one.
pub fn file_in(item: &Item) -> Option<File>
    ensures { result ≡ file_in item.now }
{
    match item {
        Item::Bucket { bucket, .. } => Some(bucket.file),
        Item::Ledger { entry } => match entry.archive {
            Some(number) => Some(File {
                area: Area::Frozen,
                number,
            }),
            None => None,
        },
        _ => None,
    }
}

/// Adds the number of the item's file, where it has one.
fn add_number(numbers: &mut Vec<u64>, item: &Item) -> Result<(), NoMemory>
    ensures { OnOk result ((n : ℕ) → count_by (λ m. m == n) numbers.new.items ≡ count_by (λ m. m == n) numbers.old.items + uses n item.now) }
{
    if let Some(file) = file_in(item) {
        numbers.push(file.number)?;
    }
    Ok(())
}

/// The numbers of all files, in the order of the items.
fn numbers_of(alloc: Global, items: &[Item]) -> Result<Vec<u64>, NoMemory>
    ensures { IfOk result (λ numbers. (n : ℕ) → count_by (λ m. m == n) numbers.items ≡ sum_by (uses n) items.now) }
{
    let mut numbers = Vec::new(alloc);
    for item in items {
        add_number(&mut numbers, item)?;
    }
    Ok(numbers)
}

/// Whether numbers in order differ, and lie from 1 on below `next`.
fn rise(numbers: &[u64], next: u64) -> bool
    requires { IsNonDecreasing numbers.now }
    ensures { IsTrue result ↔ AreApart (λ n. count_by (λ m. m == n) numbers.now) next }
{
    let mut least = 1;
    for number in numbers {
        if *number < least || *number >= next {
            return false;
        }
        least = *number + 1;
    }
    true
}

/// Whether the files of the items have different numbers, from 1 on and below `next`.
pub fn are_apart(alloc: Global, items: &[Item], next: u64) -> Result<bool, NoMemory>
    ensures { IfOk result (λ apart. IsTrue apart ↔ AreApart (λ n. sum_by (uses n) items.now) next) }
{
    let mut numbers = numbers_of(alloc, items)?;
    numbers.sort_unstable();
    Ok(rise(numbers.as_slice(), next))
}
