//! The files that removals name: none of them is that of a bucket or an archive. The judgement of a
//! state asks so.

ghost use Rattle.std.specs.Prelude.{◌≡◌, ◌≢◌, ◌↔◌, IsTrue, IfOk, All, false, map};
ghost use Rattle.std.specs.List.{Contains};
ghost use Rattle.std.specs.List.Sorted.{IsNonDecreasing};
ghost use Rattle.ix_base.specs.declared.files.File.{File};
ghost use Rattle.ix_replay.specs.Amounts.{number_of};
ghost use Rattle.ix_replay.specs.Bounds.{IsSpared};

use crate::files::file_in;
use ix_base::{File, NoMemory};
use ix_items::Item;
use std::alloc::Global;

fn numbers_of(alloc: Global, files: &[File]) -> Result<Vec<u64>, NoMemory>
    ensures { IfOk result (λ numbers. numbers.items ≡ map number_of files.now) }
{
    let mut numbers = Vec::new(alloc);
    for file in files {
        numbers.push(file.number)?;
    }
    Ok(numbers)
}

/// The numbers of files, the lowest first.
fn sorted_numbers(alloc: Global, files: &[File]) -> Result<Vec<u64>, NoMemory>
    ensures rises { IfOk result (λ numbers. IsNonDecreasing numbers.items) }
    ensures all { IfOk result (λ numbers. All (λ file. Contains numbers.items file.number) files.now) }
{
    let mut numbers = numbers_of(alloc, files)?;
    numbers.sort_unstable();
    Ok(numbers)
}

/// Whether the number may be among these; where it answers false, it is not.
fn may_have(numbers: &[u64], number: u64) -> bool
    requires { IsNonDecreasing numbers.now }
    ensures { result ≡ false → Contains numbers.now number → ⊥ }
{
    numbers.binary_search(&number).is_ok()
}

fn is_none_of(files: &[File], mine: File) -> bool
    ensures { IsTrue result ↔ All (λ file. mine ≢ file) files.now }
{
    for file in files {
        if *file == mine {
            return false;
        }
    }
    true
}

/// Whether a file is none of these, of which the numbers are known. Files of one number are rare,
/// so hardly any are compared.
fn is_apart(files: &[File], numbers: &[u64], mine: File) -> bool
    requires rises { IsNonDecreasing numbers.now }
    requires all { All (λ file. Contains numbers.now file.number) files.now }
    ensures { IsTrue result ↔ All (λ file. mine ≢ file) files.now }
{
    if may_have(numbers, mine.number) {
        is_none_of(files, mine)
    } else {
        true
    }
}

/// Whether the item's file is none of these.
fn is_spared(removed: &[File], numbers: &[u64], item: &Item) -> bool
    requires rises { IsNonDecreasing numbers.now }
    requires all { All (λ file. Contains numbers.now file.number) removed.now }
    ensures { IsTrue result ↔ IsSpared removed.now item.now }
{
    match file_in(item) {
        Some(file) => is_apart(removed, numbers, file),
        None => true,
    }
}

fn all_spared(removed: &[File], numbers: &[u64], items: &[Item]) -> bool
    requires rises { IsNonDecreasing numbers.now }
    requires all { All (λ file. Contains numbers.now file.number) removed.now }
    ensures { IsTrue result ↔ All (IsSpared removed.now) items.now }
{
    for item in items {
        if !is_spared(removed, numbers, item) {
            return false;
        }
    }
    true
}

/// Whether none of these is the file of an item.
pub fn are_spared(alloc: Global, removed: &[File], items: &[Item]) -> Result<bool, NoMemory>
    ensures { IfOk result (λ spared. IsTrue spared ↔ All (IsSpared removed.now) items.now) }
{
    let numbers = sorted_numbers(alloc, removed)?;
    Ok(all_spared(removed, numbers.as_slice(), items))
}
