//! A plain book: all items of a log, in order. It takes any book, and serves tests and whoever only
//! reads a log.

ghost use Rattle.std.specs.Prelude.{◌≡◌, ℕ, List};
ghost use Rattle.ix_manifest.specs.Plain.{run_after, removals_after, settled_after};

use crate::manifest_state::ManifestState;
use ix_base::{File, NoMemory, Sequence};
use ix_items::Item;
use std::alloc::Global;

/// All items of a log, in order.
#[derive(Drop)]
pub struct PlainBook {
    items: Sequence<Item>,
}

impl PlainBook {
    ghost use Rattle.ix_manifest.specs.Book.{empty};
    ghost use Rattle.ix_manifest.specs.Plain.{stands_of};

    /// A book of no items.
    pub fn new(alloc: Global) -> PlainBook
        ensures { stands_of result ≡ empty }
    {
        PlainBook {
            items: Sequence::new(alloc),
        }
    }

    /// The items, those of the first body first.
    pub fn items(&self) -> &[Item]
        ensures { result.now ≡ self.now.items }
    {
        self.items.as_slice()
    }
}

impl ManifestState for PlainBook {
    ghost use Rattle.ix_manifest.specs.Plain.{stands_of, AnyBook};

    ghost stands = { stands_of };

    ghost fits = { AnyBook };

    fn apply(&mut self, item: Item) -> Result<(), NoMemory> {
        self.items.push(item)?;
        Ok(())
    }

    fn judge(&mut self) -> Result<bool, NoMemory> {
        Ok(true)
    }

    fn run(&self) -> u64 {
        let mut run = 0;
        let items = self.items.as_slice();
        for item in items {
            run = run_after(item, run);
        }
        run
    }

    fn has_settings(&self) -> bool {
        let mut settled = false;
        let items = self.items.as_slice();
        for item in items {
            settled = settled_after(item, settled);
        }
        settled
    }

    fn removals(&self) -> &[File] {
        let mut files: &[File] = &[];
        let items = self.items.as_slice();
        for item in items {
            files = removals_after(item, files);
        }
        files
    }
}

/// The run behind an item.
fn run_after(item: &Item, before: u64) -> u64
    ensures { result ≡ run_after item.now before }
{
    match item {
        Item::Run { run } => *run,
        _ => before,
    }
}

/// Whether settings stand behind an item.
fn settled_after(item: &Item, before: bool) -> bool
    ensures { result ≡ settled_after item.now before }
{
    match item {
        Item::Settings { .. } => true,
        _ => before,
    }
}

/// The removals behind an item.
pub fn removals_after<'a>(item: &'a Item, before: &'a [File]) -> &'a [File]
    ensures { result.now ≡ removals_after item.now before.now }
{
    match item {
        Item::Removals { files } => files.as_slice(),
        _ => before,
    }
}
