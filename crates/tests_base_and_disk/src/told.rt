//! A list of items, told one by one.

ghost use Rattle.std.specs.Prelude.{IfOk};
ghost use Rattle.std.specs.List.{AllByRecursion};
ghost use Rattle.ix_items.specs.Spelling.{HasSpelling};

use crate::items::note_item;
use crate::said::{compare, note, say};
use ix_base::{NoMemory, Sequence};
use ix_items::Item;
use ix_manifest::Whole;
use ix_replay::{ItemWalk, have_room};
use std::alloc::Global;

/// A list of two items.
fn two(alloc: Global) -> Result<Sequence<Item>, NoMemory>
    ensures { IfOk result (λ items. AllByRecursion HasSpelling items) }
{
    let mut items = Sequence::new(alloc);
    items.push(Item::Run { run: 7 })?;
    items.push(Item::NextFile { number: 2 })?;
    Ok(items)
}

/// Writes what the next item says, and lets the item go.
fn note_next(text: &mut String, item: Option<Item>) {
    match &item {
        Some(item) => note_item(text, item),
        None => say(text, "none"),
    }
    drop(item);
}

/// Writes the items that are told.
fn note_told(text: &mut String, alloc: Global, walk: ItemWalk) {
    let mut walk = walk;
    note_next(text, walk.take_next());
    note_next(text, walk.next(alloc).unwrap_or(None));
    note_next(text, walk.take_next());
    drop(walk);
}

/// Whether the items have room in a body of a log, and what is told of them.
fn items_said(alloc: Global, items: Sequence<Item>) -> String
    requires { AllByRecursion HasSpelling items }
{
    let mut text = String::new(alloc);
    note(&mut text, have_room(alloc, items.as_slice()));
    note_told(&mut text, alloc, ItemWalk::over(items));
    text
}

fn two_said(alloc: Global) -> String {
    match two(alloc) {
        Ok(items) => items_said(alloc, items),
        Err(NoMemory) => String::new(alloc),
    }
}

#[test]
fn items_are_told_in_their_order(rt: HostRuntime) {
    compare(
        &rt,
        two_said(rt.alloc()),
        "Ok(true) run 7 next file 2 none ",
    );
}
