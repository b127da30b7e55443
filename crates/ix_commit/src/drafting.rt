//! A command's bytes, copies and items are staged, all of them or none. The layer above calls
//! `stage` when it accepts.

ghost use Rattle.std.specs.Prelude.{◌≡◌, ◌≤◌, ◌+◌, ◌^◌, length, OnOk, OnErr, IsErrOf};
ghost use Rattle.std.specs.List.{AllByRecursion};
ghost use Rattle.ix_items.specs.Spelling.{HasSpelling, body_bytes};
ghost use Rattle.ix_manifest.specs.Book.{replay};
ghost use Rattle.ix_manifest.specs.Slots.{bytes_of, items_of, AreOnce};
ghost use Rattle.ix_commit.specs.Snapshot.{Snapshot, Stages};
ghost use Rattle.ix_commit.specs.Drafts.{AreFit, AreFitCopies, Leads, with_pieces, with_copies};
ghost use Rattle.ix_commit.specs.Undo.{GrewTo, IsSame};

use crate::committer::{Committer, StageFault};
use crate::file_copy::FileCopy;
use crate::write_batch::{Append, WriteBatch};
use ix_base::NoMemory;
use ix_items::Item;
use std::alloc::Global;

fn stage_pieces(committer: &mut Committer, alloc: Global, pieces: &[Append]) -> Result<(), NoMemory>
    ensures staged { (old new : Snapshot) → Stages committer.old old new → AreFit new.contents pieces.now →
        OnOk result (Stages committer.new old (record { book = new.book; contents = with_pieces pieces.now new.contents })) }
    ensures grew { GrewTo committer.old committer.new }
    ensures size { committer.new.size ≡ committer.old.size }
{
    for piece in pieces {
        committer.push_piece(alloc, piece)?;
    }
    Ok(())
}

fn stage_copies(committer: &mut Committer, copies: &[FileCopy]) -> Result<(), NoMemory>
    ensures staged { (old new : Snapshot) → Stages committer.old old new → AreFitCopies old.contents new.contents copies.now →
        OnOk result (Stages committer.new old (record { book = new.book; contents = with_copies copies.now new.contents })) }
    ensures grew { GrewTo committer.old committer.new }
    ensures size { committer.new.size ≡ committer.old.size }
{
    for copied in copies {
        committer.push_copy(*copied)?;
    }
    Ok(())
}

fn stage_items(committer: &mut Committer, alloc: Global, items: Vec<Item>) -> Result<(), StageFault>
    requires { AllByRecursion HasSpelling items.items }
    ensures staged { (old new : Snapshot) → Stages committer.old old new →
        OnOk result (Stages committer.new old (record { book = replay items.items new.book; contents = new.contents })) }
    ensures grew { GrewTo committer.old committer.new }
    ensures size { OnOk result (committer.new.size ≡ committer.old.size + length (body_bytes items.items)) }
    ensures full { IsErrOf result StageFault.Full → 2 ^ 32 ≤ committer.old.size + length (body_bytes items.items) }
{
    for item in items {
        committer.push_item(alloc, item)?;
    }
    Ok(())
}

fn stage_all(committer: &mut Committer, alloc: Global, draft: WriteBatch) -> Result<(), StageFault>
    requires { AllByRecursion HasSpelling draft.items }
    ensures staged { (old new to : Snapshot) → Stages committer.old old new → Leads draft old new to →
        OnOk result (Stages committer.new old to) }
    ensures grew { GrewTo committer.old committer.new }
    ensures size { OnOk result (committer.new.size ≡ committer.old.size + length (body_bytes draft.items)) }
    ensures full { IsErrOf result StageFault.Full → 2 ^ 32 ≤ committer.old.size + length (body_bytes draft.items) }
{
    stage_pieces(committer, alloc, draft.pieces.as_slice())?;
    stage_copies(committer, draft.copies.as_slice())?;
    stage_items(committer, alloc, draft.items.into_vec())?;
    Ok(())
}

/// Stages what a command adds, or nothing. Each name is staged once, the last item under it.
pub fn stage(committer: &mut Committer, alloc: Global, draft: WriteBatch) -> Result<(), StageFault>
    requires { AllByRecursion HasSpelling draft.items }
    // What is staged then leads on to the snapshot that the draft leads to.
    ensures staged { (old new to : Snapshot) → Stages committer.old old new → Leads draft old new to →
        OnOk result (Stages committer.new old to) }
    // At a fault the same is staged as before.
    ensures err { OnErr result (IsSame committer.old committer.new) }
    // The logs are left alone.
    ensures root { committer.new.root ≡ committer.old.root }
    ensures log { committer.new.log ≡ committer.old.log }
    ensures number { committer.new.number ≡ committer.old.number }
    ensures first { committer.new.first ≡ committer.old.first }
    ensures bytes { committer.new.bytes ≡ committer.old.bytes }
    ensures closed { committer.new.closed ≡ committer.old.closed }
    ensures once { AreOnce (items_of committer.old.slots) → AreOnce (items_of committer.new.slots) }
    ensures full { IsErrOf result StageFault.Full → 2 ^ 32 ≤ length (bytes_of committer.old.slots) + length (body_bytes draft.items) }
{
    let mark = committer.mark(alloc)?;
    match stage_all(committer, alloc, draft) {
        Ok(()) => {
            committer.drop_older(&mark);
            Ok(())
        }
        Err(fault) => {
            committer.restore(&mark);
            Err(fault)
        }
    }
}

fn stage_pair(
    committer: &mut Committer,
    alloc: Global,
    first: WriteBatch,
    second: WriteBatch,
) -> Result<(), StageFault>
    requires first { AllByRecursion HasSpelling first.items }
    requires second { AllByRecursion HasSpelling second.items }
    ensures staged { (old new mid to : Snapshot) → Stages committer.old old new → Leads first old new mid → Leads second old mid to →
        OnOk result (Stages committer.new old to) }
    ensures grew { GrewTo committer.old committer.new }
    ensures full { IsErrOf result StageFault.Full → 2 ^ 32 ≤ committer.old.size + length (body_bytes first.items) + length
        (body_bytes second.items) }
{
    stage_all(committer, alloc, first)?;
    stage_all(committer, alloc, second)?;
    Ok(())
}

/// Stages what two commands add, one behind the other, or nothing of either: a command may be
/// preceded by another that comes with it. Each name is staged once, the last item under it.
pub fn stage_both(
    committer: &mut Committer,
    alloc: Global,
    first: WriteBatch,
    second: WriteBatch,
) -> Result<(), StageFault>
    requires first { AllByRecursion HasSpelling first.items }
    requires second { AllByRecursion HasSpelling second.items }
    // What is staged then leads on to the snapshot that the second draft leads to.
    ensures staged { (old new mid to : Snapshot) → Stages committer.old old new → Leads first old new mid → Leads second old mid to →
        OnOk result (Stages committer.new old to) }
    // At a fault the same is staged as before.
    ensures err { OnErr result (IsSame committer.old committer.new) }
    // The logs are left alone.
    ensures root { committer.new.root ≡ committer.old.root }
    ensures log { committer.new.log ≡ committer.old.log }
    ensures number { committer.new.number ≡ committer.old.number }
    ensures first { committer.new.first ≡ committer.old.first }
    ensures bytes { committer.new.bytes ≡ committer.old.bytes }
    ensures closed { committer.new.closed ≡ committer.old.closed }
    ensures once { AreOnce (items_of committer.old.slots) → AreOnce (items_of committer.new.slots) }
    ensures full { IsErrOf result StageFault.Full → 2 ^ 32 ≤ length (bytes_of committer.old.slots) + length
        (body_bytes first.items) + length
        (body_bytes second.items) }
{
    let before = committer.mark(alloc)?;
    match stage_pair(committer, alloc, first, second) {
        Ok(()) => {
            committer.drop_older(&before);
            Ok(())
        }
        Err(fault) => {
            committer.restore(&before);
            Err(fault)
        }
    }
}
