//! The indexes that are seen, made of those that ever had a bucket. A mount calls `view_indexes`.

ghost use Rattle.std.specs.Prelude.{◌≡◌, ◌≤◌, ◌++◌, ◌∷◌, List, map, length, take, drop, bytes_eq, IfOk, OnOk};
ghost use Rattle.std.specs.List.{list_any};
ghost use Rattle.ix_items.specs.declared.items.Kept.{Kept};
ghost use Rattle.ix_life.specs.declared.views.IndexView as views;
ghost use Rattle.ix_model.specs.Buckets.{Index};
ghost use Rattle.ix_catalog.specs.Lists.{insert};
ghost use Rattle.ix_catalog.specs.Shelves.{view_name};
ghost use Rattle.ix_model.specs.Shelved.{shelved_indexes};
ghost use Rattle.std.specs.Ordering.{nat_cmp, is_lt};
ghost use Rattle.std.specs.Cmp.Lexicographic.{slice_cmp};
ghost use Rattle.ix_bounds.specs.Shelving as defs;
ghost use Rattle.ix_bounds.specs.Shelving.{AreSettings, AreIndexes};

use ix_base::{Bytes, NoMemory, Sequence};
use ix_life::{BucketList, IndexLimits, IndexView, IndexViewList, LimitSet, Limits};
use std::alloc::Global;
use std::cmp::Ordering;

/// An index that ever had a bucket.
#[derive(Drop)]
pub struct Bucketed {
    pub name: Bytes,
    /// The buckets that are seen of it, by their numbers upwards: none where all are frozen and
    /// none is thawed.
    pub buckets: BucketList,
}

/// The limits of an index: those of one that is not configured are what `default` gives.
fn limits_for(set: &LimitSet, name: &[u8]) -> Limits
    ensures { result ≡ defs.limits_for set.now name.now }
{
    match set.limits(name) {
        Some(limits) => *limits,
        None => *set.retired(),
    }
}

fn view_of(set: &LimitSet, index: Bucketed) -> IndexView
    ensures { result ≡ defs.view_of set.now index }
{
    IndexView {
        limits: limits_for(set, index.name.as_slice()),
        name: index.name,
        buckets: index.buckets,
    }
}

fn views_of(
    alloc: Global,
    set: &LimitSet,
    indexes: Vec<Bucketed>,
) -> Result<Vec<IndexView>, NoMemory>
    ensures { IfOk result (λ list. list.items ≡ map (defs.view_of set.now) indexes.items) }
{
    let mut list = Vec::new(alloc);
    for index in indexes {
        list.push(view_of(set, index))?;
    }
    Ok(list)
}

/// Whether an index of this name is listed.
fn is_listed(name: &[u8], list: &[IndexView]) -> bool
    ensures { result ≡ list_any (λ (v : views.IndexView). bytes_eq v.name name.now) list.now }
{
    list.iter().any(|view| view.name.as_slice() == name)
}

fn stands_before(view: &IndexView, name: &[u8]) -> bool
    ensures { result ≡ is_lt (slice_cmp nat_cmp view.now.name name.now) }
{
    match view.name.as_slice().cmp(&name) {
        Ordering::Less => true,
        Ordering::Equal | Ordering::Greater => false,
    }
}

/// The place of an index of this name among others.
fn place_for(name: &[u8], list: &[IndexView]) -> usize
    ensures within { result ≤ length list.now }
    ensures inserted { (v : views.IndexView) → v.name ≡ name.now → insert view_name v list.now ≡ take result list.now ++ v
        ∷ drop result list.now }
{
    for at in 0..list.len() {
        if !stands_before(&list[at], name) {
            return at;
        }
    }
    list.len()
}

fn fresh_view(alloc: Global, index: &IndexLimits) -> Result<IndexView, NoMemory>
    ensures { IfOk result (λ view. view ≡ defs.fresh_view index.now) }
{
    Ok(IndexView {
        name: index.name.copy()?,
        limits: index.limits,
        buckets: Sequence::new(alloc),
    })
}

/// Lists an index that is configured among the others, where it is not listed.
fn add_configured(
    alloc: Global,
    list: &mut Vec<IndexView>,
    index: &IndexLimits,
) -> Result<(), NoMemory>
    ensures { OnOk result (list.new.items ≡ defs.with_view list.old.items index.now) }
{
    if is_listed(index.name.as_slice(), list) {
        return Ok(());
    }
    let at = place_for(index.name.as_slice(), list);
    list.insert(at, fresh_view(alloc, index)?)?;
    Ok(())
}

fn shelve_all(
    alloc: Global,
    set: &LimitSet,
    indexes: Vec<Bucketed>,
) -> Result<Vec<IndexView>, NoMemory>
    ensures { IfOk result (λ list. list.items ≡ defs.shelved_by set.now indexes.items) }
{
    let mut list = views_of(alloc, set, indexes)?;
    for index in set.indexes() {
        add_configured(alloc, &mut list, index)?;
    }
    Ok(list)
}

/// The indexes that are seen, by their names: those that ever had a bucket, and the configured ones
/// among them, each with its limits.
pub fn view_indexes(
    alloc: Global,
    set: &LimitSet,
    indexes: Vec<Bucketed>,
) -> Result<IndexViewList, NoMemory>
    ensures { IfOk result (λ list. (force : List Kept) (all : List Index) → AreSettings force set.now → AreIndexes all indexes.items →
        list ≡ shelved_indexes force all) }
{
    Ok(Sequence::from_vec(shelve_all(alloc, set, indexes)?))
}
