//! The ranks of the keys of several indexes.

ghost use Rattle.std.specs.Prelude.{◌≡◌, ◌<◌, ℤ, IfSome, Some, slice_get, vec_len};
ghost use Rattle.sqlite_trees.specs.Tree.{Trees};
ghost use Rattle.sqlstore.specs.inner.Keys.{AreIndexRanks, AreKnownRanks, IsIndexRanks};
ghost use Rattle.sqlstore.specs.declared.index_ranks.IndexRanks.{IndexRanks};

use crate::index_ranks::IndexRanks;
use std::alloc::Global;

/// Of how many indexes of a database the ranks are known at most. A commit reads each document that it writes
/// twice for each of them.
const MOST_INDEXES: usize = 4;

/// Parts the ranks of the keys of the index of this declaration from those of other indexes.
pub(crate) fn part_index(
    all: Option<Vec<IndexRanks>>,
    declaration: &i64,
) -> (Option<Vec<IndexRanks>>, Option<IndexRanks>)
    ensures rest { (trees : Trees) (db : ℤ) → AreKnownRanks trees db all → AreKnownRanks trees db result.0 }
    ensures found { (trees : Trees) (db : ℤ) → AreKnownRanks trees db all → IfSome result.1 (IsIndexRanks trees db) }
    ensures named { IfSome result.1 (λ r. r.declaration.number ≡ declaration.now) }
{
    let Some(mut all) = all else {
        return (None, None);
    };
    let found = take_index(&mut all, declaration);
    (Some(all), found)
}

/// Takes out the ranks of the keys of the index of this declaration.
fn take_index(all: &mut Vec<IndexRanks>, declaration: &i64) -> Option<IndexRanks>
    ensures rest { (trees : Trees) (db : ℤ) → AreIndexRanks trees db all.old.items → AreIndexRanks trees db all.new.items }
    ensures found { (trees : Trees) (db : ℤ) → AreIndexRanks trees db all.old.items → IfSome result (IsIndexRanks trees db) }
    ensures named { IfSome result (λ r. r.declaration.number ≡ declaration.now) }
{
    let place = place_of(all, declaration)?;
    Some(all.remove(place))
}

/// Returns the place of the ranks of the keys of the index of this declaration.
fn place_of(all: &Vec<IndexRanks>, declaration: &i64) -> Option<usize>
    ensures within { IfSome result (λ i. i < vec_len all.now) }
    ensures named { IfSome result (λ i. (r : IndexRanks) × (slice_get all.now.items i ≡ Some r) × (r.declaration.number ≡ declaration.now)) }
{
    for place in 0..all.len() {
        if all[place].declaration.number == *declaration {
            return Some(place);
        }
    }
    None
}

/// Puts the ranks of the keys of an index to those of others. Where they are too many, those that were put
/// longest ago are forgotten; where memory runs out, all are.
pub(crate) fn put_index(
    alloc: Global,
    all: Option<Vec<IndexRanks>>,
    index: IndexRanks,
) -> Option<Vec<IndexRanks>>
    ensures { (trees : Trees) (db : ℤ) → AreKnownRanks trees db all → IsIndexRanks trees db index → AreKnownRanks trees db result }
{
    let all = forget_first(ranks_or_none(alloc, all));
    push_index(all, index)
}

/// Puts the ranks of the keys of an index behind those of others; `None` where memory runs out.
fn push_index(all: Vec<IndexRanks>, index: IndexRanks) -> Option<Vec<IndexRanks>>
    ensures { (trees : Trees) (db : ℤ) → AreIndexRanks trees db all.items → IsIndexRanks trees db index → AreKnownRanks trees db result }
{
    let mut all = all;
    match all.push(index) {
        Ok(()) => Some(all),
        Err(_) => None,
    }
}

/// Forgets the first ones, where there are too many for one more.
fn forget_first(all: Vec<IndexRanks>) -> Vec<IndexRanks>
    ensures { (trees : Trees) (db : ℤ) → AreIndexRanks trees db all.items → AreIndexRanks trees db result.items }
{
    let mut all = all;
    if all.len() >= MOST_INDEXES {
        drop(all.remove(0));
    }
    all
}

/// Returns the ranks of the keys of several indexes, or an empty list.
fn ranks_or_none(alloc: Global, all: Option<Vec<IndexRanks>>) -> Vec<IndexRanks>
    ensures { (trees : Trees) (db : ℤ) → AreKnownRanks trees db all → AreIndexRanks trees db result.items }
{
    match all {
        Some(all) => all,
        None => Vec::new(alloc),
    }
}
