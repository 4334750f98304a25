//! The ranks of the keys of an index, as statements count them: how many of its entries lie between two bounds.
//!
//! They begin as one segment, which is split at each bound that was far from where its segment begins, or
//! ends for a page downwards. So a bound that was asked for once is cheap from then on, and so is the next page.
//! Where they can't be had, a statement counts.

ghost use Rattle.std.specs.Prelude.{◌≡◌, List, ℕ};
ghost use Rattle.ranks.specs.Counts.{AreRanksOf, below};

use crate::index_ranks::IndexRanks;
use crate::known_database::{KnownDatabase, keep_index_ranks, take_index_ranks};
use crate::listed_ranks::{part_index, put_index};
use crate::sql_store::SqlStore;
use index::{Declaration, above_all};
use ranks::Ranks;
use sqlite::Alter;
use std::alloc::Global;
use std::cmp::max;
use store::StoreFault;

/// How many boundaries there are at most for each long segment of keys. Bounds that are asked for at random
/// make almost four.
const MOST_OVER: usize = 4;

/// Tells whether the ranks of the keys of an index are known.
fn knows_ranks(known: &Option<KnownDatabase>, number: &i64, declaration: &i64) -> bool {
    let Some(known) = known else {
        return false;
    };
    if known.found.number != *number {
        return false;
    }
    let Some(all) = &known.index_ranks else {
        return false;
    };
    for index in all {
        if index.declaration.number == *declaration {
            return true;
        }
    }
    false
}

/// Splits ranks at a bound, below which so many keys are, unless memory runs out. They begin anew where they
/// have more than so many boundaries, so that bounds which are asked for take no memory without end.
fn split_at(alloc: Global, ranks: &mut Ranks, bound: &[u8], rank: usize, most: usize)
    ensures { (keys : List (List ℕ)) → AreRanksOf ranks.old keys → rank ≡ below bound.now keys → AreRanksOf ranks.new keys }
{
    if ranks.boundaries() > most {
        *ranks = Ranks::new(alloc, ranks.total());
    }
    drop(ranks.split(alloc, bound, rank));
}

impl<S: Alter> SqlStore<S> {
    ghost use Rattle.std.specs.Prelude.{◌<◌, ◌^◌, ◌-◌, IfOk, IfSome, Some};
    ghost use Rattle.index.specs.Rows.{count_of};
    ghost use Rattle.index.specs.Shown.{declared};
    ghost use Rattle.ranks.specs.Counts.{between};
    ghost use Rattle.tables.specs.Schema.{entries_tree};
    ghost use Rattle.sqlstore.specs.inner.Keys.{HasIndex, IsIndexRanks, entry_keys};
    ghost use Rattle.sqlstore.specs.Model.{Answers, Stands, is_honest, trees_of};

    // ---- the ranks

    /// Takes out the ranks of the keys of an index that are known.
    fn take_key_ranks(&mut self, number: &i64, declaration: &i64) -> Option<IndexRanks>
        ensures ranks { is_honest S.Store self.old → ∥ IfSome result (IsIndexRanks (trees_of S.Store self.old) number.now) ∥₁ }
        ensures named { IfSome result (λ r. r.declaration.number ≡ declaration.now) }
        ensures stands { Stands S.Store self.old self.new }
    {
        let all = take_index_ranks(&mut self.known, number);
        let (rest, index) = part_index(all, declaration);
        keep_index_ranks(&mut self.known, number, rest);
        index
    }

    /// Puts back the ranks of the keys of an index.
    fn keep_key_ranks(&mut self, number: &i64, index: IndexRanks)
        requires { is_honest S.Store self.old → ∥ IsIndexRanks (trees_of S.Store self.old) number.now index ∥₁ }
        ensures { Stands S.Store self.old self.new }
    {
        let all = take_index_ranks(&mut self.known, number);
        keep_index_ranks(&mut self.known, number, put_index(self.alloc, all, index));
    }

    /// Makes the ranks of the keys of an index: one segment of all of them. `None` where they can't be counted.
    fn count_key_ranks(&mut self, declaration: &i64) -> Option<Ranks>
        ensures ranks { is_honest S.Store self.new → IfSome result (λ r. AreRanksOf r (entry_keys (trees_of S.Store self.old) declaration.now)) }
        ensures stands { Stands S.Store self.old self.new }
    {
        let start = Vec::new(self.alloc);
        let Ok(end) = above_all(self.alloc) else {
            return None;
        };
        let Ok(total) = self.count_between(declaration, &start, &end) else {
            return None;
        };
        let total = total as usize;
        let mut ranks = Ranks::new(self.alloc, total);
        // So the keys below what is above all are counted without a statement.
        drop(ranks.split(self.alloc, &end, total));
        Some(ranks)
    }

    /// Makes the ranks of the keys of an index and keeps them, where they are not known and can be had.
    pub(crate) fn make_key_ranks(&mut self, number: &i64, declaration: Declaration)
        requires { is_honest S.Store self.old → HasIndex (trees_of S.Store self.old) number.now (declared declaration) }
        ensures { Stands S.Store self.old self.new }
    {
        if knows_ranks(&self.known, number, &declaration.number) {
            return;
        }
        if let Some(ranks) = self.count_key_ranks(&declaration.number) {
            self.keep_key_ranks(number, IndexRanks { declaration, ranks });
        }
    }

    // ---- counts

    /// Splits ranks at a bound that lies far from an end of its segment: so many keys below it, and so many
    /// between.
    fn split_far(&self, ranks: &mut Ranks, bound: &[u8], rank: u64, within: u64)
        ensures { (keys : List (List ℕ)) → AreRanksOf ranks.old keys → rank ≡ below bound.now keys → AreRanksOf ranks.new keys }
    {
        let long = self.segment.saturating_add(self.segment);
        if within <= long as u64 {
            return;
        }
        let most = (ranks.total() / max(long, 1)).saturating_mul(MOST_OVER);
        split_at(self.alloc, ranks, bound, rank as usize, most);
    }

    /// Counts the entries of an index from one bound to another; none are counted where the one is not below
    /// the other.
    fn count_keys_from(&mut self, declaration: &i64, low: &[u8], high: &[u8]) -> Option<u64>
        ensures count { is_honest S.Store self.new
            → IfSome result (λ n. n ≡ between low.now high.now (entry_keys (trees_of S.Store self.old) declaration.now)) }
        ensures stands { Stands S.Store self.old self.new }
    {
        if !low.cmp(high).is_lt() {
            return Some(0);
        }
        match self.count_between(declaration, low, high) {
            Ok(count) => Some(count),
            Err(_) => None,
        }
    }

    /// Counts the keys of an index below a bound from where its segment begins: those of the segments before
    /// it, and those of its segment. That is split there where they were many.
    fn rank_from_start(&mut self, ranks: &mut Ranks, declaration: &i64, bound: &[u8]) -> Option<u64>
        ensures rank { is_honest S.Store self.new → AreRanksOf ranks.old (entry_keys (trees_of S.Store self.old) declaration.now)
            → IfSome result (λ n. n ≡ below bound.now (entry_keys (trees_of S.Store self.old) declaration.now)) }
        ensures ranks { is_honest S.Store self.new → AreRanksOf ranks.old (entry_keys (trees_of S.Store self.old) declaration.now)
            → AreRanksOf ranks.new (entry_keys (trees_of S.Store self.old) declaration.now) }
        ensures stands { Stands S.Store self.old self.new }
    {
        let start = ranks.segment_of(bound);
        let within = self.count_keys_from(declaration, start.key, bound)?;
        let rank = (start.before as u64).checked_add(within)?;
        self.split_far(ranks, bound, rank, within);
        Some(rank)
    }

    /// Counts the same from where the segment ends, if it does: those below that end, but for those from the
    /// bound on.
    fn rank_from_end(&mut self, ranks: &mut Ranks, declaration: &i64, bound: &[u8]) -> Option<u64>
        ensures rank { is_honest S.Store self.new → AreRanksOf ranks.old (entry_keys (trees_of S.Store self.old) declaration.now)
            → IfSome result (λ n. n ≡ below bound.now (entry_keys (trees_of S.Store self.old) declaration.now)) }
        ensures ranks { is_honest S.Store self.new → AreRanksOf ranks.old (entry_keys (trees_of S.Store self.old) declaration.now)
            → AreRanksOf ranks.new (entry_keys (trees_of S.Store self.old) declaration.now) }
        ensures stands { Stands S.Store self.old self.new }
    {
        let end = ranks.end_of(bound)?;
        let within = self.count_keys_from(declaration, bound, end.key)?;
        let rank = (end.before as u64).checked_sub(within)?;
        self.split_far(ranks, bound, rank, within);
        Some(rank)
    }

    /// Counts the keys of an index below a bound: for a page downwards from where the segment of the bound
    /// ends, where the page before it began.
    fn rank_of_key(
        &mut self,
        ranks: &mut Ranks,
        declaration: &i64,
        bound: &[u8],
        descending: bool,
    ) -> Option<u64>
        ensures rank { is_honest S.Store self.new → AreRanksOf ranks.old (entry_keys (trees_of S.Store self.old) declaration.now)
            → IfSome result (λ n. n ≡ below bound.now (entry_keys (trees_of S.Store self.old) declaration.now)) }
        ensures ranks { is_honest S.Store self.new → AreRanksOf ranks.old (entry_keys (trees_of S.Store self.old) declaration.now)
            → AreRanksOf ranks.new (entry_keys (trees_of S.Store self.old) declaration.now) }
        ensures stands { Stands S.Store self.old self.new }
    {
        if descending && ranks.end_of(bound).is_some() {
            self.rank_from_end(ranks, declaration, bound)
        } else {
            self.rank_from_start(ranks, declaration, bound)
        }
    }

    /// Counts the entries of an index between two bounds by these ranks. `None` where SQLite could not hold
    /// their number.
    fn count_keys_within(
        &mut self,
        ranks: &mut Ranks,
        declaration: &i64,
        low: &[u8],
        high: &[u8],
        descending: bool,
    ) -> Option<u64>
        ensures count { is_honest S.Store self.new → AreRanksOf ranks.old (entry_keys (trees_of S.Store self.old) declaration.now)
            → IfSome result (λ n. n ≡ count_of declaration.now low.now high.now (trees_of S.Store self.old entries_tree)) }
        ensures bounded { IfSome result (λ n. n < 2 ^ 63 - 1) }
        ensures ranks { is_honest S.Store self.new → AreRanksOf ranks.old (entry_keys (trees_of S.Store self.old) declaration.now)
            → AreRanksOf ranks.new (entry_keys (trees_of S.Store self.old) declaration.now) }
        ensures stands { Stands S.Store self.old self.new }
    {
        let from = self.rank_of_key(ranks, declaration, low, descending)?;
        let to = self.rank_of_key(ranks, declaration, high, descending)?;
        let count = to.saturating_sub(from);
        if count >= (1 << 63) - 1 {
            return None;
        }
        Some(count)
    }

    /// Counts the entries of an index between two bounds by the ranks of its keys, where they are known.
    fn count_by_key_ranks(
        &mut self,
        number: &i64,
        declaration: &i64,
        low: &[u8],
        high: &[u8],
        descending: bool,
    ) -> Option<u64>
        ensures count { is_honest S.Store self.new
            → IfSome result (λ n. n ≡ count_of declaration.now low.now high.now (trees_of S.Store self.old entries_tree)) }
        ensures bounded { IfSome result (λ n. n < 2 ^ 63 - 1) }
        ensures stands { Stands S.Store self.old self.new }
    {
        let mut index = self.take_key_ranks(number, declaration)?;
        let count = self.count_keys_within(&mut index.ranks, declaration, low, high, descending);
        self.keep_key_ranks(number, index);
        count
    }

    /// Counts the entries of an index between two bounds, for a page in this direction.
    pub(crate) fn count_keys(
        &mut self,
        number: &i64,
        declaration: &i64,
        low: &[u8],
        high: &[u8],
        descending: bool,
    ) -> Result<u64, StoreFault>
        ensures answer { Answers S.Store self.old self.new (λ n. n)
            (Some (count_of declaration.now low.now high.now (trees_of S.Store self.old entries_tree))) result }
        ensures bounded { IfOk result (λ n. n < 2 ^ 63 - 1) }
        ensures stands { Stands S.Store self.old self.new }
    {
        match self.count_by_key_ranks(number, declaration, low, high, descending) {
            Some(count) => Ok(count),
            None => self.count_between(declaration, low, high),
        }
    }
}
