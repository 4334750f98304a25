//! The ranks of the ids of a database, as statements count them: how many of its documents lie between two
//! bounds, and where a list begins or ends that skips many of them.
//!
//! Ranks are an aid: where they can't be had, nothing is found by them, and a statement counts or skips.

ghost use Rattle.std.specs.Prelude.{◌≡◌, IfSome, Some, option_map, slice_get};
ghost use Rattle.tables.specs.Listings.{listed_id};

use crate::id_bounds::above_all_ids;
use crate::known_database::{keep_ranks, take_ranks};
use crate::sql_store::SqlStore;
use ranks::Ranks;
use sqlite::{Alter, Row};
use sqlite_value::value::ValueRef;
use std::alloc::Global;
use std::cmp::max;
use store::StoreFault;
use transactions::integer_of;

/// A key, and how many keys are below it.
#[derive(Drop)]
struct Ranked {
    /// The bytes of the key.
    key: Vec<u8>,
    /// How many keys are below it.
    rank: usize,
}

/// A bound of a list, and how many rows the list skips there.
#[derive(Drop)]
pub(crate) struct SkipBound {
    /// The bytes of the bound.
    pub(crate) bound: Vec<u8>,
    /// How many rows are skipped.
    pub(crate) skip: u64,
}

/// Copies bytes; `None` where memory runs out.
fn copy_bytes(alloc: Global, bytes: &[u8]) -> Option<Vec<u8>>
    ensures { IfSome result (λ copy. copy.items ≡ bytes.now) }
{
    let Ok(copy) = Vec::from_slice(alloc, bytes) else {
        return None;
    };
    Some(copy)
}

/// Returns the id of the first row of a list of documents, if there is one.
fn first_id(rows: &[Row]) -> Option<&[u8]>
    ensures { IfSome result (λ id. option_map listed_id (slice_get rows.now 0) ≡ Some id.now) }
{
    let row = rows.first()?;
    let Ok(ValueRef::Blob(bytes)) = row.get_ref(0) else {
        return None;
    };
    Some(bytes)
}

impl<S: Alter> SqlStore<S> {
    ghost use Rattle.std.specs.Prelude.{◌+◌, ◌-◌, ◌<◌, ◌≤◌, ◌^◌, false, IfOk};
    ghost use Rattle.ranks.specs.Counts.{AreRanksOf, below, between};
    ghost use Rattle.tables.specs.Listings.{marked_count};
    ghost use Rattle.tables.specs.Schema.{docs_tree};
    ghost use Rattle.sqlstore.specs.inner.ById.{IsSameDownFrom, IsSameFrom};
    ghost use Rattle.sqlstore.specs.inner.Listing.{live_ids};
    ghost use Rattle.sqlstore.specs.Model.{Answers, Stands, is_honest, trees_of};

    // ---- the ranks

    /// Takes out the ranks of a database that are known.
    pub(crate) fn take_live_ranks(&mut self, number: &i64) -> Option<Ranks>
        ensures ranks { is_honest S.Store self.old → IfSome result (λ r. AreRanksOf r (live_ids (trees_of S.Store self.old) number.now)) }
        ensures stands { Stands S.Store self.old self.new }
    {
        take_ranks(&mut self.known, number)
    }

    /// Puts back the ranks of a database.
    fn keep_live_ranks(&mut self, number: &i64, ranks: Ranks)
        requires { is_honest S.Store self.old → AreRanksOf ranks (live_ids (trees_of S.Store self.old) number.now) }
        ensures { Stands S.Store self.old self.new }
    {
        keep_ranks(&mut self.known, number, Some(ranks));
    }

    /// Finds the ranks of a database: those that are known, or those of as many ids in one segment. `None`
    /// where they are no more than a segment has.
    fn find_ranks(&mut self, number: &i64) -> Option<Ranks>
        ensures ranks { is_honest S.Store self.new → IfSome result (λ r. AreRanksOf r (live_ids (trees_of S.Store self.old) number.now)) }
        ensures stands { Stands S.Store self.old self.new }
    {
        let Ok(count) = self.count_all(number, false) else {
            return None;
        };
        let total = count as usize;
        if total <= self.segment {
            return None;
        }
        match self.take_live_ranks(number) {
            Some(ranks) => Some(ranks),
            None => Some(Ranks::new(self.alloc, total)),
        }
    }

    /// Finds the id that has so many ids between itself and a bound.
    fn find_id_behind(&mut self, number: &i64, low: &[u8], skip: usize) -> Option<Vec<u8>>
        ensures rank { is_honest S.Store self.new → IfSome result (λ id. below id.items (live_ids (trees_of S.Store self.old) number.now)
            ≡ below low.now (live_ids (trees_of S.Store self.old) number.now) + skip) }
        ensures stands { Stands S.Store self.old self.new }
    {
        let skip = skip as u64;
        if skip >= 1 << 63 {
            return None;
        }
        let Ok(high) = above_all_ids(self.alloc) else {
            return None;
        };
        let Ok(rows) = self.live_rows_up(number, low, &high, &1, &integer_of(skip)) else {
            return None;
        };
        copy_bytes(self.alloc, first_id(&rows)?)
    }

    /// Finds the id at which the last segment is split that is long.
    fn find_split(&mut self, number: &i64, ranks: &Ranks) -> Option<Ranked>
        ensures rank { is_honest S.Store self.new → AreRanksOf ranks.now (live_ids (trees_of S.Store self.old) number.now)
            → IfSome result (λ at. at.rank ≡ below at.key.items (live_ids (trees_of S.Store self.old) number.now)) }
        ensures stands { Stands S.Store self.old self.new }
    {
        let start = ranks.last_longer(self.segment.saturating_add(self.segment))?;
        let rank = start.before.checked_add(self.segment)?;
        let key = self.find_id_behind(number, start.key, self.segment)?;
        Some(Ranked { key, rank })
    }

    /// Splits the last segment that is long, and tells whether that was done.
    fn split_last(&mut self, number: &i64, ranks: &mut Ranks) -> bool
        ensures ranks { is_honest S.Store self.new → AreRanksOf ranks.old (live_ids (trees_of S.Store self.old) number.now)
            → AreRanksOf ranks.new (live_ids (trees_of S.Store self.old) number.now) }
        ensures stands { Stands S.Store self.old self.new }
    {
        let Some(at) = self.find_split(number, ranks) else {
            return false;
        };
        ranks.split(self.alloc, &at.key, at.rank).is_ok()
    }

    /// Splits the segments that are long, one after another, where memory is there for it.
    fn split_long(&mut self, number: &i64, ranks: &mut Ranks)
        ensures ranks { is_honest S.Store self.new → AreRanksOf ranks.old (live_ids (trees_of S.Store self.old) number.now)
            → AreRanksOf ranks.new (live_ids (trees_of S.Store self.old) number.now) }
        ensures stands { Stands S.Store self.old self.new }
    {
        for _count in 0..ranks.total() / max(self.segment, 1) {
            if !self.split_last(number, ranks) {
                return;
            }
        }
    }

    /// Takes out the ranks of a database, in segments that are not long, or makes them. `None` where the
    /// database has few documents, or they can't be counted.
    fn live_ranks(&mut self, number: &i64) -> Option<Ranks>
        ensures ranks { is_honest S.Store self.new → IfSome result (λ r. AreRanksOf r (live_ids (trees_of S.Store self.old) number.now)) }
        ensures stands { Stands S.Store self.old self.new }
    {
        let mut ranks = self.find_ranks(number)?;
        self.split_long(number, &mut ranks);
        Some(ranks)
    }

    // ---- counts

    /// Counts the ids between two bounds; none are counted where the one is not below the other.
    fn count_from(&mut self, number: &i64, low: &[u8], high: &[u8]) -> Option<u64>
        ensures count { is_honest S.Store self.new
            → IfSome result (λ n. n ≡ between low.now high.now (live_ids (trees_of S.Store self.old) number.now)) }
        ensures stands { Stands S.Store self.old self.new }
    {
        if !low.cmp(high).is_lt() {
            return Some(0);
        }
        match self.count_marked(number, false, low, high) {
            Ok(count) => Some(count),
            Err(_) => None,
        }
    }

    /// Counts the ids below a key: those of the segments before it, and those of its segment.
    fn rank_of(&mut self, ranks: &Ranks, number: &i64, key: &[u8]) -> Option<u64>
        ensures rank { is_honest S.Store self.new → AreRanksOf ranks.now (live_ids (trees_of S.Store self.old) number.now)
            → IfSome result (λ n. n ≡ below key.now (live_ids (trees_of S.Store self.old) number.now)) }
        ensures stands { Stands S.Store self.old self.new }
    {
        let start = ranks.segment_of(key);
        let within = self.count_from(number, start.key, key)?;
        (start.before as u64).checked_add(within)
    }

    /// Counts the ids between two bounds by these ranks. `None` where SQLite could not hold their number.
    fn count_within(&mut self, ranks: &Ranks, number: &i64, low: &[u8], high: &[u8]) -> Option<u64>
        ensures count { is_honest S.Store self.new → AreRanksOf ranks.now (live_ids (trees_of S.Store self.old) number.now)
            → IfSome result (λ n. n ≡ marked_count number.now false low.now high.now (trees_of S.Store self.old docs_tree)) }
        ensures bounded { IfSome result (λ n. n < 2 ^ 63 - 1) }
        ensures stands { Stands S.Store self.old self.new }
    {
        let to = self.rank_of(ranks, number, high)?;
        let from = self.rank_of(ranks, number, low)?;
        let count = to.saturating_sub(from);
        if count >= (1 << 63) - 1 {
            return None;
        }
        Some(count)
    }

    /// Counts the ids between two bounds by the ranks of the database, where they are had.
    fn count_by_ranks(&mut self, number: &i64, low: &[u8], high: &[u8]) -> Option<u64>
        ensures count { is_honest S.Store self.new
            → IfSome result (λ n. n ≡ marked_count number.now false low.now high.now (trees_of S.Store self.old docs_tree)) }
        ensures bounded { IfSome result (λ n. n < 2 ^ 63 - 1) }
        ensures stands { Stands S.Store self.old self.new }
    {
        let ranks = self.live_ranks(number)?;
        let count = self.count_within(&ranks, number, low, high);
        self.keep_live_ranks(number, ranks);
        count
    }

    /// Counts the documents whose winner is not deleted, and whose id lies between two bounds.
    pub(crate) fn count_live(
        &mut self,
        number: &i64,
        low: &[u8],
        high: &[u8],
    ) -> Result<u64, StoreFault>
        ensures answer { Answers S.Store self.old self.new (λ n. n)
            (Some (marked_count number.now false low.now high.now (trees_of S.Store self.old docs_tree))) result }
        ensures bounded { IfOk result (λ n. n < 2 ^ 63 - 1) }
        ensures stands { Stands S.Store self.old self.new }
    {
        match self.count_by_ranks(number, low, high) {
            Some(count) => Ok(count),
            None => self.count_marked(number, false, low, high),
        }
    }

    // ---- lists that skip

    /// Finds by these ranks where a list from a bound on may begin that skips so many rows.
    fn start_within(
        &mut self,
        ranks: &Ranks,
        number: &i64,
        low: &[u8],
        skip: u64,
    ) -> Option<SkipBound>
        ensures start { is_honest S.Store self.new → AreRanksOf ranks.now (live_ids (trees_of S.Store self.old) number.now)
            → IfSome result (λ s. IsSameFrom number.now (trees_of S.Store self.old docs_tree) low.now skip s.bound.items s.skip) }
        ensures less { IfSome result (λ s. s.skip ≤ skip) }
        ensures stands { Stands S.Store self.old self.new }
    {
        let target = self.rank_of(ranks, number, low)?.checked_add(skip)?;
        let start = ranks.last_before(target as usize);
        if !low.cmp(start.key).is_lt() {
            return None;
        }
        let rest = target - start.before as u64;
        if rest > skip {
            return None;
        }
        let bound = copy_bytes(self.alloc, start.key)?;
        Some(SkipBound { bound, skip: rest })
    }

    /// Finds by these ranks where a list downwards from a bound on may begin that skips so many rows.
    fn end_within(
        &mut self,
        ranks: &Ranks,
        number: &i64,
        high: &[u8],
        skip: u64,
    ) -> Option<SkipBound>
        ensures start { is_honest S.Store self.new → AreRanksOf ranks.now (live_ids (trees_of S.Store self.old) number.now)
            → IfSome result (λ s. IsSameDownFrom number.now (trees_of S.Store self.old docs_tree) high.now skip s.bound.items s.skip) }
        ensures less { IfSome result (λ s. s.skip ≤ skip) }
        ensures stands { Stands S.Store self.old self.new }
    {
        let rank = self.rank_of(ranks, number, high)?;
        let end = ranks.first_behind(rank.saturating_sub(skip) as usize)?;
        if !end.key.cmp(high).is_lt() {
            return None;
        }
        let rest = (end.before as u64).checked_add(skip)?.checked_sub(rank)?;
        if rest > skip {
            return None;
        }
        let bound = copy_bytes(self.alloc, end.key)?;
        Some(SkipBound { bound, skip: rest })
    }

    /// Finds where a list from a bound on may begin that skips so many rows, where they are many.
    pub(crate) fn find_start(&mut self, number: &i64, low: &[u8], skip: u64) -> Option<SkipBound>
        ensures start { is_honest S.Store self.new
            → IfSome result (λ s. IsSameFrom number.now (trees_of S.Store self.old docs_tree) low.now skip s.bound.items s.skip) }
        ensures less { IfSome result (λ s. s.skip ≤ skip) }
        ensures stands { Stands S.Store self.old self.new }
    {
        if skip < self.segment as u64 {
            return None;
        }
        let ranks = self.live_ranks(number)?;
        let start = self.start_within(&ranks, number, low, skip);
        self.keep_live_ranks(number, ranks);
        start
    }

    /// Finds where a list downwards from a bound on may begin that skips so many rows, where they are many.
    pub(crate) fn find_end(&mut self, number: &i64, high: &[u8], skip: u64) -> Option<SkipBound>
        ensures start { is_honest S.Store self.new
            → IfSome result (λ s. IsSameDownFrom number.now (trees_of S.Store self.old docs_tree) high.now skip s.bound.items s.skip) }
        ensures less { IfSome result (λ s. s.skip ≤ skip) }
        ensures stands { Stands S.Store self.old self.new }
    {
        if skip < self.segment as u64 {
            return None;
        }
        let ranks = self.live_ranks(number)?;
        let end = self.end_within(&ranks, number, high, skip);
        self.keep_live_ranks(number, ranks);
        end
    }
}
