//! What is known of a database from when it was last asked for.

ghost use Rattle.std.specs.Prelude.{◌≡◌, IfSome};
ghost use Rattle.ranks.specs.Counts.{AreRanksOf};
ghost use Rattle.sqlite_trees.specs.Tree.{Trees};
ghost use Rattle.sqlstore.specs.inner.Listing.{all_count, live_ids};
ghost use Rattle.sqlstore.specs.inner.Marks.{AreCountsAt};
ghost use Rattle.sqlstore.specs.inner.Reading.{at_sequence, count_kept, counts_of, with_count, without_indexes};
ghost use Rattle.sqlstore.specs.inner.Designs.{AreKnownDesigns};
ghost use Rattle.sqlstore.specs.inner.Keys.{AreKnownRanks};
ghost use Rattle.sqlstore.specs.Standing.{IsKnown};
ghost use Rattle.transactions.specs.Indexing.{AreKnownIndexes};

use crate::document_count::DocumentCount;
use crate::index_ranks::IndexRanks;
use crate::known_counts::KnownCounts;
use crate::known_design::KnownDesign;
use index::Declaration;
use ranks::Ranks;
use store::DbName;
use tables::FoundDatabase;

/// A database and what its row says, how many documents it has, the ranks of their ids, its indexes, the
/// ranks of the keys that these have, and its design documents.
pub(crate) struct KnownDatabase {
    /// Its name.
    pub(crate) name: DbName,
    /// Its number, its security object and its sequence.
    pub(crate) found: FoundDatabase,
    /// How many of its documents have a winner that is not deleted, where that was counted.
    pub(crate) live: Option<DocumentCount>,
    /// How many have a winner that is deleted, where that was counted.
    pub(crate) deleted: Option<DocumentCount>,
    /// The ranks of the ids of those that are not deleted, where they were made.
    pub(crate) ranks: Option<Ranks>,
    /// Its indexes, where they were listed.
    pub(crate) indexes: Option<Vec<Declaration>>,
    /// The ranks of the keys of indexes, where some were made.
    pub(crate) index_ranks: Option<Vec<IndexRanks>>,
    /// Its design documents, where they were read.
    pub(crate) designs: Option<Vec<KnownDesign>>,
}

// Written out, so that callers do not prove again how each part is dropped.
impl Drop for KnownDatabase {
    fn drop(self) {
        let KnownDatabase {
            name: _,
            found: _,
            live: _,
            deleted: _,
            ranks: _,
            indexes: _,
            index_ranks: _,
            designs: _,
        } = self;
    }
}

/// The number of a database and its sequence.
#[derive(Clone, Copy, Debug)]
pub(crate) struct DatabaseNumbers {
    /// Its number, which the rows of its documents name.
    pub(crate) number: i64,
    /// Its sequence.
    pub(crate) sequence: u64,
}

impl KnownDatabase {
    /// Returns the number of the database and its sequence.
    pub(crate) fn numbers(&self) -> DatabaseNumbers
        ensures { result ≡ record { number = self.now.found.number; sequence = self.now.found.sequence } }
    {
        DatabaseNumbers {
            number: self.found.number,
            sequence: self.found.sequence,
        }
    }

    /// Makes of it what is known after documents were written: its sequence moved to this one, and its
    /// indexes are these.
    pub(crate) fn at_sequence(self, sequence: u64, indexes: Vec<Declaration>) -> KnownDatabase
        ensures { result ≡ at_sequence sequence indexes self }
    {
        let mut known = self;
        known.found.sequence = sequence;
        known.live = None;
        known.deleted = None;
        known.ranks = None;
        known.indexes = Some(indexes);
        known.index_ranks = None;
        known.designs = None;
        known
    }

    /// Parts it from its indexes. The ranks of their keys are forgotten, and its design documents.
    pub(crate) fn split(self) -> (KnownDatabase, Option<Vec<Declaration>>)
        ensures known { result.0 ≡ without_indexes self }
        ensures indexes { result.1 ≡ self.indexes }
    {
        let mut known = self;
        let indexes = known.indexes.take();
        known.index_ranks = None;
        known.designs = None;
        (known, indexes)
    }

    /// Returns how many documents have a winner that is marked so, where that was counted.
    fn count(&self, deleted: bool) -> Option<DocumentCount>
        ensures { result ≡ count_kept deleted self.now }
    {
        if deleted { self.deleted } else { self.live }
    }

    /// Puts in the count of the documents whose winner is marked so.
    fn put_count(&mut self, deleted: bool, count: DocumentCount)
        ensures { self.new ≡ with_count deleted count self.old }
    {
        if deleted {
            self.deleted = Some(count);
        } else {
            self.live = Some(count);
        }
    }

    /// Returns both counts, each where it was counted.
    fn counts(&self) -> KnownCounts
        ensures { result ≡ counts_of self.now }
    {
        KnownCounts {
            live: self.live,
            deleted: self.deleted,
        }
    }
}

/// Returns the counts of the database of this number, where one of them is known.
pub(crate) fn find_counts(known: &Option<KnownDatabase>, number: &i64) -> Option<KnownCounts>
    ensures { (trees : Trees) → IsKnown trees known.now → IfSome result (λ counts. AreCountsAt counts number.now trees) }
{
    let known = known.as_ref()?;
    if known.found.number != *number {
        return None;
    }
    if known.live.is_none() && known.deleted.is_none() {
        return None;
    }
    Some(known.counts())
}

/// Keeps these counts of the database of this number, where it is the known one.
pub(crate) fn keep_counts(known: &mut Option<KnownDatabase>, number: &i64, counts: KnownCounts)
    ensures { (trees : Trees) → IsKnown trees known.old → AreCountsAt counts number.now trees → IsKnown trees known.new }
{
    match known {
        Some(known) if known.found.number == *number => {
            known.live = counts.live;
            known.deleted = counts.deleted;
        }
        _ => {}
    }
}

/// Returns how many documents of the database of this number have a winner that is marked so, where that
/// is known.
pub(crate) fn find_count(
    known: &Option<KnownDatabase>,
    number: &i64,
    deleted: bool,
) -> Option<DocumentCount>
    ensures { (trees : Trees) → IsKnown trees known.now → IfSome result (λ count. count.value ≡ all_count trees number.now deleted) }
{
    let known = known.as_ref()?;
    if known.found.number != *number {
        return None;
    }
    known.count(deleted)
}

/// Keeps the count of the documents of the database of this number whose winner is marked so, where it is the
/// known one.
pub(crate) fn keep_count(
    known: &mut Option<KnownDatabase>,
    number: &i64,
    deleted: bool,
    count: DocumentCount,
)
    ensures { (trees : Trees) → IsKnown trees known.old → count.value ≡ all_count trees number.now deleted → IsKnown trees known.new }
{
    match known {
        Some(known) if known.found.number == *number => known.put_count(deleted, count),
        _ => {}
    }
}

/// Parts what is known from the indexes of the database of this number, where it is the known one.
pub(crate) fn take_indexes(
    known: Option<KnownDatabase>,
    number: &i64,
) -> (Option<KnownDatabase>, Option<Vec<Declaration>>)
    ensures known { (trees : Trees) → IsKnown trees known → IsKnown trees result.0 }
    ensures indexes { (trees : Trees) → IsKnown trees known → AreKnownIndexes result.1 number.now trees }
{
    let Some(known) = known else {
        return (None, None);
    };
    if known.found.number != *number {
        return (Some(known), None);
    }
    let (known, indexes) = known.split();
    (Some(known), indexes)
}

/// Takes out the ranks of the database of this number, where it is the known one.
pub(crate) fn take_ranks(known: &mut Option<KnownDatabase>, number: &i64) -> Option<Ranks>
    ensures known { (trees : Trees) → IsKnown trees known.old → IsKnown trees known.new }
    ensures ranks { (trees : Trees) → IsKnown trees known.old → IfSome result (λ r. AreRanksOf r (live_ids trees number.now)) }
{
    match known {
        Some(KnownDatabase { found, ranks, .. }) if found.number == *number => ranks.take(),
        _ => None,
    }
}

/// Keeps these ranks of the database of this number, where it is the known one.
pub(crate) fn keep_ranks(known: &mut Option<KnownDatabase>, number: &i64, ranks: Option<Ranks>)
    ensures { (trees : Trees) → IsKnown trees known.old → IfSome ranks (λ r. AreRanksOf r (live_ids trees number.now)) → IsKnown trees known.new }
{
    match known {
        Some(known) if known.found.number == *number => known.ranks = ranks,
        _ => {}
    }
}

/// Takes out the ranks of the keys of the indexes of the database of this number, where it is the known one.
pub(crate) fn take_index_ranks(
    known: &mut Option<KnownDatabase>,
    number: &i64,
) -> Option<Vec<IndexRanks>>
    ensures known { (trees : Trees) → IsKnown trees known.old → IsKnown trees known.new }
    ensures ranks { (trees : Trees) → IsKnown trees known.old → AreKnownRanks trees number.now result }
{
    match known {
        Some(
            KnownDatabase {
                found,
                index_ranks,
                ..
            },
        ) if found.number == *number => index_ranks.take(),
        _ => None,
    }
}

/// Keeps these ranks of the keys of indexes of the database of this number, where it is the known one.
pub(crate) fn keep_index_ranks(
    known: &mut Option<KnownDatabase>,
    number: &i64,
    ranks: Option<Vec<IndexRanks>>,
)
    ensures { (trees : Trees) → IsKnown trees known.old → AreKnownRanks trees number.now ranks → IsKnown trees known.new }
{
    match known {
        Some(known) if known.found.number == *number => known.index_ranks = ranks,
        _ => {}
    }
}

/// Takes out the design documents of the database of this number, where it is the known one.
pub(crate) fn take_designs(
    known: &mut Option<KnownDatabase>,
    number: &i64,
) -> Option<Vec<KnownDesign>>
    ensures known { (trees : Trees) → IsKnown trees known.old → IsKnown trees known.new }
    ensures designs { (trees : Trees) → IsKnown trees known.old → AreKnownDesigns trees number.now result }
{
    match known {
        Some(KnownDatabase { found, designs, .. }) if found.number == *number => designs.take(),
        _ => None,
    }
}

/// Keeps these design documents of the database of this number, where it is the known one.
pub(crate) fn keep_designs(
    known: &mut Option<KnownDatabase>,
    number: &i64,
    designs: Option<Vec<KnownDesign>>,
)
    ensures { (trees : Trees) → IsKnown trees known.old → AreKnownDesigns trees number.now designs → IsKnown trees known.new }
{
    match known {
        Some(known) if known.found.number == *number => known.designs = designs,
        _ => {}
    }
}
