//! How many documents of a database have a winner that is deleted, or is not, where that was counted.

ghost use Rattle.std.specs.Prelude.{◌≡◌, ◌+◌, IfSome, Some};
ghost use Rattle.std.specs.FinMap as map;
ghost use Rattle.store.specs.Database.{Document, TextMap};
ghost use Rattle.store.specs.Pages.{is_gone};
ghost use Rattle.sqlstore.specs.inner.Marks.{AreChanges, AreCounts, mark_of, share};
ghost use Rattle.sqlstore.specs.declared.document_count.DocumentCount.{DocumentCount as CountValue};

use crate::document_count::DocumentCount;
use crate::marked::Marked;

/// Both counts of a database, each where it was counted.
#[derive(Clone, Copy, Debug)]
pub(crate) struct KnownCounts {
    /// How many documents have a winner that is not deleted.
    pub(crate) live: Option<DocumentCount>,
    /// How many have a winner that is deleted.
    pub(crate) deleted: Option<DocumentCount>,
}

impl KnownCounts {
    /// Makes of them the counts after these documents were written. One that no longer fits is not known.
    pub(crate) fn after(self, changes: &[Marked]) -> KnownCounts
        ensures { (old new : TextMap Document) → AreChanges changes.now old new → AreCounts self old → AreCounts result new }
    {
        let mut counts = self;
        for change in changes {
            counts = counts.after_one(change);
        }
        counts
    }

    /// Makes of them the counts after one document was written.
    fn after_one(self, change: &Marked) -> KnownCounts
        ensures { (old : TextMap Document) (d : Document) → change.now.was ≡ mark_of (map.get old change.now.id) → change.now.is ≡ is_gone d.history
            → AreCounts self old → AreCounts result (map.insert old change.now.id d) }
    {
        KnownCounts {
            live: move_count(self.live, false, change),
            deleted: move_count(self.deleted, true, change),
        }
    }
}

/// Moves the count of the documents whose winner is marked so, after one document was written.
fn move_count(count: Option<DocumentCount>, deleted: bool, change: &Marked) -> Option<DocumentCount>
    ensures { IfSome result
        (λ now. (was : CountValue) × (count ≡ Some was) × (now.value + share deleted change.now.was ≡ was.value + share deleted (Some change.now.is))) }
{
    let more = count?.value + share_of(Some(change.is), deleted);
    let value = more.checked_sub(share_of(change.was, deleted))?;
    if value >= i64::MAX as u64 {
        return None;
    }
    Some(DocumentCount { value })
}

/// Returns what a document with this mark adds to the count of those that are marked so.
fn share_of(mark: Option<bool>, deleted: bool) -> u64
    ensures { result ≡ share deleted mark }
{
    match mark {
        Some(gone) => u64::from(gone == deleted),
        None => 0,
    }
}
