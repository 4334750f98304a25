//! The ranks of the ids of a database that are not deleted, after documents were written.

ghost use Rattle.std.specs.Prelude.{◌≡◌, IfSome, not};
ghost use Rattle.std.specs.FinMap as map;
ghost use Rattle.ranks.specs.Counts.{AreRanksOf};
ghost use Rattle.store.specs.Database.{Document, TextMap};
ghost use Rattle.store.specs.Pages.{is_gone};
ghost use Rattle.sqlstore.specs.inner.Marks.{AreChanges, is_live, live_keys, mark_of};

use crate::marked::Marked;
use ranks::Ranks;

/// Makes of ranks, where they are known, those after these documents were written. Where there are too many
/// ids to count, they are not known any more.
pub(crate) fn move_ranks(ranks: Option<Ranks>, changes: &[Marked]) -> Option<Ranks>
    ensures { (old new : TextMap Document) → AreChanges changes.now old new → IfSome ranks (λ r. AreRanksOf r (live_keys old))
        → IfSome result (λ r. AreRanksOf r (live_keys new)) }
{
    let mut moved = ranks?;
    for change in changes {
        moved = move_one(moved, change)?;
    }
    Some(moved)
}

/// Makes of them the ranks after one document was written.
fn move_one(ranks: Ranks, change: &Marked) -> Option<Ranks>
    ensures { (old : TextMap Document) (d : Document) → change.now.was ≡ mark_of (map.get old change.now.id) → change.now.is ≡ is_gone d.history
        → AreRanksOf ranks (live_keys old) → IfSome result (λ r. AreRanksOf r (live_keys (map.insert old change.now.id d))) }
{
    if ranks.total() == usize::MAX {
        return None;
    }
    let mut moved = ranks;
    let key = change.id.as_str().as_bytes();
    moved.change(key, is_live(change.was), !change.is);
    Some(moved)
}

/// Tells whether a document with this mark has a winner that is not deleted.
fn is_live(mark: Option<bool>) -> bool
    ensures { result ≡ is_live mark }
{
    match mark {
        Some(gone) => !gone,
        None => false,
    }
}
