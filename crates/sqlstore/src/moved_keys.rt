//! The ranks of the keys of an index, after documents were written.

ghost use Rattle.std.specs.Prelude.{◌≡◌, ℕ, IfSome, List};
ghost use Rattle.ranks.specs.Counts.{AreRanksOf};
ghost use Rattle.store.specs.Database.{Document, TextMap};
ghost use Rattle.sqlstore.specs.inner.Keys.{AreKeyChanges, document_keys, with_one_key};

use crate::entry_key::EntryKey;
use crate::key_change::KeyChange;
use ranks::Ranks;

/// Makes of the ranks of the keys of an index those after these documents were written. Where there are too
/// many keys to count, they are not known any more.
pub(crate) fn move_keys(ranks: Ranks, changes: &[KeyChange]) -> Option<Ranks>
    ensures { (fields : List (List ℕ)) (old new : TextMap Document) → AreKeyChanges fields changes.now old new
        → AreRanksOf ranks (document_keys fields old) → IfSome result (λ r. AreRanksOf r (document_keys fields new)) }
{
    let mut moved = ranks;
    for change in changes {
        moved = move_key(moved, change)?;
    }
    Some(moved)
}

/// Makes of them the ranks after one document was written.
fn move_key(ranks: Ranks, change: &KeyChange) -> Option<Ranks>
    ensures { (others : List (List ℕ)) → AreRanksOf ranks (with_one_key change.now.was others)
        → IfSome result (λ r. AreRanksOf r (with_one_key change.now.is others)) }
{
    let without = take_out(ranks, &change.was)?;
    put_in(without, &change.is)
}

/// Takes a key out of them, if there is one.
fn take_out(ranks: Ranks, key: &Option<EntryKey>) -> Option<Ranks>
    ensures { (others : List (List ℕ)) → AreRanksOf ranks (with_one_key key.now others) → IfSome result (λ r. AreRanksOf r others) }
{
    let Some(key) = key else {
        return Some(ranks);
    };
    if ranks.total() == usize::MAX {
        return None;
    }
    let mut moved = ranks;
    moved.change(&key.bytes, true, false);
    Some(moved)
}

/// Puts a key into them, if there is one.
fn put_in(ranks: Ranks, key: &Option<EntryKey>) -> Option<Ranks>
    ensures { (others : List (List ℕ)) → AreRanksOf ranks others → IfSome result (λ r. AreRanksOf r (with_one_key key.now others)) }
{
    let Some(key) = key else {
        return Some(ranks);
    };
    if ranks.total() == usize::MAX {
        return None;
    }
    let mut moved = ranks;
    moved.change(&key.bytes, false, true);
    Some(moved)
}
