//! What is known of the databases that were asked for before the latest one.

ghost use Rattle.std.specs.List.{AllByRecursion};
ghost use Rattle.std.specs.Prelude.{◌≡◌, ◌≢◌, ◌<◌, IfSome, Some, bytes_eq, slice_get, vec_len};
ghost use Rattle.sqlite_trees.specs.Tree.{Trees};
ghost use Rattle.sqlstore.specs.Standing.{AreKnown, IsKnown};
ghost use Rattle.sqlstore.specs.declared.known_database.KnownDatabase.{KnownDatabase};

use crate::known_database::KnownDatabase;
use crate::weight::takes_less;
use store::DbName;

/// How many databases are known beside the latest one.
const MOST: usize = 63;

/// So many bytes the security object of each of them may take: all together take at most 16 MiB.
const SHARE: usize = 1 << 18;

/// Takes out what is known of the database of this name.
pub(crate) fn take_named(earlier: &mut Vec<KnownDatabase>, name: &DbName) -> Option<KnownDatabase>
    ensures named { IfSome result (λ known. known.name ≡ name.now) }
    ensures known { (trees : Trees) → AreKnown trees earlier.old.items → IsKnown trees result }
    ensures others { (trees : Trees) → AreKnown trees earlier.old.items → AreKnown trees earlier.new.items }
{
    let place = place_of(earlier, name)?;
    Some(earlier.remove(place))
}

/// Returns the place of what is known of the database of this name.
fn place_of(earlier: &Vec<KnownDatabase>, name: &DbName) -> Option<usize>
    ensures within { IfSome result (λ i. i < vec_len earlier.now) }
    ensures named { IfSome result (λ i. (known : KnownDatabase) × (slice_get earlier.now.items i ≡ Some known) × (known.name ≡ name.now)) }
{
    for place in 0..earlier.len() {
        if is_of(&earlier[place], name) {
            return Some(place);
        }
    }
    None
}

/// Tells whether this is known of the database of this name.
fn is_of(known: &KnownDatabase, name: &DbName) -> bool
    ensures { result ≡ bytes_eq known.now.name name.now }
{
    known.name.as_str() == name.as_str()
}

/// Puts in what is known of a database, without its indexes and its design documents. Where its
/// security object takes more than its share of memory it is forgotten, and is read again.
pub(crate) fn keep_known(earlier: &mut Vec<KnownDatabase>, known: KnownDatabase)
    ensures { (trees : Trees) → AreKnown trees earlier.old.items → IsKnown trees (Some known) → AreKnown trees earlier.new.items }
{
    if takes_less(&known.found.security, SHARE) {
        put_known(earlier, known);
    }
}

/// Puts in what is known of a database, without its indexes and its design documents. The one that
/// was asked for last longest ago is forgotten where there are too many; where memory runs out this
/// one is.
fn put_known(earlier: &mut Vec<KnownDatabase>, known: KnownDatabase)
    ensures { (trees : Trees) → AreKnown trees earlier.old.items → IsKnown trees (Some known) → AreKnown trees earlier.new.items }
{
    if earlier.len() >= MOST {
        drop(earlier.remove(0));
    }
    let (known, _indexes) = known.split();
    drop(earlier.push(known));
}

/// Forgets what is known of the database of this name.
pub(crate) fn forget_named(earlier: &mut Vec<KnownDatabase>, name: &DbName)
    ensures apart { AllByRecursion (λ known. known.name ≢ name.now) earlier.new.items }
    ensures known { (trees : Trees) → AreKnown trees earlier.old.items → AreKnown trees earlier.new.items }
{
    earlier.retain(|known| !is_of(known, name));
}
