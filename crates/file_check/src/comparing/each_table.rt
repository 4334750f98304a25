//! Whether a table is that of this server.

ghost use Rattle.std.specs.Prelude.{◌≡◌, ◌↔◌, ◌∷◌, [], IsTrue, false};
ghost use Rattle.sqlite_value.specs.Keys.{plain};
ghost use Rattle.tables.specs.Schema as tables;

use crate::comparing::columns::{
    are_of_dbs, are_of_decls, are_of_docs, are_of_entries, are_of_locals, are_of_meta, are_of_revs,
};
use sqlite_items::Items;
use sqlite_schema::code::Terms;
use sqlite_schema::schema::{Stamps, Table};
use sqlite_value::keys::Order;

/// Tells whether there is no expression.
fn is_without_terms(terms: &Terms) -> bool
    ensures { IsTrue result ↔ (terms.now ≡ []) }
{
    terms.roots.is_empty()
}

/// Tells whether no default reads the time.
fn is_without_stamps(stamps: &Stamps) -> bool
    ensures { IsTrue result ↔ (stamps.now ≡ record { places = []; terms = []; formats = [] }) }
{
    stamps.places.is_empty() && is_without_terms(&stamps.terms) && stamps.formats.is_empty()
}

/// Tells whether a table has no check, no reference, no default that is computed, and no AUTOINCREMENT.
fn is_plain(found: &Table) -> bool
    ensures { IsTrue result ↔
        (found.now ≡ record found.now
        { checks = []; references = []; computed = []; stamps = record { places = []; terms = []; formats = [] }; is_counted = false }) }
{
    is_without_terms(&found.checks)
        && found.references.is_empty()
        && found.computed.is_empty()
        && is_without_stamps(&found.stamps)
        && !found.is_counted
}

/// Tells whether a table is of this name, at this tree, with this key.
fn is_table(found: &Table, name: &str, tree: u32, key: Option<usize>, primary: &[usize]) -> bool
    ensures { IsTrue result ↔
        (found.now ≡ record found.now {
          name = name.now;
          tree = tree;
          key = key;
          primary = primary.now;
          checks = [];
          references = [];
          computed = [];
          stamps = record
              { places = []; terms = []; formats = [] };
          is_counted = false;
        }) }
{
    found.name.as_slice() == name.as_bytes()
        && found.tree == tree
        && found.key == key
        && found.primary.as_slice() == primary
        && is_plain(found)
}

/// Tells whether a key has these places.
fn is_key(found: &Items<usize>, places: &[usize]) -> bool
    ensures { IsTrue result ↔ (found.now ≡ places.now) }
{
    found.as_slice() == places
}

/// Tells whether this is the one key.
fn is_one_key(keys: &[Items<usize>], key: &[usize]) -> bool
    ensures { IsTrue result ↔ (keys.now ≡ key.now ∷ []) }
{
    match keys {
        [one] => is_key(one, key),
        _ => false,
    }
}

/// Tells whether these are the two keys.
fn are_two_keys(keys: &[Items<usize>], first: &[usize], second: &[usize]) -> bool
    ensures { IsTrue result ↔ (keys.now ≡ first.now ∷ second.now ∷ []) }
{
    match keys {
        [one, two] => is_key(one, first) && is_key(two, second),
        _ => false,
    }
}

/// Tells whether one index ascends by its bytes.
fn is_one_plain(orders: &[Order]) -> bool
    ensures { IsTrue result ↔ (orders.now ≡ plain ∷ []) }
{
    match orders {
        [one] => *one == Order::PLAIN,
        _ => false,
    }
}

/// Tells whether two indexes ascend by their bytes.
fn are_two_plain(orders: &[Order]) -> bool
    ensures { IsTrue result ↔ (orders.now ≡ plain ∷ plain ∷ []) }
{
    match orders {
        [one, two] => *one == Order::PLAIN && *two == Order::PLAIN,
        _ => false,
    }
}

/// Tells whether a table has this unique key and no other.
fn has_one_key(found: &Table, key: &[usize]) -> bool
    ensures { IsTrue result ↔ (found.now ≡ record found.now { uniques = key.now ∷ []; orders = plain ∷ [] }) }
{
    is_one_key(found.uniques.as_slice(), key) && is_one_plain(found.orders.as_slice())
}

/// Tells whether a table has these two unique keys and no other.
fn has_two_keys(found: &Table, first: &[usize], second: &[usize]) -> bool
    ensures { IsTrue result ↔ (found.now ≡ record found.now { uniques = first.now ∷ second.now ∷ []; orders = plain ∷ plain ∷ [] }) }
{
    are_two_keys(found.uniques.as_slice(), first, second) && are_two_plain(found.orders.as_slice())
}

/// Tells whether a table is `meta`.
pub(crate) fn is_meta(found: &Table) -> bool
    ensures { IsTrue result ↔ (found.now ≡ tables.meta_table) }
{
    is_table(found, "meta", 0, None, &[])
        && found.uniques.is_empty()
        && found.orders.is_empty()
        && are_of_meta(found.columns.as_slice())
}

/// Tells whether a table is `dbs`.
pub(crate) fn is_dbs(found: &Table) -> bool
    ensures { IsTrue result ↔ (found.now ≡ tables.dbs_table) }
{
    is_table(found, "dbs", 1, Some(0), &[0])
        && has_one_key(found, &[2])
        && are_of_dbs(found.columns.as_slice())
}

/// Tells whether a table is `docs`.
pub(crate) fn is_docs(found: &Table) -> bool
    ensures { IsTrue result ↔ (found.now ≡ tables.docs_table) }
{
    is_table(found, "docs", 3, None, &[1, 2])
        && has_two_keys(found, &[1, 2], &[1, 3])
        && are_of_docs(found.columns.as_slice())
}

/// Tells whether a table is `revs`.
pub(crate) fn is_revs(found: &Table) -> bool
    ensures { IsTrue result ↔ (found.now ≡ tables.revs_table) }
{
    is_table(found, "revs", 6, None, &[1, 2, 3, 4])
        && has_one_key(found, &[1, 2, 3, 4])
        && are_of_revs(found.columns.as_slice())
}

/// Tells whether a table is `locals`.
pub(crate) fn is_locals(found: &Table) -> bool
    ensures { IsTrue result ↔ (found.now ≡ tables.locals_table) }
{
    is_table(found, "locals", 8, None, &[1, 2])
        && has_one_key(found, &[1, 2])
        && are_of_locals(found.columns.as_slice())
}

/// Tells whether a table is `decls`.
pub(crate) fn is_decls(found: &Table) -> bool
    ensures { IsTrue result ↔ (found.now ≡ tables.decls_table) }
{
    is_table(found, "decls", 10, Some(0), &[0])
        && has_one_key(found, &[2, 3, 4])
        && are_of_decls(found.columns.as_slice())
}

/// Tells whether a table is `entries`.
pub(crate) fn is_entries(found: &Table) -> bool
    ensures { IsTrue result ↔ (found.now ≡ tables.entries_table) }
{
    is_table(found, "entries", 12, None, &[1, 2, 3])
        && has_one_key(found, &[1, 2, 3])
        && are_of_entries(found.columns.as_slice())
}
