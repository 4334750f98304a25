//! The design documents of a database, as they are known of it.

ghost use Rattle.std.specs.Prelude.{◌≡◌, ℤ, IfOk, IfSome, Some, bytes_eq, map};
ghost use Rattle.std.specs.FinMap.{get};
ghost use Rattle.sqlite_trees.specs.Tree.{Trees};
ghost use Rattle.tables.specs.Listings.{live_rows};
ghost use Rattle.tables.specs.Rows.{history_in_rows};
ghost use Rattle.tables.specs.Schema.{revs_tree};
ghost use Rattle.tree.specs.Outline.{marked_winner};
ghost use Rattle.sqlstore.specs.inner.Designs.{AreDesigns, IsDesign, design_rows, row_of_design};
ghost use Rattle.sqlstore.specs.inner.Listing.{listed_by_id};
ghost use Rattle.sqlstore.specs.Standing.{IsKnown};

use crate::known_database::KnownDatabase;
use crate::known_design::KnownDesign;
use couch_json::Got;
use std::alloc::Global;
use store::IdRow;
use tree::{DocId, Entry, MarkedRev, Rev};

/// Returns the design documents of the database of this number, where they are known.
fn designs_of<'a>(known: &'a Option<KnownDatabase>, number: &i64) -> Option<&'a [KnownDesign]>
    ensures { (trees : Trees) → IsKnown trees known.now → IfSome result (λ ds. AreDesigns trees number.now ds.now) }
{
    let known = known.as_ref()?;
    if known.found.number != *number {
        return None;
    }
    let designs = known.designs.as_ref()?;
    Some(designs)
}

/// Finds the design document of this id among these.
fn find_design<'a>(designs: &'a [KnownDesign], id: &DocId) -> Option<&'a KnownDesign>
    ensures { (trees : Trees) (db : ℤ) → AreDesigns trees db designs.now → IfSome result (λ d. IsDesign trees db d.now × (d.now.id ≡ id.now)) }
{
    for design in designs {
        if is_of(design, id) {
            return Some(design);
        }
    }
    None
}

/// Tells whether a design document has this id.
fn is_of(design: &KnownDesign, id: &DocId) -> bool
    ensures { result ≡ bytes_eq design.now.id id.now }
{
    design.id.as_str() == id.as_str()
}

/// Returns the winner of a design document of the database of this number, where it is known.
pub(crate) fn known_winner(
    known: &Option<KnownDatabase>,
    number: &i64,
    id: &DocId,
) -> Option<MarkedRev>
    ensures { (trees : Trees) → IsKnown trees known.now
        → IfSome result (λ winner. marked_winner (history_in_rows (trees revs_tree) number.now id.now) ≡ Some winner) }
{
    let design = find_design(designs_of(known, number)?, id)?;
    Some(MarkedRev {
        rev: design.rev,
        deleted: false,
    })
}

/// Returns a copy of what is known of a revision, where it is the winner of a design document of the
/// database of this number that is known. `None` too where memory runs out.
pub(crate) fn known_entry(
    alloc: Global,
    known: &Option<KnownDatabase>,
    number: &i64,
    id: &DocId,
    rev: &Rev,
) -> Option<Entry>
    ensures { (trees : Trees) → IsKnown trees known.now
        → IfSome result (λ entry. get (history_in_rows (trees revs_tree) number.now id.now) rev.now ≡ Some entry) }
{
    let design = find_design(designs_of(known, number)?, id)?;
    if !design.rev.cmp(rev).is_eq() {
        return None;
    }
    let Ok(entry) = design.entry.copy(alloc) else {
        return None;
    };
    Some(entry)
}

/// Returns the rows of the design documents of the database of this number, where they are known and
/// memory is there for them.
pub(crate) fn known_rows(
    alloc: Global,
    known: &Option<KnownDatabase>,
    number: &i64,
) -> Option<Vec<IdRow>>
    ensures { (trees : Trees) → IsKnown trees known.now → IfSome result (λ rows. rows.items ≡ design_rows (live_rows (listed_by_id trees number.now))) }
{
    copy_rows(alloc, designs_of(known, number)?).ok()
}

/// Makes the rows of these design documents.
fn copy_rows(alloc: Global, designs: &[KnownDesign]) -> Got<Vec<IdRow>>
    ensures { IfOk result (λ rows. rows.items ≡ map row_of_design designs.now) }
{
    let mut rows = Vec::with_capacity(alloc, designs.len())?;
    for design in designs {
        let id = design.id.copy(alloc)?;
        rows.push(IdRow {
            id,
            rev: design.rev,
        })?;
    }
    Ok(rows)
}
