//! Which index serves a find. The choice shows in no reply, so no clause speaks of it: whether the index
//! that is chosen may serve is asked again by [`plan_by`](crate::planning::plan_by). Each design document
//! is read once: what was read of the one that declares the index is handed over.

ghost use Rattle.std.specs.Prelude.{◌≡◌, IfErr, IfOk, IfSome, None, Some};
ghost use Rattle.std.specs.FinMap as map;
ghost use Rattle.store.specs.Calls.{OnlyReads};
ghost use Rattle.store.specs.Database.{Database};
ghost use Rattle.read.specs.Answers.{Stops};
ghost use Rattle.find.specs.inner.Planning.{IsReadIn};

use crate::fixed::only_value;
use crate::query::Query;
use crate::ranges::{are_same, is_among};
use couch_json::{FieldPath, Got, Json, NameMap, NoMemory, PathFault};
use read::ReadFault;
use selector::{Bounds, FieldBounds};
use std::alloc::Global;
use store::{DbName, IdRow, Store, design_range, find_winning_body, read_winning};
use tree::{DocId, History};

/// An index that is chosen, with what was read of the design document that declares it.
#[derive(Drop)]
pub(crate) struct Chosen {
    /// The id of the design document.
    pub(crate) design: DocId,
    /// Its winner, as a history of its own.
    pub(crate) history: History,
    /// The name of the index there.
    pub(crate) name: String,
    /// How well it serves.
    fit: Fit,
}

/// An index of a design document, by its name there.
#[derive(Drop)]
struct IndexName {
    /// Its name.
    name: String,
    /// How well it serves.
    fit: Fit,
}

/// What is asked of each index: the parts of a query that the choice goes by.
#[derive(Drop)]
struct Needs<'a> {
    /// The fields to sort by.
    sort: &'a [FieldPath],
    /// Between which values the fields lie that the selector names, from one walk over it.
    bounds: FieldBounds<'a>,
}

/// How well an index serves a query.
#[derive(Clone, Copy, Debug, PartialEq, Eq)]
enum Fit {
    /// It may not, or no better than a scan of all documents.
    Poor = 1,
    /// It leaves out documents that a scan reads.
    Narrow = 2,
    /// Its rows go in the order of the query, too.
    InOrder = 3,
}

/// Chooses an index of a database for a query: the first whose rows go in its order, else the first that
/// serves; `None` where a scan of all documents serves as well.
pub(crate) fn choose_index<S: Store>(
    alloc: Global,
    store: &mut S,
    db: &DbName,
    query: &Query,
) -> Result<Option<Chosen>, ReadFault>
    ensures ok { S.is_honest store.new → IfOk result (λ chosen. (d : Database) → map.get (S.contents store.old) db.now ≡ Some d
        → IfSome chosen (λ c. IsReadIn c d)) }
    ensures stops { IfErr result (Stops S.Store store.old store.new (map.get (S.contents store.old) db.now ≡ None)) }
    ensures reads { OnlyReads S.Store store.old store.new }
{
    let range = design_range(alloc)?;
    let page = store.page_by_id(db, &range)?;
    if page.rows.is_empty() {
        return Ok(None);
    }
    let needs = Needs {
        sort: query.sort.as_slice(),
        bounds: query.selector.field_bounds(alloc)?,
    };
    choose_among(alloc, store, db, &page.rows, &needs)
}

/// Chooses an index that one of these design documents declares.
fn choose_among<S: Store>(
    alloc: Global,
    store: &mut S,
    db: &DbName,
    rows: &[IdRow],
    needs: &Needs<'_>,
) -> Result<Option<Chosen>, ReadFault>
    ensures ok { S.is_honest store.new → IfOk result (λ chosen. (d : Database) → map.get (S.contents store.old) db.now ≡ Some d
        → IfSome chosen (λ c. IsReadIn c d)) }
    ensures stops { IfErr result (Stops S.Store store.old store.new (map.get (S.contents store.old) db.now ≡ None)) }
    ensures reads { OnlyReads S.Store store.old store.new }
{
    let mut chosen = None;
    for row in rows {
        let found = choose_in(alloc, store, db, &row.id, needs)?;
        if fit_of(&found) == Fit::InOrder {
            return Ok(found);
        }
        if chosen.is_none() {
            chosen = found;
        }
    }
    Ok(chosen)
}

/// Tells how well an index serves, where there is one.
fn fit_of(chosen: &Option<Chosen>) -> Fit {
    match chosen {
        Some(chosen) => chosen.fit,
        None => Fit::Poor,
    }
}

/// Chooses an index that this design document declares.
fn choose_in<S: Store>(
    alloc: Global,
    store: &mut S,
    db: &DbName,
    design: &DocId,
    needs: &Needs<'_>,
) -> Result<Option<Chosen>, ReadFault>
    ensures ok { S.is_honest store.new → IfOk result (λ chosen. (d : Database) → map.get (S.contents store.old) db.now ≡ Some d
        → IfSome chosen (λ c. IsReadIn c d)) }
    ensures stops { IfErr result (Stops S.Store store.old store.new (map.get (S.contents store.old) db.now ≡ None)) }
    ensures reads { OnlyReads S.Store store.old store.new }
{
    let history = read_winning(alloc, store, db, design)?;
    let Some(index) = choose_declared(alloc, &history, needs)? else {
        return Ok(None);
    };
    Ok(Some(Chosen {
        design: design.copy(alloc)?,
        history,
        name: index.name,
        fit: index.fit,
    }))
}

/// Chooses an index that a design document with this history declares.
fn choose_declared(alloc: Global, history: &History, needs: &Needs<'_>) -> Got<Option<IndexName>> {
    let Some(body) = find_winning_body(history) else {
        return Ok(None);
    };
    match body.member("indexes") {
        Some(Json::Object(indexes)) => choose_named(alloc, indexes, needs),
        _ => Ok(None),
    }
}

/// Chooses one of these indexes, the first by name where they serve as well.
fn choose_named(
    alloc: Global,
    indexes: &NameMap<Json>,
    needs: &Needs<'_>,
) -> Got<Option<IndexName>> {
    let mut chosen = None;
    for (name, index) in indexes.as_slice() {
        let fit = fit_declared(alloc, index, needs)?;
        if fit == Fit::InOrder || (fit == Fit::Narrow && chosen.is_none()) {
            chosen = Some(IndexName {
                name: String::from_str(alloc, name.as_str())?,
                fit,
            });
        }
        if fit == Fit::InOrder {
            return Ok(chosen);
        }
    }
    Ok(chosen)
}

/// Tells how well an index that is declared so serves the query.
fn fit_declared(alloc: Global, index: &Json, needs: &Needs<'_>) -> Got<Fit> {
    match index.member("fields") {
        Some(Json::Array(fields)) => match read_paths(alloc, fields)? {
            Some(paths) => Ok(fit_of_fields(&paths, needs)),
            None => Ok(Fit::Poor),
        },
        _ => Ok(Fit::Poor),
    }
}

/// Tells how well an index of these fields serves the query.
fn fit_of_fields(fields: &[FieldPath], needs: &Needs<'_>) -> Fit {
    if !are_there(fields, needs) || !is_narrowing(fields, needs) {
        Fit::Poor
    } else if goes_in_order(fields, needs) {
        Fit::InOrder
    } else {
        Fit::Narrow
    }
}

/// Tells whether the rows of an index of these fields go in the order of the query: they are those of the
/// sort or, without a sort, have one value each.
fn goes_in_order(fields: &[FieldPath], needs: &Needs<'_>) -> bool {
    if needs.sort.is_empty() {
        are_fixed(fields, needs)
    } else {
        are_same(fields, needs.sort)
    }
}

/// Tells whether each document that the query finds surely has these fields.
fn are_there(fields: &[FieldPath], needs: &Needs<'_>) -> bool {
    for field in fields {
        if !is_there(field, needs) {
            return false;
        }
    }
    true
}

fn is_there(field: &FieldPath, needs: &Needs<'_>) -> bool {
    match needs.bounds.get(field) {
        Bounds::Range(_, _) => true,
        Bounds::Any => is_among(field, needs.sort),
    }
}

/// Tells whether the selector binds each of these fields to one value.
fn are_fixed(fields: &[FieldPath], needs: &Needs<'_>) -> bool {
    for field in fields {
        if !is_fixed(field, needs) {
            return false;
        }
    }
    true
}

fn is_fixed(field: &FieldPath, needs: &Needs<'_>) -> bool {
    match needs.bounds.get(field) {
        Bounds::Range(low, high) => only_value(low, high).is_some(),
        Bounds::Any => false,
    }
}

/// Reads the paths in a list; `None` where one of them is no path.
fn read_paths(alloc: Global, fields: &[Json]) -> Got<Option<Vec<FieldPath>>> {
    let mut paths = Vec::with_capacity(alloc, fields.len())?;
    for field in fields {
        let Some(path) = read_path(alloc, field)? else {
            return Ok(None);
        };
        paths.push(path)?;
    }
    Ok(Some(paths))
}

fn read_path(alloc: Global, field: &Json) -> Got<Option<FieldPath>> {
    let Some(text) = field.text() else {
        return Ok(None);
    };
    match FieldPath::parse(alloc, text) {
        Ok(path) => Ok(Some(path)),
        Err(PathFault::Shape) => Ok(None),
        Err(PathFault::Memory) => Err(NoMemory),
    }
}

/// Tells whether an index of these fields leaves documents out that a scan would read: those without a
/// field of the sort, or those whose first field is out of bounds.
///
/// A scan without a sort stops where the part is full, so there a whole index is no better.
fn is_narrowing(fields: &[FieldPath], needs: &Needs<'_>) -> bool {
    if !needs.sort.is_empty() {
        return true;
    }
    match fields.first() {
        Some(field) => match needs.bounds.get(field) {
            Bounds::Range(low, high) => low.is_some() || high.is_some(),
            Bounds::Any => false,
        },
        None => false,
    }
}
