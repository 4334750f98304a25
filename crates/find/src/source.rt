//! Where a find takes the documents from that it reads.

ghost use Rattle.std.specs.Prelude.{◌≡◌, IfOk, IfErr, None, Some, drop, false, map as each, option_map, string_bytes};
ghost use Rattle.std.specs.FinMap as map;
ghost use Rattle.store.specs.Calls.{OnlyReads};
ghost use Rattle.store.specs.Database.{Database};
ghost use Rattle.store.specs.Pages.{up_to_limit};
ghost use Rattle.read.specs.Answers.{Stops};
ghost use Rattle.find.specs.inner.Sources.{AreCandidates, candidate_at, candidate_of, ids_ahead, ids_of, ids_of_places, passed_count, range_ahead};
ghost use Rattle.find.specs.declared.source.Source.TheVariants.{Documents};
ghost use Rattle.store.specs.Indexes.{index_fields_at, index_rows};
ghost use Rattle.store.specs.KeyPages.{key_rows_within};

use crate::candidate::Candidate;
use crate::plan::Plan;
use crate::reached::Reached;
use couch_json::Got;
use read::ReadFault;
use std::alloc::Global;
use store::{DbName, IdRange, IdRow, IndexKey, KeyCut, KeyRange, KeyRow, RangeKey, Store};

/// Where a find takes candidates from.
#[derive(Drop)]
pub(crate) enum Source {
    /// All documents, by id.
    Documents {
        /// Whether they go down.
        descending: bool,
    },
    /// The rows of an index that are planned to be read.
    Index(Plan),
}

/// Takes the next candidates of a source, at most so many. An index that is not declared has none.
pub(crate) fn take_candidates<S: Store>(
    alloc: Global,
    store: &mut S,
    db: &DbName,
    source: &Source,
    reached: &Reached,
    limit: Option<u64>,
) -> Result<Vec<Candidate>, ReadFault>
    ensures ok { S.is_honest store.new → IfOk result (λ candidates.
        option_map (λ d. up_to_limit limit (ids_ahead source.now reached.now d)) (map.get (S.contents store.old) db.now)
        ≡ Some (ids_of candidates.items)) }
    ensures known { S.is_honest store.new → IfOk result (λ candidates. (d : Database) → map.get (S.contents store.old) db.now ≡ Some d
        → AreCandidates d candidates.items) }
    ensures stops { IfErr result (Stops S.Store store.old store.new (map.get (S.contents store.old) db.now ≡ None)) }
    ensures reads { OnlyReads S.Store store.old store.new }
{
    match source {
        Source::Documents { descending } => {
            take_documents(alloc, store, db, *descending, reached, limit)
        }
        Source::Index(plan) => take_places(alloc, store, db, plan, reached.count, limit),
    }
}

/// Takes the next documents, in this direction, each with its winner.
fn take_documents<S: Store>(
    alloc: Global,
    store: &mut S,
    db: &DbName,
    descending: bool,
    reached: &Reached,
    limit: Option<u64>,
) -> Result<Vec<Candidate>, ReadFault>
    ensures ok { S.is_honest store.new → IfOk result (λ candidates.
        option_map (λ d. up_to_limit limit (ids_ahead (Documents descending) reached.now d)) (map.get (S.contents store.old) db.now)
        ≡ Some (ids_of candidates.items)) }
    ensures known { S.is_honest store.new → IfOk result (λ candidates. (d : Database) → map.get (S.contents store.old) db.now ≡ Some d
        → AreCandidates d candidates.items) }
    ensures stops { IfErr result (Stops S.Store store.old store.new (map.get (S.contents store.old) db.now ≡ None)) }
    ensures reads { OnlyReads S.Store store.old store.new }
{
    let range = range_ahead(alloc, descending, reached, limit)?;
    let page = store.page_by_id(db, &range)?;
    Ok(make_candidates(alloc, &page.rows)?)
}

/// Returns the range of the next documents, in this direction: it starts at the last one that was taken.
fn range_ahead(
    alloc: Global,
    descending: bool,
    reached: &Reached,
    limit: Option<u64>,
) -> Got<IdRange>
    ensures { IfOk result (λ range. range ≡ range_ahead descending reached.now limit) }
{
    let start = match &reached.last {
        Some(last) => Some(RangeKey::new(String::from_str(alloc, last.as_str())?)),
        None => None,
    };
    Ok(IdRange {
        start,
        end: None,
        inclusive_end: false,
        descending,
        skip: count_passed(reached),
        limit,
        counted: false,
    })
}

/// Counts the documents that were taken, from the start of the range of the next ones on.
fn count_passed(reached: &Reached) -> u64
    ensures { result ≡ passed_count reached.now.last reached.now.count }
{
    match &reached.last {
        Some(_) => 1,
        None => reached.count,
    }
}

/// Makes candidates of these documents.
fn make_candidates(alloc: Global, rows: &[IdRow]) -> Got<Vec<Candidate>>
    ensures { IfOk result (λ candidates. candidates.items ≡ each candidate_of rows.now) }
{
    let mut candidates = Vec::with_capacity(alloc, rows.len())?;
    for row in rows {
        let id = row.id.copy(alloc)?;
        let rev = Some(row.rev);
        candidates.push(Candidate { id, rev })?;
    }
    Ok(candidates)
}

/// Takes rows of an index, without the first ones.
fn take_places<S: Store>(
    alloc: Global,
    store: &mut S,
    db: &DbName,
    plan: &Plan,
    skip: u64,
    limit: Option<u64>,
) -> Result<Vec<Candidate>, ReadFault>
    ensures ok { S.is_honest store.new → IfOk result (λ candidates.
        option_map (λ d. up_to_limit limit
        (drop skip (ids_of_places
        (option_map (λ fields. key_rows_within plan.now.rows.range (index_rows fields d))
        (index_fields_at d plan.now.index.design (string_bytes plan.now.index.name))))))
        (map.get (S.contents store.old) db.now) ≡ Some (ids_of candidates.items)) }
    ensures known { S.is_honest store.new → IfOk result (λ candidates. (d : Database) → map.get (S.contents store.old) db.now ≡ Some d
        → AreCandidates d candidates.items) }
    ensures stops { IfErr result (Stops S.Store store.old store.new (map.get (S.contents store.old) db.now ≡ None)) }
    ensures reads { OnlyReads S.Store store.old store.new }
{
    let index = &plan.index;
    let range = part_of(alloc, &plan.rows.range, skip, limit)?;
    match store.page_by_key(db, &index.design, index.name.as_str(), &range)? {
        Some(page) => Ok(copy_candidates(alloc, &page.rows)?),
        None => Ok(Vec::new(alloc)),
    }
}

/// Returns the range with another part of its rows.
fn part_of(alloc: Global, range: &KeyRange, skip: u64, limit: Option<u64>) -> Got<KeyRange>
    ensures { IfOk result
        (λ part. part ≡ record { low = range.now.low; high = range.now.high; descending = range.now.descending; skip = skip; limit = limit; counted = false }) }
{
    Ok(KeyRange {
        low: copy_cut(alloc, &range.low)?,
        high: copy_cut(alloc, &range.high)?,
        descending: range.descending,
        skip,
        limit,
        counted: false,
    })
}

fn copy_cut(alloc: Global, cut: &Option<KeyCut>) -> Got<Option<KeyCut>>
    ensures { IfOk result (λ copy. copy ≡ cut.now) }
{
    match cut {
        Some(cut) => {
            let key = IndexKey::new(cut.key.json().copy(alloc)?);
            Ok(Some(KeyCut {
                key,
                side: cut.side,
            }))
        }
        None => Ok(None),
    }
}

/// Copies the ids of these rows of an index, as candidates.
fn copy_candidates(alloc: Global, rows: &[KeyRow]) -> Got<Vec<Candidate>>
    ensures { IfOk result (λ candidates. candidates.items ≡ each candidate_at (each (λ r. r.id) rows.now)) }
{
    let mut candidates = Vec::with_capacity(alloc, rows.len())?;
    for row in rows {
        let id = row.id().copy(alloc)?;
        candidates.push(Candidate { id, rev: None })?;
    }
    Ok(candidates)
}
