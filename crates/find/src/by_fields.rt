//! Finds over documents in any order: the places of those that match are sorted first, and of these
//! no more are kept than the part that is asked for reaches. Then the documents of the part are read
//! again, so that no others are held. Those that it leaves out are not.

ghost use Rattle.std.specs.Prelude.{◌≡◌, ◌+◌, ◌<◌, ℕ, [], IfOk, IfErr, None, OnOk, Some, drop, false, length, map as each, is_some, nat_lt, option_map, take, true};
ghost use Rattle.std.specs.FinMap as map;
ghost use Rattle.couch_json.specs.Value.{array};
ghost use Rattle.couch_json.specs.View.{items_view, view};
ghost use Rattle.store.specs.Calls.{OnlyReads};
ghost use Rattle.store.specs.Database.{Database};
ghost use Rattle.store.specs.Pages.{in_direction};
ghost use Rattle.read.specs.Answers.{Stops};
ghost use Rattle.find.specs.inner.Candidates.{put_candidates};
ghost use Rattle.find.specs.inner.Kept.{first_ones, keep_place, keep_places, kept_of};
ghost use Rattle.find.specs.inner.Matching.{match_in};
ghost use Rattle.find.specs.inner.Sources.{AreCandidates, IsCandidate, candidate_at, chunks_left, ids_in, ids_left, ids_of};

use crate::candidate::Candidate;
use crate::chunks::{Chunks, take_chunk};
use crate::in_order::put_matches;
use crate::matching::read_match;
use crate::part::Part;
use crate::query::Query;
use crate::sorting::Sorting;
use crate::source::Source;
use couch_json::{ArrayText, Got, Json};
use read::ReadFault;
use std::alloc::Global;
use std::collections::BTreeSet;
use store::{DbName, IndexKey, KeyRow, Store, reverse_if, values_at};
use tree::DocId;

/// Finds the documents of a source that match and have all fields of the sort, in its order, and of them
/// the part that is asked for.
pub(crate) fn find_sorted<S: Store>(
    alloc: Global,
    store: &mut S,
    db: &DbName,
    query: &Query,
    source: &Source,
) -> Result<ArrayText, ReadFault>
    ensures ok { S.is_honest store.new → IfOk result (λ documents.
        option_map (λ d. take query.now.limit (drop query.now.skip (in_direction query.now.descending
        (each (λ e. e.1) (put_candidates query.now.sort query.now.selector d (ids_in source.now d) []))))) (map.get (S.contents store.old) db.now)
        ≡ Some documents) }
    ensures stops { IfErr result (Stops S.Store store.old store.new (map.get (S.contents store.old) db.now ≡ None)) }
    ensures reads { OnlyReads S.Store store.old store.new }
{
    let sorting = Sorting::of(alloc, query)?;
    let places = sort_matches(alloc, store, db, &sorting, source)?;
    let candidates = list_candidates(alloc, places, query.descending)?;
    let wanted = leave_out(&candidates, query.skip);
    let mut part = Part::new(alloc, 0, query.limit)?;
    put_matches(alloc, store, db, wanted, query, &mut part)?;
    Ok(part.documents)
}

/// Sorts the places of the documents of a source that match, as many as the part of the query
/// reaches.
fn sort_matches<S: Store>(
    alloc: Global,
    store: &mut S,
    db: &DbName,
    sorting: &Sorting<'_>,
    source: &Source,
) -> Result<BTreeSet<KeyRow>, ReadFault>
    ensures there { S.is_honest store.new → IfOk result (λ _. is_some (map.get (S.contents store.old) db.now) ≡ true) }
    ensures ok { S.is_honest store.new → IfOk result (λ places. (d : Database) → map.get (S.contents store.old) db.now ≡ Some d
        → places.keys ≡ keep_places sorting.now.fields.items sorting.now.query.now d (ids_in source.now d) []) }
    ensures stops { IfErr result (Stops S.Store store.old store.new (map.get (S.contents store.old) db.now ≡ None)) }
    ensures reads { OnlyReads S.Store store.old store.new }
{
    let mut places = BTreeSet::new(alloc);
    let mut chunks = Chunks::new(1_000);
    while !chunks.is_done {
        sort_chunk(alloc, store, db, sorting, source, &mut chunks, &mut places)?;
    }
    Ok(places)
}

/// Puts in the places of the documents of the next chunk that match.
fn sort_chunk<S: Store>(
    alloc: Global,
    store: &mut S,
    db: &DbName,
    sorting: &Sorting<'_>,
    source: &Source,
    chunks: &mut Chunks,
    places: &mut BTreeSet<KeyRow>,
) -> Result<(), ReadFault>
    requires { chunks.old.is_done ≡ false }
    ensures there { S.is_honest store.new → OnOk result (is_some (map.get (S.contents store.old) db.now) ≡ true) }
    ensures ok { S.is_honest store.new → OnOk result ((d : Database) → map.get (S.contents store.old) db.now ≡ Some d
        → keep_places sorting.now.fields.items sorting.now.query.now d (ids_left source.now chunks.new d) places.new.keys
        ≡ keep_places sorting.now.fields.items sorting.now.query.now d (ids_left source.now chunks.old d) places.old.keys) }
    ensures onward { OnOk result (chunks_left chunks.new < chunks_left chunks.old) }
    ensures stops { IfErr result (Stops S.Store store.old store.new (map.get (S.contents store.old) db.now ≡ None)) }
    ensures reads { OnlyReads S.Store store.old store.new }
{
    let candidates = take_chunk(alloc, store, db, source, chunks)?;
    sort_candidates(alloc, store, db, &candidates, sorting, places)?;
    Ok(())
}

/// Puts in the places of the candidates that match.
fn sort_candidates<S: Store>(
    alloc: Global,
    store: &mut S,
    db: &DbName,
    candidates: &[Candidate],
    sorting: &Sorting<'_>,
    places: &mut BTreeSet<KeyRow>,
) -> Result<(), ReadFault>
    requires { S.is_honest store.old → (d : Database) → map.get (S.contents store.old) db.now ≡ Some d → AreCandidates d candidates.now }
    ensures ok { S.is_honest store.new → OnOk result ((d : Database) → map.get (S.contents store.old) db.now ≡ Some d
        → places.new.keys ≡ keep_places sorting.now.fields.items sorting.now.query.now d (ids_of candidates.now) places.old.keys) }
    ensures stops { IfErr result (Stops S.Store store.old store.new (map.get (S.contents store.old) db.now ≡ None)) }
    ensures reads { OnlyReads S.Store store.old store.new }
{
    for candidate in candidates {
        put_match(alloc, store, db, candidate, sorting, places)?;
    }
    Ok(())
}

/// Puts in the place of a candidate, if it matches and has one.
fn put_match<S: Store>(
    alloc: Global,
    store: &mut S,
    db: &DbName,
    candidate: &Candidate,
    sorting: &Sorting<'_>,
    places: &mut BTreeSet<KeyRow>,
) -> Result<(), ReadFault>
    requires { S.is_honest store.old → (d : Database) → map.get (S.contents store.old) db.now ≡ Some d → IsCandidate d candidate.now }
    ensures ok { S.is_honest store.new → OnOk result ((d : Database) → map.get (S.contents store.old) db.now ≡ Some d
        → places.new.keys ≡ keep_place sorting.now.fields.items sorting.now.query.now candidate.now.id
        (match_in sorting.now.query.now.selector d candidate.now.id) places.old.keys) }
    ensures stops { IfErr result (Stops S.Store store.old store.new (map.get (S.contents store.old) db.now ≡ None)) }
    ensures reads { OnlyReads S.Store store.old store.new }
{
    if let Some(document) = read_match(alloc, store, db, candidate, &sorting.query.selector)? {
        put_place(alloc, sorting, &candidate.id, &document, places)?;
    }
    Ok(())
}

/// Puts in the place of a document, if it has all the fields, and lets those go that the part of the
/// query doesn't reach.
fn put_place(
    alloc: Global,
    sorting: &Sorting<'_>,
    id: &DocId,
    document: &Json,
    places: &mut BTreeSet<KeyRow>,
) -> Got<()>
    ensures { OnOk result (places.new.keys ≡ keep_place sorting.now.fields.items sorting.now.query.now id.now (Some (view document.now)) places.old.keys) }
{
    let Some(values) = values_at(alloc, &sorting.fields, document)? else {
        return Ok(());
    };
    places.insert(KeyRow::new(make_key(values), id.copy(alloc)?))?;
    drop_beyond(places, sorting.query);
    Ok(())
}

/// Drops the last places in the direction of the query, so that no more are left than its part
/// reaches.
fn drop_beyond(places: &mut BTreeSet<KeyRow>, query: &Query)
    ensures { places.new.keys ≡ kept_of query.now places.old.keys }
{
    'beyond: while has_beyond(places.len(), query) {
        drop_last(places, query.descending);
    }
}

/// Tells whether so many places are more than the part of the query reaches.
fn has_beyond(count: usize, query: &Query) -> bool
    ensures { result ≡ nat_lt (query.now.skip + query.now.limit) count }
{
    (count as u64).saturating_sub(query.skip) > query.limit
}

/// Drops the last place in this direction.
fn drop_last(places: &mut BTreeSet<KeyRow>, descending: bool)
    ensures kept { (n : ℕ) → n < length places.old.keys → first_ones descending n places.new.keys ≡ first_ones descending n places.old.keys }
    ensures fewer { 0 < length places.old.keys → length places.new.keys < length places.old.keys }
{
    if descending {
        drop(places.pop_first());
    } else {
        drop(places.pop_last());
    }
}

/// Makes the key of these values.
fn make_key(values: Vec<Json>) -> IndexKey
    ensures { result ≡ array (items_view values.items) }
{
    IndexKey::new(Json::Array(values))
}

/// Returns the candidates without the first ones.
fn leave_out(candidates: &[Candidate], skip: u64) -> &[Candidate]
    ensures { result.now ≡ drop skip candidates.now }
{
    if skip < candidates.len() as u64 {
        &candidates[skip as usize..]
    } else {
        &[]
    }
}

/// Lists the documents at these places, in this direction.
fn list_candidates(alloc: Global, places: BTreeSet<KeyRow>, descending: bool) -> Got<Vec<Candidate>>
    ensures { IfOk result (λ candidates. candidates.items ≡ in_direction descending (each candidate_at (each (λ p. p.id) places.keys))) }
{
    Ok(reverse_if(copy_candidates(alloc, places)?, descending))
}

/// Copies the ids of these places as candidates, in their order.
fn copy_candidates(alloc: Global, places: BTreeSet<KeyRow>) -> Got<Vec<Candidate>>
    ensures { IfOk result (λ candidates. candidates.items ≡ each candidate_at (each (λ p. p.id) places.keys)) }
{
    let mut candidates = Vec::with_capacity(alloc, places.len())?;
    for place in places {
        let id = place.id().copy(alloc)?;
        candidates.push(Candidate { id, rev: None })?;
    }
    Ok(candidates)
}
