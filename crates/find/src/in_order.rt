//! Finds that read documents in the order that is asked for: no more are read than are needed.

ghost use Rattle.std.specs.Prelude.{◌≡◌, ◌<◌, ◌++◌, IfOk, IfErr, List, None, OnOk, Some, drop, false, is_some, option_map, take, true};
ghost use Rattle.std.specs.FinMap as map;
ghost use Rattle.std.specs.Option.{option_to_list};
ghost use Rattle.couch_json.specs.Value.{Value};
ghost use Rattle.store.specs.Calls.{OnlyReads};
ghost use Rattle.store.specs.Database.{Database};
ghost use Rattle.read.specs.Answers.{Stops};
ghost use Rattle.find.specs.inner.Matching.{completion, match_in, matches_at};
ghost use Rattle.find.specs.inner.Sources.{AreCandidates, IsCandidate, chunks_left, ids_in, ids_left, ids_of};

use crate::candidate::Candidate;
use crate::chunks::{Chunks, take_chunk};
use crate::matching::read_match;
use crate::part::Part;
use crate::query::Query;
use crate::source::Source;
use couch_json::ArrayText;
use read::ReadFault;
use std::alloc::Global;
use store::{DbName, Store};

/// Finds the documents of a source that match, in its order, and of them the part that is asked for. It
/// stops where the part is full.
pub(crate) fn find_in_order<S: Store>(
    alloc: Global,
    store: &mut S,
    db: &DbName,
    query: &Query,
    source: &Source,
) -> Result<ArrayText, ReadFault>
    ensures ok { S.is_honest store.new → IfOk result (λ documents.
        option_map (λ d. take query.now.limit (drop query.now.skip (matches_at query.now.selector d (ids_in source.now d))))
        (map.get (S.contents store.old) db.now)
        ≡ Some documents) }
    ensures stops { IfErr result (Stops S.Store store.old store.new (map.get (S.contents store.old) db.now ≡ None)) }
    ensures reads { OnlyReads S.Store store.old store.new }
{
    let mut part = Part::new(alloc, query.skip, query.limit)?;
    let mut chunks = Chunks::new(query.skip.saturating_add(query.limit));
    while !chunks.is_done {
        put_chunk(alloc, store, db, query, source, &mut chunks, &mut part)?;
    }
    Ok(part.documents)
}

/// Puts the documents of the next chunk that match into the part. Where it is full no more chunks come.
fn put_chunk<S: Store>(
    alloc: Global,
    store: &mut S,
    db: &DbName,
    query: &Query,
    source: &Source,
    chunks: &mut Chunks,
    part: &mut Part,
) -> Result<(), ReadFault>
    requires { chunks.old.is_done ≡ false }
    ensures there { S.is_honest store.new → OnOk result (is_some (map.get (S.contents store.old) db.now) ≡ true) }
    ensures ok { S.is_honest store.new → OnOk result ((d : Database) → map.get (S.contents store.old) db.now ≡ Some d
        → completion part.new (matches_at query.now.selector d (ids_left source.now chunks.new d)) ≡ completion part.old
        (matches_at query.now.selector d (ids_left source.now chunks.old d))) }
    ensures onward { OnOk result (chunks_left chunks.new < chunks_left chunks.old) }
    ensures stops { IfErr result (Stops S.Store store.old store.new (map.get (S.contents store.old) db.now ≡ None)) }
    ensures reads { OnlyReads S.Store store.old store.new }
{
    let candidates = take_chunk(alloc, store, db, source, chunks)?;
    put_matches(alloc, store, db, &candidates, query, part)?;
    if part.is_full() {
        chunks.is_done = true;
    }
    Ok(())
}

/// Puts the candidates that match into the part, until it is full.
pub(crate) fn put_matches<S: Store>(
    alloc: Global,
    store: &mut S,
    db: &DbName,
    candidates: &[Candidate],
    query: &Query,
    part: &mut Part,
) -> Result<(), ReadFault>
    requires { S.is_honest store.old → (d : Database) → map.get (S.contents store.old) db.now ≡ Some d → AreCandidates d candidates.now }
    ensures ok { S.is_honest store.new → OnOk result ((d : Database) → map.get (S.contents store.old) db.now ≡ Some d
        → (rest : List Value) → completion part.new rest ≡ completion part.old (matches_at query.now.selector d (ids_of candidates.now) ++ rest)) }
    ensures stops { IfErr result (Stops S.Store store.old store.new (map.get (S.contents store.old) db.now ≡ None)) }
    ensures reads { OnlyReads S.Store store.old store.new }
{
    for candidate in candidates {
        if part.is_full() {
            return Ok(());
        }
        put_match(alloc, store, db, candidate, query, part)?;
    }
    Ok(())
}

/// Puts a candidate into the part, if it matches.
fn put_match<S: Store>(
    alloc: Global,
    store: &mut S,
    db: &DbName,
    candidate: &Candidate,
    query: &Query,
    part: &mut Part,
) -> Result<(), ReadFault>
    requires { S.is_honest store.old → (d : Database) → map.get (S.contents store.old) db.now ≡ Some d → IsCandidate d candidate.now }
    ensures ok { S.is_honest store.new → OnOk result ((d : Database) → map.get (S.contents store.old) db.now ≡ Some d
        → (rest : List Value) → completion part.new rest ≡ completion part.old (option_to_list (match_in query.now.selector d candidate.now.id) ++ rest)) }
    ensures stops { IfErr result (Stops S.Store store.old store.new (map.get (S.contents store.old) db.now ≡ None)) }
    ensures reads { OnlyReads S.Store store.old store.new }
{
    if let Some(document) = read_match(alloc, store, db, candidate, &query.selector)? {
        part.put(alloc, &document)?;
    }
    Ok(())
}
