//! The candidates of a source, taken in chunks, so that no more than those of a chunk are held at once.

ghost use Rattle.std.specs.Prelude.{◌≡◌, ◌+◌, ◌≤◌, ◌<◌, ◌++◌, false, is_some, true, IfOk, IfErr, None, OnOk, Some};
ghost use Rattle.std.specs.FinMap as map;
ghost use Rattle.store.specs.Calls.{OnlyReads};
ghost use Rattle.store.specs.Database.{Database};
ghost use Rattle.read.specs.Answers.{Stops};
ghost use Rattle.find.specs.inner.Sources.{AreCandidates, chunks_left, ids_left, ids_of, last_id, last_of};

use crate::candidate::Candidate;
use crate::reached::Reached;
use crate::source::{Source, take_candidates};
use couch_json::Got;
use read::ReadFault;
use std::alloc::Global;
use std::cmp::{max, min};
use store::{DbName, Store};
use tree::DocId;

/// Behind so many candidates, which is never reached, the rest is taken at once.
const MOST_TAKEN: u64 = 1 << 60;

/// How far the candidates of a source were taken, and how many may come.
#[derive(Drop)]
pub(crate) struct Chunks {
    /// So many candidates may be enough.
    pub(crate) wanted: u64,
    /// How far they were taken.
    pub(crate) reached: Reached,
    /// Whether no more are to be taken.
    pub(crate) is_done: bool,
}

impl Chunks {
    /// Begins to take candidates, of which so many may be enough.
    pub(crate) fn new(wanted: u64) -> Chunks
        ensures { result ≡ record { wanted = wanted; reached = record { last = None; count = 0 }; is_done = false } }
    {
        Chunks {
            wanted,
            reached: Reached {
                last: None,
                count: 0,
            },
            is_done: false,
        }
    }
}

/// Takes the next chunk of the candidates of a source.
pub(crate) fn take_chunk<S: Store>(
    alloc: Global,
    store: &mut S,
    db: &DbName,
    source: &Source,
    chunks: &mut Chunks,
) -> Result<Vec<Candidate>, ReadFault>
    requires { chunks.old.is_done ≡ false }
    ensures there { S.is_honest store.new → IfOk result (λ _. is_some (map.get (S.contents store.old) db.now) ≡ true) }
    ensures ok { S.is_honest store.new → IfOk result (λ candidates. (d : Database) → map.get (S.contents store.old) db.now ≡ Some d
        → ids_left source.now chunks.old d ≡ ids_of candidates.items ++ ids_left source.now chunks.new d) }
    ensures known { S.is_honest store.new → IfOk result (λ candidates. (d : Database) → map.get (S.contents store.old) db.now ≡ Some d
        → AreCandidates d candidates.items) }
    ensures onward { OnOk result (chunks_left chunks.new < chunks_left chunks.old) }
    ensures stops { IfErr result (Stops S.Store store.old store.new (map.get (S.contents store.old) db.now ≡ None)) }
    ensures reads { OnlyReads S.Store store.old store.new }
{
    if chunks.reached.count >= MOST_TAKEN {
        chunks.is_done = true;
        return take_candidates(alloc, store, db, source, &chunks.reached, None);
    }
    let most = chunk_size(source, chunks.wanted, chunks.reached.count);
    let candidates = take_candidates(alloc, store, db, source, &chunks.reached, Some(most))?;
    let last = find_last(alloc, source, &candidates)?;
    chunks.is_done = (candidates.len() as u64) < most;
    chunks.reached.last = last;
    chunks.reached.count += most;
    Ok(candidates)
}

/// Finds the last one of these candidates, where the source goes on behind it.
fn find_last(alloc: Global, source: &Source, candidates: &[Candidate]) -> Got<Option<DocId>>
    ensures { IfOk result (λ last. last ≡ last_of source.now candidates.now) }
{
    match source {
        Source::Documents { descending: _ } => copy_last(alloc, candidates),
        Source::Index(_) => Ok(None),
    }
}

/// Copies the id of the last one of these candidates.
fn copy_last(alloc: Global, candidates: &[Candidate]) -> Got<Option<DocId>>
    ensures { IfOk result (λ last. last ≡ last_id candidates.now) }
{
    match candidates.last() {
        Some(candidate) => Ok(Some(candidate.id.copy(alloc)?)),
        None => Ok(None),
    }
}

/// Returns how many candidates the next chunk has at most, where so many may be enough and so many were
/// taken.
///
/// The first has as many as may be enough, but not too few and not too many. The next ones grow.
fn chunk_size(source: &Source, wanted: u64, taken: u64) -> u64
    ensures some { 1 ≤ result }
    ensures few { result ≤ 1000 + taken }
{
    let first = max(8, min(1_000, wanted));
    max(first, min(taken, largest_size(source, taken)))
}

/// Returns how many candidates any chunk has at most, where so many were taken.
///
/// The store passes over the rows of an index that were taken. So their chunks grow on: then it passes over
/// at most five times the rows all in all.
fn largest_size(source: &Source, taken: u64) -> u64
    ensures { result ≤ 1000 + taken }
{
    match source {
        Source::Documents { descending: _ } => 1_000,
        Source::Index(_) => 1_000 + taken / 4,
    }
}
