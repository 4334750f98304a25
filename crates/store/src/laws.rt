//! What follows from the definitions alone. Each function has an empty body: its contract is the law.

ghost use Rattle.std.specs.Prelude.{◌≡◌, ◌<◌, ◌≤◌, ◌++◌, ℕ, suc, AllPairs, Contains, List, None, Some, IsTrue, is_some, take, true};
ghost use Rattle.std.specs.FinMap.{get};
ghost use Rattle.couch_json.specs.Value.{Value};
ghost use Rattle.tree.specs.Revision.{Revision};
ghost use Rattle.tree.specs.History.{HistoryContent, held_of, winner};
ghost use Rattle.tree.specs.declared.entry.Held.{Held};
ghost use Rattle.store.specs.Contents.{AreAcceptable, IsAcceptable, with_local, with_security};
ghost use Rattle.store.specs.Database.{Database, Document, DocumentWrite, HasSequences, IsContentOf, IsLater, Log};
ghost use Rattle.store.specs.Database.{empty_database, with_all, with_one, with_write_logged};
ghost use Rattle.store.specs.Failing.{calls_later, failing_call, failures_of};
ghost use Rattle.store.specs.Indexes.{IndexPlace, IsPlaceOf, index_rows, place_order, queried_document, winning_body};
ghost use Rattle.store.specs.Lawful.{EndsAtLast, IsBody, IsLawfulDatabase, IsLocalDocument};
ghost use Rattle.store.specs.Pages.{IsIdRowOf, IsRowOf, SequenceRow, comes_before, is_within, live_rev, page_of_ids, page_by_sequence, row_of};
ghost use Rattle.store.specs.Winning.{winner_alone};
ghost use Rattle.store.specs.Writing.{Addition, writings_in};
ghost use Rattle.store.specs.declared.fail_store.FailingCall.TheVariants.{After};
ghost use Rattle.store.specs.declared.local_document.LocalDocument.{LocalDocument};
ghost use Rattle.store.specs.declared.listing.IdRange.{IdRange};
ghost use Rattle.store.specs.declared.listing.IdRow.{IdRow};
ghost use Rattle.store.specs.declared.listing.SeqRange.{SeqRange};

use std::cmp::Ordering;

/// Every log has a content, and only one.
pub fn content_of_a_log()
    ensures exists { (log : Log) → (db : Database) × IsContentOf log db }
    ensures only { (log : Log) (a b : Database) → IsContentOf log a → IsContentOf log b → a ≡ b }
{}

/// One more write at the end of a log is one write more in its content.
pub fn content_of_one_more_write()
    ensures { (log : Log) (db : Database) (w : DocumentWrite) → IsContentOf log db
        → IsContentOf (with_write_logged log w) (with_one db w) }
{}

/// Writes that come one after the other are those of the first list, and those of the other in the
/// database that the first list left.
pub fn writes_in_a_row()
    ensures { (db : Database) (first more : List Addition)
        → writings_in db (first ++ more) ≡ writings_in db first ++ writings_in (with_all db (writings_in db first)) more }
{}

/// A content is later than itself, and what is later than a later one is later; each write, and so
/// any number of them, makes a later one.
pub fn later_contents()
    ensures itself { (db : Database) → IsLater db db }
    ensures still { (a b c : Database) → IsLater a b → IsLater b c → IsLater a c }
    ensures by_one { (db : Database) (w : DocumentWrite) → IsLater db (with_one db w) }
    ensures by_all { (ws : List DocumentWrite) (db : Database) → IsLater db (with_all db ws) }
{}

/// The sequences of a database's documents lie from 1 to its length, and no two are the same; each
/// write keeps that.
pub fn sequences()
    ensures of_content { (log : Log) (db : Database) → IsContentOf log db → HasSequences db }
    ensures by_one { (db : Database) (w : DocumentWrite) → HasSequences db → HasSequences (with_one db w) }
    ensures by_all { (ws : List DocumentWrite) (db : Database) → HasSequences db → HasSequences (with_all db ws) }
{}

/// An empty database is lawful, and each acceptable write, and so any number of them, keeps it so, as
/// do another security object, and a local document.
pub fn lawful_databases()
    ensures empty { (security : Value) → IsLawfulDatabase (empty_database security) }
    ensures by_one { (db : Database) (w : DocumentWrite) → IsLawfulDatabase db → IsAcceptable db w → IsLawfulDatabase (with_one db w) }
    ensures by_all { (ws : List DocumentWrite) (db : Database) → IsLawfulDatabase db → AreAcceptable db ws → IsLawfulDatabase (with_all db ws) }
    ensures secured { (db : Database) (security : Value) → IsLawfulDatabase db → IsLawfulDatabase (with_security db security) }
    ensures local { (db : Database) (id : List ℕ) (document : LocalDocument) → IsLawfulDatabase db → IsLocalDocument id document
        → IsLawfulDatabase (with_local db id document) }
{}

/// The sequence of an empty database is 0; once something was written, it is that of its last
/// document. Another security object and a local document leave it.
pub fn last_sequences()
    ensures empty { (security : Value) → EndsAtLast (empty_database security) }
    ensures by_all { (ws : List DocumentWrite) (db : Database) → EndsAtLast db → EndsAtLast (with_all db ws) }
    ensures secured { (db : Database) (security : Value) → EndsAtLast db → EndsAtLast (with_security db security) }
    ensures local { (db : Database) (id : List ℕ) (document : LocalDocument) → EndsAtLast db → EndsAtLast (with_local db id document) }
{}

/// Each document of a lawful database has a winner, something is held of it, and each body that is
/// held is an object that is not nested too deep.
pub fn lawful_documents()
    ensures winner { (db : Database) (id : List ℕ) (d : Document) → IsLawfulDatabase db → get db.documents id ≡ Some d → IsTrue (is_some (winner d.history)) }
    ensures held { (db : Database) (id : List ℕ) (d : Document) (r : Revision) → IsLawfulDatabase db → get db.documents id ≡ Some d
        → winner d.history ≡ Some r → IsTrue (is_some (held_of d.history r)) }
    ensures body { (db : Database) (id : List ℕ) (d : Document) (r : Revision) (held : Held) → IsLawfulDatabase db → get db.documents id ≡ Some d
        → held_of d.history r ≡ Some held → IsBody held.body }
{}

/// Queries and rules see the same of a document's winner alone as of its whole history.
pub fn winner_alone_is_enough()
    ensures queried { (h : HistoryContent) (id : List ℕ) → queried_document id (winner_alone h) ≡ queried_document id h }
    ensures body { (h : HistoryContent) → winning_body (winner_alone h) ≡ winning_body h }
{}

/// The rows of a page by sequence ascend; each is that of a document whose sequence the range is
/// before, and without a limit each such document has its row. A limited page has the first rows of
/// the whole one, and none is above the database's own sequence.
pub fn rows_by_sequence()
    ensures ascending { (range : SeqRange) (db : Database) → AllPairs (λ a b. a.sequence < b.sequence) (page_by_sequence range db).rows }
    ensures there { (range : SeqRange) (db : Database) (r : SequenceRow) → Contains (page_by_sequence range db).rows r → IsRowOf range db r }
    ensures whole { (range : SeqRange) (db : Database) (id : List ℕ) (d : Document) → HasSequences db → range.limit ≡ None
        → get db.documents id ≡ Some d → range.since < d.sequence → Contains (page_by_sequence range db).rows (row_of range.all_leaves (id, d)) }
    ensures first { (range : SeqRange) (db : Database) (n : ℕ)
        → (page_by_sequence (record range { limit = Some n }) db).rows ≡ take n (page_by_sequence (record range { limit = None }) db).rows }
    ensures within { (range : SeqRange) (db : Database) → HasSequences db → (page_by_sequence range db).last ≤ db.length }
{}

/// The rows of a page by id stand in the order of the range; each is that of a document of the range
/// whose winner is not deleted, and where nothing is skipped and without a limit each such document
/// has its row.
pub fn rows_by_id()
    ensures ascending { (range : IdRange) (db : Database) → AllPairs (λ a b. comes_before range.descending a.id b.id ≡ true) (page_of_ids range db).rows }
    ensures there { (range : IdRange) (db : Database) (r : IdRow) → Contains (page_of_ids range db).rows r → IsIdRowOf range db r }
    ensures whole { (range : IdRange) (db : Database) (r : IdRow) → range.limit ≡ None → range.skip ≡ 0 → IsIdRowOf range db r
        → Contains (page_of_ids range db).rows r }
{}

/// The rows of an index ascend; each is of a document that queries look at, at its values, and each such
/// document that has a value at each field has its row. So it has one row, since its values are its key.
pub fn rows_by_key()
    ensures ascending { (fields : List (List ℕ)) (db : Database) → AllPairs (λ a b. place_order a b ≡ Ordering.Less) (index_rows fields db) }
    ensures there { (fields : List (List ℕ)) (db : Database) (p : IndexPlace) → Contains (index_rows fields db) p → IsPlaceOf fields db p }
    ensures whole { (fields : List (List ℕ)) (db : Database) (p : IndexPlace) → IsPlaceOf fields db p → Contains (index_rows fields db) p }
{}

/// Of the calls of a [`FailStore`](crate::FailStore) the one that was named fails, behind n others the
/// one behind these, and no other; one fault is counted from then on, and none before. Where none was
/// named, none is counted.
pub fn one_call_fails()
    ensures fails { (n : ℕ) → calls_later n (failing_call (suc n)) ≡ After 0 }
    ensures alone { (k n : ℕ) → calls_later n (failing_call k) ≡ After 0 → k ≡ suc n }
    ensures counted { (k n : ℕ) → k < n → failures_of (calls_later n (failing_call (suc k))) ≡ 1 }
    ensures before { (k n : ℕ) → n < k → failures_of (calls_later n (failing_call k)) ≡ 0 }
    ensures never { (n : ℕ) → failures_of (calls_later n (failing_call 0)) ≡ 0 }
{}
