//! Several documents that are written together.

ghost use Rattle.std.specs.FinMap as map;
ghost use Rattle.std.specs.Prelude.{◌≡◌, ◌≢◌, ◌++◌, ◌<◌, [], All, IfOk, IfErr, IfSome, OnErr, OnOk, Ok, Err, Some};
ghost use Rattle.std.specs.Prelude.{None, is_some, true, length, map as list_map, option_map};
ghost use Rattle.std.specs.Option.{option_to_list};
ghost use Rattle.couch_json.specs.View.{view};
ghost use Rattle.store.specs.Calls.{OnlyReads};
ghost use Rattle.store.specs.Contents.{IfThere};
ghost use Rattle.store.specs.Database.{Database, history_at, with_all};
ghost use Rattle.store.specs.Writing.{addition_of, additions, writings_in, written_in};
ghost use Rattle.write.specs.Admission.{history_with};
ghost use Rattle.write.specs.Bulk.{Histories, after, all_told, outcomes, put_before, writes_in};
ghost use Rattle.write.specs.BulkResults.{AgreeAt, IsHeld, IsOwnOutcome, brought, seen_in, told_as, told_of, with_history};
ghost use Rattle.write.specs.inner.Drafts.{outcome_asked, request_outcome};
ghost use Rattle.write.specs.Planning.{AreWrites, Plans};
ghost use Rattle.write.specs.inner.Repeats.{IsKept};
ghost use Rattle.write.specs.Refusing.{IsDecided, IsOfStoreOrMemory, Refuses};
ghost use Rattle.write.specs.Terms.{terms_in};

use crate::admission::admit_edit;
use crate::draft::{Draft, Request, read_draft};
use crate::fault::WriteFault;
use crate::histories::{apply_write, load, put_history, take_history};
use crate::planned::{Changes, DocumentResult, Outcome, Planned};
use crate::planning::{tell_outcome, tell_result};
use crate::repeats::{mark_repeats, take_mark};
use crate::replicating::place;
use crate::request_terms::RequestTerms;
use auth::Caller;
use couch_json::{Got, Json, NoMemory};
use std::alloc::Global;
use std::collections::BTreeMap;
use store::{DbName, Store, Write};
use tree::{DocId, History, PackedHistory};

/// Plans what becomes of documents that are written together. It reads the store and changes nothing.
///
/// Each document is judged on its own, by its `_id`, in order, by the histories that those before it
/// left: as an edit, or with `new_edits` false as a replicated write, whose path is `_revisions` or
/// its one revision, and which changes nothing where its revision is known. All are judged on the
/// terms that the store has at the start: a design document among them rules none of those behind
/// it. Their writes make one plan. `Store(NoDatabase)` comes if and only if there is no database of
/// this name. No history is copied, and no path of an edit is walked. The path of a replicated
/// document is made before its history is read. See the CouchDB manual, api/database/bulk-api.
pub fn bulk<S: Store>(
    alloc: Global,
    store: &mut S,
    db: &DbName,
    caller: &Caller,
    documents: Vec<Json>,
    new_edits: bool,
) -> Result<Planned, WriteFault>
    ensures there { S.is_honest store.new → IsDecided result → is_some (map.get (S.contents store.old) db.now) ≡ true }
    ensures plan { S.is_honest store.new → IfOk result (λ planned. IfThere (map.get (S.contents store.old) db.now) (λ d.
        Plans d (list_map view documents.items) (outcomes (terms_in caller.now db.now d) new_edits (history_at d) (list_map view documents.items)) planned)) }
    ensures appends { IfOk result (λ planned. AreWrites planned.changes) }
    ensures own { IfOk result (λ planned. All (λ r. IsOwnOutcome r.outcome) planned.results.items) }
    ensures database { IfOk result (λ planned. planned.database ≡ db.now) }
    ensures only { IfErr result IsOfStoreOrMemory }
    ensures passed { IfErr result (Refuses S.Store store.old store.new (map.get (S.contents store.old) db.now ≡ None) ⊥) }
    ensures reads { OnlyReads S.Store store.old store.new }
{
    let mut terms = RequestTerms::read(alloc, store, db, caller)?;
    let (writes, results) = judge_all(alloc, store, db, &mut terms, documents, new_edits)?;
    Ok(Planned {
        database: db.copy(alloc)?,
        changes: Changes::Writes(writes),
        results,
    })
}

/// Judges the documents one after another, all on the same terms: the writes that are appended, and what is
/// told of each.
fn judge_all<S: Store>(
    alloc: Global,
    store: &mut S,
    db: &DbName,
    terms: &mut RequestTerms,
    documents: Vec<Json>,
    new_edits: bool,
) -> Result<(Vec<Write>, Vec<DocumentResult>), WriteFault>
    ensures writes { S.is_honest store.new → IfOk result (λ all. (d : Database) → map.get (S.contents store.old) db.now ≡ Some d
        → writings_in d (additions all.0.items) ≡ writes_in (outcomes terms.old new_edits (history_at d) (list_map view documents.items))) }
    ensures results { S.is_honest store.new → IfOk result (λ all. (d : Database) → map.get (S.contents store.old) db.now ≡ Some d
        → list_map told_of all.1.items ≡ all_told (list_map view documents.items)
        (outcomes terms.old new_edits (history_at d) (list_map view documents.items))) }
    ensures own { IfOk result (λ all. All (λ r. IsOwnOutcome r.outcome) all.1.items) }
    ensures only { IfErr result IsOfStoreOrMemory }
    ensures passed { IfErr result (Refuses S.Store store.old store.new (map.get (S.contents store.old) db.now ≡ None) ⊥) }
    ensures reads { OnlyReads S.Store store.old store.new }
{
    let mut repeats = mark_repeats(alloc, &documents)?;
    let mut histories = BTreeMap::new(alloc);
    let mut writes = Vec::with_capacity(alloc, documents.len())?;
    let mut results = Vec::with_capacity(alloc, documents.len())?;
    for document in documents {
        let draft = read_draft(alloc, terms, new_edits, document)?;
        load(alloc, store, db, &draft.id, &mut histories)?;
        let again = take_mark(&mut repeats);
        results.push(judge_one(alloc, terms, &mut histories, &mut writes, again, draft)?)?;
    }
    Ok((writes, results))
}

/// Judges a document by the histories, and puts its write at the end of the writes, if it is
/// appended. Where its id comes again its history takes in the write, else it is dropped.
fn judge_one(
    alloc: Global,
    terms: &mut RequestTerms,
    histories: &mut BTreeMap<DocId, PackedHistory>,
    writes: &mut Vec<Write>,
    again: bool,
    draft: Draft,
) -> Got<DocumentResult>
    requires { IsHeld histories.old draft.id }
    ensures told { IfOk result
        (λ r. (stored : Histories) → told_as draft.label (outcome_asked terms.old (seen_in stored histories.old) draft.request draft.id) ≡ told_of r) }
    ensures own { IfOk result (λ r. IsOwnOutcome r.outcome) }
    ensures histories { OnOk result ((stored : Histories) (id : _) → IsKept again draft.id id → seen_in stored histories.new id
        ≡ after (seen_in stored histories.old) (outcome_asked terms.old (seen_in stored histories.old) draft.request draft.id) id) }
    ensures writes { OnOk result
        ((stored : Histories) (d : Database)
        → AgreeAt draft.id (seen_in stored histories.old) (history_at (with_all d (writings_in d (additions writes.old.items))))
        → writings_in d (additions writes.new.items)
        ≡ writings_in d (additions writes.old.items) ++ put_before (outcome_asked terms.old (seen_in stored histories.old) draft.request draft.id) []) }
    ensures terms { terms.new ≡ terms.old }
{
    let Draft { label, id, request } = draft;
    match judge_and_record(alloc, terms, histories, again, id, request) {
        Ok(write) => {
            let outcome = tell_outcome(&write);
            append(writes, write)?;
            Ok(tell_result(label, outcome))
        }
        Err(fault) => {
            let outcome = tell_refusal(fault)?;
            Ok(tell_result(label, outcome))
        }
    }
}

/// Tells that a document was refused, where that is not for lack of memory.
fn tell_refusal(fault: WriteFault) -> Got<Outcome>
    requires { (cause : _) → fault ≢ WriteFault.Store cause }
    ensures told { IfOk result (λ outcome. outcome ≡ Outcome.Refused fault) }
    ensures own { IfOk result (λ outcome. IsOwnOutcome outcome) }
    ensures other { OnOk result (fault ≢ WriteFault.Memory) }
{
    match fault {
        WriteFault::Memory => Err(NoMemory),
        WriteFault::Store(_cause) => unreachable!(),
        WriteFault::BadDocument => Ok(Outcome::Refused(WriteFault::BadDocument)),
        WriteFault::Denied(rule) => Ok(Outcome::Refused(WriteFault::Denied(rule))),
        WriteFault::BadHistory => Ok(Outcome::Refused(WriteFault::BadHistory)),
        WriteFault::Conflict => Ok(Outcome::Refused(WriteFault::Conflict)),
        WriteFault::Generation => Ok(Outcome::Refused(WriteFault::Generation)),
    }
}

/// Puts a write at the end, where there is one.
fn append(writes: &mut Vec<Write>, write: Option<Write>) -> Got<()>
    ensures { OnOk result (writes.new.items ≡ writes.old.items ++ option_to_list write) }
{
    if let Some(write) = write {
        writes.push(write)?;
    }
    Ok(())
}

/// Judges a document by its history. Where its id comes again this takes in the write, else it is
/// dropped.
fn judge_and_record(
    alloc: Global,
    terms: &mut RequestTerms,
    histories: &mut BTreeMap<DocId, PackedHistory>,
    again: bool,
    id: Option<DocId>,
    request: Request,
) -> Result<Option<Write>, WriteFault>
    requires { IsHeld histories.old id }
    ensures ok { IfOk result (λ write. (stored : Histories) → outcome_asked terms.old (seen_in stored histories.old) request id
        ≡ Ok (option_map (brought (seen_in stored histories.old)) write)) }
    ensures headed { IfOk result (λ write. IfSome write (λ w. 0 < length w.path.items)) }
    ensures histories { IfOk result (λ write. (stored : Histories) (own : _) → IsKept again id own → seen_in stored histories.new own
        ≡ after (seen_in stored histories.old) (Ok (option_map (brought (seen_in stored histories.old)) write)) own) }
    ensures fault { IfErr result
        (λ fault. fault ≢ WriteFault.Memory → (stored : Histories) → outcome_asked terms.old (seen_in stored histories.old) request id ≡ Err fault) }
    ensures same { IfErr result (λ fault. fault ≢ WriteFault.Memory → (stored : Histories) (own : _) → IsKept again id own
        → seen_in stored histories.new own ≡ seen_in stored histories.old own) }
    ensures others { IfErr result (λ fault. (cause : _) → fault ≢ WriteFault.Store cause) }
    ensures terms { terms.new ≡ terms.old }
{
    let Some(id) = id else {
        return Err(WriteFault::BadDocument);
    };
    let history = take_history(alloc, histories, &id)?;
    if again {
        judge_and_keep(alloc, terms, histories, id, history, request)
    } else {
        judge(alloc, terms, &history, &id, request)
    }
}

/// Judges a document by this history, which takes in its write and is put in.
fn judge_and_keep(
    alloc: Global,
    terms: &mut RequestTerms,
    histories: &mut BTreeMap<DocId, PackedHistory>,
    id: DocId,
    history: History,
    request: Request,
) -> Result<Option<Write>, WriteFault>
    ensures ok { IfOk result (λ write. request_outcome terms.old id history request ≡ Ok (option_map (λ w. written_in history (addition_of w)) write)) }
    ensures headed { IfOk result (λ write. IfSome write (λ w. 0 < length w.path.items)) }
    ensures kept { IfOk result (λ write. (stored : Histories) → seen_in stored histories.new
        ≡ with_history (seen_in stored histories.old) id (history_with history (option_map (λ w. written_in history (addition_of w)) write))) }
    ensures fault { IfErr result (λ fault. fault ≢ WriteFault.Memory → request_outcome terms.old id history request ≡ Err fault) }
    ensures same { IfErr result
        (λ fault. fault ≢ WriteFault.Memory → (stored : Histories) → seen_in stored histories.new ≡ with_history (seen_in stored histories.old) id history) }
    ensures others { IfErr result (λ fault. (cause : _) → fault ≢ WriteFault.Store cause) }
    ensures terms { terms.new ≡ terms.old }
{
    let mut history = history;
    let outcome = judge_in(alloc, terms, &mut history, &id, request);
    put_history(alloc, histories, id, history)?;
    outcome
}

/// Judges a document by this history, which takes in its write.
fn judge_in(
    alloc: Global,
    terms: &mut RequestTerms,
    history: &mut History,
    id: &DocId,
    request: Request,
) -> Result<Option<Write>, WriteFault>
    ensures ok { IfOk result
        (λ write. request_outcome terms.old id.now history.old request ≡ Ok (option_map (λ w. written_in history.old (addition_of w)) write)) }
    ensures headed { IfOk result (λ write. IfSome write (λ w. 0 < length w.path.items)) }
    ensures taken_in { IfOk result (λ write. history.new ≡ history_with history.old (option_map (λ w. written_in history.old (addition_of w)) write)) }
    ensures fault { IfErr result (λ fault. fault ≢ WriteFault.Memory → request_outcome terms.old id.now history.old request ≡ Err fault) }
    ensures err { OnErr result (history.new ≡ history.old) }
    ensures others { IfErr result (λ fault. (cause : _) → fault ≢ WriteFault.Store cause) }
    ensures terms { terms.new ≡ terms.old }
{
    let write = judge(alloc, terms, history, id, request)?;
    if let Some(write) = &write {
        apply_write(history, write)?;
    }
    Ok(write)
}

/// Judges what a document asks for by this history.
fn judge(
    alloc: Global,
    terms: &mut RequestTerms,
    history: &History,
    id: &DocId,
    request: Request,
) -> Result<Option<Write>, WriteFault>
    ensures ok { IfOk result
        (λ write. request_outcome terms.old id.now history.now request ≡ Ok (option_map (λ w. written_in history.now (addition_of w)) write)) }
    ensures headed { IfOk result (λ write. IfSome write (λ w. 0 < length w.path.items)) }
    ensures fault { IfErr result (λ fault. fault ≢ WriteFault.Memory → request_outcome terms.old id.now history.now request ≡ Err fault) }
    ensures others { IfErr result (λ fault. (cause : _) → fault ≢ WriteFault.Store cause) }
    ensures terms { terms.new ≡ terms.old }
{
    match request {
        Request::Edit(document) => {
            let write = admit_edit(alloc, terms, history, id, None, document)?;
            Ok(Some(write))
        }
        Request::Replicate(replica) => place(alloc, terms, history, id, replica),
        Request::Bad => Err(WriteFault::BadDocument),
        Request::Forbidden(rule) => Err(WriteFault::Denied(rule)),
    }
}
