ghost use Rattle.std.specs.Prelude.{◌≡◌, None, option_copied, option_map};
ghost use Rattle.std.specs.FinMap as map;
ghost use Rattle.store.specs.Calls.{OnlyReads};
ghost use Rattle.store.specs.Database.{history_at};
ghost use Rattle.read.specs.Answers.{AnswersValue};
ghost use Rattle.read.specs.Shown.{document_by, document_in, found, shown_document};

use crate::fault::ReadFault;
use crate::shown::{read_paths, read_shown, show_held};
use couch_json::JsonText;
use std::alloc::Global;
use store::{DbName, Store, read_held_winner};
use tree::{DocId, Rev};

/// Returns a document as a revision of it shows it: the body with `_id` and `_rev`, and with `_revisions`
/// where `revs` asks for it.
///
/// Without `rev` that is the winning revision: `Missing` comes if and only if the document was never
/// written, `Deleted` if and only if its winner is deleted. With `rev` it is that one, deleted (and
/// then with `_deleted`) or not: `Missing` comes if and only if no body is held of it, since it is
/// unknown or only came inside a path. `Store(NoDatabase)` comes if and only if there is no database
/// of this name. Nothing changes. See the CouchDB manual, api/document/common.
pub fn get<S: Store>(
    alloc: Global,
    store: &mut S,
    db: &DbName,
    id: &DocId,
    rev: Option<&Rev>,
    revs: bool,
) -> Result<JsonText, ReadFault>
    ensures answer { AnswersValue S.Store store.old store.new (document_in (S.contents store.old) db.now id.now (option_copied rev.entry) revs) result }
    ensures reads { OnlyReads S.Store store.old store.new }
{
    match rev {
        Some(rev) => read_revision(alloc, store, db, id, rev, revs),
        None => read_winner(alloc, store, db, id, revs),
    }
}

/// Returns the winner of a document, as it is shown.
fn read_winner<S: Store>(
    alloc: Global,
    store: &mut S,
    db: &DbName,
    id: &DocId,
    revs: bool,
) -> Result<JsonText, ReadFault>
    ensures answer { AnswersValue S.Store store.old store.new
        (option_map (λ d. document_by id.now (history_at d id.now) None revs) (map.get (S.contents store.old) db.now)) result }
    ensures reads { OnlyReads S.Store store.old store.new }
{
    let Some(winner) = read_held_winner(store, db, id)? else {
        return Err(ReadFault::Missing);
    };
    if winner.deleted {
        return Err(ReadFault::Deleted);
    }
    let paths = read_paths(store, db, id, revs)?;
    let document = show_held(alloc, id, &winner.rev, false, &winner.body, &paths)?;
    Ok(JsonText::of(alloc, &document)?)
}

/// Returns a revision of a document, deleted or not, as it is shown.
fn read_revision<S: Store>(
    alloc: Global,
    store: &mut S,
    db: &DbName,
    id: &DocId,
    rev: &Rev,
    revs: bool,
) -> Result<JsonText, ReadFault>
    ensures answer { AnswersValue S.Store store.old store.new
        (option_map (λ d. found (shown_document id.now (history_at d id.now) rev.now revs)) (map.get (S.contents store.old) db.now)) result }
    ensures reads { OnlyReads S.Store store.old store.new }
{
    let paths = read_paths(store, db, id, revs)?;
    match read_shown(alloc, store, db, id, rev, &paths)? {
        Some(document) => Ok(JsonText::of(alloc, &document)?),
        None => Err(ReadFault::Missing),
    }
}
