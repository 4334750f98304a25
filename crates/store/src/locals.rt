//! The local documents of a plain store.

ghost use Rattle.std.specs.Prelude.{◌≡◌, IfOk, OnErr, OnOk};
ghost use Rattle.std.specs.FinMap as map;
ghost use Rattle.store.specs.Plain.{locals_of};

use crate::local_document::LocalDocument;
use couch_json::Got;
use std::alloc::Global;
use std::collections::BTreeMap;
use tree::DocId;

/// Local documents by their ids.
pub(crate) type Locals = BTreeMap<DocId, LocalDocument>;

/// Returns a copy of the local document of this id, if there is one.
pub(crate) fn local_of(alloc: Global, locals: &Locals, id: &DocId) -> Got<Option<LocalDocument>>
    ensures { IfOk result (λ found. found ≡ map.get (locals_of locals.now.entries) id.now) }
{
    match locals.get(id) {
        Some(document) => Ok(Some(document.copy(alloc)?)),
        None => Ok(None),
    }
}

/// Puts a copy of a local document in the place of the one of this id, or leaves all as they were.
pub(crate) fn put_local(
    alloc: Global,
    locals: &mut Locals,
    id: &DocId,
    document: &LocalDocument,
) -> Got<()>
    ensures ok { OnOk result (locals_of locals.new.entries ≡ map.insert (locals_of locals.old.entries) id.now document.now) }
    ensures err { OnErr result (locals.new.entries ≡ locals.old.entries) }
{
    let document = document.copy(alloc)?;
    drop(locals.insert(id.copy(alloc)?, document)?);
    Ok(())
}
