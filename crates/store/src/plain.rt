ghost use Rattle.std.specs.Prelude.{◌≡◌, IfOk, OnErr, OnOk, length, IsTrue};
ghost use Rattle.std.specs.FinMap as map;
ghost use Rattle.std.specs.Ordering.{nat_cmp, eq_by_cmp};
ghost use Rattle.std.specs.Cmp.Lexicographic.{slice_cmp};

use crate::database_name::DbName;
use crate::locals::Locals;
use crate::write::Write;
use couch_json::Got;
use policy::Security;
use std::alloc::Global;
use tree::{DocId, History};

/// A database of a plain store: the writes that it accepted, in order, its security object, and its
/// local documents.
pub(crate) struct PlainDatabase {
    pub(crate) writes: Vec<Write>,
    pub(crate) security: Security,
    pub(crate) locals: Locals,
}

// Written out, so that callers do not prove again how each part is dropped.
impl Drop for PlainDatabase {
    fn drop(self) {
        let PlainDatabase {
            writes: _,
            security: _,
            locals: _,
        } = self;
    }
}

/// The databases of a plain store, each with its name.
pub(crate) type Databases = Vec<(DbName, PlainDatabase)>;

/// A document as the writes made it.
pub(crate) struct PlainDocument {
    pub(crate) sequence: u64,
    pub(crate) history: History,
}

// Written out, so that callers do not prove again how each part is dropped.
impl Drop for PlainDocument {
    fn drop(self) {
        let PlainDocument {
            sequence: _,
            history: _,
        } = self;
    }
}

/// The documents of a database, in the order of their ids.
pub(crate) type Documents = Vec<(DocId, PlainDocument)>;
