use couch_json::JsonText;
use store::DbName;
use write::Planned;

/// What a request comes to, with a change that is not made yet.
#[derive(Drop)]
pub(crate) struct Draft {
    /// The status of the reply.
    pub(crate) status: u16,
    /// The value of its body, as its text.
    pub(crate) value: JsonText,
    /// The change that the reply stands for.
    pub(crate) change: Option<Change>,
}

/// A change of the store that was found in order.
#[derive(Drop)]
pub(crate) enum Change {
    /// A new database.
    Create(DbName),
    /// A database with all that it holds, gone.
    Remove(DbName),
    /// What was planned for a database.
    Write(Planned),
}

/// What a request comes to that changes a database, with the change not made yet.
#[derive(Drop)]
pub(crate) struct WriteDraft {
    /// The status of the reply.
    pub(crate) status: u16,
    /// The value of its body, as its text.
    pub(crate) value: JsonText,
    /// The change that the reply stands for.
    pub(crate) planned: Planned,
}
