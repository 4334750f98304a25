//! What queries see of a document.

ghost use Rattle.std.specs.Prelude.{◌≡◌, is_some};
ghost use Rattle.sqlstore.specs.inner.Seen.{values_seen};

use couch_json::Json;

/// What queries see of a document.
#[derive(Drop)]
pub(crate) enum Seen {
    /// It was never written.
    Unwritten,
    /// Nothing: its winner is deleted, or it is a design document.
    Hidden,
    /// A document as it is shown.
    Shown(Json),
}

impl Seen {
    /// Tells whether the document was ever written.
    pub(crate) fn is_written(&self) -> bool
        ensures { result ≡ is_some (values_seen self.now) }
    {
        match self {
            Seen::Unwritten => false,
            Seen::Hidden => true,
            Seen::Shown(_) => true,
        }
    }
}
