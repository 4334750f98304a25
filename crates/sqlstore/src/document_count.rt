//! A number of documents.

ghost use Rattle.std.specs.Prelude.{◌-◌, ◌<◌, ◌^◌};

/// A number of documents, as SQLite counted it.
#[derive(Clone, Copy, Debug)]
pub(crate) struct DocumentCount {
    /// The number.
    pub(crate) value: u64,
    ghost small: { value < 2 ^ 63 - 1 },
}
