//! Changes that are listed page by page, so that no more rows than those of a page are held at once.

ghost use Rattle.std.specs.Prelude.{◌≡◌, ◌<◌, ◌^◌};

use couch_json::ArrayText;

/// The changes that were listed so far.
pub(crate) struct ChangesSoFar {
    /// The sequence after which the next rows are read.
    pub(crate) since: u64,
    /// At most so many more rows; `None` for all.
    pub(crate) left: Option<u64>,
    /// What `last_seq` is if no more rows come.
    pub(crate) last: u64,
    /// The objects of the rows.
    pub(crate) results: ArrayText,
    ghost bounded: { last < 2 ^ 63 },
}

// Written out, so that callers do not prove again how each part is dropped.
impl Drop for ChangesSoFar {
    fn drop(self) {
        let ChangesSoFar {
            since: _,
            left: _,
            last: _,
            results: _,
        } = self;
    }
}

impl ChangesSoFar {
    /// Gives up the last sequence and the objects of the rows.
    pub(crate) fn into_parts(self) -> (u64, ArrayText)
        ensures parts { result ≡ (self.last, self.results) }
        ensures bounded { result.0 < 2 ^ 63 }
    {
        let ChangesSoFar {
            since: _,
            left: _,
            last,
            results,
        } = self;
        (last, results)
    }
}
