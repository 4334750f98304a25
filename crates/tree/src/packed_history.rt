ghost use Rattle.std.specs.Prelude.{◌≡◌, IfOk};

use crate::entry::Entry;
use crate::history::History;
use crate::revision::Rev;
use couch_json::Got;
use std::alloc::Global;
use std::marker::Model;

/// The most revisions that are kept as rows.
const FEW: usize = 7;

/// A history in little memory, while nothing is asked of it.
///
/// Of few revisions it keeps rows alone, since a map of one revision takes the room of many. Of more it
/// keeps the history as it is, so that one that grows is not taken apart again and again.
pub struct PackedHistory {
    /// The revisions that are not in the history.
    rows: Vec<(Rev, Entry)>,
    /// The history, where it has many.
    history: Option<History>,
}

// Written out, so that callers do not prove again how each part is dropped.
impl Drop for PackedHistory {
    fn drop(self) {
        let PackedHistory {
            rows: _,
            history: _,
        } = self;
    }
}

impl Model for PackedHistory {
    ghost use Rattle.std.specs.FinMap as map;
    ghost use Rattle.std.specs.Prelude.{unwrap_or};
    ghost use Rattle.tree.specs.HistoryCode.{content_code};
    ghost use Rattle.tree.specs.History.{HistoryContent, with_entries};

    ghost Value = { HistoryContent };

    ghost coded = { content_code };

    ghost view = { λ p. with_entries (unwrap_or p.history map.empty) p.rows.items };
}

impl PackedHistory {
    /// Packs a history.
    pub fn pack(alloc: Global, history: History) -> Got<PackedHistory>
        ensures { IfOk result (λ packed. packed ≡ history) }
    {
        if history.count() > FEW {
            return Ok(PackedHistory {
                rows: Vec::new(alloc),
                history: Some(history),
            });
        }
        Ok(PackedHistory {
            rows: history.into_rows()?,
            history: None,
        })
    }

    /// Returns the history that was packed.
    pub fn unpack(self, alloc: Global) -> Got<History>
        ensures { IfOk result (λ history. history ≡ self) }
    {
        let PackedHistory { rows, history } = self;
        let mut history = history.unwrap_or(History::new(alloc));
        for (rev, entry) in rows {
            history.put_entry(rev, entry)?;
        }
        Ok(history)
    }
}
