ghost use Rattle.std.specs.Prelude.{◌≡◌, IfOk, OnErr, OnOk, option_map};
ghost use Rattle.std.specs.FinMap as map;
ghost use Rattle.couch_json.specs.Value.{null};
ghost use Rattle.tree.specs.History.{chain, is_known, leaves, entry_of_row, with_new};
ghost use Rattle.tree.specs.Outline.{outline_of};

use crate::history::History;
use crate::revision::Rev;
use couch_json::{Got, Json};
use std::alloc::Global;
use std::marker::Model;

/// The revision tree of one document without its bodies: the known revisions, their parents and their
/// marks, and of which something is held.
///
/// It has the content of the history whose outline it is, with null in the place of each body.
pub struct Outline {
    history: History,
}

// Written out, so that callers do not prove again how each part is dropped.
impl Drop for Outline {
    fn drop(self) {
        let Outline { history: _ } = self;
    }
}

impl Model for Outline {
    ghost use Rattle.tree.specs.HistoryCode.{content_code};
    ghost use Rattle.tree.specs.History.{HistoryContent};

    ghost Value = { HistoryContent };

    ghost coded = { content_code };

    ghost view = { λ o. o.history };
}

impl Outline {
    /// Makes the outline of a document that was never written.
    pub fn new(alloc: Global) -> Outline
        ensures { result ≡ map.empty }
    {
        Outline {
            history: History::new(alloc),
        }
    }

    /// Makes the outline of a history.
    pub fn of(history: &History) -> Got<Outline>
        ensures { IfOk result (λ outline. outline ≡ outline_of history.now) }
    {
        Ok(Outline {
            history: history.copy_bare()?,
        })
    }

    /// Takes in one revision of a stored history, with its parent, and its mark where something is held of
    /// it; a known revision keeps what is known of it.
    pub fn put_revision(&mut self, rev: Rev, parent: Option<Rev>, mark: Option<bool>) -> Got<()>
        ensures ok { OnOk result (self.new ≡ with_new self.old rev (entry_of_row parent (option_map (λ deleted. (deleted, null)) mark))) }
        ensures err { OnErr result (self.new ≡ self.old) }
    {
        let held = match mark {
            Some(deleted) => Some((deleted, Json::Null)),
            None => None,
        };
        self.history.put_revision(rev, parent, held)
    }

    /// Returns all leaves, the winner first, and so on in the order by which it is picked.
    pub fn leaves(&self) -> Got<Vec<Rev>>
        ensures { IfOk result (λ revs. revs.items ≡ leaves self.now) }
    {
        self.history.leaves()
    }

    /// Returns the path of a revision, from it back to its root, or `None` where it is not known.
    pub fn chain(&self, rev: &Rev) -> Got<Option<Vec<Rev>>>
        ensures { IfOk result (λ path. option_map (λ revs. revs.items) path ≡ chain self.now rev.now) }
    {
        self.history.chain(rev)
    }

    /// Tells whether a revision stands in the path of some write.
    pub fn knows(&self, rev: &Rev) -> bool
        ensures { result ≡ is_known self.now rev.now }
    {
        self.history.knows(rev)
    }
}
