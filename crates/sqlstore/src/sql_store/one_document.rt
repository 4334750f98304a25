//! What the rows of the database of a number say of one document. What they say of its winner has to fit
//! together: a row that is gone is told as damaged, and never as missing.

ghost use Rattle.std.specs.Prelude.{◌≡◌, IfErr, OnOk, is_some, option_and_then, option_map};
ghost use Rattle.transactions.specs.Reading.{IsLost};
ghost use Rattle.tree.specs.History.{winner as best};

use crate::sql_store::SqlStore;
use sqlite::Alter;
use store::{StoreFault, take_winner};
use transactions::{
    check_best, check_history, first_revision, first_winner, read_history, read_outline,
};
use tree::{DocId, Entry, History, MarkedRev, Outline, Rev};

impl<S: Alter> SqlStore<S> {
    ghost use Rattle.std.specs.Prelude.{Some};
    ghost use Rattle.std.specs.FinMap as map;
    ghost use Rattle.tables.specs.Rows.{history_in_rows};
    ghost use Rattle.tables.specs.Schema.{revs_tree};
    ghost use Rattle.tree.specs.History.{names, winner};
    ghost use Rattle.tree.specs.Outline.{marked_winner, outline_of};
    ghost use Rattle.sqlstore.specs.Model.{Answers, Stands, trees_of};

    /// Finds the history of a document, empty where it was never written. It has to have the winner that
    /// the document's row names.
    pub(crate) fn find_history(&mut self, number: &i64, id: &DocId) -> Result<History, StoreFault>
        ensures answer { Answers S.Store self.old self.new (λ history. history)
            (Some (history_in_rows (trees_of S.Store self.old revs_tree) number.now id.now)) result }
        ensures stands { Stands S.Store self.old self.new }
    {
        let winner = self.find_winner(number, id)?;
        let history = self.load_history(number, id)?;
        check_history(&winner, &history)?;
        Ok(history)
    }

    /// Finds the same history without its bodies. It has to have that winner too.
    pub(crate) fn find_outline(&mut self, number: &i64, id: &DocId) -> Result<Outline, StoreFault>
        ensures answer { Answers S.Store self.old self.new (λ outline. outline)
            (Some (outline_of (history_in_rows (trees_of S.Store self.old revs_tree) number.now id.now))) result }
        ensures stands { Stands S.Store self.old self.new }
    {
        let winner = self.find_winner(number, id)?;
        let outline = self.load_outline(number, id)?;
        check_outline(&winner, &outline)?;
        Ok(outline)
    }

    /// Finds what is known of one revision of a document, if it is known. Something has to be held of the
    /// one that the document's row names as the winner.
    pub(crate) fn find_revision(
        &mut self,
        number: &i64,
        id: &DocId,
        rev: &Rev,
    ) -> Result<Option<Entry>, StoreFault>
        ensures answer { Answers S.Store self.old self.new (λ found. found)
            (Some (map.get (history_in_rows (trees_of S.Store self.old revs_tree) number.now id.now) rev.now)) result }
        ensures stands { Stands S.Store self.old self.new }
    {
        let known = self.load_revision(number, id, rev)?;
        if is_held(&known) {
            return Ok(known);
        }
        if self.is_winner(number, id, rev)? {
            return Err(StoreFault::Damaged);
        }
        Ok(known)
    }

    /// Tells whether a revision is the winner of a document.
    fn is_winner(&mut self, number: &i64, id: &DocId, rev: &Rev) -> Result<bool, StoreFault>
        ensures answer { Answers S.Store self.old self.new (λ is. is)
            (Some (names (winner (history_in_rows (trees_of S.Store self.old revs_tree) number.now id.now)) rev.now)) result }
        ensures stands { Stands S.Store self.old self.new }
    {
        match self.find_winner(number, id)? {
            Some(winner) => Ok(winner.rev.cmp(rev).is_eq()),
            None => Ok(false),
        }
    }

    /// Checks that something is held of the winner of a document, under the mark that its row has.
    pub(crate) fn check_winner(&mut self, number: &i64, id: &DocId) -> Result<(), StoreFault>
        ensures answer { Answers S.Store self.old self.new (λ done. done) (Some tt) result }
        ensures stands { Stands S.Store self.old self.new }
    {
        let Some(winner) = self.find_winner(number, id)? else {
            return Ok(());
        };
        let known = self.load_revision(number, id, &winner.rev)?;
        let _body = take_winner(known, winner.deleted)?;
        Ok(())
    }

    /// Reads the history of a document.
    fn load_history(&mut self, number: &i64, id: &DocId) -> Result<History, StoreFault>
        ensures answer { Answers S.Store self.old self.new (λ history. history)
            (Some (history_in_rows (trees_of S.Store self.old revs_tree) number.now id.now)) result }
        ensures stands { Stands S.Store self.old self.new }
    {
        let rows = self.revision_rows(number, id.as_str().as_bytes())?;
        read_history(self.alloc, rows)
    }

    /// Reads the history of a document without its bodies.
    pub(crate) fn load_outline(&mut self, number: &i64, id: &DocId) -> Result<Outline, StoreFault>
        ensures answer { Answers S.Store self.old self.new (λ outline. outline)
            (Some (outline_of (history_in_rows (trees_of S.Store self.old revs_tree) number.now id.now))) result }
        ensures stands { Stands S.Store self.old self.new }
    {
        let rows = self.outline_rows(number, id.as_str().as_bytes())?;
        read_outline(self.alloc, rows)
    }

    /// Reads what is known of one revision of a document, if it is known.
    fn load_revision(
        &mut self,
        number: &i64,
        id: &DocId,
        rev: &Rev,
    ) -> Result<Option<Entry>, StoreFault>
        ensures answer { Answers S.Store self.old self.new (λ found. found)
            (Some (map.get (history_in_rows (trees_of S.Store self.old revs_tree) number.now id.now) rev.now)) result }
        ensures stands { Stands S.Store self.old self.new }
    {
        let id = id.as_str().as_bytes();
        let rows = self.one_revision_rows(number, id, rev.number(), rev.hash())?;
        first_revision(self.alloc, &rows)
    }

    /// Finds the winner of a document with its mark, if it was ever written.
    pub(crate) fn find_winner(
        &mut self,
        number: &i64,
        id: &DocId,
    ) -> Result<Option<MarkedRev>, StoreFault>
        ensures answer { Answers S.Store self.old self.new (λ found. found)
            (Some (marked_winner (history_in_rows (trees_of S.Store self.old revs_tree) number.now id.now))) result }
        ensures stands { Stands S.Store self.old self.new }
    {
        let rows = self.document_rows(number, id.as_str().as_bytes())?;
        first_winner(self.alloc, &rows)
    }
}

/// Tells whether something is held of a revision.
fn is_held(known: &Option<Entry>) -> bool
    ensures { result ≡ is_some (option_and_then (λ e. e.held) known.now) }
{
    match known {
        Some(entry) => entry.held.is_some(),
        None => false,
    }
}

/// Checks that the first leaf of an outline is this winner. `Damaged` comes only if it isn't.
fn check_outline(winner: &Option<MarkedRev>, outline: &Outline) -> Result<(), StoreFault>
    ensures ok { OnOk result (option_map (λ w. w.rev) winner.now ≡ best outline.now) }
    ensures err { IfErr result (IsLost (option_map (λ w. w.rev) winner.now ≡ best outline.now)) }
{
    let leaves = outline.leaves()?;
    check_best(&rev_of(winner), &leaves)
}

/// Returns the revision of a winner.
fn rev_of(winner: &Option<MarkedRev>) -> Option<Rev>
    ensures { result ≡ option_map (λ w. w.rev) winner.now }
{
    match winner {
        Some(winner) => Some(winner.rev),
        None => None,
    }
}
