ghost use Rattle.std.specs.Prelude.{◌≡◌, ◌≢◌, ◌++◌, Option, Some, None, Result, Ok, Err, IfOk, IfErr, OnOk, OnErr};
ghost use Rattle.std.specs.Prelude.{IsTrue, MatchOption, length, option_copied, option_map, slice_get};
ghost use Rattle.std.specs.FinMap as map;
ghost use Rattle.couch_json.specs.View.{view};
ghost use Rattle.tree.specs.Write.{counts_down, head, is_whole_path};
ghost use Rattle.tree.specs.History.{IsWithWrite, agrees, ancestors_of_parent, chain, has_child, held_of, is_deleted, is_head_known, is_known, is_leaf};
ghost use Rattle.tree.specs.History.{is_leaf_in};
ghost use Rattle.tree.specs.History.{is_live, keeps_parents, leaves, leaves_marked, path_from, placement, entry_of_row, winner, with_new, with_write};
ghost use Rattle.tree.specs.Outline.{marked_winner, outline_of};

use crate::body::Body;
use crate::entry::{Entry, Held};
use crate::marked_leaves::MarkedLeaves;
use crate::marked_rev::MarkedRev;
use crate::nodes;
use crate::placement::{Placed, TreeFault};
use crate::revision::Rev;
use couch_json::{Got, Json};
use std::alloc::Global;
use std::collections::{BTreeMap, BTreeSet};
use std::marker::Model;

/// The revision tree of one document: its known revisions, their parents, and the bodies held.
///
/// It has the content of the writes that it took in, in their order. Several roots are allowed;
/// a revision that only came inside a path has no body. See the CouchDB manual,
/// replication/conflicts.
pub struct History {
    alloc: Global,
    /// The known revisions, each with its entry.
    nodes: BTreeMap<Rev, Entry>,
    /// Those that no known revision has as its parent.
    leaves: MarkedLeaves,
    /// The parents that are not known, since rows come in any order.
    awaited: BTreeSet<Rev>,
}

// Written out, so that callers do not prove again how each part is dropped.
impl Drop for History {
    fn drop(self) {
        let History {
            alloc: _,
            nodes: _,
            leaves: _,
            awaited: _,
        } = self;
    }
}

impl Model for History {
    ghost use Rattle.std.specs.FinMap as map;
    ghost use Rattle.tree.specs.HistoryCode.{content_code};
    ghost use Rattle.tree.specs.History.{HistoryContent};
    ghost use Rattle.tree.specs.Nodes.{AreKept};

    ghost Value = { HistoryContent };

    ghost coded = { content_code };

    ghost view = { λ h. map.from_sorted h.nodes.entries };

    ghost invariant = { λ h. AreKept h.nodes.entries h.leaves h.awaited.keys };
}

impl History {
    /// Makes the history of a document that was never written.
    pub fn new(alloc: Global) -> History
        ensures { result ≡ map.empty }
    {
        History {
            alloc,
            nodes: BTreeMap::new(alloc),
            leaves: MarkedLeaves::new(alloc),
            awaited: BTreeSet::new(alloc),
        }
    }

    /// Makes an equal history of its own.
    pub fn copy(&self) -> Got<History>
        ensures { IfOk result (λ h. h ≡ self.now) }
    {
        let mut copy = History::new(self.alloc);
        for (rev, entry) in self.nodes().iter() {
            copy.put_entry(*rev, entry.copy(self.alloc)?)?;
        }
        Ok(copy)
    }

    /// Makes the same history without its bodies: null stands for each.
    pub(crate) fn copy_bare(&self) -> Got<History>
        ensures { IfOk result (λ h. h ≡ outline_of self.now) }
    {
        let mut copy = History::new(self.alloc);
        for (rev, entry) in self.nodes().iter() {
            copy.put_entry(*rev, entry.without_body(self.alloc)?)?;
        }
        Ok(copy)
    }

    /// Takes in one more write, where it fits.
    ///
    /// The path goes from the new revision back to its root. Where the revision is known already
    /// the answer is `Known` and nothing changes, whatever the mark and the body. `BadPath` comes
    /// before `OtherParent`, and `OtherParent` before `Known`; `Memory` comes only where the
    /// revision would be added. After a refusal the history is as it was.
    pub fn insert(&mut self, path: &[Rev], deleted: bool, body: &Json) -> Result<Placed, TreeFault>
        ensures placed { IfOk result (λ p. placement self.old path.now ≡ Ok p) }
        ensures added { result ≡ Ok Placed.Added
            → self.new ≡ with_write self.old (record { path = path.now; deleted = deleted; body = view body.now }) }
        ensures lawful { result ≡ Ok Placed.Added
            → IsWithWrite self.old (record { path = path.now; deleted = deleted; body = view body.now }) self.new }
        ensures known { result ≡ Ok Placed.Known → self.new ≡ self.old }
        ensures refused { IfErr result (λ e. e ≢ TreeFault.Memory → placement self.old path.now ≡ Err e) }
        ensures memory { result ≡ Err TreeFault.Memory → placement self.old path.now ≡ Ok Placed.Added }
        ensures err { OnErr result (self.new ≡ self.old) }
    {
        match self.placement(path)? {
            Placed::Known => Ok(Placed::Known),
            Placed::Added => {
                self.put(path, None, deleted, body)?;
                Ok(Placed::Added)
            }
        }
    }

    /// Takes in a write without asking whether it fits: each revision of the path that is not
    /// known comes in. For a writer that knows that it fits, and for a store that replays what it
    /// accepted.
    ///
    /// The path goes from the new revision back to a first one, or to one that follows `parent`:
    /// what the history knows behind that one is the rest of the path. It takes time by the length
    /// of `path`, however much stands behind it.
    pub fn put(&mut self, path: &[Rev], parent: Option<Rev>, deleted: bool, body: &Json) -> Got<()>
        ensures ok { OnOk result (self.new ≡ with_write self.old
            (record { path = path.now ++ ancestors_of_parent self.old parent; deleted = deleted; body = view body.now })) }
        ensures err { OnErr result (self.new ≡ self.old) }
    {
        let alloc = self.alloc;
        let held = Held::allocate(alloc, deleted, body)?;
        let parent = self.known_parent(parent);
        nodes::put_path(
            alloc,
            &mut self.nodes,
            &mut self.leaves,
            &mut self.awaited,
            path,
            parent,
            held,
        )?;
        Ok(())
    }

    /// Takes in one revision of a stored history, with its parent and what is held of it, the mark of
    /// deletion and the body; a known revision keeps what is known of it.
    ///
    /// The revisions of a history make it, in whatever order they come in
    /// ([`crate::laws::rows_make_the_history`]).
    pub fn put_revision(
        &mut self,
        rev: Rev,
        parent: Option<Rev>,
        held: Option<(bool, Json)>,
    ) -> Got<()>
        ensures ok { OnOk result (self.new ≡ with_new self.old rev (entry_of_row parent (option_map (λ h. (h.0, view h.1)) held))) }
        ensures err { OnErr result (self.new ≡ self.old) }
    {
        let held = match held {
            Some((deleted, body)) => Some(Held {
                deleted,
                body: Body::new(body),
            }),
            None => None,
        };
        let entry = Entry::new(self.alloc, parent, held)?;
        self.put_entry(rev, entry)
    }

    /// Returns the winning leaf, if anything was written: one that is not deleted before one that is, then
    /// the greatest revision. Every replica picks the same.
    pub fn winner(&self) -> Option<&Rev>
        ensures { option_copied result ≡ winner self.now }
    {
        match self.best_leaf(false) {
            Some(rev) => Some(rev),
            None => self.best_leaf(true),
        }
    }

    /// Tells whether some leaf is not deleted; it looks at no node.
    pub fn is_live(&self) -> bool
        ensures { result ≡ is_live self.now }
    {
        self.best_leaf(false).is_some()
    }

    /// Returns all leaves, the winner first, and so on in the order by which it is picked.
    pub fn leaves(&self) -> Got<Vec<Rev>>
        ensures { IfOk result (λ revs. revs.items ≡ leaves self.now) }
    {
        let mut leaves = self.leaves_marked(false)?;
        let deleted = self.leaves_marked(true)?;
        leaves.extend_from_slice(&deleted)?;
        Ok(leaves)
    }

    /// Returns the path of a revision, from it back to its root, or `None` where it is not known.
    pub fn chain(&self, rev: &Rev) -> Got<Option<Vec<Rev>>>
        ensures { IfOk result (λ path. option_map (λ revs. revs.items) path ≡ chain self.now rev.now) }
    {
        if !self.knows(rev) {
            return Ok(None);
        }
        Ok(Some(self.path_from(rev)?))
    }

    /// Tells whether a revision is deleted, and its body; `None` where it is not known or only came
    /// inside a path.
    pub fn body(&self, rev: &Rev) -> Option<(bool, &Json)>
        ensures { MatchOption result (held_of self.now rev.now ≡ None)
            (λ held. held_of self.now rev.now ≡ Some (record { deleted = held.0; body = view held.1.now })) }
    {
        let held = self.entry(rev)?.held.as_ref()?.get();
        Some((held.deleted, held.body.json()))
    }

    /// Returns what is known of a revision, as the caller's own, or `None` where it is not known.
    pub fn revision(&self, rev: &Rev) -> Got<Option<Entry>>
        ensures { IfOk result (λ found. found ≡ map.get self.now rev.now) }
    {
        match self.entry(rev) {
            Some(entry) => Ok(Some(entry.copy(self.alloc)?)),
            None => Ok(None),
        }
    }

    /// Returns the winning leaf with its mark, if anything was written.
    pub fn marked_winner(&self) -> Option<MarkedRev>
        ensures { result ≡ marked_winner self.now }
    {
        let rev = self.winner()?;
        Some(MarkedRev {
            rev: *rev,
            deleted: self.is_deleted(rev),
        })
    }

    /// Tells whether a revision deleted the document, as far as the history knows: one that is not known, or
    /// only came inside a path, did not.
    pub fn is_deleted(&self, rev: &Rev) -> bool
        ensures { result ≡ is_deleted (held_of self.now rev.now) }
    {
        match self.body(rev) {
            Some((deleted, _body)) => deleted,
            None => false,
        }
    }

    /// Tells whether a revision is known and no known revision follows it.
    pub fn is_leaf(&self, rev: &Rev) -> bool
        ensures { result ≡ is_leaf self.now rev.now }
    {
        self.leaves.contains(rev)
    }

    /// Tells whether a revision stands in the path of some write.
    pub fn knows(&self, rev: &Rev) -> bool
        ensures { result ≡ is_known self.now rev.now }
    {
        self.entry(rev).is_some()
    }

    /// Judges a write with this path before it goes in, as [`History::insert`] would.
    ///
    /// `BadPath`: the path is empty, or its numbers do not go down by one to 1. `OtherParent`: it
    /// gives a known revision another parent than it has. `Known`: its newest revision is known
    /// already. `Added`: it would come in. The first that applies; `Memory` never comes.
    pub fn placement(&self, path: &[Rev]) -> Result<Placed, TreeFault>
        ensures { result ≡ placement self.now path.now }
    {
        if !is_whole(path) {
            return Err(TreeFault::BadPath);
        }
        if !self.keeps_parents(path) {
            return Err(TreeFault::OtherParent);
        }
        if self.is_head_known(path) {
            Ok(Placed::Known)
        } else {
            Ok(Placed::Added)
        }
    }

    /// Returns the parent of a write where it is known.
    pub fn known_parent(&self, parent: Option<Rev>) -> Option<Rev>
        ensures { result ≡ head (ancestors_of_parent self.now parent) }
    {
        let parent = parent?;
        prove!(parent.number() > 0);
        if self.knows(&parent) {
            Some(parent)
        } else {
            None
        }
    }

    /// Counts its known revisions.
    pub(crate) fn count(&self) -> usize
        ensures { result ≡ length (map.entries self.now) }
    {
        self.nodes().len()
    }

    /// Returns its known revisions in their order, each with what is known of it.
    pub(crate) fn into_rows(self) -> Got<Vec<(Rev, Entry)>>
        ensures { IfOk result (λ rows. rows.items ≡ map.entries self) }
    {
        let History {
            alloc,
            nodes,
            leaves: _,
            awaited: _,
        } = self;
        Ok(nodes.into_iter().collect(alloc)?)
    }

    /// Takes in one revision; a known one keeps what is known of it.
    pub(crate) fn put_entry(&mut self, rev: Rev, entry: Entry) -> Got<()>
        ensures ok { OnOk result (self.new ≡ with_new self.old rev entry) }
        ensures err { OnErr result (self.new ≡ self.old) }
    {
        nodes::put_new(
            &mut self.nodes,
            &mut self.leaves,
            &mut self.awaited,
            rev,
            entry,
        )?;
        Ok(())
    }

    /// Returns the known revisions in their order, each with its entry.
    fn nodes(&self) -> &BTreeMap<Rev, Entry>
        ensures { result.now.entries ≡ map.entries self.now }
    {
        &self.nodes
    }

    fn entry(&self, rev: &Rev) -> Option<&Entry>
        ensures { option_copied result ≡ map.get self.now rev.now }
    {
        self.nodes().get(rev)
    }

    /// Returns the greatest leaf with this mark.
    fn best_leaf(&self, deleted: bool) -> Option<&Rev>
        ensures { option_copied result ≡ slice_get (leaves_marked deleted self.now) 0 }
    {
        self.leaves.with_mark(deleted).iter().next_back()
    }

    /// Returns the leaves with this mark, the greatest first.
    fn leaves_marked(&self, deleted: bool) -> Got<Vec<Rev>>
        ensures { IfOk result (λ revs. revs.items ≡ leaves_marked deleted self.now) }
    {
        let mut leaves = Vec::new(self.alloc);
        for rev in self.leaves.with_mark(deleted).iter().rev() {
            leaves.push(*rev)?;
        }
        Ok(leaves)
    }

    fn keeps_parents(&self, path: &[Rev]) -> bool
        ensures { result ≡ keeps_parents self.now path.now }
    {
        for (i, rev) in path.iter().enumerate() {
            if !self.agrees(rev, path.get(i + 1).copied()) {
                return false;
            }
        }
        true
    }

    /// Tells whether the revision has this parent, if it is known.
    fn agrees(&self, rev: &Rev, parent: Option<Rev>) -> bool
        ensures { result ≡ agrees (map.get self.now rev.now) parent }
    {
        match self.entry(rev) {
            Some(entry) => entry.agrees(parent),
            None => true,
        }
    }

    fn is_head_known(&self, path: &[Rev]) -> bool
        ensures { result ≡ is_head_known self.now path.now }
    {
        match path.first() {
            Some(head) => self.knows(head),
            None => false,
        }
    }

    /// Returns the revision, its parent, and so on, up to one that is not known, and at most as many as its
    /// number says.
    fn path_from(&self, rev: &Rev) -> Got<Vec<Rev>>
        ensures { IfOk result (λ revs. revs.items ≡ path_from self.now rev.now.number rev.now) }
    {
        let mut revs = Vec::new(self.alloc);
        let mut next = Some(*rev);
        for _step in 0..rev.number() {
            let Some(current) = next else {
                break;
            };
            let Some(entry) = self.entry(&current) else {
                break;
            };
            revs.push(current)?;
            next = entry.parent;
        }
        Ok(revs)
    }
}

/// Tells whether the numbers of a path go down by one to 1.
fn is_whole(path: &[Rev]) -> bool
    ensures { result ≡ is_whole_path path.now }
{
    !path.is_empty() && counts_down(path)
}

fn counts_down(path: &[Rev]) -> bool
    ensures { result ≡ counts_down path.now }
{
    for (i, rev) in path.iter().enumerate() {
        if rev.number() as usize != path.len() - i {
            return false;
        }
    }
    true
}
