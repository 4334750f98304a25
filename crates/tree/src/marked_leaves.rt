//! The leaves of a history, those that are deleted apart from the others.

ghost use Rattle.std.specs.Prelude.{◌≡◌, ◌||◌, true, false, OnErr, OnOk};
ghost use Rattle.std.specs.Ordering.{eq_by_cmp};
ghost use Rattle.tree.specs.Revision.{revision_cmp};
ghost use Rattle.tree.specs.Nodes.{AddsLeaf, HasNoLeaves, HasSameLeaves, LosesLeaves, has, leaves_with};

use crate::revision::Rev;
use couch_json::Got;
use std::alloc::Global;
use std::collections::BTreeSet;

/// The leaves of a history.
#[derive(Drop)]
pub(crate) struct MarkedLeaves {
    /// Those that are not deleted.
    live: BTreeSet<Rev>,
    /// Those that are deleted.
    deleted: BTreeSet<Rev>,
}

impl MarkedLeaves {
    /// Makes the leaves of a document that was never written: none.
    pub(crate) fn new(alloc: Global) -> MarkedLeaves
        ensures { HasNoLeaves result }
    {
        MarkedLeaves {
            live: BTreeSet::new(alloc),
            deleted: BTreeSet::new(alloc),
        }
    }

    /// Takes in a leaf with its mark.
    pub(crate) fn insert(&mut self, rev: Rev, deleted: bool) -> Got<()>
        ensures ok { OnOk result (AddsLeaf true deleted rev self.old self.new) }
        ensures err { OnErr result (HasSameLeaves self.old self.new) }
    {
        if deleted {
            self.deleted.insert(rev)?;
        } else {
            self.live.insert(rev)?;
        }
        Ok(())
    }

    /// Takes out a revision, if it is a leaf.
    pub(crate) fn remove(&mut self, rev: &Rev)
        ensures { LosesLeaves (eq_by_cmp revision_cmp rev.now) self.old self.new }
    {
        self.live.remove(rev);
        self.deleted.remove(rev);
    }

    /// Tells whether a revision is a leaf.
    pub(crate) fn contains(&self, rev: &Rev) -> bool
        ensures { result ≡ (has (leaves_with self.now false) rev.now || has (leaves_with self.now true) rev.now) }
    {
        self.live.contains(rev) || self.deleted.contains(rev)
    }

    /// Returns the leaves with this mark.
    pub(crate) fn with_mark(&self, deleted: bool) -> &BTreeSet<Rev>
        ensures { result.now.keys ≡ leaves_with self.now deleted }
    {
        if deleted { &self.deleted } else { &self.live }
    }
}
