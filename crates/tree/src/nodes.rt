//! The revisions of a history with their entries, beside them its leaves, and the parents that are not
//! known.

ghost use Rattle.std.specs.Prelude.{◌≡◌, ◌<◌, ◌≤◌, ◌++◌, [], ◌∷◌, length, not, Option, Some, IfOk, OnOk, OnErr, is_some, vec_capacity, vec_len};
ghost use Rattle.std.specs.Map.{remove_entry};
ghost use Rattle.std.specs.BTreeMap.{is_at};
ghost use Rattle.std.specs.FinMap.{find};
ghost use Rattle.std.specs.Ordering.{eq_by_cmp};
ghost use Rattle.tree.specs.Revision.{Revision, revision_cmp};
ghost use Rattle.tree.specs.History.{is_deleted, names};
ghost use Rattle.tree.specs.Nodes.{AddsLeaf, AreKept, AreUnsettled, Awaits, CanGoBack, HasSameLeaves, Loses, LosesLeaves, entries_before};
ghost use Rattle.tree.specs.Nodes.{insertions_in, is_followed, is_new, is_new_leaf, next_of, nodes_before, nodes_with, nodes_with_new};

use crate::entry::{Entry, Held};
use crate::marked_leaves::MarkedLeaves;
use crate::revision::Rev;
use couch_json::{Got, NoMemory};
use sqlite_items::Boxed;
use std::alloc::Global;
use std::collections::{BTreeMap, BTreeSet};

/// Takes in the revisions of a path that follows a parent, where there is one; only the newest has
/// something held. All or none.
pub(crate) fn put_path(
    alloc: Global,
    nodes: &mut BTreeMap<Rev, Entry>,
    leaves: &mut MarkedLeaves,
    awaited: &mut BTreeSet<Rev>,
    path: &[Rev],
    parent: Option<Rev>,
    held: Boxed<Held>,
) -> Got<()>
    requires kept { AreKept nodes.old.entries leaves.old awaited.old.keys }
    ensures ok { OnOk result (nodes.new.entries ≡ nodes_with nodes.old.entries (entries_before (Some held) path.now parent)) }
    ensures kept { AreKept nodes.new.entries leaves.new awaited.new.keys }
    ensures err { OnErr result (nodes.new.entries ≡ nodes.old.entries) }
{
    let mut came_in = Vec::with_capacity(alloc, path.len())?;
    let Ok(()) = put_nodes(nodes, leaves, awaited, path, parent, held, &mut came_in) else {
        take_back(nodes, leaves, path, came_in);
        return Err(NoMemory);
    };
    settle(leaves, awaited, path, &parent, &came_in);
    Ok(())
}

/// Takes in the revisions of a path, and notes which of them came in. The leaves are not settled yet; and
/// after a failure what came in can be taken back.
fn put_nodes(
    nodes: &mut BTreeMap<Rev, Entry>,
    leaves: &mut MarkedLeaves,
    awaited: &mut BTreeSet<Rev>,
    path: &[Rev],
    parent: Option<Rev>,
    held: Boxed<Held>,
    came_in: &mut Vec<bool>,
) -> Got<()>
    requires kept { AreKept nodes.old.entries leaves.old awaited.old.keys }
    requires empty { came_in.old.items ≡ [] }
    requires room { length path.now ≤ vec_capacity came_in.old }
    ensures ok { OnOk result (nodes.new.entries ≡ nodes_with nodes.old.entries (entries_before (Some held) path.now parent)) }
    ensures all { OnOk result (AreUnsettled nodes.new.entries leaves.new awaited.new.keys (insertions_in came_in.new.items path.now parent)) }
    ensures whole { OnOk result (length came_in.new.items ≡ length path.now) }
    ensures err { OnErr result (CanGoBack nodes.old.entries nodes.new.entries leaves.new awaited.new.keys (insertions_in came_in.new.items path.now parent)) }
    ensures some { length came_in.new.items ≤ length path.now }
{
    let mut held = Some(held);
    let mut is_followed = false;
    for (i, rev) in path.iter().enumerate() {
        let entry = Entry {
            parent: find_next(&path[i + 1..], &parent),
            held: held.take(),
        };
        is_followed = put_node(nodes, leaves, awaited, *rev, entry, is_followed)?;
        note(came_in, is_followed);
    }
    if is_followed {
        await_parent(nodes, awaited, parent)?;
    }
    Ok(())
}

/// Finds the newest revision of a path, or what it follows where it has none.
pub fn find_next(path: &[Rev], parent: &Option<Rev>) -> Option<Rev>
    ensures { result ≡ next_of path.now parent.now }
{
    match path.first() {
        Some(rev) => Some(*rev),
        None => *parent,
    }
}

/// Notes whether one more came in.
fn note(came_in: &mut Vec<bool>, is_new: bool)
    requires { vec_len came_in.old < vec_capacity came_in.old }
    ensures items { came_in.new.items ≡ came_in.old.items ++ is_new ∷ [] }
    ensures capacity { vec_capacity came_in.old ≤ vec_capacity came_in.new }
{
    came_in.push(is_new).unwrap();
}

/// Takes in a revision that is not known yet; a known one keeps its entry.
pub(crate) fn put_new(
    nodes: &mut BTreeMap<Rev, Entry>,
    leaves: &mut MarkedLeaves,
    awaited: &mut BTreeSet<Rev>,
    rev: Rev,
    entry: Entry,
) -> Got<()>
    requires kept { AreKept nodes.old.entries leaves.old awaited.old.keys }
    ensures ok { OnOk result (nodes.new.entries ≡ nodes_with_new nodes.old.entries rev entry) }
    ensures kept { AreKept nodes.new.entries leaves.new awaited.new.keys }
    ensures err { OnErr result (nodes.new.entries ≡ nodes.old.entries) }
{
    let parent = entry.parent;
    if !put_node(nodes, leaves, awaited, rev, entry, false)? {
        return Ok(());
    }
    let Ok(()) = await_parent(nodes, awaited, parent) else {
        take_back_one(nodes, leaves, &rev);
        return Err(NoMemory);
    };
    settle_one(leaves, awaited, &rev, &parent);
    Ok(())
}

/// Takes in a revision that is not known yet, also as a leaf if none follows it; a known one keeps its
/// entry. Answers whether it came in. Its parent may stand among the leaves still, and itself among what
/// is awaited.
fn put_node(
    nodes: &mut BTreeMap<Rev, Entry>,
    leaves: &mut MarkedLeaves,
    awaited: &BTreeSet<Rev>,
    rev: Rev,
    entry: Entry,
    is_followed: bool,
) -> Got<bool>
    ensures ok { OnOk result (nodes.new.entries ≡ nodes_with_new nodes.old.entries rev entry) }
    ensures new { IfOk result (λ is_new. is_new ≡ not (is_some (find revision_cmp rev nodes.old.entries))) }
    ensures leaves { OnOk result (AddsLeaf (is_new_leaf nodes.old.entries awaited.now.keys rev is_followed) (is_deleted entry.held) rev leaves.old leaves.new) }
    ensures err { OnErr result ((nodes.new.entries ≡ nodes.old.entries) × HasSameLeaves leaves.old leaves.new) }
{
    if nodes.contains_key(&rev) {
        return Ok(false);
    }
    let deleted = entry.is_marked(true);
    nodes.insert(rev, entry)?;
    if is_followed || awaited.contains(&rev) {
        return Ok(true);
    }
    let Ok(()) = leaves.insert(rev, deleted) else {
        drop(nodes.remove(&rev));
        return Err(NoMemory);
    };
    Ok(true)
}

/// Takes in a parent among those that are awaited, where it is not known.
fn await_parent(
    nodes: &BTreeMap<Rev, Entry>,
    awaited: &mut BTreeSet<Rev>,
    parent: Option<Rev>,
) -> Got<()>
    ensures ok { OnOk result (Awaits nodes.now.entries parent awaited.old.keys awaited.new.keys) }
    ensures err { OnErr result (awaited.new.keys ≡ awaited.old.keys) }
{
    let Some(rev) = parent else {
        return Ok(());
    };
    if !nodes.contains_key(&rev) {
        awaited.insert(rev)?;
    }
    Ok(())
}

/// Takes back those of a path that came in, the last first.
fn take_back(
    nodes: &mut BTreeMap<Rev, Entry>,
    leaves: &mut MarkedLeaves,
    path: &[Rev],
    came_in: Vec<bool>,
)
    requires { length came_in.items ≤ length path.now }
    ensures nodes { (parent : Option Revision) → nodes.new.entries ≡ nodes_before nodes.old.entries (insertions_in came_in.items path.now parent) }
    ensures leaves { (parent : Option Revision) → LosesLeaves (is_new (insertions_in came_in.items path.now parent)) leaves.old leaves.new }
{
    let mut came_in = came_in;
    while let Some(is_new) = came_in.pop() {
        if is_new {
            take_back_one(nodes, leaves, &path[came_in.len()]);
        }
    }
}

/// Takes back a revision.
fn take_back_one(nodes: &mut BTreeMap<Rev, Entry>, leaves: &mut MarkedLeaves, rev: &Rev)
    ensures nodes { nodes.new.entries ≡ remove_entry (is_at (revision_cmp rev.now)) nodes.old.entries }
    ensures leaves { LosesLeaves (eq_by_cmp revision_cmp rev.now) leaves.old leaves.new }
{
    drop(nodes.remove(rev));
    leaves.remove(rev);
}

/// Settles that the parents of what came in are no leaves, and that what came in is awaited no more.
fn settle(
    leaves: &mut MarkedLeaves,
    awaited: &mut BTreeSet<Rev>,
    path: &[Rev],
    parent: &Option<Rev>,
    came_in: &[bool],
)
    requires { length came_in.now ≡ length path.now }
    ensures leaves { LosesLeaves (is_followed (insertions_in came_in.now path.now parent.now)) leaves.old leaves.new }
    ensures awaited { Loses (is_new (insertions_in came_in.now path.now parent.now)) awaited.old.keys awaited.new.keys }
{
    for (i, rev) in path.iter().enumerate() {
        if came_in[i] {
            settle_one(leaves, awaited, rev, &find_next(&path[i + 1..], parent));
        }
    }
}

/// Settles that the parent of a revision is no leaf, and that itself is awaited no more.
fn settle_one(
    leaves: &mut MarkedLeaves,
    awaited: &mut BTreeSet<Rev>,
    rev: &Rev,
    parent: &Option<Rev>,
)
    ensures leaves { LosesLeaves (names parent.now) leaves.old leaves.new }
    ensures awaited { Loses (eq_by_cmp revision_cmp rev.now) awaited.old.keys awaited.new.keys }
{
    if let Some(parent) = parent {
        leaves.remove(parent);
    }
    awaited.remove(rev);
}
