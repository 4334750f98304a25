//! Missing revisions of a document, in groups that are asked for at once.

ghost use Rattle.std.specs.Prelude.{◌≡◌, ◌++◌, [], ◌∷◌, ℕ, List, OnOk, map, string_bytes};
ghost use Rattle.repl.specs.Listed.{revisions_of};
ghost use Rattle.repl.specs.Replies.{groups_from, of_document, unless_empty};

use crate::revisions::DocumentRevisions;
use couch_json::Got;
use std::alloc::Global;
use std::collections::VecDeque;
use std::mem;

/// How many revisions of a document are asked for at once: so many stand in one query.
const MOST_REVISIONS: usize = 100;

/// Adds missing revisions of a document, in groups as large as may be.
pub fn push_groups(
    alloc: Global,
    missing: &mut VecDeque<DocumentRevisions>,
    id: &str,
    revisions: &[String],
) -> Got<()>
    ensures { OnOk result (map revisions_of missing.new.items
        ≡ map revisions_of missing.old.items ++ of_document id.now (groups_from [] (map string_bytes revisions.now)) []) }
{
    let mut group = Vec::new(alloc);
    for revision in revisions {
        push_revision(alloc, missing, id, &mut group, revision.as_str())?;
    }
    push_group(alloc, missing, id, group)
}

/// Adds a revision to the group that was begun. A group that is full is added to what is missing first.
fn push_revision(
    alloc: Global,
    missing: &mut VecDeque<DocumentRevisions>,
    id: &str,
    group: &mut Vec<String>,
    revision: &str,
) -> Got<()>
    ensures { OnOk result ((rest : List (List ℕ)) →
        map revisions_of missing.new.items ++ of_document id.now (groups_from (map string_bytes group.new.items) rest) []
        ≡ map revisions_of missing.old.items ++ of_document id.now (groups_from (map string_bytes group.old.items) (revision.now ∷ rest)) []) }
{
    if group.len() == MOST_REVISIONS {
        let full = mem::replace(group, Vec::new(alloc));
        let id = String::from_str(alloc, id)?;
        missing.push_back(DocumentRevisions {
            id,
            revisions: full,
        })?;
    }
    group.push(String::from_str(alloc, revision)?)?;
    Ok(())
}

/// Adds a group, unless it is empty.
fn push_group(
    alloc: Global,
    missing: &mut VecDeque<DocumentRevisions>,
    id: &str,
    group: Vec<String>,
) -> Got<()>
    ensures { OnOk result (map revisions_of missing.new.items
        ≡ map revisions_of missing.old.items ++ of_document id.now (unless_empty (map string_bytes group.items)) []) }
{
    if group.is_empty() {
        return Ok(());
    }
    let id = String::from_str(alloc, id)?;
    missing.push_back(DocumentRevisions {
        id,
        revisions: group,
    })?;
    Ok(())
}
