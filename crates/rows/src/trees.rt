//! Rows on ids, revisions and histories of documents.

use crate::fault::{RowsFault, name, named};
use crate::playing::Asked;
use crate::texts::{first_word, put, text_of};
use crate::values::put_value;
use couch_json::read;
use std::alloc::Global;
use std::cmp::Ordering;
use std::fmt::Write;
use tree::{DocId, History, Placed, Rev, next_rev};

/// `TEXT`: `id`, `design` or `local` as an id of a document, or `Shape`.
pub fn id(asked: Asked<'_>, out: &mut String) -> Result<(), RowsFault> {
    let id = named(DocId::new(asked.alloc, asked.text()), out)?;
    if id.as_str() != asked.text() || id.copy(asked.alloc)? != id {
        return Err(RowsFault::Refused("another id"));
    }
    match (id.is_design(), id.is_local()) {
        (false, false) => put("id", out),
        (true, false) => put("design", out),
        (false, true) => put("local", out),
        (true, true) => put("design and local", out),
    }
}

/// `read TEXT`: the number and the hash, or `none`. `order TEXT`: `after` where it is behind each
/// revision that is ordered above it in the table. `next PARENT BODY`, `next PARENT deleted BODY`: the
/// revision of that edit, where `-` is no parent, or `Generation`.
pub fn revision(asked: Asked<'_>, out: &mut String) -> Result<(), RowsFault> {
    let (verb, rest) = first_word(asked.text());
    match verb {
        "read" => read_back(asked.alloc, rest, out),
        "order" => order(asked, rest, out),
        "next" => next(asked.alloc, rest, out),
        _ => Err(RowsFault::Refused("read, order or next")),
    }
}

/// How a text is refused that is no revision.
pub const NO_REVISION: RowsFault = RowsFault::Refused("none");

/// Adds a revision's number and hash.
fn read_back(alloc: Global, text: &str, out: &mut String) -> Result<(), RowsFault> {
    let Some(rev) = Rev::parse(text.as_bytes()) else {
        return Err(NO_REVISION);
    };
    if rev.text(alloc)?.as_str() != text {
        return Err(RowsFault::Refused("another text"));
    }
    write!(out, "{} {}", rev.number(), rev.hash())?;
    Ok(())
}

/// Tells whether a revision is greater than those above, and equal to itself.
fn order(asked: Asked<'_>, text: &str, out: &mut String) -> Result<(), RowsFault> {
    let Some(rev) = Rev::parse(text.as_bytes()) else {
        return Err(NO_REVISION);
    };
    let mut is_behind = rev.cmp(&rev) == Ordering::Equal;
    for row in asked.above {
        if let Some(text) = text_of(&row.question).strip_prefix("order ") {
            is_behind = is_behind && is_below(text, &rev);
        }
    }
    put(if is_behind { "after" } else { "not after" }, out)
}

/// Tells whether the revision of a text is below another.
fn is_below(text: &str, rev: &Rev) -> bool {
    match Rev::parse(text.as_bytes()) {
        Some(low) => low.cmp(rev) == Ordering::Less && rev.cmp(&low) == Ordering::Greater,
        None => false,
    }
}

/// Adds the revision of an edit.
fn next(alloc: Global, text: &str, out: &mut String) -> Result<(), RowsFault> {
    let (parent, rest) = first_word(text);
    let (deleted, body) = edit_of(rest);
    let body = named(read(alloc, body.as_bytes()), out)?;
    let parent = Rev::parse(parent.as_bytes());
    match next_rev(alloc, parent.as_ref(), deleted, &body) {
        Ok(rev) => put_revs(&[rev], out),
        Err(fault) => Err(name(fault, out)),
    }
}

/// Returns whether an edit deletes, by its first word, and what stands behind that.
pub fn edit_of(text: &str) -> (bool, &str) {
    match text.strip_prefix("deleted ") {
        Some(body) => (true, body),
        None => (false, text),
    }
}

/// One history a table, empty at its start.
///
/// `insert PATH BODY`, `insert PATH deleted BODY`: `Added`, `Known` or the fault; a path is its
/// revisions, newest first, with commas between them, and `-` has none.
/// `winner`, `leaves`, `chain REV`, `body REV`, `state REV`: what the history says.
pub fn history(asked: Asked<'_>, out: &mut String) -> Result<(), RowsFault> {
    let mut history = History::new(asked.alloc);
    for row in asked.above {
        if let Some(write) = text_of(&row.question).strip_prefix("insert ") {
            // What a write came to is the answer of its own row.
            let _ = insert(asked.alloc, &mut history, write, out);
            out.clear();
        }
    }
    match asked.text().strip_prefix("insert ") {
        Some(write) => insert(asked.alloc, &mut history, write, out),
        None => tell(asked, &history, out),
    }
}

/// Offers a write to a history.
fn insert(
    alloc: Global,
    history: &mut History,
    write: &str,
    out: &mut String,
) -> Result<(), RowsFault> {
    let (path, rest) = first_word(write);
    let (deleted, body) = edit_of(rest);
    let body = named(read(alloc, body.as_bytes()), out)?;
    let mut revs = Vec::new(alloc);
    for text in path.split(',') {
        match Rev::parse(text.as_bytes()) {
            Some(rev) => revs.push(rev)?,
            None if text == "-" => {}
            None => return Err(NO_REVISION),
        }
    }
    match named(history.insert(&revs, deleted, &body), out)? {
        Placed::Added => put("Added", out),
        Placed::Known => put("Known", out),
    }
}

/// Adds what a history says.
fn tell(asked: Asked<'_>, history: &History, out: &mut String) -> Result<(), RowsFault> {
    let (verb, rest) = first_word(asked.text());
    match verb {
        "winner" => match history.winner() {
            Some(rev) => put_revs(&[*rev], out),
            None => put("none", out),
        },
        "leaves" => leaves(history, out),
        _ => match Rev::parse(rest.as_bytes()) {
            Some(rev) => tell_of(asked.alloc, history, verb, &rev, out),
            None => Err(NO_REVISION),
        },
    }
}

/// Adds the leaves of a history, which its copy has too.
fn leaves(history: &History, out: &mut String) -> Result<(), RowsFault> {
    let leaves = history.leaves()?;
    if history.copy()?.leaves()?.as_slice() != leaves.as_slice() {
        return Err(RowsFault::Refused("the copy has others"));
    }
    put_revs(&leaves, out)
}

/// Adds what a history says of one revision.
fn tell_of(
    alloc: Global,
    history: &History,
    verb: &str,
    rev: &Rev,
    out: &mut String,
) -> Result<(), RowsFault> {
    match verb {
        "chain" => match history.chain(rev)? {
            Some(path) => put_revs(&path, out),
            None => put("none", out),
        },
        "body" => match history.body(rev) {
            Some((deleted, body)) => {
                out.push_str(if deleted { "deleted " } else { "" })?;
                put_value(alloc, body, out)
            }
            None => put("none", out),
        },
        "state" => put(state_of(history, rev), out),
        _ => Err(RowsFault::Refused("insert, winner, leaves, chain, body or state")),
    }
}

/// Tells whether a revision is known, and whether it is a leaf.
fn state_of(history: &History, rev: &Rev) -> &'static str {
    match (history.knows(rev), history.is_leaf(rev)) {
        (true, true) => "leaf",
        (true, false) => "inner",
        (false, false) => "unknown",
        (false, true) => "unknown leaf",
    }
}

/// Adds revisions, with blanks between them.
fn put_revs(revs: &[Rev], out: &mut String) -> Result<(), RowsFault> {
    for rev in revs {
        write!(out, "{rev} ")?;
    }
    out.pop();
    Ok(())
}
