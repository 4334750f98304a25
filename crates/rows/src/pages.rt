//! Rows on the pages of a store.

use crate::fault::{RowsFault, named};
use crate::playing::Asked;
use crate::texts::{first_word, put};
use crate::values::put_value;
use couch_json::read;
use std::alloc::Global;
use std::fmt::Write;
use store::{
    CutSide, DbName, IdRange, IndexKey, KeyCut, KeyRange, PageById, PageByKey, PageBySeq, RangeKey,
    SeqRange, Store,
};
use tree::DocId;

/// Adds what a store says.
///
/// `store faults`: how many faults it has met. `store reopened`: `opened`, behind which it is closed
/// and opened again. `seq NAME WORD ..`: rows by sequence, with `since N`, `limit N`, `leaves` for all
/// leaves. `id NAME WORD ..`: rows by id, with `start ID`, `end ID`, `before ID` for an end that is left
/// out, `down`, `skip N`, `limit N`. `key NAME DESIGN INDEX WORD ..`: rows of an index, with `low SIDE
/// KEY`, `high SIDE KEY`, where a side is `before`, `after` or `behind`, and the key has no blanks,
/// `down`, `skip N`, `limit N`. `uncounted` asks for no counts.
pub fn tell_store<S: Store>(
    asked: Asked<'_>,
    store: &mut S,
    out: &mut String,
) -> Result<(), RowsFault> {
    let (verb, rest) = first_word(asked.text());
    if verb == "store" {
        return put_state(store.faults(), rest, out);
    }
    let (name, words) = first_word(rest);
    let name = named(DbName::new(asked.alloc, name), out)?;
    match verb {
        "seq" => {
            let page = named(store.page_by_seq(&name, &sequence_range(words)), out)?;
            put_by_sequence(&page, out)
        }
        "id" => {
            let range = id_range(asked.alloc, words)?;
            let page = named(store.page_by_id(&name, &range), out)?;
            put_by_id(&page, out)
        }
        _ => tell_index(asked.alloc, store, &name, words, out),
    }
}

/// Adds how many faults a store has met, or that it is opened again.
fn put_state(faults: u64, what: &str, out: &mut String) -> Result<(), RowsFault> {
    match what {
        "faults" => write!(out, "{faults}")?,
        "reopened" => out.push_str("opened")?,
        _ => return Err(RowsFault::Refused("neither faults nor reopened")),
    }
    Ok(())
}

/// Adds rows of an index of a design document.
fn tell_index<S: Store>(
    alloc: Global,
    store: &mut S,
    name: &DbName,
    text: &str,
    out: &mut String,
) -> Result<(), RowsFault> {
    let (design, rest) = first_word(text);
    let (index, words) = first_word(rest);
    let design = named(DocId::new(alloc, design), out)?;
    let range = KeyRange {
        low: cut_behind(alloc, words, "low ", out)?,
        high: cut_behind(alloc, words, "high ", out)?,
        descending: has_word(words, "down"),
        skip: number_behind(words, "skip ").unwrap_or(0),
        limit: number_behind(words, "limit "),
        counted: !has_word(words, "uncounted"),
    };
    match named(store.page_by_key(name, &design, index, &range), out)? {
        Some(page) => put_by_key(alloc, &page, out),
        None => Err(RowsFault::Refused("no index")),
    }
}

/// Reads the cut behind a name, a side and a key, where one is there.
fn cut_behind(
    alloc: Global,
    words: &str,
    name: &str,
    out: &mut String,
) -> Result<Option<KeyCut>, RowsFault> {
    let Some((_, rest)) = words.split_once(name) else {
        return Ok(None);
    };
    let (side, rest) = first_word(rest);
    let (key, _) = first_word(rest);
    let side = match side {
        "before" => CutSide::Before,
        "after" => CutSide::After,
        _ => CutSide::AfterPrefix,
    };
    let key = IndexKey::new(named(read(alloc, key.as_bytes()), out)?);
    Ok(Some(KeyCut { key, side }))
}

/// Tells whether a word is among these.
fn has_word(words: &str, wanted: &str) -> bool {
    for word in words.split(' ') {
        if word == wanted {
            return true;
        }
    }
    false
}

/// Returns the word behind a name and its blank, where that is there.
fn word_behind<'a>(words: &'a str, name: &str) -> Option<&'a str> {
    let (_, rest) = words.split_once(name)?;
    Some(first_word(rest).0)
}

/// Returns the number behind a name and its blank, where there is one.
fn number_behind(words: &str, name: &str) -> Option<u64> {
    word_behind(words, name)?.parse::<u64>().ok()
}

/// Returns the word behind a name and its blank as a key, where that is there.
fn key_behind(alloc: Global, words: &str, name: &str) -> Result<Option<RangeKey>, RowsFault> {
    match word_behind(words, name) {
        Some(word) => Ok(Some(RangeKey::new(String::from_str(alloc, word)?))),
        None => Ok(None),
    }
}

/// Reads the words of a range of sequences.
fn sequence_range(words: &str) -> SeqRange {
    SeqRange {
        since: number_behind(words, "since ").unwrap_or(0),
        limit: number_behind(words, "limit "),
        all_leaves: has_word(words, "leaves"),
        counted: !has_word(words, "uncounted"),
    }
}

/// Reads the words of a range of ids.
fn id_range(alloc: Global, words: &str) -> Result<IdRange, RowsFault> {
    let inclusive_end = !has_word(words, "before");
    let end = if inclusive_end { "end " } else { "before " };
    Ok(IdRange {
        start: key_behind(alloc, words, "start ")?,
        end: key_behind(alloc, words, end)?,
        inclusive_end,
        descending: has_word(words, "down"),
        skip: number_behind(words, "skip ").unwrap_or(0),
        limit: number_behind(words, "limit "),
        counted: !has_word(words, "uncounted"),
    })
}

/// Adds a page by sequence.
fn put_by_sequence(page: &PageBySeq, out: &mut String) -> Result<(), RowsFault> {
    for row in &page.rows {
        write!(out, "{} {}", row.sequence, row.id.as_str())?;
        for rev in &row.revs {
            write!(out, " {rev}")?;
        }
        out.push_str(if row.deleted { " deleted, " } else { ", " })?;
    }
    write!(out, "last {} of {}", page.last_seq, page.sequence)?;
    if let Some(counts) = &page.counts {
        write!(
            out,
            ", {} documents, {} deleted",
            counts.documents, counts.deleted
        )?;
    }
    Ok(())
}

/// Adds a page by id.
fn put_by_id(page: &PageById, out: &mut String) -> Result<(), RowsFault> {
    for row in &page.rows {
        write!(out, "{} {}, ", row.id.as_str(), row.rev)?;
    }
    match &page.counts {
        Some(counts) => put_counts(counts.offset, counts.total, out),
        None => put("uncounted", out),
    }
}

/// Adds a page by key.
fn put_by_key(alloc: Global, page: &PageByKey, out: &mut String) -> Result<(), RowsFault> {
    for row in &page.rows {
        put_value(alloc, row.key().json(), out)?;
        write!(out, " {}, ", row.id().as_str())?;
    }
    match &page.counts {
        Some(counts) => put_counts(counts.offset, counts.total, out),
        None => put("uncounted", out),
    }
}

/// Adds how many rows stand before a page, and how many there are.
fn put_counts(offset: u64, total: u64, out: &mut String) -> Result<(), RowsFault> {
    write!(out, "offset {offset} of {total}")?;
    Ok(())
}
