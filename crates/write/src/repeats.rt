//! Which of several documents have an `_id` that comes again.

ghost use Rattle.std.specs.Prelude.{◌≡◌, ◌||◌, ◌++◌, ◌∷◌, [], IfOk, OnOk, List, ℕ, codes, map as list_map, option_copied, reverse};
ghost use Rattle.couch_json.specs.View.{view};
ghost use Rattle.write.specs.Document.{is_same_text, member_text};
ghost use Rattle.write.specs.inner.Repeats.{has_text, has_text_if_any, repeats};

use couch_json::{Got, Json};
use std::alloc::Global;
use std::collections::BTreeSet;

/// Marks each document, the last one first, by whether one behind it has its `_id`.
pub(crate) fn mark_repeats(alloc: Global, documents: &[Json]) -> Got<Vec<bool>>
    ensures { IfOk result (λ marks. marks.items ≡ reverse (repeats (list_map view documents.now))) }
{
    let mut texts = BTreeSet::new(alloc);
    let mut marks = Vec::with_capacity(alloc, documents.len())?;
    for at in (0..documents.len()).rev() {
        marks.push(put_text(&mut texts, &documents[at])?)?;
    }
    Ok(marks)
}

/// Puts the `_id` of a document in, if it is a text, and tells whether it was in already.
fn put_text<'a>(texts: &mut BTreeSet<&'a str>, document: &'a Json) -> Got<bool>
    ensures found { IfOk result (λ found. found ≡ has_text_if_any texts.old (member_text (codes "_id") (view document.now))) }
    ensures put { OnOk result ((text : List ℕ) → has_text texts.new text
        ≡ (is_same_text text (member_text (codes "_id") (view document.now)) || has_text texts.old text)) }
{
    let Some(text) = find_text(document) else {
        return Ok(false);
    };
    let added = texts.insert(text)?;
    Ok(!added)
}

/// Finds the `_id` of a document, if it is a text.
fn find_text(document: &Json) -> Option<&str>
    ensures { option_copied result ≡ member_text (codes "_id") (view document.now) }
{
    document.member("_id")?.text()
}

/// Takes the last mark out.
pub(crate) fn take_mark(marks: &mut Vec<bool>) -> bool
    ensures { (front : _) (mark : _) → marks.old.items ≡ front ++ mark ∷ [] → (result ≡ mark) × (marks.new.items ≡ front) }
{
    marks.pop().unwrap_or(true)
}
