//! The cells of rows.

ghost use Rattle.std.specs.Prelude.{◌≡◌, ◌≢◌, ◌<◌, ◌^◌, ℕ, ℤ, pos, List, MatchOption};
ghost use Rattle.sqlite_value.specs.Order.{column};
ghost use Rattle.sqlite_value.specs.declared.value.Value.TheVariants.{Blob, Int, Text};

use sqlite::Row;
use sqlite_value::value::ValueRef;

/// Returns the whole number in a cell, if there is one.
pub(crate) fn whole_at(row: &Row, at: usize) -> Option<i64>
    ensures { MatchOption result ((n : ℤ) → column row.now at ≢ Int n) (λ n. column row.now at ≡ Int n) }
{
    match row.get_ref(at) {
        Ok(ValueRef::Int(number)) => Some(number),
        _ => None,
    }
}

/// Returns the bytes in a cell, if it has any.
pub(crate) fn blob_at(row: &Row, at: usize) -> Option<&[u8]>
    ensures { MatchOption result ((b : List ℕ) → column row.now at ≢ Blob b) (λ b. column row.now at ≡ Blob b.now) }
{
    match row.get_ref(at) {
        Ok(ValueRef::Blob(bytes)) => Some(bytes),
        _ => None,
    }
}

/// Returns the text in a cell, if there is one.
pub(crate) fn text_at(row: &Row, at: usize) -> Option<&[u8]>
    ensures { MatchOption result ((t : List ℕ) → column row.now at ≢ Text t) (λ t. column row.now at ≡ Text t.now) }
{
    match row.get_ref(at) {
        Ok(ValueRef::Text(text)) => Some(text),
        _ => None,
    }
}

/// Returns the number in a cell, if there is one that is not negative.
pub(crate) fn count_at(row: &Row, at: usize) -> Option<u64>
    ensures { MatchOption result ((n : ℕ) → column row.now at ≢ Int (pos n)) (λ n. (column row.now at ≡ Int (pos n)) × (n < 2 ^ 63)) }
{
    match row.get_ref(at) {
        Ok(ValueRef::Int(number)) if number >= 0 => Some(number as u64),
        _ => None,
    }
}
