//! What holds of the definitions alone: each law is the contract of a function that does nothing.
ghost use Rattle.std.specs.Prelude.{◌≡◌, ◌≤◌, ◌++◌, [], ◌∷◌, ℕ, List, false, true, not, ◌&&◌, Some, Ok};
ghost use Rattle.serde_json.specs.Data.{Data};
ghost use Rattle.serde_json.specs.Read.{read};
ghost use Rattle.std.specs.Cmp.{IsTotalOrder};
ghost use Rattle.std.specs.Cmp.Lexicographic.{slice_cmp};
ghost use Rattle.std.specs.Ordering.{is_ge, is_gt, nat_cmp, ordering_then};
ghost use Rattle.couch_json.specs.Canonical.{canonical};
ghost use Rattle.couch_json.specs.Collation.{collation};
ghost use Rattle.couch_json.specs.FieldPath.{CanBeJoined, names_in, path_text};
ghost use Rattle.couch_json.specs.Key.{key};
ghost use Rattle.couch_json.specs.KeyCuts.{bound_above_all, bound_after, bound_after_prefix, bound_before, bound_below_all, extends_key, lies_above_cut};
ghost use Rattle.couch_json.specs.Lawful.{IsLawful};
ghost use Rattle.couch_json.specs.Nesting.{max_open, nests_too_deep};
ghost use Rattle.couch_json.specs.Reading.{reading, data_read_within};
ghost use Rattle.couch_json.specs.Value.{Value, Items, array, depth};
ghost use Rattle.couch_json.specs.View.{view};

use crate::value::Json;
use crate::walking::walk_value;
use std::cmp::Ordering;

/// The canonical text of a lawful value at most 110 deep reads as that value.
pub fn canonical_text_reads_back()
    ensures { (v : Value) → IsLawful v → depth v ≤ max_open → reading (canonical v) ≡ Ok v }
{}

/// What the canonical text of a lawful value reads as is that value.
pub fn what_is_read_is_the_value()
    ensures { (v w : Value) → IsLawful v → reading (canonical v) ≡ Ok w → v ≡ w }
{}

/// Lawful values with one canonical text are equal.
pub fn canonical_text_is_of_one_value()
    ensures { (v w : Value) → IsLawful v → IsLawful w → canonical v ≡ canonical w → v ≡ w }
{}

/// The limit that serde_json itself sets on nesting refuses no text that passes the test for
/// depth: what it would read with any other limit, it reads.
pub fn own_limit_of_serde_json_never_shows(bytes: &[u8])
    ensures { nests_too_deep bytes.now ≡ false → (limit : ℕ) (d : Data)
        → data_read_within limit bytes.now ≡ Some d → read bytes.now ≡ Some d }
{}

/// Every value is lawful: its numbers are in range, its texts are UTF-8, and the names of each
/// object ascend. It walks the value, since the names of a map are known to ascend where it is
/// walked, and does nothing else.
pub fn every_value_is_lawful(value: &Json)
    ensures { IsLawful (view value.now) }
{
    walk_value(value);
}

/// The order of values is total: the other way round it answers the reverse, it goes on from one
/// value over a second to a third, and values that tie are in the same order to every other.
pub fn collation_is_a_total_order()
    ensures { IsTotalOrder collation }
{}

/// Values that tie in the order are equal.
pub fn ties_are_equal_values()
    ensures { (v w : Value) → collation v w ≡ Ordering.Equal → v ≡ w }
{}

/// A field path is its names joined by dots, each with its dots behind a backslash.
pub fn path_is_its_names_joined_by_dots()
    ensures { (path : List ℕ) → path_text (names_in path) ≡ path }
{}

/// Its names can be joined so, and of all names that can be there are no others of the same text.
pub fn names_of_a_path_are_the_only_ones()
    ensures joined { (path : List ℕ) → CanBeJoined (names_in path) }
    ensures only { (names : List (List ℕ)) → CanBeJoined names → names_in (path_text names) ≡ names }
{}

/// Two keys with bytes behind them are in the order of their values, and in that of the bytes
/// behind them only where the values tie.
pub fn keys_with_bytes_behind_them_are_in_order()
    ensures { (v w : Value) (r s : List ℕ) → IsLawful v → IsLawful w
        → slice_cmp nat_cmp (key v ++ r) (key w ++ s)
        ≡ ordering_then (collation v w) (slice_cmp nat_cmp r s) }
{}

/// Keys are in order of their bytes as their values are.
pub fn keys_are_in_order()
    ensures { (v w : Value) → IsLawful v → IsLawful w
        → slice_cmp nat_cmp (key v) (key w) ≡ collation v w }
{}

/// No key begins the key of another value. So values of one key are equal.
pub fn no_key_begins_another()
    ensures begin { (v w : Value) (rest : List ℕ) → IsLawful v → IsLawful w
        → key v ++ rest ≡ key w → v ≡ w }
    ensures equal { (v w : Value) → IsLawful v → IsLawful w → key v ≡ key w → v ≡ w }
{}

/// Tells which keys lie above a cut: before `k` those of `k` and of what is greater; after `k`
/// those of what is greater; after the prefix `k` those of what is greater and no array that
/// begins with the elements of `k`. Below all and above all there are no keys.
pub fn keys_lie_above_cuts()
    ensures below_all { (v : Value) → lies_above_cut bound_below_all (key v) ≡ true }
    ensures above_all { (v : Value) → lies_above_cut bound_above_all (key v) ≡ false }
    ensures before { (v k : Value) → IsLawful v → IsLawful k
        → lies_above_cut (bound_before k) (key v) ≡ is_ge (collation v k) }
    ensures after { (v k : Value) → IsLawful v → IsLawful k
        → lies_above_cut (bound_after k) (key v) ≡ is_gt (collation v k) }
    ensures after_prefix { (v k : Value) → IsLawful v → IsLawful k
        → lies_above_cut (bound_after_prefix k) (key v)
        ≡ is_gt (collation v k) && not (extends_key k v) }

    // The bound after a prefix has 8 in place of the byte 0 that its key ends in.
    ensures made { (vs : Items) (front : List ℕ) → key (array vs) ≡ front ++ 0 ∷ []
        → bound_after_prefix (array vs) ≡ front ++ 8 ∷ [] }
{}
