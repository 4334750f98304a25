ghost use Rattle.std.specs.Cmp.{IsTotalOrder, eq_by_cmp_equiv, partial_equiv_from_equiv, partial_order_from_total};
ghost use Rattle.std.specs.Prelude.{◌≡◌, refl};
ghost use Rattle.std.specs.Ordering.{as_partial_cmp, eq_by_cmp};
ghost use Rattle.couch_json.specs.View.{view};
ghost use Rattle.store.specs.Indexes.{place_order};
ghost use Rattle.store.specs.PlaceOrder.{place_order_total};

use crate::listing::RowCounts;
use couch_json::{Json, collate};
use std::cmp::Ordering;
use std::marker::Model;
use tree::DocId;

/// A key of an index, or one that a cut names. In clauses it is the pure value.
#[derive(Drop)]
pub struct IndexKey {
    json: Json,
}

impl Model for IndexKey {
    ghost use Rattle.couch_json.specs.Value.{Value as JsonValue};
    ghost use Rattle.couch_json.specs.Code.{value_code};

    ghost Value = { JsonValue };

    ghost coded = { value_code };

    ghost use Rattle.couch_json.specs.View.{view as value_of};

    ghost view = { λ k. value_of k.json };
}

impl IndexKey {
    /// Makes the key that a JSON value is.
    pub fn new(json: Json) -> IndexKey
        ensures { result ≡ view json }
    {
        IndexKey { json }
    }

    /// Returns the JSON value.
    pub fn json(&self) -> &Json
        ensures { view result.now ≡ self.now }
    {
        &self.json
    }
}

/// On which side of a key a cut lies.
#[derive(Clone, Copy, Debug, PartialEq, Eq)]
pub enum CutSide {
    /// Before the key: it and greater ones lie above.
    Before = 1,
    /// After the key: greater ones lie above.
    After = 2,
    /// After the key, an array, and all that begin with its elements: of the greater ones those lie
    /// above that begin otherwise.
    AfterPrefix = 3,
}

/// A cut between the keys of an index.
#[derive(Drop)]
pub struct KeyCut {
    /// The key that the cut lies at.
    pub key: IndexKey,
    /// On which side of it.
    pub side: CutSide,
}

/// Which rows of an index are wanted.
#[derive(Drop)]
pub struct KeyRange {
    /// Rows whose keys lie above this cut; `None` for all.
    pub low: Option<KeyCut>,
    /// Rows whose keys don't lie above this cut; `None` for all.
    pub high: Option<KeyCut>,
    /// Whether the listing goes down.
    pub descending: bool,
    /// How many rows of the range are left out, from its start in the direction of the listing.
    pub skip: u64,
    /// At most so many rows; `None` for all.
    pub limit: Option<u64>,
    /// Whether the rows outside of the page are to be counted, which costs a walk over all of them.
    pub counted: bool,
}

/// A row of an index: a document, at the array of its values at the fields.
///
/// Rows go by their keys (CouchDB manual, ddocs/views/collation), and by the bytes of the ids where
/// keys tie.
pub struct KeyRow {
    key: IndexKey,
    id: DocId,
}

// Written out, so that callers do not prove again how each part is dropped.
impl Drop for KeyRow {
    fn drop(self) {
        let KeyRow { key: _, id: _ } = self;
    }
}

impl Model for KeyRow {
    ghost use Rattle.store.specs.Indexes.{IndexPlace, place_code};

    ghost Value = { IndexPlace };

    ghost coded = { place_code };

    ghost view = { λ r. record { key = r.key; id = r.id } };
}

impl KeyRow {
    /// Makes the row of a document at a key.
    pub fn new(key: IndexKey, id: DocId) -> KeyRow
        ensures { result ≡ record { key = key; id = id } }
    {
        KeyRow { key, id }
    }

    /// Returns the key.
    pub fn key(&self) -> &IndexKey
        ensures { result.now ≡ self.now.key }
    {
        &self.key
    }

    /// Returns the id of the document.
    pub fn id(&self) -> &DocId
        ensures { result.now ≡ self.now.id }
    {
        &self.id
    }

    fn compare(&self, other: &KeyRow) -> Ordering
        ensures { result ≡ place_order self.now other.now }
    {
        match collate(self.key.json(), other.key.json()) {
            Ordering::Equal => self
                .id
                .as_str()
                .as_bytes()
                .cmp(other.id.as_str().as_bytes()),
            order => order,
        }
    }
}

impl PartialEq for KeyRow {
    ghost eq = { eq_by_cmp place_order };

    ghost laws = { partial_equiv_from_equiv (eq_by_cmp_equiv place_order_total) };

    fn eq(&self, other: &KeyRow) -> bool {
        self.compare(other).is_eq()
    }
}

impl Eq for KeyRow {
    ghost laws = { eq_by_cmp_equiv place_order_total };
}

impl Ord for KeyRow {
    ghost cmp = { place_order };

    ghost total = { place_order_total };

    ghost matches_partial_cmp = { λ x y. refl };

    ghost matches_eq = { λ x y. refl };

    fn cmp(&self, other: &KeyRow) -> Ordering {
        self.compare(other)
    }
}

impl PartialOrd for KeyRow {
    ghost partial_cmp = { as_partial_cmp place_order };

    ghost laws = { partial_order_from_total place_order_total };

    fn partial_cmp(&self, other: &KeyRow) -> Option<Ordering> {
        Some(self.compare(other))
    }
}

/// A part of the rows of an index.
///
/// See the CouchDB manual, api/ddoc/views.
pub struct PageByKey {
    /// The rows, in the direction asked for.
    pub rows: Vec<KeyRow>,
    /// Where they stand in the whole index, where that was asked for: `offset` rows come before the
    /// first of them, and it has `total`.
    pub counts: Option<RowCounts>,
}

// Written out, so that callers do not prove again how each part is dropped.
impl Drop for PageByKey {
    fn drop(self) {
        let PageByKey { rows: _, counts: _ } = self;
    }
}
