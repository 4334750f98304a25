ghost use Rattle.std.specs.Prelude.{◌≡◌, ◌↔◌, ◌==◌, false, List, ℕ, IfOk, IsErrOf, IsTrue, string_bytes};
ghost use Rattle.std.specs.List.{list_all};
ghost use Rattle.std.specs.Coded.{coded_list, coded_ℕ};
ghost use Rattle.std.proofs.Common.{rules};
ghost use Rattle.std.specs.Cmp.{partial_order_from_own_ties};
ghost use Rattle.std.specs.Cmp.Rules.{comparing};
ghost use Rattle.std.specs.Cmp.Lexicographic.{pointwise, slice_cmp};
ghost use Rattle.std.specs.Ordering.{as_partial_cmp, nat_cmp};
ghost use Rattle.store.specs.DatabaseName.{is_database_name, is_lower_case, is_name_byte, is_sign};

use couch_json::{Got, Malformed};
use std::alloc::Global;
use std::cmp::Ordering;
use std::marker::Model;

/// Why a text was refused as the name of a database. One without the form does not begin with a lower-case letter,
/// has another byte than `a-z 0-9 _ $ ( ) + -`, or is longer than 64 bytes.
pub type NameFault = Malformed;

/// The name of a database: a lower-case letter followed by `a-z 0-9 _ $ ( ) + -`, at most 64 bytes.
///
/// See the CouchDB manual, api/database/common.
#[derive(Debug)]
pub struct DbName {
    text: String,
}

// Written out, so that callers do not prove again how each part is dropped.
impl Drop for DbName {
    fn drop(self) {
        let DbName { text: _ } = self;
    }
}

impl Model for DbName {
    ghost Value = { List ℕ };

    ghost coded = { coded_list coded_ℕ };

    ghost view = { λ n. string_bytes n.text };

    ghost invariant = { λ n. IsTrue (is_database_name (string_bytes n.text)) };
}

impl DbName {
    /// Makes the name that a text spells.
    ///
    /// `Shape` comes if and only if the text is no name; it is looked for before memory is taken.
    pub fn new(alloc: Global, text: &str) -> Result<DbName, NameFault>
        ensures ok { IfOk result (λ name. name ≡ text.now) }
        ensures shape { IsErrOf result Malformed.Shape ↔ (is_database_name text.now ≡ false) }
    {
        if !is_database_name(text.as_bytes()) {
            return Err(NameFault::Shape);
        }
        let text = String::from_str(alloc, text)?;
        Ok(DbName { text })
    }

    /// Returns the text of the name.
    pub fn as_str(&self) -> &str
        ensures text { result.now ≡ self.now }
        ensures lawful { IsTrue (is_database_name self.now) }
    {
        self.text.as_str()
    }

    /// Makes an equal name of its own.
    pub fn copy(&self, alloc: Global) -> Got<DbName>
        ensures { IfOk result (λ name. name ≡ self.now) }
    {
        let text = String::from_str(alloc, self.text.as_str())?;
        Ok(DbName { text })
    }
}

impl PartialEq for DbName {
    ghost eq = { pointwise ◌==◌ };

    ghost laws = { Prim.search (comparing, rules) };

    fn eq(&self, other: &DbName) -> bool {
        self.text.as_bytes() == other.text.as_bytes()
    }
}

impl Eq for DbName {
    ghost laws = { Prim.search (comparing, rules) };
}

/// In the order of their bytes.
impl Ord for DbName {
    ghost cmp = { slice_cmp nat_cmp };

    ghost total = { Prim.search (comparing, rules) };

    ghost matches_partial_cmp = { Prim.search (comparing, rules) };

    ghost matches_eq = { Prim.search (comparing, rules) };

    fn cmp(&self, other: &DbName) -> Ordering {
        self.text.as_bytes().cmp(other.text.as_bytes())
    }
}

impl PartialOrd for DbName {
    ghost partial_cmp = { as_partial_cmp (slice_cmp nat_cmp) };

    ghost laws = { partial_order_from_own_ties (Prim.search (comparing, rules)) (Prim.search (comparing, rules)) };

    fn partial_cmp(&self, other: &DbName) -> Option<Ordering> {
        Some(self.cmp(other))
    }
}

/// Returns whether the bytes may name a database: whether [`DbName::new`] takes them.
pub fn is_database_name(text: &[u8]) -> bool
    ensures { result ≡ is_database_name text.now }
{
    match text.first() {
        Some(first) => is_lower_case(*first) && text.len() <= 64 && are_name_bytes(text),
        None => false,
    }
}

fn are_name_bytes(text: &[u8]) -> bool
    ensures { result ≡ list_all is_name_byte text.now }
{
    for byte in text {
        if !is_name_byte(*byte) {
            return false;
        }
    }
    true
}

fn is_lower_case(byte: u8) -> bool
    ensures { result ≡ is_lower_case byte }
{
    byte >= b'a' && byte <= b'z'
}

fn is_name_byte(byte: u8) -> bool
    ensures { result ≡ is_name_byte byte }
{
    is_lower_case(byte) || byte >= b'0' && byte <= b'9' || is_sign(byte)
}

/// Tells whether a byte is one of `_ $ ( ) + -`.
fn is_sign(byte: u8) -> bool
    ensures { result ≡ is_sign byte }
{
    matches!(byte, b'_' | b'$' | b'(' | b')' | b'+' | b'-')
}
