ghost use Rattle.std.specs.Prelude.{◌≡◌, ◌≢◌, ℕ, ◌+◌, ◌-◌, ◌≤◌, false, List, [], ◌++◌, length, replicate, Option};
ghost use Rattle.std.specs.Prelude.{Some, None, IfOk, IsTrue, MatchOption, string_bytes};
ghost use Rattle.std.proofs.Common.{rules};
ghost use Rattle.std.specs.Cmp.{partial_order_from_own_ties, partial_equiv_from_equiv};
ghost use Rattle.std.specs.Cmp.Rules.{comparing};
ghost use Rattle.std.specs.Cmp.Lexicographic.{pointwise, slice_cmp};
ghost use Rattle.std.specs.Ordering.{nat_cmp, on, then_cmp, as_partial_cmp, eq_of_both};
ghost use Rattle.std.specs.Prelude.{◌==◌};
ghost use Rattle.std.specs.List.{after_first, before_first, list_all, position};
ghost use Rattle.std.specs.Char.{is_ascii_alphanumeric};
ghost use Rattle.tree.specs.Revision.{Revision, is_dash, is_hash, is_number_text, is_revision, number_read, revision_of, revision_read, text_of};

use couch_json::Got;
use std::alloc::Global;
use std::cmp::Ordering;
use std::marker::Model;
use std::{fmt, str};

/// A revision of a document: its number and its hash, written `N-hash`.
///
/// The number is 1 to 2,147,483,647, the hash 1 to 64 ASCII letters or digits. Revisions are
/// ordered by number, and then by the bytes of the hash. See the CouchDB manual,
/// api/document/common and replication/conflicts.
#[derive(Clone, Copy)]
pub struct Rev {
    number: u32,
    len: u8,
    bytes: [u8; 64],
}

impl Model for Rev {
    ghost use Rattle.tree.specs.Revision.{Revision, revision_code};

    ghost Value = { Revision };

    ghost coded = { revision_code };

    ghost use Rattle.tree.specs.KeptRevision.{kept, spread, IsKept, spread-kept};

    ghost view = { kept };

    ghost invariant = { IsKept };

    ghost inverse = { spread };

    ghost inverse_ok = { spread-kept };
}

impl Rev {
    /// Reads the revision that a text spells, if it spells one.
    pub fn parse(text: &[u8]) -> Option<Rev>
        ensures value { result ≡ revision_read text.now }
        ensures exact { MatchOption result ((r : Revision) → IsTrue (is_revision r) → text_of r ≢ text.now)
            (λ r. IsTrue (is_revision r) × (text_of r ≡ text.now)) }
    {
        Rev::read(text)
    }

    /// Makes the revision of a number and a hash, if they make one.
    pub fn new(number: u32, hash: &str) -> Option<Rev>
        ensures { result ≡ revision_of number hash.now }
    {
        if number < 1 || number > 2_147_483_647 {
            return None;
        }
        if !is_hash(hash.as_bytes()) {
            return None;
        }
        Some(Rev::from_parts(number, hash.as_bytes()))
    }

    /// Returns its number, the count of edits that lead to it.
    pub fn number(&self) -> u32
        ensures value { result ≡ self.now.number }
        ensures lawful { IsTrue (is_revision self.now) }
    {
        self.number
    }

    /// Returns its hash, 1 to 64 ASCII letters or digits.
    pub fn hash(&self) -> &str
        ensures value { result.now ≡ self.now.hash }
        ensures lawful { IsTrue (is_revision self.now) }
    {
        str::from_utf8(self.hash_bytes()).unwrap()
    }

    /// Returns the text that spells it.
    pub fn text(&self, alloc: Global) -> Got<String>
        ensures { IfOk result (λ text. string_bytes text ≡ text_of self.now) }
    {
        Ok(self.to_string(alloc)?)
    }

    fn read(text: &[u8]) -> Option<Rev>
        ensures { result ≡ revision_read text.now }
    {
        let (digits, hash) = halves(text)?;
        let number = number_read(digits)?;
        if !is_hash(hash) {
            return None;
        }
        Some(Rev::from_parts(number, hash))
    }

    /// Makes the revision of a number and a hash.
    pub(crate) fn from_parts(number: u32, hash: &[u8]) -> Rev
        requires { IsTrue (is_revision (record { number = number; hash = hash.now })) }
        ensures { result ≡ record { number = number; hash = hash.now } }
    {
        Rev {
            number,
            len: hash.len() as u8,
            bytes: pad(hash),
        }
    }

    fn hash_bytes(&self) -> &[u8]
        ensures value { result.now ≡ self.now.hash }
        ensures lawful { IsTrue (is_revision self.now) }
    {
        &self.bytes[..self.len as usize]
    }
}

/// Writes the text that spells it, as [`Rev::text`] gives it.
impl fmt::Display for Rev {
    ghost output = { λ r. Some (text_of r) };

    fn fmt<W: fmt::Write>(&self, f: &mut fmt::Formatter<W>) -> fmt::Result {
        let number = self.number;
        let hash = self.hash();
        write!(f, "{number}-{hash}")
    }
}

impl fmt::Debug for Rev {
    fn fmt<W: fmt::Write>(&self, f: &mut fmt::Formatter<W>) -> fmt::Result {
        write!(f, "{self}")
    }
}

impl PartialEq for Rev {
    ghost eq = { eq_of_both (on (λ r. r.number) ◌==◌) (on (λ r. r.hash) (pointwise ◌==◌)) };

    ghost laws = { Prim.search (comparing, rules) };

    fn eq(&self, other: &Rev) -> bool {
        self.number == other.number && self.hash_bytes() == other.hash_bytes()
    }
}

impl Eq for Rev {
    ghost laws = { Prim.search (comparing, rules) };
}

impl Ord for Rev {
    ghost cmp = { then_cmp (on (λ r. r.number) nat_cmp) (on (λ r. r.hash) (slice_cmp nat_cmp)) };

    ghost total = { Prim.search (comparing, rules) };

    ghost matches_partial_cmp = { Prim.search (comparing, rules) };

    ghost matches_eq = { Prim.search (comparing, rules) };

    fn cmp(&self, other: &Rev) -> Ordering {
        match self.number.cmp(&other.number) {
            Ordering::Equal => self.hash_bytes().cmp(other.hash_bytes()),
            order => order,
        }
    }
}

impl PartialOrd for Rev {
    ghost partial_cmp = { as_partial_cmp (then_cmp (on (λ r. r.number) nat_cmp) (on (λ r. r.hash) (slice_cmp nat_cmp))) };

    ghost laws = { partial_order_from_own_ties (Prim.search (comparing, rules)) (Prim.search (comparing, rules)) };

    fn partial_cmp(&self, other: &Rev) -> Option<Ordering> {
        Some(self.cmp(other))
    }
}

/// Tells what stands before the first dash, and what stands behind it.
fn halves(text: &[u8]) -> Option<(&[u8], &[u8])>
    ensures { MatchOption result (after_first is_dash text.now ≡ [])
        (λ h. (h.0.now ≡ before_first is_dash text.now) × (h.1.now ≡ after_first is_dash text.now)) }
{
    let dash = dash_place(text)?;
    Some((&text[..dash], &text[dash + 1..]))
}

fn dash_place(text: &[u8]) -> Option<usize>
    ensures { result ≡ position is_dash text.now }
{
    text.iter().position(|b| *b == b'-')
}

/// Returns the number that a numeral without a leading zero writes, from 1 to 2,147,483,647.
fn number_read(digits: &[u8]) -> Option<u32>
    ensures { result ≡ number_read digits.now }
{
    if digits.is_empty() {
        return None;
    }
    if digits[0] < b'1' {
        return None;
    }
    let Ok(text) = str::from_utf8(digits) else {
        return None;
    };
    let Ok(number) = text.parse::<u32>() else {
        return None;
    };
    if number > 2_147_483_647 {
        return None;
    }
    Some(number)
}

fn is_hash(hash: &[u8]) -> bool
    ensures { result ≡ is_hash hash.now }
{
    !hash.is_empty() && hash.len() <= 64 && is_alphanumeric(hash)
}

fn is_alphanumeric(bytes: &[u8]) -> bool
    ensures { result ≡ list_all is_ascii_alphanumeric bytes.now }
{
    bytes.iter().all(|b| b.is_ascii_alphanumeric())
}

/// Returns up to 64 bytes, with zeros behind them.
fn pad(hash: &[u8]) -> [u8; 64]
    requires { length hash.now ≤ 64 }
    ensures { result ≡ hash.now ++ replicate (64 - length hash.now) 0 }
{
    let mut bytes = [0; 64];
    for (i, b) in hash.iter().enumerate() {
        bytes[i] = *b;
    }
    bytes
}
