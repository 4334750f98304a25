ghost use Rattle.std.specs.Prelude.{◌≡◌, [], IfErr, IfOk, IsTrue, OnErr, OnOk, None, ◌↔◌, length, string_bytes, string_cmp};
ghost use Rattle.std.specs.BTreeMap.{insert_entry, is_at};
ghost use Rattle.std.specs.Fn.{CalledAt};
ghost use Rattle.std.specs.List.Retain.{IsFiltered};
ghost use Rattle.std.specs.List.Sorted.{IsStrictlySortedBy};
ghost use Rattle.std.specs.Map.{keys_of, lookup, remove_entry};
ghost use Rattle.std.specs.Option.{option_copied};
ghost use Rattle.name_map.specs.Places.{FitsAt, StandsAt, entry_order, order};

use std::alloc::{AllocError, Global};
use std::cmp::Ordering;
use std::marker::Model;
use std::mem;

/// A map from names to values. It holds them in one list, in byte order of the names, so that a map of
/// one name takes little memory.
#[derive(Debug)]
pub struct NameMap<V> {
    entries: Vec<(String, V)>,
}

// Written out, so that callers do not prove again how each part is dropped.
impl<V: Drop> Drop for NameMap<V> {
    fn drop(self) {
        let NameMap { entries: _ } = self;
    }
}

impl<V> Model for NameMap<V> {
    ghost use Rattle.std.specs.Prelude.{string_cmp};
    ghost use Rattle.std.specs.List.Sorted.{IsStrictlySortedBy};
    ghost use Rattle.std.specs.Map.{keys_of};
    ghost use Rattle.name_map.specs.Seen.{NameMap as Seen, name_map_code};

    ghost Value = { Seen V };

    ghost coded = { name_map_code V.code };

    ghost view = { λ m. record { entries = m.entries.items } };

    ghost invariant = { λ m. IsStrictlySortedBy string_cmp (keys_of m.entries.items) };
}

// Two maps are equal if and only if they have the same names with equal values.
impl<V: PartialEq> PartialEq for NameMap<V> {
    ghost use Rattle.std.specs.Prelude.{◌&&◌, string_eq};
    ghost use Rattle.std.specs.Cmp.{and_per, on_per, partial_equiv_from_equiv};
    ghost use Rattle.std.specs.Cmp.Lexicographic.{lists_per, pointwise};
    ghost use Rattle.std.specs.String.{string_eq_equiv};

    ghost eq = { λ m n. pointwise (λ p q. string_eq p.0 q.0 && V.eq p.1 q.1) m.entries n.entries };

    ghost laws = { on_per (λ m. m.entries) (lists_per (and_per (on_per (λ p. p.0) (partial_equiv_from_equiv string_eq_equiv)) (on_per (λ p. p.1) V.laws))) };

    fn eq(&self, other: &NameMap<V>) -> bool {
        self.entries == other.entries
    }
}

impl<V> NameMap<V> {
    /// Makes the map that has no names.
    pub fn new(alloc: Global) -> NameMap<V>
        ensures { result.entries ≡ [] }
    {
        NameMap {
            entries: Vec::new(alloc),
        }
    }

    /// Makes a map that has no names, and room for so many.
    pub fn with_capacity(alloc: Global, capacity: usize) -> Result<NameMap<V>, AllocError>
        ensures { IfOk result (λ made. made.entries ≡ []) }
    {
        Ok(NameMap {
            entries: Vec::with_capacity(alloc, capacity)?,
        })
    }

    /// Returns how many names the map has.
    pub fn len(&self) -> usize
        ensures { result ≡ length self.now.entries }
    {
        self.entries.len()
    }

    /// Tests whether the map has no names.
    pub fn is_empty(&self) -> bool
        ensures { IsTrue result ↔ (self.now.entries ≡ []) }
    {
        self.entries.is_empty()
    }

    /// Returns the names with their values, in byte order of the names.
    pub fn as_slice(&self) -> &[(String, V)]
        ensures entries { result.now ≡ self.now.entries }
        ensures ordered { IsStrictlySortedBy string_cmp (keys_of self.now.entries) }
    {
        self.entries.as_slice()
    }

    /// Returns the value of this name, if the map has the name.
    pub fn get(&self, name: &str) -> Option<&V>
        ensures { option_copied result ≡ lookup (is_at (order name.now)) self.now.entries }
    {
        match self.find(name) {
            Ok(at) => Some(&self.entries[at].1),
            Err(_at) => None,
        }
    }

    /// Finds where a name stands, or else where it would stand.
    fn find(&self, name: &str) -> Result<usize, usize>
        ensures stands { IfOk result (λ at. StandsAt name.now self.now.entries at) }
        ensures fits { IfErr result (λ at. FitsAt name.now self.now.entries at) }
    {
        self.entries.binary_search_by(
            |entry: &(String, V)| -> Ordering
                ensures { result ≡ entry_order name.entry.now entry.now }
            { entry.0.as_str().cmp(name) },
        )
    }
}

impl<V: Drop> NameMap<V> {
    /// Puts a value at a name, and returns the value that was there. The name that was there stays. In
    /// order of the names this takes little time; else it moves all that stand behind it.
    ///
    /// After a refusal the map is as it was.
    pub fn insert(&mut self, name: String, value: V) -> Result<Option<V>, AllocError>
        ensures old { IfOk result (λ old. old ≡ lookup (is_at (string_cmp name)) self.old.entries) }
        ensures entries { OnOk result (self.new.entries ≡ insert_entry string_cmp self.old.entries name value) }
        ensures err { OnErr result (self.new.entries ≡ self.old.entries) }
    {
        match self.find(&name) {
            Ok(at) => Ok(Some(mem::replace(&mut self.entries[at].1, value))),
            Err(at) => {
                self.entries.insert(at, (name, value))?;
                Ok(None)
            }
        }
    }

    /// Takes the value of this name out, if the map has the name.
    pub fn remove(&mut self, name: &str) -> Option<V>
        ensures value { result ≡ lookup (is_at (order name.now)) self.old.entries }
        ensures entries { self.new.entries ≡ remove_entry (is_at (order name.now)) self.old.entries }
    {
        match self.find(name) {
            Ok(at) => Some(self.entries.remove(at).1),
            Err(_at) => None,
        }
    }

    /// Keeps the entries that pass the test, and drops the others.
    pub fn retain<F: FnMut(&(String, V)) -> bool>(&mut self, keep: F)
        requires { F.IsAlwaysCallable keep }
        ensures { IsFiltered (CalledAt F.FnMut) keep self.old.entries self.new.entries }
    {
        self.entries.retain(keep);
    }
}
