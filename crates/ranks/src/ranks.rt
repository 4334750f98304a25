//! How many keys each segment of a list of ordered keys has.

ghost use Rattle.std.specs.Prelude.{◌≡◌, ◌+◌, ◌<◌, ◌≤◌, ◌^◌, ◌-◌, ◌∷◌, [], List, ℕ, false, true, get_or, length, IfOk, IfSome, OnErr, OnOk};
ghost use Rattle.ranks.specs.Counts.{AreChanges, AreRanksOf, LiesIn, before_of, before_place, below, between, count_of, head_cut};
ghost use Rattle.ranks.specs.Counts.{head_with, is_below, segments_cut, segments_with, start_of, with_key};

use std::alloc::{AllocError, Global};
use std::marker::Model;

/// The first key of a segment.
struct Key {
    bytes: Vec<u8>,
}

impl Drop for Key {
    fn drop(self) {
        let Key { bytes: _ } = self;
    }
}

impl Model for Key {
    ghost use Rattle.std.specs.Prelude.{List, ℕ};
    ghost use Rattle.std.specs.Coded.{coded_list, coded_ℕ};

    ghost Value = { List ℕ };

    ghost coded = { coded_list coded_ℕ };

    ghost view = { λ k. k.bytes.items };
}

/// Copies a key.
fn copy_key(alloc: Global, key: &[u8]) -> Result<Key, AllocError>
    ensures { IfOk result (λ copy. copy ≡ key.now) }
{
    let mut bytes = Vec::new(alloc);
    bytes.extend_from_slice(key)?;
    Ok(Key { bytes })
}

/// Bytes at which a segment begins.
#[derive(Clone, Copy, Debug)]
pub struct Boundary<'a> {
    /// The bytes.
    pub key: &'a [u8],
    /// How many keys are below them.
    pub before: usize,
}

/// What was done to a key.
#[derive(Clone, Copy, Debug)]
pub struct Change<'a> {
    /// The key.
    pub key: &'a [u8],
    /// Whether it was there before.
    pub was: bool,
    /// Whether it is there now.
    pub is: bool,
}

/// The ranks of ordered keys, by segments: `head` keys are below the first boundary, and each boundary has
/// the number of keys from it on, up to the next one.
pub struct Ranks {
    total: usize,
    head: usize,
    segments: Vec<(Key, usize)>,
}

impl Drop for Ranks {
    fn drop(self) {
        let Ranks {
            total: _,
            head: _,
            segments: _,
        } = self;
    }
}

impl Model for Ranks {
    ghost use Rattle.std.specs.Prelude.{◌≡◌, ◌<◌, ◌^◌};
    ghost use Rattle.ranks.specs.Counts.{Ascends, total_of};
    ghost use Rattle.ranks.specs.Seen.{Ranks as Seen, ranks_code};

    ghost Value = { Seen };

    ghost coded = { ranks_code };

    ghost view = { λ r. record { total = r.total; head = r.head; segments = r.segments.items } };

    ghost invariant = { λ r. Ascends r.segments.items × (r.total ≡ total_of r.head r.segments.items) × (r.total < 2 ^ 64) };
}

impl Ranks {
    /// Makes the ranks of so many keys, in one segment.
    pub fn new(alloc: Global, total: usize) -> Ranks
        ensures ranks { (keys : List (List ℕ)) → length keys ≡ total → AreRanksOf result keys }
        ensures total { result.total ≡ total }
    {
        Ranks {
            total,
            head: total,
            segments: Vec::new(alloc),
        }
    }

    /// Returns how many keys there are.
    pub fn total(&self) -> usize
        ensures field { result ≡ self.now.total }
        ensures total { (keys : List (List ℕ)) → AreRanksOf self.now keys → result ≡ length keys }
    {
        self.total
    }

    /// Returns how many segments there are behind the first one.
    pub fn boundaries(&self) -> usize
        ensures { result ≡ length self.now.segments }
    {
        self.segments.len()
    }

    /// Returns where the segment begins that a key lies in, so that the rank of the key is counted there.
    pub fn segment_of(&self, key: &[u8]) -> Boundary<'_>
        ensures starts { is_below key.now result.key.now ≡ false }
        ensures before { (keys : List (List ℕ)) → AreRanksOf self.now keys → result.before ≡ below result.key.now keys }
        ensures rank { (keys : List (List ℕ)) → AreRanksOf self.now keys → below key.now keys ≡ result.before + between result.key.now key.now keys }
    {
        let place = self.place_of(key);
        Boundary {
            key: self.start(place),
            before: self.before(place),
        }
    }

    /// Returns where the segment ends that a key lies in, so that the rank of the key is counted from there. The
    /// last segment ends nowhere.
    pub fn end_of(&self, key: &[u8]) -> Option<Boundary<'_>>
        ensures { IfSome result
            (λ end. (keys : List (List ℕ)) → AreRanksOf self.now keys → below key.now keys + between key.now end.key.now keys ≡ end.before) }
    {
        let place = self.place_of(key);
        if place >= self.segments.len() {
            return None;
        }
        Some(Boundary {
            key: self.start(place + 1),
            before: self.before(place + 1),
        })
    }

    /// Returns where the last segment begins that has more than so many keys, if there is one.
    pub fn last_longer(&self, most: usize) -> Option<Boundary<'_>>
        ensures { IfSome result (λ start. (keys : List (List ℕ)) → AreRanksOf self.now keys → start.before ≡ below start.key.now keys) }
    {
        let place = self.last_place_longer(most)?;
        Some(Boundary {
            key: self.start(place),
            before: self.before(place),
        })
    }

    /// Returns where a segment begins, at or before the key of a rank: the last such place.
    pub fn last_before(&self, rank: usize) -> Boundary<'_>
        ensures reaches { result.before ≤ rank }
        ensures before { (keys : List (List ℕ)) → AreRanksOf self.now keys → result.before ≡ below result.key.now keys }
    {
        let place = self.last_place_before(rank);
        Boundary {
            key: self.start(place),
            before: self.before(place),
        }
    }

    /// Returns where a segment ends, at or behind so many keys: the first such place. The last segment ends
    /// nowhere.
    pub fn first_behind(&self, rank: usize) -> Option<Boundary<'_>>
        ensures reaches { IfSome result (λ end. rank ≤ end.before) }
        ensures before { IfSome result (λ end. (keys : List (List ℕ)) → AreRanksOf self.now keys → end.before ≡ below end.key.now keys) }
    {
        let place = self.first_place_behind(rank)?;
        Some(Boundary {
            key: self.start(place),
            before: self.before(place),
        })
    }

    /// Counts what was done to keys, one after another. It is false where they would be too many to count;
    /// then these are the ranks of no keys.
    pub fn change_all(&mut self, changes: &[Change<'_>]) -> bool
        ensures { result ≡ true → (old new : List (List ℕ)) → AreChanges changes.now old new → AreRanksOf self.old old → AreRanksOf self.new new }
    {
        for i in 0..changes.len() {
            if self.total == usize::MAX {
                return false;
            }
            self.apply(&changes[i]);
        }
        true
    }

    /// Counts what was done to one key.
    fn apply(&mut self, change: &Change<'_>)
        requires { self.old.total < 2 ^ 64 - 1 }
        ensures { (others : List (List ℕ)) → AreRanksOf self.old (with_key change.now.was change.now.key.now others)
            → AreRanksOf self.new (with_key change.now.is change.now.key.now others) }
    {
        self.change(change.key, change.was, change.is);
    }

    /// Counts what a change did to one key: whether it was there before, and whether it is there now.
    pub fn change(&mut self, key: &[u8], was: bool, is: bool)
        requires { self.old.total < 2 ^ 64 - 1 }
        ensures { (rest : List (List ℕ)) → AreRanksOf self.old (with_key was key.now rest) → AreRanksOf self.new (with_key is key.now rest) }
    {
        match (was, is) {
            (false, true) => self.add(key),
            (true, false) => self.remove(key),
            _ => {}
        }
    }

    /// Counts a key that was put in.
    fn add(&mut self, key: &[u8])
        requires { self.old.total < 2 ^ 64 - 1 }
        ensures { (keys : List (List ℕ)) → AreRanksOf self.old keys → AreRanksOf self.new (key.now ∷ keys) }
    {
        let place = self.place_of(key);
        let count = self.count(place);
        self.recount(place, count + 1);
    }

    /// Counts a key that was taken out.
    fn remove(&mut self, key: &[u8])
        ensures { (keys : List (List ℕ)) → AreRanksOf self.old (key.now ∷ keys) → AreRanksOf self.new keys }
    {
        let place = self.place_of(key);
        let count = self.count(place);
        if count > 0 {
            self.recount(place, count - 1);
        }
    }

    /// Splits a segment at a key, whose rank is known. At a number that can't be the rank nothing is split.
    pub fn split(&mut self, alloc: Global, key: &[u8], rank: usize) -> Result<(), AllocError>
        ensures ranks { (keys : List (List ℕ)) → AreRanksOf self.old keys → rank ≡ below key.now keys → AreRanksOf self.new keys }
        ensures total { self.new.total ≡ self.old.total }
        ensures err { OnErr result (self.new ≡ self.old) }
    {
        let place = self.place_of(key);
        let before = self.before(place);
        if rank < before {
            return Ok(());
        }
        let count = rank - before;
        if count > self.count(place) {
            return Ok(());
        }
        if !self.start(place).cmp(key).is_lt() {
            return Ok(());
        }
        let first = copy_key(alloc, key)?;
        self.cut(place, first, count)?;
        Ok(())
    }

    /// Returns the place of the segment that a key lies in: how many boundaries are not above the key.
    fn place_of(&self, key: &[u8]) -> usize
        ensures lies { LiesIn key.now self.now.segments result }
        ensures within { result ≤ length self.now.segments }
    {
        let passed = self.segments.len();
        if passed > 0 && !self.is_before(key, passed - 1) {
            return passed;
        }
        for i in 0..passed {
            if self.is_before(key, i) {
                return i;
            }
        }
        passed
    }

    /// Tests whether the key is below the boundary of this index.
    fn is_before(&self, key: &[u8], i: usize) -> bool
        requires { i < length self.now.segments }
        ensures { result ≡ is_below key.now (get_or self.now.segments i ([], 0)).0 }
    {
        key.cmp(self.segments[i].0.bytes.as_slice()).is_lt()
    }

    /// Returns how many keys there are from the boundary of this index on, up to the next one.
    fn count_from(&self, i: usize) -> usize
        requires { i < length self.now.segments }
        ensures count { result ≡ (get_or self.now.segments i ([], 0)).1 }
        ensures within { before_of self.now.head self.now.segments i + result ≤ self.now.total }
        ensures fits { self.now.total < 2 ^ 64 }
    {
        self.segments[i].1
    }

    /// Returns where the segment of a place begins.
    fn start(&self, place: usize) -> &[u8]
        requires { place ≤ length self.now.segments }
        ensures { result.now ≡ start_of self.now.segments place }
    {
        if place == 0 {
            return &[];
        }
        self.segments[place - 1].0.bytes.as_slice()
    }

    /// Returns how many keys are below the segment of a place.
    fn before(&self, place: usize) -> usize
        requires { place ≤ length self.now.segments }
        ensures { result ≡ before_place self.now.head self.now.segments place }
    {
        if place == 0 {
            return 0;
        }
        if place == self.segments.len() {
            return self.total - self.count(place);
        }
        let mut before = self.head;
        for i in 0..place - 1 {
            before += self.count_from(i);
        }
        before
    }

    /// Returns how many keys the segment of a place has.
    fn count(&self, place: usize) -> usize
        requires { place ≤ length self.now.segments }
        ensures count { result ≡ count_of self.now.head self.now.segments place }
        ensures within { result ≤ self.now.total }
        ensures fits { self.now.total < 2 ^ 64 }
    {
        if place == 0 {
            return self.head;
        }
        self.count_from(place - 1)
    }

    /// Sets how many keys the segment of a place has.
    fn recount(&mut self, place: usize, count: usize)
        requires within { place ≤ length self.old.segments }
        requires fits { self.old.total + count < 2 ^ 64 + count_of self.old.head self.old.segments place }
        ensures head { self.new.head ≡ head_with self.old.head place count }
        ensures segments { self.new.segments ≡ segments_with self.old.segments place count }
        ensures total { self.new.total + count_of self.old.head self.old.segments place ≡ self.old.total + count }
    {
        let old = self.count(place);
        self.total = self.total - old + count;
        if place == 0 {
            self.head = count;
        } else {
            self.segments[place - 1].1 = count;
        }
    }

    /// Cuts the segment of a place at a key, below which it has so many keys.
    fn cut(&mut self, place: usize, key: Key, count: usize) -> Result<(), AllocError>
        requires lies { LiesIn key self.old.segments place }
        requires above { is_below (start_of self.old.segments place) key ≡ true }
        requires some { count ≤ count_of self.old.head self.old.segments place }
        ensures head { OnOk result (self.new.head ≡ head_cut self.old.head place count) }
        ensures segments { OnOk result
            (self.new.segments ≡ segments_cut self.old.segments place key count (count_of self.old.head self.old.segments place - count)) }
        ensures total { self.new.total ≡ self.old.total }
        ensures err { OnErr result (self.new ≡ self.old) }
    {
        let rest = self.count(place) - count;
        self.segments.insert(place, (key, rest))?;
        if place == 0 {
            self.head = count;
        } else {
            self.segments[place - 1].1 = count;
        }
        Ok(())
    }

    /// Returns the last place before whose segment no more than so many keys are.
    fn last_place_before(&self, rank: usize) -> usize
        ensures within { result ≤ length self.now.segments }
        ensures reaches { before_place self.now.head self.now.segments result ≤ rank }
    {
        let mut before = 0;
        let mut count = self.head;
        for i in 0..self.segments.len() {
            let next = before + count;
            if rank < next {
                return i;
            }
            before = next;
            count = self.count_from(i);
        }
        self.segments.len()
    }

    /// Returns the first place before whose segment so many keys are, if there is one.
    fn first_place_behind(&self, rank: usize) -> Option<usize>
        ensures within { IfSome result (λ place. place ≤ length self.now.segments) }
        ensures reaches { IfSome result (λ place. rank ≤ before_place self.now.head self.now.segments place) }
    {
        let mut before = self.head;
        for i in 0..self.segments.len() {
            if rank <= before {
                return Some(i + 1);
            }
            before += self.count_from(i);
        }
        None
    }

    /// Returns the last place whose segment has more than so many keys, if there is one.
    fn last_place_longer(&self, most: usize) -> Option<usize>
        ensures { IfSome result (λ place. place ≤ length self.now.segments) }
    {
        for i in (0..self.segments.len()).rev() {
            if self.count_from(i) > most {
                return Some(i + 1);
            }
        }
        if self.head > most { Some(0) } else { None }
    }
}
