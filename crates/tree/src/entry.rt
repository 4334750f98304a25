ghost use Rattle.std.specs.Prelude.{◌≡◌, IfOk};
ghost use Rattle.couch_json.specs.View.{view};
ghost use Rattle.tree.specs.History.{is_marked, same_parent};
ghost use Rattle.tree.specs.Outline.{bare, held_bare};

use crate::body::Body;
use crate::revision::Rev;
use couch_json::{Got, Json};
use sqlite_items::Boxed;
use std::alloc::Global;

/// What a write brought for the revision that it made.
#[derive(Drop)]
pub struct Held {
    /// Whether the write deletes the document.
    pub deleted: bool,
    /// The document without its special members.
    pub body: Body,
}

/// What is known of a revision.
#[derive(Drop)]
pub struct Entry {
    /// The revision before it, or `None` at a root.
    pub parent: Option<Rev>,
    /// What its write brought, or `None` where it only came inside a path. Most of a long path came
    /// so: a box keeps their entries small.
    pub held: Option<Boxed<Held>>,
}

impl Held {
    /// Makes what a write with this mark and this body brought, in a box.
    pub(crate) fn allocate(alloc: Global, deleted: bool, body: &Json) -> Got<Boxed<Held>>
        ensures { IfOk result (λ held. held ≡ record { deleted = deleted; body = view body.now }) }
    {
        let body = Body::new(body.copy(alloc)?);
        Ok(Boxed::new(alloc, Held { deleted, body })?)
    }

    /// Makes an equal one of its own.
    pub fn copy(&self, alloc: Global) -> Got<Held>
        ensures { IfOk result (λ held. held ≡ self.now) }
    {
        Ok(Held {
            deleted: self.deleted,
            body: self.body.copy(alloc)?,
        })
    }

    /// Makes one with the same mark, and null for its body.
    pub(crate) fn without_body(&self) -> Held
        ensures { result ≡ held_bare self.now }
    {
        Held {
            deleted: self.deleted,
            body: Body::new(Json::Null),
        }
    }
}

impl Entry {
    /// Makes what is known of a revision with this parent, of which this is held.
    pub fn new(alloc: Global, parent: Option<Rev>, held: Option<Held>) -> Got<Entry>
        ensures { IfOk result (λ entry. entry ≡ record { parent = parent; held = held }) }
    {
        let held = match held {
            Some(held) => Some(Boxed::new(alloc, held)?),
            None => None,
        };
        Ok(Entry { parent, held })
    }

    /// Returns what is held, taken out.
    pub fn into_held(self) -> Option<Held>
        ensures { result ≡ self.held }
    {
        let held = self.held?;
        Some(held.into_inner())
    }

    /// Makes an equal one of its own.
    pub fn copy(&self, alloc: Global) -> Got<Entry>
        ensures { IfOk result (λ entry. entry ≡ self.now) }
    {
        let held = match &self.held {
            Some(held) => Some(held.get().copy(alloc)?),
            None => None,
        };
        Entry::new(alloc, self.parent, held)
    }

    /// Makes one with the same parent and the same mark, and null for the body.
    pub(crate) fn without_body(&self, alloc: Global) -> Got<Entry>
        ensures { IfOk result (λ entry. entry ≡ bare self.now) }
    {
        let held = match &self.held {
            Some(held) => Some(held.get().without_body()),
            None => None,
        };
        Entry::new(alloc, self.parent, held)
    }

    /// Tells whether it is deleted, or not, as the mark says.
    pub fn is_marked(&self, deleted: bool) -> bool
        ensures { result ≡ is_marked deleted self.now.held }
    {
        match &self.held {
            Some(held) => held.get().deleted == deleted,
            None => !deleted,
        }
    }

    /// Tells whether its parent is this one, or it has none where none is given.
    pub fn agrees(&self, parent: Option<Rev>) -> bool
        ensures { result ≡ same_parent self.now.parent parent }
    {
        match (self.parent, parent) {
            (Some(own), Some(other)) => own.cmp(&other).is_eq(),
            (None, None) => true,
            _ => false,
        }
    }
}
