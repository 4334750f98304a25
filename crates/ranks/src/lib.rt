//! The ranks of ordered keys: how many keys are below one, without a walk over all of them.
#![tactic(auto)]

mod ranks;

pub use ranks::{Boundary, Change, Ranks};
