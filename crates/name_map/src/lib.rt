//! A map from names to values, held in one list in byte order of the names.
#![tactic(auto)]

mod map;

pub use map::NameMap;
