//! Conditions on JSON values, in the form of CouchDB's Mango selectors (CouchDB manual, api/database/find).
//!
//! [`Selector::parse`] reads a selector once, and [`Selector::matches`] asks it of a value. A
//! [`RuleSelector`] may compare parts of the value with one another too. A row of the tests, where
//! `<each>` is a list of values with and without the field `f`:
//!
//! ```rows
//! {"f":{"$lt":5}} on each of <each> => -TT----
//! ```
#![tactic(auto)]

mod bounds;
mod elements;
mod fault;
mod field_bounds;
pub mod laws;
mod lookup;
mod matching;
mod meeting;
mod members;
mod operator;
mod parsing;
mod rule_selector;
mod selector;
mod takes;
mod value_set;

pub use bounds::{Bounds, Edge};
pub use fault::SelectorFault;
pub use field_bounds::FieldBounds;
pub use rule_selector::RuleSelector;
pub use selector::Selector;
