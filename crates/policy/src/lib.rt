//! Who may do what: security objects, update rules, and the first of them that refuses
//! (CouchDB manual, api/database/security).
//!
//! [`refusal`] judges an action. Rows of the tests, each with the rule that refuses:
//!
//! ```rows
//! bob administers on {} => server_admin
//! root administers on {} => allowed
//! ```
#![tactic(auto)]

mod action;
mod circumstances;
mod closed;
mod design_documents;
mod group;
pub mod laws;
mod rule;
mod rule_argument;
mod security;
mod shape;
mod update_rules;
mod verdict;

pub use action::Action;
pub use circumstances::Circumstances;
pub use design_documents::{check_design, check_indexes};
pub use rule::Rule;
pub use rule_argument::{argument, show_new};
pub use security::{Security, SecurityFault, is_server_admin};
pub use update_rules::RuleSet;
pub use verdict::refusal;
