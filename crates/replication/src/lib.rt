//! What replication passes promise: what one that is done owes its target, and when databases agree.
#![tactic(auto)]

pub mod completion;
pub mod convergence;
