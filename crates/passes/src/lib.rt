//! What the calls of a replication pass come to at a node.
#![tactic(auto)]

pub mod laws;
