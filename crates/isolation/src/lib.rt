//! What databases that are hidden from callers can't tell them.
#![tactic(auto)]

pub mod laws;
