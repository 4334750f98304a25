//! A port of this machine and its connections.
#![tactic(auto)]

mod port;

pub use port::Port;
