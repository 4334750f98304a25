//! The laboratory: scripts of nodes, databases and connections, played in memory as bytes would
//! come over a socket.
#![tactic(auto)]

mod escapes;
mod fault;
mod input;
mod lab_store;
mod layout;
mod line;
mod named;
mod printed;
mod printed_steps;
mod repl_line;
mod running;
mod script_stage;
mod scripts;
mod server;
mod showing;
mod turn;
mod words;

pub use input::play_input;
pub use lab_store::LabStore;
pub use scripts::{lab, play_script};
