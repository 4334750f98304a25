//! The server: a store behind a port of this machine, for one connection after another or for many at once.
#![tactic(auto)]

mod acceptance;
mod address;
mod error_log;
mod listening;
mod many;
mod port;
mod serving;

pub use acceptance::Acceptance;
pub use error_log::ErrorLog;
pub use listening::LoggedListener;
pub use many::{serve_many, serve_sockets};
pub use port::serve_store;
pub use serving::{open_hub, open_node, serve};
