//! The connections of one node: each brings requests in pieces of bytes, and each request has its reply.
#![tactic(auto)]

mod answering;
mod connections;
mod cutters;
mod failure_log;
mod fault;
mod hub;
pub mod laws;
mod parts;
mod replies;
mod service;
mod service_end;

pub use connections::Connections;
pub use failure_log::{FailureLog, NoLog};
pub use fault::HubFault;
pub use hub::Hub;
pub use parts::measure_part;
pub use replies::Replies;
pub use service::serve_connection;
pub use service_end::ServiceEnd;
