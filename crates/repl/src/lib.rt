//! A replication pass, as a machine that asks and is answered (CouchDB manual, replication/protocol).
#![tactic(auto)]

mod ask;
mod batch;
mod bodies;
mod calls;
mod checkpoint;
mod config;
mod count;
mod element;
mod ending;
mod groups;
mod label;
pub mod laws;
mod members;
mod opened;
mod opened_parts;
mod phase;
mod progress;
mod pushed;
mod replication;
mod replies;
mod report;
mod revisions;
mod shapes;
mod side;
mod spelling;
mod why;

pub use ask::Ask;
pub use batch::Batch;
pub use config::{Config, User};
pub use ending::print_why;
pub use phase::Phase;
pub use progress::Progress;
pub use replication::Replication;
pub use report::Report;
pub use side::Side;
pub use why::Why;
