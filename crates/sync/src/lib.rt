//! Copies a database by a replication pass between two sides, each a store or a server.
#![tactic(auto)]

mod address;
mod ahead;
mod answer;
mod configuring;
mod creating;
mod density;
mod ending;
mod estimate;
mod exchange_end;
mod exchanging;
mod information;
mod limits;
mod logged;
mod node_side;
mod outcome;
mod passing;
mod persistence;
mod planned;
mod remote;
mod resumed;
mod series;
mod side;
mod sides;
mod terminal;
mod timed;
mod turn;
mod watch;
mod writing;

pub use answer::Answer;
pub use exchange_end::ExchangeEnd;
pub use exchanging::{exchange, make_exchange};
pub use logged::Logged;
pub use outcome::Outcome;
pub use passing::sync_pass;
pub use planned::{sync_addresses, sync_store, sync_stores};
pub use remote::Remote;
pub use side::Side;
pub use sides::sync_sides;
pub use terminal::ProgressLine;
pub use watch::{Unwatched, Watch};
pub use writing::write_logged;
