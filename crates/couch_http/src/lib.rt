//! HTTP/1.1 messages out of bytes and into bytes (RFC 9112), as the server of CouchDB's API takes and
//! gives them.
//!
//! [`Cutter::feed`] takes the pieces of a stream and gives the requests that they complete;
//! [`Response::made`] makes a reply. A row of the tests: a stream, and what was read of it.
//!
//! ```rows
//! > PUT /db/b HTTP/1.1\r\nHost: 127.0.0.1:39175\r\nAccept-Encoding: identity\r\n
//! > Content-Length: 8\r\nContent-Type: application/json\r\n\r\n
//! > {"by":1}
//! < PUT /db/b, 4 headers, {"by":1}
//! < open
//! ```
#![tactic(auto)]

mod cut;
mod cutter;
mod cutting;
mod fault;
mod fields;
mod fixed;
mod fixed_texts;
mod head;
pub mod laws;
mod limits;
mod reply_cutter;
mod reply_cutting;
mod reply_head;
mod reply_lines;
mod reply_stage;
mod request;
mod request_lines;
mod response;
mod retrying;
mod scan;
mod stage;
mod writing;

pub use cut::{Cut, Ending};
pub use cutter::Cutter;
pub use fault::HttpFault;
pub use fixed::Fixed;
pub use reply_cutter::ReplyCutter;
pub use request::{Header, Request};
pub use request_lines::request_bytes;
pub use response::Response;
pub use retrying::{read_some, write_some};
pub use writing::write_bytes;
