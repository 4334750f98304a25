//! Many connections of one hub at once.
#![tactic(auto)]

mod backlog;
mod conversation;
mod fault;
mod flow;
pub mod laws;
mod limits;
mod log_entry;
mod memory_client;
mod memory_sockets;
mod queues;
mod serving;
mod sockets;

pub use backlog::Backlog;
pub use conversation::{Conversation, ConversationStage, Turn};
pub use fault::EngineFault;
pub use flow::{Accepted, Flow};
pub use limits::Limits;
pub use log_entry::LogEntry;
pub use memory_client::MemoryClient;
pub use memory_sockets::MemorySockets;
pub use serving::serve_all;
pub use sockets::Sockets;
