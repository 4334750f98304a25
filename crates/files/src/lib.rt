//! What the program does with the store in a file: it opens, serves, copies and checks it.
#![tactic(auto)]

mod checking;
mod copying;
pub mod laws;
mod opening;
mod page_cache;
mod serving;
mod sound_fault;

pub use checking::{check_file, check_store};
pub use copying::sync;
pub use opening::{open_file, open_store};
pub use serving::serve_file;
pub use sound_fault::SoundFault;
