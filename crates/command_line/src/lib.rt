//! The program's command line: what its words ask for, and why the program ends early.
#![tactic(auto)]

mod command_fault;
mod command_line;
mod fault;
mod plans;
mod word;
mod words;

pub use command_fault::CommandFault;
pub use command_line::{plan, read_number};
pub use fault::ProgramFault;
pub use plans::{Plan, PlanFault, SyncPlan, SyncSide};
pub use words::words_of;
