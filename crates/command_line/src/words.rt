//! The words that the program was started with.

use crate::plans::PlanFault;
use std::env::Env;
use std::{env, io};

/// Returns the words of the command line. One that is no text makes them invalid.
pub fn words_of<R: Env + AllocGlobal>(rt: &R) -> Result<Vec<String>, PlanFault> {
    match env::args(rt) {
        Ok(words) => Ok(words.collect(rt.alloc())?),
        Err(error) if error.kind() == io::ErrorKind::OutOfMemory => Err(PlanFault::Memory),
        Err(_) => Err(PlanFault::Usage),
    }
}
