//! The script on standard input.

use crate::scripts::lab;
use command_line::ProgramFault;
use std::io;
use std::io::{BufReader, BufWriter, Write};

/// Plays the script on standard input, and prints its replies, as `lab` does. What was printed stands,
/// whatever comes after it.
pub fn play_input<R: Input + Print + AllocGlobal>(
    rt: &R,
    secret: &str,
    admins: &[String],
) -> Result<u8, ProgramFault> {
    let alloc = rt.alloc();
    let mut reader = BufReader::new(alloc, rt.reader())?;
    let mut writer = BufWriter::new(alloc, io::writer(rt))?;
    let result = lab(alloc, secret, admins, &mut reader, &mut writer);
    writer.flush()?;
    result
}
