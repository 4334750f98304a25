//! What a server prints once it listens.

use command_line::ProgramFault;
use std::io;
use std::io::{ErrorKind, Write};
use std::net::SocketAddr;

/// Prints where a server listens, and sees that it is written.
pub fn print_address<R: Print>(
    rt: &R,
    address: io::Result<SocketAddr>,
) -> Result<(), ProgramFault> {
    let address = match address {
        Ok(address) => address,
        Err(error) => return Err(socket_fault(&error)),
    };
    println!(rt; "listening {address}")?;
    io::writer(rt).flush()?;
    Ok(())
}

/// Tells what fault an error of a socket is.
pub fn socket_fault(error: &io::Error) -> ProgramFault {
    match error.kind() {
        ErrorKind::OutOfMemory => ProgramFault::Memory,
        _ => ProgramFault::Socket,
    }
}
