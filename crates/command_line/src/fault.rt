use couch_json::NoMemory;
use std::io;
use thiserror::Error;

/// Why the program ended early. What was printed before stands.
///
/// The variants stand in the order of their numbers, from 1.
#[derive(Clone, Copy, Debug, PartialEq, Eq, Error)]
pub enum ProgramFault {
    /// A file or a stream failed, or the file is no store of this server, or a script had no end
    /// after 1,048,576 reads.
    #[error("file")]
    File,
    /// The port could not be bound, or a connection not be accepted.
    #[error("socket")]
    Socket,
    /// This line of the script, counted from 1, is none, names something unknown or what is there
    /// already, or comes too late.
    #[error("line {0}")]
    Line(u64),
    /// Memory ran out.
    #[error("memory")]
    Memory,
}

impl From<NoMemory> for ProgramFault {
    ghost use Rattle.std.specs.Prelude.{◌≡◌};
    ghost use Rattle.command_line.specs.declared.fault.ProgramFault.TheVariants.{Memory};

    ghost from_gives = { λ _ fault. fault ≡ Memory };

    fn from(_no_memory: NoMemory) -> ProgramFault {
        ProgramFault::Memory
    }
}

impl From<io::Error> for ProgramFault {
    ghost use Rattle.command_line.specs.Faults.{IsOfNoLine};

    ghost from_gives = { λ _ fault. IsOfNoLine fault };

    fn from(error: io::Error) -> ProgramFault {
        if error.kind() == io::ErrorKind::OutOfMemory {
            ProgramFault::Memory
        } else {
            ProgramFault::File
        }
    }
}
