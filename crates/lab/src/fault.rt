use command_line::ProgramFault;
use couch_json::NoMemory;
use std::alloc::{AllocError, AllocFailed};
use std::io;
use store::StoreFault;
use thiserror::Error;
use world::{WorldFault, WorldFaultKind};

/// Why a line of a script was not played.
#[derive(Clone, Copy, Debug, PartialEq, Eq, Error)]
pub enum LineFault {
    /// It is no line of a script, names something unknown or what is there already, or comes too
    /// late.
    #[error("line")]
    Line = 1,
    /// Its replies could not be written.
    #[error("file")]
    File = 2,
    /// Memory ran out.
    #[error("memory")]
    Memory = 3,
}

impl LineFault {
    ghost use Rattle.std.specs.Prelude.{◌≡◌};
    ghost use Rattle.lab.specs.Playing.{fault_at};

    /// Returns the program's fault, where this is that of the line of this number.
    pub fn at(self, number: u64) -> ProgramFault
        ensures { result ≡ fault_at self number }
    {
        match self {
            LineFault::Line => ProgramFault::Line(number),
            LineFault::File => ProgramFault::File,
            LineFault::Memory => ProgramFault::Memory,
        }
    }
}

impl From<NoMemory> for LineFault {
    ghost use Rattle.std.specs.Prelude.{◌≡◌};
    ghost use Rattle.lab.specs.declared.fault.LineFault.TheVariants.{Memory};

    ghost from_gives = { λ _ fault. fault ≡ Memory };

    fn from(_no_memory: NoMemory) -> LineFault {
        LineFault::Memory
    }
}

impl From<AllocError> for LineFault {
    ghost use Rattle.std.specs.Prelude.{◌≡◌};
    ghost use Rattle.lab.specs.declared.fault.LineFault.TheVariants.{Memory};

    ghost from_gives = { λ _ fault. fault ≡ Memory };

    fn from(_error: AllocError) -> LineFault {
        LineFault::Memory
    }
}

impl<T: Drop> From<AllocFailed<T>> for LineFault {
    ghost use Rattle.std.specs.Prelude.{◌≡◌};
    ghost use Rattle.lab.specs.declared.fault.LineFault.TheVariants.{Memory};

    ghost from_gives = { λ _ fault. fault ≡ Memory };

    fn from(_failed: AllocFailed<T>) -> LineFault {
        LineFault::Memory
    }
}

impl From<io::Error> for LineFault {
    ghost use Rattle.std.specs.Prelude.{◌≢◌};
    ghost use Rattle.lab.specs.declared.fault.LineFault.TheVariants.{Line};

    ghost from_gives = { λ _ fault. fault ≢ Line };

    fn from(error: io::Error) -> LineFault {
        if error.kind() == io::ErrorKind::OutOfMemory {
            LineFault::Memory
        } else {
            LineFault::File
        }
    }
}

impl From<StoreFault> for LineFault {
    ghost use Rattle.std.specs.Prelude.{◌≡◌};
    ghost use Rattle.lab.specs.Playing.{fault_of_store};

    ghost from_gives = { λ fault made. made ≡ fault_of_store fault };

    fn from(fault: StoreFault) -> LineFault {
        match fault {
            StoreFault::Memory => LineFault::Memory,
            StoreFault::Exists | StoreFault::NoDatabase => LineFault::Line,
            StoreFault::Failed | StoreFault::Damaged | StoreFault::Full => LineFault::File,
        }
    }
}

impl From<WorldFault> for LineFault {
    ghost use Rattle.std.specs.Prelude.{◌≡◌};
    ghost use Rattle.lab.specs.Playing.{fault_of_world};

    ghost from_gives = { λ fault made. made ≡ fault_of_world fault.kind };

    fn from(fault: WorldFault) -> LineFault {
        match fault.kind {
            WorldFaultKind::Unknown => LineFault::Line,
            WorldFaultKind::Memory => LineFault::Memory,
        }
    }
}
