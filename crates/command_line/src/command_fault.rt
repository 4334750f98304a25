use crate::fault::ProgramFault;
use crate::plans::PlanFault;
use thiserror::Error;

/// Why the program did not do what it was asked, or not to its end.
#[derive(Clone, Copy, Debug, PartialEq, Eq, Error)]
pub enum CommandFault {
    /// The command line was not understood.
    #[error("{0}")]
    Plan(PlanFault),
    /// What it asked for ended early.
    #[error("{0}")]
    Program(ProgramFault),
}

impl CommandFault {
    ghost use Rattle.std.specs.Prelude.{◌≡◌};
    ghost use Rattle.command_line.specs.Statuses.{status_of};

    /// Returns the status that the program ends with: 2 where the command line is invalid, else 1.
    pub fn status(self) -> u8
        ensures { result ≡ status_of self }
    {
        match self {
            CommandFault::Plan(PlanFault::Usage) => 2,
            CommandFault::Plan(PlanFault::Memory) | CommandFault::Program(_) => 1,
        }
    }
}

impl From<PlanFault> for CommandFault {
    ghost use Rattle.std.specs.Prelude.{◌≡◌};
    ghost use Rattle.command_line.specs.declared.command_fault.CommandFault.TheVariants.{Plan};

    ghost from_gives = { λ fault given. given ≡ Plan fault };

    fn from(fault: PlanFault) -> CommandFault {
        CommandFault::Plan(fault)
    }
}

impl From<ProgramFault> for CommandFault {
    ghost use Rattle.std.specs.Prelude.{◌≡◌};
    ghost use Rattle.command_line.specs.declared.command_fault.CommandFault.TheVariants.{Program};

    ghost from_gives = { λ fault given. given ≡ Program fault };

    fn from(fault: ProgramFault) -> CommandFault {
        CommandFault::Program(fault)
    }
}
