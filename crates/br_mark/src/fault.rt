ghost use Rattle.std.specs.Prelude.{◌≡◌};
ghost use Rattle.br_mark.specs.Fault.{fault_number};
ghost use Rattle.br_mark.specs.declared.fault.MarkFault.TheVariants.{Memory};

use std::alloc::AllocError;
use thiserror::Error;

/// Why a line or a command was refused.
#[derive(Clone, Copy, Debug, Error)]
pub enum MarkFault {
    #[error("out of memory")]
    Memory,
    #[error("not a command, or one whose argument is missing or too much")]
    UnknownCommand,
    #[error("no such directory")]
    NoSuchDirectory,
    #[error("nothing matches")]
    NoMatch,
}

impl MarkFault {
    /// Returns the number of the refusal: 1 out of memory, 55 no command, 56 no such directory, 57 nothing matches.
    pub fn number(self) -> u32
        ensures { result ≡ fault_number self }
    {
        match self {
            MarkFault::Memory => 1,
            MarkFault::UnknownCommand => 55,
            MarkFault::NoSuchDirectory => 56,
            MarkFault::NoMatch => 57,
        }
    }
}

impl From<AllocError> for MarkFault {
    ghost from_gives = { λ _ e. e ≡ Memory };

    fn from(_e: AllocError) -> MarkFault {
        MarkFault::Memory
    }
}
