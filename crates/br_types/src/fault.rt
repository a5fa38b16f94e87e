ghost use Rattle.std.specs.Prelude.{◌≡◌};
ghost use Rattle.br_types.specs.Fault.{fault_number};
ghost use Rattle.br_types.specs.declared.fault.NameFault.TheVariants.{Memory};
ghost use Rattle.br_types.specs.declared.fault.EscapeFault.TheVariants as escape;

use std::alloc::AllocError;
use thiserror::Error;

/// Why a name or a path was refused.
#[derive(Clone, Copy, Debug, Error)]
pub enum NameFault {
    #[error("out of memory")]
    Memory,
    #[error("not a name: a name has 1 to 127 ASCII letters, digits, spaces or bytes of -_.: and a volume is not named . or ..")]
    BadName,
    #[error("not a path: a path begins with /, has at most 4096 bytes, no NUL, and no component that is empty, . or ..")]
    BadPath,
}

impl NameFault {
    /// Returns the number of the refusal: 1 for memory, 2 for a bad name, 3 for a bad path.
    pub fn number(self) -> u32
        ensures { result ≡ fault_number self }
    {
        match self {
            NameFault::Memory => 1,
            NameFault::BadName => 2,
            NameFault::BadPath => 3,
        }
    }
}

impl From<AllocError> for NameFault {
    ghost from_gives = { λ _ e. e ≡ Memory };

    fn from(_e: AllocError) -> NameFault {
        NameFault::Memory
    }
}

/// Why an escaped text was refused.
#[derive(Clone, Copy, Debug, Error)]
pub enum EscapeFault {
    #[error("out of memory")]
    Memory,
    #[error("a bad escape: a backslash is followed by x and two digits of 0 to 9 or a to f")]
    BadEscape,
}

impl From<AllocError> for EscapeFault {
    ghost from_gives = { λ _ e. e ≡ escape.Memory };

    fn from(_e: AllocError) -> EscapeFault {
        EscapeFault::Memory
    }
}
