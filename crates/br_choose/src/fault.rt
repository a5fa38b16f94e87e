ghost use Rattle.std.specs.Prelude.{◌≡◌};
ghost use Rattle.br_choose.specs.Fault.{fault_number};
ghost use Rattle.br_choose.specs.declared.fault.ChooseFault.TheVariants.{Memory};

use std::alloc::AllocError;
use thiserror::Error;

/// Why no jobs were chosen.
#[derive(Clone, Copy, Debug, Error)]
pub enum ChooseFault {
    #[error("out of memory")]
    Memory,
    #[error("no good Full of this client and this file set began before the moment")]
    NoFull,
    #[error("no job names this client")]
    UnknownClient,
    #[error("no job of this client names this file set")]
    UnknownFileSet,
}

impl ChooseFault {
    /// Returns the number of the refusal: 1 out of memory, 50 no Full, 53 an unknown client, 54 an unknown file set of the client.
    pub fn number(self) -> u32
        ensures { result ≡ fault_number self }
    {
        match self {
            ChooseFault::Memory => 1,
            ChooseFault::NoFull => 50,
            ChooseFault::UnknownClient => 53,
            ChooseFault::UnknownFileSet => 54,
        }
    }
}

impl From<AllocError> for ChooseFault {
    ghost from_gives = { λ _ e. e ≡ Memory };

    fn from(_e: AllocError) -> ChooseFault {
        ChooseFault::Memory
    }
}
