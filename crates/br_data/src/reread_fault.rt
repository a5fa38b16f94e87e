ghost use Rattle.std.specs.Prelude.{◌≡◌};
ghost use Rattle.br_data.specs.declared.reread_fault.AgainFault.TheVariants.{Memory};

use std::alloc::AllocError;
use thiserror::Error;

/// The reason why bytes were not read again.
#[derive(Clone, Copy, Debug, Error)]
pub enum AgainFault {
    #[error("out of memory")]
    Memory,
    #[error("the drive failed to read a volume again")]
    Failed,
    #[error("the volume no longer has what was found at this place")]
    Changed,
}

impl From<AllocError> for AgainFault {
    ghost from_gives = { λ _ e. e ≡ Memory };

    fn from(_e: AllocError) -> AgainFault {
        AgainFault::Memory
    }
}
