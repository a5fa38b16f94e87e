ghost use Rattle.std.specs.Prelude.{◌≡◌};
ghost use Rattle.br_fs.specs.declared.fault.DiskFault.TheVariants.{Memory};

use std::alloc::AllocError;
use thiserror::Error;

/// The reason why a call on a disk did nothing.
#[derive(Clone, Copy, Debug, Error)]
pub enum DiskFault {
    #[error("there is nothing at this path")]
    NotFound,
    #[error("something is at this path already")]
    Exists,
    #[error("the call was interrupted")]
    Interrupted,
    #[error("out of memory")]
    Memory,
    #[error("the disk failed")]
    Failed,
}

impl From<AllocError> for DiskFault {
    ghost from_gives = { λ _ e. e ≡ Memory };

    fn from(_e: AllocError) -> DiskFault {
        DiskFault::Memory
    }
}
