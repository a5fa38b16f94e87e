ghost use Rattle.std.specs.Prelude.{◌≡◌};
ghost use Rattle.br_volume.specs.Fault.{fault_number};
ghost use Rattle.br_volume.specs.declared.fault.DriveFault.TheVariants.{Memory};

use std::alloc::AllocError;
use thiserror::Error;

/// The reason why a drive returned no bytes.
#[derive(Clone, Copy, Debug, PartialEq, Error)]
pub enum DriveFault {
    #[error("out of memory")]
    Memory,
    #[error("the drive failed to read a volume")]
    Fault,
    #[error("the drive has no volume of this name")]
    UnknownVolume,
}

impl DriveFault {
    /// Returns the number of the refusal: 1 for out of memory, 13 for a drive that failed, 14 for
    /// an unknown volume.
    pub fn number(self) -> u32
        ensures { result ≡ fault_number self }
    {
        match self {
            DriveFault::Memory => 1,
            DriveFault::Fault => 13,
            DriveFault::UnknownVolume => 14,
        }
    }
}

impl From<AllocError> for DriveFault {
    ghost from_gives = { λ _ e. e ≡ Memory };

    fn from(_e: AllocError) -> DriveFault {
        DriveFault::Memory
    }
}

/// The reason why a store of volumes did not append, or returned no length.
#[derive(Clone, Copy, Debug, Error)]
pub enum VolumeFault {
    #[error("the store failed to append to a volume, or to tell its length")]
    Failed,
}

impl VolumeFault {
    /// Returns the number of the refusal: 44.
    pub fn number(self) -> u32
        ensures { result ≡ 44 }
    {
        match self {
            VolumeFault::Failed => 44,
        }
    }
}
