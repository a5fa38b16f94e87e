ghost use Rattle.std.specs.Prelude.{◌≡◌};
ghost use Rattle.std.specs.Option.{option_copied};
ghost use Rattle.br_pool.specs.Fault.{fault_number, fault_volume, fault_address};
ghost use Rattle.br_pool.specs.declared.fault.PoolFault.TheVariants.{Memory};

use br_match::PieceFault;
use br_types::VolName;
use std::alloc::AllocError;
use thiserror::Error;

/// The reason why the work on some pieces was given up.
#[derive(Debug, Drop, Error)]
pub enum PoolFault {
    #[error("out of memory")]
    Memory,
    /// The fault of the first piece that has one: the refusal of its volume. It is neither `Memory`
    /// nor the failure of a drive.
    #[error("{0}")]
    Piece(PieceFault),
    /// Each drive failed, and some pieces were not read.
    #[error("each drive failed, and some volumes were not read")]
    NoDriveLeft,
}

impl PoolFault {
    /// Returns the number of the refusal: 1, 10 to 12, 14 or 70.
    pub fn number(&self) -> u32
        ensures { result ≡ fault_number self.now }
    {
        match self {
            PoolFault::Memory => 1,
            PoolFault::Piece(fault) => fault.number(),
            PoolFault::NoDriveLeft => 70,
        }
    }

    /// Returns the volume of the refused block, if there is one.
    pub fn vol(&self) -> Option<&VolName>
        ensures { option_copied result ≡ fault_volume self.now }
    {
        match self {
            PoolFault::Memory | PoolFault::NoDriveLeft => None,
            PoolFault::Piece(fault) => fault.vol(),
        }
    }

    /// Returns the address of the refused block, in bytes from the start of the volume, if there is
    /// one.
    pub fn addr(&self) -> Option<u64>
        ensures { result ≡ fault_address self.now }
    {
        match self {
            PoolFault::Memory | PoolFault::NoDriveLeft => None,
            PoolFault::Piece(fault) => fault.addr(),
        }
    }
}

impl From<AllocError> for PoolFault {
    ghost from_gives = { λ _ e. e ≡ Memory };

    fn from(_e: AllocError) -> PoolFault {
        PoolFault::Memory
    }
}
