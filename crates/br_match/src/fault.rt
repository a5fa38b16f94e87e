ghost use Rattle.std.specs.Prelude.{◌≡◌, ◌==◌, ℕ, List};
ghost use Rattle.std.specs.Option.{option_copied};
ghost use Rattle.br_block.specs.Fault as block;
ghost use Rattle.br_match.specs.Fault.{cause_number, fault_number, fault_volume, fault_address, named_address, refusal, refused_with};
ghost use Rattle.br_match.specs.declared.fault.PieceFault.TheVariants.{Memory};

use br_block::BlockFault;
use br_types::VolName;
use std::alloc::AllocError;
use thiserror::Error;

/// The reason why a volume can't be searched.
#[derive(Clone, Copy, Debug, Error)]
pub enum PieceCause {
    #[error("not a block: bytes 12 to 15 of its header are neither BB01 nor BB02")]
    BadId,
    #[error("not a block: its header gives a size below that of the header or above 4194304 bytes")]
    BadBlockSize,
    #[error("the block is cut off")]
    Truncated,
    #[error("the drive failed")]
    DriveFault,
    #[error("the drive has no such volume")]
    UnknownVolume,
}

impl PieceCause {
    /// Returns the number of the refusal: 10 to 14.
    pub fn number(self) -> u32
        ensures { result ≡ cause_number self }
    {
        match self {
            PieceCause::BadId => 10,
            PieceCause::BadBlockSize => 11,
            PieceCause::Truncated => 12,
            PieceCause::DriveFault => 13,
            PieceCause::UnknownVolume => 14,
        }
    }

    /// Returns the cause for a block's fault.
    pub(crate) fn of_block(fault: BlockFault) -> PieceCause
        ensures number { cause_number result ≡ block.fault_number fault }
        ensures told { (vol : List ℕ) (addr : ℕ) → refusal result vol addr ≡ refused_with (block.fault_number fault) vol addr }
        ensures at { (addr : ℕ) → named_address result addr ≡ addr }
    {
        match fault {
            BlockFault::BadId => PieceCause::BadId,
            BlockFault::BadBlockSize => PieceCause::BadBlockSize,
            BlockFault::Truncated => PieceCause::Truncated,
        }
    }
}

/// The reason why the work on a piece stopped.
#[derive(Debug, Drop, Error)]
pub enum PieceFault {
    #[error("out of memory")]
    Memory,
    /// The block at this address of the volume is refused.
    #[error("{cause}, at address {addr}")]
    Block {
        cause: PieceCause,
        vol: VolName,
        addr: u64,
    },
}

impl PieceFault {
    /// Returns the number of the refusal: 1 or 10 to 14.
    pub fn number(&self) -> u32
        ensures { result ≡ fault_number self.now }
    {
        match self {
            PieceFault::Memory => 1,
            PieceFault::Block { cause, .. } => cause.number(),
        }
    }

    /// Returns whether the drive failed.
    pub fn is_drive_failure(&self) -> bool
        ensures { result ≡ (fault_number self.now == 13) }
    {
        match self {
            PieceFault::Memory => false,
            PieceFault::Block { cause, .. } => *cause == PieceCause::DriveFault,
        }
    }

    /// Returns the volume of the block; none if memory ran out.
    pub fn vol(&self) -> Option<&VolName>
        ensures { option_copied result ≡ fault_volume self.now }
    {
        match self {
            PieceFault::Memory => None,
            PieceFault::Block { vol, .. } => Some(vol),
        }
    }

    /// Returns the address of the block, in bytes from the start of the volume; none if memory ran
    /// out.
    pub fn addr(&self) -> Option<u64>
        ensures { result ≡ fault_address self.now }
    {
        match self {
            PieceFault::Memory => None,
            PieceFault::Block { addr, .. } => Some(*addr),
        }
    }
}

impl From<AllocError> for PieceFault {
    ghost from_gives = { λ _ e. e ≡ Memory };

    fn from(_e: AllocError) -> PieceFault {
        PieceFault::Memory
    }
}
