ghost use Rattle.std.specs.Prelude.{◌≡◌};
ghost use Rattle.br_block.specs.Fault.{fault_number};

use thiserror::Error;

/// Why bytes were refused as a block.
#[derive(Clone, Copy, Debug, Error)]
pub enum BlockFault {
    #[error("not a block: bytes 12 to 15 of its header are neither BB01 nor BB02")]
    BadId,
    #[error("not a block: its header gives a size below that of the header or above 4194304 bytes")]
    BadBlockSize,
    #[error("the block is cut off: the bytes end within its header, or before the size that its header gives")]
    Truncated,
}

impl BlockFault {
    /// Returns the number of the refusal: 10 for other letters than `BB01` and `BB02`, 11 for a size
    /// below that of the header or above 4,194,304 bytes, 12 for bytes that end too early.
    pub fn number(self) -> u32
        ensures { result ≡ fault_number self }
    {
        match self {
            BlockFault::BadId => 10,
            BlockFault::BadBlockSize => 11,
            BlockFault::Truncated => 12,
        }
    }
}
