ghost use Rattle.std.specs.Prelude.{◌≡◌};
ghost use Rattle.br_claim.specs.Fault.{fault_number};

use thiserror::Error;

/// Why the numbers were not gathered.
#[derive(Clone, Copy, Debug, Error)]
pub enum ClaimFault {
    #[error("out of memory")]
    Memory,
    #[error("a seat of the claims is missing")]
    MissingSeat,
}

impl ClaimFault {
    /// Returns the number of the refusal: 1 for memory, 71 for a missing seat.
    pub fn number(self) -> u32
        ensures { result ≡ fault_number self }
    {
        match self {
            ClaimFault::Memory => 1,
            ClaimFault::MissingSeat => 71,
        }
    }
}
