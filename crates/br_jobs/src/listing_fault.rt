ghost use Rattle.std.specs.Prelude.{◌≡◌};
ghost use Rattle.br_jobs.specs.ListingFault.{mark_number};
ghost use Rattle.br_jobs.specs.declared.listing_fault.ListingFault.TheVariants as of;

use br_choose::ChooseFault;
use std::alloc::AllocError;
use thiserror::Error;

/// Why no jobs were marked as chosen.
#[derive(Clone, Copy, Debug, Error)]
pub enum ListingFault {
    #[error("out of memory")]
    Memory,
    #[error("not the name of a client or of a file set")]
    BadName,
    /// The choice was refused.
    #[error("{0}")]
    Choice(ChooseFault),
}

impl From<AllocError> for ListingFault {
    ghost from_gives = { λ _ e. e ≡ of.Memory };

    fn from(_e: AllocError) -> ListingFault {
        ListingFault::Memory
    }
}

impl From<ChooseFault> for ListingFault {
    ghost from_gives = { λ fault e. e ≡ of.Choice fault };

    fn from(fault: ChooseFault) -> ListingFault {
        ListingFault::Choice(fault)
    }
}

impl ListingFault {
    /// Returns the number of the refusal: 1 out of memory, 2 client or file set, 50, 53 and 54 the choice.
    pub fn number(self) -> u32
        ensures { result ≡ mark_number self }
    {
        match self {
            ListingFault::Memory => 1,
            ListingFault::BadName => 2,
            ListingFault::Choice(fault) => fault.number(),
        }
    }
}
