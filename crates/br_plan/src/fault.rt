ghost use Rattle.std.specs.Prelude.{◌≡◌};
ghost use Rattle.br_choose.specs.declared.fault.ChooseFault as choosing;
ghost use Rattle.br_plan.specs.Fault.{fault_number, from_choice};
ghost use Rattle.br_plan.specs.declared.fault.PlanFault.TheVariants.{Memory};

use br_choose::ChooseFault;
use std::alloc::AllocError;
use thiserror::Error;

/// Why no plan was made.
#[derive(Clone, Copy, Debug, Error)]
pub enum PlanFault {
    #[error("out of memory")]
    Memory,
    #[error("no good Full of this client and this file set began before the moment")]
    NoFull,
    #[error("no marked path is in the view")]
    NothingMarked,
    #[error("no job names this client")]
    UnknownClient,
    #[error("no job of this client names this file set")]
    UnknownFileSet,
}

impl PlanFault {
    /// Returns the number of the refusal: 1 out of memory, 50 no Full, 51 nothing marked, 53 an
    /// unknown client, 54 an unknown file set of the client.
    pub fn number(self) -> u32
        ensures { result ≡ fault_number self }
    {
        match self {
            PlanFault::Memory => 1,
            PlanFault::NoFull => 50,
            PlanFault::NothingMarked => 51,
            PlanFault::UnknownClient => 53,
            PlanFault::UnknownFileSet => 54,
        }
    }
}

impl From<AllocError> for PlanFault {
    ghost from_gives = { λ _ e. e ≡ Memory };

    fn from(_e: AllocError) -> PlanFault {
        PlanFault::Memory
    }
}

impl From<ChooseFault> for PlanFault {
    ghost from_gives = { λ why e. e ≡ from_choice why };

    fn from(why: ChooseFault) -> PlanFault {
        match why {
            ChooseFault::Memory => PlanFault::Memory,
            ChooseFault::NoFull => PlanFault::NoFull,
            ChooseFault::UnknownClient => PlanFault::UnknownClient,
            ChooseFault::UnknownFileSet => PlanFault::UnknownFileSet,
        }
    }
}
