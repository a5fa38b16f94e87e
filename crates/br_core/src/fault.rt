ghost use Rattle.std.specs.Prelude.{◌≡◌};
ghost use Rattle.br_core.specs.Fault.{cause, fault_number};
ghost use Rattle.br_core.specs.declared.fault.StepFault.TheVariants.{Memory};
ghost use Rattle.br_history.specs.Fault as history;
ghost use Rattle.br_plan.specs.Fault as plan;

use br_history::HistoryFault;
use br_plan::PlanFault;
use std::alloc::AllocError;
use thiserror::Error;

/// Why a step was refused.
#[derive(Clone, Copy, Debug, Error)]
pub enum StepFault {
    #[error("out of memory")]
    Memory,
    #[error("the event cannot happen now")]
    NotEnabled,
    #[error("the job is not committed: {0}")]
    Commit(HistoryFault),
    #[error("the restore is not planned: {0}")]
    Plan(PlanFault),
}

impl StepFault {
    /// Returns the number of the refusal: 1 out of memory, 59 not enabled, 40 to 42 of a commit,
    /// 50, 51, 53 and 54 of a plan.
    pub fn number(self) -> u32
        ensures { result ≡ fault_number self }
    {
        match self {
            StepFault::Memory => 1,
            StepFault::NotEnabled => 59,
            StepFault::Commit(why) => why.number(),
            StepFault::Plan(why) => why.number(),
        }
    }

    /// Returns the number of the refusal; none if memory ran out.
    pub(crate) fn cause(self) -> Option<u32>
        ensures { result ≡ cause self }
    {
        let number = self.number();
        if number == 1 { None } else { Some(number) }
    }
}

impl From<AllocError> for StepFault {
    ghost from_gives = { λ _ e. e ≡ Memory };

    fn from(_e: AllocError) -> StepFault {
        StepFault::Memory
    }
}

impl From<HistoryFault> for StepFault {
    ghost from_gives = { λ why e. cause e ≡ history.cause why };

    fn from(why: HistoryFault) -> StepFault {
        match why {
            HistoryFault::Memory => StepFault::Memory,
            why => StepFault::Commit(why),
        }
    }
}

impl From<PlanFault> for StepFault {
    ghost from_gives = { λ why e. cause e ≡ plan.cause why };

    fn from(why: PlanFault) -> StepFault {
        match why {
            PlanFault::Memory => StepFault::Memory,
            why => StepFault::Plan(why),
        }
    }
}
