ghost use Rattle.std.specs.Prelude.{◌≡◌, ◌++◌, OnOk};
ghost use Rattle.std.specs.IoError.{error_kind};
ghost use Rattle.br_console.specs.ConsoleFault.{fault_number, fault_text, IsReadFault};
ghost use Rattle.br_console.specs.declared.console_fault.ConsoleFault.TheVariants.{Memory, Plan, Piece, Io};
ghost use Rattle.br_console.specs.declared.console_fault.ConsoleFault.TheVariants as of;

use br_engine::{NoEnd, push_pool_line, push_refused_line};
use br_plan::PlanFault;
use br_pool::PoolFault;
use std::alloc::AllocError;
use std::io::{self, ErrorKind};
use thiserror::Error;

/// The reason why a run of the console ended early.
#[derive(Debug, Drop, Error)]
pub enum ConsoleFault {
    #[error("out of memory")]
    Memory,
    /// No jobs were chosen, or nothing was marked.
    #[error("{0}")]
    Plan(PlanFault),
    /// A volume could not be read, or no drive is left.
    #[error("{0}")]
    Piece(PoolFault),
    /// Data that are read again are no longer those that were found.
    #[error("a volume was changed while it was read")]
    Changed,
    /// Reading the lines or writing the results failed.
    #[error("{0}")]
    Io(io::Error),
    /// The lines have no end.
    #[error("{0}")]
    NoEnd(NoEnd),
}

impl From<AllocError> for ConsoleFault {
    ghost from_gives = { λ _ e. e ≡ Memory };

    fn from(_e: AllocError) -> ConsoleFault {
        ConsoleFault::Memory
    }
}

impl From<PlanFault> for ConsoleFault {
    ghost from_gives = { λ fault e. e ≡ Plan fault };

    fn from(fault: PlanFault) -> ConsoleFault {
        ConsoleFault::Plan(fault)
    }
}

impl From<PoolFault> for ConsoleFault {
    ghost from_gives = { λ fault e. e ≡ Piece fault };

    fn from(fault: PoolFault) -> ConsoleFault {
        ConsoleFault::Piece(fault)
    }
}

impl From<io::Error> for ConsoleFault {
    ghost from_gives = { λ fault e. e ≡ Io fault };

    fn from(fault: io::Error) -> ConsoleFault {
        ConsoleFault::Io(fault)
    }
}

impl From<NoEnd> for ConsoleFault {
    ghost from_gives = { λ fault e. e ≡ of.NoEnd fault };

    fn from(fault: NoEnd) -> ConsoleFault {
        ConsoleFault::NoEnd(fault)
    }
}

impl ConsoleFault {
    /// Returns the fault of a session whose lines can't be read: `Memory` if memory ran out for one,
    /// else `Io`.
    pub(crate) fn of_reading(fault: io::Error) -> ConsoleFault
        ensures { IsReadFault (error_kind fault) (Io fault) result }
    {
        if fault.kind() == ErrorKind::OutOfMemory {
            ConsoleFault::Memory
        } else {
            ConsoleFault::Io(fault)
        }
    }

    /// Returns the number of the refusal: 1 out of memory, 50, 53 or 54 no jobs to choose, 51
    /// nothing marked, 10 to 12 and 14 a volume, 70 no drive left, 72 a volume that was changed. A
    /// fault of reading or writing is no refusal, and neither are lines without an end.
    pub fn number(&self) -> Option<u32>
        ensures { result ≡ fault_number self.now }
    {
        match self {
            ConsoleFault::Memory => Some(1),
            ConsoleFault::Plan(fault) => Some(fault.number()),
            ConsoleFault::Piece(fault) => Some(fault.number()),
            ConsoleFault::Changed => Some(72),
            ConsoleFault::Io(_) | ConsoleFault::NoEnd(_) => None,
        }
    }

    /// Appends the line of the refusal: `refused N VOLUME ADDRESS` for 10 to 14, with the volume
    /// escaped, otherwise `refused N`. Appends nothing for a fault of reading or writing, or lines
    /// without an end.
    ///
    /// If memory runs out here, a part of the line may have been appended.
    pub fn push_line(&self, text: &mut Vec<u8>) -> Result<(), AllocError>
        ensures { OnOk result (text.new.items ≡ text.old.items ++ fault_text self.now) }
    {
        match self {
            ConsoleFault::Memory => push_refused_line(text, 1),
            ConsoleFault::Plan(fault) => push_refused_line(text, fault.number()),
            ConsoleFault::Piece(fault) => push_pool_line(text, fault),
            ConsoleFault::Changed => push_refused_line(text, 72),
            ConsoleFault::Io(_) | ConsoleFault::NoEnd(_) => Ok(()),
        }
    }
}
