ghost use Rattle.std.specs.Prelude.{◌≡◌};
ghost use Rattle.br_history.specs.Fault.{fault_number};
ghost use Rattle.br_history.specs.Saving.{saved_job_number};
ghost use Rattle.br_history.specs.declared.fault.HistoryFault.TheVariants.{Memory};

use std::alloc::AllocError;
use thiserror::Error;

/// Why the rows of a job, or a job of a history, were refused.
#[derive(Clone, Copy, Debug, Error)]
pub enum HistoryFault {
    #[error("out of memory")]
    Memory,
    #[error("a job of this number is in the history already")]
    DuplicateJob,
    #[error("a job of this session is in the history already")]
    DuplicateSession,
    #[error("the rows of the job cannot stand together")]
    BadRow,
}

impl HistoryFault {
    /// Returns the number of the refusal: 1 out of memory, 40 another job's number, 41 another
    /// job's session, 42 rows that conflict.
    pub fn number(self) -> u32
        ensures { result ≡ fault_number self }
    {
        match self {
            HistoryFault::Memory => 1,
            HistoryFault::DuplicateJob => 40,
            HistoryFault::DuplicateSession => 41,
            HistoryFault::BadRow => 42,
        }
    }
}

impl From<AllocError> for HistoryFault {
    ghost from_gives = { λ _ e. e ≡ Memory };

    fn from(_e: AllocError) -> HistoryFault {
        HistoryFault::Memory
    }
}

/// Why a job can't be committed, whatever the history and the volumes are.
#[derive(Clone, Copy, Debug, Error)]
pub enum SavedJobFault {
    #[error("the files are out of order: a hard link must name an earlier file of type 2 or 3, and there must be fewer than 2^31 files")]
    BadFileOrder,
    #[error("the job starts after the year 9999")]
    BadRow,
}

impl SavedJobFault {
    /// Returns the number of the refusal: 16 files out of order, 42 a start after the year 9999.
    pub fn number(self) -> u32
        ensures { result ≡ saved_job_number self }
    {
        match self {
            SavedJobFault::BadFileOrder => 16,
            SavedJobFault::BadRow => 42,
        }
    }
}
