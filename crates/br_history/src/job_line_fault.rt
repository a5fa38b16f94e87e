ghost use Rattle.std.specs.Prelude.{◌≡◌};
ghost use Rattle.br_history.specs.JobLineFault.{fault_number, of_attr_fault, of_escape_fault, of_line_fault, of_name_fault, of_session_fault};
ghost use Rattle.br_history.specs.declared.job_line_fault.JobLineFault.TheVariants.{Memory};

use br_attr::AttrFault;
use br_session::SessionFault;
use br_types::{EscapeFault, LineFault, NameFault};
use std::alloc::AllocError;
use thiserror::Error;

/// Why a line of a job was refused.
#[derive(Clone, Copy, Debug, Error)]
pub enum JobLineFault {
    #[error("out of memory")]
    Memory,
    #[error("the line fits none of the forms, or stands in a wrong place")]
    BadScript,
    #[error("not a path: a path begins with /, has at most 4096 bytes, no NUL, and no component that is empty, . or ..")]
    BadPath,
    #[error("the numbers of the file: {0}")]
    Stat(AttrFault),
    #[error("{0}")]
    File(SessionFault),
}

impl JobLineFault {
    /// Returns the number of the refusal: 1 out of memory, 90 a line of no known form, 3 a bad
    /// path, 20 and 21 bad numbers of a file, 15 and 17 a file that can't be saved.
    pub fn number(self) -> u32
        ensures { result ≡ fault_number self }
    {
        match self {
            JobLineFault::Memory => 1,
            JobLineFault::BadScript => 90,
            JobLineFault::BadPath => 3,
            JobLineFault::Stat(fault) => fault.number(),
            JobLineFault::File(fault) => fault.number(),
        }
    }
}

impl From<AllocError> for JobLineFault {
    ghost from_gives = { λ _ e. e ≡ Memory };

    fn from(_e: AllocError) -> JobLineFault {
        JobLineFault::Memory
    }
}

impl From<LineFault> for JobLineFault {
    ghost from_gives = { λ f e. e ≡ of_line_fault f };

    fn from(fault: LineFault) -> JobLineFault {
        match fault {
            LineFault::Memory => JobLineFault::Memory,
            LineFault::BadScript => JobLineFault::BadScript,
        }
    }
}

impl From<EscapeFault> for JobLineFault {
    ghost from_gives = { λ f e. e ≡ of_escape_fault f };

    fn from(fault: EscapeFault) -> JobLineFault {
        match fault {
            EscapeFault::Memory => JobLineFault::Memory,
            EscapeFault::BadEscape => JobLineFault::BadScript,
        }
    }
}

impl From<NameFault> for JobLineFault {
    ghost from_gives = { λ f e. e ≡ of_name_fault f };

    fn from(fault: NameFault) -> JobLineFault {
        match fault {
            NameFault::Memory => JobLineFault::Memory,
            NameFault::BadName => JobLineFault::BadScript,
            NameFault::BadPath => JobLineFault::BadPath,
        }
    }
}

impl From<AttrFault> for JobLineFault {
    ghost from_gives = { λ f e. e ≡ of_attr_fault f };

    fn from(fault: AttrFault) -> JobLineFault {
        JobLineFault::Stat(fault)
    }
}

impl From<SessionFault> for JobLineFault {
    ghost from_gives = { λ f e. e ≡ of_session_fault f };

    fn from(fault: SessionFault) -> JobLineFault {
        JobLineFault::File(fault)
    }
}
