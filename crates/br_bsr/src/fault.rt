ghost use Rattle.std.specs.Prelude.{◌≡◌};
ghost use Rattle.br_bsr.specs.Fault.{fault_number, fault_line, cause, refusal_cause, at_line};
ghost use Rattle.br_bsr.specs.declared.fault.LineRefusal.TheVariants.{Memory};
ghost use Rattle.br_bsr.specs.declared.fault.BsrFault.TheVariants as fault;

use std::alloc::{AllocError, AllocFailed};
use thiserror::Error;

/// Why a bootstrap was refused, with the number of the refused line, from 1.
#[derive(Clone, Copy, Debug, Error)]
pub enum BsrFault {
    #[error("out of memory")]
    Memory,
    #[error("line {line}: a criterion before the first Volume; write a line Volume=\"name\" above it")]
    VolumeFirst { line: u64 },
    #[error("line {line}: not a keyword of a bootstrap; correct its spelling")]
    UnknownKeyword { line: u64 },
    #[error("line {line}: Client, Job, JobId, JobType, JobLevel and FileRegex are not supported; remove the line")]
    UnsupportedKeyword { line: u64 },
    #[error("line {line}: the value is missing, malformed or out of range, or a quote is not closed; correct what follows the keyword")]
    BadValue { line: u64 },
    #[error("line {line}: more than 4096 bytes; split the line")]
    TooLong { line: u64 },
}

impl BsrFault {
    /// Returns the number of the refusal: 1 for memory, 30 for a criterion before the first volume,
    /// 31 for an unknown keyword, 32 for an unsupported one, 33 for a bad value, 34 for a line that
    /// is too long.
    pub fn number(self) -> u32
        ensures { result ≡ fault_number self }
    {
        match self {
            BsrFault::Memory => 1,
            BsrFault::VolumeFirst { .. } => 30,
            BsrFault::UnknownKeyword { .. } => 31,
            BsrFault::UnsupportedKeyword { .. } => 32,
            BsrFault::BadValue { .. } => 33,
            BsrFault::TooLong { .. } => 34,
        }
    }

    /// Returns the number of the refused line, from 1; `None` if memory ran out.
    pub fn line(self) -> Option<u64>
        ensures { result ≡ fault_line self }
    {
        match self {
            BsrFault::Memory => None,
            BsrFault::VolumeFirst { line }
            | BsrFault::UnknownKeyword { line }
            | BsrFault::UnsupportedKeyword { line }
            | BsrFault::BadValue { line }
            | BsrFault::TooLong { line } => Some(line),
        }
    }
}

impl From<AllocError> for BsrFault {
    ghost from_gives = { λ _ e. e ≡ fault.Memory };

    fn from(_e: AllocError) -> BsrFault {
        BsrFault::Memory
    }
}

/// Why a line was refused.
#[derive(Clone, Copy)]
pub enum LineRefusal {
    Memory,
    VolumeFirst,
    UnknownKeyword,
    UnsupportedKeyword,
    BadValue,
    TooLong,
}

impl LineRefusal {
    /// Returns the refusal of a text whose line with the number `line` has this refusal.
    pub fn at(self, line: u64) -> BsrFault
        ensures { cause result ≡ at_line line (refusal_cause self) }
    {
        match self {
            LineRefusal::Memory => BsrFault::Memory,
            LineRefusal::VolumeFirst => BsrFault::VolumeFirst { line },
            LineRefusal::UnknownKeyword => BsrFault::UnknownKeyword { line },
            LineRefusal::UnsupportedKeyword => BsrFault::UnsupportedKeyword { line },
            LineRefusal::BadValue => BsrFault::BadValue { line },
            LineRefusal::TooLong => BsrFault::TooLong { line },
        }
    }
}

impl<T: Drop> From<AllocFailed<T>> for LineRefusal {
    ghost from_gives = { λ _ e. e ≡ Memory };

    fn from(_e: AllocFailed<T>) -> LineRefusal {
        LineRefusal::Memory
    }
}
