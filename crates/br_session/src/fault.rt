ghost use Rattle.std.specs.Prelude.{◌≡◌};
ghost use Rattle.br_session.specs.Fault.{fault_number};
ghost use Rattle.br_session.specs.declared.fault.SessionFault.TheVariants.{Memory};

use std::alloc::AllocError;
use thiserror::Error;

/// Why a file or a session was refused.
#[derive(Clone, Copy, Debug, Error)]
pub enum SessionFault {
    #[error("out of memory")]
    Memory,
    #[error("the file is too large: a saved file has at most 2^30 bytes")]
    TooLarge,
    #[error("the files are out of order: a hard link must name an earlier file of type 2 or 3, and there must be fewer than 2^31 files")]
    BadFileOrder,
    #[error("the file cannot be saved: types are 1 to 5, the paths of directories and no others end in /, only type 3 has bytes, and only links have a link text, of at most 4096 bytes without NUL")]
    BadSavedFile,
    #[error("a span does not fit a catalogue: it must end before the address 2^63 - 1, and there must be fewer than 2^32 spans")]
    BadRow,
}

impl SessionFault {
    /// Returns the number of the refusal: 1 for memory, 15 for a file that is too large, 16 for
    /// files out of order, 17 for a file that cannot be saved, 42 for a span that does not fit a
    /// catalogue.
    pub fn number(self) -> u32
        ensures { result ≡ fault_number self }
    {
        match self {
            SessionFault::Memory => 1,
            SessionFault::TooLarge => 15,
            SessionFault::BadFileOrder => 16,
            SessionFault::BadSavedFile => 17,
            SessionFault::BadRow => 42,
        }
    }
}

impl From<AllocError> for SessionFault {
    ghost from_gives = { λ _ e. e ≡ Memory };

    fn from(_e: AllocError) -> SessionFault {
        SessionFault::Memory
    }
}
