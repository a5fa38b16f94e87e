ghost use Rattle.std.specs.Prelude.{◌≡◌};
ghost use Rattle.br_store.specs.declared.look_fault.LookFault.TheVariants.{Database, Memory};

use sqlite::Error as SqlError;
use std::alloc::AllocError;
use thiserror::Error;

/// Why a catalogue is not shown.
#[derive(Clone, Copy, Debug, Error)]
pub enum LookFault {
    #[error("out of memory")]
    Memory,
    #[error("another program writes to the file, left a journal beside it, or has emptied it")]
    InUse,
    #[error("the file can't be read")]
    Unreadable,
    #[error("{0}")]
    Database(SqlError),
}

impl From<AllocError> for LookFault {
    ghost from_gives = { λ _ e. e ≡ Memory };

    fn from(_e: AllocError) -> LookFault {
        LookFault::Memory
    }
}

impl From<SqlError> for LookFault {
    ghost from_gives = { λ cause e. e ≡ Database cause };

    fn from(cause: SqlError) -> LookFault {
        LookFault::Database(cause)
    }
}
