//! Why a call on the catalogue fails.

ghost use Rattle.std.specs.Prelude.{◌≡◌};
ghost use Rattle.br_catalog_rows.specs.Fault.{fault_number, of_history_fault, of_name_fault, of_rows_fault};
ghost use Rattle.br_catalog_rows.specs.declared.fault.RowsFault.TheVariants as rows;
ghost use Rattle.br_catalog_rows.specs.declared.fault.StoreFault.TheVariants.{Memory, Store};

use br_history::HistoryFault;
use br_types::NameFault;
use sqlite::Error as SqlError;
use std::alloc::AllocError;
use thiserror::Error;

/// Why the catalogue was not opened, written or loaded.
#[derive(Clone, Copy, Debug, Error)]
pub enum StoreFault {
    #[error("out of memory")]
    Memory,
    #[error("the catalogue's store failed: {0}")]
    Store(SqlError),
    #[error("the catalogue is of another version, or its rows form no history")]
    BadCatalogue,
    #[error("the catalogue is of version 1")]
    OldCatalogue,
}

impl StoreFault {
    /// Returns the number of the refusal: 1 if memory ran out while rows were read, 45 if the store
    /// failed or refused, 47 if the catalogue is of another version or its rows form no history, 48
    /// if it is of version 1 and has to be migrated.
    pub fn number(self) -> u32
        ensures { result ≡ fault_number self }
    {
        match self {
            StoreFault::Memory => 1,
            StoreFault::Store(_) => 45,
            StoreFault::BadCatalogue => 47,
            StoreFault::OldCatalogue => 48,
        }
    }
}

impl From<AllocError> for StoreFault {
    ghost from_gives = { λ _ e. e ≡ Memory };

    fn from(_e: AllocError) -> StoreFault {
        StoreFault::Memory
    }
}

impl From<SqlError> for StoreFault {
    ghost from_gives = { λ cause e. e ≡ Store cause };

    fn from(cause: SqlError) -> StoreFault {
        StoreFault::Store(cause)
    }
}

impl From<RowsFault> for StoreFault {
    ghost from_gives = { λ f e. e ≡ of_rows_fault f };

    fn from(fault: RowsFault) -> StoreFault {
        match fault {
            RowsFault::Memory => StoreFault::Memory,
            RowsFault::BadRows => StoreFault::BadCatalogue,
        }
    }
}

/// Why the rows of a catalogue were not read as a history.
#[derive(Clone, Copy, Debug, Error)]
pub enum RowsFault {
    #[error("out of memory")]
    Memory,
    #[error("the version is not 2, or the rows form no history")]
    BadRows,
}

impl From<AllocError> for RowsFault {
    ghost from_gives = { λ _ e. e ≡ rows.Memory };

    fn from(_e: AllocError) -> RowsFault {
        RowsFault::Memory
    }
}

impl From<NameFault> for RowsFault {
    ghost from_gives = { λ f e. e ≡ of_name_fault f };

    fn from(fault: NameFault) -> RowsFault {
        match fault {
            NameFault::Memory => RowsFault::Memory,
            NameFault::BadName | NameFault::BadPath => RowsFault::BadRows,
        }
    }
}

impl From<HistoryFault> for RowsFault {
    ghost from_gives = { λ f e. e ≡ of_history_fault f };

    fn from(fault: HistoryFault) -> RowsFault {
        match fault {
            HistoryFault::Memory => RowsFault::Memory,
            HistoryFault::DuplicateJob | HistoryFault::DuplicateSession | HistoryFault::BadRow => {
                RowsFault::BadRows
            }
        }
    }
}
