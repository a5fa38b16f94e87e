ghost use Rattle.std.specs.Prelude.{◌≡◌};
ghost use Rattle.br_keeper.specs.Fault.{fault_number, of_history_fault, of_store_fault};
ghost use Rattle.br_keeper.specs.declared.fault.KeeperFault.TheVariants.{Memory};

use crate::job_store::JobStoreFault;
use br_history::HistoryFault;
use std::alloc::AllocError;
use thiserror::Error;

/// Why a job was not committed, or a keeper not made.
#[derive(Clone, Copy, Debug, Error)]
pub enum KeeperFault {
    #[error("out of memory")]
    Memory,
    #[error("a job of this number is in the history already")]
    DuplicateJob,
    #[error("a job of this session is in the history already")]
    DuplicateSession,
    #[error("a span would end after the address 2^63 - 2, or there would be 2^32 spans or more")]
    BadRow,
    #[error("a volume has bytes that no job vouches for, or an append to it failed")]
    RetiredVolume,
    #[error("the store of volumes failed")]
    Volume,
    #[error("the catalogue failed")]
    Store,
    #[error("the job is stored, and is not published yet")]
    StoredNotPublished,
    #[error("the catalogue is of another version, or its rows form no history")]
    BadCatalogue,
}

impl KeeperFault {
    /// Returns the number of the refusal: 1 out of memory, 40 another job's number, 41 another
    /// job's session, 42 a span that ends too late, 43 a retired volume, 44 a store of
    /// volumes that failed, 45 a catalogue that failed, 46 a job that is stored and not published,
    /// 47 a catalogue that cannot be read as one.
    pub fn number(self) -> u32
        ensures { result ≡ fault_number self }
    {
        match self {
            KeeperFault::Memory => 1,
            KeeperFault::DuplicateJob => 40,
            KeeperFault::DuplicateSession => 41,
            KeeperFault::BadRow => 42,
            KeeperFault::RetiredVolume => 43,
            KeeperFault::Volume => 44,
            KeeperFault::Store => 45,
            KeeperFault::StoredNotPublished => 46,
            KeeperFault::BadCatalogue => 47,
        }
    }
}

impl From<AllocError> for KeeperFault {
    ghost from_gives = { λ _ e. e ≡ Memory };

    fn from(_e: AllocError) -> KeeperFault {
        KeeperFault::Memory
    }
}

impl From<HistoryFault> for KeeperFault {
    ghost from_gives = { λ f e. e ≡ of_history_fault f };

    fn from(fault: HistoryFault) -> KeeperFault {
        match fault {
            HistoryFault::Memory => KeeperFault::Memory,
            HistoryFault::DuplicateJob => KeeperFault::DuplicateJob,
            HistoryFault::DuplicateSession => KeeperFault::DuplicateSession,
            HistoryFault::BadRow => KeeperFault::BadRow,
        }
    }
}

impl From<JobStoreFault> for KeeperFault {
    ghost from_gives = { λ f e. e ≡ of_store_fault f };

    fn from(fault: JobStoreFault) -> KeeperFault {
        match fault {
            JobStoreFault::Memory => KeeperFault::Memory,
            JobStoreFault::Store => KeeperFault::Store,
            JobStoreFault::BadCatalogue => KeeperFault::BadCatalogue,
        }
    }
}
