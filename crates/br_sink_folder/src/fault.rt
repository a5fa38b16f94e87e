ghost use Rattle.std.specs.Prelude.{◌≡◌};
ghost use Rattle.br_sink_folder.specs.Fault.{folder_fault_number};
ghost use Rattle.br_sink_folder.specs.declared.fault.FolderFault.TheVariants.{Memory};

use std::alloc::AllocError;
use thiserror::Error;

/// Why there is no sink over a folder.
#[derive(Clone, Copy, Debug, Error)]
pub enum FolderFault {
    #[error("out of memory")]
    Memory,
    #[error("the folder is not there, or not empty")]
    NotEmpty,
}

impl FolderFault {
    /// Returns the number of the refusal: 1 out of memory, 81 a folder that is not there or not empty.
    pub fn number(self) -> u32
        ensures { result ≡ folder_fault_number self }
    {
        match self {
            FolderFault::Memory => 1,
            FolderFault::NotEmpty => 81,
        }
    }
}

impl From<AllocError> for FolderFault {
    ghost from_gives = { λ _ e. e ≡ Memory };

    fn from(_e: AllocError) -> FolderFault {
        FolderFault::Memory
    }
}
