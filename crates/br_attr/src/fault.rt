ghost use Rattle.std.specs.Prelude.{◌≡◌};
ghost use Rattle.br_attr.specs.Fault.{fault_number, of_name_fault};
ghost use Rattle.br_attr.specs.declared.fault.AttrFault.TheVariants.{Memory};

use br_types::NameFault;
use std::alloc::AllocError;
use thiserror::Error;

/// Why a number or an attribute record was refused.
#[derive(Clone, Copy, Debug, Error)]
pub enum AttrFault {
    #[error("out of memory")]
    Memory,
    #[error("not a number: a number of a file is base 64 digits after an optional minus and fits 64 bits; an index or a type is decimal, 1 to 2147483647")]
    BadNumber,
    #[error("a field is missing: an attribute record has an index, a type, a path and at least 13 numbers")]
    MissingField,
    #[error("not a path: a path begins with /, has at most 4096 bytes, no NUL, and no component that is empty, . or ..")]
    BadName,
    #[error("the record belongs to a file with another index")]
    IndexDiffers,
}

impl AttrFault {
    /// Returns the number of the refusal: 1 for memory, 20 for a bad number, 21 for a missing
    /// field, 22 for a bad path, 23 for another index.
    pub fn number(self) -> u32
        ensures { result ≡ fault_number self }
    {
        match self {
            AttrFault::Memory => 1,
            AttrFault::BadNumber => 20,
            AttrFault::MissingField => 21,
            AttrFault::BadName => 22,
            AttrFault::IndexDiffers => 23,
        }
    }
}

impl From<AllocError> for AttrFault {
    ghost from_gives = { λ _ e. e ≡ Memory };

    fn from(_e: AllocError) -> AttrFault {
        AttrFault::Memory
    }
}

impl From<NameFault> for AttrFault {
    ghost from_gives = { λ f e. e ≡ of_name_fault f };

    fn from(fault: NameFault) -> AttrFault {
        match fault {
            NameFault::Memory => AttrFault::Memory,
            NameFault::BadName | NameFault::BadPath => AttrFault::BadName,
        }
    }
}
