ghost use Rattle.std.specs.Prelude.{◌≡◌};
ghost use Rattle.br_types.specs.LineFault.{of_escape_fault, of_name_fault};
ghost use Rattle.br_types.specs.declared.line_fault.LineFault.TheVariants.{Memory};

use crate::fault::{EscapeFault, NameFault};
use std::alloc::AllocError;

/// Why a line of a script was refused.
#[derive(Clone, Copy)]
pub enum LineFault {
    Memory,
    /// The line has none of the forms.
    BadScript,
}

impl From<AllocError> for LineFault {
    ghost from_gives = { λ _ e. e ≡ Memory };

    fn from(_e: AllocError) -> LineFault {
        LineFault::Memory
    }
}

impl From<EscapeFault> for LineFault {
    ghost from_gives = { λ f e. e ≡ of_escape_fault f };

    fn from(fault: EscapeFault) -> LineFault {
        match fault {
            EscapeFault::Memory => LineFault::Memory,
            EscapeFault::BadEscape => LineFault::BadScript,
        }
    }
}

impl From<NameFault> for LineFault {
    ghost from_gives = { λ f e. e ≡ of_name_fault f };

    fn from(fault: NameFault) -> LineFault {
        match fault {
            NameFault::Memory => LineFault::Memory,
            _ => LineFault::BadScript,
        }
    }
}
