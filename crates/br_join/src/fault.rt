ghost use Rattle.std.specs.Prelude.{◌≡◌};
ghost use Rattle.br_join.specs.Fault.{fault_number};

use thiserror::Error;

/// The reason why a joiner took nothing.
#[derive(Clone, Copy, Debug, Error)]
pub enum JoinFault {
    #[error("out of memory")]
    Memory,
    #[error("the piece is not one of those that are joined")]
    StrangerPiece,
}

impl JoinFault {
    /// Returns the number of the refusal: 1 or 58.
    pub fn number(self) -> u32
        ensures { result ≡ fault_number self }
    {
        match self {
            JoinFault::Memory => 1,
            JoinFault::StrangerPiece => 58,
        }
    }
}

/// A value that a joiner did not take and returns, with the reason.
#[derive(Drop)]
pub struct Refused<T> {
    pub value: T,
    pub fault: JoinFault,
}
