ghost use Rattle.std.specs.Prelude.{◌≡◌};
ghost use Rattle.br_cli_serve.specs.declared.script_fault.ScriptFault.TheVariants as of;

use br_engine::NoEnd;
use std::io::{self, ErrorKind};
use thiserror::Error;

/// The reason why a script was not read to its end, or its answers were not written.
#[derive(Debug, Drop, Error)]
pub enum ScriptFault {
    /// The reader or the writer failed.
    #[error("{0}")]
    Io(io::Error),
    /// The script has no end.
    #[error("{0}")]
    NoEnd(NoEnd),
}

impl From<io::Error> for ScriptFault {
    ghost from_gives = { λ fault e. e ≡ of.Io fault };

    fn from(fault: io::Error) -> ScriptFault {
        ScriptFault::Io(fault)
    }
}

impl From<NoEnd> for ScriptFault {
    ghost from_gives = { λ fault e. e ≡ of.NoEnd fault };

    fn from(fault: NoEnd) -> ScriptFault {
        ScriptFault::NoEnd(fault)
    }
}

/// A script without an end is an error of the kind `TimedOut`.
impl From<ScriptFault> for io::Error {
    fn from(fault: ScriptFault) -> io::Error {
        match fault {
            ScriptFault::Io(fault) => fault,
            ScriptFault::NoEnd(_) => io::Error::new(ErrorKind::TimedOut, "the input has no end"),
        }
    }
}
