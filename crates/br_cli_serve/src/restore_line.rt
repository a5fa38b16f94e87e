//! The fields of the line `restore`.
ghost use Rattle.std.specs.Prelude.{◌≡◌};
ghost use Rattle.br_model.specs.Answer.{Answers};
ghost use Rattle.br_cli_serve.specs.RestoreLine.{cause, fault_number, of_field_fault, of_moment_fault, request_said};

use br_history::{JobLineFault, name_of, next};
use br_plan::{BadMoment, Request, read_moment};
use std::alloc::Global;
use thiserror::Error;

/// Why the fields of a restore were refused.
#[derive(Clone, Copy, Debug, Error)]
pub(crate) enum RestoreLineFault {
    #[error("{0}")]
    Field(JobLineFault),
    #[error("{0}")]
    Moment(BadMoment),
}

impl RestoreLineFault {
    /// Returns the number of the refusal: 1 out of memory, 90 malformed fields, 52 a bad moment.
    pub(crate) fn number(self) -> u32
        ensures { result ≡ fault_number self }
    {
        match self {
            RestoreLineFault::Field(fault) => fault.number(),
            RestoreLineFault::Moment(fault) => fault.number(),
        }
    }
}

impl From<JobLineFault> for RestoreLineFault {
    ghost from_gives = { λ f e. e ≡ of_field_fault f };

    fn from(fault: JobLineFault) -> RestoreLineFault {
        RestoreLineFault::Field(fault)
    }
}

impl From<BadMoment> for RestoreLineFault {
    ghost from_gives = { λ f e. e ≡ of_moment_fault f };

    fn from(fault: BadMoment) -> RestoreLineFault {
        RestoreLineFault::Moment(fault)
    }
}

/// Reads the fields `CLIENT FILESET MOMENT` of a restore. The names are escaped, and the moment is the
/// rest of the line.
///
/// # Errors
///
/// `Field` if there are fewer fields or a name is invalid, and then `Moment` for a bad moment.
#[tactic(auto, unfolding(crate::specs::RestoreLine::request_said))]
pub(crate) fn read_request(alloc: Global, fields: &[u8]) -> Result<Request, RestoreLineFault>
    ensures { Answers (λ q. q) cause result (request_said fields.now) }
{
    let (client, rest) = next(fields)?;
    let (fileset, moment) = next(rest)?;
    let client = name_of(alloc, client)?;
    let fileset = name_of(alloc, fileset)?;
    let moment = read_moment(moment)?;
    Ok(Request {
        client,
        fileset,
        moment,
    })
}
