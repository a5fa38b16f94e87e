ghost use Rattle.std.specs.Prelude.{◌≡◌, string_bytes};
ghost use Rattle.br_model.specs.Answer.{Answers};
ghost use Rattle.br_model.specs.Name.{checked_name};
ghost use Rattle.br_plan.specs.RequestWords.{cause, checked_request, fault_number};
ghost use Rattle.br_plan.specs.declared.request_words.RequestFault.TheVariants.{BadMoment};

use crate::moment::{BadMoment, read_moment};
use crate::request::Request;
use br_types::{Name, NameFault};
use std::alloc::Global;
use thiserror::Error;

/// Why a request was refused.
#[derive(Clone, Copy, Debug, Error)]
pub enum RequestFault {
    #[error("out of memory")]
    Memory,
    #[error("not the name of a client or of a file set")]
    BadName,
    #[error("not a moment from 1970 on of the form YYYY-MM-DD HH:MM:SS")]
    BadMoment,
}

impl RequestFault {
    /// Returns the number of the refusal: 1 for memory, 2 for a name, 52 for a moment.
    pub fn number(self) -> u32
        ensures { result ≡ fault_number self }
    {
        match self {
            RequestFault::Memory => 1,
            RequestFault::BadName => 2,
            RequestFault::BadMoment => 52,
        }
    }
}

impl From<BadMoment> for RequestFault {
    ghost from_gives = { λ _ e. e ≡ BadMoment };

    fn from(_fault: BadMoment) -> RequestFault {
        RequestFault::BadMoment
    }
}

/// Reads the name of a client or of a file set.
#[tactic(auto, unfolding(br_model::specs::Name::checked_name))]
fn name_of(alloc: Global, text: &str) -> Result<Name, RequestFault>
    ensures { Answers (λ name. name) cause result (checked_name text.now) }
{
    match Name::new(alloc, text.as_bytes()) {
        Ok(name) => Ok(name),
        Err(NameFault::Memory) => Err(RequestFault::Memory),
        Err(NameFault::BadName | NameFault::BadPath) => Err(RequestFault::BadName),
    }
}

/// Reads the request for the state of a client's file set before a moment.
///
/// # Errors
///
/// `BadName` for the client, then for the file set; then `BadMoment`. `Memory` if memory ran out.
#[tactic(auto, unfolding(crate::specs::RequestWords::checked_request))]
pub fn read_request(
    alloc: Global,
    client: &str,
    fileset: &str,
    before: &str,
) -> Result<Request, RequestFault>
    ensures { Answers (λ request. request) cause result (checked_request client.now fileset.now before.now) }
{
    Ok(Request {
        client: name_of(alloc, client)?,
        fileset: name_of(alloc, fileset)?,
        moment: read_moment(before.as_bytes())?,
    })
}
