//! The line `job`, which begins a job.
ghost use Rattle.std.specs.Prelude.{◌≡◌, IfOk};
ghost use Rattle.br_model.specs.Answer.{Answers, AnswersAlways};
ghost use Rattle.br_block.specs.Building.{IsBlockLimit};
ghost use Rattle.br_history.specs.JobLineFault.{cause, fault_number};
ghost use Rattle.br_history.specs.JobHead.{head_said, job_id_said, kinds_said, limit_said, names_said, numbers_said};

use crate::job_fields::{last, letter_of, name_of, next, number_of, small_number};
use crate::job_line_fault::JobLineFault;
use crate::row::JobRow;
use br_types::{JobId, Letter, Name, SessionKey};
use std::alloc::Global;
use std::marker::Model;

/// The greatest size of a block that is written, in bytes.
const MAX_LIMIT: u32 = 64_512;

/// The least value that the greatest size of a block may have, in bytes.
const MIN_LIMIT: u32 = 64;

/// The row of a job, and the greatest size of its blocks.
#[derive(Drop)]
pub struct JobHead {
    pub(crate) row: JobRow,
    pub(crate) limit: u32,
}

impl Model for JobHead {
    ghost use Rattle.br_block.specs.Building.{IsBlockLimit};
    ghost use Rattle.br_history.specs.JobHead.{Begun};

    ghost Value = { Begun };

    ghost view = { λ h. record { row = h.row; limit = h.limit } };

    ghost invariant = { λ h. IsBlockLimit h.limit };
}

/// The fields `ID TYPE LEVEL STATUS`.
#[derive(Drop)]
struct Kinds {
    id: JobId,
    kind: Letter,
    level: Letter,
    status: Letter,
}

impl Model for Kinds {
    ghost use Rattle.br_history.specs.JobHead as said;

    ghost Value = { said.Kinds };

    ghost view = { λ k. record { id = k.id; kind = k.kind; level = k.level; status = k.status } };
}

/// The fields `START SID STIME LIMIT`.
#[derive(Drop)]
struct Numbers {
    start: u64,
    session: SessionKey,
    limit: u32,
}

impl Model for Numbers {
    ghost use Rattle.br_block.specs.Building.{IsBlockLimit};
    ghost use Rattle.br_history.specs.JobHead as said;

    ghost Value = { said.Numbers };

    ghost view = { λ n. record { start = n.start; session = n.session; limit = n.limit } };

    ghost invariant = { λ n. IsBlockLimit n.limit };
}

/// Reads the number of a job.
#[tactic(auto, unfolding(crate::specs::JobHead::job_id_said))]
fn job_id_of(text: &[u8]) -> Result<JobId, JobLineFault>
    ensures { AnswersAlways (λ id. id) fault_number result (job_id_said text.now) }
{
    let number = small_number(text)?;
    match JobId::new(number) {
        Some(id) => Ok(id),
        None => Err(JobLineFault::BadScript),
    }
}

/// Reads the greatest size of a job's blocks.
#[tactic(auto, unfolding(crate::specs::JobHead::limit_said))]
fn limit_of(text: &[u8]) -> Result<u32, JobLineFault>
    ensures says { AnswersAlways (λ n. n) fault_number result (limit_said text.now) }
    ensures bounds { IfOk result IsBlockLimit }
{
    let limit = small_number(text)?;
    if MIN_LIMIT <= limit && limit <= MAX_LIMIT {
        Ok(limit)
    } else {
        Err(JobLineFault::BadScript)
    }
}

/// Reads the fields `ID TYPE LEVEL STATUS`. Returns them and the text after them.
#[tactic(auto, unfolding(crate::specs::JobHead::kinds_said))]
fn read_kinds(text: &[u8]) -> Result<(Kinds, &[u8]), JobLineFault>
    ensures { AnswersAlways (λ p. (p.0, p.1.now)) fault_number result (kinds_said text.now) }
{
    let (id, rest) = next(text)?;
    let (kind, rest) = next(rest)?;
    let (level, rest) = next(rest)?;
    let (status, rest) = next(rest)?;
    let kinds = Kinds {
        id: job_id_of(id)?,
        kind: letter_of(kind)?,
        level: letter_of(level)?,
        status: letter_of(status)?,
    };
    Ok((kinds, rest))
}

/// Reads the fields `START SID STIME LIMIT`. Returns them and the text after them.
#[tactic(auto, unfolding(crate::specs::JobHead::numbers_said))]
fn read_numbers(text: &[u8]) -> Result<(Numbers, &[u8]), JobLineFault>
    ensures { AnswersAlways (λ p. (p.0, p.1.now)) fault_number result (numbers_said text.now) }
{
    let (start, rest) = next(text)?;
    let (id, rest) = next(rest)?;
    let (time, rest) = next(rest)?;
    let (limit, rest) = next(rest)?;
    let numbers = Numbers {
        start: number_of(start, u64::MAX)?,
        session: SessionKey {
            id: small_number(id)?,
            time: small_number(time)?,
        },
        limit: limit_of(limit)?,
    };
    Ok((numbers, rest))
}

/// Reads the fields `CLIENT FILESET`.
#[tactic(auto, unfolding(crate::specs::JobHead::names_said))]
fn read_names(alloc: Global, text: &[u8]) -> Result<(Name, Name), JobLineFault>
    ensures { Answers (λ p. (p.0, p.1)) cause result (names_said text.now) }
{
    let (client, rest) = next(text)?;
    let fileset = last(rest)?;
    let client = name_of(alloc, client)?;
    let fileset = name_of(alloc, fileset)?;
    Ok((client, fileset))
}

/// Reads the fields `ID TYPE LEVEL STATUS START SID STIME LIMIT CLIENT FILESET` of a job. Names are
/// escaped.
///
/// # Errors
///
/// `BadScript` if the fields do not have their forms: the number of the job is from 1 to 2^32 - 1, type,
/// level and status are ASCII letters, the session has two numbers below 2^32, and the greatest size of
/// a block is from 64 to 64,512.
#[tactic(auto, unfolding(crate::specs::JobHead::head_said))]
pub fn read_head(alloc: Global, text: &[u8]) -> Result<JobHead, JobLineFault>
    ensures { Answers (λ h. h) cause result (head_said text.now) }
{
    let (kinds, rest) = read_kinds(text)?;
    let (numbers, rest) = read_numbers(rest)?;
    let (client, fileset) = read_names(alloc, rest)?;
    Ok(JobHead {
        row: JobRow {
            id: kinds.id,
            kind: kinds.kind,
            level: kinds.level,
            status: kinds.status,
            start: numbers.start,
            session: numbers.session,
            client,
            fileset,
        },
        limit: numbers.limit,
    })
}
