//! The fields of the lines of a job.
ghost use Rattle.std.specs.Prelude.{◌≡◌, ◌≤◌, ◌<◌, ◌^◌, IfOk};
ghost use Rattle.br_model.specs.Answer.{Answers, AnswersAlways};
ghost use Rattle.br_history.specs.JobLineFault.{cause, fault_number};
ghost use Rattle.br_history.specs.JobFields.{field, last_field, letter_said, name_said, number_said, volume_said};

use crate::job_line_fault::JobLineFault;
use br_types::{Letter, Name, VolName, cut, read_number, unescape};
use std::alloc::Global;

/// Returns the first field of a text and the text after it.
///
/// # Errors
///
/// `BadScript` if nothing follows the field.
#[tactic(auto, unfolding(crate::specs::JobFields::field))]
pub fn next(text: &[u8]) -> Result<(&[u8], &[u8]), JobLineFault>
    ensures { AnswersAlways (λ p. (p.0.now, p.1.now)) fault_number result (field text.now) }
{
    let (word, after) = cut(text);
    match after {
        Some(rest) => Ok((word, rest)),
        None => Err(JobLineFault::BadScript),
    }
}

/// Returns the text, which is the last field.
///
/// # Errors
///
/// `BadScript` if it has a space.
#[tactic(auto, unfolding(crate::specs::JobFields::last_field))]
pub(crate) fn last(text: &[u8]) -> Result<&[u8], JobLineFault>
    ensures { AnswersAlways (λ p. p.now) fault_number result (last_field text.now) }
{
    let (word, after) = cut(text);
    match after {
        None => Ok(word),
        Some(_) => Err(JobLineFault::BadScript),
    }
}

/// Reads a number in decimal that is at most `most`.
#[tactic(auto, unfolding(crate::specs::JobFields::number_said))]
pub(crate) fn number_of(text: &[u8], most: u64) -> Result<u64, JobLineFault>
    ensures says { AnswersAlways (λ n. n) fault_number result (number_said most text.now) }
    ensures fits { IfOk result (λ n. n ≤ most) }
{
    match read_number(text, most) {
        Some(number) => Ok(number),
        None => Err(JobLineFault::BadScript),
    }
}

/// Reads a number in decimal below 2^32.
pub(crate) fn small_number(text: &[u8]) -> Result<u32, JobLineFault>
    ensures { AnswersAlways (λ n. n) fault_number result (number_said 4294967295 text.now) }
{
    match number_of(text, 4_294_967_295) {
        Ok(number) => Ok(number as u32),
        Err(fault) => Err(fault),
    }
}

/// Reads one ASCII letter.
#[tactic(auto, unfolding(crate::specs::JobFields::letter_said))]
pub(crate) fn letter_of(text: &[u8]) -> Result<Letter, JobLineFault>
    ensures { AnswersAlways (λ l. l) fault_number result (letter_said text.now) }
{
    match text {
        [byte] => Letter::new(*byte).ok_or(JobLineFault::BadScript),
        _ => Err(JobLineFault::BadScript),
    }
}

/// Reads an escaped name.
#[tactic(auto, unfolding(crate::specs::JobFields::name_said, br_model::specs::Name::checked_name))]
pub fn name_of(alloc: Global, text: &[u8]) -> Result<Name, JobLineFault>
    ensures { Answers (λ name. name) cause result (name_said text.now) }
{
    let name = unescape(alloc, text)?;
    Ok(Name::new(alloc, &name)?)
}

/// Reads the escaped name of a volume.
#[tactic(auto, unfolding(crate::specs::JobFields::volume_said, br_model::specs::Name::checked_volume_name))]
pub(crate) fn volume_of(alloc: Global, text: &[u8]) -> Result<VolName, JobLineFault>
    ensures { Answers (λ name. name) cause result (volume_said text.now) }
{
    let name = unescape(alloc, text)?;
    Ok(VolName::new(alloc, &name)?)
}
