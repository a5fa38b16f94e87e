//! The text of a moment.
ghost use Rattle.std.specs.Prelude.{◌≡◌, ◌∷◌, decimal, IfOk};
ghost use Rattle.br_jobs.specs.ListingLine.{IsMoment};

use br_plan::read_moment;
use br_types::push_number;
use jiff::SignedDuration;
use jiff::civil::DateTime;
use std::alloc::{AllocError, Global};

/// Returns the seconds after an `@`.
fn seconds_text(alloc: Global, seconds: u64) -> Result<Vec<u8>, AllocError>
    ensures { IfOk result (λ text. text.items ≡ 64 ∷ decimal seconds) }
{
    let mut text = Vec::new(alloc);
    text.push(b'@')?;
    push_number(&mut text, seconds)?;
    Ok(text)
}

/// Returns the moment this number of seconds after the beginning of 1970, in UTC, if the calendar has it.
fn civil_at(seconds: u64) -> Option<DateTime> {
    let second = i64::try_from(seconds).ok()?;
    let start = DateTime::new(1970, 1, 1, 0, 0, 0, 0).ok()?;
    start.checked_add(SignedDuration::from_secs(second)).ok()
}

/// Returns a moment as `YYYY-MM-DD HH:MM:SS` in UTC, or nothing if the calendar does not have it.
fn civil_text(alloc: Global, seconds: u64) -> Result<String, AllocError> {
    let Some(civil) = civil_at(seconds) else {
        return Ok(String::new(alloc));
    };
    let (date, time) = (civil.date(), civil.time());
    format!(in alloc;
        "{:04}-{:02}-{:02} {:02}:{:02}:{:02}",
        date.year(),
        date.month(),
        date.day(),
        time.hour(),
        time.minute(),
        time.second()
    )
}

/// Returns a moment as `YYYY-MM-DD HH:MM:SS` in UTC, if that can be read as this moment, else the seconds
/// after an `@`.
pub fn moment_text(alloc: Global, seconds: u64) -> Result<Vec<u8>, AllocError>
    ensures { IfOk result (λ text. IsMoment seconds text.items) }
{
    let text = civil_text(alloc, seconds)?;
    match read_moment(text.as_bytes()) {
        Ok(read) if read == seconds => Vec::from_slice(alloc, text.as_bytes()),
        _ => seconds_text(alloc, seconds),
    }
}
