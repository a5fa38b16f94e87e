//! The text of a moment in a time zone.
ghost use Rattle.std.specs.Prelude.{◌≡◌, ◌↔◌, codes, map, IfOk, IfSome, IsSome, option_map};
ghost use Rattle.jiff.specs.Words.{plain_zone, IsTimestampNanos};
ghost use Rattle.br_jobs.specs.LocalTime.{IsLocal, IsOnClock, IsShownIn, blank_for_t, nanos_at};

use jiff::Timestamp;
use jiff::tz::TimeZone;
use std::alloc::{AllocError, Global};

/// Returns the text of a moment that a zone can't show.
fn no_text(alloc: Global) -> Result<Vec<u8>, AllocError>
    ensures { IfOk result (λ text. text.items ≡ codes "- -") }
{
    Vec::from_slice(alloc, b"- -")
}

/// Returns a blank for a `T`, and any other byte as it is.
fn blank_for_t(byte: u8) -> u8
    ensures { result ≡ blank_for_t byte }
{
    if byte == b'T' { b' ' } else { byte }
}

/// Returns a text with a blank in place of each `T`.
fn with_blanks(alloc: Global, text: &[u8]) -> Result<Vec<u8>, AllocError>
    ensures { IfOk result (λ blank. blank.items ≡ map blank_for_t text.now) }
{
    let mut blank = Vec::new(alloc);
    for byte in text {
        blank.push(blank_for_t(*byte))?;
    }
    Ok(blank)
}

/// Returns the instant this number of seconds after the beginning of 1970, unless it is beyond the last one.
fn instant_at(seconds: u64) -> Option<Timestamp>
    ensures known { IsSome result ↔ IsTimestampNanos (nanos_at seconds) }
    ensures value { IfSome result (λ instant. instant.nanosecond ≡ nanos_at seconds) }
{
    Timestamp::from_nanosecond(i128::from(seconds) * 1_000_000_000).ok()
}

/// Returns an instant as the clock of a zone shows it.
fn clock_text(alloc: Global, zone: &TimeZone<'_>, instant: Timestamp) -> Result<Vec<u8>, AllocError>
    ensures { IfOk result (λ text. IsOnClock (plain_zone zone.now) instant.nanosecond text.items) }
{
    let text = instant.display_with_offset(zone.to_offset(instant));
    with_blanks(alloc, text.as_bytes())
}

/// Returns a moment in a zone, as `2026-11-22 00:15:33+01:00`; `- -` if it is after jiff's last
/// instant.
fn zoned_text(alloc: Global, zone: &TimeZone<'_>, seconds: u64) -> Result<Vec<u8>, AllocError>
    ensures { IfOk result (λ text. IsShownIn (plain_zone zone.now) seconds text.items) }
{
    match instant_at(seconds) {
        Some(instant) => clock_text(alloc, zone, instant),
        None => no_text(alloc),
    }
}

/// Returns a moment in a zone, as `2026-11-22 00:15:33+01:00`; `- -` if the zone is not known, or has no such
/// moment.
pub(crate) fn local_text(
    alloc: Global,
    zone: &Option<TimeZone<'_>>,
    seconds: u64,
) -> Result<Vec<u8>, AllocError>
    ensures { IfOk result (λ text. IsLocal (option_map plain_zone zone.now) seconds text.items) }
{
    match zone {
        Some(zone) => zoned_text(alloc, zone, seconds),
        None => no_text(alloc),
    }
}
