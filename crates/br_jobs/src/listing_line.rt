//! The line of a job.
ghost use Rattle.std.specs.Prelude.{◌≡◌, ◌++◌, IfOk, OnOk, option_map};
ghost use Rattle.jiff.specs.Words.{plain_zone};
ghost use Rattle.br_jobs.specs.ListingLine as model;
ghost use Rattle.br_jobs.specs.ListingLine.{IsLine, end_text, names_text, rest_text, start_text, sums_text};
ghost use Rattle.br_jobs.specs.LocalTime.{IsLineIn, IsLocalLine};

use crate::job_volumes::push_volumes;
use crate::local_time::local_text;
use crate::saved_sums::{saved_bytes, saved_files};
use crate::time_zones::Zones;
use crate::utc_moment::moment_text;
use br_history::{FileRow, JobRow, JobRows};
use br_session::Span;
use br_types::{push_escaped, push_number, push_wide};
use jiff::tz::TimeZone;
use std::alloc::{AllocError, Global};

/// Returns the mark of a job, which tells if it is chosen.
fn mark_of(is_chosen: bool) -> u8
    ensures { result ≡ model.mark_of is_chosen }
{
    if is_chosen { b'*' } else { b'-' }
}

/// Appends what comes before the moment of a job.
fn push_start(text: &mut Vec<u8>, is_chosen: bool, job: &JobRows) -> Result<(), AllocError>
    ensures { OnOk result (text.new.items ≡ text.old.items ++ start_text is_chosen job.now) }
{
    let row = job.row();
    text.push(mark_of(is_chosen))?;
    text.push(b' ')?;
    push_number(text, u64::from(row.id.get()))?;
    text.push(b' ')?;
    text.push(row.level.get())?;
    text.push(b' ')?;
    text.push(row.status.get())?;
    text.push(b' ')?;
    Ok(())
}

/// Appends the names in the row of a job.
fn push_names(text: &mut Vec<u8>, row: &JobRow) -> Result<(), AllocError>
    ensures { OnOk result (text.new.items ≡ text.old.items ++ names_text row.now) }
{
    text.push(b' ')?;
    push_escaped(text, row.client.bytes())?;
    text.push(b' ')?;
    push_escaped(text, row.fileset.bytes())?;
    Ok(())
}

/// Appends the number of files that a job saved, and their bytes.
fn push_sums(text: &mut Vec<u8>, files: &[FileRow]) -> Result<(), AllocError>
    ensures { OnOk result (text.new.items ≡ text.old.items ++ sums_text files.now) }
{
    text.push(b' ')?;
    push_number(text, saved_files(files) as u64)?;
    text.push(b' ')?;
    push_wide(text, saved_bytes(files))?;
    Ok(())
}

/// Appends the names of a job's volumes, and the end of its line.
fn push_end(text: &mut Vec<u8>, spans: &[Span]) -> Result<(), AllocError>
    ensures { OnOk result (text.new.items ≡ text.old.items ++ end_text spans.now) }
{
    text.push(b' ')?;
    push_volumes(text, spans)?;
    text.push(b'\n')?;
    Ok(())
}

/// Appends what comes after the moment of a job.
fn push_rest(text: &mut Vec<u8>, job: &JobRows) -> Result<(), AllocError>
    ensures { OnOk result (text.new.items ≡ text.old.items ++ rest_text job.now) }
{
    push_names(text, job.row())?;
    push_sums(text, job.files())?;
    push_end(text, job.spans())
}

/// Returns the line of a job with its moment in UTC.
fn utc_line(alloc: Global, is_chosen: bool, job: &JobRows) -> Result<Vec<u8>, AllocError>
    ensures { IfOk result (λ line. IsLine is_chosen job.now line.items) }
{
    let moment = moment_text(alloc, job.row().start)?;
    let mut text = Vec::new(alloc);
    push_start(&mut text, is_chosen, job)?;
    text.extend_from_slice(&moment)?;
    push_rest(&mut text, job)?;
    Ok(text)
}

/// Returns the line of a job with its moment in UTC and in a zone.
fn local_line(
    alloc: Global,
    zone: &Option<TimeZone<'_>>,
    is_chosen: bool,
    job: &JobRows,
) -> Result<Vec<u8>, AllocError>
    ensures { IfOk result (λ line. IsLocalLine (option_map plain_zone zone.now) is_chosen job.now line.items) }
{
    let moment = moment_text(alloc, job.row().start)?;
    let local = local_text(alloc, zone, job.row().start)?;
    let mut text = Vec::new(alloc);
    push_start(&mut text, is_chosen, job)?;
    text.extend_from_slice(&moment)?;
    text.push(b' ')?;
    text.extend_from_slice(&local)?;
    push_rest(&mut text, job)?;
    Ok(text)
}

/// Returns the line of a job with its moment in the given zones.
pub(crate) fn line_of(
    alloc: Global,
    zones: &Zones<'_>,
    is_chosen: bool,
    job: &JobRows,
) -> Result<Vec<u8>, AllocError>
    ensures { IfOk result (λ line. IsLineIn zones.now is_chosen job.now line.items) }
{
    match zones {
        Zones::Utc => utc_line(alloc, is_chosen, job),
        Zones::UtcAndLocal(zone) => local_line(alloc, zone, is_chosen, job),
    }
}
