//! The lines of a job after the first.
ghost use Rattle.std.specs.Prelude.{◌≡◌};
ghost use Rattle.br_model.specs.Answer.{Answers};
ghost use Rattle.br_history.specs.JobLineFault.{cause};
ghost use Rattle.br_history.specs.JobLine.{line_asked, delete_said, fields_said, line_said, place_said, put_line_said, word_said};

use crate::file_line::{path_of, read_put};
use crate::job_fields::{last, next, small_number, volume_of};
use crate::job_line_fault::JobLineFault;
use br_session::{Place, SavedFile};
use br_types::{Path, cut};
use std::alloc::Global;

/// The greatest number of bytes of a line of a script, without its LF.
pub const MAX_LINE: usize = 4096;

/// A line of a job after the first.
#[derive(Drop)]
pub enum JobLine {
    /// Saves a file.
    Save(SavedFile),
    /// Notes a path as deleted.
    Delete(Path),
    /// Gives the next place for the job's blocks.
    Place(Place),
    /// Ends the job.
    End,
}

/// Reads the fields of a file that is saved with a digest or without.
#[tactic(auto, unfolding(crate::specs::JobLine::put_line_said))]
fn read_save(alloc: Global, fields: &[u8], digest: bool) -> Result<JobLine, JobLineFault>
    ensures { Answers line_asked cause result (put_line_said digest fields.now) }
{
    Ok(JobLine::Save(read_put(alloc, fields, digest)?))
}

/// Reads the field `PATH`.
#[tactic(auto, unfolding(crate::specs::JobLine::delete_said))]
fn read_delete(alloc: Global, field: &[u8]) -> Result<JobLine, JobLineFault>
    ensures { Answers line_asked cause result (delete_said field.now) }
{
    let field = last(field)?;
    Ok(JobLine::Delete(path_of(alloc, field)?))
}

/// Reads the fields `VOLUME BLOCKS`.
#[tactic(auto, unfolding(crate::specs::JobLine::place_said))]
fn read_place(alloc: Global, fields: &[u8]) -> Result<JobLine, JobLineFault>
    ensures { Answers line_asked cause result (place_said fields.now) }
{
    let (vol, blocks) = next(fields)?;
    let blocks = small_number(blocks)?;
    let vol = volume_of(alloc, vol)?;
    Ok(JobLine::Place(Place { vol, blocks }))
}

/// Reads a line of a word and the fields after it.
fn read_fields(alloc: Global, word: &[u8], fields: &[u8]) -> Result<JobLine, JobLineFault>
    ensures { Answers line_asked cause result (fields_said word.now fields.now) }
{
    if word == b"put".as_slice() {
        read_save(alloc, fields, false)
    } else if word == b"putd".as_slice() {
        read_save(alloc, fields, true)
    } else if word == b"del".as_slice() {
        read_delete(alloc, fields)
    } else if word == b"place".as_slice() {
        read_place(alloc, fields)
    } else {
        Err(JobLineFault::BadScript)
    }
}

/// Reads a line of one word.
fn read_word(word: &[u8]) -> Result<JobLine, JobLineFault>
    ensures { Answers line_asked cause result (word_said word.now) }
{
    if word == b"end".as_slice() {
        Ok(JobLine::End)
    } else {
        Err(JobLineFault::BadScript)
    }
}

/// Reads a line of a job after the first, given without its LF: `put TYPE PATH HEX HEXLINK STAT`, `putd`
/// with the same fields, `del PATH`, `place VOLUME BLOCKS` or `end`. Fields are separated by one space,
/// numbers are decimal, names and paths are escaped, and bytes are pairs of
/// hexadecimal digits in lower case, or `-` for none. The numbers of a file are the rest of the line.
///
/// # Errors
///
/// `BadScript` for a line of more than 4,096 bytes, and for one that has none of these forms. Then
/// for `put` and `putd` in this order: `BadPath`, `Stat` and `File`; for `del` `BadPath`.
#[tactic(auto, unfolding(crate::specs::JobLine::line_said))]
pub fn read_job_line(alloc: Global, line: &[u8]) -> Result<JobLine, JobLineFault>
    ensures { Answers line_asked cause result (line_said line.now) }
{
    if line.len() > MAX_LINE {
        return Err(JobLineFault::BadScript);
    }
    let (word, after) = cut(line);
    match after {
        Some(fields) => read_fields(alloc, word, fields),
        None => read_word(word),
    }
}
