ghost use Rattle.std.specs.Prelude.{◌≡◌, IfErr};
ghost use Rattle.br_model.specs.Answer.{Answers, AnswersAlways};
ghost use Rattle.br_types.specs.LineFault.{line_cause};
ghost use Rattle.br_cli_serve.specs.ScriptLine.{LeavesDrives, drives_said, fields_said, line_said, said};
ghost use Rattle.br_cli_serve.specs.ScriptLine.{volume_said, word_said};

use crate::drive_count::DriveCount;
use br_history::MAX_LINE;
use br_types::{LineFault, VolName, cut, read_bytes, unescape};
use std::alloc::Global;

/// A line of a script outside of a job.
#[derive(Drop)]
pub(crate) enum ScriptLine<'l> {
    /// Sets the number of drives.
    Drives(DriveCount),
    /// Appends bytes to a volume, which is made if it does not exist.
    Volume { name: VolName, bytes: Vec<u8> },
    /// Begins a bootstrap, whose lines end before a line `.`.
    Bsr,
    /// Runs the kept bootstrap.
    Extract,
    /// Begins a job with these fields.
    Job(&'l [u8]),
    /// Begins a restore with these fields.
    Restore(&'l [u8]),
}

/// Reads the field `N` of a number of drives. It takes no memory.
fn read_drives<'l>(field: &'l [u8]) -> Result<ScriptLine<'l>, LineFault>
    ensures says { AnswersAlways said (λ _. tt) result (drives_said field.now) }
    ensures drives { IfErr result (λ _. LeavesDrives (drives_said field.now)) }
{
    match DriveCount::read(field) {
        Some(count) => Ok(ScriptLine::Drives(count)),
        None => Err(LineFault::BadScript),
    }
}

/// Reads the fields `NAME HEX`.
#[tactic(auto, unfolding(crate::specs::ScriptLine::volume_said))]
fn read_volume<'l>(alloc: Global, fields: &'l [u8]) -> Result<ScriptLine<'l>, LineFault>
    ensures says { Answers said line_cause result (volume_said fields.now) }
    ensures drives { IfErr result (λ _. LeavesDrives (volume_said fields.now)) }
{
    let (name, after) = cut(fields);
    let Some(bytes) = after else {
        return Err(LineFault::BadScript);
    };
    let name = unescape(alloc, name)?;
    Ok(ScriptLine::Volume {
        name: VolName::new(alloc, &name)?,
        bytes: read_bytes(alloc, bytes)?,
    })
}

/// Reads a line of a word and the fields after it. The fields of `job` and `restore` are not
/// checked.
fn read_fields<'l>(
    alloc: Global,
    word: &[u8],
    fields: &'l [u8],
) -> Result<ScriptLine<'l>, LineFault>
    ensures says { Answers said line_cause result (fields_said word.now fields.now) }
    ensures drives { IfErr result (λ _. LeavesDrives (fields_said word.now fields.now)) }
{
    if word == b"volume".as_slice() {
        read_volume(alloc, fields)
    } else if word == b"drives".as_slice() {
        read_drives(fields)
    } else if word == b"job".as_slice() {
        Ok(ScriptLine::Job(fields))
    } else if word == b"restore".as_slice() {
        Ok(ScriptLine::Restore(fields))
    } else {
        Err(LineFault::BadScript)
    }
}

/// Reads a line of one word. It takes no memory.
fn read_word<'l>(word: &'l [u8]) -> Result<ScriptLine<'l>, LineFault>
    ensures says { AnswersAlways said (λ _. tt) result (word_said word.now) }
    ensures drives { IfErr result (λ _. LeavesDrives (word_said word.now)) }
{
    if word == b"bsr".as_slice() {
        Ok(ScriptLine::Bsr)
    } else if word == b"extract".as_slice() {
        Ok(ScriptLine::Extract)
    } else {
        Err(LineFault::BadScript)
    }
}

/// Reads a line outside of a job, given without its LF: `drives N`, `volume NAME HEX`, `bsr`,
/// `extract`, or the first word of `job` or `restore` and the fields after it. Fields are separated
/// by one space, numbers are decimal, names are escaped, and bytes are pairs of hexadecimal digits
/// in lower case, or `-` for none. Memory can't run out for `drives N`.
///
/// # Errors
///
/// `BadScript` for a line of more than 4,096 bytes, and for any other line.
#[tactic(auto, unfolding(crate::specs::ScriptLine::line_said))]
pub(crate) fn read_line<'l>(alloc: Global, line: &'l [u8]) -> Result<ScriptLine<'l>, LineFault>
    ensures says { Answers said line_cause result (line_said line.now) }
    ensures drives { IfErr result (λ _. LeavesDrives (line_said line.now)) }
{
    if line.len() > MAX_LINE {
        return Err(LineFault::BadScript);
    }
    let (word, after) = cut(line);
    match after {
        Some(fields) => read_fields(alloc, word, fields),
        None => read_word(word),
    }
}

/// Tests whether the first word of a line is `restore`.
pub(crate) fn is_restore(line: &[u8]) -> bool {
    let (word, _) = cut(line);
    word == b"restore".as_slice()
}
