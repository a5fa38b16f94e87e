//! The lines `put` and `putd` of a job.
ghost use Rattle.std.specs.Prelude.{◌≡◌, IfOk};
ghost use Rattle.br_model.specs.Answer.{Answers, AnswersAlways};
ghost use Rattle.br_history.specs.JobLineFault.{cause, fault_number};
ghost use Rattle.br_history.specs.FileLine.{file_after, file_said, parts_said, path_said, put_said, saved_said, texts_said};

use crate::job_fields::{next, small_number};
use crate::job_line_fault::JobLineFault;
use br_attr::Stat;
use br_session::SavedFile;
use br_types::{Path, read_bytes, unescape};
use std::alloc::Global;
use std::marker::Model;

/// The fields of a line: the type of a file, and the texts of its path, bytes, link and numbers.
#[derive(Drop)]
struct PutFields<'a> {
    kind: u32,
    path: &'a [u8],
    bytes: &'a [u8],
    link: &'a [u8],
    stat: &'a [u8],
}

impl<'a> Model for PutFields<'a> {
    ghost use Rattle.br_history.specs.FileLine.{PutTexts};

    ghost Value = { PutTexts };

    ghost view = { λ f. record { kind = f.kind; path = f.path.now; bytes = f.bytes.now; link = f.link.now; stat = f.stat.now } };
}

/// Cuts the fields `TYPE PATH HEX HEXLINK STAT`, of which the last is the rest.
#[tactic(auto, unfolding(crate::specs::FileLine::texts_said))]
fn put_fields(fields: &[u8]) -> Result<PutFields<'_>, JobLineFault>
    ensures { AnswersAlways (λ f. f) fault_number result (texts_said fields.now) }
{
    let (kind, rest) = next(fields)?;
    let (path, rest) = next(rest)?;
    let (bytes, rest) = next(rest)?;
    let (link, stat) = next(rest)?;
    Ok(PutFields {
        kind: small_number(kind)?,
        path,
        bytes,
        link,
        stat,
    })
}

/// Reads an escaped path.
#[tactic(auto, unfolding(crate::specs::FileLine::path_said, br_model::specs::Name::checked_path))]
pub(crate) fn path_of(alloc: Global, text: &[u8]) -> Result<Path, JobLineFault>
    ensures { Answers (λ path. path) cause result (path_said text.now) }
{
    let path = unescape(alloc, text)?;
    Ok(Path::new(alloc, &path)?)
}

/// Reads the bytes and the link of a file.
#[tactic(auto, unfolding(crate::specs::FileLine::parts_said))]
fn parts_of(alloc: Global, fields: &PutFields<'_>) -> Result<(Vec<u8>, Vec<u8>), JobLineFault>
    ensures { Answers (λ p. (p.0.items, p.1.items)) cause result (parts_said fields.now) }
{
    let bytes = read_bytes(alloc, fields.bytes)?;
    let link = read_bytes(alloc, fields.link)?;
    Ok((bytes, link))
}

/// Tests a path, and then reads the numbers of a file.
#[tactic(auto, unfolding(crate::specs::FileLine::put_said, br_model::specs::Name::checked_path))]
fn path_and_stat(alloc: Global, path: &[u8], stat: &[u8]) -> Result<(Path, Stat), JobLineFault>
    ensures { Answers (λ p. (p.0, p.1)) cause result (put_said path.now stat.now) }
{
    let path = Path::new(alloc, path)?;
    let stat = Stat::read(stat)?;
    Ok((path, stat))
}

/// Makes the file of these fields, with this path.
#[tactic(auto, unfolding(crate::specs::FileLine::file_after))]
fn with_path(
    alloc: Global,
    fields: &PutFields<'_>,
    path: &[u8],
    digest: bool,
) -> Result<SavedFile, JobLineFault>
    ensures file { Answers (λ f. f.file) cause result (file_after fields.now path.now) }
    ensures digest { IfOk result (λ f. f.digest ≡ digest) }
{
    let (bytes, link) = parts_of(alloc, fields)?;
    let (path, stat) = path_and_stat(alloc, path, fields.stat)?;
    Ok(SavedFile::new(path, fields.kind, stat, link, bytes, digest)?)
}

/// Makes the file of these fields.
#[tactic(auto, unfolding(crate::specs::FileLine::file_said))]
fn file_of(alloc: Global, fields: &PutFields<'_>, digest: bool) -> Result<SavedFile, JobLineFault>
    ensures file { Answers (λ f. f.file) cause result (file_said fields.now) }
    ensures digest { IfOk result (λ f. f.digest ≡ digest) }
{
    let path = unescape(alloc, fields.path)?;
    with_path(alloc, fields, &path, digest)
}

/// Reads the fields `TYPE PATH HEX HEXLINK STAT` of a file that is saved with a digest or without.
///
/// # Errors
///
/// In this order: `BadScript` if the fields do not have their forms, `BadPath` for the path, `Stat` for
/// the numbers, and `File` if such a file cannot be saved.
#[tactic(auto, unfolding(crate::specs::FileLine::saved_said))]
pub(crate) fn read_put(
    alloc: Global,
    fields: &[u8],
    digest: bool,
) -> Result<SavedFile, JobLineFault>
    ensures file { Answers (λ f. f.file) cause result (saved_said fields.now) }
    ensures digest { IfOk result (λ f. f.digest ≡ digest) }
{
    let fields = put_fields(fields)?;
    file_of(alloc, &fields, digest)
}
