ghost use Rattle.std.specs.Prelude.{◌≡◌, option_map};
ghost use Rattle.br_model.specs.View.{row_stat, entry_from};
ghost use Rattle.br_view.specs.Shown.{entry_with, shown, shown_pair};

use br_attr::Stat;
use br_history::{FileRow, JobRows};
use br_types::{FileIndex, JobId, Path, SessionKey};

/// The newest copy of a path.
#[derive(Clone, Copy, Debug)]
pub struct Entry {
    /// The job that saved it.
    pub job: JobId,
    /// The session of this job.
    pub session: SessionKey,
    /// FileIndex in this job.
    pub index: FileIndex,
    /// The size in bytes, 0 if the row has no numbers.
    pub size: i64,
    /// LinkFI: for a hard link the index of the file that it names, else 0.
    pub link_index: i64,
}

/// Returns size and LinkFI of a row; zeros if its numbers can't be read.
fn numbers_of(row: &FileRow) -> (i64, i64)
    ensures size { result.0 ≡ (row_stat row.now).size }
    ensures link { result.1 ≡ (row_stat row.now).link_index }
{
    match Stat::read(row.lstat.as_bytes()) {
        Ok(stat) => (stat.size(), stat.link_index()),
        Err(_) => (0, 0),
    }
}

/// Returns the entry of a row of a job that has this index.
fn entry_of(job: &JobRows, row: &FileRow, index: FileIndex) -> Entry
    requires { index ≡ row.now.index }
    ensures { entry_with row.now.path result ≡ entry_from job.now row.now }
{
    let (size, link_index) = numbers_of(row);
    Entry {
        job: job.row().id,
        session: job.row().session,
        index,
        size,
        link_index,
    }
}

/// Returns path and entry of a row of a job; `None` for a deletion.
pub(crate) fn shown_of<'h>(job: &'h JobRows, row: &'h FileRow) -> Option<(&'h Path, Entry)>
    ensures { option_map shown_pair result ≡ shown (job.now, row.now) }
{
    match FileIndex::new(row.index) {
        Some(index) => Some((&row.path, entry_of(job, row, index))),
        None => None,
    }
}
