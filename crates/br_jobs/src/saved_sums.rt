//! The number of files that a job saved, and their bytes.
ghost use Rattle.std.specs.Prelude.{◌≡◌, ◌<◌, ◌^◌, length, filter, sum_by};
ghost use Rattle.br_jobs.specs.ListingLine as model;
ghost use Rattle.br_model.specs.Attribute.{read_stat};
ghost use Rattle.br_model.specs.Console.{size_of};

use br_attr::Stat;
use br_history::FileRow;
use br_types::is_directory_path;

/// Returns true if a row is of a saved file, and not of a deletion.
fn is_saved(file: &FileRow) -> bool
    ensures { result ≡ model.is_saved file.now }
{
    file.index != 0
}

/// Returns the number of saved files in the rows.
pub(crate) fn saved_files(files: &[FileRow]) -> usize
    ensures { result ≡ length (filter model.is_saved files.now) }
{
    files.iter().filter(|file| is_saved(file)).count()
}

/// Returns a size; 0 for a negative one.
fn natural(size: i64) -> u64
    ensures value { result ≡ size_of size }
    ensures small { result < 2 ^ 63 }
{
    if size < 0 { 0 } else { size as u64 }
}

/// Returns the size in the numbers of a file; 0 if they can't be read.
fn size_in(lstat: &[u8]) -> u64
    ensures value { result ≡ model.size_in (read_stat lstat.now) }
    ensures small { result < 2 ^ 63 }
{
    match Stat::read(lstat) {
        Ok(stat) => natural(stat.size()),
        Err(_) => 0,
    }
}

/// Returns true if the bytes of a file count: it was saved, and is no directory.
fn counts(file: &FileRow) -> bool
    ensures { result ≡ model.counts file.now }
{
    is_saved(file) && !is_directory_path(file.path.bytes())
}

/// Returns the number of bytes in a saved file; 0 for a directory.
fn bytes_of(file: &FileRow) -> u64
    ensures value { result ≡ model.bytes_of file.now }
    ensures small { result < 2 ^ 63 }
{
    if counts(file) {
        size_in(file.lstat.as_bytes())
    } else {
        0
    }
}

/// Returns the number of bytes in the saved files.
pub(crate) fn saved_bytes(files: &[FileRow]) -> u128
    ensures { result ≡ sum_by model.bytes_of files.now }
{
    let mut bytes = 0;
    for file in files {
        bytes += u128::from(bytes_of(file));
    }
    bytes
}
