//! The store in the files at a path.

ghost use Rattle.std.specs.Prelude.{IfOk, IsTrue, false, true};
ghost use Rattle.sqlite.specs.Steps.{IsFresh};
ghost use Rattle.sqlite_std_file.specs.File.{file_is_usable, IsFresh as IsUntouched};
ghost use Rattle.sqlite_store.specs.FileStore.{view};
ghost use Rattle.sqlite_trees.specs.View.{IsClean};
ghost use Rattle.sqlite_wal.specs.Files.{image_at};
ghost use Rattle.br_catalog_files.specs.FileMigration.{ShowsDatabase};

use crate::raw_store::store_over;
use sqlite::{Error, ErrorCode, File, FileFrom, FileStore, Files, Options, Start, Unknown};
use sqlite_std_file::OpenError;
use std::hash::{BuildHasher, RandomState};
use std::io::ErrorKind;

const CANNOT_OPEN: Error = Error::SqliteFailure(ErrorCode::CannotOpen);

const NO_MEMORY: Error = Error::SqliteFailure(ErrorCode::OutOfMemory);

/// The number of pages that are kept in memory, enough for the way from a root to a leaf. A table
/// that is read from its first row to its last one needs no other page twice, and few pages fit
/// into the processor's own memory.
const CACHE_PAGES: usize = 100;

/// Opens the database file at a path and its log.
fn open_pair<S: Start>(rt: &HostRuntime, path: &str, start: S) -> Result<Files<FileFrom<S>>, Error>
    ensures log { IfOk result (λ files. IsTrue (file_is_usable S.Start files.log)) }
    ensures db { IfOk result (λ files. IsTrue (file_is_usable S.Start files.db)) }
    ensures fresh { IfOk result (λ files. IsUntouched true files.log × IsUntouched false files.db) }
{
    if path == ":memory:" || path.starts_with("file:") {
        return Err(CANNOT_OPEN);
    }
    match sqlite_std_file::open(rt, path, start) {
        Ok(files) => Ok(files),
        Err(OpenError::OutOfMemory) => Err(NO_MEMORY),
        Err(OpenError::Busy) => Err(Error::SqliteFailure(ErrorCode::DatabaseBusy)),
        Err(OpenError::Io(error)) if error.kind() == ErrorKind::OutOfMemory => Err(NO_MEMORY),
        Err(_) => Err(CANNOT_OPEN),
    }
}

/// Returns the options of a store whose tables are read from their first row to their last one.
fn options_of(seed: u64) -> Options {
    let mut options = Options::new(seed);
    options.cache_pages = CACHE_PAGES;
    options
}

/// Opens the store in the files at a path, which hold what `start` says: it shows their database
/// (`found`). No clause can say what is at the path.
fn open_from<S: Start>(
    rt: &HostRuntime,
    path: &str,
    start: S,
) -> Result<FileStore<FileFrom<S>>, Error>
    ensures fresh { IfOk result (λ store. IsClean (view store) → IsFresh (view store)) }
    ensures found { IfOk result (λ store. IsClean (view store) → ShowsDatabase (image_at S.Start) store) }
{
    let files = open_pair(rt, path, start)?;
    let random = RandomState::new(rt).map_err(|_| CANNOT_OPEN)?;
    let options = options_of(random.hash_one(&0u8));
    match store_over(rt.alloc(), files, options, false) {
        Ok(store) => Ok(store),
        Err((error, _files)) => Err(error),
    }
}

/// Opens the store in the database file at a path, or makes an empty one in a file that is empty or
/// does not exist. No row is tested against the tables, so this takes a tenth of the time of
/// `Connection::open`. A path that SQLite does not take for a file, such as `:memory:`, is refused.
///
/// For a file that is not empty, no proof shows that the clauses on values of this store state
/// anything, since no clause can state the contents of a file.
pub(crate) fn open(rt: &HostRuntime, path: &str) -> Result<FileStore<File>, Error>
    ensures { IfOk result (λ store. IsClean (view store) → IsFresh (view store)) }
{
    open_from(rt, path, Unknown)
}
