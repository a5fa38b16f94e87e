//! Ends the use of a store.

ghost use Rattle.std.specs.Prelude.{IfOk, IsTrue};
ghost use Rattle.sqlite_store.specs.FileStore.{recovers, view};
ghost use Rattle.sqlite.specs.Held.{AreDatabases};
ghost use Rattle.sqlite_trees.specs.View.{IsClean};
ghost use Rattle.br_catalog_files.specs.RawFolded.{IsCopied, IsFolded};
ghost use Rattle.br_catalog_files.specs.RawPremises.{HaveKept};

use br_store::emptied;
use sqlite::{Error, ErrorCode, FileStore, Files};
use sqlite_disk::Disk;
use sqlite_trees::error::StoreError;
use sqlite_trees::store::Store;

/// Returns why a call on the store failed.
fn fault_of(error: StoreError) -> Error {
    Error::SqliteFailure(match error {
        StoreError::OutOfMemory => ErrorCode::OutOfMemory,
        StoreError::Io => ErrorCode::SystemIoFailure,
        StoreError::Corrupt => ErrorCode::DatabaseCorrupt,
        StoreError::Full => ErrorCode::DiskFull,
        StoreError::Broken => ErrorCode::Closed,
        StoreError::Unstorable => ErrorCode::TooBig,
    })
}

/// Copies the log into the database file, and gives the files back. What is not committed is lost.
fn copied<D: Disk + Drop>(store: FileStore<D>) -> Result<Files<D>, Error>
    ensures usable { IfOk result (λ files. IsTrue (D.Disk.is_usable files.log)) }
    ensures clean { IfOk result (λ files. HaveKept D.Disk files → IsClean (view store)) }
    ensures copied { IfOk result (λ files.
        HaveKept D.Disk files → IsTrue (view store).is_numbered → AreDatabases (recovers store) → IsCopied store files) }
{
    let mut store = store;
    store.rollback();
    match store.checkpoint() {
        Ok(()) => Ok(store.close()),
        Err(error) => Err(fault_of(error)),
    }
}

/// Puts all that was committed into the database file, and empties the log. Returns both files:
/// while they are there, no other program opens them. What is not committed is lost. If each
/// database that a crash could leave is sound, the database file alone holds what was committed
/// (`folded`). If both files returned what was written to them, so they did for the store (`clean`).
///
/// A crash between the two leaves the log with a new header, which makes what follows it invalid.
///
/// # Errors
///
/// If the log was not copied, or was not emptied. Nothing that was committed is lost.
pub(crate) fn fold<D: Disk + Drop>(store: FileStore<D>) -> Result<Files<D>, Error>
    ensures clean { IfOk result (λ files. HaveKept D.Disk files → IsClean (view store)) }
    ensures folded { IfOk result (λ files.
        HaveKept D.Disk files → IsTrue (view store).is_numbered → AreDatabases (recovers store) → IsFolded store files) }
{
    let files = copied(store)?;
    match emptied(files) {
        Ok(left) => Ok(left),
        Err(_) => Err(Error::SqliteFailure(ErrorCode::SystemIoFailure)),
    }
}
