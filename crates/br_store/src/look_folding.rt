//! Ends the use of a catalogue.
ghost use Rattle.std.specs.Prelude.{◌≡◌, [], IfOk, IsTrue};
ghost use Rattle.sqlite_wal.specs.Reads.{AreClean};
ghost use Rattle.br_store.specs.LookFolded.{IsFolded};

use crate::look_fault::LookFault;
use sqlite::{Connection, FileStore, Files};
use sqlite_disk::Disk;

/// Copies all that was committed into the database file, and empties the log. Returns both files:
/// while they are held, no other program opens them.
///
/// A crash between the two leaves the log with a new header, which makes what follows it invalid.
///
/// # Errors
///
/// `Database` if the log was not copied, and `Unreadable` if it was not emptied. Nothing that was
/// committed is lost.
pub fn fold<D: Disk + Drop>(conn: Connection<FileStore<D>>) -> Result<Files<D>, LookFault>
    ensures folded { IfOk result (λ files. AreClean D.Disk files.log files.db → IsFolded D.Disk conn files) }
{
    match conn.close_files() {
        Ok(files) => emptied(files),
        Err((error, _store)) => Err(LookFault::Database(error)),
    }
}

/// Empties the log.
///
/// # Errors
///
/// `Unreadable` if the log was not emptied.
pub fn emptied<D: Disk + Drop>(files: Files<D>) -> Result<Files<D>, LookFault>
    requires usable { IsTrue (D.Disk.is_usable files.log) }
    ensures log { IfOk result (λ left. D.Disk.seen left.log ≡ []) }
    ensures clean { IfOk result (λ left. IsTrue (D.Disk.is_clean left.log) → IsTrue (D.Disk.is_clean files.log)) }
    ensures db { IfOk result (λ left. left.db ≡ files.db) }
{
    let Files { mut log, db } = files;
    match log.set_len(0) {
        Ok(()) => Ok(Files { log, db }),
        Err(_) => Err(LookFault::Unreadable),
    }
}
