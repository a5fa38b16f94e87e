//! The catalogue as a store of jobs.

ghost use Rattle.std.specs.Prelude.{◌≡◌, false, None, IsTrue, IfOk, IfErr, OnOk, OnErr};
ghost use Rattle.sqlite.specs.Held.{state};
ghost use Rattle.br_model.specs.Answer.{Answers};
ghost use Rattle.br_catalog_tables.specs.Tables.{no_schema};
ghost use Rattle.br_catalog_rows.specs.Fault.{IsStoreFault, cause, of_rows_fault};
ghost use Rattle.br_catalog_rows.specs.Load.{read_history, read_needed, without_files};
ghost use Rattle.br_catalog_rows.specs.Rows.{no_rows};
ghost use Rattle.br_catalog_rows.specs.WrongRows.{TellsWrong};
ghost use Rattle.br_store.specs.Calls.{AddsJob, CommitsNothing, IsCommitted, IsDurable, IsJustOpened, IsReadable, IsSame};
ghost use Rattle.br_store.specs.Calls.{MayCommit, MayMake, OnCleanDisk, WhileClean};
ghost use Rattle.br_store.specs.Held.{AddsMedia, IsCatalogue, HasTables, rows_in, versions_in};
ghost use Rattle.br_store.specs.Made.{Finds, IsLoadFault, IsOpenFault, IsWhy, LoadsAs, version_refusal};

use crate::job_writing::write_job;
use crate::opening::make_or_check;
use crate::queries::{read, ready};
use br_catalog_rows::{RowsFault, StoreFault, WrongRows, find_wrong, history_of};
use br_history::{History, JobRows, Needs};
use br_types::JobId;
use sqlite::{Alter, Connection, Error};
use std::alloc::Global;
use std::marker::Model;

/// A catalogue, in a database that nothing else has open.
#[derive(Drop)]
pub struct Store<S: Alter> {
    conn: Connection<S>,
    alloc: Global,
}

impl<S: Alter> Model for Store<S> {
    ghost use Rattle.sqlite.specs.Held.{Held, held_code};
    ghost use Rattle.br_store.specs.Held.{IsCatalogue};

    ghost Value = { Held S };

    ghost coded = { held_code S.code };

    ghost view = { λ s. s.conn };

    ghost invariant = { λ s. IsCatalogue S.Store s.conn };
}

impl<S: Alter + Drop> Store<S> {
    /// Opens the catalogue in a database, as it was last committed. In a database with no table it
    /// makes a catalogue with no job, in one transaction (`create`). A crash afterwards leaves
    /// exactly that. Of any other database the version is read first, and then the tables.
    ///
    /// # Errors
    ///
    /// `OldCatalogue` if the version is the one row 1, `BadCatalogue` if it is not the one row 2
    /// either, and nothing is changed then (`why`). `Store`, with its cause, if the database fails or
    /// does not have the tables of a catalogue. The connection is returned with the cause. If it is
    /// still open then, the database is as before (`same`). A crash afterwards leaves what it could
    /// leave before, or a catalogue with no job (`survives`).
    pub fn open(alloc: Global, conn: Connection<S>) -> Result<Store<S>, (StoreFault, Connection<S>)>
        requires { IsJustOpened S.Store conn }
        ensures open { IfOk result (λ s. WhileClean S.Store s (λ is. IsTrue is.is_open)) }
        ensures finds { IfOk result (λ s. WhileClean S.Store s (λ is. Finds (state S.Store conn).committed is.now)) }
        ensures fresh { IfOk result (λ s. WhileClean S.Store s (λ is.
            (state S.Store conn).committed.schema ≡ no_schema → rows_in is.now.trees ≡ no_rows)) }
        ensures settled { IfOk result (λ s. WhileClean S.Store s (λ is. is.now ≡ is.committed)) }
        ensures crash { IfOk result (λ s. WhileClean S.Store s IsDurable) }
        ensures current { IfOk result (λ s. WhileClean S.Store s (λ is. version_refusal (versions_in is.now.trees) ≡ None)) }
        ensures why { IfErr result (λ refused. WhileClean S.Store refused.1 (λ is. IsWhy (state S.Store conn) is refused.0)) }
        ensures same { IfErr result (λ refused. WhileClean S.Store refused.1 (λ is.
            IsTrue is.is_open → IsSame (state S.Store conn) is)) }
        ensures survives { IfErr result (λ refused. MayMake S.Store conn refused.1) }
        ensures cause { IfErr result (λ refused. IsOpenFault refused.0) }
    {
        let mut conn = conn;
        match make_or_check(&mut conn) {
            Ok(()) => Ok(Store { conn, alloc }),
            Err(fault) => Err((fault, conn)),
        }
    }
}

impl<S: Alter> Store<S> {
    /// Adds a job with all its rows, in one transaction. A crash during the call leaves the rows as
    /// before, or with the job; a crash after `Ok` leaves them with the job.
    ///
    /// # Errors
    ///
    /// `Store`, with its cause, if the catalogue has the number or the session of the job, or the
    /// database fails. If the store is still open then, the rows are as before (`refused`).
    pub fn insert_job(&mut self, job: &JobRows) -> Result<(), StoreFault>
        ensures added { OnCleanDisk S.Store self.old self.new (λ old new. OnOk result (AddsJob job.now old new)) }
        ensures media { OnCleanDisk S.Store self.old self.new (λ old new.
            OnOk result (AddsMedia old.now.trees new.now.trees)) }
        ensures settled { OnCleanDisk S.Store self.old self.new (λ old new. OnOk result (IsCommitted new)) }
        ensures refused { OnCleanDisk S.Store self.old self.new (λ old new. IsTrue new.is_open → OnErr result (IsSame old new)) }
        ensures crash { MayCommit S.Store self.old self.new job.now }
        ensures durable { OnCleanDisk S.Store self.old self.new (λ old new. OnOk result (IsDurable new)) }
        ensures cause { IfErr result (λ e. IsStoreFault e) }
    {
        Ok(insert(&mut self.conn, job)?)
    }

    /// Loads the history that the rows form which are looked at: all, or of files those of some jobs
    /// alone.
    fn load(&mut self, wanted: Option<&[JobId]>) -> Result<History, StoreFault>
        ensures answers { OnCleanDisk S.Store self.old self.new (λ old new. LoadsAs wanted.entry old.now.trees result) }
        ensures same { OnCleanDisk S.Store self.old self.new (λ old new. IsTrue new.is_open → IsSame old new) }
        ensures open { OnCleanDisk S.Store self.old self.new (λ old new. OnOk result (IsTrue new.is_open)) }
        ensures survives { CommitsNothing S.Store self.old self.new }
        ensures cause { IfErr result (λ e. IsLoadFault e) }
    {
        let rows = read(self.alloc, &mut self.conn, wanted)?;
        match history_of(self.alloc, &rows) {
            Ok(history) => Ok(history),
            Err(fault) => Err(store_fault(fault)),
        }
    }

    /// Loads the history that the rows form. If the store is still open then, the rows are as
    /// before (`same`).
    ///
    /// # Errors
    ///
    /// `Store`, with its cause, if the database fails; `BadCatalogue` if the version is not 2 or
    /// the rows form no history; `Memory` if memory runs out while the rows are read.
    pub fn load_history(&mut self) -> Result<History, StoreFault>
        ensures answers { OnCleanDisk S.Store self.old self.new (λ old new.
            Answers (λ h. h) cause result (read_history (rows_in old.now.trees))) }
        ensures same { OnCleanDisk S.Store self.old self.new (λ old new. IsTrue new.is_open → IsSame old new) }
        ensures open { OnCleanDisk S.Store self.old self.new (λ old new. OnOk result (IsTrue new.is_open)) }
        ensures survives { CommitsNothing S.Store self.old self.new }
        ensures cause { IfErr result (λ e. IsLoadFault e) }
    {
        self.load(None)
    }

    /// Loads the jobs with their spans, and without their files. No row of a file is read.
    fn load_jobs(&mut self) -> Result<History, StoreFault>
        ensures answers { OnCleanDisk S.Store self.old self.new (λ old new.
            Answers (λ h. h) cause result (read_history (without_files (rows_in old.now.trees)))) }
        ensures same { OnCleanDisk S.Store self.old self.new (λ old new. IsTrue new.is_open → IsSame old new) }
        ensures open { OnCleanDisk S.Store self.old self.new (λ old new. OnOk result (IsTrue new.is_open)) }
        ensures survives { CommitsNothing S.Store self.old self.new }
        ensures cause { IfErr result (λ e. IsLoadFault e) }
    {
        self.load(Some(&[]))
    }

    /// Loads all jobs with their spans, and the files of those jobs whose files are needed: first the
    /// jobs alone, which decide that, and then the jobs with these files. The other jobs have no
    /// files, and no row of a file of theirs is kept or looked at any further. If the store is still
    /// open then, the rows are as before (`same`).
    ///
    /// # Errors
    ///
    /// As those of `load_history`, of the rows but for those of files of other jobs.
    pub fn load_needed<N: Needs>(&mut self, needs: &N) -> Result<History, StoreFault>
        ensures answers { OnCleanDisk S.Store self.old self.new (λ old new.
            Answers (λ h. h) cause result (read_needed (N.needed needs.now) (rows_in old.now.trees))) }
        ensures same { OnCleanDisk S.Store self.old self.new (λ old new. IsTrue new.is_open → IsSame old new) }
        ensures open { OnCleanDisk S.Store self.old self.new (λ old new. OnOk result (IsTrue new.is_open)) }
        ensures survives { CommitsNothing S.Store self.old self.new }
        ensures cause { IfErr result (λ e. IsLoadFault e) }
    {
        let jobs = self.load_jobs()?;
        let numbers = needs.needed_of(self.alloc, &jobs)?;
        self.load(Some(&numbers))
    }

    /// Returns what is wrong with the rows of the catalogue; `None` if they form a history.
    ///
    /// # Errors
    ///
    /// `Store`, with its cause, if the database fails; `Memory` if memory runs out.
    pub fn find_wrong(&mut self) -> Result<Option<WrongRows>, StoreFault>
        ensures wrong { OnCleanDisk S.Store self.old self.new (λ old new.
            IfOk result (TellsWrong (rows_in old.now.trees))) }
        ensures survives { CommitsNothing S.Store self.old self.new }
    {
        let rows = read(self.alloc, &mut self.conn, None)?;
        match find_wrong(self.alloc, &rows) {
            Ok(wrong) => Ok(wrong),
            Err(_) => Err(StoreFault::Memory),
        }
    }

    /// Returns the connection to the database.
    pub fn into_connection(self) -> Connection<S>
        ensures same { result ≡ self }
        ensures catalogue { IsCatalogue S.Store result }
    {
        let Store { conn, alloc: _ } = self;
        conn
    }
}

/// Returns the refusal of rows as that of their catalogue.
fn store_fault(fault: RowsFault) -> StoreFault
    ensures same { result ≡ of_rows_fault fault }
    ensures loads { IsLoadFault result }
{
    match fault {
        RowsFault::Memory => StoreFault::Memory,
        RowsFault::BadRows => StoreFault::BadCatalogue,
    }
}

/// Adds a job with all its rows to a catalogue that is open, or adds nothing.
fn insert_all<S: Alter>(conn: &mut Connection<S>, job: &JobRows) -> Result<(), Error>
    requires idle { conn.old.in_transaction ≡ false }
    requires tables { IsReadable S.Store conn.old }
    ensures idle { conn.new.in_transaction ≡ false }
    ensures tables { OnCleanDisk S.Store conn.old conn.new (λ old new. OnOk result (HasTables new.now)) }
    ensures settled { OnCleanDisk S.Store conn.old conn.new (λ old new. OnOk result (IsCommitted new)) }
    ensures added { OnCleanDisk S.Store conn.old conn.new (λ old new. OnOk result (AddsJob job.now old new)) }
    ensures media { OnCleanDisk S.Store conn.old conn.new (λ old new. OnOk result (AddsMedia old.now.trees new.now.trees)) }
    ensures refused { OnCleanDisk S.Store conn.old conn.new (λ old new. IsTrue new.is_open → OnErr result (IsSame old new)) }
    ensures crash { MayCommit S.Store conn.old conn.new job.now }
    ensures durable { OnCleanDisk S.Store conn.old conn.new (λ old new. OnOk result (IsDurable new)) }
{
    let _idle = conn.is_autocommit();
    let mut tx = conn.transaction();
    write_job(&mut tx, job)?;
    tx.commit()
}

/// Adds a job with all its rows, or adds nothing.
fn insert<S: Alter>(conn: &mut Connection<S>, job: &JobRows) -> Result<(), Error>
    requires { IsCatalogue S.Store conn.old }
    ensures catalogue { IsCatalogue S.Store conn.new }
    ensures added { OnCleanDisk S.Store conn.old conn.new (λ old new. OnOk result (AddsJob job.now old new)) }
    ensures media { OnCleanDisk S.Store conn.old conn.new (λ old new. OnOk result (AddsMedia old.now.trees new.now.trees)) }
    ensures settled { OnCleanDisk S.Store conn.old conn.new (λ old new. OnOk result (IsCommitted new)) }
    ensures refused { OnCleanDisk S.Store conn.old conn.new (λ old new. IsTrue new.is_open → OnErr result (IsSame old new)) }
    ensures crash { MayCommit S.Store conn.old conn.new job.now }
    ensures durable { OnCleanDisk S.Store conn.old conn.new (λ old new. OnOk result (IsDurable new)) }
{
    ready(conn)?;
    insert_all(conn, job)
}
