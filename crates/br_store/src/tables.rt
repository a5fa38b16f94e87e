//! The tables of the catalogue, made in an empty database.

ghost use Rattle.std.specs.Prelude.{OnOk, OnErr};
ghost use Rattle.sqlite.specs.State.{KeepsCommit};
ghost use Rattle.br_catalog_tables.specs.Tables.{no_schema, three_tables, five_tables, new_schema};
ghost use Rattle.br_store.specs.Calls.{BorrowsSame, CommitsNothing, InEmptied};
ghost use Rattle.br_store.specs.Made.{HasMade, MakesTables};

use sqlite::{Alter, Error, Transaction};

/// Makes the tables of the version, clients and file sets.
fn make_first<S: Alter>(tx: &mut Transaction<'_, S>) -> Result<(), Error>
    ensures same_reference { BorrowsSame tx.old.conn tx.new.conn }
    ensures made { InEmptied no_schema S.Store tx.old.conn.now tx.new.conn.now (λ old new.
        OnOk result (MakesTables three_tables old new)) }
    ensures kept { InEmptied no_schema S.Store tx.old.conn.now tx.new.conn.now (λ old new.
        OnErr result (KeepsCommit old new)) }
    ensures survives { CommitsNothing S.Store tx.old.conn.now tx.new.conn.now }
{
    tx.execute("CREATE TABLE Version(VersionId INTEGER NOT NULL)", &[])?;
    tx.execute(
        "CREATE TABLE Client(ClientId INTEGER PRIMARY KEY, Name TEXT NOT NULL UNIQUE)",
        &[],
    )?;
    tx.execute(
        "CREATE TABLE FileSet(FileSetId INTEGER PRIMARY KEY, FileSet TEXT NOT NULL UNIQUE)",
        &[],
    )?;
    Ok(())
}

/// Makes the tables of volumes and the fronts of paths.
fn make_names<S: Alter>(tx: &mut Transaction<'_, S>) -> Result<(), Error>
    ensures same_reference { BorrowsSame tx.old.conn tx.new.conn }
    ensures made { InEmptied three_tables S.Store tx.old.conn.now tx.new.conn.now (λ old new.
        OnOk result (MakesTables five_tables old new)) }
    ensures kept { InEmptied three_tables S.Store tx.old.conn.now tx.new.conn.now (λ old new.
        OnErr result (KeepsCommit old new)) }
    ensures survives { CommitsNothing S.Store tx.old.conn.now tx.new.conn.now }
{
    tx.execute(
        "CREATE TABLE Media(MediaId INTEGER PRIMARY KEY, VolumeName TEXT NOT NULL UNIQUE, MediaType TEXT NOT NULL)",
        &[],
    )?;
    tx.execute(
        "CREATE TABLE Path(PathId INTEGER PRIMARY KEY, Path BLOB NOT NULL UNIQUE)",
        &[],
    )?;
    Ok(())
}

/// Makes the tables of jobs, spans and files.
fn make_rows<S: Alter>(tx: &mut Transaction<'_, S>) -> Result<(), Error>
    ensures same_reference { BorrowsSame tx.old.conn tx.new.conn }
    ensures made { InEmptied five_tables S.Store tx.old.conn.now tx.new.conn.now (λ old new.
        OnOk result (MakesTables new_schema old new)) }
    ensures kept { InEmptied five_tables S.Store tx.old.conn.now tx.new.conn.now (λ old new.
        OnErr result (KeepsCommit old new)) }
    ensures survives { CommitsNothing S.Store tx.old.conn.now tx.new.conn.now }
{
    tx.execute(
        "CREATE TABLE Job(JobId INTEGER PRIMARY KEY, Type TEXT NOT NULL, Level TEXT NOT NULL, ClientId INTEGER NOT NULL REFERENCES Client(ClientId), JobStatus TEXT NOT NULL, StartTime INTEGER NOT NULL, FileSetId INTEGER NOT NULL REFERENCES FileSet(FileSetId), VolSessionId INTEGER NOT NULL, VolSessionTime INTEGER NOT NULL, UNIQUE(VolSessionId, VolSessionTime))",
        &[],
    )?;
    tx.execute(
        "CREATE TABLE JobMedia(JobMediaId INTEGER PRIMARY KEY, JobId INTEGER NOT NULL REFERENCES Job(JobId), MediaId INTEGER NOT NULL REFERENCES Media(MediaId), FirstIndex INTEGER NOT NULL, LastIndex INTEGER NOT NULL, StartFile INTEGER NOT NULL, EndFile INTEGER NOT NULL, StartBlock INTEGER NOT NULL, EndBlock INTEGER NOT NULL, VolIndex INTEGER NOT NULL, UNIQUE(JobId, VolIndex))",
        &[],
    )?;
    tx.execute(
        "CREATE TABLE File(FileId INTEGER PRIMARY KEY, FileIndex INTEGER NOT NULL, JobId INTEGER NOT NULL REFERENCES Job(JobId), PathId INTEGER NOT NULL REFERENCES Path(PathId), Filename BLOB NOT NULL, LStat TEXT NOT NULL, MD5 TEXT NOT NULL)",
        &[],
    )?;
    Ok(())
}

/// Adds the row of version 2.
fn put_version<S: Alter>(tx: &mut Transaction<'_, S>) -> Result<(), Error>
    ensures same_reference { BorrowsSame tx.old.conn tx.new.conn }
    ensures made { InEmptied new_schema S.Store tx.old.conn.now tx.new.conn.now (λ old new.
        OnOk result (HasMade old new)) }
    ensures kept { InEmptied new_schema S.Store tx.old.conn.now tx.new.conn.now (λ old new.
        OnErr result (KeepsCommit old new)) }
    ensures survives { CommitsNothing S.Store tx.old.conn.now tx.new.conn.now }
{
    tx.execute("INSERT INTO Version (VersionId) VALUES (2)", &[])?;
    Ok(())
}

/// Makes the tables and the row of the version in an empty database.
pub(crate) fn make_tables<S: Alter>(tx: &mut Transaction<'_, S>) -> Result<(), Error>
    ensures same_reference { BorrowsSame tx.old.conn tx.new.conn }
    ensures made { InEmptied no_schema S.Store tx.old.conn.now tx.new.conn.now (λ old new.
        OnOk result (HasMade old new)) }
    ensures kept { InEmptied no_schema S.Store tx.old.conn.now tx.new.conn.now (λ old new.
        OnErr result (KeepsCommit old new)) }
    ensures survives { CommitsNothing S.Store tx.old.conn.now tx.new.conn.now }
{
    make_first(tx)?;
    make_names(tx)?;
    make_rows(tx)?;
    put_version(tx)
}
