//! A database made into a catalogue, or opened as one.

ghost use Rattle.std.specs.Prelude.{◌≡◌, false, None, IsTrue, IfErr, OnOk, OnErr};
ghost use Rattle.sqlite.specs.State.{IsUnchanged};
ghost use Rattle.br_catalog_tables.specs.Tables.{no_schema};
ghost use Rattle.br_store.specs.Calls.{CommitsNothing, IsJustOpened, IsSame, KeepsSettled, MayMake, OnCleanDisk};
ghost use Rattle.br_store.specs.Calls.{ShowsVersions, StaysIdle};
ghost use Rattle.br_store.specs.Held.{IsCatalogue, versions_in};
ghost use Rattle.br_catalog_rows.specs.Fault.{IsStoreFault};
ghost use Rattle.br_store.specs.Made.{Finds, IsMade, IsOpenFault, IsWhy, version_refusal};

use crate::queries::versions;
use crate::tables::make_tables;
use crate::version::refusal_of;
use br_catalog_rows::StoreFault;
use br_catalog_tables::{has_version, is_empty, is_ours};
use sqlite::{Alter, Connection, Error, ErrorCode};

/// Makes the tables and the row of the version in a database with no table, in one transaction. If
/// it fails and the database is still open, the database is as before. A crash leaves what it could
/// leave before, or a catalogue with no job.
pub fn create<S: Alter>(conn: &mut Connection<S>) -> Result<(), Error>
    requires idle { conn.old.in_transaction ≡ false }
    requires empty { conn.old.schema ≡ no_schema }
    ensures made { OnCleanDisk S.Store conn.old conn.new (λ old new. OnOk result (IsMade new.now × (new.committed ≡ new.now))) }
    ensures refused { OnCleanDisk S.Store conn.old conn.new (λ old new. IsTrue new.is_open → OnErr result (IsSame old new)) }
    ensures crash { MayMake S.Store conn.old conn.new }
    ensures open { OnCleanDisk S.Store conn.old conn.new (λ old new. OnOk result (IsTrue new.is_open)) }
    ensures idle { conn.new.in_transaction ≡ false }
{
    let _idle = conn.is_autocommit();
    let mut tx = conn.transaction();
    make_tables(&mut tx)?;
    tx.commit()
}

/// Returns why a database is refused that lacks one of the catalogue's tables.
fn lacks_a_table() -> StoreFault
    ensures { IsStoreFault result }
{
    StoreFault::Store(Error::SqliteFailure(ErrorCode::NotADatabase))
}

/// Refuses a catalogue whose versions are not the one row 2.
fn check_version<S: Alter>(conn: &mut Connection<S>) -> Result<(), StoreFault>
    requires { ShowsVersions S.Store conn.old }
    ensures current { OnCleanDisk S.Store conn.old conn.new (λ old new.
        OnOk result (version_refusal (versions_in old.now.trees) ≡ None)) }
    ensures why { OnCleanDisk S.Store conn.old conn.new (λ old new. IfErr result (IsWhy old new)) }
    ensures same { OnCleanDisk S.Store conn.old conn.new (λ old new. OnOk result (IsUnchanged old new)) }
    ensures stays { OnCleanDisk S.Store conn.old conn.new KeepsSettled }
    ensures idle { StaysIdle conn.old conn.new }
    ensures survives { CommitsNothing S.Store conn.old conn.new }
    ensures cause { IfErr result (λ e. IsOpenFault e) }
{
    let versions = versions(conn)?;
    match refusal_of(&versions) {
        Some(fault) => Err(fault),
        None => Ok(()),
    }
}

/// Makes the tables in a database with no table. Of any other it tests the version first, and then
/// the tables. After a refusal the database is as before, if it is still open. A crash leaves what
/// it could leave before, or a catalogue with no job.
pub(crate) fn make_or_check<S: Alter>(conn: &mut Connection<S>) -> Result<(), StoreFault>
    requires { IsJustOpened S.Store conn.old }
    ensures catalogue { OnOk result (IsCatalogue S.Store conn.new) }
    ensures open { OnCleanDisk S.Store conn.old conn.new (λ old new. OnOk result (IsTrue new.is_open)) }
    ensures settled { OnCleanDisk S.Store conn.old conn.new (λ old new. OnOk result (new.now ≡ new.committed)) }
    ensures finds { OnCleanDisk S.Store conn.old conn.new (λ old new. OnOk result (Finds old.committed new.now)) }
    ensures fresh { OnCleanDisk S.Store conn.old conn.new (λ old new.
        OnOk result (old.committed.schema ≡ no_schema → IsMade new.now)) }
    ensures current { OnCleanDisk S.Store conn.old conn.new (λ old new.
        OnOk result (version_refusal (versions_in new.now.trees) ≡ None)) }
    ensures why { OnCleanDisk S.Store conn.old conn.new (λ old new. IfErr result (IsWhy old new)) }
    ensures same { OnCleanDisk S.Store conn.old conn.new (λ old new. IsTrue new.is_open → OnErr result (IsSame old new)) }
    ensures crash { MayMake S.Store conn.old conn.new }
    ensures cause { IfErr result (λ e. IsOpenFault e) }
{
    if is_empty(conn.schema()) {
        create(conn)?;
        return Ok(());
    }
    if !has_version(conn.schema()) {
        return Err(lacks_a_table());
    }
    check_version(conn)?;
    if !is_ours(conn.schema()) {
        return Err(lacks_a_table());
    }
    Ok(())
}
