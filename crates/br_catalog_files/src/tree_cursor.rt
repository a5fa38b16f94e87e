//! The rows of a tree, one after another.

ghost use Rattle.std.specs.Prelude.{◌≡◌, [], IsSome, IfErr, IfOk, OnOk};
ghost use Rattle.sqlite_trees.specs.View.{IsClean};
ghost use Rattle.br_catalog_rows.specs.Fault.{fault_number};
ghost use Rattle.br_catalog_files.specs.Refusals.{IsOther};
ghost use Rattle.br_catalog_files.specs.MigrationSteps.{CommitsNothing, GoesOn, OnCleanStore, Starts};

use br_catalog_rows::StoreFault;
use sqlite::{Error, ErrorCode};
use sqlite_trees::error::StoreError;
use sqlite_trees::store::{Direction, Store};
use sqlite_value::row::Row;

/// Returns why a call on the store failed.
pub(crate) fn fault_of(error: StoreError) -> StoreFault
    ensures number { fault_number result ≡ 45 }
    ensures other { IsOther result }
{
    StoreFault::Store(Error::SqliteFailure(match error {
        StoreError::OutOfMemory => ErrorCode::OutOfMemory,
        StoreError::Io => ErrorCode::SystemIoFailure,
        StoreError::Corrupt => ErrorCode::DatabaseCorrupt,
        StoreError::Full => ErrorCode::DiskFull,
        StoreError::Broken => ErrorCode::Closed,
        StoreError::Unstorable => ErrorCode::TooBig,
    }))
}

/// Returns why a store is refused whose trees are not as it lists them.
pub(crate) fn damaged() -> StoreFault
    ensures { IsOther result }
{
    StoreFault::Store(Error::SqliteFailure(ErrorCode::DatabaseCorrupt))
}

/// Places the cursor before the first row of a tree. `row` has no value.
pub(crate) fn start<S: Store>(store: &mut S, tree: u32, row: &Row) -> Result<(), StoreFault>
    requires { row.now ≡ [] }
    ensures live { OnOk result (IsSome ((S.Store.view store.new).cursors 0)) }
    ensures starts { OnCleanStore S.Store store.old store.new (λ old new. OnOk result (Starts old new tree)) }
    ensures other { IfErr result IsOther }
    ensures kept { CommitsNothing S.Store store.old store.new }
{
    match store.seek(0, tree, row, Direction::Forward) {
        Ok(()) => Ok(()),
        Err(error) => Err(fault_of(error)),
    }
}

/// Writes the next row over `row`. Returns whether there was one.
pub(crate) fn step<S: Store>(store: &mut S, row: &mut Row) -> Result<bool, StoreFault>
    requires { IsSome ((S.Store.view store.old).cursors 0) }
    ensures live { OnOk result (IsSome ((S.Store.view store.new).cursors 0)) }
    ensures goes_on { OnCleanStore S.Store store.old store.new (λ old new. IfOk result (GoesOn old new row.new)) }
    ensures other { IfErr result IsOther }
    ensures kept { CommitsNothing S.Store store.old store.new }
{
    match store.next(0, row) {
        Ok(found) => Ok(found),
        Err(error) => Err(fault_of(error)),
    }
}
