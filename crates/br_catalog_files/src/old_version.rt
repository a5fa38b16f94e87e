//! The version of a catalogue, and its tables.

ghost use Rattle.std.specs.Prelude.{◌≡◌, ◌∷◌, [], ℤ, pos, false, IsTrue, IfErr, IfOk, OnOk};
ghost use Rattle.sqlite_value.specs.declared.value.Value.TheVariants.{Int};
ghost use Rattle.sqlite_trees.specs.Objects.{catalog_tree};
ghost use Rattle.sqlite_trees.specs.View.{IsClean};
ghost use Rattle.sqlite_trees.specs.declared.store.Shape.TheVariants.{Table};
ghost use Rattle.sqlite_catalog.specs.Listing.{Lists};
ghost use Rattle.br_catalog_files.specs.Moved.{ListsMoved, version_rows};
ghost use Rattle.br_catalog_files.specs.OldRead.{IsOldIn};
ghost use Rattle.br_catalog_files.specs.Refusals.{IsOldHistory, IsOther};
ghost use Rattle.br_catalog_files.specs.MigrationSteps.{AreTables, CommitsNothing, OnCleanStore, Reads};

use crate::tree_cursor::{damaged, start, step};
use br_catalog_rows::StoreFault;
use br_catalog_tables::{OldLayout, is_empty, is_moved, is_ours, old_layout, version_tree};
use sqlite::{Error, ErrorCode};
use sqlite_catalog::load::load;
use sqlite_schema::schema::Schema;
use sqlite_trees::store::{Alter, Shape, Store};
use sqlite_value::row::Row;
use sqlite_value::value::ValueRef;
use std::alloc::{AllocError, Global};

/// Returns the row of a version that has this rowid.
pub(crate) fn version_row(alloc: Global, id: i64, version: i64) -> Result<Row, AllocError>
    ensures { IfOk result (λ row. row ≡ Int id ∷ Int version ∷ []) }
{
    let mut row = Row::new(alloc);
    row.push(ValueRef::Int(id))?;
    row.push(ValueRef::Int(version))?;
    Ok(row)
}

/// Returns the rowid of a row that has version 1. `BadCatalogue` if it has another.
fn first_version(alloc: Global, row: &Row) -> Result<i64, StoreFault>
    ensures version { IfOk result (λ id. row.now ≡ Int id ∷ Int (pos 1) ∷ []) }
    ensures other { (id : ℤ) → row.now ≡ Int id ∷ Int (pos 1) ∷ [] → IfErr result IsOther }
{
    let ValueRef::Int(id) = row.get(0) else {
        return Err(StoreFault::BadCatalogue);
    };
    let first = version_row(alloc, id, 1)?;
    if row.is_same(&first) {
        return Ok(id);
    }
    Err(StoreFault::BadCatalogue)
}

/// Returns the rowid of the one version, which is 1. Its table is in this tree.
///
/// # Errors
///
/// `BadCatalogue` if the version is not the one row 1; `Store`, with its cause, if the store fails.
pub(crate) fn read_version<S: Store>(
    alloc: Global,
    store: &mut S,
    tree: u32,
) -> Result<i64, StoreFault>
    ensures version { OnCleanStore S.Store store.old store.new (λ old new. IfOk result
        (λ id. old.trees tree ≡ (Int id ∷ Int (pos 1) ∷ []) ∷ [])) }
    ensures other { OnCleanStore S.Store store.old store.new (λ old new.
        (id : ℤ) → old.trees tree ≡ version_rows id 1 → IfErr result IsOther) }
    ensures reads { OnCleanStore S.Store store.old store.new (λ old new. OnOk result (Reads old new)) }
    ensures kept { CommitsNothing S.Store store.old store.new }
{
    let mut row = Row::new(alloc);
    let mut more = Row::new(alloc);
    start(store, tree, &row)?;
    if !step(store, &mut row)? {
        return Err(StoreFault::BadCatalogue);
    }
    if step(store, &mut more)? {
        return Err(StoreFault::BadCatalogue);
    }
    let id = first_version(alloc, &row)?;
    Ok(id)
}

/// Returns whether a tree is a table.
fn is_table<S: Store>(store: &S, tree: u32) -> bool
    ensures { IsTrue result → (S.Store.view store.now).shape tree ≡ Table }
{
    match store.shape(tree) {
        Shape::Table => true,
        _ => false,
    }
}

/// Returns whether the trees of the tables of version 1 are tables.
pub(crate) fn are_tables<S: Store>(store: &S, layout: &OldLayout) -> bool
    ensures { IsTrue result → AreTables layout.now (S.Store.view store.now) }
{
    is_table(store, layout.version)
        && is_table(store, layout.client)
        && is_table(store, layout.fileset)
        && is_table(store, layout.media)
        && is_table(store, layout.path)
        && is_table(store, layout.filename)
        && is_table(store, layout.job)
        && is_table(store, layout.job_media)
        && is_table(store, layout.file)
}

/// The schema of a catalogue of version 1, and the trees of its tables.
#[derive(Drop)]
pub(crate) struct OldSchema {
    pub(crate) schema: Schema,
    pub(crate) layout: OldLayout,
}

/// Returns why a database is refused that is no catalogue.
fn not_a_catalogue() -> StoreFault
    ensures { IsOther result }
{
    StoreFault::Store(Error::SqliteFailure(ErrorCode::NotADatabase))
}

/// Returns the schema that a store lists.
fn schema_in<S: Alter>(alloc: Global, store: &S) -> Result<Schema, StoreFault>
    requires { IsClean (S.Store.view store.now) → (S.Store.view store.now).is_broken ≡ false }
    ensures lists { IsClean (S.Store.view store.now) → IfOk result (Lists ((S.Store.view store.now).trees catalog_tree)) }
    ensures other { IfErr result IsOther }
{
    match load(store, alloc)? {
        Some(schema) => Ok(schema),
        None => Err(not_a_catalogue()),
    }
}

/// Returns why a database without the tables of version 1 is not migrated: `BadCatalogue` if it is
/// empty, has the tables of version 2, or has a version other than the one row 1.
fn refusal_of_other<S: Alter>(alloc: Global, store: &mut S, schema: &Schema) -> StoreFault
    ensures other { OnCleanStore S.Store store.old store.new (λ old new.
        Lists (old.trees catalog_tree) schema.now → IsOldHistory old.trees → IsOther result) }
    ensures kept { CommitsNothing S.Store store.old store.new }
{
    if is_empty(schema) || is_ours(schema) {
        return StoreFault::BadCatalogue;
    }
    let Some(tree) = version_tree(schema) else {
        return not_a_catalogue();
    };
    match read_version(alloc, store, tree) {
        Ok(_id) => not_a_catalogue(),
        Err(fault) => fault,
    }
}

/// Returns the schema of a database of version 1, and the trees of its tables.
///
/// # Errors
///
/// `BadCatalogue` if the database is empty, has the tables of version 2, or a version other than the one row 1;
/// `Store`, with its cause, if the store fails or has other tables; `Memory` if memory runs out.
pub(crate) fn find_old<S: Alter>(alloc: Global, store: &mut S) -> Result<OldSchema, StoreFault>
    requires { IsClean (S.Store.view store.old) → (S.Store.view store.old).is_broken ≡ false }
    ensures old { OnCleanStore S.Store store.old store.new (λ before after.
        IfOk result (λ tables. IsOldIn tables.schema tables.layout before.trees)) }
    ensures other { OnCleanStore S.Store store.old store.new (λ old new. IsOldHistory old.trees → IfErr result IsOther) }
    ensures reads { OnCleanStore S.Store store.old store.new (λ old new. OnOk result (Reads old new)) }
    ensures kept { CommitsNothing S.Store store.old store.new }
{
    let schema = schema_in(alloc, store)?;
    match old_layout(&schema) {
        Some(layout) => Ok(OldSchema { schema, layout }),
        None => Err(refusal_of_other(alloc, store, &schema)),
    }
}

/// Returns a failure of the store unless a database lists the tables of version 2 as a migration makes them.
pub(crate) fn check_new<S: Alter>(
    alloc: Global,
    store: &S,
    old: &OldSchema,
) -> Result<(), StoreFault>
    requires { IsClean (S.Store.view store.now) → (S.Store.view store.now).is_broken ≡ false }
    ensures lists { IsClean (S.Store.view store.now) → OnOk result
        (ListsMoved (S.Store.view store.now).trees old.now) }
    ensures other { IfErr result IsOther }
{
    match load(store, alloc)? {
        Some(schema) if is_moved(&schema, &old.schema, &old.layout) => Ok(()),
        _ => Err(damaged()),
    }
}
