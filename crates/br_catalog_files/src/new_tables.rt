//! The tables of version 2 in place of those of version 1, in a transaction that a caller commits.

ghost use Rattle.std.specs.Prelude.{◌≡◌, ◌≢◌, ◌∷◌, [], pos, codes, false, map, IsTrue, IfErr, OnOk};
ghost use Rattle.std.specs.List.{AllByRecursion};
ghost use Rattle.sqlite_value.specs.declared.value.Value.TheVariants.{Int, Text};
ghost use Rattle.sqlite.specs.Order.{column};
ghost use Rattle.sqlite_trees.specs.Objects.{Destroys};
ghost use Rattle.sqlite_trees.specs.Tree.{IsTable, put_row, rowid};
ghost use Rattle.sqlite_trees.specs.View.{IsClean, SetsTree, is_int};
ghost use Rattle.br_catalog_files.specs.Claims.{PutsFiles};
ghost use Rattle.br_catalog_files.specs.Refusals.{IsOther};
ghost use Rattle.br_catalog_files.specs.Renewed.{MakesFile, Replaces};
ghost use Rattle.br_catalog_files.specs.MigrationSteps.{CommitsNothing, OnCleanStore};

use crate::old_files::OldFiles;
use crate::old_names::NameTable;
use crate::old_version::version_row;
use crate::tree_cursor::{damaged, fault_of};
use br_catalog_rows::StoreFault;
use br_catalog_tables::OldLayout;
use sqlite_trees::schema::Object;
use sqlite_trees::store::{Alter, Shape, Store};
use sqlite_value::order::is_same;
use sqlite_value::row::Row;
use sqlite_value::value::ValueRef;
use std::alloc::Global;

/// The text that makes the table of files of version 2.
const CREATE_FILE: &str =
    "CREATE TABLE File(FileId INTEGER PRIMARY KEY, FileIndex INTEGER NOT NULL, JobId INTEGER NOT NULL REFERENCES Job(JobId), PathId INTEGER NOT NULL REFERENCES Path(PathId), Filename BLOB NOT NULL, LStat TEXT NOT NULL, MD5 TEXT NOT NULL)";

/// The last tree that the list of objects can tell.
const LAST_TREE: u32 = 65_535;

/// Inserts a row into a table. A failure of the store if the tree is not a table.
fn put_in<S: Store>(store: &mut S, tree: u32, row: &Row) -> Result<(), StoreFault>
    requires keyed { IsTrue (is_int (rowid row.now)) }
    ensures put { OnCleanStore S.Store store.old store.new (λ old new. OnOk result (SetsTree old new tree (put_row row.now))) }
    ensures other { IfErr result IsOther }
    ensures kept { CommitsNothing S.Store store.old store.new }
{
    match store.shape(tree) {
        Shape::Table => {}
        _ => return Err(damaged()),
    }
    match store.put(tree, row) {
        Ok(()) => Ok(()),
        Err(error) => Err(fault_of(error)),
    }
}

/// Frees a tree, and removes it from the list of objects. A failure of the store if it is no
/// table or index.
fn drop_tree<S: Alter>(store: &mut S, tree: u32) -> Result<(), StoreFault>
    requires numbered { IsClean (S.Store.view store.old) → IsTrue (S.Store.view store.old).is_numbered }
    ensures dropped { OnCleanStore S.Store store.old store.new (λ old new. OnOk result (Destroys old new tree)) }
    ensures other { IfErr result IsOther }
    ensures kept { CommitsNothing S.Store store.old store.new }
{
    match store.shape(tree) {
        Shape::Table | Shape::Index(_) => {}
        _ => return Err(damaged()),
    }
    match store.destroy(tree) {
        Ok(()) => Ok(()),
        Err(error) => Err(fault_of(error)),
    }
}

/// Returns whether an object of the list has the name of the table of files.
fn has_file(objects: &[Row]) -> bool
    ensures { result ≡ false → AllByRecursion (λ r. column r 2 ≢ Text (codes "File")) objects.now }
{
    objects
        .iter()
        .any(|object| is_same(object.get(2), ValueRef::Text(b"File")))
}

/// Makes the table of files of version 2 in this tree. A failure of the store if the tree or the
/// name is not free.
fn make_file<S: Alter>(alloc: Global, store: &mut S, tree: u32) -> Result<(), StoreFault>
    requires numbered { IsClean (S.Store.view store.old) → IsTrue (S.Store.view store.old).is_numbered }
    ensures made { OnCleanStore S.Store store.old store.new (λ old new. OnOk result (MakesFile tree old new)) }
    ensures other { IfErr result IsOther }
    ensures kept { CommitsNothing S.Store store.old store.new }
{
    if tree > LAST_TREE {
        return Err(damaged());
    }
    let objects = store.objects(alloc)?;
    match store.shape(tree) {
        Shape::Absent if !has_file(&objects) => {}
        _ => return Err(damaged()),
    }
    let file = Object {
        shape: Shape::Table,
        kind: "table",
        name: "File",
        table: "File",
        reals: 0,
        sql: Some(CREATE_FILE),
    };
    match store.create(tree, &file) {
        Ok(()) => Ok(()),
        Err(error) => Err(fault_of(error)),
    }
}

/// Makes the table of files again, in which a row has the name of its file, and drops the
/// table of names.
#[tactic(auto, using(crate::proofs::StepLaws::stays_numbered))]
pub(crate) fn replace_tables<S: Alter>(
    alloc: Global,
    store: &mut S,
    layout: &OldLayout,
) -> Result<(), StoreFault>
    requires numbered { IsClean (S.Store.view store.old) → IsTrue (S.Store.view store.old).is_numbered }
    ensures replaced { OnCleanStore S.Store store.old store.new (λ old new. OnOk result (Replaces layout.now old new)) }
    ensures other { IfErr result IsOther }
    ensures kept { CommitsNothing S.Store store.old store.new }
{
    drop_tree(store, layout.file)?;
    drop_tree(store, layout.filename_index)?;
    drop_tree(store, layout.filename)?;
    make_file(alloc, store, layout.file)
}

/// Inserts the rows of files into their table, which is in this tree and empty.
pub(crate) fn put_files<S: Store>(
    alloc: Global,
    store: &mut S,
    tree: u32,
    files: &OldFiles,
    names: &NameTable,
) -> Result<(), StoreFault>
    ensures put { OnCleanStore S.Store store.old store.new (λ old new. OnOk result (PutsFiles tree files.now names.now old new)) }
    ensures other { IfErr result IsOther }
    ensures kept { CommitsNothing S.Store store.old store.new }
{
    let mut row = Row::new(alloc);
    for at in 0..files.len() {
        files.moved_at(at, names, &mut row)?;
        put_in(store, tree, &row)?;
    }
    Ok(())
}

/// Writes version 2 over the version with this number, whose table is in this tree.
pub(crate) fn put_version<S: Store>(
    alloc: Global,
    store: &mut S,
    tree: u32,
    id: i64,
) -> Result<(), StoreFault>
    ensures put { OnCleanStore S.Store store.old store.new (λ old new. OnOk result
        (SetsTree old new tree (put_row (Int id ∷ Int (pos 2) ∷ [])))) }
    ensures other { IfErr result IsOther }
    ensures kept { CommitsNothing S.Store store.old store.new }
{
    let row = version_row(alloc, id, 2)?;
    put_in(store, tree, &row)
}
