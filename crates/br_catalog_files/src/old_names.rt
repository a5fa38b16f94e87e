//! Tables of names, read from a store.

ghost use Rattle.std.specs.Prelude.{◌≡◌, ◌++◌, ◌∷◌, [], HoldsAt, IfErr, IfOk, IfSome, IsSome, IsTrue, OnOk};
ghost use Rattle.sqlite_value.specs.Value.{owned};
ghost use Rattle.sqlite_value.specs.declared.value.Value.TheVariants.{Blob, Int};
ghost use Rattle.sqlite_trees.specs.Tree.{IsTable, rowid};
ghost use Rattle.sqlite_trees.specs.View.{IsClean, is_int};
ghost use Rattle.br_store.specs.Held.{name_at};
ghost use Rattle.br_catalog_files.specs.OldNames.{AreNames};
ghost use Rattle.br_catalog_files.specs.Refusals.{CanGive, CanName, HaveNumbers, IsOther};
ghost use Rattle.br_catalog_files.specs.MigrationSteps.{CommitsNothing, OnCleanStore, Reads};

use crate::tree_cursor::{start, step};
use br_catalog_rows::StoreFault;
use sqlite_trees::store::Store;
use sqlite_value::row::Row;
use sqlite_value::value::ValueRef;
use std::alloc::{AllocError, Global};

/// The names in a table, each with its number, in the order of their numbers.
#[derive(Drop)]
pub(crate) struct NameTable {
    ids: Vec<i64>,
    names: Row,
}

impl NameTable {
    fn new(alloc: Global) -> NameTable
        ensures { AreNames result [] }
    {
        NameTable {
            ids: Vec::new(alloc),
            names: Row::new(alloc),
        }
    }

    /// Appends the name in a row of the table.
    fn add(&mut self, row: &Row) -> Result<(), StoreFault>
        ensures names { OnOk result ((rows : _) → AreNames self.old rows → AreNames self.new (rows ++ row.now ∷ [])) }
        ensures other { IsTrue (is_int (rowid row.now)) → IfErr result IsOther }
    {
        let ValueRef::Int(id) = row.get(0) else {
            return Err(StoreFault::BadCatalogue);
        };
        self.ids.push(id).map_err(AllocError::from)?;
        self.names.push(row.get(2))?;
        Ok(())
    }

    /// Returns the place of a number. Most tables have the numbers from 1 on, so that it is tried first.
    fn place(&self, id: i64) -> Option<usize>
        ensures found { IfSome result (HoldsAt (λ found. found ≡ id) self.now.ids.items) }
        ensures known { CanName self.now (Int id) → IsSome result }
    {
        let guess = usize::try_from(id).unwrap_or(0).saturating_sub(1);
        match self.ids.get(guess) {
            Some(found) if *found == id => Some(guess),
            _ => self.ids.binary_search(&id).ok(),
        }
    }

    /// Returns the name that has this number, if one has.
    pub(crate) fn get(&self, id: i64) -> Option<ValueRef<'_>>
        ensures name { (rows : _) → AreNames self.now rows → IsTable rows → IfSome result (λ name. owned name ≡ name_at rows (Int id)) }
        ensures known { CanName self.now (Int id) → IsSome result }
    {
        let at = self.place(id)?;
        Some(self.names.get(at))
    }

    /// Returns the name of a path or a file that has this number. `BadCatalogue` if none has.
    pub(crate) fn blob(&self, id: i64) -> Result<&[u8], StoreFault>
        ensures blob { IfOk result (λ blob. (rows : _) → AreNames self.now rows → IsTable rows → Blob blob.now ≡ name_at rows (Int id)) }
        ensures other { (bytes : _) → CanGive self.now (Int id) bytes → IfErr result IsOther }
    {
        match self.get(id) {
            Some(ValueRef::Blob(bytes)) => Ok(bytes),
            _ => Err(StoreFault::BadCatalogue),
        }
    }
}

/// Reads the names in a table.
///
/// # Errors
///
/// `BadCatalogue` if a row has no number; `Store`, with its cause, if the store fails; `Memory` if memory runs out.
pub(crate) fn read_names<S: Store>(
    alloc: Global,
    store: &mut S,
    tree: u32,
) -> Result<NameTable, StoreFault>
    ensures names { OnCleanStore S.Store store.old store.new (λ old new. IfOk result (λ names. AreNames names (old.trees tree))) }
    ensures other { OnCleanStore S.Store store.old store.new (λ old new. HaveNumbers (old.trees tree) → IfErr result IsOther) }
    ensures reads { OnCleanStore S.Store store.old store.new (λ old new. OnOk result (Reads old new)) }
    ensures kept { CommitsNothing S.Store store.old store.new }
{
    let mut names = NameTable::new(alloc);
    let mut row = Row::new(alloc);
    start(store, tree, &row)?;
    'rows: for _ in 0..u64::MAX {
        if !step(store, &mut row)? {
            return Ok(names);
        }
        names.add(&row)?;
    }
    // No store has this many rows.
    Err(StoreFault::Memory)
}
