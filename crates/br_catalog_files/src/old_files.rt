//! The rows of File of version 1, read and tested.

ghost use Rattle.std.specs.Prelude.{◌≡◌, ◌++◌, ◌∷◌, [], ◌==◌, ◌||◌, true, map, pos, length, is_ok, ◌<◌, ◌^◌, ℕ, ℤ, List, IsSome, IsTrue, IfErr, IfOk, IfSome, OnOk};
ghost use Rattle.sqlite_value.specs.declared.value.Value.TheVariants.{Int, Text};
ghost use Rattle.sqlite_trees.specs.Tree.{IsTable, rowid};
ghost use Rattle.sqlite_trees.specs.View.{IsClean, is_int};
ghost use Rattle.sqlite.specs.Order.{column};
ghost use Rattle.br_model.specs.Job.{JobRows as Job};
ghost use Rattle.br_model.specs.Attribute.{read_stat};
ghost use Rattle.br_model.specs.Name.{is_path};
ghost use Rattle.std.specs.Str.{is_utf8};
ghost use Rattle.br_catalog_files.specs.Claims.{CanBelong, CanMove, IsMovedAt, TakesFile};
ghost use Rattle.br_catalog_files.specs.OldFiles.{AreFiles, IsOldFile, IsWholeFile, moved_row};
ghost use Rattle.br_catalog_files.specs.OldNames.{AreNames};
ghost use Rattle.br_catalog_files.specs.Refusals.{CanTake, CanTakeFiles, IsOther, IsTypedFile};
ghost use Rattle.br_catalog_files.specs.Sound.{IsMovedRow};
ghost use Rattle.br_catalog_files.specs.MigrationSteps.{CommitsNothing, OnCleanStore, Reads};
ghost use Rattle.br_catalog_files.specs.WholeMigration.{AreWhole};

use crate::old_digest::is_digest;
use crate::old_names::NameTable;
use crate::seen_indexes::{Indexes, no_indexes, note};
use crate::tree_cursor::{damaged, start, step};
use br_attr::Stat;
use br_catalog_rows::StoreFault;
use br_history::JobRows;
use br_types::{MAX_INDEX, is_path_of};
use sqlite_trees::store::Store;
use sqlite_value::row::Row;
use sqlite_value::value::ValueRef;
use std::alloc::{AllocError, Global};
use std::collections::BTreeMap;

/// The numbers of a row of File: its own, the index, and those of the job, the path and the name.
#[derive(Clone, Copy)]
pub(crate) struct FileNumbers {
    pub(crate) id: i64,
    pub(crate) index: u32,
    pub(crate) job: u32,
    pub(crate) path: i64,
    pub(crate) name: i64,
}

/// A row of File in version 1.
#[derive(Clone, Copy)]
pub(crate) struct OldFile<'a> {
    numbers: FileNumbers,
    lstat: &'a [u8],
    digest: &'a [u8],
}

/// Returns the integer in a column.
fn int_at(row: &Row, at: usize) -> Option<i64>
    ensures value { IfSome result (λ n. column row.now at ≡ Int n) }
    ensures known { (n : ℤ) → column row.now at ≡ Int n → IsSome result }
{
    match row.get(at) {
        ValueRef::Int(number) => Some(number),
        _ => None,
    }
}

/// Returns the number of 32 bits in a column.
fn small_at(row: &Row, at: usize) -> Option<u32>
    ensures value { IfSome result (λ n. column row.now at ≡ Int (pos n)) }
    ensures known { (n : ℕ) → n < 2 ^ 32 → column row.now at ≡ Int (pos n) → IsSome result }
{
    u32::try_from(int_at(row, at)?).ok()
}

/// Returns the text in a column.
fn text_at(row: &Row, at: usize) -> Option<&[u8]>
    ensures value { IfSome result (λ t. column row.now at ≡ Text t.now) }
    ensures known { (t : List ℕ) → column row.now at ≡ Text t → IsSome result }
{
    match row.get(at) {
        ValueRef::Text(bytes) => Some(bytes),
        _ => None,
    }
}

/// Returns the values of a row of File, if they have the types of their columns.
fn old_file(row: &Row) -> Option<OldFile<'_>>
    ensures values { IfSome result (λ file. IsOldFile file row.now) }
    ensures known { IsTypedFile row.now → IsSome result }
{
    let numbers = FileNumbers {
        id: int_at(row, 0)?,
        index: small_at(row, 2)?,
        job: small_at(row, 3)?,
        path: int_at(row, 4)?,
        name: int_at(row, 5)?,
    };
    Some(OldFile {
        numbers,
        lstat: text_at(row, 6)?,
        digest: text_at(row, 7)?,
    })
}

/// Returns `BadCatalogue` unless the two parts make a path. `buffer` is used again.
fn check_path(buffer: &mut Vec<u8>, front: &[u8], rest: &[u8]) -> Result<(), StoreFault>
    ensures path { OnOk result (is_path (front.now ++ rest.now) ≡ true) }
    ensures other { is_path (front.now ++ rest.now) ≡ true → IfErr result IsOther }
{
    buffer.clear();
    buffer.extend_from_slice(front)?;
    buffer.extend_from_slice(rest)?;
    if is_path_of(buffer) {
        return Ok(());
    }
    Err(StoreFault::BadCatalogue)
}

/// Returns whether the index of a file is 0 or its numbers can be read.
fn has_numbers(file: &OldFile<'_>) -> bool
    ensures { result ≡ (file.now.numbers.index == 0 || is_ok (read_stat file.now.lstat.now)) }
{
    file.numbers.index == 0 || Stat::read(file.lstat).is_ok()
}

/// Returns whether these bytes are characters.
fn is_text(bytes: &[u8]) -> bool
    ensures { result ≡ is_utf8 bytes.now }
{
    match std::str::from_utf8(bytes) {
        Ok(_text) => true,
        Err(_) => false,
    }
}

/// Returns `BadCatalogue` unless a history can have the file. `buffer` is used again.
fn check_file(
    buffer: &mut Vec<u8>,
    file: &OldFile<'_>,
    front: &[u8],
    rest: &[u8],
) -> Result<(), StoreFault>
    ensures whole { OnOk result (IsWholeFile file.now front.now rest.now) }
    ensures other { IsWholeFile file.now front.now rest.now → IfErr result IsOther }
{
    check_path(buffer, front, rest)?;
    if file.numbers.index > MAX_INDEX || !has_numbers(file) {
        return Err(StoreFault::BadCatalogue);
    }
    if !is_text(file.lstat) || !is_digest(file.digest) {
        return Err(StoreFault::BadCatalogue);
    }
    Ok(())
}

/// The rows of File, in order of FileId: their numbers, and two texts of each.
#[derive(Drop)]
pub(crate) struct OldFiles {
    numbers: Vec<FileNumbers>,
    lstats: Row,
    digests: Row,
}

impl OldFiles {
    fn new(alloc: Global) -> OldFiles
        ensures { AreFiles result [] }
    {
        OldFiles {
            numbers: Vec::new(alloc),
            lstats: Row::new(alloc),
            digests: Row::new(alloc),
        }
    }

    /// Appends the values of a row.
    fn add(&mut self, file: &OldFile<'_>) -> Result<(), StoreFault>
        ensures files { OnOk result ((rows row : _) → IsOldFile file.now row → AreFiles self.old rows → AreFiles self.new (rows ++ row ∷ [])) }
        ensures other { IfErr result IsOther }
    {
        self.numbers.push(file.numbers).map_err(AllocError::from)?;
        self.lstats.push(ValueRef::Text(file.lstat))?;
        self.digests.push(ValueRef::Text(file.digest))?;
        Ok(())
    }

    /// Returns the number of files.
    pub(crate) fn len(&self) -> usize
        ensures { result ≡ length self.now.numbers.items }
    {
        self.numbers.len()
    }

    /// Writes the row of version 2 of the file at a place over `row`.
    pub(crate) fn moved_at(
        &self,
        at: usize,
        names: &NameTable,
        row: &mut Row,
    ) -> Result<(), StoreFault>
        ensures moved { OnOk result (IsMovedAt self.now names.now at row.new) }
        ensures keyed { OnOk result (IsTrue (is_int (rowid row.new))) }
        ensures other { IfErr result IsOther }
    {
        let Some(numbers) = self.numbers.get(at) else {
            return Err(damaged());
        };
        let Some(name) = names.get(numbers.name) else {
            return Err(damaged());
        };
        row.clear();
        row.push(ValueRef::Int(numbers.id))?;
        row.push(ValueRef::Null)?;
        row.push(ValueRef::Int(i64::from(numbers.index)))?;
        row.push(ValueRef::Int(i64::from(numbers.job)))?;
        row.push(ValueRef::Int(numbers.path))?;
        row.push(name)?;
        row.push(self.lstats.get(at))?;
        row.push(self.digests.get(at))?;
        Ok(())
    }
}

/// The rows of File while they are read.
#[derive(Drop)]
struct OldFilesReading {
    files: OldFiles,
    seen: BTreeMap<u32, Indexes>,
    buffer: Vec<u8>,
}

impl OldFilesReading {
    fn new(alloc: Global, jobs: &[JobRows]) -> Result<OldFilesReading, StoreFault>
        ensures files { IfOk result (λ reading. AreFiles reading.files []) }
        ensures whole { IfOk result (λ reading. AreWhole (map (λ (j : Job). j.row) jobs.now) reading.seen []) }
        ensures other { IfErr result IsOther }
    {
        Ok(OldFilesReading {
            files: OldFiles::new(alloc),
            seen: no_indexes(alloc, jobs)?,
            buffer: Vec::new(alloc),
        })
    }

    /// Adds the next row of File, if a history can have the file.
    fn take(&mut self, paths: &NameTable, names: &NameTable, row: &Row) -> Result<(), StoreFault>
        ensures files { OnOk result ((rows : _) → AreFiles self.old.files rows → AreFiles self.new.files (rows ++ row.now ∷ [])) }
        ensures moved { OnOk result ((ns : _) → AreNames names.now ns → IsTable ns → IsMovedRow row.now (moved_row ns row.now)) }
        ensures whole { OnOk result (TakesFile paths.now names.now row.now self.old.seen self.new.seen) }
        ensures other { CanTake paths.now names.now self.old.seen row.now → IfErr result IsOther }
    {
        let Some(file) = old_file(row) else {
            return Err(StoreFault::BadCatalogue);
        };
        let front = paths.blob(file.numbers.path)?;
        let rest = names.blob(file.numbers.name)?;
        check_file(&mut self.buffer, &file, front, rest)?;
        note(&mut self.seen, file.numbers.job, file.numbers.index)?;
        self.files.add(&file)?;
        Ok(())
    }
}

/// Reads the rows of File, which is in this tree, if a history with these jobs can have the files. `paths` and `names` are
/// the names to which rows of File refer by number.
///
/// # Errors
///
/// `BadCatalogue` if no history can; `Store`, with its cause, if the store fails; `Memory` if memory runs
/// out.
pub(crate) fn read_files<S: Store>(
    alloc: Global,
    store: &mut S,
    tree: u32,
    jobs: &[JobRows],
    paths: &NameTable,
    names: &NameTable,
) -> Result<OldFiles, StoreFault>
    ensures files { OnCleanStore S.Store store.old store.new (λ old new. IfOk result (λ files. AreFiles files (old.trees tree))) }
    ensures moved { OnCleanStore S.Store store.old store.new (λ old new. OnOk result (CanMove names.now (old.trees tree))) }
    ensures whole { OnCleanStore S.Store store.old store.new (λ old new. OnOk result
        (CanBelong jobs.now paths.now names.now (old.trees tree))) }
    ensures other { OnCleanStore S.Store store.old store.new (λ old new.
        CanTakeFiles jobs.now paths.now names.now (old.trees tree) → IfErr result IsOther) }
    ensures reads { OnCleanStore S.Store store.old store.new (λ old new. OnOk result (Reads old new)) }
    ensures kept { CommitsNothing S.Store store.old store.new }
{
    let mut reading = OldFilesReading::new(alloc, jobs)?;
    let mut row = Row::new(alloc);
    start(store, tree, &row)?;
    'rows: for _ in 0..u64::MAX {
        if !step(store, &mut row)? {
            return Ok(reading.files);
        }
        reading.take(paths, names, &row)?;
    }
    // No store has this many rows.
    Err(StoreFault::Memory)
}
