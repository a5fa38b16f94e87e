//! A connection to a database file and its log.

ghost use Rattle.std.specs.Prelude.{codes, ◌≡◌, true, false, ◌⊎◌, ◌↔◌, ℕ, ◌+◌, ◌<◌, ◌≤◌, pos, ◌==◌, [], map, find, OnOk};
ghost use Rattle.std.specs.Prelude.{length, option_copied, Some, IsTrue, IfOk, IfErr, IfSome, IsSomeAnd};
ghost use Rattle.sqlite_wal.specs.PageSize.{bytes_of};
ghost use Rattle.sqlite_store.specs.FileStore.{state as store_state, log_frames, view, is_shielded, files as store_files};
ghost use Rattle.sqlite_wal.specs.Reads.{OnlyReads};
ghost use Rattle.std.specs.List.{list_any};
ghost use Rattle.sqlite.specs.State.{HasCleanDisk, store_error};
ghost use Rattle.sqlite.specs.Held.{IsNew};
ghost use Rattle.sqlite_value.specs.declared.value.Value.TheVariants.{Int, Text};
ghost use Rattle.sqlite_value.specs.Value.{owned};
ghost use Rattle.sqlite_catalog.specs.Listing.{IsReadable};
ghost use Rattle.sqlite_schema.specs.Names.{same_name};
ghost use Rattle.sqlite_catalog.specs.Reading.{coded_by};
ghost use Rattle.sqlite_store.specs.Joined.{joined};
ghost use Rattle.sqlite_store.specs.Listing.{listed_from};
ghost use Rattle.sqlite_value.specs.Order.{column, bytes};
ghost use Rattle.sqlite_trees.specs.View.{View, IsClean};
ghost use Rattle.sqlite_store.specs.Unopened.{state_of, files_of, image, wanted_by, AreUsable, Opens, Creates};
ghost use Rattle.sqlite.specs.Opening.{unsorted, reported, unrooted, layout_at, shape_of, Binds, IsBound, IsOwnTable};
ghost use Rattle.sqlite.specs.Opening.{HasOwnTable, Suits, AllSuit, IsRead, IsNamed, IsListedIn, Knows, IsListed};
ghost use Rattle.sqlite.specs.Opening.{IsAttached, FailsToAttach, AreToSeal, IsAdopted, FailsToAdopt, IsSpared, IsMade};
ghost use Rattle.sqlite.specs.Opening.{FailsToMake, is_open_error, probed, blurred, renamed};
ghost use Rattle.sqlite.specs.Files.{faults_of, file_state, IsOpened, Finds, tally_left, FailsToOpenAs};
ghost use Rattle.sqlite.specs.Files.{FailsToOpenFiles, IsOver, IsCleanLeft, LeavesFiles, IsClosed};
ghost use Rattle.sqlite.specs.Files.{FailsToClose, IsBlankAs, BeginsWell, SaysSums, image_of};
ghost use Rattle.sqlite_pool.specs.Stored.{used_size};
ghost use Rattle.br_catalog_files.specs.RawPremises.{AreToSealIn, FailsToRead, FailsToTest, HaveKept, IsNothingAs, OfLayouts, OfListed, UsesSized};
ghost use Rattle.sqlite.specs.Closing.{IsCopied, files_left};

use sqlite::{Error, ErrorCode, Leftover};
use sqlite_catalog::load;
use sqlite_disk::{Disk, Files, Tally};
use sqlite_pager::{Options, Pager};
use sqlite_pool::probe_blank;
use sqlite_schema::names::same_name;
use sqlite_schema::schema::{Index, Schema, Table, View as StoredView};
use sqlite_store::{FileStore, OpenError, Unopened, name_fault};
use sqlite_trees::error::StoreError;
use sqlite_trees::sound::bytes_of;
use sqlite_trees::store::{Shape, Store};
use sqlite_value::keys::Order;
use sqlite_value::order::is_same;
use sqlite_value::row::Row;
use sqlite_value::value::ValueRef;
use sqlite_wal::{PageSize, probe_first_page, probe_frames, probe_page_size};
use std::alloc::{AllocError, AllocFailed, Global};

const UNSOUND: Error = Error::SqliteFailure(ErrorCode::NotADatabase);

const FULL: Error = Error::SqliteFailure(ErrorCode::DiskFull);

/// Bytes 20 to 23 of the header, where eight bytes of each page are reserved.
const WITH_SUMS: u32 = 0x0840_2020;

/// The page size of a new file.
const NEW_SIZE: usize = 4096;

const IO: Error = Error::SqliteFailure(ErrorCode::SystemIoFailure);

const NO_MEMORY: Error = Error::SqliteFailure(ErrorCode::OutOfMemory);

fn open_error(error: OpenError) -> Error
    ensures named { IsTrue (is_open_error result) }
    ensures value { result ≡ reported error }
{
    Error::SqliteFailure(match error {
        OpenError::OutOfMemory => ErrorCode::OutOfMemory,
        OpenError::Io => ErrorCode::SystemIoFailure,
        OpenError::Full => ErrorCode::DiskFull,
        OpenError::Refused => ErrorCode::DatabaseCorrupt,
    })
}

fn without_root(alloc: Global, entry: &Row) -> Result<Row, AllocError>
    ensures { IfOk result (λ row. row ≡ unrooted entry.now) }
{
    let mut row = Row::new(alloc);
    row.push(entry.get(0))?;
    row.push(entry.get(1))?;
    row.push(entry.get(2))?;
    row.push(entry.get(3))?;
    row.push(entry.get(5))?;
    Ok(row)
}

fn without_roots(alloc: Global, listed: &[Row]) -> Result<Vec<Row>, AllocError>
    ensures { IfOk result (λ rows. rows.items ≡ map unrooted listed.now) }
{
    let mut rows = Vec::with_capacity(alloc, listed.len())?;
    for entry in listed {
        rows.push(without_root(alloc, entry)?)?;
    }
    Ok(rows)
}

fn table_at(tables: &[Table], tree: u32) -> Option<&Table>
    ensures { option_copied result ≡ find (λ t. t.tree == tree) tables.now }
{
    tables.iter().find(|t| t.tree == tree)
}

fn index_at(indexes: &[Index], tree: u32) -> Option<&Index>
    ensures { option_copied result ≡ find (λ i. i.tree == tree) indexes.now }
{
    indexes.iter().find(|i| i.tree == tree)
}

fn layout(schema: &Schema, tree: u32) -> Option<(Shape, u64)>
    ensures { (v : View) → Knows v schema.now → IsNamed schema.now tree → result ≡ Some (layout_at v tree) }
{
    let tables = schema.tables.as_slice();
    if let Some(table) = table_at(tables, tree) {
        let reals = load::reals_of_table(table)?;
        return Some((Shape::Table, reals));
    }
    let index = index_at(schema.indexes.as_slice(), tree)?;
    let reals = load::reals_of_index(tables, index)?;
    Some((Shape::Index(index.order), reals))
}

fn is_view(views: &[StoredView], tree: u32) -> bool
    ensures { result ≡ list_any (λ w. w.tree == tree) views.now }
{
    views.iter().any(|w| w.tree == tree)
}

fn layout_or_view(schema: &Schema, tree: u32, shape: Shape) -> Option<(Shape, u64)>
    ensures { (v : View) → Knows v schema.now → IsListedIn schema.now tree → shape ≡ unsorted (v.shape tree) →
        result ≡ Some (layout_at v tree) }
{
    if is_view(schema.views.as_slice(), tree) {
        return Some((shape, 0));
    }
    layout(schema, tree)
}

fn tree_of(row: &Row) -> Option<u32>
    ensures { (tree : ℕ) → tree < 65536 → column row.now 0 ≡ Int (pos (tree + 1)) → result ≡ Some tree }
{
    match row.get(0) {
        ValueRef::Int(id) if 1 <= id && id <= 65536 => Some((id - 1) as u32),
        _ => None,
    }
}

fn is_word(value: ValueRef<'_>, word: &[u8]) -> bool
    ensures { IsTrue result ↔ (owned value.entry ≡ Text word.now) }
{
    is_same(value, ValueRef::Text(word))
}

fn is_readable(alloc: Global, row: &Row) -> Result<bool, AllocError>
    ensures { IfOk result (λ found. IsTrue found ↔ IsReadable row.now) }
{
    let table = load::read_table(alloc, row)?;
    Ok(table.is_some())
}

fn binds(alloc: Global, row: &Row) -> Result<bool, AllocError>
    ensures { IfOk result (λ found. IsTrue found ↔ Binds row.now) }
{
    if is_word(row.get(1), b"trigger") {
        return Ok(true);
    }
    if !is_word(row.get(1), b"index") {
        return Ok(false);
    }
    load::is_unread(alloc, row.get(4))
}

fn is_about(other: &Row, table: &Row) -> bool
    ensures { result ≡ same_name (bytes (column table.now 2)) (bytes (column other.now 3)) }
{
    same_name(bytes_of(table.get(2)), bytes_of(other.get(3)))
}

fn is_bound(alloc: Global, rows: &[Row], table: &Row) -> Result<bool, AllocError>
    ensures { IfOk result (λ found. IsTrue found ↔ IsBound rows.now table.now) }
{
    for other in rows {
        if is_about(other, table) && binds(alloc, other)? {
            return Ok(true);
        }
    }
    Ok(false)
}

fn is_own_table(alloc: Global, rows: &[Row], row: &Row) -> Result<bool, AllocError>
    ensures { IfOk result (λ found. IsTrue found ↔ IsOwnTable rows.now row.now) }
{
    if is_bound(alloc, rows, row)? {
        return Ok(false);
    }
    is_readable(alloc, row)
}

fn has_own_table(alloc: Global, rows: &[Row], row: &Row) -> Result<bool, AllocError>
    ensures { IfOk result (λ found. IsTrue found ↔ HasOwnTable rows.now row.now) }
{
    for other in rows {
        if is_same(other.get(2), row.get(3)) && is_own_table(alloc, rows, other)? {
            return Ok(true);
        }
    }
    Ok(false)
}

/// A table that SQL here cannot define, or that something binds, is frozen, and so are its indexes.
fn shape_for(
    alloc: Global,
    rows: &[Row],
    row: &Row,
    has_index_root: bool,
) -> Result<Shape, AllocError>
    ensures { (shape : _) → Suits rows.now row.now has_index_root shape → IfOk result (λ found. found ≡ shape) }
{
    if is_word(row.get(1), b"view") {
        return Ok(Shape::Pageless);
    }
    if is_word(row.get(1), b"trigger") {
        return Ok(Shape::Pageless);
    }
    if is_word(row.get(1), b"index") {
        let is_ours = has_own_table(alloc, rows, row)?;
        return Ok(if is_ours {
            Shape::Index(Order::PLAIN)
        } else {
            Shape::FrozenIndex(Order::PLAIN)
        });
    }
    if is_own_table(alloc, rows, row)? {
        return Ok(Shape::Table);
    }
    Ok(if has_index_root {
        Shape::FrozenIndex(Order::PLAIN)
    } else {
        Shape::FrozenTable
    })
}

fn shapes_for(alloc: Global, rows: &[Row], roots: &[bool]) -> Result<Vec<Shape>, AllocError>
    requires { length roots.now ≡ length rows.now }
    ensures len { IfOk result (λ all. length all.items ≡ length rows.now) }
    ensures value { (v : View) → AllSuit v rows.now roots.now → IfOk result (λ all. all.items ≡ map (shape_of v) rows.now) }
{
    let mut all = Vec::new(alloc);
    for at in 0..rows.len() {
        all.push(shape_for(alloc, rows, &rows[at], roots[at])?)?;
    }
    Ok(all)
}

fn with_codes(alloc: Global, rows: &[Row], shapes: &[Shape]) -> Result<Vec<Row>, AllocError>
    requires { length shapes.now ≡ length rows.now }
    ensures { (v : View) → shapes.now ≡ map (shape_of v) rows.now
        → IfOk result (λ all. all.items ≡ map (coded_by v.shape) rows.now) }
{
    let mut all = Vec::new(alloc);
    for at in 0..rows.len() {
        all.push(load::with_code(alloc, &rows[at], shapes[at])?)?;
    }
    Ok(all)
}

/// Returns the shape and the REAL columns of each row's tree.
fn layouts(
    alloc: Global,
    schema: &Schema,
    rows: &[Row],
    shapes: &[Shape],
) -> Result<Option<Vec<(Shape, u64)>>, AllocError>
    requires { length shapes.now ≡ length rows.now }
    ensures len { IfOk result (λ found. IfSome found (λ all. length all.items ≡ length rows.now)) }
    ensures value { OfLayouts schema.now rows.now shapes.now (λ laid.
        IfOk result (λ found. IsSomeAnd found (λ all. all.items ≡ laid))) }
{
    let mut all = Vec::new(alloc);
    for at in 0..rows.len() {
        let Some(tree) = tree_of(&rows[at]) else {
            return Ok(None);
        };
        let Some(found) = layout_or_view(schema, tree, shapes[at]) else {
            return Ok(None);
        };
        all.push(found)?;
    }
    Ok(Some(all))
}

/// The rows of sqlite_schema less their roots, and whether each root begins an index tree.
fn read_rows<D: Disk>(
    alloc: Global,
    files: &mut Unopened<D>,
) -> Result<(Vec<Row>, Vec<bool>), Error>
    requires { AreUsable files.old }
    ensures named { IfErr result (λ e. IsTrue (is_open_error e)) }
    ensures usable { OnOk result (AreUsable files.new) }
    ensures len { IfOk result (λ read. length read.1.items ≡ length read.0.items) }
    ensures honest { IsTrue (state_of files.new).is_clean → IsTrue (state_of files.old).is_clean }
    ensures ok { IsTrue (state_of files.new).is_clean → IfOk result (λ read. IsRead files.old files.new read.0.items read.1.items) }
    ensures cause { IsTrue (state_of files.new).is_clean → IfErr result (FailsToAttach files.old files.new) }
    ensures kept { IsTrue (state_of files.new).is_clean → Opens files.old (state_of files.new) }
{
    let listed = match files.read_catalog() {
        Ok(listed) => listed,
        Err(error) => return Err(open_error(error)),
    };
    let roots = match files.index_roots(listed.as_slice()) {
        Ok(roots) => roots,
        Err(error) => return Err(open_error(error)),
    };
    let rows = without_roots(alloc, listed.as_slice())?;
    Ok((rows, roots))
}

/// Returns the shape and the REAL columns of each row, if the rows describe a schema.
fn lay_out(
    alloc: Global,
    rows: &[Row],
    roots: &[bool],
) -> Result<Option<Vec<(Shape, u64)>>, AllocError>
    requires { length roots.now ≡ length rows.now }
    ensures len { IfOk result (λ found. IfSome found (λ all. length all.items ≡ length rows.now)) }
    ensures value { OfListed rows.now roots.now (λ wanted.
        IfOk result (λ found. IsSomeAnd found (λ all. joined rows.now all.items ≡ listed_from 0 wanted))) }
{
    let shapes = shapes_for(alloc, rows, roots)?;
    let coded = with_codes(alloc, rows, shapes.as_slice())?;
    let Some(schema) = load::read(alloc, coded.as_slice())? else {
        return Ok(None);
    };
    layouts(alloc, &schema, rows, shapes.as_slice())
}

/// Gives the files the schema that they list.
fn read_schema<D: Disk>(alloc: Global, files: &mut Unopened<D>) -> Result<(), Error>
    requires { AreUsable files.old }
    ensures named { IfErr result (λ e. IsTrue (is_open_error e)) }
    ensures usable { OnOk result (AreUsable files.new) }
    ensures honest { IsTrue (state_of files.new).is_clean → IsTrue (state_of files.old).is_clean }
    ensures ok { IsTrue (state_of files.new).is_clean → OnOk result (IsListed files.old files.new) }
    ensures cause { IsTrue (state_of files.new).is_clean → IfErr result (FailsToAttach files.old files.new) }
    ensures kept { IsTrue (state_of files.new).is_clean → Opens files.old (state_of files.new) }
{
    let (rows, roots) = read_rows(alloc, files)?;
    let Some(kinds) = lay_out(alloc, rows.as_slice(), roots.as_slice())? else {
        return Err(UNSOUND);
    };
    if files.list_schema(rows.as_slice(), kinds.as_slice())? {
        Ok(())
    } else {
        Err(UNSOUND)
    }
}

fn attach<D: Disk>(
    alloc: Global,
    mut files: Unopened<D>,
) -> Result<FileStore<D>, (Error, Unopened<D>)>
    requires { AreUsable files }
    ensures named { IfErr result (λ e. IsTrue (is_open_error e.0)) }
    ensures honest { IfOk result (λ store. IsTrue (view store).is_clean → IsTrue (state_of files).is_clean) }
    ensures falls { IfErr result (λ e. IsTrue (state_of e.1).is_clean → IsTrue (state_of files).is_clean) }
    ensures guarded { IfOk result (λ store. IsTrue (view store).is_clean → is_shielded store) }
    ensures ok { IfOk result (λ store. IsTrue (view store).is_clean → IsAttached files store) }
    ensures cause { IfErr result (λ e. IsTrue (state_of e.1).is_clean → FailsToAttach files e.1 e.0) }
    ensures kept { IfErr result (λ e. IsTrue (state_of e.1).is_clean → Opens files (state_of e.1)) }
{
    if let Err(error) = read_schema(alloc, &mut files) {
        return Err((error, files));
    }
    match files.open_numbered() {
        Ok(store) => Ok(store),
        Err((error, left)) => Err((open_error(error), left)),
    }
}

/// The same, after these pages of the log got their sums.
fn adopt<D: Disk>(
    alloc: Global,
    mut files: Unopened<D>,
    numbers: &[u32],
) -> Result<FileStore<D>, (Error, Unopened<D>)>
    requires usable { AreUsable files }
    requires listed { IsTrue (state_of files).is_clean → AreToSeal (state_of files).page_size (image files) numbers.now }
    ensures named { IfErr result (λ e. IsTrue (is_open_error e.0)) }
    ensures honest { IfOk result (λ store. IsTrue (view store).is_clean → IsTrue (state_of files).is_clean) }
    ensures falls { IfErr result (λ e. IsTrue (state_of e.1).is_clean → IsTrue (state_of files).is_clean) }
    ensures guarded { IfOk result (λ store. IsTrue (view store).is_clean → is_shielded store) }
    ensures ok { IfOk result (λ store. IsTrue (view store).is_clean → IsAdopted files store) }
    ensures cause { IfErr result (λ e. IsTrue (state_of e.1).is_clean → FailsToAdopt files e.1 e.0) }
    ensures kept { IfErr result (λ e. IsTrue (state_of e.1).is_clean → IsSpared files e.1) }
{
    if numbers.is_empty() {
        return attach(alloc, files);
    }
    match files.reseal(numbers) {
        Ok(()) => attach(alloc, files),
        Err(error) => Err((open_error(error), files)),
    }
}

fn blank<D: Disk>(files: Unopened<D>) -> Result<FileStore<D>, (Error, Unopened<D>)>
    requires usable { AreUsable files }
    requires none { wanted_by files ≡ [] }
    ensures named { IfErr result (λ e. IsTrue (is_open_error e.0)) }
    ensures honest { IfOk result (λ store. IsTrue (view store).is_clean → IsTrue (state_of files).is_clean) }
    ensures falls { IfErr result (λ e. IsTrue (state_of e.1).is_clean → IsTrue (state_of files).is_clean) }
    ensures guarded { IfOk result (λ store. IsTrue (view store).is_clean → is_shielded store) }
    ensures ok { IfOk result (λ store. IsTrue (view store).is_clean → IsMade files store) }
    ensures size { IfOk result (λ store. IsTrue (view store).is_clean → (store_state store).page_size ≡ (state_of files).page_size) }
    ensures cause { IfErr result (λ e. IsTrue (state_of e.1).is_clean → FailsToMake files e.1 e.0) }
    ensures counts { IfErr result (λ e. IsTrue (state_of e.1).is_clean → (state_of files).faults ≤ (state_of e.1).faults) }
    ensures kept { IfErr result (λ e. IsTrue (state_of e.1).is_clean → Creates files (state_of e.1)) }
{
    match files.create() {
        Ok(store) => Ok(store),
        Err((error, left)) => Err((open_error(error), left)),
    }
}

fn unopened<D: Disk>(
    alloc: Global,
    files: Files<D>,
    size: PageSize,
    options: Options,
    has_sums: bool,
) -> Result<Unopened<D>, Files<D>>
    ensures back { IfErr result (λ left. (left.log ≡ files.log) × (left.db ≡ files.db)) }
    ensures files { IfOk result (λ it. files_of it ≡ (files.log, files.db)) }
    ensures size { IfOk result (λ it. (state_of it).page_size ≡ used_size (bytes_of size) has_sums) }
    ensures none { IfOk result (λ it. wanted_by it ≡ []) }
{
    let pager = match Pager::new(alloc, files, size, options) {
        Ok(pager) => pager,
        Err(AllocFailed { value }) => return Err(value),
    };
    match Unopened::with_sums(alloc, pager, &[], has_sums) {
        Ok(fresh) => Ok(fresh),
        Err(AllocFailed { value }) => Err(value.close()),
    }
}

fn probe_error(error: sqlite_wal::Error) -> Error
    ensures named { IsTrue (is_open_error result) }
    ensures value { result ≡ probed error }
{
    match error {
        sqlite_wal::Error::OutOfMemory => NO_MEMORY,
        sqlite_wal::Error::Io(_) => IO,
        sqlite_wal::Error::Full => FULL,
        _ => UNSOUND,
    }
}

fn is_blank_as<D: Disk>(
    alloc: Global,
    files: &mut Files<D>,
    size: PageSize,
    has_sums: bool,
) -> Result<bool, Error>
    requires log { IsTrue (D.Disk.is_usable files.old.log) }
    requires db { IsTrue (D.Disk.is_usable files.old.db) }
    requires size { bytes_of size ≡ 4096 }
    ensures named { IfErr result (λ e. IsTrue (is_open_error e)) }
    ensures ok { IfOk result (λ b. HaveKept D.Disk files.new → (IsTrue b ↔ IsBlankAs has_sums (image_of D.Disk files.old))) }
    ensures counts { faults_of D.Disk files.old ≤ faults_of D.Disk files.new }
    ensures cause { IfErr result (FailsToTest D.Disk files.old files.new) }
    ensures log { OnlyReads D.Disk files.old.log files.new.log }
    ensures db { OnlyReads D.Disk files.old.db files.new.db }
{
    match probe_blank(alloc, files, size, has_sums) {
        Ok(is_blank) => Ok(is_blank),
        Err(error) => Err(probe_error(error)),
    }
}

/// Returns whether the new database gets sums, if there is none yet: as asked, unless an earlier
/// open has almost made one of the other kind.
fn finds_nothing<D: Disk>(
    alloc: Global,
    files: &mut Files<D>,
    size: PageSize,
    asked: bool,
) -> Result<Option<bool>, Error>
    requires log { IsTrue (D.Disk.is_usable files.old.log) }
    requires db { IsTrue (D.Disk.is_usable files.old.db) }
    requires size { bytes_of size ≡ 4096 }
    ensures named { IfErr result (λ e. IsTrue (is_open_error e)) }
    ensures ok { IfOk result (λ r. HaveKept D.Disk files.new → IsNothingAs asked (image_of D.Disk files.old) r) }
    ensures counts { faults_of D.Disk files.old ≤ faults_of D.Disk files.new }
    ensures cause { IfErr result (FailsToTest D.Disk files.old files.new) }
    ensures log { OnlyReads D.Disk files.old.log files.new.log }
    ensures db { OnlyReads D.Disk files.old.db files.new.db }
{
    if is_blank_as(alloc, files, size, asked)? {
        return Ok(Some(asked));
    }
    if is_blank_as(alloc, files, size, !asked)? {
        return Ok(Some(!asked));
    }
    Ok(None)
}

/// Returns whether the pages end in sums, by the header's count of reserved bytes. It refuses what
/// is clearly not a database, before recovery writes the log.
fn finds_sums<D: Disk>(alloc: Global, files: &mut Files<D>, size: PageSize) -> Result<bool, Error>
    requires log { IsTrue (D.Disk.is_usable files.old.log) }
    requires db { IsTrue (D.Disk.is_usable files.old.db) }
    ensures named { IfErr result (λ e. IsTrue (is_open_error e)) }
    ensures ok { IfOk result (λ b. HaveKept D.Disk files.new → UsesSized (bytes_of size) b (image_of D.Disk files.old)) }
    ensures begins { OnOk result (HaveKept D.Disk files.new → BeginsWell (bytes_of size) (image_of D.Disk files.old)) }
    ensures says { IfOk result (λ b. HaveKept D.Disk files.new → IsTrue b → SaysSums (bytes_of size) (image_of D.Disk files.old)) }
    ensures same { OnOk result (faults_of D.Disk files.new ≡ faults_of D.Disk files.old) }
    ensures cause { IfErr result (FailsToRead D.Disk (bytes_of size) files.old files.new) }
    ensures log { OnlyReads D.Disk files.old.log files.new.log }
    ensures db { OnlyReads D.Disk files.old.db files.new.db }
{
    let head = match probe_first_page(alloc, files, size) {
        Ok(head) => head,
        Err(error) => return Err(probe_error(error)),
    };
    if head.0 != b'S' {
        return Err(UNSOUND);
    }
    Ok(head.1 == WITH_SUMS)
}

fn to_seal<D: Disk>(
    alloc: Global,
    files: &mut Files<D>,
    size: PageSize,
    has_sums: bool,
) -> Result<Vec<u32>, Error>
    requires log { IsTrue (D.Disk.is_usable files.old.log) }
    requires db { IsTrue (D.Disk.is_usable files.old.db) }
    ensures named { IfErr result (λ e. IsTrue (is_open_error e)) }
    ensures ok { IfOk result (λ numbers. HaveKept D.Disk files.new
        → AreToSealIn D.Disk (bytes_of size) has_sums files.old numbers.items) }
    ensures same { OnOk result (faults_of D.Disk files.new ≡ faults_of D.Disk files.old) }
    ensures cause { IfErr result (FailsToRead D.Disk (bytes_of size) files.old files.new) }
    ensures log { OnlyReads D.Disk files.old.log files.new.log }
    ensures db { OnlyReads D.Disk files.old.db files.new.db }
{
    if !has_sums {
        return Ok(Vec::new(alloc));
    }
    match probe_frames(alloc, &mut files.log, size) {
        Ok(numbers) => Ok(numbers),
        Err(error) => Err(probe_error(error)),
    }
}

pub(crate) fn store_over<D: Disk>(
    alloc: Global,
    mut files: Files<D>,
    options: Options,
    new_has_sums: bool,
) -> Result<FileStore<D>, (Error, Leftover<D>)>
    requires log { IsTrue (D.Disk.is_usable files.log) }
    requires db { IsTrue (D.Disk.is_usable files.db) }
    ensures named { IfErr result (λ e. IsTrue (is_open_error e.0)) }
    ensures guarded { IfOk result (λ store. IsTrue (view store).is_clean → is_shielded store) }
    ensures ok { IfOk result (λ store. IsTrue (view store).is_clean → IsOver files store) }
    ensures sums { IfOk result (λ store. IsTrue (view store).is_clean → IsBlankAs new_has_sums (image_of D.Disk files) →
        (view store).has_sums ≡ new_has_sums) }
    ensures cause { IfErr result (λ e. IsCleanLeft e.1 → FailsToOpenAs StoreError.Io files e.1 e.0) }
    ensures unharmed { IfErr result (λ e. IsCleanLeft e.1 → LeavesFiles files e.1) }
{
    let new_size = PageSize::new(NEW_SIZE).unwrap();
    let nothing = match finds_nothing(alloc, &mut files, new_size, new_has_sums) {
        Ok(nothing) => nothing,
        Err(error) => return Err((error, Leftover::Files(files))),
    };
    if let Some(gets_sums) = nothing {
        let fresh = match unopened(alloc, files, new_size, options, gets_sums) {
            Ok(fresh) => fresh,
            Err(left) => return Err((NO_MEMORY, Leftover::Files(left))),
        };
        return match blank(fresh) {
            Ok(store) => Ok(store),
            Err((error, left)) => Err((error, Leftover::Unopened(left))),
        };
    }
    let Ok(found) = probe_page_size(&mut files) else {
        return Err((IO, Leftover::Files(files)));
    };
    let Some(size) = found else {
        return Err((UNSOUND, Leftover::Files(files)));
    };
    let has_sums = match finds_sums(alloc, &mut files, size) {
        Ok(has_sums) => has_sums,
        Err(error) => return Err((error, Leftover::Files(files))),
    };
    let numbers = match to_seal(alloc, &mut files, size, has_sums) {
        Ok(numbers) => numbers,
        Err(error) => return Err((error, Leftover::Files(files))),
    };
    let fresh = match unopened(alloc, files, size, options, has_sums) {
        Ok(fresh) => fresh,
        Err(left) => return Err((NO_MEMORY, Leftover::Files(left))),
    };
    match adopt(alloc, fresh, numbers.as_slice()) {
        Ok(store) => Ok(store),
        Err((error, left)) => Err((error, Leftover::Unopened(left))),
    }
}
