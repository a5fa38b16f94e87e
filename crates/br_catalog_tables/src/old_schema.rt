//! Where the tables of version 1 are in a schema, in any order, and what a migration leaves of it.

ghost use Rattle.std.specs.Prelude.{◌≡◌, ◌↔◌, ◌⊎◌, IfSome, IsSome, IsTrue, Some, slice_get, true};
ghost use Rattle.std.specs.List.{AllByRecursion};
ghost use Rattle.sqlite_rules.specs.Lists.{Has};
ghost use Rattle.br_catalog_tables.specs.SchemaShapes.{FitsIn, placed, table_of};
ghost use Rattle.sqlite_schema.specs.Names.{table_named};
ghost use Rattle.br_catalog_tables.specs.KnownSchemas.{HasVersionTable, IsVersionTree, Stands, tree_in};
ghost use Rattle.br_catalog_tables.specs.OldTables.{fits_index, keeps_tree, moved_trees, old_trees, spares_tree};
ghost use Rattle.br_catalog_tables.specs.OldSchemas.{AreKept, IsApart, IsBeside, IsMovedSchema, IsOldSchema};

use crate::schema::{has_version, is_found, is_placed, is_stored};
use crate::schema_shape::{OLD_TABLES, TABLES, TableShape};
use sqlite_schema::schema::{Index, Schema, Table};

/// The trees of the tables of version 1, and the tree of the index of the names of files.
#[derive(Clone, Copy)]
pub struct OldLayout {
    pub version: u32,
    pub client: u32,
    pub fileset: u32,
    pub media: u32,
    pub path: u32,
    pub filename: u32,
    pub job: u32,
    pub job_media: u32,
    pub file: u32,
    pub filename_index: u32,
}

impl OldLayout {
    /// Returns the trees of the tables of version 1.
    fn tables(&self) -> [u32; 9]
        ensures { result ≡ old_trees self.now }
    {
        [
            self.version,
            self.client,
            self.fileset,
            self.media,
            self.path,
            self.filename,
            self.job,
            self.job_media,
            self.file,
        ]
    }

    /// Returns the trees of the tables of version 2 that are made of these.
    fn moved(&self) -> [u32; 8]
        ensures { result ≡ moved_trees self.now }
    {
        [
            self.version,
            self.client,
            self.fileset,
            self.media,
            self.path,
            self.job,
            self.job_media,
            self.file,
        ]
    }

    /// Returns whether a tree is not one of those that a migration makes again or drops.
    fn spares(&self, tree: u32) -> bool
        ensures { result ≡ spares_tree self.now tree }
    {
        tree != self.filename && tree != self.filename_index && tree != self.file
    }

    /// Returns whether a migration leaves this tree as it is.
    fn keeps(&self, tree: u32) -> bool
        ensures { result ≡ keeps_tree self.now tree }
    {
        is_stored(tree) && tree != self.version && self.spares(tree)
    }

    /// Returns whether the tables of names are in trees that a migration leaves as they are.
    fn keeps_names(&self) -> bool
        ensures client { IsTrue result → keeps_tree self.now self.now.client ≡ true }
        ensures fileset { IsTrue result → keeps_tree self.now self.now.fileset ≡ true }
        ensures media { IsTrue result → keeps_tree self.now self.now.media ≡ true }
        ensures path { IsTrue result → keeps_tree self.now self.now.path ≡ true }
    {
        self.keeps(self.client)
            && self.keeps(self.fileset)
            && self.keeps(self.media)
            && self.keeps(self.path)
    }

    /// Returns whether the tables of jobs and spans are in trees that a migration leaves as they are,
    /// and the table of the version is in another one than those that it makes again or drops.
    fn keeps_rows(&self) -> bool
        ensures job { IsTrue result → keeps_tree self.now self.now.job ≡ true }
        ensures job_media { IsTrue result → keeps_tree self.now self.now.job_media ≡ true }
        ensures version { IsTrue result → spares_tree self.now self.now.version ≡ true }
    {
        self.keeps(self.job) && self.keeps(self.job_media) && self.spares(self.version)
    }

    /// Returns whether the tables are apart from those that a migration makes again or drops.
    fn is_apart(&self) -> bool
        ensures { IsTrue result → IsApart self.now }
    {
        self.keeps_names() && self.keeps_rows()
    }

    /// Returns whether an index may be beside the tables of version 1: it is that of the names of
    /// files, or of a table that a migration leaves as it is.
    fn fits(&self, index: &Index) -> bool
        ensures { result ≡ fits_index self.now index.now }
    {
        if index.table == self.filename {
            index.tree == self.filename_index
        } else {
            self.keeps(index.table)
        }
    }
}

/// Returns whether a table at a place of a schema has this shape in this tree, and is where it is
/// found.
fn fits_in(schema: &Schema, shape: &TableShape, tree: u32, place: usize, table: &Table) -> bool
    ensures { IsTrue result ↔ FitsIn schema.now shape.now tree place table.now }
{
    is_placed(table, shape, tree) && is_found(schema, place, table)
}

/// Returns whether the table at a place of a schema has this shape in this tree, and is where it is
/// found.
fn is_in(schema: &Schema, shape: &TableShape, tree: u32, place: usize) -> bool
    ensures { IsTrue result ↔ ((t : _) × (slice_get schema.now.tables place ≡ Some t) × FitsIn schema.now shape.now tree place t) }
{
    match schema.tables.as_slice().get(place) {
        Some(table) => fits_in(schema, shape, tree, place, table),
        None => false,
    }
}

/// Returns whether a schema has a table of just this shape in this tree.
fn stands(schema: &Schema, shape: &TableShape, tree: u32) -> bool
    ensures { IsTrue result → Stands schema.now (table_of shape.now tree) }
{
    match schema.table_named(shape.name) {
        Some(place) => is_in(schema, shape, tree, place),
        None => false,
    }
}

/// Returns whether a schema has tables of just these shapes in these trees.
fn all_stand(schema: &Schema, shapes: &[TableShape], trees: &[u32]) -> bool
    ensures { IsTrue result → AllByRecursion (Stands schema.now) (placed shapes.now trees.now) }
{
    match shapes {
        [shape, others @ ..] => match trees {
            [tree, later @ ..] => stands(schema, shape, *tree) && all_stand(schema, others, later),
            _ => true,
        },
        _ => true,
    }
}

/// Returns whether a table is one of these shapes in its tree.
fn is_one_of(table: &Table, shapes: &[TableShape], trees: &[u32]) -> bool
    ensures { IsTrue result → Has (placed shapes.now trees.now) table.now }
{
    match shapes {
        [shape, others @ ..] => match trees {
            [tree, later @ ..] => {
                is_placed(table, shape, *tree) || is_one_of(table, others, later)
            }
            _ => false,
        },
        _ => false,
    }
}

/// Returns whether a migration leaves a table as it is that is none of the catalogue's.
fn is_beside(table: &Table, layout: &OldLayout) -> bool
    ensures { IsTrue result → IsBeside layout.now table.now }
{
    layout.keeps(table.tree) && table.references.is_empty()
}

/// Returns whether a table is one of these shapes in its tree, or beside them.
fn may_stay(table: &Table, shapes: &[TableShape], trees: &[u32], layout: &OldLayout) -> bool
    ensures { IsTrue result → Has (placed shapes.now trees.now) table.now ⊎ IsBeside layout.now table.now }
{
    is_one_of(table, shapes, trees) || is_beside(table, layout)
}

/// Returns whether each table is one of these shapes in its tree, or beside them.
fn may_all_stay(tables: &[Table], shapes: &[TableShape], trees: &[u32], layout: &OldLayout) -> bool
    ensures { IsTrue result → AllByRecursion (λ t. Has (placed shapes.now trees.now) t ⊎ IsBeside layout.now t) tables.now }
{
    match tables {
        [table, more @ ..] => {
            may_stay(table, shapes, trees, layout) && may_all_stay(more, shapes, trees, layout)
        }
        _ => true,
    }
}

/// Returns whether each index may be beside the tables of version 1.
fn fit_indexes(indexes: &[Index], layout: &OldLayout) -> bool
    ensures { IsTrue result → AllByRecursion (λ i. fits_index layout.now i ≡ true) indexes.now }
{
    match indexes {
        [index, more @ ..] => layout.fits(index) && fit_indexes(more, layout),
        _ => true,
    }
}

/// Returns whether two indexes are the same.
fn is_same(index: &Index, other: &Index) -> bool
    ensures { IsTrue result → index.now ≡ other.now }
{
    index.name.as_slice() == other.name.as_slice()
        && index.tree == other.tree
        && index.table == other.table
        && index.columns.as_slice() == other.columns.as_slice()
        && index.order.digits == other.order.digits
        && index.is_unique == other.is_unique
}

/// Returns whether an index is one of these.
fn is_among(index: &Index, others: &[Index]) -> bool
    ensures { IsTrue result → Has others.now index.now }
{
    match others {
        [other, more @ ..] => is_same(index, other) || is_among(index, more),
        _ => false,
    }
}

/// Returns whether each index is one of others, in a tree and over a table that a migration leaves
/// as they are.
fn are_kept(indexes: &[Index], others: &[Index], layout: &OldLayout) -> bool
    ensures { IsTrue result → AreKept layout.now others.now indexes.now }
{
    match indexes {
        [index, more @ ..] => {
            layout.keeps(index.table)
                && layout.keeps(index.tree)
                && is_among(index, others)
                && are_kept(more, others, layout)
        }
        _ => true,
    }
}

/// Returns the tree of the table at a place of a schema.
fn tree_at(schema: &Schema, place: usize) -> Option<u32>
    ensures { result ≡ tree_in schema.now.tables (Some place) }
{
    match schema.tables.as_slice().get(place) {
        Some(table) => Some(table.tree),
        None => None,
    }
}

/// Returns the tree of the first table with a name.
fn tree_of(schema: &Schema, name: &[u8]) -> Option<u32>
    ensures { result ≡ tree_in schema.now.tables (table_named schema.now name.now) }
{
    match schema.table_named(name) {
        Some(place) => tree_at(schema, place),
        None => None,
    }
}

/// Returns the tree of the table of the version, if a schema has it (`has_version`).
pub fn version_tree(schema: &Schema) -> Option<u32>
    ensures found { IfSome result (IsVersionTree schema.now) }
    ensures known { HasVersionTable schema.now → IsSome result }
{
    if !has_version(schema) {
        return None;
    }
    tree_of(schema, b"Version")
}

/// Returns the tree of the first index of a table.
fn index_of(indexes: &[Index], table: u32) -> Option<u32> {
    let index = indexes.iter().find(|index| index.table == table)?;
    Some(index.tree)
}

/// Returns the trees of the tables with the names of those of version 1.
fn named(schema: &Schema) -> Option<OldLayout> {
    let filename = tree_of(schema, b"Filename")?;
    Some(OldLayout {
        version: tree_of(schema, b"Version")?,
        client: tree_of(schema, b"Client")?,
        fileset: tree_of(schema, b"FileSet")?,
        media: tree_of(schema, b"Media")?,
        path: tree_of(schema, b"Path")?,
        filename,
        job: tree_of(schema, b"Job")?,
        job_media: tree_of(schema, b"JobMedia")?,
        file: tree_of(schema, b"File")?,
        filename_index: index_of(schema.indexes.as_slice(), filename)?,
    })
}

/// Returns whether a schema is one of version 1 with its tables in these trees.
fn is_old(schema: &Schema, layout: &OldLayout) -> bool
    ensures { IsTrue result → IsOldSchema schema.now layout.now }
{
    let trees = layout.tables();
    if !all_stand(schema, &OLD_TABLES, &trees) {
        return false;
    }
    if !may_all_stay(schema.tables.as_slice(), &OLD_TABLES, &trees, layout) {
        return false;
    }
    fit_indexes(schema.indexes.as_slice(), layout) && layout.is_apart()
}

/// Returns the trees of the tables of version 1, if a schema has them. They may stand in any order.
/// There may be other tables that refer to none, any views, and any indexes of tables but Version,
/// Filename and File, beside those of the keys.
pub fn old_layout(schema: &Schema) -> Option<OldLayout>
    ensures { IfSome result (IsOldSchema schema.now) }
{
    let layout = named(schema)?;
    if is_old(schema, &layout) {
        return Some(layout);
    }
    None
}

/// Returns whether a schema is one that a migration may leave of one of version 1: it has the tables
/// of version 2 in the trees of those that they are made of, and no other indexes than before. Other
/// tables refer to none.
pub fn is_moved(schema: &Schema, old: &Schema, layout: &OldLayout) -> bool
    ensures { IsTrue result → IsMovedSchema schema.now old.now layout.now }
{
    let trees = layout.moved();
    if !all_stand(schema, &TABLES, &trees) {
        return false;
    }
    if !may_all_stay(schema.tables.as_slice(), &TABLES, &trees, layout) {
        return false;
    }
    are_kept(schema.indexes.as_slice(), old.indexes.as_slice(), layout)
}
