//! Tests whether a schema is the catalogue's.

ghost use Rattle.std.specs.Prelude.{◌≡◌, ◌↔◌, IsTrue, [], ◌∷◌, ◌++◌, ◌^◌, ◌==◌, nat_le, false, Some, None};
ghost use Rattle.std.specs.Prelude.{codes, drop, length, map, slice_get};
ghost use Rattle.std.specs.List.{AllByRecursion, position_from};
ghost use Rattle.sqlite_schema.specs.Names.{column_named};
ghost use Rattle.br_catalog_tables.specs.SchemaShapes.{Begins, Fits, HasNoAction, HasShape, IsFound, IsReadable, any_column, bare, column_of};
ghost use Rattle.br_catalog_tables.specs.SchemaShapes.{key_of, orders_of};
ghost use Rattle.br_catalog_tables.specs.SchemaShapes.{own_of, primary_of, reference_of, simple, table_of, uniques_of};
ghost use Rattle.br_catalog_tables.specs.TreePlaces.{Layout};
ghost use Rattle.br_catalog_tables.specs.KnownSchemas.{HasAll, HasVersionTable, IsStoreSchema, Owns, with_own};
ghost use Rattle.br_catalog_tables.specs.Tables.{no_schema};

use crate::schema_shape::{ColumnShape, ReferenceShape, TABLES, TableShape, VERSION};
use sqlite_schema::code::Terms;
use sqlite_schema::schema::{Action, Column, Kind, Reference, Schema, Stamps, Table};
use sqlite_value::keys::{Collation, Order};
use sqlite_value::value::{Bytes, Value};

/// Returns whether a column has this name and kind, and is not STRICT.
fn is_kind(column: &Column, name: &[u8], kind: Kind, not_null: bool) -> bool
    ensures { IsTrue result ↔ (column.now ≡ any_column name.now kind not_null) }
{
    column.name.as_slice() == name
        && column.kind == kind
        && !column.is_strict
        && column.not_null == not_null
        && matches!(column.default, Value::Null)
        && column.collation == Collation::Binary
}

/// Returns whether a column has this shape.
fn is_column(column: &Column, shape: &ColumnShape) -> bool
    ensures { IsTrue result ↔ (column.now ≡ column_of shape.now) }
{
    match *shape {
        ColumnShape::Key(name) => is_kind(column, name, Kind::Integer, false),
        ColumnShape::Integer(name) => is_kind(column, name, Kind::Integer, true),
        ColumnShape::Text(name) => is_kind(column, name, Kind::Text, true),
        ColumnShape::Any(name) => is_kind(column, name, Kind::Any, true),
    }
}

/// Returns whether columns have these shapes.
fn are_columns(columns: &[Column], shapes: &[ColumnShape]) -> bool
    ensures { IsTrue result ↔ (columns.now ≡ map column_of shapes.now) }
{
    match columns {
        [] => shapes.is_empty(),
        [column, more @ ..] => match shapes {
            [shape, others @ ..] => is_column(column, shape) && are_columns(more, others),
            _ => false,
        },
    }
}

fn are_places(places: &[usize], expected: &[usize]) -> bool
    ensures { IsTrue result ↔ (places.now ≡ expected.now) }
{
    places == expected
}

fn is_place(places: &[usize], place: usize) -> bool
    ensures { IsTrue result ↔ (places.now ≡ place ∷ []) }
{
    match places {
        [only] => *only == place,
        _ => false,
    }
}

fn is_name(bytes: &Bytes, name: &[u8]) -> bool
    ensures { IsTrue result ↔ (bytes.now ≡ name.now) }
{
    bytes.as_slice() == name
}

fn names_one(names: &[Bytes], name: &[u8]) -> bool
    ensures { IsTrue result ↔ (names.now ≡ name.now ∷ []) }
{
    match names {
        [only] => is_name(only, name),
        _ => false,
    }
}

fn does_nothing(reference: &Reference) -> bool
    ensures { IsTrue result ↔ HasNoAction reference.now }
{
    reference.on_delete == Action::NoAction
        && reference.on_update == Action::NoAction
        && !reference.is_deferred
}

/// Returns whether a reference has this shape, and no action.
fn is_reference(reference: &Reference, shape: &ReferenceShape) -> bool
    ensures { IsTrue result ↔ (reference.now ≡ reference_of shape.now) }
{
    is_place(reference.columns.as_slice(), shape.place)
        && is_name(&reference.parent, shape.parent)
        && names_one(reference.parent_columns.as_slice(), shape.name)
        && does_nothing(reference)
}

/// Returns whether references have these shapes.
fn are_references(references: &[Reference], shapes: &[ReferenceShape]) -> bool
    ensures { IsTrue result ↔ (references.now ≡ map reference_of shapes.now) }
{
    match references {
        [] => shapes.is_empty(),
        [reference, more @ ..] => match shapes {
            [shape, others @ ..] => is_reference(reference, shape) && are_references(more, others),
            _ => false,
        },
    }
}

/// Returns whether the key is the first column, or there is no key.
fn has_key(table: &Table, is_keyed: bool) -> bool
    ensures { IsTrue result ↔ ((table.now.key ≡ key_of is_keyed) × (table.now.primary ≡ primary_of is_keyed)) }
{
    if is_keyed {
        table.key == Some(0) && is_place(table.primary.as_slice(), 0)
    } else {
        table.key.is_none() && table.primary.is_empty()
    }
}

fn is_plain(orders: &[Order]) -> bool
    ensures { IsTrue result ↔ (orders.now ≡ record { digits = 0 } ∷ []) }
{
    match orders {
        [order] => order.digits == 0,
        _ => false,
    }
}

/// Returns whether the rows differ in the columns at these places, if there are some, and in no
/// others.
fn has_unique(table: &Table, unique: Option<&[usize]>) -> bool
    ensures { IsTrue result ↔ ((table.now.uniques ≡ uniques_of unique.entry) × (table.now.orders ≡ orders_of unique.entry)) }
{
    match unique {
        Some(places) => {
            match table.uniques.as_slice() {
                [only] => are_places(only.as_slice(), places) && is_plain(table.orders.as_slice()),
                _ => false,
            }
        }
        None => table.uniques.is_empty() && table.orders.is_empty(),
    }
}

fn has_none(terms: &Terms) -> bool
    ensures { IsTrue result ↔ (terms.now ≡ []) }
{
    terms.roots.is_empty()
}

fn reads_no_time(stamps: &Stamps) -> bool
    ensures { IsTrue result ↔ (stamps.now ≡ record { places = []; terms = []; formats = [] }) }
{
    stamps.places.is_empty() && has_none(&stamps.terms) && stamps.formats.is_empty()
}

/// Returns whether a table has this name, and no check, computed default or count.
fn is_bare(table: &Table, name: &[u8]) -> bool
    ensures { IsTrue result ↔ (table.now ≡ bare name.now table.now) }
{
    table.name.as_slice() == name
        && has_none(&table.checks)
        && table.computed.is_empty()
        && reads_no_time(&table.stamps)
        && !table.is_counted
}

/// Returns whether a table has this shape.
fn is_table(table: &Table, shape: &TableShape) -> bool
    ensures { IsTrue result ↔ (table.now ≡ table_of shape.now table.now.tree) }
{
    is_bare(table, shape.name)
        && are_columns(table.columns.as_slice(), shape.columns)
        && has_key(table, shape.is_keyed)
        && has_unique(table, shape.unique)
        && are_references(table.references.as_slice(), shape.references)
}

/// Returns whether a table has this shape, and is in this tree.
pub(crate) fn is_placed(table: &Table, shape: &TableShape, tree: u32) -> bool
    ensures { IsTrue result ↔ (table.now ≡ table_of shape.now tree) }
{
    table.tree == tree && is_table(table, shape)
}

/// Returns whether columns begin with these shapes.
fn begin_columns(columns: &[Column], shapes: &[ColumnShape]) -> bool
    ensures { IsTrue result ↔ (columns.now ≡ map column_of shapes.now ++ drop (length shapes.now) columns.now) }
{
    match shapes {
        [] => true,
        [shape, others @ ..] => match columns {
            [column, more @ ..] => is_column(column, shape) && begin_columns(more, others),
            _ => false,
        },
    }
}

/// Returns whether references begin with these shapes.
fn begin_references(references: &[Reference], shapes: &[ReferenceShape]) -> bool
    ensures { IsTrue result ↔ (references.now ≡ map reference_of shapes.now ++ drop (length shapes.now) references.now) }
{
    match shapes {
        [] => true,
        [shape, others @ ..] => match references {
            [reference, more @ ..] => {
                is_reference(reference, shape) && begin_references(more, others)
            }
            _ => false,
        },
    }
}

/// Returns whether orders begin with a plain order.
fn begin_plain(orders: &[Order]) -> bool
    ensures { IsTrue result ↔ (orders.now ≡ record { digits = 0 } ∷ drop 1 orders.now) }
{
    match orders {
        [order, ..] => order.digits == 0,
        _ => false,
    }
}

/// Returns whether the keys of a table, and their orders, begin with the one over these places, if
/// there are some.
fn begins_unique(table: &Table, unique: Option<&[usize]>) -> bool
    ensures { IsTrue result ↔ (Begins (uniques_of unique.entry) table.now.uniques × Begins (orders_of unique.entry) table.now.orders) }
{
    match unique {
        Some(places) => {
            match table.uniques.as_slice() {
                [first, ..] => {
                    are_places(first.as_slice(), places) && begin_plain(table.orders.as_slice())
                }
                _ => false,
            }
        }
        None => true,
    }
}

/// Returns whether a table has this name, and no computed default or count.
fn is_simple(table: &Table, name: &[u8]) -> bool
    ensures { IsTrue result ↔ (table.now ≡ simple name.now table.now) }
{
    table.name.as_slice() == name
        && table.computed.is_empty()
        && reads_no_time(&table.stamps)
        && !table.is_counted
}

/// Returns whether a table has this shape, perhaps with a user's additions after it.
fn begins_as(table: &Table, shape: &TableShape) -> bool
    ensures { IsTrue result ↔ (table.now ≡ with_own (table_of shape.now table.now.tree) (own_of shape.now table.now)) }
{
    is_simple(table, shape.name)
        && begin_columns(table.columns.as_slice(), shape.columns)
        && has_key(table, shape.is_keyed)
        && begins_unique(table, shape.unique)
        && begin_references(table.references.as_slice(), shape.references)
}

/// Returns whether a tree is one of stored tables.
pub(crate) fn is_stored(tree: u32) -> bool
    ensures { IsTrue result ↔ (nat_le (2 ^ 31) tree ≡ false) }
{
    tree < 1 << 31
}

/// Returns the place of the first table in a tree.
fn place_in(tables: &[Table], tree: u32) -> Option<usize>
    ensures { result ≡ position_from (λ (u : _). u.tree == tree) 0 tables.now }
{
    tables.iter().position(|table| table.tree == tree)
}

/// Returns whether the first table in a tree is at this place.
fn is_first(schema: &Schema, tree: u32, place: usize) -> bool
    ensures { IsTrue result ↔ (position_from (λ (u : _). u.tree == tree) 0 schema.now.tables ≡ Some place) }
{
    match place_in(schema.tables.as_slice(), tree) {
        Some(first) => first == place,
        None => false,
    }
}

/// Returns whether a table has a key, or no column with the name of a row's number.
fn is_numbered(table: &Table) -> bool
    ensures { IsTrue result ↔ (table.now.key ≡ None → column_named table.now (codes "rowid") ≡ None) }
{
    table.key.is_some() || table.column_named(b"rowid").is_none()
}

/// Returns whether a table is in a tree of stored tables, and has a key or no column with the name of
/// a row's number.
fn is_readable(table: &Table) -> bool
    ensures { IsTrue result ↔ IsReadable table.now }
{
    is_stored(table.tree) && is_numbered(table)
}

/// Returns whether a table at a place of a schema is found by its tree, and can be read by its names.
pub(crate) fn is_found(schema: &Schema, place: usize, table: &Table) -> bool
    ensures { IsTrue result ↔ IsFound schema.now place table.now }
{
    is_first(schema, table.tree, place) && is_readable(table)
}

/// Returns whether a table at a place of a schema has this shape, and is where it is found.
fn fits(schema: &Schema, shape: &TableShape, place: usize, table: &Table) -> bool
    ensures { IsTrue result ↔ Fits schema.now shape.now place table.now }
{
    begins_as(table, shape) && is_found(schema, place, table)
}

/// Returns whether the table at a place of a schema has this shape, and is where it is found.
fn is_at(schema: &Schema, shape: &TableShape, place: usize) -> bool
    ensures { IsTrue result ↔ ((t : _) × (slice_get schema.now.tables place ≡ Some t) × Fits schema.now shape.now place t) }
{
    match schema.tables.as_slice().get(place) {
        Some(table) => fits(schema, shape, place, table),
        None => false,
    }
}

/// Returns whether a schema has a table of this shape.
fn has_shape(schema: &Schema, shape: &TableShape) -> bool
    ensures { IsTrue result ↔ HasShape schema.now shape.now }
{
    match schema.table_named(shape.name) {
        Some(place) => is_at(schema, shape, place),
        None => false,
    }
}

/// Returns whether a schema has tables of these shapes.
fn have_shapes(schema: &Schema, shapes: &[TableShape]) -> bool
    ensures { IsTrue result ↔ AllByRecursion (HasShape schema.now) shapes.now }
{
    match shapes {
        [] => true,
        [shape, others @ ..] => has_shape(schema, shape) && have_shapes(schema, others),
    }
}

/// Returns whether a schema has the catalogue's tables, in any order and in any trees. Each may have
/// a user's columns after those of the catalogue, and there may be other tables, any
/// indexes and any views.
pub fn is_ours(schema: &Schema) -> bool
    ensures ours { IsTrue result → IsStoreSchema schema.now }
    ensures known { (l : Layout) (o : Owns) → HasAll schema.now l o → IsTrue result }
{
    have_shapes(schema, &TABLES)
}

/// Returns whether a schema has the table of the version, in any tree and whatever is beside it. It
/// may have a user's columns after that of the version.
pub fn has_version(schema: &Schema) -> bool
    ensures version { IsTrue result → HasVersionTable schema.now }
    ensures known { HasVersionTable schema.now → IsTrue result }
{
    has_shape(schema, &VERSION)
}

/// Returns whether a schema has no table, no index and no view.
pub fn is_empty(schema: &Schema) -> bool
    ensures empty { IsTrue result → schema.now ≡ no_schema }
    ensures known { schema.now ≡ no_schema → IsTrue result }
{
    schema.tables.is_empty() && schema.indexes.is_empty() && schema.views.is_empty()
}
