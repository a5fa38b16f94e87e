//! Names, and the numbers that the catalogue keeps in their place.

ghost use Rattle.std.specs.Prelude.{◌≡◌, pos, IfOk, IfSome, OnOk, OnErr};
ghost use Rattle.sqlite_value.specs.declared.value.Value.TheVariants.{Int};
ghost use Rattle.sqlite_value.specs.Value.{owned};
ghost use Rattle.sqlite.specs.Order.{column};
ghost use Rattle.sqlite.specs.State.{IsUnchanged, KeepsCommit};
ghost use Rattle.sqlite_rules.specs.Lists.{Has};
ghost use Rattle.br_store.specs.Names.{word, select_text, insert_text};
ghost use Rattle.br_store.specs.Calls.{BorrowsSame, CommitsNothing, InCatalogue, InTransaction, OnTables};
ghost use Rattle.br_store.specs.Held.{AreNumbersOf, FindsName, NamesBy, WritesNoRow};

use sqlite::types::ValueRef;
use sqlite::{Alter, Error, Row, Transaction};

/// A table of names, in which each name has a number.
#[derive(Clone, Copy)]
pub(crate) enum Dictionary {
    Client,
    FileSet,
    Media,
    Path,
}

/// Returns the query for the number of a name.
fn select_of(dictionary: Dictionary) -> &'static str
    ensures { result.now ≡ select_text dictionary }
{
    match dictionary {
        Dictionary::Client => "SELECT ClientId FROM Client WHERE Name = ?1",
        Dictionary::FileSet => "SELECT FileSetId FROM FileSet WHERE FileSet = ?1",
        Dictionary::Media => "SELECT MediaId FROM Media WHERE VolumeName = ?1",
        Dictionary::Path => "SELECT PathId FROM Path WHERE Path = ?1",
    }
}

/// Returns the statement that adds a name.
fn insert_of(dictionary: Dictionary) -> &'static str
    ensures { result.now ≡ insert_text dictionary }
{
    match dictionary {
        Dictionary::Client => "INSERT INTO Client (Name) VALUES (?1)",
        Dictionary::FileSet => "INSERT INTO FileSet (FileSet) VALUES (?1)",
        Dictionary::Media => "INSERT INTO Media (VolumeName, MediaType) VALUES (?1, 'File')",
        Dictionary::Path => "INSERT INTO Path (Path) VALUES (?1)",
    }
}

/// Returns the value of a name in its table: a text, or a blob for the front of a path.
fn word_of(dictionary: Dictionary, name: &[u8]) -> ValueRef<'_>
    ensures { owned result ≡ word dictionary name.now }
{
    match dictionary {
        Dictionary::Client | Dictionary::FileSet | Dictionary::Media => ValueRef::Text(name),
        Dictionary::Path => ValueRef::Blob(name),
    }
}

/// Reads the numbers of a name.
fn numbers_of<S: Alter>(
    tx: &mut Transaction<'_, S>,
    dictionary: Dictionary,
    name: &[u8],
) -> Result<Vec<Row>, Error>
    ensures same_reference { BorrowsSame tx.old.conn tx.new.conn }
    ensures found { OnTables S.Store tx.old.conn.now tx.new.conn.now (λ old new.
        IfOk result (λ rows. AreNumbersOf old dictionary name.now rows.items)) }
    ensures same { OnTables S.Store tx.old.conn.now tx.new.conn.now (λ old new. OnOk result (IsUnchanged old new)) }
    ensures kept { OnTables S.Store tx.old.conn.now tx.new.conn.now (λ old new. OnErr result (KeepsCommit old new)) }
    ensures survives { CommitsNothing S.Store tx.old.conn.now tx.new.conn.now }
{
    tx.query_all(select_of(dictionary), &[word_of(dictionary, name)])
}

/// Returns the number in the first row, if there is one.
fn first_id(rows: &[Row]) -> Result<Option<u32>, Error>
    ensures { IfOk result (λ o. IfSome o (λ id. (row : _) × Has rows.now row × (column row 0 ≡ Int (pos id)))) }
{
    match rows.first() {
        Some(row) => Ok(Some(row.get(0)?)),
        None => Ok(None),
    }
}

/// Reads the number of a name, if it has a row.
fn known_id<S: Alter>(
    tx: &mut Transaction<'_, S>,
    dictionary: Dictionary,
    name: &[u8],
) -> Result<Option<u32>, Error>
    ensures same_reference { BorrowsSame tx.old.conn tx.new.conn }
    ensures found { OnTables S.Store tx.old.conn.now tx.new.conn.now (λ old new.
        IfOk result (FindsName old new dictionary name.now)) }
    ensures kept { OnTables S.Store tx.old.conn.now tx.new.conn.now (λ old new. OnErr result (KeepsCommit old new)) }
    ensures survives { CommitsNothing S.Store tx.old.conn.now tx.new.conn.now }
{
    let rows = numbers_of(tx, dictionary, name)?;
    first_id(&rows)
}

/// Adds the row of a name.
fn put_name<S: Alter>(
    tx: &mut Transaction<'_, S>,
    dictionary: Dictionary,
    name: &[u8],
) -> Result<(), Error>
    ensures same_reference { BorrowsSame tx.old.conn tx.new.conn }
    ensures added { InCatalogue S.Store tx.old.conn.now tx.new.conn.now (λ old new. OnOk result (WritesNoRow old new)) }
    ensures kept { InTransaction S.Store tx.old.conn.now tx.new.conn.now (λ old new.
        OnErr result (KeepsCommit old new)) }
    ensures survives { CommitsNothing S.Store tx.old.conn.now tx.new.conn.now }
{
    tx.execute(insert_of(dictionary), &[word_of(dictionary, name)])?;
    Ok(())
}

/// Returns the number of a name; adds its row if it has none.
pub(crate) fn name_id<S: Alter>(
    tx: &mut Transaction<'_, S>,
    dictionary: Dictionary,
    name: &[u8],
) -> Result<u32, Error>
    ensures same_reference { BorrowsSame tx.old.conn tx.new.conn }
    ensures found { InCatalogue S.Store tx.old.conn.now tx.new.conn.now (λ old new.
        IfOk result (NamesBy old new dictionary name.now)) }
    ensures kept { InCatalogue S.Store tx.old.conn.now tx.new.conn.now (λ old new. OnErr result (KeepsCommit old new)) }
    ensures survives { CommitsNothing S.Store tx.old.conn.now tx.new.conn.now }
{
    if let Some(id) = known_id(tx, dictionary, name)? {
        return Ok(id);
    }
    put_name(tx, dictionary, name)?;
    match known_id(tx, dictionary, name)? {
        Some(id) => Ok(id),
        None => Err(Error::QueryReturnedNoRows),
    }
}
