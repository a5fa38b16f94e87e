//! The version of a catalogue.

ghost use Rattle.std.specs.Prelude.{◌≡◌};
ghost use Rattle.sqlite.specs.Order.{column};
ghost use Rattle.br_catalog_rows.specs.Decode.{natural};
ghost use Rattle.br_catalog_rows.specs.Load.{is_read};
ghost use Rattle.br_store.specs.Made.{is_first, is_second, version_refusal};

use br_catalog_rows::StoreFault;
use sqlite::Row;
use sqlite::types::ValueRef;

/// Returns whether a row shows this number.
fn shows(row: &Row, version: u64) -> bool
    ensures { result ≡ is_read version (natural (column row.now 0)) }
{
    match row.get_ref(0) {
        Ok(ValueRef::Int(number)) => match u64::try_from(number) {
            Ok(natural) => version == natural,
            Err(_) => false,
        },
        _ => false,
    }
}

/// Returns whether these versions are the one row 1.
fn are_first(versions: &[Row]) -> bool
    ensures { result ≡ is_first versions.now }
{
    match versions {
        [row] => shows(row, 1),
        _ => false,
    }
}

/// Returns whether these versions are the one row 2.
fn are_second(versions: &[Row]) -> bool
    ensures { result ≡ is_second versions.now }
{
    match versions {
        [row] => shows(row, 2),
        _ => false,
    }
}

/// Returns why a catalogue with these versions is refused: `OldCatalogue` if they are the one row 1,
/// `BadCatalogue` if they are not the one row 2 either.
pub(crate) fn refusal_of(versions: &[Row]) -> Option<StoreFault>
    ensures { result ≡ version_refusal versions.now }
{
    if are_first(versions) {
        return Some(StoreFault::OldCatalogue);
    }
    if are_second(versions) {
        return None;
    }
    Some(StoreFault::BadCatalogue)
}
