//! The values of a row, read by the kind of their column.

ghost use Rattle.std.specs.Prelude.{◌≡◌};
ghost use Rattle.std.specs.Result.{result_ok};
ghost use Rattle.sqlite.specs.Order.{column};
ghost use Rattle.br_model.specs.Answer.{Answers};
ghost use Rattle.br_catalog_rows.specs.Fault.{rows_cause};
ghost use Rattle.br_catalog_rows.specs.Decode.{natural, small, text, blob, letter, letter_in, name_in, volume_in};

use crate::fault::RowsFault;
use br_types::{Letter, Name, VolName};
use sqlite::Row;
use sqlite::types::ValueRef;
use std::alloc::Global;

/// Returns the number in a column, which is 0 or more.
pub(crate) fn natural_at(row: &Row, at: usize) -> Result<u64, RowsFault>
    ensures { Answers (λ n. n) rows_cause result (natural (column row.now at)) }
{
    match row.get_ref(at) {
        Ok(ValueRef::Int(number)) => match u64::try_from(number) {
            Ok(natural) => Ok(natural),
            Err(_) => Err(RowsFault::BadRows),
        },
        _ => Err(RowsFault::BadRows),
    }
}

/// Returns the number in a column, which fits in 32 bits.
#[tactic(auto, unfolding(crate::specs::Decode::small))]
pub(crate) fn small_at(row: &Row, at: usize) -> Result<u32, RowsFault>
    ensures { Answers (λ n. n) rows_cause result (small (column row.now at)) }
{
    let number = natural_at(row, at)?;
    match u32::try_from(number) {
        Ok(small) => Ok(small),
        Err(_) => Err(RowsFault::BadRows),
    }
}

/// Returns the number in a column, if it is one that fits in 32 bits.
#[tactic(auto, unfolding(crate::specs::Decode::small))]
pub(crate) fn number_at(row: &Row, at: usize) -> Option<u32>
    ensures { result ≡ result_ok (small (column row.now at)) }
{
    match row.get_ref(at) {
        Ok(ValueRef::Int(number)) => match u64::try_from(number) {
            Ok(natural) => u32::try_from(natural).ok(),
            Err(_) => None,
        },
        _ => None,
    }
}

/// Returns the bytes of the text in a column.
pub(crate) fn text_at(row: &Row, at: usize) -> Result<&[u8], RowsFault>
    ensures { Answers (λ t. t.now) rows_cause result (text (column row.now at)) }
{
    match row.get_ref(at) {
        Ok(ValueRef::Text(bytes)) => Ok(bytes),
        _ => Err(RowsFault::BadRows),
    }
}

/// Returns the bytes of the blob in a column.
pub(crate) fn blob_at(row: &Row, at: usize) -> Result<&[u8], RowsFault>
    ensures { Answers (λ b. b.now) rows_cause result (blob (column row.now at)) }
{
    match row.get_ref(at) {
        Ok(ValueRef::Blob(bytes)) => Ok(bytes),
        _ => Err(RowsFault::BadRows),
    }
}

/// Returns the letter that is the one byte of this text.
fn letter_of(text: &[u8]) -> Result<Letter, RowsFault>
    ensures { Answers (λ l. l) rows_cause result (letter text.now) }
{
    match text {
        [byte] => Letter::new(*byte).ok_or(RowsFault::BadRows),
        _ => Err(RowsFault::BadRows),
    }
}

/// Returns the letter in a column.
#[tactic(auto, unfolding(crate::specs::Decode::letter_in))]
pub(crate) fn letter_at(row: &Row, at: usize) -> Result<Letter, RowsFault>
    ensures { Answers (λ l. l) rows_cause result (letter_in (column row.now at)) }
{
    letter_of(text_at(row, at)?)
}

/// Returns the name of a client or a file set in a column.
#[tactic(auto, unfolding(crate::specs::Decode::name_in, br_model::specs::Name::checked_name))]
pub(crate) fn name_at(alloc: Global, row: &Row, at: usize) -> Result<Name, RowsFault>
    ensures { Answers (λ n. n) rows_cause result (name_in (column row.now at)) }
{
    Ok(Name::new(alloc, text_at(row, at)?)?)
}

/// Returns the name of a volume in a column.
#[tactic(auto, unfolding(crate::specs::Decode::volume_in, br_model::specs::Name::checked_volume_name))]
pub(crate) fn volume_at(alloc: Global, row: &Row, at: usize) -> Result<VolName, RowsFault>
    ensures { Answers (λ n. n) rows_cause result (volume_in (column row.now at)) }
{
    Ok(VolName::new(alloc, text_at(row, at)?)?)
}
