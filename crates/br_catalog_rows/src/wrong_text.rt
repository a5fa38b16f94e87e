//! What is wrong with the rows of a catalogue, in words.

ghost use Rattle.std.specs.Prelude.{◌≡◌, ◌++◌, OnOk};
ghost use Rattle.br_catalog_rows.specs.WrongText.{clash_words, job_text, job_words, row_text, table_name, wrong_text};

use crate::wrong_rows::{Table, WrongRows};
use br_types::push_number;
use std::alloc::AllocError;

/// Returns the name of a table.
fn table_name(table: Table) -> &'static [u8]
    ensures { result.now ≡ table_name table }
{
    match table {
        Table::Job => b"Job",
        Table::JobMedia => b"JobMedia",
        Table::File => b"File",
    }
}

/// Appends the place of a row: its number, the table, and the table's order.
fn push_row(text: &mut Vec<u8>, table: Table, row: usize) -> Result<(), AllocError>
    ensures { OnOk result (text.new.items ≡ text.old.items ++ row_text table row) }
{
    text.extend_from_slice(b"row ")?;
    push_number(text, row as u64)?;
    text.extend_from_slice(b" of ")?;
    text.extend_from_slice(table_name(table))?;
    text.extend_from_slice(b", in order of ")?;
    text.extend_from_slice(table_name(table))?;
    text.extend_from_slice(b"Id: ")
}

/// Returns the words before the number of a job.
#[tactic(auto, unfolding(crate::specs::WrongText::job_words))]
fn job_words() -> &'static [u8]
    ensures { result.now ≡ job_words }
{
    b"rows of job "
}

/// Returns the words after it.
#[tactic(auto, unfolding(crate::specs::WrongText::clash_words))]
fn clash_words() -> &'static [u8]
    ensures { result.now ≡ clash_words }
{
    b" contradict each other"
}

/// Appends that the rows of a job do not fit together.
fn push_job(text: &mut Vec<u8>, id: u64) -> Result<(), AllocError>
    ensures { OnOk result (text.new.items ≡ text.old.items ++ job_text id) }
{
    text.extend_from_slice(job_words())?;
    push_number(text, id)?;
    text.extend_from_slice(clash_words())
}

/// Appends what is wrong with the rows of a catalogue.
#[tactic(auto, unfolding(crate::specs::WrongText::wrong_text))]
pub fn push_wrong(text: &mut Vec<u8>, wrong: WrongRows) -> Result<(), AllocError>
    ensures { OnOk result (text.new.items ≡ text.old.items ++ wrong_text wrong) }
{
    match wrong {
        WrongRows::Column { table, row, column } => {
            push_row(text, table, row)?;
            text.extend_from_slice(column.as_bytes())?;
            text.extend_from_slice(b" cannot be read")
        }
        WrongRows::Jobless { table, row } => {
            push_row(text, table, row)?;
            text.extend_from_slice(b"JobId is that of no job")
        }
        WrongRows::Job(id) => push_job(text, u64::from(id)),
        WrongRows::Contradiction => text.extend_from_slice(b"the rows contradict each other"),
    }
}
