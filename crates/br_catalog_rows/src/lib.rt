//! The rows of the catalogue as values: a job as rows, and the history that the rows of a catalogue
//! form.
//!
//! Contracts see the rows of a catalogue, `CatalogueRows`, as the record `Rows` of the specs.
#![tactic(auto)]

mod decode;
mod encode;
mod fault;
mod laws;
mod load;
mod value;
mod wrong_rows;
mod wrong_text;

pub use encode::{cut, digits_of, high_half, low_half};
pub use fault::{RowsFault, StoreFault};
pub use laws::{
    file_is_whole, inserted_jobs_load, job_is_whole, needed_files_load, rows_read_back,
    span_is_whole,
};
pub use load::{CatalogueRows, history_of, is_of_any};
pub use wrong_rows::{Table, WrongRows, find_wrong};
pub use wrong_text::push_wrong;
