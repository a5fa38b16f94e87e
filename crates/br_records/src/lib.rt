//! Makes records from fragments, and the outline of a file: all but its bytes.
//!
//! `settle` puts fragments in order, and `around` finds those of one file. `records_of` joins them
//! to records. A file has the attributes that `attributes_of` returns, and the bytes that
//! `push_data` appends record by record; it copies none.
//!
//! `sketches_of` needs the headers of records and the attributes alone. It finds each fault that a
//! restore finds, except a digest that differs.
#![tactic(auto)]

mod attributes;
mod file_record;
mod making_fault;
mod outline;
mod parts;
mod record_data;
mod sorted_hits;
mod streams;

ghost use Rattle.br_records.specs.Outline.{OutlinesForesee};

pub use attributes::attributes_of;
pub use file_record::{FileRecord, records_of};
pub use making_fault::{FileFault, MakingFault};
pub use outline::{Outline, Sketch, sketches_of};
pub use record_data::GREATEST_LEN;
pub use sorted_hits::{around, settle};
pub use streams::{
    ATTRIBUTES, DATA, DIGEST, SPARSE_DATA, checks_digest, count_in, first_in, has_bytes,
    has_sparse_data, refuse_unsupported, skipped_in,
};

/// States that a file has its outline. If there is no file, there is no outline for the same
/// reason; only a file whose digest differs has an outline, too.
#[tactic(auto, using(crate::proofs::OutlineLaws::outlines_foresee_lem))]
pub fn outlines_foresee()
    ensures { OutlinesForesee }
{}
