//! From marked paths to a bootstrap: the records, of which volumes, that restore the marked files,
//! and the names of these files.
//!
//! A `Request` names a client, a file set and a moment. `read_request` reads it from the words of
//! the command line. A `JobSelection` has the jobs that it chooses. Contracts see a `Request` and a
//! `Plan` as the records of the model.
#![tactic(auto)]

mod fault;
mod index_runs;
mod job_selection;
mod moment;
mod naming;
mod part;
mod plan;
mod plan_group;
mod ranges;
mod request;
mod request_words;
mod select;

pub use fault::PlanFault;
pub use job_selection::JobSelection;
pub use moment::{BadMoment, read_moment};
pub use plan::Plan;
pub use request::Request;
pub use request_words::{RequestFault, read_request};
