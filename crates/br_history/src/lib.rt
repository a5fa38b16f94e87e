//! Jobs as the catalogue holds them, and histories of jobs: all that a restore knows about the
//! backups before it.
//!
//! A `SavedJob` is a job with the files that it saves, before it is committed. A `Draft` is a job
//! of which some lines of a script, from `job` to `end`, have been read. It needs neither a
//! catalogue nor a volume.
//!
//! A catalogue has millions of rows of files, and most calls need those of a few jobs. `Needs` says
//! of which: it sees all jobs without their files, and returns the numbers of those whose files are
//! needed. Contracts see what is read then as `with_needed` of all jobs: the others have no files.
//!
//! Contracts see a job's row, a file's row and a job's rows as the records of the model, and a
//! `History` as the list of the rows of its jobs. The columns are those of Bacula's Developer's
//! Guide, "Catalog Services".
#![tactic(auto)]

mod draft;
mod fault;
mod file_line;
mod history;
mod job_fields;
mod job_head;
mod job_line;
mod job_line_fault;
mod laws;
mod needs;
mod row;
mod rows;
mod saved_job;
mod session;

pub use draft::{Draft, EndFault, Taken};
pub use fault::{HistoryFault, SavedJobFault};
pub use history::History;
pub use job_fields::{name_of, next};
pub use job_head::{JobHead, read_head};
pub use job_line::{JobLine, MAX_LINE, read_job_line};
pub use job_line_fault::JobLineFault;
pub use laws::{
    needed_jobs_choose_alike, pushed_is_admitted, volumes_stay_whole, whole_volumes_are_ready,
    written_rows_fit,
};
pub use needs::{Needs, numbers_of};
pub use row::{FileRow, JobRow};
pub use rows::JobRows;
pub use saved_job::SavedJob;
pub use session::session_of;
