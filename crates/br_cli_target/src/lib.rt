//! The targets of the commands, and their reports: a folder or a tar stream, the gauge that watches
//! a restore, the words at a terminal and in a log, where manifest and answers go, and the exit status.
//! For outcomes that are no files, `origins` finds the volume and the paths in the attributes. A
//! terminal is told what a restore does not report without its options: copies of paths that are
//! older than others, indexes without an outcome, and why volumes can't be read. `narrow` leaves out such volumes of a
//! bootstrap.
#![tactic(auto)]

mod absent_count;
mod advice_lines;
mod attribute_paths;
mod ending;
mod first_asking;
mod host_restore;
mod lost_volumes;
mod narrowed_groups;
mod origin;
mod own_hits;
mod searched_hits;
mod settling;
mod target_folder;
mod target_tar;
mod text_output;
mod told_outcomes;
mod told_target;
mod watched_restore;
mod whole_restore;

pub use absent_count::count_absent;
pub use advice_lines::{push_absent, push_older, push_origin};
pub use ending::Ending;
pub use host_restore::{restore_over, with_watched_drives, with_watched_sink};
pub use lost_volumes::{damage, narrow, tell_damage};
pub use origin::{Origin, origins};
pub use settling::{Channel, Settle};
pub use target_folder::{LeavingSink, ResumingSink, folder_of, leaving_over, resuming_over};
pub use target_tar::{
    PutExtent, Streamed, TarEnd, TarFault, add_tar_end, end_stream, tar_into, tar_onto, tar_output,
};
pub use text_output::{TextOutput, end_manifest, open_manifest, refuse_manifest};
pub use told_outcomes::{ToldOutcomes, advise, say_volumes, tell_outcomes};
pub use told_target::{
    lacks_volumes, log_fault, refuse_place, say_conflicts, say_files, say_nowhere, say_place,
    say_stop, say_unended, tell_others,
};
pub use watched_restore::{gauge_of, refuse_log};
pub use whole_restore::{is_whole, left_out};
