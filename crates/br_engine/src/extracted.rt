//! The result of a restore.
ghost use Rattle.std.specs.Prelude.{◌≡◌, ◌++◌, OnOk};
ghost use Rattle.br_engine.specs.Restores.{done_lines};

use crate::restore_end::RestoreEnd;
use br_join::Outcome;
use br_sink::push_left;
use br_types::{FileKey, Path};
use std::alloc::AllocError;

/// The result of a restore that wrote its manifest.
#[derive(Drop)]
pub struct Extracted {
    /// The end of the restore.
    pub end: RestoreEnd,
    /// The lines of the indexes that the bootstrap asks for without an outcome, and of the groups
    /// with fewer outcomes than they count, if these are reported.
    pub missing: Vec<u8>,
    /// The paths of the files that are left out since they conflict with one that is delivered.
    pub left: Vec<Path>,
    /// The path of the file at which the delivery stopped, if it did and memory did not run out for
    /// the path.
    pub stopped_at: Option<Path>,
    /// The outcomes that were to be delivered.
    pub outcomes: Vec<(FileKey, Outcome)>,
}

impl Extracted {
    /// Appends the lines of what is missing, those of the files that are left out, and the line
    /// `refused N` of a delivery that stopped. `failed` are the paths of the files at which the
    /// sink failed.
    ///
    /// If memory runs out, a part of them may have been appended.
    pub fn push_lines(&self, failed: &[Path], text: &mut Vec<u8>) -> Result<(), AllocError>
        ensures { OnOk result (text.new.items ≡ text.old.items ++ done_lines self.now failed.now) }
    {
        text.extend_from_slice(&self.missing)?;
        push_left(text, 81, &self.left)?;
        push_left(text, 80, failed)?;
        self.end.push_line(text)
    }
}
