ghost use Rattle.std.specs.Prelude.{◌≡◌, ◌++◌, OnOk};
ghost use Rattle.br_engine.specs.Outputs.{end_text};

use crate::fault::push_refused_line;
use crate::restore_stop::RestoreStop;
use std::alloc::AllocError;

/// How a restore ended that wrote its manifest.
#[derive(Drop)]
pub enum RestoreEnd {
    /// Each outcome is a file, and all of them were delivered if there is a sink.
    AllFiles,
    /// Some outcome is no file; all files were delivered if there is a sink.
    SomeFaults,
    /// The delivery stopped.
    Stopped(RestoreStop),
}

impl RestoreEnd {
    /// Appends the line `refused N` of a delivery that stopped, and nothing otherwise.
    ///
    /// If memory runs out, a part of the line may have been appended.
    pub fn push_line(&self, text: &mut Vec<u8>) -> Result<(), AllocError>
        ensures { OnOk result (text.new.items ≡ text.old.items ++ end_text self.now) }
    {
        match self {
            RestoreEnd::AllFiles | RestoreEnd::SomeFaults => Ok(()),
            RestoreEnd::Stopped(stop) => push_refused_line(text, stop.number()),
        }
    }
}
