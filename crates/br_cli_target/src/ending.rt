ghost use Rattle.std.specs.Prelude.{◌≡◌, IfOk};

use br_cli_common::tell_refusals;
use std::io;

/// Exit status and refusal line of a run.
#[derive(Drop)]
pub struct Ending {
    pub status: u8,
    /// The line of the refusal; empty if nothing was refused.
    pub refusal: Vec<u8>,
}

impl Ending {
    /// Prints the line of the refusal to standard error, and explains it to a terminal. Returns the
    /// exit status.
    pub fn print(&self, rt: &HostRuntime) -> io::Result<u8>
        ensures { IfOk result (λ status. status ≡ self.now.status) }
    {
        let refusal = String::from_utf8_lossy(rt.alloc(), &self.refusal)?;
        eprint!(rt; "{refusal}")?;
        tell_refusals(rt, &self.refusal)?;
        Ok(self.status)
    }
}
