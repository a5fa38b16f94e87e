//! Streams that are made durable at their end.
ghost use Rattle.std.specs.Prelude.{Bool, IfOk, true, false};
ghost use Rattle.std.specs.Io.KnownBytes.{Keeps};

use br_sink::Flush;
use std::fs::File;
use std::io::{self, BufWriter, Printer, Stderr, Write};

/// A writer, and whether it is standard output.
pub trait Channel: Write {
    ghost is_output: { Bool };

    /// Makes durable what was written, if this is a file. What was written stays.
    fn sync(&mut self) -> io::Result<()>
        ensures bytes { Keeps (Self.contents self.old) (Self.contents self.new) };
}

impl Channel for File {
    ghost is_output = { false };

    fn sync(&mut self) -> io::Result<()> {
        self.sync_data()
    }
}

impl Channel for Printer<'_, HostRuntime> {
    ghost is_output = { true };

    fn sync(&mut self) -> io::Result<()> {
        Ok(())
    }
}

impl Channel for Stderr {
    ghost is_output = { false };

    fn sync(&mut self) -> io::Result<()> {
        Ok(())
    }
}

/// A writer whose contracts can say that it is flushed, and then synced if it is a file.
///
/// As of `Flush`, no type defines what these mean for it. So a function over any such writer can
/// only meet "the writer is settled" by settling it after all that it writes.
pub trait Settle: Flush {
    ghost use Rattle.std.specs.Prelude.{⊤};

    /// Nothing was written since the writer was settled.
    ghost is_settled: { Self → Type 0 } = { λ _. ⊤ };

    /// Flushes the writer, and makes durable what was written.
    fn settle(&mut self) -> io::Result<()>
        ensures bytes { Keeps (Self.contents self.old) (Self.contents self.new) }
        ensures flushed { IfOk result (λ _. Self.is_flushed self.new) }
        ensures settled { IfOk result (λ _. is_settled self.new) };
}

impl<C: Channel + Drop> Settle for BufWriter<C> {
    fn settle(&mut self) -> io::Result<()> {
        self.flush_all()?;
        self.get_mut().sync()
    }
}
