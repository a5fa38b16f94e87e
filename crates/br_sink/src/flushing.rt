ghost use Rattle.std.specs.Prelude.{IfOk, OnOk};
ghost use Rattle.std.specs.Io.KnownBytes.{Appends, Keeps};

use std::io::{self, Write};

/// A writer whose contracts can say that it is flushed.
///
/// No type defines what this means for it, so a function over any such writer can only meet "the
/// writer is flushed" by flushing it after all that it writes. Each writer is one.
pub trait Flush: Write {
    ghost use Rattle.std.specs.Prelude.{⊤};

    /// Nothing was written since the last flush.
    ghost is_flushed: { Self → Type 0 } = { λ _. ⊤ };

    /// Flushes the writer.
    fn flush_all(&mut self) -> io::Result<()>
        ensures bytes { Keeps (Self.contents self.old) (Self.contents self.new) }
        ensures flushed { IfOk result (λ _. is_flushed self.new) };
}

impl<W: Write> Flush for W {
    fn flush_all(&mut self) -> io::Result<()> {
        self.flush()
    }
}

/// Writes a text and flushes it, so that it is visible before anything else is done.
pub fn show<W: Flush>(writer: &mut W, text: &[u8]) -> io::Result<()>
    ensures written { OnOk result (Appends (W.contents writer.old) (W.contents writer.new) text.now) }
    ensures flushed { OnOk result (W.is_flushed writer.new) }
{
    writer.write_all(text)?;
    writer.flush_all()
}
