//! A writer to a terminal that shows the progress.
ghost use Rattle.std.specs.Prelude.{◌≡◌, OnOk};
ghost use Rattle.std.specs.Io.KnownBytes.{Keeps};

use crate::gauge::Gauge;
use br_sink::Flush;
use std::io::{self, Write};

/// A writer that writes as another one does, and removes the gauge's line from the terminal before.
#[derive(Drop)]
pub struct ClearingWriter<'g, 'r, W> {
    pub inner: W,
    gauge: &'g Gauge<'r>,
}

impl<'g, 'r, W> ClearingWriter<'g, 'r, W> {
    /// Creates a writer that writes as this one does.
    pub fn new(inner: W, gauge: &'g Gauge<'r>) -> ClearingWriter<'g, 'r, W>
        ensures { result.inner ≡ inner }
    {
        ClearingWriter { inner, gauge }
    }
}

impl<'g, 'r, W: Flush> Write for ClearingWriter<'g, 'r, W> {
    ghost contents = { λ w. W.contents w.inner };

    fn write(&mut self, buf: &[u8]) -> io::Result<usize> {
        self.gauge.clear();
        self.inner.write(buf)
    }

    fn flush(&mut self) -> io::Result<()>
        ensures bytes { Keeps (W.contents self.old.inner) (W.contents self.new.inner) }
        ensures flushed { OnOk result (W.is_flushed self.new.inner) }
    {
        self.gauge.clear();
        self.inner.flush_all()
    }

    fn write_all(&mut self, buf: &[u8]) -> io::Result<()> {
        self.gauge.clear();
        self.inner.write_all(buf)
    }
}
