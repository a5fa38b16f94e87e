//! A writer that reports the files of the manifest.
ghost use Rattle.std.specs.Prelude.{◌≡◌, OnOk};
ghost use Rattle.std.specs.Io.KnownBytes.{Keeps};

use crate::gauge::Gauge;
use crate::passed_faults::Faults;
use crate::passed_lines::PassedLines;
use br_bsr::{Bootstrap, read_bootstrap};
use br_sink::Flush;
use br_types::FileKey;
use std::io::{self, Write};

/// The first bytes of a planned bootstrap's text.
const VOLUME: &[u8] = b"Volume=\"";

/// A writer that writes as another one does, and reports the files of the manifest to a gauge. It
/// keeps the keys of the outcomes, those that are no files, and the bootstrap of a console session.
/// It removes the gauge's line from the terminal before it writes. A line `refused N`, a reply to a
/// line of the console, is explained after it is flushed.
#[derive(Drop)]
pub struct WatchedWriter<'g, 'r, W> {
    pub inner: W,
    gauge: &'g Gauge<'r>,
    lines: PassedLines,
    /// The last bootstrap that was written in one call.
    plan: Option<Bootstrap>,
}

impl<'g, 'r, W> WatchedWriter<'g, 'r, W> {
    /// Creates a writer that writes as this one does.
    pub fn new(inner: W, gauge: &'g Gauge<'r>) -> WatchedWriter<'g, 'r, W>
        ensures { result.inner ≡ inner }
    {
        WatchedWriter {
            inner,
            gauge,
            lines: PassedLines::new(gauge.alloc()),
            plan: None,
        }
    }

    /// Returns the outcomes of the written part of the manifest that are no files.
    pub fn faults(&self) -> &Faults {
        &self.lines.faults
    }

    /// Returns the keys of the outcomes in the written part of the manifest, unless memory ran out.
    /// Nothing is kept if nobody reads what the gauge reports.
    pub fn keys(&self) -> Option<&[FileKey]> {
        match &self.lines.keys {
            Some(keys) => Some(keys),
            None => None,
        }
    }

    /// Returns the bootstrap that a console session wrote, if it did and somebody reads what the
    /// gauge reports.
    pub fn plan(&self) -> Option<&Bootstrap> {
        self.plan.as_ref()
    }
}

/// Returns the bootstrap in a text that was written in one call, if it is one; `None` if memory
/// runs out.
fn plan_in(gauge: &Gauge<'_>, text: &[u8]) -> Option<Bootstrap> {
    if !text.starts_with(VOLUME) {
        return None;
    }
    let bootstrap = read_bootstrap(gauge.alloc(), text).ok()?;
    gauge.expect_volumes(&bootstrap);
    Some(bootstrap)
}

impl<'g, 'r, W: Flush> Write for WatchedWriter<'g, 'r, W> {
    ghost contents = { λ w. W.contents w.inner };

    fn write(&mut self, buf: &[u8]) -> io::Result<usize> {
        self.gauge.clear();
        let written = self.inner.write(buf);
        if let Ok(len) = &written {
            if self.gauge.is_watching() {
                self.lines.pass(self.gauge, buf.get(..*len).unwrap_or(buf));
            }
        }
        written
    }

    fn flush(&mut self) -> io::Result<()>
        ensures bytes { Keeps (W.contents self.old.inner) (W.contents self.new.inner) }
        ensures flushed { OnOk result (W.is_flushed self.new.inner) }
    {
        self.gauge.clear();
        let flushed = self.inner.flush_all();
        if let Some(number) = self.lines.refused.take() {
            self.gauge.explain(number);
        }
        flushed
    }

    fn write_all(&mut self, buf: &[u8]) -> io::Result<()> {
        if self.gauge.is_watching() {
            self.gauge.clear();
            self.lines.pass(self.gauge, buf);
            if let Some(plan) = plan_in(self.gauge, buf) {
                self.plan = Some(plan);
            }
        }
        self.inner.write_all(buf)
    }
}
