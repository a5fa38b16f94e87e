//! The counters of a running restore, and when and where they are shown.
ghost use Rattle.std.specs.Prelude.{◌≡◌, ◌⊎◌, IfOk, None};
ghost use Rattle.br_cli_progress.specs.Telling.{HasNoLog};

use crate::expecting::len_of_volumes;
use crate::log::Log;
use crate::progress_counts::ProgressCounts;
use crate::progress_line::{Putting, Standing, seconds_left};
use br_bsr::Bootstrap;
use br_cli_common::{BAD_STREAM, Target};
use std::alloc::Global;
use std::io::{self, IsTerminal, Write};
use std::sync::atomic::{AtomicBool, AtomicU64, Ordering};
use std::time::Instant;

/// The shortest time between two lines, in milliseconds.
const INTERVAL: u64 = 500;

/// Counts the progress of a restore, and shows it in a line on standard error, at most twice a
/// second. Reports to a terminal and a log in words what became of the files. All that take part in
/// the restore share it.
#[derive(Drop)]
pub struct Gauge<'r> {
    pub(crate) rt: &'r HostRuntime,
    /// True if standard error is a terminal.
    is_terminal: bool,
    /// True if words and the end of the count are shown wherever standard error goes.
    says_all: bool,
    /// The log, if there is one.
    pub(crate) log: Option<Log>,
    /// The path of the folder with the volumes.
    volumes: &'r str,
    /// True if the files go into a folder, which skips some of them.
    pub(crate) is_folder: bool,
    /// The moment at which the gauge was made, if it shows the progress.
    begun: Option<Instant>,
    to_read: AtomicU64,
    read: AtomicU64,
    files: AtomicU64,
    /// The number of bytes of the files of the manifest.
    bytes: AtomicU64,
    put: AtomicU64,
    /// The number of bytes of the files that the sink took.
    written: AtomicU64,
    /// The number of bytes of the files that are being put part by part; 0 if there are none.
    part: AtomicU64,
    /// The number of bytes of the volumes that had been passed when these were begun.
    part_at: AtomicU64,
    /// The number of files that the folder skipped.
    skipped: AtomicU64,
    /// The number of files of the manifest that are left out as older copies.
    older: AtomicU64,
    /// The number of outcomes that are no files.
    lost: AtomicU64,
    /// True after the first file was put.
    is_putting: AtomicBool,
    /// When the reading began, and later when the first files were put, in milliseconds since the
    /// gauge was made; 0 before.
    step: AtomicU64,
    /// When the last line was shown or, before the first line, something was first counted, in
    /// milliseconds since the gauge was made; 0 before.
    told: AtomicU64,
    /// True while a line is on the terminal.
    is_up: AtomicBool,
}

impl<'r> Gauge<'r> {
    /// Creates a gauge without a log, for a restore from volumes in the folder with this path to a
    /// target. It may show the progress or not.
    pub fn new(
        rt: &'r HostRuntime,
        volumes: &'r str,
        target: Target<'_>,
        is_shown: bool,
    ) -> Gauge<'r>
        ensures { HasNoLog result }
    {
        let begun = if is_shown {
            Instant::now(rt).ok()
        } else {
            None
        };
        Gauge {
            rt,
            is_terminal: rt.stderr().is_terminal(),
            says_all: false,
            log: None,
            volumes,
            is_folder: matches!(target, Target::Folder(_)),
            begun,
            to_read: AtomicU64::new(0),
            read: AtomicU64::new(0),
            files: AtomicU64::new(0),
            bytes: AtomicU64::new(0),
            put: AtomicU64::new(0),
            written: AtomicU64::new(0),
            part: AtomicU64::new(0),
            part_at: AtomicU64::new(0),
            skipped: AtomicU64::new(0),
            older: AtomicU64::new(0),
            lost: AtomicU64::new(0),
            is_putting: AtomicBool::new(false),
            step: AtomicU64::new(0),
            told: AtomicU64::new(0),
            is_up: AtomicBool::new(false),
        }
    }

    /// Returns the gauge with a log, if there is one.
    pub fn with_log(self, log: Option<Log>) -> Gauge<'r>
        ensures { log ≡ None → HasNoLog result }
    {
        Gauge { log, ..self }
    }

    /// Returns the gauge, which shows words and the end of the count wherever standard error goes, or
    /// to a terminal alone.
    pub fn with_words(self, says_all: bool) -> Gauge<'r>
        ensures words { result.says_all ≡ says_all }
        ensures unlogged { HasNoLog self.entry → HasNoLog result }
    {
        Gauge { says_all, ..self }
    }

    /// Returns the allocator.
    pub(crate) fn alloc(&self) -> Global {
        self.rt.alloc()
    }

    /// Returns true if the gauge has something to show or to report.
    pub fn is_watching(&self) -> bool {
        self.has_words() || self.is_shown() || self.log.is_some()
    }

    /// Returns true if words are shown on standard error.
    fn has_words(&self) -> bool {
        self.is_terminal || self.says_all
    }

    /// Returns true if the count of the files is shown at the end, also if each was put.
    pub(crate) fn says_count(&self) -> bool {
        self.is_shown() || self.says_all
    }

    /// Returns true if the gauge shows the progress.
    pub fn is_shown(&self) -> bool {
        self.begun.is_some()
    }

    /// Notes the number of bytes of the volumes that a bootstrap names, as those that will be read,
    /// if the progress is shown. It is 0 if it is not known.
    pub fn expect_volumes(&self, bootstrap: &Bootstrap) {
        if self.is_shown() {
            let len = len_of_volumes(self.rt, self.volumes, bootstrap);
            self.to_read.store(len.unwrap_or(0), Ordering::SeqCst);
        }
    }

    /// Notes that this number of bytes was passed.
    pub(crate) fn note_read(&self, bytes: u64) {
        self.read.fetch_add(bytes, Ordering::SeqCst);
        self.tell();
    }

    /// Notes that a further file with this number of bytes is to be put.
    pub(crate) fn note_file(&self, bytes: u64) {
        self.files.fetch_add(1, Ordering::SeqCst);
        self.bytes.fetch_add(bytes, Ordering::SeqCst);
    }

    /// Notes that files with this number of bytes in all are put part by part from now on.
    pub(crate) fn begin_parts(&self, bytes: u64) {
        let read = self.read.load(Ordering::SeqCst);
        self.part_at.store(read, Ordering::SeqCst);
        self.part.store(bytes, Ordering::SeqCst);
        self.begin_putting();
    }

    /// Notes that the files that were put part by part have ended.
    pub(crate) fn end_parts(&self) {
        self.part.store(0, Ordering::SeqCst);
    }

    /// Notes that files with this number of bytes were written.
    pub(crate) fn note_written(&self, bytes: u64) {
        self.written.fetch_add(bytes, Ordering::SeqCst);
    }

    /// Notes that files are put from now on.
    pub(crate) fn begin_putting(&self) {
        if !self.is_putting.swap(true, Ordering::SeqCst) {
            self.step.store(0, Ordering::SeqCst);
        }
        self.tell();
    }

    /// Returns what became of the files, once files are put.
    pub(crate) fn count(&self) -> Option<ProgressCounts> {
        if !self.is_putting.load(Ordering::SeqCst) {
            return None;
        }
        Some(ProgressCounts {
            put: self.put.load(Ordering::SeqCst),
            files: self.files.load(Ordering::SeqCst),
            older: self.older.load(Ordering::SeqCst),
            skipped: self.skipped.load(Ordering::SeqCst),
            lost: self.lost.load(Ordering::SeqCst),
        })
    }

    /// Notes that an outcome is no file.
    pub(crate) fn note_lost(&self) {
        self.lost.fetch_add(1, Ordering::SeqCst);
    }

    /// Notes that all files of the manifest except this number are older copies that are left out.
    pub fn note_others(&self, others: u64) {
        let files = self.files.load(Ordering::SeqCst);
        self.older
            .store(files.saturating_sub(others), Ordering::SeqCst);
    }

    /// Returns true if there is a log on standard error.
    pub(crate) fn logs_to_error(&self) -> bool {
        match &self.log {
            Some(log) => log.file.is_none(),
            None => false,
        }
    }

    /// Prints a text to standard error if words are shown there. If the log goes there, the text is
    /// for the log.
    pub(crate) fn show(&self, text: &[u8]) -> io::Result<()> {
        if !self.has_words() || self.logs_to_error() {
            return Ok(());
        }
        self.clear();
        self.rt.stderr().write_all(text)
    }

    /// Ends the log: makes it durable. If it could not be written, prints a line to standard error
    /// that says so. Returns the exit status of a command that ends with this one otherwise.
    ///
    /// # Errors
    ///
    /// If standard error failed.
    pub fn end_log(&self, status: u8) -> io::Result<u8>
        ensures ended { IfOk result (λ ended. (ended ≡ status) ⊎ (ended ≡ 3)) }
        ensures unlogged { HasNoLog self.now → IfOk result (λ ended. ended ≡ status) }
    {
        let Some(log) = &self.log else {
            return Ok(status);
        };
        log.settle();
        if log.is_torn() {
            eprintln!(self.rt; "brestore: the log could not be written, so it is not whole")?;
            return Ok(BAD_STREAM);
        }
        Ok(status)
    }

    /// Notes that the sink took this number of further files, of which some were skipped and the
    /// others put.
    pub fn note_taken(&self, count: u64, skipped: u64) {
        self.is_putting.store(true, Ordering::SeqCst);
        self.put
            .fetch_add(count.saturating_sub(skipped), Ordering::SeqCst);
        self.skipped.fetch_add(skipped, Ordering::SeqCst);
        self.tell();
    }

    /// Notes that the stream which the files were put into could not be ended. Which of them are in it
    /// is not known, so none counts as put.
    pub fn note_unended(&self) {
        self.put.store(0, Ordering::SeqCst);
    }

    /// Removes the line from the terminal, if it is there.
    pub fn clear(&self) {
        if self.is_up.swap(false, Ordering::SeqCst) {
            let cleared = eprint!(self.rt; "\r\x1b[K");
            drop(cleared);
        }
    }

    /// Returns the milliseconds since the gauge was made, at least 1, if it shows something.
    fn now(&self) -> Option<u64> {
        let elapsed = self.begun?.elapsed(self.rt).ok()?;
        let now = u64::try_from(elapsed.as_millis()).ok()?;
        Some(now.max(1))
    }

    /// Returns the number of bytes of files that were written. Of files that are put part by part
    /// these are as many as were read since they were begun, at most all.
    fn written(&self) -> u64 {
        let read = self.read.load(Ordering::SeqCst);
        let part_at = self.part_at.load(Ordering::SeqCst);
        let part = self.part.load(Ordering::SeqCst);
        let written = self.written.load(Ordering::SeqCst);
        written.saturating_add(part.min(read.saturating_sub(part_at)))
    }

    /// Returns how far the files are put, once that began.
    fn putting(&self) -> Option<Putting> {
        if !self.is_putting.load(Ordering::SeqCst) {
            return None;
        }
        Some(Putting {
            written: self.written(),
            bytes: self.bytes.load(Ordering::SeqCst),
            put: self.put.load(Ordering::SeqCst),
            files: self.files.load(Ordering::SeqCst),
        })
    }

    /// Returns the progress of the restore, this number of milliseconds after its step began.
    fn standing(&self, elapsed: u64) -> Standing {
        let read = self.read.load(Ordering::SeqCst);
        let to_read = self.to_read.load(Ordering::SeqCst);
        let put = self.putting();
        let (done, all) = match &put {
            Some(put) => put.work(put.put.saturating_add(self.skipped.load(Ordering::SeqCst))),
            None => (read, to_read),
        };
        Standing {
            read,
            to_read,
            put,
            left: seconds_left(elapsed, done, all),
        }
    }

    /// Returns when the current step began. The first call in a step begins it.
    fn step_at(&self, now: u64) -> u64 {
        let step = &self.step;
        match step.compare_exchange(0, now, Ordering::SeqCst, Ordering::SeqCst) {
            Ok(_) => now,
            Err(begun) => begun,
        }
    }

    /// Returns true if the last line is half a second old. If several threads ask at once, it is
    /// true for only one.
    fn is_due(&self, now: u64) -> bool {
        let told = self.told.load(Ordering::SeqCst);
        if told != 0 && now < told.saturating_add(INTERVAL) {
            return false;
        }
        let turn = self
            .told
            .compare_exchange(told, now, Ordering::SeqCst, Ordering::SeqCst);
        told != 0 && turn.is_ok()
    }

    /// Shows the progress of the restore, unless that was done in the last half second.
    fn tell(&self) {
        let Some(now) = self.now() else {
            return;
        };
        let begun = self.step_at(now);
        if self.is_due(now) {
            self.is_up.store(true, Ordering::SeqCst);
            let standing = self.standing(now.saturating_sub(begun));
            let shown = eprint!(self.rt; "\r{standing}\x1b[K");
            drop(shown);
        }
    }
}
