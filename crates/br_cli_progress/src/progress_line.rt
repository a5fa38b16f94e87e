//! The line that shows the progress of a restore.

use std::fmt;

/// The number of bytes of a MiB.
const MIB: u64 = 1_048_576;

/// The number of bytes of a GiB.
const GIB: u64 = 1_073_741_824;

/// How far a restore is.
#[derive(Clone, Copy)]
pub struct Standing {
    /// The number of bytes of the volumes that were passed. Bytes that are read again are counted
    /// again.
    pub read: u64,
    /// The number of bytes of the volumes that are read; 0 if it is not known.
    pub to_read: u64,
    /// What was put; nothing until files are put.
    pub put: Option<Putting>,
    /// The seconds that are left for the current step, if they are known.
    pub left: Option<u64>,
}

/// How far the files of a restore are put.
#[derive(Clone, Copy)]
pub struct Putting {
    /// The number of bytes of files that were written.
    pub written: u64,
    /// The number of bytes of all files.
    pub bytes: u64,
    /// The number of files that were put.
    pub put: u64,
    /// The number of all files.
    pub files: u64,
}

/// A number of bytes in MiB or GiB, with one decimal.
#[derive(Clone, Copy)]
struct Size {
    bytes: u64,
}

impl fmt::Display for Size {
    fn fmt<W: fmt::Write>(&self, f: &mut fmt::Formatter<W>) -> fmt::Result {
        let ten_times = self.bytes.saturating_mul(10);
        if self.bytes < GIB {
            let tenths = ten_times / MIB;
            write!(f, "{}.{} MiB", tenths / 10, tenths % 10)
        } else {
            let tenths = ten_times / GIB;
            write!(f, "{}.{} GiB", tenths / 10, tenths % 10)
        }
    }
}

/// A number with a comma before each group of three digits that follows others.
#[derive(Clone, Copy)]
struct Grouped {
    number: u64,
}

impl fmt::Display for Grouped {
    fn fmt<W: fmt::Write>(&self, f: &mut fmt::Formatter<W>) -> fmt::Result {
        let (thousands, ones) = (self.number / 1000, self.number % 1000);
        if thousands == 0 {
            write!(f, "{ones}")
        } else if thousands < 1000 {
            write!(f, "{thousands},{ones:03}")
        } else {
            let (millions, thousands) = (thousands / 1000, thousands % 1000);
            write!(f, "{millions},{thousands:03},{ones:03}")
        }
    }
}

/// A number of seconds as `0:42` or `1:02:03`.
#[derive(Clone, Copy)]
struct Time {
    seconds: u64,
}

impl fmt::Display for Time {
    fn fmt<W: fmt::Write>(&self, f: &mut fmt::Formatter<W>) -> fmt::Result {
        let (minutes, seconds) = (self.seconds / 60, self.seconds % 60);
        if minutes < 60 {
            write!(f, "{minutes}:{seconds:02}")
        } else {
            let (hours, minutes) = (minutes / 60, minutes % 60);
            write!(f, "{hours}:{minutes:02}:{seconds:02}")
        }
    }
}

impl fmt::Display for Putting {
    fn fmt<W: fmt::Write>(&self, f: &mut fmt::Formatter<W>) -> fmt::Result {
        let written = Size {
            bytes: self.written,
        };
        let bytes = Size { bytes: self.bytes };
        let put = Grouped { number: self.put };
        let files = Grouped { number: self.files };
        write!(
            f,
            "{written} of {bytes} written, {put} of {files} files put"
        )
    }
}

impl Standing {
    /// Writes the number of bytes that were read.
    fn write_read<W: fmt::Write>(&self, f: &mut fmt::Formatter<W>) -> fmt::Result {
        let read = Size { bytes: self.read };
        if self.to_read == 0 {
            return write!(f, "{read} read");
        }
        let all = Size {
            bytes: self.to_read,
        };
        if self.read > self.to_read {
            let again = Size {
                bytes: self.read - self.to_read,
            };
            return write!(f, "{all} read, and {again} again");
        }
        write!(f, "{read} of {all} read")
    }
}

impl fmt::Display for Standing {
    fn fmt<W: fmt::Write>(&self, f: &mut fmt::Formatter<W>) -> fmt::Result {
        match self.put {
            Some(put) => write!(f, "{put}")?,
            None => self.write_read(f)?,
        }
        match self.left {
            Some(seconds) => write!(f, ", {} left", Time { seconds }),
            None => Ok(()),
        }
    }
}

/// What the calls of the system for a file take, as the number of bytes that take as long.
const FILE_COST: u64 = 16_384;

/// Returns how many bytes take as long as this number of files with these bytes in all.
fn work_of(files: u64, bytes: u64) -> u64 {
    bytes.saturating_add(files.saturating_mul(FILE_COST))
}

impl Putting {
    /// Returns what was done and what is to be done in all, as numbers of bytes that take as long, if
    /// this number of files are put or skipped.
    pub fn work(&self, taken: u64) -> (u64, u64) {
        (
            work_of(taken, self.written),
            work_of(self.files, self.bytes),
        )
    }
}

/// The shortest time in milliseconds after which the time that is left is shown.
const FIRST_ESTIMATE: u64 = 2000;

/// Returns the seconds that are left for a task of which `done` of `all` is done after this many
/// milliseconds, if something is done, something is left, and two seconds are over.
pub fn seconds_left(elapsed: u64, done: u64, all: u64) -> Option<u64> {
    if elapsed < FIRST_ESTIMATE || done == 0 || all <= done {
        return None;
    }
    let whole = u128::from(elapsed).saturating_mul(u128::from(all - done));
    u64::try_from(whole / u128::from(done) / 1000).ok()
}
