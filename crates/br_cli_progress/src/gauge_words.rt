//! What a gauge reports in words to a terminal and to its log.

use crate::gauge::Gauge;
use crate::passed_faults::Faults;
use crate::progress_counts::{
    count_bytes, count_skipped, is_skipped, push_count, push_path, taken_lines, taken_word,
};
use br_cli_common::{push_with_words, push_words};
use br_join::{Item, Outcome};
use br_types::{FileKey, push_number};
use std::alloc::{AllocError, Global};
use std::io;

/// Returns a line with its end.
fn ended(alloc: Global, line: &[u8]) -> Result<Vec<u8>, AllocError> {
    let mut text = Vec::from_slice(alloc, line)?;
    text.push(b'\n')?;
    Ok(text)
}

/// Returns the line of a file, which begins with a word.
fn item_line(alloc: Global, word: &[u8], item: &Item) -> Result<Vec<u8>, AllocError> {
    let mut text = Vec::new(alloc);
    push_path(&mut text, word, &item.path)?;
    Ok(text)
}

/// Returns the line of a refusal, with what it means and what to do next.
fn refusal_lines(alloc: Global, number: u32) -> Result<Vec<u8>, AllocError> {
    let mut text = Vec::from_slice(alloc, b"refused ")?;
    push_number(&mut text, u64::from(number))?;
    text.push(b'\n')?;
    push_words(&mut text, number)?;
    Ok(text)
}

impl<'r> Gauge<'r> {
    /// Appends lines to the log, if there is one. If memory ran out for the lines, the log is torn.
    fn log_lines(&self, lines: Result<Vec<u8>, AllocError>) {
        if let Some(log) = &self.log {
            if self.logs_to_error() {
                self.clear();
            }
            match lines {
                Ok(lines) => log.append(self.rt, &lines),
                Err(_) => log.tear(),
            }
        }
    }

    /// Appends the line of an outcome that is no file to the log.
    pub(crate) fn log_fault(&self, line: &[u8]) {
        if self.log.is_some() {
            self.log_lines(ended(self.alloc(), line));
        }
    }

    /// Notes that the sink took the first `count` files among the outcomes: they were put, or a
    /// folder skips them.
    pub(crate) fn note_files_taken(&self, outcomes: &[(FileKey, Outcome)], count: u64) {
        if self.log.is_some() {
            self.log_lines(taken_lines(self.alloc(), self.is_folder, outcomes, count));
        }
        let skipped = if self.is_folder {
            count_skipped(outcomes, count)
        } else {
            0
        };
        self.note_written(count_bytes(outcomes, count));
        self.note_taken(count, skipped);
    }

    /// Notes that the sink took a file: it was put, or a folder skips it.
    pub(crate) fn note_file_taken(&self, item: &Item) {
        if self.log.is_some() {
            let word = taken_word(self.is_folder, item.kind);
            self.log_lines(item_line(self.alloc(), word, item));
        }
        self.note_written(item.bytes.len());
        self.note_taken(1, u64::from(self.is_folder && is_skipped(item.kind)));
    }

    /// Appends the line of a file at which the sink failed to the log.
    pub(crate) fn log_failed(&self, item: &Item) {
        if self.log.is_some() {
            self.log_lines(item_line(self.alloc(), b"failed ", item));
        }
    }

    /// Explains the refusal in a line to a terminal, and writes line and explanation to the log. A
    /// failing terminal stops nothing.
    pub(crate) fn explain(&self, number: u32) {
        let mut words = Vec::new(self.alloc());
        if push_words(&mut words, number).is_ok() {
            let _shown = self.show(&words);
        }
        if self.log.is_some() {
            self.log_lines(refusal_lines(self.alloc(), number));
        }
    }

    /// Appends lines to the log, if there is one, and after each line `refused N` what it means and
    /// what to do next.
    pub fn log_refusals(&self, lines: &[u8]) {
        if self.log.is_some() {
            let mut text = Vec::new(self.alloc());
            let pushed = push_with_words(&mut text, lines);
            self.log_lines(pushed.map(|_| text));
        }
    }

    /// Writes a line to a terminal and to the log.
    ///
    /// # Errors
    ///
    /// If memory ran out or standard error failed.
    pub fn say(&self, line: &str) -> io::Result<()> {
        self.tell_lines(ended(self.alloc(), line.as_bytes())?)
    }

    /// Returns the line with the number of files that were put, if some were to be put, and whether
    /// it is shown. Without progress or words for all a terminal shows it only if a file was neither
    /// put nor skipped, nor left out as an older copy.
    fn count_text(&self) -> Result<(Vec<u8>, bool), AllocError> {
        let mut text = Vec::new(self.alloc());
        let Some(count) = self.count() else {
            return Ok((text, false));
        };
        push_count(&mut text, count)?;
        let done = count
            .put
            .saturating_add(count.older)
            .saturating_add(count.skipped);
        Ok((text, self.says_count() || done < count.files))
    }

    /// Reports the outcomes that are no files in words, to a terminal and the log.
    ///
    /// # Errors
    ///
    /// If memory ran out or standard error failed.
    pub fn tell_faults(&self, faults: &Faults) -> io::Result<()> {
        let mut text = Vec::new(self.alloc());
        faults.push(&mut text)?;
        self.tell_lines(text)
    }

    /// Writes lines to a terminal and to the log.
    ///
    /// # Errors
    ///
    /// If standard error failed.
    pub fn tell_lines(&self, lines: Vec<u8>) -> io::Result<()> {
        self.show(&lines)?;
        self.log_lines(Ok(lines));
        Ok(())
    }

    /// Reports to a terminal and the log the number of files that were put.
    ///
    /// # Errors
    ///
    /// If memory ran out or standard error failed.
    pub fn tell_end(&self) -> io::Result<()> {
        let (count, is_told) = self.count_text()?;
        if is_told {
            self.show(&count)?;
        }
        self.log_lines(Ok(count));
        Ok(())
    }
}
