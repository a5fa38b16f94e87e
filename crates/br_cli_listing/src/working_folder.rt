//! The folder that a console is in, and the names in it.

use crate::dir_lines::{Named, push_name};
use br_attr::Stat;
use br_choose::ChooseFault;
use br_history::{FileRow, JobRows};
use br_mark::{Answer, Command, Console};
use br_plan::JobSelection;
use br_tree::Tree;
use br_types::{FileIndex, Path, unescape};
use br_view::{Entry, View};
use std::alloc::{AllocError, Global};

/// A path of a view, and its newest copy.
type Shown<'h> = (&'h Path, Entry);

/// Returns the place of a path among those of a view.
fn place_of(entries: &[Shown<'_>], path: &[u8]) -> Option<usize> {
    entries
        .binary_search_by(|entry| entry.0.bytes().cmp(path))
        .ok()
}

/// Returns true if the newest copy is in this row of this job.
fn is_in(entry: &Entry, job: &JobRows, row: &FileRow) -> bool {
    entry.job == job.row().id && FileIndex::new(row.index) == Some(entry.index)
}

/// Returns when the file of a row was written, if its numbers can be read.
fn moment_in(row: &FileRow) -> Option<u64> {
    let stat = Stat::read(row.lstat.as_bytes()).ok()?;
    u64::try_from(stat.mtime()).ok()
}

/// Notes when the file of a row was written, if the newest copy of its path is in this row.
fn note_moment(
    job: &JobRows,
    row: &FileRow,
    entries: &[Shown<'_>],
    moments: &mut Vec<Option<u64>>,
) {
    let Some(place) = place_of(entries, row.path.bytes()) else {
        return;
    };
    if let (Some(entry), Some(moment)) = (entries.get(place), moments.get_mut(place)) {
        if is_in(&entry.1, job, row) {
            *moment = moment_in(row);
        }
    }
}

/// Notes for the newest copies in a job when they were written.
fn note_moments(job: &JobRows, entries: &[Shown<'_>], moments: &mut Vec<Option<u64>>) {
    for row in job.files() {
        note_moment(job, row, entries, moments);
    }
}

/// Returns for each newest copy, in their order, when it was written.
fn moments_of(
    alloc: Global,
    jobs: &[&JobRows],
    entries: &[Shown<'_>],
) -> Result<Vec<Option<u64>>, AllocError> {
    let mut moments = Vec::new(alloc);
    moments.resize(entries.len(), None)?;
    for job in jobs {
        note_moments(job, entries, &mut moments);
    }
    Ok(moments)
}

/// Returns the folder in the answer to `cd`.
fn folder_in(alloc: Global, answer: &[u8]) -> Option<Vec<u8>> {
    let line = answer.strip_prefix(b"cwd is: ")?.strip_suffix(b"\n")?;
    unescape(alloc, line).ok()
}

/// A console that follows another one through its folders.
#[derive(Drop)]
pub(crate) struct ConsoleFolder<'h> {
    alloc: Global,
    console: Console<'h>,
    /// When the newest copies were written, in the order of the view.
    moments: Vec<Option<u64>>,
    folder: Vec<u8>,
}

impl<'h> ConsoleFolder<'h> {
    /// Begins at `/`, in the view of the chosen jobs.
    pub(crate) fn new(
        alloc: Global,
        asked: &JobSelection<'h>,
    ) -> Result<ConsoleFolder<'h>, ChooseFault> {
        let chosen = asked.jobs(alloc)?;
        let view = View::build(alloc, &chosen)?;
        let moments = moments_of(alloc, &chosen, view.entries())?;
        let tree = Tree::build(alloc, view)?;
        Ok(ConsoleFolder {
            alloc,
            console: Console::new(alloc, tree)?,
            moments,
            folder: Vec::from_slice(alloc, b"/")?,
        })
    }

    /// Follows a command, if it is a `cd` that leads to a folder.
    pub(crate) fn follow(&mut self, command: &Command) {
        if let Ok(Answer::Text(answer)) = self.console.apply(command) {
            if let Some(folder) = folder_in(self.alloc, &answer) {
                self.folder = folder;
            }
        }
    }

    /// Returns size and moment of a path, as far as its row has them. A folder without a row has
    /// neither.
    fn facts(&self, path: &[u8]) -> (Option<u64>, Option<u64>) {
        let entries = self.console.tree().entries();
        let Some(place) = place_of(entries, path) else {
            return (None, None);
        };
        match (entries.get(place), self.moments.get(place)) {
            (Some(entry), Some(moment)) => (u64::try_from(entry.1.size).ok(), *moment),
            _ => (None, None),
        }
    }

    /// Returns what is known of a name in the folder.
    fn named<'n>(&self, name: &'n [u8]) -> Result<Named<'n>, AllocError> {
        let mut path = Vec::from_slice(self.alloc, &self.folder)?;
        path.extend_from_slice(name)?;
        let (size, moment) = self.facts(&path);
        Ok(Named { name, size, moment })
    }

    /// Returns the lines of the names in the folder.
    pub(crate) fn list(&self) -> Result<Vec<u8>, AllocError> {
        let mut text = Vec::new(self.alloc);
        for child in &self.console.tree().children(self.alloc, &self.folder)? {
            let named = self.named(child.name)?;
            push_name(self.alloc, &mut text, &named)?;
        }
        Ok(text)
    }
}
