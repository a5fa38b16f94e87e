//! Lists a folder. No clause can say what a folder has.

use crate::known_paths::{Known, known_of};
use br_join::Outcome;
use br_types::FileKey;
use std::alloc::Global;
use std::fs::DirEntry;
use std::rt::Files;
use std::{fs, io};

/// What is still to be listed below a folder, and what was found that is neither a file of the
/// delivery nor a folder on the way to one. Each path is the one below the folder, and begins with
/// `/`.
#[derive(Drop)]
struct FolderWalk<'p> {
    known: Known<'p>,
    folders: Vec<String>,
    others: Vec<String>,
}

/// Returns one path after another.
fn joined(alloc: Global, first: &str, second: &str) -> io::Result<String> {
    let mut path = String::from_str(alloc, first)?;
    path.push_str(second)?;
    Ok(path)
}

impl<'p> FolderWalk<'p> {
    /// Takes what is at a path: names it, or keeps it for listing if it is a folder on the way to a
    /// file.
    fn take(&mut self, path: String, is_folder: bool) -> io::Result<()> {
        if self.known.is_other(path.as_bytes()) {
            self.others.push(path)?;
        } else if is_folder {
            self.folders.push(path)?;
        }
        Ok(())
    }

    /// Takes what is in the folder at this path below the root.
    fn list<F: Files + Drop>(
        &mut self,
        alloc: Global,
        files: &F,
        root: &str,
        folder: &str,
    ) -> io::Result<()> {
        let whole = joined(alloc, root, folder)?;
        for entry in fs::read_dir(&(files, alloc), whole.as_str())? {
            let entry = entry?;
            let start = joined(alloc, folder, "/")?;
            let path = joined(alloc, start.as_str(), entry.file_name())?;
            self.take(path, entry.file_type()?.is_dir())?;
        }
        Ok(())
    }
}

/// Returns the paths of what is in the folder at `root` and is neither a file among the outcomes
/// nor a folder on the way to one, in byte order. Each is the path below the root, and begins with
/// `/`. The contents of a named folder are not listed. No link is followed.
///
/// # Errors
///
/// Those of the system if a folder can't be listed, `InvalidFilename` for a name that is not UTF-8, and
/// `OutOfMemory`.
pub fn others_in<F: Files + Drop>(
    files: &F,
    alloc: Global,
    root: &str,
    outcomes: &[(FileKey, Outcome)],
) -> io::Result<Vec<String>> {
    let mut walk = FolderWalk {
        known: known_of(alloc, outcomes)?,
        folders: Vec::new(alloc),
        others: Vec::new(alloc),
    };
    walk.list(alloc, files, root, "")?;
    for _ in 0..u64::MAX {
        let Some(folder) = walk.folders.pop() else {
            break;
        };
        walk.list(alloc, files, root, folder.as_str())?;
    }
    let mut others = walk.others;
    others.sort()?;
    Ok(others)
}
