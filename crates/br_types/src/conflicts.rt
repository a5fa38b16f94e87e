//! Paths as two sets, by which a conflict of a path with one of them is found in time n log n.
ghost use Rattle.std.specs.Prelude.{◌≡◌, true, false, [], bytes_eq, IfOk, OnOk};
ghost use Rattle.br_types.specs.Conflicts.{AddsPaths, HasFront, HasNoFront, IsFreeIn, Noted, Notes, goes_on_behind, has_path};

use crate::bytes::is_directory_path;
use std::alloc::{AllocError, Global};
use std::collections::BTreeSet;

/// Noted paths: those of files, and the folders above any path.
#[derive(Drop)]
pub struct Ways<'p> {
    files: BTreeSet<&'p [u8]>,
    folders: BTreeSet<&'p [u8]>,
}

/// Returns if a file's path is followed by a slash in the path.
fn is_in_file(files: &BTreeSet<&[u8]>, path: &[u8]) -> bool
    ensures none { result ≡ false → HasNoFront (has_path (λ k. k.now) files.now) path.now }
    ensures one { result ≡ true → HasFront (has_path (λ k. k.now) files.now) path.now }
{
    for (i, byte) in path.iter().enumerate() {
        if *byte == b'/' && files.contains(&path[..i]) {
            return true;
        }
    }
    false
}

/// Adds one path to a set.
pub fn add_path<'p>(set: &mut BTreeSet<&'p [u8]>, path: &'p [u8]) -> Result<(), AllocError>
    ensures { OnOk result (AddsPaths (bytes_eq path.now) (has_path (λ k. k.now) set.old) (has_path (λ k. k.now) set.new)) }
{
    match set.insert(path) {
        Ok(_) => Ok(()),
        Err(refused) => Err(AllocError::from(refused)),
    }
}

/// Adds what comes before each slash of the path.
pub fn add_folders<'p>(folders: &mut BTreeSet<&'p [u8]>, path: &'p [u8]) -> Result<(), AllocError>
    ensures { OnOk result (AddsPaths (λ q. goes_on_behind q path.now) (has_path (λ k. k.now) folders.old) (has_path (λ k. k.now) folders.new)) }
{
    for (i, byte) in path.iter().enumerate() {
        if *byte == b'/' {
            add_path(folders, &path[..i])?;
        }
    }
    Ok(())
}

impl<'p> Ways<'p> {
    /// Creates a collection of no paths.
    pub fn new(alloc: Global) -> Ways<'p>
        ensures { Noted result [] }
    {
        Ways {
            files: BTreeSet::new(alloc),
            folders: BTreeSet::new(alloc),
        }
    }

    /// Returns if the path conflicts with none of the paths.
    pub fn is_free(&self, path: &[u8]) -> bool
        ensures { IsFreeIn self.now path.now result }
    {
        !is_in_file(&self.files, path) && (is_directory_path(path) || !self.folders.contains(path))
    }

    /// Adds a path.
    pub fn note(&mut self, path: &'p [u8]) -> Result<(), AllocError>
        ensures { OnOk result (Notes self.old self.new path.now) }
    {
        add_folders(&mut self.folders, path)?;
        if is_directory_path(path) {
            Ok(())
        } else {
            add_path(&mut self.files, path)
        }
    }
}

/// Returns if the path conflicts with none noted before, and then notes it.
pub fn is_next<'p>(ways: &mut Ways<'p>, path: &'p [u8]) -> Result<bool, AllocError>
    ensures way { IfOk result (IsFreeIn ways.old path.now) }
    ensures noted { IfOk result (λ free. free ≡ true → Notes ways.old ways.new path.now) }
    ensures same { IfOk result (λ free. free ≡ false → ways.new ≡ ways.old) }
{
    if !ways.is_free(path) {
        return Ok(false);
    }
    ways.note(path)?;
    Ok(true)
}
