ghost use Rattle.std.specs.Prelude.{◌≡◌, Option, option_map, IfOk, OnOk, OnErr, Some};
ghost use Rattle.std.specs.Option.{option_copied};
ghost use Rattle.std.specs.FinMap as map;

use crate::key::FileKey;
use crate::path::Path;
use std::alloc::{AllocError, Global};
use std::collections::BTreeMap;
use std::collections::btree_map::Iter;
use std::marker::Model;

/// The path of each file that a restore plans: a finite map from keys to paths.
#[derive(Debug, Drop)]
pub struct Names {
    paths: BTreeMap<FileKey, Path>,
}

impl Model for Names {
    ghost use Rattle.std.specs.Prelude.{ℕ};
    ghost use Rattle.std.specs.Coded.{coded_list, coded_ℕ};
    ghost use Rattle.std.specs.FinMap as map;
    ghost use Rattle.br_model.specs.Restored as model;
    ghost use Rattle.br_types.specs.Key.{coded_key};

    ghost Value = { model.Names };

    ghost coded = { map.code coded_key (coded_list coded_ℕ) };

    ghost view = { λ n. map.from_entries n.paths.entries };
}

fn copied(
    alloc: Global,
    paths: &BTreeMap<FileKey, Path>,
) -> Result<BTreeMap<FileKey, Path>, AllocError>
    ensures { IfOk result (λ copy. copy.entries ≡ paths.now.entries) }
{
    let mut copy = BTreeMap::new(alloc);
    for (key, path) in paths.iter() {
        copy.insert(*key, path.copy(alloc)?)?;
    }
    Ok(copy)
}

impl Names {
    /// Makes a map without entries, which grows by this allocator.
    pub fn new(alloc: Global) -> Names
        ensures { result ≡ map.empty }
    {
        Names {
            paths: BTreeMap::new(alloc),
        }
    }

    /// Sets the path of a file, and returns the previous one.
    pub fn insert(&mut self, key: FileKey, path: Path) -> Result<Option<Path>, AllocError>
        ensures before { IfOk result (λ before. before ≡ map.get self.old key) }
        ensures ok { OnOk result (self.new ≡ map.insert self.old key path) }
        ensures err { OnErr result (self.new ≡ self.old) }
    {
        Ok(self.paths.insert(key, path)?)
    }

    /// Returns the path of a file, if it has one.
    pub fn get(&self, key: FileKey) -> Option<&Path>
        ensures { option_copied result ≡ map.get self.now key }
    {
        self.paths.get(&key)
    }

    /// Returns the files with their paths, in order of key.
    pub fn iter(&self) -> Iter<'_, FileKey, Path>
        ensures { result ≡ map.entries self.now }
    {
        self.paths.iter()
    }

    /// Returns an equal map.
    pub fn copy(&self, alloc: Global) -> Result<Names, AllocError>
        ensures { IfOk result (λ names. names ≡ self.now) }
    {
        Ok(Names {
            paths: copied(alloc, &self.paths)?,
        })
    }
}
