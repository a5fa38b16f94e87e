//! The paths of the files of a delivery, and of the folders on their way.
ghost use Rattle.std.specs.Prelude.{◌≡◌, ◌++◌, ◌∷◌, [], List, ℕ, IfOk, OnOk};
ghost use Rattle.br_types.specs.Conflicts.{AddsPaths, has_path};
ghost use Rattle.br_sink_folder.specs.OtherPaths.{Has, is_other, is_on_way, paths_in};

use br_join::Outcome;
use br_types::{FileKey, add_folders, add_path};
use std::alloc::{AllocError, Global};
use std::collections::BTreeSet;

/// The paths of files, and of the folders on their way.
#[derive(Drop)]
pub struct Known<'p> {
    paths: BTreeSet<&'p [u8]>,
}

/// Adds the path of a file, and those of the folders on its way.
#[tactic(auto, using(crate::proofs::OtherLaws::file_added))]
fn add_file<'p>(set: &mut BTreeSet<&'p [u8]>, path: &'p [u8]) -> Result<(), AllocError>
    ensures { OnOk result (AddsPaths (λ q. is_on_way q path.now) (has_path (λ k. k.now) set.old) (has_path (λ k. k.now) set.new)) }
{
    add_folders(set, path)?;
    add_path(set, path)
}

impl<'p> Known<'p> {
    /// Returns a set without paths.
    pub fn new(alloc: Global) -> Known<'p>
        ensures { Has result [] }
    {
        Known {
            paths: BTreeSet::new(alloc),
        }
    }

    /// Adds the path of an outcome, if it is a file.
    #[tactic(auto, using(crate::proofs::OtherLaws::noted_file, crate::proofs::OtherLaws::noted_fault))]
    fn note(&mut self, key: FileKey, outcome: &'p Outcome) -> Result<(), AllocError>
        ensures { OnOk result ((paths : List (List ℕ)) → Has self.old paths → Has self.new (paths ++ paths_in ((key, outcome.now) ∷ []))) }
    {
        match outcome {
            Outcome::File(item) => add_file(&mut self.paths, item.path.bytes()),
            Outcome::Fault { .. } => Ok(()),
        }
    }

    /// Returns whether a path is neither that of a file nor that of a folder on the way to one.
    pub fn is_other(&self, path: &[u8]) -> bool
        ensures { (paths : List (List ℕ)) → Has self.now paths → result ≡ is_other paths path.now }
    {
        !self.paths.contains(path)
    }
}

/// Returns the paths of the files among the outcomes, and of the folders on their way.
pub fn known_of(alloc: Global, outcomes: &[(FileKey, Outcome)]) -> Result<Known<'_>, AllocError>
    ensures { IfOk result (λ known. Has known (paths_in outcomes.now)) }
{
    let mut known = Known::new(alloc);
    for (key, outcome) in outcomes {
        known.note(*key, outcome)?;
    }
    Ok(known)
}
