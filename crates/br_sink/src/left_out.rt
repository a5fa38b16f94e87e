//! Notes of a delivery that leaves out files.
ghost use Rattle.std.specs.Prelude.{◌≡◌, ◌++◌, ◌∷◌, ◌<◌, [], length, OnErr, OnOk, IfSome, IsSome, Some};
ghost use Rattle.br_sink.specs.Delivery.{items_in};
ghost use Rattle.br_sink.specs.FileParts.{with_bytes};
ghost use Rattle.br_sink.specs.TwoParts.{two_put};
ghost use Rattle.br_sink.specs.KeepGoing.{IsFileAt, Leaves, Takes};

use crate::delivered_files::DeliveredFiles;
use crate::two_parts::TwoPut;
use br_join::{FileBytes, Item, Outcome};
use br_types::{FileKey, Path};
use std::alloc::{AllocError, Global};

/// The files that were taken, and those of them that are left out.
#[derive(Drop)]
pub(crate) struct Noted {
    alloc: Global,
    taken: DeliveredFiles,
    left: DeliveredFiles,
    paths: Vec<Path>,
}

/// Adds the files among the outcomes to others.
fn add_files(files: &mut DeliveredFiles, outcomes: &[(FileKey, Outcome)])
    ensures { files.new.items ≡ files.old.items ++ items_in outcomes.now }
{
    for (_, outcome) in outcomes {
        if let Outcome::File(item) = outcome {
            *files = DeliveredFiles::and(files, item);
        }
    }
}

/// Returns the file that has `count` others before it, and its place among the outcomes.
pub fn file_at(outcomes: &[(FileKey, Outcome)], count: u64) -> Option<(usize, &Item)>
    ensures some { count < length (items_in outcomes.now) → IsSome result }
    ensures at_it { IfSome result (λ found. IsFileAt outcomes.now count found.0 found.1.now) }
{
    let mut left = count;
    let mut place = 0;
    for (_, outcome) in outcomes {
        if let Outcome::File(item) = outcome {
            if left == 0 {
                return Some((place, item));
            }
            left -= 1;
        }
        place += 1;
    }
    None
}

impl Noted {
    /// Creates the notes before any file was taken.
    pub(crate) fn new(alloc: Global) -> Noted
        ensures taken { result.taken.items ≡ [] }
        ensures left { result.left.items ≡ [] }
        ensures paths { result.paths.items ≡ [] }
    {
        Noted {
            alloc,
            taken: DeliveredFiles::none(),
            left: DeliveredFiles::none(),
            paths: Vec::new(alloc),
        }
    }

    /// Returns the paths of the files that are left out.
    pub(crate) fn paths(&self) -> &[Path]
        ensures { result.now ≡ self.now.paths.items }
    {
        &self.paths
    }

    /// Notes that the files among the outcomes were taken.
    pub(crate) fn take(&mut self, outcomes: &[(FileKey, Outcome)])
        ensures { Takes self.old self.new (items_in outcomes.now) }
    {
        add_files(&mut self.taken, outcomes);
    }

    /// Notes that a file was taken.
    pub(crate) fn take_one(&mut self, item: &Item)
        ensures { Takes self.old self.new (item.now ∷ []) }
    {
        self.taken = DeliveredFiles::and(&self.taken, item);
    }

    /// Notes that a file with these bytes was taken.
    fn take_with(&mut self, item: &Item, bytes: &FileBytes)
        ensures { Takes self.old self.new (with_bytes item.now bytes.now ∷ []) }
    {
        self.taken = DeliveredFiles::and_with(&self.taken, item, bytes);
    }

    /// Notes which of two files were taken.
    pub(crate) fn take_two(&mut self, one: &Item, other: &Item, put: &TwoPut)
        ensures { Takes self.old self.new (two_put one.now other.now (Some put.now)) }
    {
        match put {
            TwoPut::Both {
                one: first,
                other: second,
            } => {
                self.take_with(one, first);
                self.take_with(other, second);
            }
            TwoPut::One { one: first, .. } => self.take_with(one, first),
            TwoPut::Neither { .. } => {}
        }
    }

    /// Notes that a file is left out.
    pub(crate) fn leave(&mut self, item: &Item) -> Result<(), AllocError>
        ensures left { OnOk result (Leaves self.old self.new item.now) }
        ensures none { OnErr result (Takes self.old self.new []) }
    {
        self.paths.push(item.path.copy(self.alloc)?)?;
        self.taken = DeliveredFiles::and(&self.taken, item);
        self.left = DeliveredFiles::and(&self.left, item);
        Ok(())
    }
}
