ghost use Rattle.std.specs.Prelude.{◌≡◌, true, ◌==◌, map, option_map, length, IfOk};
ghost use Rattle.std.specs.Option.{option_copied};
ghost use Rattle.std.specs.Ordering.{nat_cmp};
ghost use Rattle.std.specs.Slice.Iter.{iter_rest};
ghost use Rattle.std.specs.Cmp.Lexicographic.{slice_cmp};
ghost use Rattle.br_model.specs.Job.{no_pair};
ghost use Rattle.br_model.specs.View.{view_of, entry_at, IsView};
ghost use Rattle.br_view.specs.Shown.{entry_with, shown_pair};

use crate::entry::Entry;
use crate::newest::{entries_of, newest_copies};
use br_history::JobRows;
use br_types::Path;
use std::alloc::{AllocError, Global};
use std::cmp::Ordering;
use std::marker::Model;
use std::slice::Iter;

/// Compares two paths in byte order.
fn compared(first: &Path, second: &Path) -> Ordering
    ensures { result ≡ slice_cmp nat_cmp first.now second.now }
{
    first.bytes().cmp(second.bytes())
}

/// The newest copies of the paths of some jobs, in byte order of the paths. The paths are borrowed
/// from the jobs.
#[derive(Drop)]
pub struct View<'h> {
    entries: Vec<(&'h Path, Entry)>,
}

impl<'h> Model for View<'h> {
    ghost use Rattle.std.specs.Prelude.{List, map};
    ghost use Rattle.br_model.specs.View as model;
    ghost use Rattle.br_view.specs.Shown.{shown_pair};

    ghost Value = { List model.Entry };

    ghost view = { λ v. map shown_pair v.entries.items };

    ghost invariant = { λ v. model.IsView (map shown_pair v.entries.items) };
}

impl<'h> View<'h> {
    /// Builds the view of jobs with distinct numbers, in any order. The newest copy of a path is in
    /// the job with the latest start, or the greatest number among equal starts, that has a row for
    /// the path. Of this job's rows for it the one with the greatest FileIndex counts. If that is
    /// 0, the path was deleted and is not in the view.
    pub fn build(alloc: Global, jobs: &[&'h JobRows]) -> Result<View<'h>, AllocError>
        requires { no_pair (λ j k. j.row.id == k.row.id) (map (λ j. j.now) jobs.now) ≡ true }
        ensures { IfOk result (λ view. view ≡ view_of (map (λ j. j.now) jobs.now)) }
    {
        let kept = newest_copies(alloc, jobs)?;
        let entries = entries_of(alloc, &kept)?;
        Ok(View { entries })
    }

    /// Returns the newest copy of a path, if it is in the view.
    pub fn get(&self, path: &Path) -> Option<&Entry>
        ensures { option_map (entry_with path.now) (option_copied result) ≡ entry_at self.now path.now }
    {
        match self
            .entries
            .binary_search_by(|entry| compared(entry.0, path))
        {
            Ok(place) => Some(&self.entries[place].1),
            Err(_) => None,
        }
    }

    /// Returns the paths and their newest copies, in byte order of the paths, each path once.
    pub fn entries(&self) -> &[(&'h Path, Entry)]
        ensures same { map shown_pair result.now ≡ self.now }
        ensures ordered { IsView self.now }
    {
        self.entries.as_slice()
    }

    /// Returns an iterator over the paths and their newest copies, in byte order of the paths.
    pub fn iter(&self) -> Iter<'_, (&'h Path, Entry)>
        ensures same { map shown_pair (iter_rest result) ≡ self.now }
        ensures ordered { IsView self.now }
    {
        self.entries.iter()
    }

    /// Returns the number of paths in the view.
    pub fn len(&self) -> usize
        ensures { result ≡ length self.now }
    {
        self.entries.len()
    }
}
