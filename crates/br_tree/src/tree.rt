ghost use Rattle.std.specs.Prelude.{◌≡◌, map, length, IfOk};
ghost use Rattle.std.specs.List.{list_any};
ghost use Rattle.br_model.specs.Console as model;
ghost use Rattle.br_tree.specs.Change.{flag_of, is_chosen, chosen, after_change, newly_changed};
ghost use Rattle.br_tree.specs.Walk.{seen_paths, set_where, changes, IsRising, AreSorted, marked_in};
ghost use Rattle.br_model.specs.View.{view_paths};
ghost use Rattle.br_view.specs.Shown.{shown_pair};
ghost use Rattle.br_tree.specs.Marking as marking;
ghost use Rattle.br_tree.specs.Seen.{flagged, seen_child, seen_path};

use crate::change::{Change, Meant};
use crate::child::Child;
use crate::child_names::names_in;
use crate::flags::Flags;
use crate::list::{flagged_pairs, found_pairs, paths_of};
use crate::path_spans::spans_of;
use crate::shown_paths::run_of;
use crate::tree_walk::{set_matching, set_own};
use br_types::Path;
use br_view::{Entry, View};
use std::alloc::{AllocError, Global};
use std::marker::Model;

/// Converts a number of paths to 64 bits.
fn as_number(count: Option<usize>) -> Option<u64>
    ensures { result ≡ count }
{
    match count {
        Some(count) => Some(count as u64),
        None => None,
    }
}

/// Sets the flags of the paths that are meant. Returns the number of flags that change;
/// `None` if no path is meant.
fn set_meant(
    entries: &[(&Path, Entry)],
    flags: &mut Flags,
    directory: &[u8],
    meant: Meant<'_>,
    value: bool,
) -> Option<usize>
    requires sorted { AreSorted entries.now }
    requires as_long { length flags.old ≡ length entries.now }
    ensures flags { flags.new ≡ set_where (is_chosen meant.entry directory.now) value (seen_paths entries.now) flags.old }
    ensures answer { result ≡ changes (is_chosen meant.entry directory.now) value (seen_paths entries.now) flags.old }
{
    match meant {
        Meant::Names(pattern) => set_matching(entries, flags, directory, pattern, true, value),
        Meant::Directories(Some(pattern)) => {
            set_matching(entries, flags, directory, pattern, false, value)
        }
        Meant::Directories(None) => set_own(entries, flags, directory, value),
    }
}

/// Changes the flags of the paths that are meant. Returns the number of flags that changed; `None`
/// if no path is meant.
fn change_meant(
    entries: &[(&Path, Entry)],
    flags: &mut Flags,
    directory: &[u8],
    meant: Meant<'_>,
    change: Change,
) -> Option<u64>
    requires sorted { AreSorted entries.now }
    requires as_long { length flags.old ≡ length entries.now }
    ensures flags { flags.new ≡ set_where (is_chosen meant.entry directory.now) (flag_of change) (seen_paths entries.now) flags.old }
    ensures answer { result ≡ changes (is_chosen meant.entry directory.now) (flag_of change) (seen_paths entries.now) flags.old }
{
    as_number(set_meant(entries, flags, directory, meant, change.flag()))
}

/// Returns whether some path begins with a text.
fn begin_so(entries: &[(&Path, Entry)], text: &[u8]) -> bool
    requires { AreSorted entries.now }
    ensures { result ≡ list_any (λ path. model.begins_with path text.now) (seen_paths entries.now) }
{
    let (first, last) = run_of(entries, text);
    first < last
}

/// Returns the entries of a view.
fn rows<'v, 'h>(view: &'v View<'h>) -> &'v [(&'h Path, Entry)]
    ensures same { map shown_pair result.now ≡ view.now }
    ensures paths { seen_paths result.now ≡ view_paths view.now }
    ensures rising { IsRising (seen_paths result.now) }
{
    view.entries()
}

/// A view and the marks on its paths.
#[derive(Drop)]
pub struct Tree<'h> {
    shown: View<'h>,
    is_marked: Flags,
    spans: Vec<u32>,
}

impl<'h> Model for Tree<'h> {
    ghost use Rattle.std.specs.Prelude.{◌≡◌, length};
    ghost use Rattle.br_model.specs.View.{view_paths, IsView};
    ghost use Rattle.br_tree.specs.Marking.{Marking};
    ghost use Rattle.br_tree.specs.Seen.{flagged};

    ghost Value = { Marking };

    ghost view = { λ t. record { view = t.shown; marked = flagged (view_paths t.shown) t.is_marked } };

    ghost invariant = { λ t. IsView t.shown × (length t.is_marked ≡ length t.shown) };
}

impl<'h> Tree<'h> {
    /// Makes the tree of a view, in which nothing is marked.
    pub fn build(alloc: Global, view: View<'h>) -> Result<Tree<'h>, AllocError>
        ensures { IfOk result (λ tree. tree ≡ marking.unmarked view.entry) }
    {
        let is_marked = Flags::new(alloc, view.len())?;
        let spans = spans_of(alloc, rows(&view))?;
        Ok(Tree {
            shown: view,
            is_marked,
            spans,
        })
    }

    /// Returns the paths and their newest copies, in byte order of the paths, each path once.
    pub fn entries(&self) -> &[(&'h Path, Entry)]
        ensures same { map shown_pair result.now ≡ self.now.view }
        ensures valid { marking.IsMarking self.now }
    {
        self.shown.entries()
    }

    /// Returns for each entry, in the same order, whether its path is marked.
    pub fn flags(&self) -> &[bool]
        ensures { result.now ≡ marking.flags_of self.now }
    {
        self.is_marked.as_slice()
    }

    /// Returns the number of paths, and of those that are marked.
    pub fn count(&self) -> (u64, u64)
        ensures paths { result.0 ≡ length self.now.view }
        ensures marked { result.1 ≡ length self.now.marked }
    {
        let paths = self.shown.len();
        (paths as u64, self.is_marked.count(0, paths) as u64)
    }

    /// Returns whether the view has a directory: the root, or any text with which a path begins.
    pub fn has_dir(&self, directory: &[u8]) -> bool
        ensures { result ≡ model.is_directory_of (marking.paths_of self.now) directory.now }
    {
        directory == b"/".as_slice() || begin_so(rows(&self.shown), directory)
    }

    /// Sets or removes the marks of the paths that are meant in a directory. Returns the number of
    /// marks that changed. If no path is meant, it returns `None`, and nothing changes.
    fn change(&mut self, directory: &[u8], meant: Meant<'_>, change: Change) -> Option<u64>
        ensures answer { result ≡ newly_changed change self.old (chosen (marking.paths_of self.old) directory.now meant.entry) }
        ensures marks { self.new ≡ after_change change self.old (chosen (marking.paths_of self.old) directory.now meant.entry) }
    {
        change_meant(
            rows(&self.shown),
            &mut self.is_marked,
            directory,
            meant,
            change,
        )
    }

    /// Marks the children of a directory that match the pattern, and all paths below them. Returns
    /// the number of paths that were not marked before. If no child matches, returns `None` and
    /// changes nothing.
    pub fn mark(&mut self, directory: &[u8], pattern: &[u8]) -> Option<u64>
        ensures answer { result ≡ marking.newly_marked self.old (marking.meant self.old directory.now pattern.now) }
        ensures marks { self.new ≡ marking.after_mark self.old (marking.meant self.old directory.now pattern.now) }
    {
        self.change(directory, Meant::Names(pattern), Change::Mark)
    }

    /// Unmarks the children of a directory that match the pattern, and all paths below them.
    /// Returns the number of paths that were marked before. If no child matches, returns `None` and
    /// changes nothing.
    pub fn unmark(&mut self, directory: &[u8], pattern: &[u8]) -> Option<u64>
        ensures answer { result ≡ marking.newly_unmarked self.old (marking.meant self.old directory.now pattern.now) }
        ensures marks { self.new ≡ marking.after_unmark self.old (marking.meant self.old directory.now pattern.now) }
    {
        self.change(directory, Meant::Names(pattern), Change::Unmark)
    }

    /// Marks the own paths of the directories in a directory that match the pattern, or that of the
    /// directory itself without a pattern. Returns the number of them that were not marked before.
    /// If there is no such path, returns `None` and changes nothing.
    pub fn mark_dir(&mut self, directory: &[u8], pattern: Option<&[u8]>) -> Option<u64>
        ensures answer { result ≡ marking.newly_marked self.old (marking.meant_directories self.old directory.now pattern.entry) }
        ensures marks { self.new ≡ marking.after_mark self.old (marking.meant_directories self.old directory.now pattern.entry) }
    {
        self.change(directory, Meant::Directories(pattern), Change::Mark)
    }

    /// Unmarks the own paths of the directories in a directory that match the pattern, or that of
    /// the directory itself without a pattern. Returns the number of them that were marked before.
    /// If there is no such path, returns `None` and changes nothing.
    pub fn unmark_dir(&mut self, directory: &[u8], pattern: Option<&[u8]>) -> Option<u64>
        ensures answer { result ≡ marking.newly_unmarked self.old (marking.meant_directories self.old directory.now pattern.entry) }
        ensures marks { self.new ≡ marking.after_unmark self.old (marking.meant_directories self.old directory.now pattern.entry) }
    {
        self.change(directory, Meant::Directories(pattern), Change::Unmark)
    }

    /// Returns the names in a directory in byte order, each with its sign.
    pub fn children(&self, alloc: Global, directory: &[u8]) -> Result<Vec<Child<'h>>, AllocError>
        ensures { IfOk result (λ children. map seen_child children.items ≡ marking.signed_children self.now directory.now) }
    {
        names_in(
            alloc,
            rows(&self.shown),
            &self.is_marked,
            &self.spans,
            directory,
        )
    }

    /// Returns the marked paths in byte order.
    pub fn marked(&self, alloc: Global) -> Result<Vec<Path>, AllocError>
        ensures { IfOk result (λ paths. paths.items ≡ self.now.marked) }
    {
        let pairs = flagged_pairs(alloc, rows(&self.shown), self.is_marked.as_slice())?;
        paths_of(alloc, &pairs)
    }

    /// Returns the marked paths and their newest copies, in byte order of the paths.
    pub fn marked_entries(&self, alloc: Global) -> Result<Vec<(&'h Path, Entry)>, AllocError>
        ensures entries { IfOk result (λ entries. map shown_pair entries.items ≡ marking.marked_entries self.now) }
        ensures paths { IfOk result (λ entries. map (λ e. e.0.now) entries.items ≡ self.now.marked) }
    {
        flagged_pairs(alloc, rows(&self.shown), self.is_marked.as_slice())
    }

    /// Returns the paths whose last component matches the pattern, and whether each is marked.
    pub fn find(&self, alloc: Global, pattern: &[u8]) -> Result<Vec<(&'h Path, bool)>, AllocError>
        ensures { IfOk result (λ found. map seen_path found.items ≡ marking.found_paths self.now pattern.now) }
    {
        found_pairs(alloc, rows(&self.shown), self.is_marked.as_slice(), pattern)
    }
}
