ghost use Rattle.std.specs.Prelude.{◌≡◌, ◌||◌, length, map, IfOk, OnOk};
ghost use Rattle.br_view.specs.Shown.{shown_pair};
ghost use Rattle.br_plan.specs.Selected.{has_path, ArePaths, has_file, AddsLink, AddsIf, AreLinked, kept_of, selected_by, flags_in};

use br_tree::{Shown, flag_at, keep_if, pair_at};
use br_types::{JobId, Path};
use br_view::Entry;
use std::alloc::{AllocError, Global};
use std::collections::BTreeSet;

/// A file of a job, by its FileIndex as a hard link has it.
type Linked = (JobId, u64);

/// Collects the marked paths.
fn paths_of<'m>(alloc: Global, marks: &'m [Path]) -> Result<BTreeSet<&'m [u8]>, AllocError>
    ensures { IfOk result (λ paths. ArePaths paths marks.now) }
{
    let mut paths = BTreeSet::new(alloc);
    for mark in marks {
        paths.insert(mark.bytes())?;
    }
    Ok(paths)
}

fn is_marked(paths: &BTreeSet<&[u8]>, path: &Path) -> bool
    ensures { result ≡ has_path paths.now path.now }
{
    paths.contains(path.bytes())
}

/// Returns whether the set has the path of each entry, in order.
fn flags_by(
    alloc: Global,
    entries: &[Shown<'_>],
    paths: &BTreeSet<&[u8]>,
) -> Result<Vec<bool>, AllocError>
    ensures { IfOk result (λ flags. flags.items ≡ map (λ p. has_path paths.now p.0.now) entries.now) }
{
    entries
        .iter()
        .map(|shown| is_marked(paths, shown.0))
        .collect(alloc)
}

/// Returns whether the path of each entry is marked, in order.
pub(crate) fn flags_of(
    alloc: Global,
    entries: &[Shown<'_>],
    marks: &[Path],
) -> Result<Vec<bool>, AllocError>
    ensures { IfOk result (λ flags. flags.items ≡ flags_in marks.now (map shown_pair entries.now)) }
{
    let paths = paths_of(alloc, marks)?;
    flags_by(alloc, entries, &paths)
}

/// Notes the file of a job with the index of a link, if this is above 0.
fn note_link(files: &mut BTreeSet<Linked>, job: JobId, link_index: i64) -> Result<(), AllocError>
    ensures { OnOk result (AddsLink files.old job link_index files.new) }
{
    if link_index > 0 {
        files.insert((job, link_index.unsigned_abs()))?;
    }
    Ok(())
}

/// Notes the file to which an entry is a hard link, if the entry is flagged.
fn note_if(files: &mut BTreeSet<Linked>, entry: Entry, flag: bool) -> Result<(), AllocError>
    ensures { OnOk result (AddsIf files.old flag entry files.new) }
{
    if flag {
        note_link(files, entry.job, entry.link_index)?;
    }
    Ok(())
}

/// Returns the files to which the flagged entries are hard links.
fn linked_files(
    alloc: Global,
    entries: &[Shown<'_>],
    flags: &[bool],
) -> Result<BTreeSet<Linked>, AllocError>
    requires { length flags.now ≡ length entries.now }
    ensures { IfOk result (λ files. AreLinked files entries.now flags.now) }
{
    let mut files = BTreeSet::new(alloc);
    for place in 0..entries.len() {
        let shown = pair_at(entries, place);
        note_if(&mut files, shown.1, flag_at(flags, place))?;
    }
    Ok(files)
}

/// Returns whether an entry is flagged, or its file is in the set.
fn is_wanted(files: &BTreeSet<Linked>, entry: Entry, flag: bool) -> bool
    ensures { result ≡ (flag || has_file files.now (entry.job, entry.index)) }
{
    flag || files.contains(&(entry.job, u64::from(entry.index.get())))
}

/// Returns the entries that are flagged or whose file is in the set.
fn kept<'h>(
    alloc: Global,
    entries: &[Shown<'h>],
    flags: &[bool],
    files: &BTreeSet<Linked>,
) -> Result<Vec<Shown<'h>>, AllocError>
    requires { length flags.now ≡ length entries.now }
    ensures { IfOk result (λ kept. kept.items ≡ kept_of (has_file files.now) entries.now flags.now) }
{
    let mut kept = Vec::new(alloc);
    for place in 0..entries.len() {
        let shown = pair_at(entries, place);
        let wanted = is_wanted(files, shown.1, flag_at(flags, place));
        keep_if(&mut kept, shown.0, shown.1, wanted)?;
    }
    Ok(kept)
}

/// Returns the entries that are flagged, and those of the files to which flagged ones are hard links.
pub(crate) fn selected<'h>(
    alloc: Global,
    entries: &[Shown<'h>],
    flags: &[bool],
) -> Result<Vec<Shown<'h>>, AllocError>
    requires { length flags.now ≡ length entries.now }
    ensures { IfOk result (λ selected. selected.items ≡ selected_by entries.now flags.now) }
{
    let files = linked_files(alloc, entries, flags)?;
    kept(alloc, entries, flags, &files)
}
