//! The whole check.
ghost use Rattle.std.specs.Prelude.{◌≡◌, ◌++◌, ◌∷◌, ◌≤◌, ◌*◌, ◌^◌, codes, decimal, flat_map, IfOk, map, OnOk};
ghost use Rattle.br_check.specs.Shown.{shown_between};
ghost use Rattle.br_check.specs.Check.{ChecksOver, IsChecked, end_text, folder_lines, keys_of, lines_of, outlines_in};
ghost use Rattle.br_check.specs.Findings.{bytes_in, bytes_of, files_at, files_in, memory_for};
ghost use Rattle.br_check.specs.Search.{all_found, found_in};
ghost use Rattle.br_records.specs.ShownRecords.{outlined};
ghost use Rattle.br_model.specs.Text.{is_empty, line};
ghost use Rattle.br_volume.specs.Drive.{OnlyGrows};

use crate::conflict_lines::push_conflicts;
use crate::copies::push_copies;
use crate::findings::{push_empty, push_files, push_volumes};
use crate::label::push_labels;
use crate::long::push_long;
use crate::memory::held_beside;
use crate::name_lines::push_names;
use crate::search::search;
use br_bsr::{Bootstrap, Group};
use br_match::{Found, Hit, PieceFault};
use br_piece::{report, split};
use br_records::{Sketch, settle, sketches_of};
use br_types::{FileKey, push_number, push_wide};
use br_volume::Drive;
use std::alloc::{AllocError, Global};

/// The result of a check.
#[derive(Drop)]
pub struct Checked {
    /// A line for each finding.
    pub findings: Vec<u8>,
    /// The number of files that would be restored.
    pub files: usize,
    /// The number of their bytes.
    pub bytes: u128,
    /// The greatest amount of memory that a restore needs, in bytes.
    pub memory: u128,
}

impl Checked {
    /// Returns if nothing was found.
    pub fn is_clean(&self) -> bool
        ensures { result ≡ is_empty self.now.findings.items }
    {
        self.findings.is_empty()
    }

    /// Appends what follows the findings: the lines `memory BYTES` and `total FILES BYTES`.
    pub fn push_end(&self, text: &mut Vec<u8>) -> Result<(), AllocError>
        ensures { OnOk result (text.new.items ≡ text.old.items ++ end_text self.now) }
    {
        push_memory(text, self.memory)?;
        push_total(text, self.files, self.bytes)
    }
}

/// Appends the line of the memory.
fn push_memory(text: &mut Vec<u8>, memory: u128) -> Result<(), AllocError>
    ensures { OnOk result (text.new.items ≡ text.old.items ++ line (codes "memory " ++ decimal memory)) }
{
    text.extend_from_slice(b"memory ")?;
    push_wide(text, memory)?;
    text.push(b'\n')?;
    Ok(())
}

/// Appends the line of the number of files and of their bytes.
fn push_total(text: &mut Vec<u8>, files: usize, bytes: u128) -> Result<(), AllocError>
    ensures { OnOk result (text.new.items ≡ text.old.items ++ line (codes "total " ++ decimal files ++ 32 ∷ decimal bytes)) }
{
    text.extend_from_slice(b"total ")?;
    push_number(text, files as u64)?;
    text.push(b' ')?;
    push_wide(text, bytes)?;
    text.push(b'\n')?;
    Ok(())
}

/// Appends the hits that were found for a piece.
fn append_found(hits: &mut Vec<Hit>, result_of: Result<Found, PieceFault>) -> Result<(), AllocError>
    ensures { OnOk result (hits.new.items ≡ hits.old.items ++ found_in result_of) }
{
    match result_of {
        Ok(mut found) => hits.append(&mut found.hits),
        Err(_) => Ok(()),
    }
}

/// Returns the hits that were found for all pieces.
fn hits_of(alloc: Global, results: Vec<Result<Found, PieceFault>>) -> Result<Vec<Hit>, AllocError>
    ensures { IfOk result (λ hits. hits.items ≡ all_found results.items) }
{
    let mut hits = Vec::new(alloc);
    for found in results {
        append_found(&mut hits, found)?;
    }
    Ok(hits)
}

/// Returns a sketch of each file with one of these hits, in order of key.
fn sketches_in(alloc: Global, hits: Vec<Hit>) -> Result<Vec<(FileKey, Sketch)>, AllocError>
    ensures { IfOk result (λ sketches. map outlined sketches.items ≡ outlines_in hits.items) }
{
    let mut hits = hits;
    settle(&mut hits)?;
    sketches_of(alloc, &hits)
}

/// Returns the keys of the files.
fn keys_in(alloc: Global, sketches: &[(FileKey, Sketch)]) -> Result<Vec<FileKey>, AllocError>
    ensures { IfOk result (λ keys. keys.items ≡ keys_of (map outlined sketches.now)) }
{
    let mut keys = Vec::with_capacity(alloc, sketches.len())?;
    for sketch in sketches {
        keys.push(sketch.0)?;
    }
    Ok(keys)
}

/// Appends the lines of files that a folder can't take: those whose paths are no file names there,
/// those whose paths are too long, and those whose paths conflict.
fn push_folder_lines(
    alloc: Global,
    text: &mut Vec<u8>,
    sketches: &[(FileKey, Sketch)],
) -> Result<(), AllocError>
    ensures { OnOk result (text.new.items ≡ text.old.items ++ folder_lines (map outlined sketches.now)) }
{
    push_names(text, sketches)?;
    push_long(text, sketches)?;
    push_conflicts(alloc, text, sketches)
}

/// Appends the line of a bootstrap without a group, and the lines of files: those that the bootstrap asks for
/// and does not get, the groups that get fewer than their counts, the files that can't be restored, those that
/// a folder can't take, and those whose paths come more than once.
fn push_lines(
    alloc: Global,
    text: &mut Vec<u8>,
    groups: &[Group],
    counts: &[Option<u64>],
    sketches: &[(FileKey, Sketch)],
) -> Result<(), AllocError>
    ensures { OnOk result (text.new.items ≡ text.old.items ++ lines_of groups.now counts.now (map outlined sketches.now)) }
{
    push_empty(text, groups.is_empty())?;
    let keys = keys_in(alloc, sketches)?;
    let missing = report(alloc, groups, counts, keys)?;
    text.extend_from_slice(&missing)?;
    push_files(text, sketches)?;
    push_folder_lines(alloc, text, sketches)?;
    push_copies(alloc, text, sketches)
}

/// Returns 1 for a file that would be restored, else 0.
fn number_of(sketch: &(FileKey, Sketch)) -> usize
    ensures number { result ≡ files_at (outlined sketch.now) }
    ensures small { result ≤ 1 }
{
    match &sketch.1 {
        Sketch::File(_) => 1,
        Sketch::Fault(_) => 0,
    }
}

/// Returns the number of files that would be restored.
fn files_of(sketches: &[(FileKey, Sketch)]) -> usize
    ensures { result ≡ files_in (map outlined sketches.now) }
{
    let mut files = 0;
    for sketch in sketches {
        files += number_of(sketch);
    }
    files
}

/// Returns the number of bytes of a file; 0 if it would not be restored.
fn size_of(sketch: &(FileKey, Sketch)) -> u64
    ensures { result ≡ bytes_of (outlined sketch.now) }
{
    match &sketch.1 {
        Sketch::File(outline) => outline.size,
        Sketch::Fault(_) => 0,
    }
}

/// Returns the number of bytes of the files that would be restored.
fn bytes_of(sketches: &[(FileKey, Sketch)]) -> u128
    ensures { result ≡ bytes_in (map outlined sketches.now) }
{
    let mut bytes = 0;
    for sketch in sketches {
        bytes += u128::from(size_of(sketch));
    }
    bytes
}

/// Returns the most memory that a restore needs if it holds up to `budget` bytes of data.
fn memory_for(budget: u64, fragments: usize, sketches: &[(FileKey, Sketch)]) -> u128
    ensures { result ≡ memory_for budget fragments (map outlined sketches.now) }
{
    u128::from(budget).min(bytes_of(sketches)) + held_beside(fragments, sketches)
}

/// Returns the result of a check from what was found for each piece.
fn checked_of(
    alloc: Global,
    groups: &[Group],
    counts: &[Option<u64>],
    budget: u64,
    results: Vec<Result<Found, PieceFault>>,
    labels: &[u8],
) -> Result<Checked, AllocError>
    ensures { IfOk result (IsChecked groups.now counts.now budget results.items labels.now) }
{
    let mut findings = Vec::new(alloc);
    push_volumes(&mut findings, &results)?;
    findings.extend_from_slice(labels)?;
    let hits = hits_of(alloc, results)?;
    let fragments = hits.len();
    let sketches = sketches_in(alloc, hits)?;
    push_lines(alloc, &mut findings, groups, counts, &sketches)?;
    Ok(Checked {
        findings,
        files: files_of(&sketches),
        bytes: bytes_of(&sketches),
        memory: memory_for(budget, fragments, &sketches),
    })
}

/// Checks a bootstrap over the volumes of a drive. Each finding is a line: the volumes that can't be
/// searched, all of them; those whose labels name other volumes; that the bootstrap has no group; the
/// indexes that it asks for and that are not there; the groups that get fewer files than their counts; the files that can't be restored;
/// those that a folder can't take, because their paths are no file names there, are too long, or
/// conflict; and the copies of paths that come more than once. The memory is that of a restore
/// which holds at most `budget` bytes of data.
///
/// The counts are those of the bootstrap's groups, in the same order, as `counts_of` of br_bsr returns them.
///
/// What was found on a volume that can't be searched to its end does not count. The digests of files are
/// not compared.
pub fn check<D: Drive>(
    alloc: Global,
    bootstrap: &Bootstrap,
    counts: &[Option<u64>],
    budget: u64,
    drive: &mut D,
) -> Result<Checked, AllocError>
    ensures checked { IfOk result (ChecksOver (shown_between D.Drive drive.old drive.new) bootstrap.now counts.now budget) }
    ensures grows { OnlyGrows (D.shows drive.old) (D.shows drive.new) }
{
    let pieces = split(alloc, bootstrap)?;
    let results = search(alloc, &pieces, drive)?;
    let mut labels = Vec::new(alloc);
    push_labels(alloc, &mut labels, &pieces, drive)?;
    checked_of(alloc, bootstrap.groups(), counts, budget, results, &labels)
}
