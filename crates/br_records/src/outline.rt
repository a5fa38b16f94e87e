ghost use Rattle.std.specs.Prelude.{◌≡◌, ◌++◌, ◌∷◌, [], All, Err, IfOk, IsErr, map, MatchOption, OnOk};
ghost use Rattle.br_model.specs.Answer.{Answers};
ghost use Rattle.br_model.specs.Meaning as meaning;
ghost use Rattle.br_records.specs.Making.{cause};
ghost use Rattle.br_records.specs.Outline as model;
ghost use Rattle.br_records.specs.Records.{fragments};
ghost use Rattle.br_records.specs.Runs.{AreListed, listed};
ghost use Rattle.br_records.specs.ShownRecords.{outlined, shown};

use crate::attributes::attributes_of;
use crate::file_record::{FileRecord, records_of};
use crate::making_fault::{FileFault, MakingFault};
use crate::record_data::size_of;
use crate::sorted_hits::around;
use crate::streams::refuse_unsupported;
use br_match::Hit;
use br_types::{FileIndex, FileKey, Path};
use std::alloc::{AllocError, Global};
use std::marker::Model;

/// A file without its bytes.
#[derive(Drop)]
pub struct Outline {
    /// The path under which the file was saved.
    pub path: Path,
    /// The file's type: 2 an empty file, 3 a file, 5 a directory, and others.
    pub kind: u32,
    /// The number of bytes of a file of type 2 or 3, else 0.
    pub size: u64,
}

impl Model for Outline {
    ghost use Rattle.br_records.specs.Outline as model;

    ghost Value = { model.Outline };

    ghost view = { λ o. record { path = o.path; kind = o.kind; size = o.size } };
}

/// The outline of a file, or why there is no file.
#[derive(Drop)]
pub enum Sketch {
    File(Outline),
    Fault(FileFault),
}

/// Returns the outline of the file that its records make.
///
/// # Errors
///
/// `NoAttributes`, `BadAttributes`, `Unsupported`, then `SparseBack` or `TooLarge` for the first data that
/// does not fit.
#[tactic(auto, unfolding(crate::specs::Outline::outline))]
fn outline_in(
    alloc: Global,
    index: FileIndex,
    records: &[FileRecord<'_>],
) -> Result<Outline, MakingFault>
    ensures { Answers (λ outline. outline) cause result (model.outline index records.now) }
{
    let attr = attributes_of(alloc, index, records)?;
    refuse_unsupported(records)?;
    let (kind, path, _stat, _link) = attr.into_parts();
    let size = size_of(kind, records)?;
    Ok(Outline { path, kind, size })
}

/// Returns the outline of the file that its fragments make, given in order of place.
#[tactic(auto, unfolding(crate::specs::Outline::outline_of))]
fn outline_of(alloc: Global, key: FileKey, hits: &[Hit]) -> Result<Outline, MakingFault>
    requires { All (λ (h : meaning.Hit). h.key ≡ key) hits.now }
    ensures { Answers (λ outline. outline) cause result (model.outline_of key (fragments hits.now)) }
{
    let records = records_of(alloc, key.index, hits)?;
    outline_in(alloc, key.index, &records)
}

/// Returns the sketch of a file without an outline, unless memory ran out.
fn no_file(why: MakingFault) -> Result<Sketch, AllocError>
    ensures { MatchOption (cause why) (IsErr result) (λ fault. IfOk result (λ sketch. shown sketch ≡ Err fault)) }
{
    match why {
        MakingFault::Memory => Err(AllocError),
        MakingFault::File(fault) => Ok(Sketch::Fault(fault)),
    }
}

/// Returns the sketch of a file by its fragments, given in order of place.
fn sketch_of(alloc: Global, key: FileKey, hits: &[Hit]) -> Result<Sketch, AllocError>
    requires { All (λ (h : meaning.Hit). h.key ≡ key) hits.now }
    ensures { IfOk result (λ sketch. shown sketch ≡ model.outline_of key (fragments hits.now)) }
{
    match outline_of(alloc, key, hits) {
        Ok(outline) => Ok(Sketch::File(outline)),
        Err(why) => no_file(why),
    }
}

/// Appends the sketch of a file.
fn push_sketch(
    sketches: &mut Vec<(FileKey, Sketch)>,
    key: FileKey,
    sketch: Sketch,
) -> Result<(), AllocError>
    ensures { OnOk result (map outlined sketches.new.items ≡ map outlined sketches.old.items ++ outlined (key, sketch) ∷ []) }
{
    sketches.push((key, sketch))?;
    Ok(())
}

/// Returns a sketch of each file of sorted hits, in order of key. Needs only the data of attributes
/// and the beginning of sparse data; other data need not be in memory.
///
/// # Errors
///
/// `AllocError` if memory runs out, or if data that are needed are not in memory.
pub fn sketches_of(alloc: Global, hits: &[Hit]) -> Result<Vec<(FileKey, Sketch)>, AllocError>
    requires { AreListed hits.now }
    ensures { IfOk result (λ sketches. map outlined sketches.items ≡ model.outlines_found (listed hits.now)) }
{
    let mut sketches = Vec::new(alloc);
    let mut rest = hits;
    while let Some(first) = rest.first() {
        let key = first.key;
        let (_, run, after) = around(rest, key);
        let sketch = sketch_of(alloc, key, run)?;
        push_sketch(&mut sketches, key, sketch)?;
        rest = after;
    }
    Ok(sketches)
}
