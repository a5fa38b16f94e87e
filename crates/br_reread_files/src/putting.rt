//! A file that is put into a sink part by part.
ghost use Rattle.std.specs.Prelude.{◌≡◌, ◌<◌, ◌≤◌, ◌==◌, true, false, nat_abs, Err, IfSome, OnErr, OnOk};
ghost use Rattle.std.specs.List.{list_any};
ghost use Rattle.br_model.specs.File as file;
ghost use Rattle.br_model.specs.Meaning as meaning;
ghost use Rattle.br_records.specs.Runs.{AreListed};
ghost use Rattle.br_data.specs.ManyDrives.{GoOn, HaveFailed, RereadingMany};
ghost use Rattle.br_sink.specs.declared.file_parts.PartsFault.TheVariants.{Changed, Fault, NoDriveLeft};
ghost use Rattle.br_reread_parts.specs.FileParts.{GivesFile, PutsAlike};
ghost use Rattle.br_reread_files.specs.FileParts.{GivesItem};

use crate::files_once_more::item_once_more;
use br_data::OverMany;
use br_join::Item;
use br_match::Hit;
use br_records::{SPARSE_DATA, around};
use br_sink::{PartsFault, Sink};
use br_types::FileKey;
use br_volume::Drive;
use std::alloc::Global;

/// Returns whether some of the data are sparse.
pub(crate) fn has_sparse_data(hits: &[Hit]) -> bool
    ensures { result ≡ list_any (λ (h : meaning.Hit). nat_abs h.fragment.stream == 6) hits.now }
{
    hits.iter()
        .any(|hit| hit.stream.unsigned_abs() == SPARSE_DATA)
}

/// Returns whether a file of this type has the plain data of the hits as its bytes. Types 2 and 3
/// have bytes.
fn is_plain(kind: u32, hits: &[Hit]) -> bool
    ensures kind { result ≡ true → file.has_bytes kind ≡ true }
    ensures none { result ≡ true → list_any (λ (h : meaning.Hit). nat_abs h.fragment.stream == 6) hits.now ≡ false }
{
    (kind == 2 || kind == 3) && !has_sparse_data(hits)
}

/// Returns the hits with the key, if a file of the item's type has their plain data as its bytes.
pub(crate) fn plain_run<'h>(hits: &'h [Hit], key: FileKey, item: &Item) -> Option<&'h [Hit]>
    requires { AreListed hits.now }
    ensures { IfSome result (λ run. (many : RereadingMany) → GivesItem many hits.now key item.now → GivesFile many run.now item.now) }
{
    let (_, run, _) = around(hits, key);
    if !is_plain(item.kind, run) {
        return None;
    }
    Some(run)
}

/// Makes the file once more in memory, and puts it into a sink.
///
/// # Errors
///
/// As `Gathered::put_by_parts`.
pub(crate) fn put_whole<D: Drive, S: Sink>(
    alloc: Global,
    many: &mut OverMany<'_, D>,
    hits: &[Hit],
    key: FileKey,
    item: &Item,
    sink: &mut S,
) -> Result<(), PartsFault>
    requires { AreListed hits.now }
    ensures put { OnOk result (PutsAlike (GivesItem many.old hits.now key item.now) item.now (S.has sink.old) (S.has sink.new)) }
    ensures refused { OnErr result (S.has sink.new ≡ S.has sink.old) }
    ensures counted { S.failures sink.old ≤ S.failures sink.new }
    ensures failed { result ≡ Err Fault → S.failures sink.old < S.failures sink.new }
    ensures changed { result ≡ Err Changed → GivesItem many.old hits.now key item.now → ⊥ }
    ensures lost { result ≡ Err NoDriveLeft → HaveFailed many.old many.new }
    ensures on { GoOn many.old many.new }
{
    match item_once_more(alloc, many, hits, key, item) {
        Ok(made) => {
            sink.put(&made)?;
            Ok(())
        }
        Err(fault) => Err(PartsFault::from(fault)),
    }
}
