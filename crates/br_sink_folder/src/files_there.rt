//! A folder into which an earlier delivery has put files.
ghost use Rattle.std.specs.Prelude.{◌≡◌, true, false, length, IfErr, OnOk, Ok};
ghost use Rattle.md5.specs.Md5.{md5};
ghost use Rattle.br_model.specs.File.{has_bytes};
ghost use Rattle.br_fs.specs.Making.{IsKindAt};
ghost use Rattle.br_fs.specs.declared.kind.Kind.TheVariants.{File, Folder};
ghost use Rattle.br_fs.specs.Alike.{IsAlikeAt, LacksAlikeAt};
ghost use Rattle.br_sink_folder.specs.Below.{AddsFolders};
ghost use Rattle.br_sink_folder.specs.There.{IsMissing, IsNotThere, IsThere};

use crate::below_folder::fault_of;
use crate::fault::FolderFault;
use crate::target_path::path_of;
use br_fs::{Comparer, DiskFault, FileMaker, Kind};
use br_join::{FileBytes, Item};
use br_sink::SinkFault;
use std::alloc::Global;

/// Checks that a folder is at the path.
#[tactic(auto, using(crate::proofs::ThereLaws::folder_there, crate::proofs::ThereLaws::missing_not_there))]
pub(crate) fn check_there<M: FileMaker>(maker: &M, path: &str) -> Result<(), FolderFault>
    ensures there { OnOk result (IsKindAt (M.nodes maker.now) path.now Folder) }
    ensures refused { IfErr result (IsNotThere (M.is_steady maker.now) (M.nodes maker.now) path.now) }
{
    match maker.is_empty(path) {
        Ok(_) => Ok(()),
        Err(DiskFault::Memory) => Err(FolderFault::Memory),
        Err(_) => Err(FolderFault::NotEmpty),
    }
}

/// Returns whether the file at the path has the length and the digest of these bytes.
fn has_bytes_of<M: Comparer>(
    alloc: Global,
    maker: &mut M,
    path: &str,
    bytes: &FileBytes,
) -> Result<bool, SinkFault>
    requires file { IsKindAt (M.nodes maker.old) path.now File }
    ensures alike { result ≡ Ok true → IsAlikeAt (M.nodes maker.new) path.now (length bytes.now) (md5 bytes.now) }
    ensures lacks { result ≡ Ok false → LacksAlikeAt (M.nodes maker.new) path.now (length bytes.now) (md5 bytes.now) }
    ensures same { M.nodes maker.new ≡ M.nodes maker.old }
{
    match maker.is_alike(alloc, path, bytes.len(), &bytes.digest()) {
        Ok(is_alike) => Ok(is_alike),
        Err(fault) => Err(fault_of(fault)),
    }
}

/// Returns whether a file is at the path and has the length and the digest of these bytes.
#[tactic(auto, using(crate::proofs::ThereLaws::lacks_kind, crate::proofs::ThereLaws::lacks_free))]
fn is_file_of<M: Comparer>(
    alloc: Global,
    maker: &mut M,
    path: &str,
    bytes: &FileBytes,
) -> Result<bool, SinkFault>
    ensures alike { result ≡ Ok true → IsAlikeAt (M.nodes maker.new) path.now (length bytes.now) (md5 bytes.now) }
    ensures lacks { result ≡ Ok false → LacksAlikeAt (M.nodes maker.new) path.now (length bytes.now) (md5 bytes.now) }
    ensures same { M.nodes maker.new ≡ M.nodes maker.old }
{
    match maker.look(path) {
        Ok(Kind::File) => has_bytes_of(alloc, maker, path, bytes),
        Ok(_) | Err(DiskFault::NotFound) => Ok(false),
        Err(fault) => Err(fault_of(fault)),
    }
}

/// Returns whether a file like the item's is at its path. Makes the folders on its way. Whatever is
/// at the path stays.
#[tactic(auto, using(crate::proofs::ThereLaws::there_at, crate::proofs::ThereLaws::missing_at, crate::proofs::ThereLaws::added_before))]
fn is_there<M: Comparer>(
    alloc: Global,
    maker: &mut M,
    root: &str,
    item: &Item,
) -> Result<bool, SinkFault>
    ensures there { result ≡ Ok true → IsThere root.now item.now (M.nodes maker.new) }
    ensures missing { result ≡ Ok false → IsMissing root.now item.now (M.nodes maker.new) }
    ensures added { AddsFolders root.now (M.nodes maker.old) (M.nodes maker.new) }
{
    let path = path_of(alloc, maker, root, item)?;
    is_file_of(alloc, maker, path.as_str(), &item.bytes)
}

/// Returns whether a file like the item's is at its path, if it is a file with bytes.
#[tactic(auto, using(crate::proofs::BelowLaws::adds_same))]
pub(crate) fn is_item_there<M: Comparer>(
    alloc: Global,
    maker: &mut M,
    root: &str,
    item: &Item,
) -> Result<bool, SinkFault>
    ensures file { result ≡ Ok true → has_bytes item.now.kind ≡ true }
    ensures there { result ≡ Ok true → IsThere root.now item.now (M.nodes maker.new) }
    ensures missing { result ≡ Ok false → has_bytes item.now.kind ≡ true → IsMissing root.now item.now (M.nodes maker.new) }
    ensures added { AddsFolders root.now (M.nodes maker.old) (M.nodes maker.new) }
{
    match item.kind {
        2 | 3 => is_there(alloc, maker, root, item),
        _ => Ok(false),
    }
}
