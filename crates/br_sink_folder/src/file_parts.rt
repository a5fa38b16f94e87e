//! Puts a file whose bytes are read again, part by part, while it is written.
ghost use Rattle.std.specs.Prelude.{◌≡◌, true, false, IfOk, OnErr, OnOk, Err};
ghost use Rattle.std.specs.Str.{IsUtf8};
ghost use Rattle.br_model.specs.File.{has_bytes};
ghost use Rattle.br_model.specs.Name.{is_directory};
ghost use Rattle.br_fs.specs.Making.{KeepsOthers};
ghost use Rattle.br_sink.specs.FileParts.{AreAlike, with_bytes};
ghost use Rattle.br_sink.specs.declared.file_parts.PartsFault.TheVariants as why;
ghost use Rattle.br_sink_folder.specs.Below.{AddsFolders, KeepsOutside, PutsBelow, WritesNew};
ghost use Rattle.br_sink_folder.specs.FolderSink.{PutsItem, is_on_disk};
ghost use Rattle.br_sink_folder.specs.Removed.{GivesUp};
ghost use Rattle.br_sink_folder.specs.Way.{MakesFolder};

use crate::below_folder::{finish, make_anew};
use crate::remover::{Remover, take_back};
use crate::single_file::write_item;
use crate::target_path::path_of;
use br_fs::FileMaker;
use br_join::{FileBytes, Item};
use br_sink::{Parts, PartsFault};
use std::alloc::Global;

/// Writes the bytes of a new file, and closes it.
#[tactic(auto, using(crate::proofs::BelowLaws::new_written, crate::proofs::BelowLaws::same_others))]
fn write_parts<M: FileMaker, P: Parts>(
    maker: &mut M,
    path: &str,
    file: M::New,
    item: &Item,
    parts: &mut P,
) -> Result<FileBytes, PartsFault>
    ensures put { IfOk result (λ bytes. WritesNew path.now (M.New.contents file) bytes (M.nodes maker.old) (M.nodes maker.new)) }
    ensures alike { IfOk result (λ bytes. AreAlike bytes item.now.bytes) }
    ensures same { IfOk result (λ bytes. P.gives parts.old item.now → bytes ≡ item.now.bytes) }
    ensures changed { result ≡ Err why.Changed → P.gives parts.old item.now → ⊥ }
    ensures lost { result ≡ Err why.NoDriveLeft → P.loses parts.old parts.new }
    ensures others { KeepsOthers path.now (M.nodes maker.old) (M.nodes maker.new) }
    ensures on { P.goes_on parts.old parts.new }
{
    let mut file = file;
    let bytes = parts.write_to(item, &mut file)?;
    finish(maker, path, file)?;
    Ok(bytes)
}

/// Writes the file, and makes the folders on its way. If the file could not be written, what was
/// made of it is removed again, as far as possible.
#[tactic(auto, using(crate::proofs::BelowLaws::outside_then, crate::proofs::BelowLaws::outside_twice, crate::proofs::BelowLaws::outside_undone, crate::proofs::BelowLaws::put_parts_below, crate::proofs::RemovalLaws::gives_added, crate::proofs::RemovalLaws::gives_unmade, crate::proofs::RemovalLaws::gives_unwritten))]
fn write_file<M: Remover, P: Parts>(
    alloc: Global,
    maker: &mut M,
    root: &str,
    item: &Item,
    parts: &mut P,
) -> Result<FileBytes, PartsFault>
    ensures text { OnOk result (IsUtf8 item.now.path) }
    ensures name { OnOk result (is_directory item.now.path ≡ false) }
    ensures put { IfOk result (λ bytes. PutsBelow root.now item.now.path bytes (M.nodes maker.old) (M.nodes maker.new)) }
    ensures alike { IfOk result (λ bytes. AreAlike bytes item.now.bytes) }
    ensures same { IfOk result (λ bytes. P.gives parts.old item.now → bytes ≡ item.now.bytes) }
    ensures changed { result ≡ Err why.Changed → P.gives parts.old item.now → ⊥ }
    ensures lost { result ≡ Err why.NoDriveLeft → P.loses parts.old parts.new }
    ensures removed { OnErr result (GivesUp M.is_refused root.now item.now.path (M.nodes maker.old) (M.nodes maker.new)) }
    ensures outside { KeepsOutside root.now (M.nodes maker.old) (M.nodes maker.new) }
    ensures on { P.goes_on parts.old parts.new }
{
    let path = path_of(alloc, maker, root, item)?;
    let whole = path.as_str();
    let file = make_anew(maker, whole)?;
    match write_parts(maker, whole, file, item, parts) {
        Ok(bytes) => Ok(bytes),
        Err(fault) => {
            take_back(maker, root, whole);
            Err(fault)
        }
    }
}

/// Puts an item without bytes on disk, as its type requires.
#[tactic(auto, using(crate::proofs::BelowLaws::adds_same, crate::proofs::BelowLaws::outside_same, crate::proofs::RemovalLaws::gives_same))]
fn write_other<M: Remover>(
    alloc: Global,
    maker: &mut M,
    root: &str,
    item: &Item,
) -> Result<FileBytes, PartsFault>
    ensures text { OnOk result (is_on_disk item.now.kind ≡ true → IsUtf8 item.now.path) }
    ensures name { OnOk result (has_bytes item.now.kind ≡ true → is_directory item.now.path ≡ false) }
    ensures file { OnOk result (PutsItem root.now item.now (M.nodes maker.old) (M.nodes maker.new)) }
    ensures folder { OnOk result (MakesFolder root.now item.now (M.nodes maker.new)) }
    ensures bytes { IfOk result (λ bytes. bytes ≡ item.now.bytes) }
    ensures changed { result ≡ Err why.Changed → ⊥ }
    ensures lost { result ≡ Err why.NoDriveLeft → ⊥ }
    ensures folders { has_bytes item.now.kind ≡ false → AddsFolders root.now (M.nodes maker.old) (M.nodes maker.new) }
    ensures nothing { is_on_disk item.now.kind ≡ false → M.nodes maker.new ≡ M.nodes maker.old }
    ensures removed { OnErr result (GivesUp M.is_refused root.now item.now.path (M.nodes maker.old) (M.nodes maker.new)) }
    ensures outside { KeepsOutside root.now (M.nodes maker.old) (M.nodes maker.new) }
{
    let bytes = item.bytes.share(alloc)?;
    write_item(alloc, maker, root, item)?;
    Ok(bytes)
}

/// Puts the item on disk, as its type requires, with its bytes as they are read again.
#[tactic(auto, using(crate::proofs::WayLaws::no_folder_put))]
pub(crate) fn put_item<M: Remover, P: Parts>(
    alloc: Global,
    maker: &mut M,
    root: &str,
    item: &Item,
    parts: &mut P,
) -> Result<FileBytes, PartsFault>
    ensures text { OnOk result (is_on_disk item.now.kind ≡ true → IsUtf8 item.now.path) }
    ensures name { OnOk result (has_bytes item.now.kind ≡ true → is_directory item.now.path ≡ false) }
    ensures file { IfOk result (λ bytes. PutsItem root.now (with_bytes item.now bytes) (M.nodes maker.old) (M.nodes maker.new)) }
    ensures folder { OnOk result (MakesFolder root.now item.now (M.nodes maker.new)) }
    ensures alike { IfOk result (λ bytes. AreAlike bytes item.now.bytes) }
    ensures same { IfOk result (λ bytes. P.gives parts.old item.now → bytes ≡ item.now.bytes) }
    ensures changed { result ≡ Err why.Changed → P.gives parts.old item.now → ⊥ }
    ensures lost { result ≡ Err why.NoDriveLeft → P.loses parts.old parts.new }
    ensures folders { has_bytes item.now.kind ≡ false → AddsFolders root.now (M.nodes maker.old) (M.nodes maker.new) }
    ensures nothing { is_on_disk item.now.kind ≡ false → M.nodes maker.new ≡ M.nodes maker.old }
    ensures removed { OnErr result (GivesUp M.is_refused root.now item.now.path (M.nodes maker.old) (M.nodes maker.new)) }
    ensures outside { KeepsOutside root.now (M.nodes maker.old) (M.nodes maker.new) }
    ensures on { P.goes_on parts.old parts.new }
{
    match item.kind {
        2 | 3 => write_file(alloc, maker, root, item, parts),
        _ => write_other(alloc, maker, root, item),
    }
}
