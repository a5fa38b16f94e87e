//! Puts a file or a folder alone.
ghost use Rattle.std.specs.Prelude.{◌≡◌, ◌++◌, true, false, OnErr, OnOk, Ok};
ghost use Rattle.std.specs.Str.{IsUtf8};
ghost use Rattle.br_model.specs.File.{has_bytes};
ghost use Rattle.br_model.specs.Name.{is_directory};
ghost use Rattle.br_sink_folder.specs.Below.{AddsFolders, KeepsOutside, PutsBelow};
ghost use Rattle.br_sink_folder.specs.FolderSink.{PutsItem, is_on_disk};
ghost use Rattle.br_sink_folder.specs.Removed.{ChangesOne, GivesUp};
ghost use Rattle.br_sink_folder.specs.Way.{MakesFolder};

use crate::below_folder::{folder_below, make_anew, make_way, write_made};
use crate::remover::{Remover, take_back};
use crate::target_path::{path_of, text_of};
use br_fs::FileMaker;
use br_join::Item;
use br_sink::SinkFault;
use std::alloc::Global;

/// Writes the file, and makes the folders on its way. If the file could not be written, what was
/// made of it is removed again, as far as possible.
#[tactic(auto, using(crate::proofs::BelowLaws::outside_then, crate::proofs::BelowLaws::outside_twice, crate::proofs::BelowLaws::outside_undone, crate::proofs::BelowLaws::put_below, crate::proofs::RemovalLaws::gives_added, crate::proofs::RemovalLaws::gives_unmade, crate::proofs::RemovalLaws::gives_unwritten, crate::proofs::RemovalLaws::changes_added, crate::proofs::RemovalLaws::file_changes, crate::proofs::RemovalLaws::file_changes_twice, crate::proofs::RemovalLaws::file_is_undone))]
fn write_file<M: Remover>(
    alloc: Global,
    maker: &mut M,
    root: &str,
    item: &Item,
) -> Result<(), SinkFault>
    ensures text { OnOk result (IsUtf8 item.now.path) }
    ensures name { OnOk result (is_directory item.now.path ≡ false) }
    ensures put { OnOk result (PutsBelow root.now item.now.path item.now.bytes (M.nodes maker.old) (M.nodes maker.new)) }
    ensures removed { OnErr result (GivesUp M.is_refused root.now item.now.path (M.nodes maker.old) (M.nodes maker.new)) }
    ensures rest { ChangesOne root.now (root.now ++ item.now.path) (M.nodes maker.old) (M.nodes maker.new) }
    ensures outside { KeepsOutside root.now (M.nodes maker.old) (M.nodes maker.new) }
{
    let path = path_of(alloc, maker, root, item)?;
    let whole = path.as_str();
    let file = make_anew(maker, whole)?;
    match write_made(maker, whole, file, &item.bytes) {
        Ok(()) => Ok(()),
        Err(fault) => {
            take_back(maker, root, whole);
            Err(fault)
        }
    }
}

/// Makes the folder, and those on its way.
#[tactic(auto, using(crate::proofs::BelowLaws::adds_same, crate::proofs::WayLaws::way_of_folder))]
fn write_folder<M: FileMaker>(
    alloc: Global,
    maker: &mut M,
    root: &str,
    item: &Item,
) -> Result<(), SinkFault>
    ensures text { OnOk result (IsUtf8 item.now.path) }
    ensures folder { OnOk result (MakesFolder root.now item.now (M.nodes maker.new)) }
    ensures added { AddsFolders root.now (M.nodes maker.old) (M.nodes maker.new) }
{
    let text = text_of(item)?;
    let path = folder_below(alloc, root, text)?;
    make_way(maker, root, path.as_str())
}

/// Puts the item on disk, as its type requires.
#[tactic(auto, using(crate::proofs::BelowLaws::outside_added, crate::proofs::BelowLaws::outside_same, crate::proofs::RemovalLaws::gives_added, crate::proofs::RemovalLaws::changes_added, crate::proofs::RemovalLaws::changes_same, crate::proofs::WayLaws::no_folder_put))]
pub(crate) fn write_item<M: Remover>(
    alloc: Global,
    maker: &mut M,
    root: &str,
    item: &Item,
) -> Result<(), SinkFault>
    ensures other { is_on_disk item.now.kind ≡ false → result ≡ Ok tt }
    ensures text { OnOk result (is_on_disk item.now.kind ≡ true → IsUtf8 item.now.path) }
    ensures name { OnOk result (has_bytes item.now.kind ≡ true → is_directory item.now.path ≡ false) }
    ensures file { OnOk result (PutsItem root.now item.now (M.nodes maker.old) (M.nodes maker.new)) }
    ensures folder { OnOk result (MakesFolder root.now item.now (M.nodes maker.new)) }
    ensures folders { has_bytes item.now.kind ≡ false → AddsFolders root.now (M.nodes maker.old) (M.nodes maker.new) }
    ensures removed { OnErr result (GivesUp M.is_refused root.now item.now.path (M.nodes maker.old) (M.nodes maker.new)) }
    ensures nothing { is_on_disk item.now.kind ≡ false → M.nodes maker.new ≡ M.nodes maker.old }
    ensures rest { ChangesOne root.now (root.now ++ item.now.path) (M.nodes maker.old) (M.nodes maker.new) }
    ensures outside { KeepsOutside root.now (M.nodes maker.old) (M.nodes maker.new) }
{
    match item.kind {
        2 | 3 => write_file(alloc, maker, root, item),
        5 => write_folder(alloc, maker, root, item),
        _ => Ok(()),
    }
}
