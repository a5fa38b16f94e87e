//! The place of a file below a folder.
ghost use Rattle.std.specs.Prelude.{◌≡◌, ◌++◌, false, OnOk, IfOk, string_bytes};
ghost use Rattle.std.specs.Str.{IsUtf8};
ghost use Rattle.br_model.specs.Name.{is_directory};
ghost use Rattle.br_fs.specs.Making.{IsBelow};
ghost use Rattle.br_sink_folder.specs.Below.{AddsFolders, KeepsOutside};

use crate::below_folder::{make_way, path_below};
use br_fs::FileMaker;
use br_join::Item;
use br_sink::SinkFault;
use br_types::is_directory_path;
use std::alloc::Global;

/// Returns the path of an item as text. `Fault` if it is not UTF-8.
pub(crate) fn text_of(item: &Item) -> Result<&str, SinkFault>
    ensures text { OnOk result (IsUtf8 item.now.path) }
    ensures same { IfOk result (λ text. text.now ≡ item.now.path) }
{
    match str::from_utf8(item.path.bytes()) {
        Ok(path) => Ok(path),
        Err(_) => Err(SinkFault::Fault),
    }
}

/// Returns the path of a file as text. `Fault` if it is not UTF-8, or is a folder's.
fn file_text_of(item: &Item) -> Result<&str, SinkFault>
    ensures text { OnOk result (IsUtf8 item.now.path) }
    ensures name { OnOk result (is_directory item.now.path ≡ false) }
    ensures same { IfOk result (λ text. text.now ≡ item.now.path) }
{
    if is_directory_path(item.path.bytes()) {
        return Err(SinkFault::Fault);
    }
    text_of(item)
}

/// Returns the path of a file below the folder. Makes the folders on its way.
#[tactic(auto, using(crate::proofs::BelowLaws::outside_added, crate::proofs::BelowLaws::adds_same))]
pub(crate) fn path_of<M: FileMaker>(
    alloc: Global,
    maker: &mut M,
    root: &str,
    item: &Item,
) -> Result<String, SinkFault>
    ensures text { OnOk result (IsUtf8 item.now.path) }
    ensures name { OnOk result (is_directory item.now.path ≡ false) }
    ensures path { IfOk result (λ path. string_bytes path ≡ root.now ++ item.now.path) }
    ensures below { IfOk result (λ path. IsBelow root.now (string_bytes path)) }
    ensures added { AddsFolders root.now (M.nodes maker.old) (M.nodes maker.new) }
    ensures outside { KeepsOutside root.now (M.nodes maker.old) (M.nodes maker.new) }
{
    let text = file_text_of(item)?;
    let path = path_below(alloc, root, text)?;
    make_way(maker, root, path.as_str())?;
    Ok(path)
}

/// Returns the path below the folder of a file that was made there.
pub(crate) fn known_path_of(alloc: Global, root: &str, item: &Item) -> Result<String, SinkFault>
    ensures path { IfOk result (λ path. string_bytes path ≡ root.now ++ item.now.path) }
    ensures below { IfOk result (λ path. IsBelow root.now (string_bytes path)) }
{
    let text = text_of(item)?;
    path_below(alloc, root, text)
}
