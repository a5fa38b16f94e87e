//! Files that are removed again after a delivery has stopped.
ghost use Rattle.std.specs.Prelude.{ℕ, List, ◌++◌, OnOk, OnErr};
ghost use Rattle.br_fs.specs.Making.{IsBelow};
ghost use Rattle.br_sink_folder.specs.Below.{KeepsOutside};
ghost use Rattle.br_sink_folder.specs.Removed.{ChangesOne, HasNoFile, IsRemoved, MakesNoFile};

use crate::below_folder::{make_way, remove};
use crate::target_path::known_path_of;
use br_fs::{FileMaker, HostDisk, MemMaker};
use br_join::Item;
use br_sink::SinkFault;
use std::alloc::Global;
use std::fs::File;
use std::rt::Files;

/// A maker of files that removes them again.
///
/// No maker defines what a refused removal means. So a function over any remover can only meet "no
/// file is at the path, or its removal was refused" by trying to remove it.
pub trait Remover: FileMaker {
    ghost use Rattle.std.specs.Prelude.{⊤};

    /// What is at this path could not be removed.
    ghost is_refused: { List ℕ → Type 0 } = { λ _. ⊤ };

    /// Removes the file at a path below the folder. The names on its way are tested again.
    fn take_away(&mut self, root: &str, path: &str) -> Result<(), SinkFault>
        requires below { IsBelow root.now path.now }
        ensures removed { OnOk result (HasNoFile path.now (Self.nodes self.new)) }
        ensures refused { OnErr result (is_refused path.now) }
        ensures others { MakesNoFile (Self.nodes self.old) (Self.nodes self.new) }
        ensures rest { ChangesOne root.now path.now (Self.nodes self.old) (Self.nodes self.new) }
        ensures outside { KeepsOutside root.now (Self.nodes self.old) (Self.nodes self.new) };

    /// Removes the file of an item below the folder.
    fn take_item_away(&mut self, alloc: Global, root: &str, item: &Item) -> Result<(), SinkFault>
        ensures removed { OnOk result (HasNoFile (root.now ++ item.now.path) (Self.nodes self.new)) }
        ensures refused { OnErr result (is_refused (root.now ++ item.now.path)) }
        ensures others { MakesNoFile (Self.nodes self.old) (Self.nodes self.new) }
        ensures rest { ChangesOne root.now (root.now ++ item.now.path) (Self.nodes self.old) (Self.nodes self.new) }
        ensures outside { KeepsOutside root.now (Self.nodes self.old) (Self.nodes self.new) };
}

/// Removes the file at a path below the folder. The names on its way are tested again.
#[tactic(auto, using(crate::proofs::BelowLaws::outside_added, crate::proofs::BelowLaws::outside_then, crate::proofs::RemovalLaws::no_file_then, crate::proofs::RemovalLaws::no_file_added, crate::proofs::RemovalLaws::changes_added, crate::proofs::RemovalLaws::changes_then))]
fn remove_file<M: FileMaker>(maker: &mut M, root: &str, path: &str) -> Result<(), SinkFault>
    requires below { IsBelow root.now path.now }
    ensures removed { OnOk result (HasNoFile path.now (M.nodes maker.new)) }
    ensures others { MakesNoFile (M.nodes maker.old) (M.nodes maker.new) }
    ensures rest { ChangesOne root.now path.now (M.nodes maker.old) (M.nodes maker.new) }
    ensures outside { KeepsOutside root.now (M.nodes maker.old) (M.nodes maker.new) }
{
    make_way(maker, root, path)?;
    remove(maker, path)
}

/// Removes the file of an item below the folder.
#[tactic(auto, using(crate::proofs::BelowLaws::outside_same, crate::proofs::RemovalLaws::no_file_same, crate::proofs::RemovalLaws::changes_same))]
fn remove_item<M: FileMaker>(
    alloc: Global,
    maker: &mut M,
    root: &str,
    item: &Item,
) -> Result<(), SinkFault>
    ensures removed { OnOk result (HasNoFile (root.now ++ item.now.path) (M.nodes maker.new)) }
    ensures others { MakesNoFile (M.nodes maker.old) (M.nodes maker.new) }
    ensures rest { ChangesOne root.now (root.now ++ item.now.path) (M.nodes maker.old) (M.nodes maker.new) }
    ensures outside { KeepsOutside root.now (M.nodes maker.old) (M.nodes maker.new) }
{
    let path = known_path_of(alloc, root, item)?;
    remove_file(maker, root, path.as_str())
}

impl<F: Files<File = File> + Drop> Remover for HostDisk<F> {
    fn take_away(&mut self, root: &str, path: &str) -> Result<(), SinkFault> {
        remove_file(self, root, path)
    }

    fn take_item_away(&mut self, alloc: Global, root: &str, item: &Item) -> Result<(), SinkFault> {
        remove_item(alloc, self, root, item)
    }
}

impl Remover for MemMaker {
    fn take_away(&mut self, root: &str, path: &str) -> Result<(), SinkFault> {
        remove_file(self, root, path)
    }

    fn take_item_away(&mut self, alloc: Global, root: &str, item: &Item) -> Result<(), SinkFault> {
        remove_item(alloc, self, root, item)
    }
}

/// Removes the file at a path below the folder again, as far as possible.
pub(crate) fn take_back<M: Remover>(maker: &mut M, root: &str, path: &str)
    requires below { IsBelow root.now path.now }
    ensures removed { IsRemoved M.is_refused (M.nodes maker.new) path.now }
    ensures others { MakesNoFile (M.nodes maker.old) (M.nodes maker.new) }
    ensures rest { ChangesOne root.now path.now (M.nodes maker.old) (M.nodes maker.new) }
    ensures outside { KeepsOutside root.now (M.nodes maker.old) (M.nodes maker.new) }
{
    let _ = maker.take_away(root, path);
}

/// Removes the file of an item again, as far as possible.
pub(crate) fn take_item_back<M: Remover>(alloc: Global, maker: &mut M, root: &str, item: &Item)
    ensures removed { IsRemoved M.is_refused (M.nodes maker.new) (root.now ++ item.now.path) }
    ensures others { MakesNoFile (M.nodes maker.old) (M.nodes maker.new) }
    ensures rest { ChangesOne root.now (root.now ++ item.now.path) (M.nodes maker.old) (M.nodes maker.new) }
    ensures outside { KeepsOutside root.now (M.nodes maker.old) (M.nodes maker.new) }
{
    let _ = maker.take_item_away(alloc, root, item);
}
