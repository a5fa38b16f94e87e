//! Puts files into a folder that may hold some of them.
ghost use Rattle.std.specs.Prelude.{◌≡◌, ◌++◌, ◌<◌, ◌≤◌, true, false, length, IfOk, OnErr, OnOk, IfErr, Err};
ghost use Rattle.br_model.specs.File.{has_bytes};
ghost use Rattle.br_sink.specs.Delivery.{IsStopBelow, items_in};
ghost use Rattle.br_sink.specs.FileParts.{AreAlike};
ghost use Rattle.br_sink.specs.declared.fault.SinkFault.TheVariants.{Fault};
ghost use Rattle.br_sink.specs.declared.file_parts.PartsFault.TheVariants as why;
ghost use Rattle.br_sink_folder.specs.Below.{AddsFolders, KeepsOutside};
ghost use Rattle.br_sink_folder.specs.Removed.{ChangesOne, GivesUp};
ghost use Rattle.br_sink_folder.specs.There.{IsThere};
ghost use Rattle.br_sink_folder.specs.Resuming.{IsLikeAfter, KeepsWhole, LeavesLike, LeavesLikeAtStop, PutsLike};
ghost use Rattle.br_sink_folder.specs.Way.{MakesFolder, MakesFolders};

use crate::folder_sink::FolderSink;
use crate::window::ManyWriter;
use br_fs::Comparer;
use br_join::{FileBytes, Item, Outcome};
use br_sink::{Parts, PartsFault, Sink, SinkFault, SinkStop};
use br_types::FileKey;
use std::alloc::Global;

/// Puts a file, unless it is there already. One that differs is removed, and made anew.
#[tactic(auto, using(crate::proofs::LikeLaws::puts_there, crate::proofs::LikeLaws::puts_after, crate::proofs::LikeLaws::outside_after, crate::proofs::LikeLaws::outside_only, crate::proofs::LikeLaws::adds_both, crate::proofs::LikeLaws::stays_there, crate::proofs::LikeLaws::changes_only, crate::proofs::LikeLaws::gives_only))]
pub(crate) fn put_missing<M: ManyWriter + Comparer + Drop>(
    sink: &mut FolderSink<M>,
    item: &Item,
) -> Result<(), SinkFault>
    ensures counted { sink.old.failures ≤ sink.new.failures }
    ensures failed { result ≡ Err Fault → sink.old.failures < sink.new.failures }
    ensures path { sink.new.path ≡ sink.old.path }
    ensures file { OnOk result (PutsLike sink.old.path item.now sink.old.nodes sink.new.nodes) }
    ensures folder { OnOk result (MakesFolder sink.old.path item.now sink.new.nodes) }
    ensures stays { has_bytes item.now.kind ≡ true → IsThere sink.old.path item.now sink.old.nodes
        → AddsFolders sink.old.path sink.old.nodes sink.new.nodes }
    ensures folders { has_bytes item.now.kind ≡ false → AddsFolders sink.old.path sink.old.nodes sink.new.nodes }
    ensures rest { ChangesOne sink.old.path (sink.old.path ++ item.now.path) sink.old.nodes sink.new.nodes }
    ensures removed { OnErr result (GivesUp M.is_refused sink.old.path item.now.path sink.old.nodes sink.new.nodes) }
    ensures outside { KeepsOutside sink.old.path sink.old.nodes sink.new.nodes }
{
    if sink.is_put(item)? {
        Ok(())
    } else {
        sink.put(item)
    }
}

/// Puts a file like this one, whose bytes are read again while it is written. If it is there
/// already, the bytes are not read.
#[tactic(auto, using(crate::proofs::LikeLaws::outside_only, crate::proofs::LikeLaws::adds_both, crate::proofs::LikeLaws::stays_there))]
pub(crate) fn put_missing_parts<M: ManyWriter + Comparer + Drop, P: Parts>(
    alloc: Global,
    sink: &mut FolderSink<M>,
    item: &Item,
    parts: &mut P,
) -> Result<FileBytes, PartsFault>
    ensures alike { IfOk result (λ bytes. AreAlike bytes item.now.bytes) }
    ensures same { IfOk result (λ bytes. P.gives parts.old item.now → bytes ≡ item.now.bytes) }
    ensures changed { result ≡ Err why.Changed → P.gives parts.old item.now → ⊥ }
    ensures lost { result ≡ Err why.NoDriveLeft → P.loses parts.old parts.new }
    ensures on { P.goes_on parts.old parts.new }
    ensures counted { sink.old.failures ≤ sink.new.failures }
    ensures failed { result ≡ Err why.Fault → sink.old.failures < sink.new.failures }
    ensures path { sink.new.path ≡ sink.old.path }
    ensures file { OnOk result (PutsLike sink.old.path item.now sink.old.nodes sink.new.nodes) }
    ensures folder { OnOk result (MakesFolder sink.old.path item.now sink.new.nodes) }
    ensures stays { has_bytes item.now.kind ≡ true → IsThere sink.old.path item.now sink.old.nodes
        → AddsFolders sink.old.path sink.old.nodes sink.new.nodes }
    ensures folders { has_bytes item.now.kind ≡ false → AddsFolders sink.old.path sink.old.nodes sink.new.nodes }
    ensures outside { KeepsOutside sink.old.path sink.old.nodes sink.new.nodes }
{
    let known = item.bytes.share(alloc)?;
    let is_there = sink.is_put(item)?;
    if is_there {
        Ok(known)
    } else {
        sink.put_parts(alloc, item, parts)
    }
}

/// Puts the files among the outcomes, one after another, unless they are there already. If a path
/// occurs twice, the file that is there may be that of either.
pub(crate) fn put_each<M: ManyWriter + Comparer + Drop>(
    sink: &mut FolderSink<M>,
    outcomes: &[(FileKey, Outcome)],
) -> Result<(), SinkStop>
    ensures stopped { IfErr result (IsStopBelow (length (items_in outcomes.now))) }
    ensures counted { sink.old.failures ≤ sink.new.failures }
    ensures failed { IfErr result (λ stop. stop.number ≡ 80 → sink.old.failures < sink.new.failures) }
    ensures path { sink.new.path ≡ sink.old.path }
    ensures files { OnOk result (LeavesLike sink.old.path (items_in outcomes.now) sink.old.nodes sink.new.nodes) }
    ensures folders { OnOk result (MakesFolders sink.old.path (items_in outcomes.now) sink.new.nodes) }
    ensures before { IfErr result (LeavesLikeAtStop sink.old.path (items_in outcomes.now) sink.old.nodes sink.new.nodes) }
    ensures after { IfErr result (IsLikeAfter M.is_refused (items_in outcomes.now) sink.old sink.new) }
    ensures stays { KeepsWhole sink.old.path (items_in outcomes.now) sink.old.nodes sink.new.nodes }
    ensures outside { KeepsOutside sink.old.path sink.old.nodes sink.new.nodes }
{
    let mut done = 0;
    for (_, outcome) in outcomes {
        if let Outcome::File(item) = outcome {
            if let Err(fault) = put_missing(sink, item) {
                return Err(SinkStop::of_sink(fault, done));
            }
            done += 1;
        }
    }
    Ok(())
}
