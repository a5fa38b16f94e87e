//! A sink over a folder that may hold files already.
ghost use Rattle.std.specs.Prelude.{◌≡◌, ◌++◌, ◌∷◌, [], ◌<◌, ◌≤◌, true, length, IfOk, OnOk, OnErr, IfErr, IfSome, Ok, Err, None};
ghost use Rattle.std.specs.Thread.{IsSync};
ghost use Rattle.br_fs.specs.Making.{IsEmptyAt, IsKindAt};
ghost use Rattle.br_fs.specs.declared.kind.Kind.TheVariants.{Folder};
ghost use Rattle.br_sink.specs.Delivery.{IsStopBelow, items_in, items_put};
ghost use Rattle.br_sink.specs.FileParts.{AreAlike, with_bytes};
ghost use Rattle.br_sink.specs.Sink.{HasMore};
ghost use Rattle.br_sink.specs.TwoParts.{AreTwoAlike, AreTwoSame, FailsTwo, LosesTwo, NotChanged, two_put};
ghost use Rattle.br_sink.specs.declared.fault.SinkFault.TheVariants.{Fault};
ghost use Rattle.br_sink.specs.declared.file_parts.PartsFault.TheVariants as why;
ghost use Rattle.br_sink_folder.specs.Below.{KeepsOutside};
ghost use Rattle.br_sink_folder.specs.Fault.{IsRefused};
ghost use Rattle.br_sink_folder.specs.Held.{LeavesFiles};
ghost use Rattle.br_sink_folder.specs.Removed.{ChangesOne, GivesUp};
ghost use Rattle.br_sink_folder.specs.There.{IsNotThere};
ghost use Rattle.br_sink_folder.specs.TwoFiles.{LeavesTwo};
ghost use Rattle.br_sink_folder.specs.Resuming.{IsLikeAfter, KeepsWhole, LeavesLike, LeavesLikeAtStop, PutsBytes, PutsLike, StaysThere};
ghost use Rattle.br_sink_folder.specs.Way.{MakesFolder, MakesFolders};
ghost use Rattle.br_types.specs.declared.wanted.Start.TheVariants.{Empty, Resumed};

use crate::fault::FolderFault;
use crate::folder_sink::FolderSink;
use crate::resumed_delivery::{put_each, put_missing, put_missing_parts};
use crate::window::ManyWriter;
use br_fs::{Comparer, FileMaker};
use br_join::{FileBytes, Item, Outcome};
use br_sink::{Parts, PartsFault, Sink, SinkFault, SinkStop, TwoParts, TwoPut};
use br_types::{FileKey, Start};
use std::alloc::Global;
use std::marker::Model;
use std::thread::Threads;

/// A sink over a folder. If the delivery is resumed, the folder may hold files: one with the length
/// and the digest of the file to put stays as it is, and one that differs is removed and made anew.
/// Anything in the folder that is not in the place of a delivered file stays as it is.
#[derive(Drop)]
pub struct Resuming<M: FileMaker + Drop> {
    start: Start,
    folder: FolderSink<M>,
}

impl<M: FileMaker + Drop> Model for Resuming<M> {
    ghost use Rattle.br_sink_folder.specs.Resuming.{InResuming};

    ghost Value = { InResuming };

    ghost view = { λ s. record { start = s.start; folder = s.folder } };
}

/// Makes the sink over the folder.
fn folder_sink<M: FileMaker + Drop>(
    alloc: Global,
    maker: M,
    path: &str,
    start: Start,
) -> Result<FolderSink<M>, FolderFault>
    ensures sink { IfOk result (λ sink. sink ≡ record { nodes = M.nodes maker; path = path.now; failures = 0 }) }
    ensures empty { start ≡ Empty → OnOk result (IsEmptyAt (M.nodes maker) path.now true) }
    ensures refused { start ≡ Empty → IfErr result (IsRefused (M.is_steady maker) (M.nodes maker) path.now) }
    ensures there { start ≡ Resumed → OnOk result (IsKindAt (M.nodes maker) path.now Folder) }
    ensures missing { start ≡ Resumed → IfErr result (IsNotThere (M.is_steady maker) (M.nodes maker) path.now) }
{
    match start {
        Start::Empty => FolderSink::new(alloc, maker, path),
        Start::Resumed => FolderSink::resume(alloc, maker, path),
    }
}

impl<M: FileMaker + Drop> Resuming<M> {
    /// Creates a sink over the folder with this path. This maker makes its files. The folder is
    /// empty, unless the delivery is resumed. Nothing is written yet.
    ///
    /// `NotEmpty` if the folder does not exist, can't be read, or has something in it that it may not have.
    pub fn new(
        alloc: Global,
        maker: M,
        path: &str,
        start: Start,
    ) -> Result<Resuming<M>, FolderFault>
        ensures start { IfOk result (λ sink. sink.start ≡ start) }
        ensures folder { IfOk result (λ sink. sink.folder ≡ record { nodes = M.nodes maker; path = path.now; failures = 0 }) }
        ensures empty { start ≡ Empty → OnOk result (IsEmptyAt (M.nodes maker) path.now true) }
        ensures refused { start ≡ Empty → IfErr result (IsRefused (M.is_steady maker) (M.nodes maker) path.now) }
        ensures there { start ≡ Resumed → OnOk result (IsKindAt (M.nodes maker) path.now Folder) }
        ensures missing { start ≡ Resumed → IfErr result (IsNotThere (M.is_steady maker) (M.nodes maker) path.now) }
    {
        let folder = folder_sink(alloc, maker, path, start)?;
        Ok(Resuming { start, folder })
    }

    /// Returns the maker of its files.
    pub fn into_maker(self) -> M
        ensures { M.nodes result ≡ self.folder.nodes }
    {
        self.folder.into_maker()
    }
}

impl<M: ManyWriter + Comparer + Drop> Sink for Resuming<M> {
    ghost use Rattle.br_sink_folder.specs.FolderSink.{told};

    // A folder tells no files, so `put` and `refused` below hold of every call. They repeat the trait's clauses.
    ghost has = { λ _. told };

    ghost failures = { λ s. s.folder.failures };

    /// Puts the file below the folder, unless it is there already and the delivery is resumed.
    #[tactic(auto, using(crate::proofs::LikeLaws::puts_same))]
    fn put(&mut self, item: &Item) -> Result<(), SinkFault>
        ensures put { OnOk result (HasMore (item.now ∷ []) told told) }
        ensures refused { OnErr result (told ≡ told) }
        ensures counted { self.old.folder.failures ≤ self.new.folder.failures }
        ensures failed { result ≡ Err Fault → self.old.folder.failures < self.new.folder.failures }
        ensures path { self.new.folder.path ≡ self.old.folder.path }
        ensures file { OnOk result (PutsLike self.old.folder.path item.now self.old.folder.nodes self.new.folder.nodes) }
        ensures folder { OnOk result (MakesFolder self.old.folder.path item.now self.new.folder.nodes) }
        ensures stays { StaysThere self.old.start self.old.folder.path item.now self.old.folder.nodes self.new.folder.nodes }
        ensures rest { ChangesOne self.old.folder.path (self.old.folder.path ++ item.now.path) self.old.folder.nodes self.new.folder.nodes }
        ensures removed { OnErr result (GivesUp M.is_refused self.old.folder.path item.now.path self.old.folder.nodes
            self.new.folder.nodes) }
        ensures outside { KeepsOutside self.old.folder.path self.old.folder.nodes self.new.folder.nodes }
    {
        match self.start {
            Start::Empty => self.folder.put(item),
            Start::Resumed => put_missing(&mut self.folder, item),
        }
    }

    /// Puts each of the files, as `put` does: one after another if the delivery is resumed, else as
    /// the sink over the folder puts them.
    #[tactic(auto, using(crate::proofs::LikeLaws::leaves_same, crate::proofs::LikeLaws::after_same, crate::proofs::LikeLaws::stops_same))]
    fn put_all<R: Threads + Sync>(
        &mut self,
        threads: &R,
        outcomes: &[(FileKey, Outcome)],
    ) -> Result<(), SinkStop>
        requires threads { IsSync R.row }
        ensures put { HasMore (items_put result (items_in outcomes.now)) told told }
        ensures stopped { IfErr result (IsStopBelow (length (items_in outcomes.now))) }
        ensures counted { self.old.folder.failures ≤ self.new.folder.failures }
        ensures failed { IfErr result (λ stop. stop.number ≡ 80 → self.old.folder.failures < self.new.folder.failures) }
        ensures path { self.new.folder.path ≡ self.old.folder.path }
        ensures files { OnOk result (LeavesLike self.old.folder.path (items_in outcomes.now) self.old.folder.nodes self.new.folder.nodes) }
        ensures folders { OnOk result (MakesFolders self.old.folder.path (items_in outcomes.now) self.new.folder.nodes) }
        ensures whole { self.old.start ≡ Empty
            → OnOk result (LeavesFiles self.old.folder.path (items_in outcomes.now) self.old.folder.nodes self.new.folder.nodes) }
        ensures before { IfErr result (LeavesLikeAtStop self.old.folder.path (items_in outcomes.now) self.old.folder.nodes self.new.folder.nodes) }
        ensures after { IfErr result (IsLikeAfter M.is_refused (items_in outcomes.now) self.old.folder self.new.folder) }
        ensures stays { self.old.start ≡ Resumed
            → KeepsWhole self.old.folder.path (items_in outcomes.now) self.old.folder.nodes self.new.folder.nodes }
        ensures outside { KeepsOutside self.old.folder.path self.old.folder.nodes self.new.folder.nodes }
    {
        match self.start {
            Start::Empty => self.folder.put_all(threads, outcomes),
            Start::Resumed => put_each(&mut self.folder, outcomes),
        }
    }

    /// Puts a file like this one, whose bytes are read again while it is written. If the delivery
    /// is resumed and a file like it is there already, that one stays, and nothing is read again.
    #[tactic(auto, using(crate::proofs::LikeLaws::puts_parts))]
    fn put_parts<P: Parts>(
        &mut self,
        alloc: Global,
        item: &Item,
        parts: &mut P,
    ) -> Result<FileBytes, PartsFault>
        ensures put { IfOk result (λ bytes. HasMore (with_bytes item.now bytes ∷ []) told told) }
        ensures alike { IfOk result (λ bytes. AreAlike bytes item.now.bytes) }
        ensures same { IfOk result (λ bytes. P.gives parts.old item.now → bytes ≡ item.now.bytes) }
        ensures changed { result ≡ Err why.Changed → P.gives parts.old item.now → ⊥ }
        ensures lost { result ≡ Err why.NoDriveLeft → P.loses parts.old parts.new }
        ensures refused { OnErr result (told ≡ told) }
        ensures counted { self.old.folder.failures ≤ self.new.folder.failures }
        ensures failed { result ≡ Err why.Fault → self.old.folder.failures < self.new.folder.failures }
        ensures on { P.goes_on parts.old parts.new }
        ensures path { self.new.folder.path ≡ self.old.folder.path }
        ensures file { OnOk result (PutsLike self.old.folder.path item.now self.old.folder.nodes self.new.folder.nodes) }
        ensures folder { OnOk result (MakesFolder self.old.folder.path item.now self.new.folder.nodes) }
        ensures whole { self.old.start ≡ Empty
            → IfOk result (λ bytes. PutsBytes self.old.folder.path item.now bytes self.old.folder.nodes self.new.folder.nodes) }
        ensures stays { StaysThere self.old.start self.old.folder.path item.now self.old.folder.nodes self.new.folder.nodes }
        ensures outside { KeepsOutside self.old.folder.path self.old.folder.nodes self.new.folder.nodes }
    {
        match self.start {
            Start::Empty => self.folder.put_parts(alloc, item, parts),
            Start::Resumed => put_missing_parts(alloc, &mut self.folder, item, parts),
        }
    }

    /// Puts two files like these side by side, as the sink over the folder does. If the delivery is resumed it
    /// puts one file at a time, since either may be there already.
    fn put_two<P: TwoParts>(
        &mut self,
        alloc: Global,
        one: &Item,
        other: &Item,
        parts: &mut P,
    ) -> Option<TwoPut>
        ensures put { HasMore (two_put one.now other.now result) told told }
        ensures alike { IfSome result (AreTwoAlike one.now other.now) }
        ensures same { P.gives parts.old one.now other.now → IfSome result (AreTwoSame one.now other.now) }
        ensures changed { P.gives parts.old one.now other.now → IfSome result NotChanged }
        ensures lost { LosesTwo result → P.loses parts.old parts.new }
        ensures counted { self.old.folder.failures ≤ self.new.folder.failures }
        ensures failed { FailsTwo result → self.old.folder.failures < self.new.folder.failures }
        ensures on { P.goes_on parts.old parts.new }
        ensures path { self.new.folder.path ≡ self.old.folder.path }
        ensures files { IfSome result (LeavesTwo self.old.folder.path one.now other.now self.old.folder.nodes self.new.folder.nodes) }
        ensures resumed { self.old.start ≡ Resumed → result ≡ None }
        ensures outside { KeepsOutside self.old.folder.path self.old.folder.nodes self.new.folder.nodes }
    {
        match self.start {
            Start::Empty => self.folder.put_two(alloc, one, other, parts),
            Start::Resumed => None,
        }
    }
}
