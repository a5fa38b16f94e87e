//! Files that were made on disk one after another, and are written in threads.
ghost use Rattle.std.specs.Prelude.{◌≡◌, ℕ, ◌++◌, ◌∷◌, ◌<◌, ◌≤◌, [], true, false, length, vec_len, vec_capacity};
ghost use Rattle.std.specs.Prelude.{Option, Ok, IfErr, IfOk, OnErr, OnOk};
ghost use Rattle.std.specs.Thread.{IsSync};
ghost use Rattle.br_fs.specs.Making.{IsFinished, KeepsOthers};
ghost use Rattle.br_sink.specs.Delivery.{IsStopBelow};
ghost use Rattle.br_sink_folder.specs.Below.{KeepsOutside};
ghost use Rattle.br_sink_folder.specs.Held.{AppendsSome, AreAnswered, FinishesHeld, FinishesOne};
ghost use Rattle.br_sink_folder.specs.Held.{FinishesSome, HoldsStill, IsNew, IsWritten, LeavesHeld};
ghost use Rattle.br_sink_folder.specs.Held.{AppendsFrontSome, Rise, WritesEach, WritesOne};
ghost use Rattle.br_sink_folder.specs.Removed.{AreRemoved, AreRemovedFrom, ChangesOne, IsRemoved, MakesNoFile, files_of};
ghost use Rattle.br_sink_folder.specs.Stopped.{AnsweredBefore, KeepsBefore, StopsAtOne, StopsHeld};
ghost use Rattle.br_sink_folder.specs.Window.{AreBelow};

use crate::below_folder::{finish, write_fault};
use crate::remover::{Remover, take_item_back};
use crate::target_path::known_path_of;
use br_fs::{FileMaker, HostDisk, MemMaker, MemNew};
use br_join::Item;
use br_sink::{SinkFault, SinkStop};
use std::alloc::{AllocError, Global};
use std::fs::File;
use std::io::Write;
use std::rt::Files;
use std::thread;
use std::thread::Threads;

/// The largest number of files that are held open.
const MOST: usize = 16;

/// The number of bytes from which threads are worth starting.
const MANY_BYTES: u64 = 1 << 20;

/// A new file on disk, the item with its bytes, and the number of files before it. The file is
/// `None` once it is finished.
#[derive(Drop)]
pub struct Made<'i, W: Write + Drop> {
    pub(crate) file: Option<W>,
    pub(crate) item: &'i Item,
    pub(crate) place: u64,
    pub(crate) answer: Result<(), SinkFault>,
}

/// Writes the bytes of an item to its file, if there is one. If that fails, a first part of the
/// bytes may have been written.
fn write_bytes<W: Write>(file: &mut Option<W>, item: &Item) -> Result<(), SinkFault>
    ensures all { OnOk result (AppendsSome W.contents file.old file.new item.now.bytes) }
    ensures front { OnErr result (AppendsFrontSome W.contents file.old file.new item.now.bytes) }
{
    match file {
        None => Ok(()),
        Some(file) => match item.bytes.write_to(file) {
            Ok(()) => Ok(()),
            Err(error) => Err(write_fault(error)),
        },
    }
}

/// Closes the file of an item.
#[tactic(auto, using(crate::proofs::BelowLaws::outside_set, crate::proofs::BelowLaws::outside_same, crate::proofs::BelowLaws::same_others))]
fn close_file<M: FileMaker>(
    alloc: Global,
    maker: &mut M,
    root: &str,
    item: &Item,
    file: M::New,
) -> Result<(), SinkFault>
    ensures finished { OnOk result (IsFinished (root.now ++ item.now.path) (M.New.contents file) (M.nodes maker.old)
        (M.nodes maker.new)) }
    ensures others { KeepsOthers (root.now ++ item.now.path) (M.nodes maker.old) (M.nodes maker.new) }
    ensures outside { KeepsOutside root.now (M.nodes maker.old) (M.nodes maker.new) }
{
    let path = known_path_of(alloc, root, item)?;
    finish(maker, path.as_str(), file)
}

/// Closes the file of an item, unless it could not be written.
#[tactic(auto, using(crate::proofs::BelowLaws::outside_same, crate::proofs::BelowLaws::same_others))]
fn close<M: FileMaker>(
    alloc: Global,
    maker: &mut M,
    root: &str,
    item: &Item,
    file: M::New,
    written: Result<(), SinkFault>,
) -> Result<(), SinkFault>
    ensures written { OnOk result (written ≡ Ok tt) }
    ensures finished { OnOk result (IsFinished (root.now ++ item.now.path) (M.New.contents file) (M.nodes maker.old) (M.nodes maker.new)) }
    ensures others { KeepsOthers (root.now ++ item.now.path) (M.nodes maker.old) (M.nodes maker.new) }
    ensures outside { KeepsOutside root.now (M.nodes maker.old) (M.nodes maker.new) }
{
    written?;
    close_file(alloc, maker, root, item, file)
}

/// Closes the file of an item, if there is one.
#[tactic(auto, using(crate::proofs::BelowLaws::outside_same, crate::proofs::BelowLaws::same_others))]
fn close_some<M: FileMaker>(
    alloc: Global,
    maker: &mut M,
    root: &str,
    item: &Item,
    file: Option<M::New>,
    written: Result<(), SinkFault>,
) -> Result<(), SinkFault>
    ensures written { OnOk result (written ≡ Ok tt) }
    ensures finished { OnOk result (FinishesSome M.New.contents (root.now ++ item.now.path) file (M.nodes maker.old) (M.nodes maker.new)) }
    ensures others { KeepsOthers (root.now ++ item.now.path) (M.nodes maker.old) (M.nodes maker.new) }
    ensures outside { KeepsOutside root.now (M.nodes maker.old) (M.nodes maker.new) }
{
    match file {
        Some(file) => close(alloc, maker, root, item, file, written),
        None => written,
    }
}

impl<'i, W: Write + Drop> Made<'i, W> {
    /// Writes its bytes, and keeps the result.
    fn write(&mut self)
        ensures place { self.new.place ≡ self.old.place }
        ensures written { WritesOne W.contents self.old self.new }
    {
        self.answer = write_bytes(&mut self.file, self.item);
    }

    /// Closes the file, and keeps the result, unless one was kept already.
    fn finish<M: FileMaker<New = W>>(&mut self, alloc: Global, maker: &mut M, root: &str)
        ensures place { self.new.place ≡ self.old.place }
        ensures item { self.new.item.now ≡ self.old.item.now }
        ensures finished { FinishesOne W.contents root.now self.old self.new (M.nodes maker.old) (M.nodes maker.new) }
        ensures others { KeepsOthers (root.now ++ self.old.item.now.path) (M.nodes maker.old) (M.nodes maker.new) }
        ensures outside { KeepsOutside root.now (M.nodes maker.old) (M.nodes maker.new) }
    {
        let file = self.file.take();
        self.answer = close_some(alloc, maker, root, self.item, file, self.answer);
    }
}

/// Returns the number of threads to write this number of bytes in.
fn thread_count(bytes: u64) -> usize
    ensures { 0 < result }
{
    if bytes < MANY_BYTES { 1 } else { MOST }
}

/// A maker of files that defines how several of its new files are written. A method of a trait
/// can't send to threads what it knows only by its bounds, so each maker defines it for its own
/// files.
pub trait ManyWriter: Remover {
    /// Writes the files, in this number of threads.
    fn write_each<T: Threads + Sync>(threads: &T, made: &mut [Made<'_, Self::New>], count: usize)
        requires threads { IsSync T.row }
        requires some { 0 < count }
        ensures below { (n : ℕ) → AreBelow n made.old → AreBelow n made.new }
        ensures written { WritesEach Self.New.contents made.old made.new };
}

impl<F: Files<File = File> + Drop> ManyWriter for HostDisk<F> {
    fn write_each<T: Threads + Sync>(threads: &T, made: &mut [Made<'_, File>], count: usize) {
        write_in_threads(threads, made, count);
    }
}

impl ManyWriter for MemMaker {
    fn write_each<T: Threads + Sync>(threads: &T, made: &mut [Made<'_, MemNew>], count: usize) {
        write_in_threads(threads, made, count);
    }
}

/// Writes the files in this number of threads.
fn write_in_threads<W: Write + Drop + Send, T: Threads + Sync>(
    threads: &T,
    made: &mut [Made<'_, W>],
    count: usize,
)
    requires { 0 < count }
    ensures below { (n : ℕ) → AreBelow n made.old → AreBelow n made.new }
    ensures written { WritesEach W.contents made.old made.new }
{
    thread::for_each_mut(threads, made, count, &|_, one| one.write());
}

/// Closes the files.
#[tactic(auto, using(crate::proofs::HeldLaws::close_begin, crate::proofs::HeldLaws::close_end, crate::proofs::BelowLaws::outside_same))]
fn finish_each<W: Write + Drop, M: FileMaker<New = W>>(
    alloc: Global,
    maker: &mut M,
    root: &str,
    made: &mut [Made<'_, W>],
)
    ensures below { (n : ℕ) → AreBelow n made.old → AreBelow n made.new }
    ensures files { files_of made.new ≡ files_of made.old }
    ensures left { FinishesHeld W.contents root.now made.old made.new (M.nodes maker.old) (M.nodes maker.new) }
    ensures outside { KeepsOutside root.now (M.nodes maker.old) (M.nodes maker.new) }
{
    for i in 0..made.len() {
        made[i].finish(alloc, maker, root);
    }
}

/// Removes the file again if it is at the place or after it, as far as possible.
#[tactic(auto, using(crate::proofs::BelowLaws::outside_same, crate::proofs::RemovalLaws::no_file_same, crate::proofs::StopLaws::removes_one, crate::proofs::StopLaws::removes_none))]
fn remove_one<W: Write + Drop, M: Remover<New = W>>(
    alloc: Global,
    maker: &mut M,
    root: &str,
    one: &Made<'_, W>,
    place: u64,
)
    ensures removed { place ≤ one.now.place → IsRemoved M.is_refused (M.nodes maker.new) (root.now ++ one.now.item.now.path) }
    ensures others { MakesNoFile (M.nodes maker.old) (M.nodes maker.new) }
    ensures kept { KeepsBefore root.now place ((one.now.place, one.now.item.now.path) ∷ []) (M.nodes maker.old) (M.nodes maker.new) }
    ensures outside { KeepsOutside root.now (M.nodes maker.old) (M.nodes maker.new) }
{
    if place <= one.place {
        take_item_back(alloc, maker, root, one.item);
    }
}

/// Removes the files from this place on again, as far as possible.
#[tactic(auto, using(crate::proofs::BelowLaws::outside_more, crate::proofs::BelowLaws::outside_same, crate::proofs::StopLaws::keeps_none))]
fn remove_from<W: Write + Drop, M: Remover<New = W>>(
    alloc: Global,
    maker: &mut M,
    root: &str,
    made: &[Made<'_, W>],
    place: u64,
)
    ensures removed { AreRemoved M.is_refused root.now place (files_of made.now) (M.nodes maker.new) }
    ensures kept { KeepsBefore root.now place (files_of made.now) (M.nodes maker.old) (M.nodes maker.new) }
    ensures outside { KeepsOutside root.now (M.nodes maker.old) (M.nodes maker.new) }
{
    for one in made {
        remove_one(alloc, maker, root, one, place);
    }
}

/// Stops at the first file that could not be written.
#[tactic(auto, using(crate::proofs::WindowLaws::answered_more))]
fn settle<W: Write + Drop>(made: &[Made<'_, W>]) -> Result<(), SinkStop>
    ensures stopped { (n : ℕ) → AreBelow n made.now → IfErr result (IsStopBelow n) }
    ensures answered { OnOk result (AreAnswered made.now) }
    ensures one { IfErr result (StopsAtOne made.now) }
    ensures first { Rise (files_of made.now) → IfErr result (AnsweredBefore made.now) }
{
    for one in made {
        if let Err(fault) = one.answer {
            return Err(SinkStop::of_sink(fault, one.place));
        }
    }
    Ok(())
}

/// Closes the files that were written. If one could not be written, it and those after it are
/// removed again.
#[tactic(auto, using(crate::proofs::BelowLaws::outside_more))]
fn close_all<W: Write + Drop, M: Remover<New = W>>(
    alloc: Global,
    maker: &mut M,
    root: &str,
    made: &mut [Made<'_, W>],
) -> Result<(), SinkStop>
    ensures stopped { (n : ℕ) → AreBelow n made.old → IfErr result (IsStopBelow n) }
    ensures left { LeavesHeld (IsWritten W.contents root.now) root.now made.old (M.nodes maker.old) (M.nodes maker.new) result }
    ensures before { StopsHeld M.is_refused (IsWritten W.contents root.now) root.now made.old (M.nodes maker.old)
        (M.nodes maker.new) result }
    ensures removed { IfErr result (AreRemovedFrom M.is_refused root.now (files_of made.old) (M.nodes maker.new)) }
    ensures outside { KeepsOutside root.now (M.nodes maker.old) (M.nodes maker.new) }
{
    finish_each(alloc, maker, root, made);
    match settle(made) {
        Ok(()) => Ok(()),
        Err(stop) => {
            remove_from(alloc, maker, root, made, stop.done());
            Err(stop)
        }
    }
}

/// Writes the files, in this number of threads, and closes them.
#[tactic(auto, using(crate::proofs::HeldLaws::over_written))]
fn write_and_close<W: Write + Drop, M: ManyWriter<New = W>, T: Threads + Sync>(
    alloc: Global,
    maker: &mut M,
    threads: &T,
    root: &str,
    made: &mut [Made<'_, W>],
    count: usize,
) -> Result<(), SinkStop>
    requires { 0 < count }
    ensures stopped { (n : ℕ) → AreBelow n made.old → IfErr result (IsStopBelow n) }
    ensures left { LeavesHeld (IsNew W.contents root.now) root.now made.old (M.nodes maker.old) (M.nodes maker.new) result }
    ensures before { StopsHeld M.is_refused (IsNew W.contents root.now) root.now made.old (M.nodes maker.old) (M.nodes maker.new) result }
    ensures removed { IfErr result (AreRemovedFrom M.is_refused root.now (files_of made.old) (M.nodes maker.new)) }
    ensures outside { KeepsOutside root.now (M.nodes maker.old) (M.nodes maker.new) }
{
    M::write_each(threads, made, count);
    close_all(alloc, maker, root, made)
}

/// Files that are held open, at most 16.
#[derive(Drop)]
pub(crate) struct Window<'i, W: Write + Drop> {
    pub(crate) alloc: Global,
    made: Vec<Made<'i, W>>,
    bytes: u64,
}

impl<'i, W: Write + Drop> Window<'i, W> {
    /// Returns a window without files.
    pub(crate) fn new(alloc: Global) -> Window<'i, W>
        ensures { result.made.items ≡ [] }
    {
        Window {
            alloc,
            made: Vec::new(alloc),
            bytes: 0,
        }
    }

    /// Returns true if it is full.
    pub(crate) fn is_full(&self) -> bool
        ensures few { result ≡ false → length self.now.made.items < 16 }
        ensures full { result ≡ true → 16 ≤ length self.now.made.items }
    {
        self.made.len() >= MOST
    }

    /// Makes room for one more.
    pub(crate) fn make_room(&mut self) -> Result<(), AllocError>
        ensures same { self.new.made.items ≡ self.old.made.items }
        ensures room { OnOk result (vec_len self.new.made < vec_capacity self.new.made) }
    {
        self.made.reserve(1)?;
        Ok(())
    }

    /// Holds one more.
    pub(crate) fn hold(&mut self, one: Made<'i, W>)
        requires few { length self.old.made.items < 16 }
        requires room { vec_len self.old.made < vec_capacity self.old.made }
        ensures items { self.new.made.items ≡ self.old.made.items ++ one.entry ∷ [] }
        ensures most { length self.new.made.items ≤ 16 }
        ensures below { (n : ℕ) → AreBelow n self.old.made.items → one.entry.place < n → AreBelow n self.new.made.items }
    {
        let item = one.item;
        let bytes = item.bytes.len();
        self.made.push_reserved(one);
        self.bytes = self.bytes.saturating_add(bytes);
    }

    /// Writes all files and closes them, and holds none. Stops at the first that could not be
    /// written; it and those after it are removed again.
    pub(crate) fn write<M: ManyWriter<New = W>, T: Threads + Sync>(
        &mut self,
        maker: &mut M,
        threads: &T,
        root: &str,
    ) -> Result<(), SinkStop>
        requires most { length self.old.made.items ≤ 16 }
        ensures stopped { (n : ℕ) → AreBelow n self.old.made.items → IfErr result (IsStopBelow n) }
        ensures left { LeavesHeld (IsNew W.contents root.now) root.now self.old.made.items (M.nodes maker.old) (M.nodes maker.new) result }
        ensures before { StopsHeld M.is_refused (IsNew W.contents root.now) root.now self.old.made.items (M.nodes maker.old)
            (M.nodes maker.new) result }
        ensures removed { IfErr result (AreRemovedFrom M.is_refused root.now (files_of self.old.made.items) (M.nodes maker.new)) }
        ensures empty { self.new.made.items ≡ [] }
        ensures outside { KeepsOutside root.now (M.nodes maker.old) (M.nodes maker.new) }
    {
        let count = thread_count(self.bytes);
        let answer = write_and_close(self.alloc, maker, threads, root, &mut self.made, count);
        self.made.clear();
        self.bytes = 0;
        answer
    }

    /// Writes the files if it is full.
    #[tactic(auto, using(crate::proofs::BelowLaws::outside_same, crate::proofs::HeldLaws::over_again))]
    pub(crate) fn write_if_full<M: ManyWriter<New = W>, T: Threads + Sync>(
        &mut self,
        maker: &mut M,
        threads: &T,
        root: &str,
    ) -> Result<(), SinkStop>
        requires most { length self.old.made.items ≤ 16 }
        ensures few { OnOk result (length self.new.made.items < 16) }
        ensures waits { length self.old.made.items < 16 → self.new.made.items ≡ self.old.made.items }
        ensures stopped { (n : ℕ) → AreBelow n self.old.made.items → IfErr result (IsStopBelow n) }
        ensures below { (n : ℕ) → AreBelow n self.old.made.items → OnOk result (AreBelow n self.new.made.items) }
        ensures held { HoldsStill W.contents root.now self.old.made.items self.new.made.items (M.nodes maker.old)
            (M.nodes maker.new) result }
        ensures before { StopsHeld M.is_refused (IsNew W.contents root.now) root.now self.old.made.items (M.nodes maker.old)
            (M.nodes maker.new) result }
        ensures outside { KeepsOutside root.now (M.nodes maker.old) (M.nodes maker.new) }
    {
        if self.is_full() {
            self.write(maker, threads, root)
        } else {
            Ok(())
        }
    }
}
