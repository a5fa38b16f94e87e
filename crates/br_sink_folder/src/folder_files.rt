//! Puts several files at once into a folder.
ghost use Rattle.std.specs.Prelude.{◌≡◌, ℕ, ◌<◌, ◌≤◌, true, false, [], length, All, IfOk, OnErr, OnOk, IfErr};
ghost use Rattle.std.specs.Str.{IsUtf8};
ghost use Rattle.br_model.specs.File.{has_bytes};
ghost use Rattle.br_model.specs.Name.{is_directory};
ghost use Rattle.br_sink.specs.Delivery.{IsStopBelow, items_in};
ghost use Rattle.br_sink_folder.specs.Below.{AddsFolders, KeepsOutside};
ghost use Rattle.br_sink_folder.specs.FolderSink.{HasName, HasText, is_on_disk};
ghost use Rattle.br_sink_folder.specs.Held.{HoldsFile, HoldsMore, IsNew, LeavesFiles, LeavesMore, MakesOne};
ghost use Rattle.br_sink_folder.specs.Stopped.{IsLeftAfter, LeavesAtStop, StopsFile, StopsMore};
ghost use Rattle.br_sink_folder.specs.Way.{MakesFolders};
ghost use Rattle.br_sink_folder.specs.Window.{AreBelow};

use crate::below_folder::make_file;
use crate::single_file::write_item;
use crate::target_path::path_of;
use crate::window::{Made, ManyWriter, Window};
use br_fs::FileMaker;
use br_join::{Item, Outcome};
use br_sink::{SinkFault, SinkStop};
use br_types::FileKey;
use std::alloc::Global;
use std::io::Write;
use std::thread::Threads;

/// Creates the file and the folders on its way, if nothing has its name.
#[tactic(auto, using(crate::proofs::BelowLaws::outside_then, crate::proofs::BelowLaws::adds_same, crate::proofs::BelowLaws::adds_more))]
fn make<'i, W: Write + Drop, M: FileMaker<New = W>>(
    alloc: Global,
    maker: &mut M,
    root: &str,
    item: &'i Item,
    place: u64,
) -> Result<Made<'i, W>, SinkFault>
    ensures place { IfOk result (λ made. made.place ≡ place) }
    ensures item { IfOk result (λ made. made.item.now ≡ item.now) }
    ensures made { IfOk result (λ made. MakesOne W.contents root.now made (M.nodes maker.old) (M.nodes maker.new)) }
    ensures refused { OnErr result (AddsFolders root.now (M.nodes maker.old) (M.nodes maker.new)) }
    ensures text { OnOk result (IsUtf8 item.now.path) }
    ensures name { OnOk result (is_directory item.now.path ≡ false) }
    ensures outside { KeepsOutside root.now (M.nodes maker.old) (M.nodes maker.new) }
{
    let path = path_of(alloc, maker, root, item)?;
    let file = make_file(maker, path.as_str())?;
    Ok(Made {
        file: Some(file),
        item,
        place,
        answer: Ok(()),
    })
}

/// Makes the file, and holds it in the window.
#[tactic(auto, using(crate::proofs::BelowLaws::outside_same, crate::proofs::BelowLaws::adds_same, crate::proofs::HeldLaws::over_more))]
fn hold<'i, W: Write + Drop, M: FileMaker<New = W>>(
    maker: &mut M,
    root: &str,
    window: &mut Window<'i, W>,
    item: &'i Item,
    place: u64,
) -> Result<(), SinkFault>
    requires { length window.old.made.items < 16 }
    ensures most { length window.new.made.items ≤ 16 }
    ensures below { (n : ℕ) → AreBelow n window.old.made.items → place < n → AreBelow n window.new.made.items }
    ensures held { HoldsFile W.contents root.now item.now place window.old.made.items window.new.made.items (M.nodes maker.old)
        (M.nodes maker.new) result }
    ensures added { OnErr result (AddsFolders root.now (M.nodes maker.old) (M.nodes maker.new)) }
    ensures kept { OnErr result (window.new.made.items ≡ window.old.made.items) }
    ensures text { OnOk result (IsUtf8 item.now.path) }
    ensures name { OnOk result (is_directory item.now.path ≡ false) }
    ensures outside { KeepsOutside root.now (M.nodes maker.old) (M.nodes maker.new) }
{
    // Room is made first, so that each file that was made is held.
    window.make_room()?;
    let one = make(window.alloc, maker, root, item, place)?;
    window.hold(one);
    Ok(())
}

/// Writes the files of the window, and then the item.
#[tactic(auto, using(crate::proofs::BelowLaws::outside_more, crate::proofs::HeldLaws::leaves_all))]
fn put_alone<'i, W: Write + Drop, M: ManyWriter<New = W>>(
    maker: &mut M,
    root: &str,
    threads: &(impl Threads + Sync),
    window: &mut Window<'i, W>,
    item: &'i Item,
    place: u64,
) -> Result<(), SinkStop>
    requires { length window.old.made.items < 16 }
    ensures stopped { (n : ℕ) → AreBelow n window.old.made.items → place < n → IfErr result (IsStopBelow n) }
    ensures left { LeavesMore (IsNew W.contents root.now) root.now item.now window.old.made.items (M.nodes maker.old)
        (M.nodes maker.new) result }
    ensures before { StopsMore M.is_refused W.contents root.now item.now place window.old.made.items (M.nodes maker.old)
        (M.nodes maker.new) result }
    ensures empty { window.new.made.items ≡ [] }
    ensures text { OnOk result (is_on_disk item.now.kind ≡ true → IsUtf8 item.now.path) }
    ensures name { OnOk result (has_bytes item.now.kind ≡ true → is_directory item.now.path ≡ false) }
    ensures outside { KeepsOutside root.now (M.nodes maker.old) (M.nodes maker.new) }
{
    window.write(maker, threads, root)?;
    match write_item(window.alloc, maker, root, item) {
        Ok(()) => Ok(()),
        Err(fault) => Err(SinkStop::of_sink(fault, place)),
    }
}

/// Holds a new file in the window, and writes the window if it is full. Other items are put alone.
#[tactic(auto, using(crate::proofs::BelowLaws::outside_more, crate::proofs::HeldLaws::over_folders, crate::proofs::HeldLaws::over_again))]
fn put_file<'i, W: Write + Drop, M: ManyWriter<New = W>>(
    maker: &mut M,
    root: &str,
    threads: &(impl Threads + Sync),
    window: &mut Window<'i, W>,
    item: &'i Item,
    place: u64,
) -> Result<(), SinkStop>
    requires { length window.old.made.items < 16 }
    ensures few { OnOk result (length window.new.made.items < 16) }
    ensures stopped { (n : ℕ) → AreBelow n window.old.made.items → place < n → IfErr result (IsStopBelow n) }
    ensures below { (n : ℕ) → AreBelow n window.old.made.items → place < n → OnOk result (AreBelow n window.new.made.items) }
    ensures held { HoldsFile W.contents root.now item.now place window.old.made.items window.new.made.items (M.nodes maker.old)
        (M.nodes maker.new) result }
    ensures before { StopsFile M.is_refused W.contents root.now item.now place window.old.made.items (M.nodes maker.old)
        (M.nodes maker.new) result }
    ensures text { OnOk result (is_on_disk item.now.kind ≡ true → IsUtf8 item.now.path) }
    ensures name { OnOk result (has_bytes item.now.kind ≡ true → is_directory item.now.path ≡ false) }
    ensures outside { KeepsOutside root.now (M.nodes maker.old) (M.nodes maker.new) }
{
    if hold(maker, root, window, item, place).is_err() {
        return put_alone(maker, root, threads, window, item, place);
    }
    window.write_if_full(maker, threads, root)
}

/// Puts the item on disk, or holds it in the window, as its type requires.
#[tactic(auto, using(crate::proofs::BelowLaws::outside_same, crate::proofs::HeldLaws::over_other, crate::proofs::HeldLaws::over_again))]
fn put_next<'i, W: Write + Drop, M: ManyWriter<New = W>>(
    maker: &mut M,
    root: &str,
    threads: &(impl Threads + Sync),
    window: &mut Window<'i, W>,
    item: &'i Item,
    place: u64,
) -> Result<(), SinkStop>
    requires { length window.old.made.items < 16 }
    ensures few { OnOk result (length window.new.made.items < 16) }
    ensures stopped { (n : ℕ) → AreBelow n window.old.made.items → place < n → IfErr result (IsStopBelow n) }
    ensures below { (n : ℕ) → AreBelow n window.old.made.items → place < n → OnOk result (AreBelow n window.new.made.items) }
    ensures held { HoldsMore W.contents root.now item.now place window.old.made.items window.new.made.items (M.nodes maker.old)
        (M.nodes maker.new) result }
    ensures before { StopsMore M.is_refused W.contents root.now item.now place window.old.made.items (M.nodes maker.old)
        (M.nodes maker.new) result }
    ensures text { OnOk result (is_on_disk item.now.kind ≡ true → IsUtf8 item.now.path) }
    ensures name { OnOk result (has_bytes item.now.kind ≡ true → is_directory item.now.path ≡ false) }
    ensures outside { KeepsOutside root.now (M.nodes maker.old) (M.nodes maker.new) }
{
    match item.kind {
        2 | 3 => put_file(maker, root, threads, window, item, place),
        5 => put_alone(maker, root, threads, window, item, place),
        _ => Ok(()),
    }
}

/// Puts the files among the outcomes on disk.
#[tactic(auto, using(crate::proofs::BelowLaws::outside_more, crate::proofs::BelowLaws::outside_same))]
pub(crate) fn put_each<W: Write + Drop, M: ManyWriter<New = W>>(
    alloc: Global,
    maker: &mut M,
    root: &str,
    threads: &(impl Threads + Sync),
    outcomes: &[(FileKey, Outcome)],
) -> Result<(), SinkStop>
    ensures stopped { IfErr result (IsStopBelow (length (items_in outcomes.now))) }
    ensures text { OnOk result (All HasText (items_in outcomes.now)) }
    ensures name { OnOk result (All HasName (items_in outcomes.now)) }
    ensures files { OnOk result (LeavesFiles root.now (items_in outcomes.now) (M.nodes maker.old) (M.nodes maker.new)) }
    ensures folders { OnOk result (MakesFolders root.now (items_in outcomes.now) (M.nodes maker.new)) }
    ensures before { IfErr result (LeavesAtStop root.now (items_in outcomes.now) (M.nodes maker.old) (M.nodes maker.new)) }
    ensures after { IfErr result (IsLeftAfter M.is_refused root.now (items_in outcomes.now) (M.nodes maker.old) (M.nodes maker.new)) }
    ensures outside { KeepsOutside root.now (M.nodes maker.old) (M.nodes maker.new) }
{
    let mut window = Window::new(alloc);
    let mut done = 0;
    for (_, outcome) in outcomes {
        if let Outcome::File(item) = outcome {
            put_next(maker, root, threads, &mut window, item, done)?;
            done += 1;
        }
    }
    window.write(maker, threads, root)
}
