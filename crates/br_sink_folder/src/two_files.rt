//! Puts two files side by side. Their bytes are read again while both are written.
ghost use Rattle.std.specs.Prelude.{◌≡◌, ◌++◌, true, false, ℕ, List, Option, IfOk, IfSome, IsSome, OnErr, OnOk, string_bytes, Err};
ghost use Rattle.std.specs.Str.{IsUtf8};
ghost use Rattle.br_model.specs.File.{has_bytes};
ghost use Rattle.br_model.specs.Name.{is_directory};
ghost use Rattle.br_fs.specs.Making.{IsBelow, IsFinished, Nodes};
ghost use Rattle.br_sink.specs.TwoParts.{AreTwoAlike, AreTwoSame, IsLost, LosesTwo, NotChanged};
ghost use Rattle.br_sink.specs.declared.two_parts.TwoPut.TheVariants as two;
ghost use Rattle.br_sink.specs.declared.file_parts.PartsFault.TheVariants as why;
ghost use Rattle.br_sink_folder.specs.Below.{AddsFolders, KeepsOutside};
ghost use Rattle.br_sink_folder.specs.FolderSink.{HasName, HasText};
ghost use Rattle.br_sink_folder.specs.Removed.{ChangesOne, GivesUp, IsRemoved};
ghost use Rattle.br_sink_folder.specs.TwoFiles.{AreBothRemoved, ClosesPaths, HavePathsBelow, IsNewBelow, IsPairRemoved, IsRestRemoved};
ghost use Rattle.br_sink_folder.specs.TwoFiles.{LeavesNew, LeavesTwo, MakesFree, PutsAtMost};

use crate::below_folder::{finish, make_file};
use crate::remover::{Remover, take_back};
use crate::target_path::path_of;
use br_fs::FileMaker;
use br_join::{FileBytes, Item};
use br_sink::{PartsFault, SinkFault, TwoParts, TwoPut};
use std::alloc::Global;
use std::io::Write;

/// Two files that are put side by side below a folder.
#[derive(Drop)]
pub(crate) struct Pair<'i> {
    pub(crate) root: &'i str,
    pub(crate) one: &'i Item,
    pub(crate) other: &'i Item,
}

/// A new file, and its path.
#[derive(Drop)]
struct NewFile<W: Write + Drop> {
    file: W,
    path: String,
}

/// A folder, and the paths of two files below it.
#[derive(Drop)]
struct Paths<'p> {
    root: &'p str,
    one: &'p str,
    other: &'p str,
}

/// Returns whether the item is a file with bytes.
fn is_file(item: &Item) -> bool
    ensures { result ≡ has_bytes item.now.kind }
{
    item.kind == 2 || item.kind == 3
}

/// Creates the file and the folders on its way, if nothing has its name.
#[tactic(auto, using(crate::proofs::BelowLaws::outside_then, crate::proofs::BelowLaws::adds_same, crate::proofs::BelowLaws::adds_more, crate::proofs::TwoLaws::makes_free))]
fn make_new<M: FileMaker>(
    alloc: Global,
    maker: &mut M,
    root: &str,
    item: &Item,
) -> Result<NewFile<M::New>, SinkFault>
    ensures path { IfOk result (IsNewBelow root.now item.now.path) }
    ensures made { IfOk result (λ new. MakesFree root.now (string_bytes new.path) (M.New.contents new.file) (M.nodes maker.old)
        (M.nodes maker.new)) }
    ensures refused { OnErr result (AddsFolders root.now (M.nodes maker.old) (M.nodes maker.new)) }
    ensures text { OnOk result (IsUtf8 item.now.path) }
    ensures name { OnOk result (is_directory item.now.path ≡ false) }
    ensures outside { KeepsOutside root.now (M.nodes maker.old) (M.nodes maker.new) }
{
    let path = path_of(alloc, maker, root, item)?;
    let file = make_file(maker, path.as_str())?;
    Ok(NewFile { file, path })
}

/// Creates the second file, if nothing has its name. If that fails, removes the first again, as far
/// as possible.
#[tactic(auto, using(crate::proofs::BelowLaws::outside_more))]
fn make_second<M: Remover>(
    alloc: Global,
    maker: &mut M,
    root: &str,
    first: &str,
    item: &Item,
) -> Result<NewFile<M::New>, SinkFault>
    requires below { IsBelow root.now first.now }
    ensures path { IfOk result (IsNewBelow root.now item.now.path) }
    ensures made { IfOk result (λ new. MakesFree root.now (string_bytes new.path) (M.New.contents new.file) (M.nodes maker.old)
        (M.nodes maker.new)) }
    ensures removed { OnErr result (IsRemoved M.is_refused (M.nodes maker.new) first.now) }
    ensures text { OnOk result (IsUtf8 item.now.path) }
    ensures name { OnOk result (is_directory item.now.path ≡ false) }
    ensures outside { KeepsOutside root.now (M.nodes maker.old) (M.nodes maker.new) }
{
    match make_new(alloc, maker, root, item) {
        Ok(new) => Ok(new),
        Err(fault) => {
            take_back(maker, root, first);
            Err(fault)
        }
    }
}

/// Removes both files again, as far as possible.
#[tactic(auto, using(crate::proofs::BelowLaws::outside_more, crate::proofs::TwoLaws::both_removed))]
fn take_both_back<M: Remover>(maker: &mut M, paths: &Paths<'_>)
    requires below { HavePathsBelow paths.now }
    ensures removed { AreBothRemoved M.is_refused paths.now.one.now paths.now.other.now (M.nodes maker.new) }
    ensures outside { KeepsOutside paths.now.root.now (M.nodes maker.old) (M.nodes maker.new) }
{
    take_back(maker, paths.root, paths.one);
    take_back(maker, paths.root, paths.other);
}

/// Closes the first file. If that fails, removes both again, as far as possible.
#[tactic(auto, using(crate::proofs::BelowLaws::outside_first, crate::proofs::BelowLaws::outside_set))]
fn close_first<M: Remover>(maker: &mut M, paths: &Paths<'_>, file: M::New) -> Result<(), PartsFault>
    requires below { HavePathsBelow paths.now }
    ensures finished { OnOk result (IsFinished paths.now.one.now (M.New.contents file) (M.nodes maker.old) (M.nodes maker.new)) }
    ensures changed { result ≡ Err why.Changed → ⊥ }
    ensures lost { result ≡ Err why.NoDriveLeft → ⊥ }
    ensures removed { OnErr result (AreBothRemoved M.is_refused paths.now.one.now paths.now.other.now (M.nodes maker.new)) }
    ensures outside { KeepsOutside paths.now.root.now (M.nodes maker.old) (M.nodes maker.new) }
{
    match finish(maker, paths.one, file) {
        Ok(()) => Ok(()),
        Err(fault) => {
            take_both_back(maker, paths);
            Err(PartsFault::from(fault))
        }
    }
}

/// Closes the second file. If that fails, removes it again, as far as possible.
#[tactic(auto, using(crate::proofs::BelowLaws::outside_first, crate::proofs::BelowLaws::outside_set, crate::proofs::RemovalLaws::changes_kept, crate::proofs::RemovalLaws::changes_more))]
fn close_second<M: Remover>(
    maker: &mut M,
    paths: &Paths<'_>,
    file: M::New,
) -> Result<(), PartsFault>
    requires below { HavePathsBelow paths.now }
    ensures finished { OnOk result (IsFinished paths.now.other.now (M.New.contents file) (M.nodes maker.old) (M.nodes maker.new)) }
    ensures changed { result ≡ Err why.Changed → ⊥ }
    ensures lost { result ≡ Err why.NoDriveLeft → ⊥ }
    ensures removed { OnErr result (IsRemoved M.is_refused (M.nodes maker.new) paths.now.other.now) }
    ensures rest { ChangesOne paths.now.root.now paths.now.other.now (M.nodes maker.old) (M.nodes maker.new) }
    ensures outside { KeepsOutside paths.now.root.now (M.nodes maker.old) (M.nodes maker.new) }
{
    match finish(maker, paths.other, file) {
        Ok(()) => Ok(()),
        Err(fault) => {
            take_back(maker, paths.root, paths.other);
            Err(PartsFault::from(fault))
        }
    }
}

/// Closes two files that were written. Those that can't be closed are removed again, as far as
/// possible.
#[tactic(auto, using(crate::proofs::BelowLaws::outside_more, crate::proofs::TwoLaws::finishes_two, crate::proofs::TwoLaws::finishes_first))]
fn close_both<M: Remover>(
    maker: &mut M,
    paths: &Paths<'_>,
    first: M::New,
    second: M::New,
    one: FileBytes,
    other: FileBytes,
) -> TwoPut
    requires below { HavePathsBelow paths.now }
    ensures put { PutsAtMost (two.Both one other) result }
    ensures changed { NotChanged result }
    ensures lost { IsLost result → ⊥ }
    ensures closed { ClosesPaths paths.now (M.New.contents first) (M.New.contents second) (M.nodes maker.old) (M.nodes maker.new) result }
    ensures removed { IsRestRemoved M.is_refused paths.now.one.now paths.now.other.now (M.nodes maker.new) result }
    ensures outside { KeepsOutside paths.now.root.now (M.nodes maker.old) (M.nodes maker.new) }
{
    if let Err(why) = close_first(maker, paths, first) {
        return TwoPut::Neither { why };
    }
    match close_second(maker, paths, second) {
        Ok(()) => TwoPut::Both { one, other },
        Err(why) => TwoPut::One { one, why },
    }
}

/// Closes the first of two files. The other was not written and is removed again. If the first
/// can't be closed, both are removed.
#[tactic(auto, using(crate::proofs::BelowLaws::outside_more, crate::proofs::TwoLaws::finishes_first))]
fn close_one<M: Remover>(
    maker: &mut M,
    paths: &Paths<'_>,
    file: M::New,
    one: FileBytes,
    why: PartsFault,
) -> TwoPut
    requires below { HavePathsBelow paths.now }
    ensures put { PutsAtMost (two.One one why) result }
    ensures changed { NotChanged (two.One one why) → NotChanged result }
    ensures lost { IsLost result → IsLost (two.One one why) }
    ensures closed { (second : Option (List ℕ)) → ClosesPaths paths.now (M.New.contents file) second (M.nodes maker.old)
        (M.nodes maker.new) result }
    ensures removed { IsRestRemoved M.is_refused paths.now.one.now paths.now.other.now (M.nodes maker.new) result }
    ensures outside { KeepsOutside paths.now.root.now (M.nodes maker.old) (M.nodes maker.new) }
{
    if let Err(why) = close_first(maker, paths, file) {
        return TwoPut::Neither { why };
    }
    take_back(maker, paths.root, paths.other);
    TwoPut::One { one, why }
}

/// Closes two files, as far as they were written. The others are removed again, as far as possible.
fn close_pair<M: Remover>(
    maker: &mut M,
    paths: &Paths<'_>,
    first: M::New,
    second: M::New,
    written: TwoPut,
) -> TwoPut
    requires below { HavePathsBelow paths.now }
    ensures put { PutsAtMost written result }
    ensures changed { NotChanged written → NotChanged result }
    ensures lost { IsLost result → IsLost written }
    ensures closed { ClosesPaths paths.now (M.New.contents first) (M.New.contents second) (M.nodes maker.old) (M.nodes maker.new) result }
    ensures removed { IsRestRemoved M.is_refused paths.now.one.now paths.now.other.now (M.nodes maker.new) result }
    ensures outside { KeepsOutside paths.now.root.now (M.nodes maker.old) (M.nodes maker.new) }
{
    match written {
        TwoPut::Both { one, other } => close_both(maker, paths, first, second, one, other),
        TwoPut::One { one, why } => close_one(maker, paths, first, one, why),
        TwoPut::Neither { why } => {
            take_both_back(maker, paths);
            TwoPut::Neither { why }
        }
    }
}

/// Writes two new files, and closes them. Those that were not put are removed again, as far as
/// possible.
#[tactic(auto, using(crate::proofs::TwoLaws::paths_below, crate::proofs::TwoLaws::rest_removed, crate::proofs::TwoLaws::two_left, crate::proofs::TwoLaws::two_alike, crate::proofs::TwoLaws::two_same))]
fn write_pair<M: Remover, P: TwoParts>(
    maker: &mut M,
    pair: &Pair<'_>,
    first: NewFile<M::New>,
    second: NewFile<M::New>,
    parts: &mut P,
) -> TwoPut
    requires first { IsNewBelow pair.now.root.now pair.now.one.now.path first }
    requires second { IsNewBelow pair.now.root.now pair.now.other.now.path second }
    ensures alike { AreTwoAlike pair.now.one.now pair.now.other.now result }
    ensures same { P.gives parts.old pair.now.one.now pair.now.other.now → AreTwoSame pair.now.one.now pair.now.other.now result }
    ensures changed { P.gives parts.old pair.now.one.now pair.now.other.now → NotChanged result }
    ensures lost { IsLost result → P.loses parts.old parts.new }
    ensures left { LeavesNew M.New.contents pair.now first second (M.nodes maker.old) (M.nodes maker.new) result }
    ensures removed { IsPairRemoved M.is_refused pair.now (M.nodes maker.new) result }
    ensures outside { KeepsOutside pair.now.root.now (M.nodes maker.old) (M.nodes maker.new) }
    ensures on { P.goes_on parts.old parts.new }
{
    let NewFile { file, path } = first;
    let NewFile {
        file: other_file,
        path: other_path,
    } = second;
    let mut file = file;
    let mut other_file = other_file;
    let written = parts.write_both(pair.one, pair.other, &mut file, &mut other_file);
    let paths = Paths {
        root: pair.root,
        one: path.as_str(),
        other: other_path.as_str(),
    };
    close_pair(maker, &paths, file, other_file, written)
}

/// Puts two files on disk, with their bytes as they are read again. Returns `None`, and leaves
/// neither, if they are not two files with bytes that can both be made as new files.
#[tactic(auto, using(crate::proofs::BelowLaws::outside_more, crate::proofs::BelowLaws::outside_same, crate::proofs::RemovalLaws::gives_added, crate::proofs::RemovalLaws::gives_same))]
pub(crate) fn put_pair<M: Remover, P: TwoParts>(
    alloc: Global,
    maker: &mut M,
    pair: &Pair<'_>,
    parts: &mut P,
) -> Option<TwoPut>
    ensures alike { IfSome result (AreTwoAlike pair.now.one.now pair.now.other.now) }
    ensures same { P.gives parts.old pair.now.one.now pair.now.other.now
        → IfSome result (AreTwoSame pair.now.one.now pair.now.other.now) }
    ensures changed { P.gives parts.old pair.now.one.now pair.now.other.now → IfSome result NotChanged }
    ensures lost { LosesTwo result → P.loses parts.old parts.new }
    ensures left { IfSome result (LeavesTwo pair.now.root.now pair.now.one.now pair.now.other.now (M.nodes maker.old) (M.nodes maker.new)) }
    ensures removed { IfSome result (IsPairRemoved M.is_refused pair.now (M.nodes maker.new)) }
    ensures given_up { result ≡ None → GivesUp M.is_refused pair.now.root.now pair.now.one.now.path (M.nodes maker.old)
        (M.nodes maker.new) }
    ensures text { IsSome result → HasText pair.now.one.now }
    ensures other_text { IsSome result → HasText pair.now.other.now }
    ensures name { IsSome result → HasName pair.now.one.now }
    ensures other_name { IsSome result → HasName pair.now.other.now }
    ensures outside { KeepsOutside pair.now.root.now (M.nodes maker.old) (M.nodes maker.new) }
    ensures on { P.goes_on parts.old parts.new }
{
    if !is_file(pair.one) || !is_file(pair.other) {
        return None;
    }
    let Ok(first) = make_new(alloc, maker, pair.root, pair.one) else {
        return None;
    };
    let Ok(second) = make_second(alloc, maker, pair.root, first.path.as_str(), pair.other) else {
        return None;
    };
    Some(write_pair(maker, pair, first, second, parts))
}
