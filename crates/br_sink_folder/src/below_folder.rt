//! Files below a folder, and the folders on their ways.
ghost use Rattle.std.specs.Prelude.{◌≡◌, ℕ, ◌<◌, true, List, length, take, ◌++◌, None, OnOk, OnErr, IfOk, string_bytes};
ghost use Rattle.std.specs.IoError.{error_kind};
ghost use Rattle.std.specs.declared.io.ErrorKind.TheVariants.{OutOfMemory};
ghost use Rattle.br_fs.specs.Making.{IsBelow, IsFileOrFree, IsFinished, IsFree, IsKindAt, KeepsOthers, MakesFile, Sets};
ghost use Rattle.br_fs.specs.declared.kind.Kind.TheVariants.{Folder};
ghost use Rattle.br_sink.specs.declared.fault.SinkFault.TheVariants.{Memory, Fault};
ghost use Rattle.br_sink_folder.specs.Below.{AddsFolders, MakesNew, WritesNew};
ghost use Rattle.br_sink_folder.specs.Fault.{sink_fault};
ghost use Rattle.br_sink_folder.specs.Removed.{HasNoFile, MakesNoFile, MakesNone};
ghost use Rattle.br_sink_folder.specs.Way.{HasWay, begins_with_slash, ends_name, folder_path, slashed};

use br_fs::{DiskFault, FileMaker, clear_path, enter_folder};
use br_join::FileBytes;
use br_sink::SinkFault;
use std::alloc::Global;
use std::io;
use std::io::ErrorKind;

/// Returns the sink's fault for a fault of its files.
pub(crate) fn fault_of(fault: DiskFault) -> SinkFault
    ensures { result ≡ sink_fault fault }
{
    match fault {
        DiskFault::Memory => SinkFault::Memory,
        DiskFault::NotFound | DiskFault::Exists | DiskFault::Interrupted | DiskFault::Failed => {
            SinkFault::Fault
        }
    }
}

/// Returns the sink's fault for a fault of a write: `Memory` if memory ran out, else `Fault`.
pub(crate) fn write_fault(error: io::Error) -> SinkFault
    ensures memory { result ≡ Memory → error_kind error ≡ OutOfMemory }
    ensures fault { result ≡ Fault → error_kind error ≡ OutOfMemory → ⊥ }
{
    match error.kind() {
        ErrorKind::OutOfMemory => SinkFault::Memory,
        _ => SinkFault::Fault,
    }
}

/// Makes the folder unless it exists.
#[tactic(auto, using(crate::proofs::BelowLaws::adds_folder, crate::proofs::BelowLaws::adds_same, crate::proofs::WayLaws::folder_now))]
fn make_folder<M: FileMaker>(maker: &mut M, path: &str) -> Result<(), SinkFault>
    ensures folder { OnOk result (IsKindAt (M.nodes maker.new) path.now Folder) }
    ensures added { (root : List ℕ) → IsBelow root path.now → AddsFolders root (M.nodes maker.old) (M.nodes maker.new) }
{
    match enter_folder(maker, path) {
        Ok(()) => Ok(()),
        Err(fault) => Err(fault_of(fault)),
    }
}

/// Returns whether a name ends just before this place of the path.
fn ends_name(path: &[u8], at: usize) -> bool
    requires some { 0 < at }
    requires within { at < length path.now }
    ensures { result ≡ ends_name path.now at }
{
    path[at] == b'/' && path[at - 1] != b'/'
}

/// Makes the folder at the first part of the path, which ends at `at`, if a name ends there.
#[tactic(auto, using(crate::proofs::BelowLaws::front_below, crate::proofs::BelowLaws::adds_same))]
fn make_front<M: FileMaker>(
    maker: &mut M,
    root: &str,
    path: &str,
    at: usize,
) -> Result<(), SinkFault>
    requires below { IsBelow root.now path.now }
    requires past { length root.now < at }
    requires within { at < length path.now }
    ensures folder { OnOk result (ends_name path.now at ≡ true → IsKindAt (M.nodes maker.new) (take at path.now) Folder) }
    ensures added { AddsFolders root.now (M.nodes maker.old) (M.nodes maker.new) }
{
    if !ends_name(path.as_bytes(), at) {
        return Ok(());
    }
    match path.get(..at) {
        Some(front) => make_folder(maker, front),
        None => Err(SinkFault::Fault),
    }
}

/// Makes the folders that are missing on the way to a path below the folder. It builds no path, so
/// that a file can be removed again after memory ran out.
#[tactic(auto, using(crate::proofs::BelowLaws::adds_more, crate::proofs::BelowLaws::adds_same, crate::proofs::WayLaws::way_begins))]
pub(crate) fn make_way<M: FileMaker>(maker: &mut M, root: &str, path: &str) -> Result<(), SinkFault>
    requires below { IsBelow root.now path.now }
    ensures way { OnOk result (HasWay root.now path.now (M.nodes maker.new)) }
    ensures added { AddsFolders root.now (M.nodes maker.old) (M.nodes maker.new) }
{
    for at in root.len() + 1..path.len() {
        make_front(maker, root, path, at)?;
    }
    Ok(())
}

/// Returns the path below the folder. `Fault` if it does not begin with `/`.
#[tactic(auto, using(crate::proofs::BelowLaws::below_root))]
pub(crate) fn path_below(alloc: Global, root: &str, path: &str) -> Result<String, SinkFault>
    ensures path { IfOk result (λ whole. string_bytes whole ≡ root.now ++ path.now) }
    ensures below { IfOk result (λ whole. IsBelow root.now (string_bytes whole)) }
{
    match path.as_bytes() {
        [b'/', ..] => {
            let mut whole = String::from_str(alloc, root)?;
            whole.push_str(path)?;
            Ok(whole)
        }
        _ => Err(SinkFault::Fault),
    }
}

/// Returns whether the path begins with a slash.
fn begins_with_slash(path: &[u8]) -> bool
    ensures { result ≡ begins_with_slash path.now }
{
    match path {
        [] => false,
        [first, ..] => *first == b'/',
    }
}

/// Returns a slash if the path does not begin with one, else nothing.
fn missing_slash(path: &str) -> &'static str
    ensures { result.now ++ path.now ≡ slashed path.now }
{
    if begins_with_slash(path.as_bytes()) {
        ""
    } else {
        "/"
    }
}

/// Returns the path of a folder below the folder, with a slash at its end.
#[tactic(auto, using(crate::proofs::WayLaws::folder_joined, crate::proofs::WayLaws::folder_is_below))]
pub(crate) fn folder_below(alloc: Global, root: &str, path: &str) -> Result<String, SinkFault>
    ensures path { IfOk result (λ whole. string_bytes whole ≡ root.now ++ folder_path path.now) }
    ensures below { IfOk result (λ whole. IsBelow root.now (string_bytes whole)) }
{
    let mut whole = String::from_str(alloc, root)?;
    whole.push_str(missing_slash(path))?;
    whole.push_str(path)?;
    whole.push('/')?;
    Ok(whole)
}

/// Makes a file. `Fault` if something has its name already.
#[tactic(auto, using(crate::proofs::BelowLaws::made_keeps, crate::proofs::BelowLaws::same_others))]
pub(crate) fn make_file<M: FileMaker>(maker: &mut M, path: &str) -> Result<M::New, SinkFault>
    ensures free { OnOk result (IsFree (M.nodes maker.old) path.now) }
    ensures made { IfOk result (λ file. MakesFile path.now (M.New.contents file) (M.nodes maker.old) (M.nodes maker.new)) }
    ensures refused { OnErr result (M.nodes maker.new ≡ M.nodes maker.old) }
    ensures others { KeepsOthers path.now (M.nodes maker.old) (M.nodes maker.new) }
{
    match maker.make_file(path) {
        Ok(file) => Ok(file),
        Err(fault) => Err(fault_of(fault)),
    }
}

/// Closes a file that was written.
pub(crate) fn finish<M: FileMaker>(maker: &mut M, path: &str, file: M::New) -> Result<(), SinkFault>
    ensures put { OnOk result (IsFinished path.now (M.New.contents file) (M.nodes maker.old) (M.nodes maker.new)) }
    ensures others { KeepsOthers path.now (M.nodes maker.old) (M.nodes maker.new) }
{
    match maker.finish(path, file) {
        Ok(()) => Ok(()),
        Err(fault) => Err(fault_of(fault)),
    }
}

/// Removes an earlier file, if there is one. `Fault` if something else has its name.
#[tactic(auto, using(crate::proofs::BelowLaws::set_others, crate::proofs::BelowLaws::same_others))]
fn clear<M: FileMaker>(maker: &mut M, path: &str) -> Result<(), SinkFault>
    ensures file { OnOk result (IsFileOrFree (M.nodes maker.old) path.now) }
    ensures cleared { OnOk result (Sets path.now None (M.nodes maker.old) (M.nodes maker.new)) }
    ensures refused { OnErr result (M.nodes maker.new ≡ M.nodes maker.old) }
    ensures others { KeepsOthers path.now (M.nodes maker.old) (M.nodes maker.new) }
{
    match clear_path(maker, path) {
        Ok(()) => Ok(()),
        Err(fault) => Err(fault_of(fault)),
    }
}

/// Makes a file, which replaces an earlier one.
#[tactic(auto, using(crate::proofs::BelowLaws::made_new, crate::proofs::BelowLaws::made_keeps, crate::proofs::BelowLaws::keeps_more, crate::proofs::RemovalLaws::unmade_same, crate::proofs::RemovalLaws::unmade_cleared))]
pub(crate) fn make_anew<M: FileMaker>(maker: &mut M, path: &str) -> Result<M::New, SinkFault>
    ensures made { IfOk result (λ file. MakesNew path.now (M.New.contents file) (M.nodes maker.old) (M.nodes maker.new)) }
    ensures unmade { OnErr result (MakesNone path.now (M.nodes maker.old) (M.nodes maker.new)) }
    ensures others { KeepsOthers path.now (M.nodes maker.old) (M.nodes maker.new) }
{
    clear(maker, path)?;
    make_file(maker, path)
}

/// Writes the bytes of a new file, and closes it.
#[tactic(auto, using(crate::proofs::BelowLaws::new_put, crate::proofs::BelowLaws::same_others))]
pub(crate) fn write_made<M: FileMaker>(
    maker: &mut M,
    path: &str,
    file: M::New,
    bytes: &FileBytes,
) -> Result<(), SinkFault>
    ensures put { OnOk result (WritesNew path.now (M.New.contents file) bytes.now (M.nodes maker.old) (M.nodes maker.new)) }
    ensures others { KeepsOthers path.now (M.nodes maker.old) (M.nodes maker.new) }
{
    let mut file = file;
    match bytes.write_to(&mut file) {
        Ok(()) => finish(maker, path, file),
        Err(error) => Err(write_fault(error)),
    }
}

/// Removes what is at the path, unless it is a folder.
#[tactic(auto, using(crate::proofs::BelowLaws::set_others, crate::proofs::BelowLaws::same_others, crate::proofs::RemovalLaws::no_file_now, crate::proofs::RemovalLaws::no_file_set, crate::proofs::RemovalLaws::no_file_same))]
pub(crate) fn remove<M: FileMaker>(maker: &mut M, path: &str) -> Result<(), SinkFault>
    ensures removed { OnOk result (HasNoFile path.now (M.nodes maker.new)) }
    ensures none { MakesNoFile (M.nodes maker.old) (M.nodes maker.new) }
    ensures others { KeepsOthers path.now (M.nodes maker.old) (M.nodes maker.new) }
{
    match maker.remove(path) {
        Ok(()) => Ok(()),
        Err(fault) => Err(fault_of(fault)),
    }
}
