//! Steps over any maker of files.
ghost use Rattle.std.specs.Prelude.{◌≡◌, Some, None, OnOk, OnErr};
ghost use Rattle.br_fs.specs.Making.{Bytes, IsFileOrFree, IsFolderNow, LeavesOpened, Sets};

use crate::fault::DiskFault;
use crate::host::fault_of;
use crate::kind::Kind;
use crate::maker::FileMaker;
use std::io::Write;

/// Makes the folder unless it exists.
///
/// # Errors
///
/// `Exists` if something else is at the path, even a link to a folder, and the errors of the maker.
#[tactic(auto, using(crate::proofs::MakingLaws::folder_was, crate::proofs::MakingLaws::folder_made))]
pub fn enter_folder<M: FileMaker>(maker: &mut M, path: &str) -> Result<(), DiskFault>
    ensures folder { OnOk result (IsFolderNow path.now (M.nodes maker.old) (M.nodes maker.new)) }
    ensures refused { OnErr result (M.nodes maker.new ≡ M.nodes maker.old) }
{
    match maker.look(path) {
        Ok(Kind::Folder) => Ok(()),
        Ok(_) => Err(DiskFault::Exists),
        Err(DiskFault::NotFound) => maker.make_folder(path),
        Err(fault) => Err(fault),
    }
}

/// Removes the file at the path, if there is one.
///
/// # Errors
///
/// `Exists` if something else is at the path, and the errors of the maker.
#[tactic(auto, using(crate::proofs::MakingLaws::none_removed, crate::proofs::MakingLaws::file_was, crate::proofs::MakingLaws::free_was))]
pub fn clear_path<M: FileMaker>(maker: &mut M, path: &str) -> Result<(), DiskFault>
    ensures file { OnOk result (IsFileOrFree (M.nodes maker.old) path.now) }
    ensures cleared { OnOk result (Sets path.now None (M.nodes maker.old) (M.nodes maker.new)) }
    ensures refused { OnErr result (M.nodes maker.new ≡ M.nodes maker.old) }
{
    match maker.look(path) {
        Ok(Kind::File) => maker.remove(path),
        Ok(_) => Err(DiskFault::Exists),
        Err(DiskFault::NotFound) => Ok(()),
        Err(fault) => Err(fault),
    }
}

/// Makes a file of these bytes.
///
/// # Errors
///
/// `Exists` if anything is at the path, and the errors of the maker and of the writes. A file that
/// was made but not finished stays there.
#[tactic(auto, using(crate::proofs::MakingLaws::put_done, crate::proofs::MakingLaws::put_left, crate::proofs::MakingLaws::left_opened))]
pub fn put_file<M: FileMaker>(maker: &mut M, path: &str, bytes: &[u8]) -> Result<(), DiskFault>
    ensures put { OnOk result (Sets path.now (Some (Bytes bytes.now)) (M.nodes maker.old) (M.nodes maker.new)) }
    ensures left { OnErr result (LeavesOpened path.now (M.nodes maker.old) (M.nodes maker.new)) }
{
    let mut file = maker.make_file(path)?;
    match file.write_all(bytes) {
        Ok(()) => maker.finish(path, file),
        Err(error) => Err(fault_of(error)),
    }
}
