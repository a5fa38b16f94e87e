ghost use Rattle.std.specs.Prelude.{◌≡◌, Option, Some, None, IfOk, OnOk, OnErr, Err};
ghost use Rattle.br_fs.specs.Making.{Nodes, Else};
ghost use Rattle.br_fs.specs.Making.{IsEmptyAt, IsFinished, IsFree, IsKindAt, IsNoFolder, KeepsOthers, MakesFile, Sets};
ghost use Rattle.br_fs.specs.declared.fault.DiskFault.TheVariants.{NotFound};
ghost use Rattle.br_fs.specs.declared.kind.Kind.TheVariants.{Folder};

use crate::fault::DiskFault;
use crate::kind::Kind;
use std::io::Write;

/// Makes and removes files and folders, by path. Each call is one call of the system. A maker that
/// tells its nodes is changed by nobody else, and no two paths lead to one file.
///
/// A new file belongs to the caller, who writes it by the calls of `Write` and gives it back to
/// `finish`. So threads may write files side by side: a write changes only what its own file tells.
/// To contracts a new file tells its number, and after it its bytes. So whoever is lent a file to
/// append to it can't give back another.
pub trait FileMaker {
    /// A new file.
    type New: Write + Drop;

    /// The paths and what is at each, if the maker tells them. A maker over memory does, that of
    /// the system does not.
    ghost nodes: { Self → Option Nodes };

    /// The maker does not fail by itself: no later call is one that is to fail.
    ghost is_steady: { Self → Type 0 };

    /// Returns what is at the path. A link is not followed.
    ///
    /// # Errors
    ///
    /// `NotFound` only if nothing is at the path.
    fn look(&mut self, path: &str) -> Result<Kind, DiskFault>
        ensures found { IfOk result (λ kind. IsKindAt (nodes self.new) path.now kind) }
        ensures missing { result ≡ Err NotFound → IsFree (nodes self.new) path.now }
        ensures same { nodes self.new ≡ nodes self.old };

    /// Returns whether nothing is in the folder at the path.
    ///
    /// # Errors
    ///
    /// If no folder is at the path, or the maker fails by itself.
    fn is_empty(&self, path: &str) -> Result<bool, DiskFault>
        ensures empty { IfOk result (λ empty. IsEmptyAt (nodes self.now) path.now empty) }
        ensures refused { OnErr result (is_steady self.now → IsNoFolder (nodes self.now) path.now) };

    /// Makes a folder, which only its owner may list, enter and change.
    ///
    /// # Errors
    ///
    /// `Exists` if anything is at the path, even a link. After an error nothing is changed.
    fn make_folder(&mut self, path: &str) -> Result<(), DiskFault>
        ensures free { OnOk result (IsFree (nodes self.old) path.now) }
        ensures made { OnOk result (Sets path.now (Some (Else Folder)) (nodes self.old) (nodes self.new)) }
        ensures refused { OnErr result (nodes self.new ≡ nodes self.old) };

    /// Makes an empty file, which only its owner may read and write.
    ///
    /// # Errors
    ///
    /// `Exists` if anything is at the path, even a link. After an error nothing is changed.
    fn make_file(&mut self, path: &str) -> Result<Self::New, DiskFault>
        ensures free { OnOk result (IsFree (nodes self.old) path.now) }
        ensures made { IfOk result (λ file. MakesFile path.now (Self.New.contents file) (nodes self.old) (nodes self.new)) }
        ensures refused { OnErr result (nodes self.new ≡ nodes self.old) };

    /// Closes the new file at the path. From then on the path has the bytes that were written, if
    /// this is the file that was made there.
    ///
    /// # Errors
    ///
    /// After an error a file is at the path, but its bytes are not told.
    fn finish(&mut self, path: &str, file: Self::New) -> Result<(), DiskFault>
        ensures put { OnOk result (IsFinished path.now (Self.New.contents file) (nodes self.old) (nodes self.new)) }
        ensures others { KeepsOthers path.now (nodes self.old) (nodes self.new) }
        ensures refused { OnErr result (nodes self.new ≡ nodes self.old) };

    /// Removes what is at the path, unless it is a folder. A link is removed, not what it leads to.
    ///
    /// # Errors
    ///
    /// `NotFound` only if nothing is at the path. After an error nothing is changed.
    fn remove(&mut self, path: &str) -> Result<(), DiskFault>
        ensures removed { OnOk result (Sets path.now None (nodes self.old) (nodes self.new)) }
        ensures missing { result ≡ Err NotFound → IsFree (nodes self.new) path.now }
        ensures refused { OnErr result (nodes self.new ≡ nodes self.old) };
}
