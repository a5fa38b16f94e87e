ghost use Rattle.std.specs.Prelude.{◌≡◌, ℕ, ◌≤◌, ◌⊎◌, List, [], length, take, Option, None, IfOk, OnErr, OnOk, Err, IsTrue};
ghost use Rattle.br_model.specs.Volume.{Volume};
ghost use Rattle.br_fs.specs.Tree.{Tree};
ghost use Rattle.br_fs.specs.Durable.{Lasts, NamesFiles, SyncsFile};
ghost use Rattle.br_fs.specs.Calls.{IsAbsent, IsFile, IsNoFile, IsNothing, IsFound, IsReadAt, IsSteady, IsTaken};
ghost use Rattle.br_fs.specs.Calls.{Appends, KeepsFolders};
ghost use Rattle.br_fs.specs.declared.fault.DiskFault.TheVariants.{Exists, NotFound};

use crate::fault::DiskFault;
use crate::kind::Metadata;

/// Files and folders by path. The calls are few and small: each is one call of the system. Reads
/// and writes may be short. A disk that tells its tree is changed by nobody else, and no two paths
/// lead to one file.
pub trait Disk {
    /// An open file.
    type File: Drop;

    /// What the disk has, if it tells it. A disk over memory does, that of the system does not.
    ghost told: { Self → Option Tree };

    /// The files that a crash leaves, with the bytes of them that it leaves at least, if the disk
    /// tells them. `MayBeLeft` says what else it may leave.
    ghost durable: { Self → Option (List Volume) };

    /// The path under which a file was opened.
    ghost path_of: { Self.File → List ℕ };

    /// The number of interrupts to come, if no call fails by itself. None if any may.
    ghost steady: { Self → Option ℕ };

    /// The number of syncs that have failed. No disk defines it, so it is known to stay the same by
    /// the clauses `clean` alone.
    ghost failed_syncs: { Self → ℕ } = { λ _. 0 };

    /// Returns what is at the path. A link is followed.
    ///
    /// # Errors
    ///
    /// `NotFound` only if nothing is there, or a link whose target does not exist.
    fn find(&mut self, path: &str) -> Result<Metadata, DiskFault>
        ensures found { IfOk result (λ found. IsFound (told self.new) path.now found.kind found.len) }
        ensures missing { result ≡ Err NotFound → IsNoFile (told self.new) path.now }
        ensures never { result ≡ Err NotFound → IsAbsent (told self.new) path.now }
        ensures reads { result ≡ Err Exists → steady self.old ≡ None }
        ensures same { told self.new ≡ told self.old }
        ensures settled { durable self.new ≡ durable self.old }
        ensures clean { failed_syncs self.new ≡ failed_syncs self.old }
        ensures steady { IsSteady (steady self.old) (steady self.new) result };

    /// Opens the file at the path for reading. What is not a file, such as a pipe, must
    /// not be opened.
    fn open(&mut self, path: &str) -> Result<Self::File, DiskFault>
        requires file { IsFile (told self.old) path.now }
        ensures opened { IfOk result (λ file. path_of file ≡ path.now) }
        ensures missing { result ≡ Err NotFound → IsNoFile (told self.new) path.now }
        ensures same { told self.new ≡ told self.old }
        ensures settled { durable self.new ≡ durable self.old }
        ensures steady { IsSteady (steady self.old) (steady self.new) result };

    /// Opens the file at the path for appending.
    fn open_to_append(&mut self, path: &str) -> Result<Self::File, DiskFault>
        requires file { IsFile (told self.old) path.now }
        ensures opened { IfOk result (λ file. path_of file ≡ path.now) }
        ensures same { told self.new ≡ told self.old }
        ensures settled { durable self.new ≡ durable self.old }
        ensures clean { failed_syncs self.new ≡ failed_syncs self.old }
        ensures steady { IsSteady (steady self.old) (steady self.new) result };

    /// Makes an empty file, which only its owner may read and write, and opens it for appending.
    ///
    /// # Errors
    ///
    /// `Exists` only if something is at the path, even a link. After an error no file is made.
    fn create(&mut self, path: &str) -> Result<Self::File, DiskFault>
        ensures opened { IfOk result (λ file. path_of file ≡ path.now) }
        ensures fresh { OnOk result (IsNothing (told self.old) path.now) }
        ensures made { OnOk result (Appends path.now [] (told self.old) (told self.new)) }
        ensures refused { OnErr result (told self.new ≡ told self.old) }
        ensures taken { result ≡ Err Exists → IsTaken (told self.old) path.now }
        ensures lasts { Lasts (durable self.old) (durable self.new) }
        ensures folders { KeepsFolders (told self.old) (told self.new) }
        ensures makes { result ≡ Err NotFound → steady self.old ≡ None }
        ensures steady { IsSteady (steady self.old) (steady self.new) result };

    /// Returns whether the file was opened under this path.
    fn is_at(&self, file: &Self::File, path: &str) -> bool
        ensures { IsTrue result → path_of file.now ≡ path.now };

    /// Reads bytes of the file, from this place on, into the beginning of the buffer. Returns their
    /// number: at least one if both the file and the buffer have room for one, and maybe fewer than
    /// there are.
    fn read_at(&mut self, file: &Self::File, buf: &mut [u8], at: u64) -> Result<usize, DiskFault>
        ensures fits { IfOk result (λ n. n ≤ length buf.new) }
        ensures read { IfOk result (λ n. IsReadAt (told self.new) (path_of file.now) at buf.new n) }
        ensures missing { result ≡ Err NotFound → IsNoFile (told self.new) (path_of file.now) }
        ensures same { told self.new ≡ told self.old }
        ensures settled { durable self.new ≡ durable self.old }
        ensures steady { IsSteady (steady self.old) (steady self.new) result };

    /// Appends the first of the bytes to the file. Returns their number, maybe fewer than all.
    fn write(&mut self, file: &mut Self::File, bytes: &[u8]) -> Result<usize, DiskFault>
        ensures fits { IfOk result (λ n. n ≤ length bytes.now) }
        ensures written { IfOk result (λ n. Appends (path_of file.old) (take n bytes.now) (told self.old) (told self.new)) }
        ensures refused { OnErr result (told self.new ≡ told self.old) }
        ensures lasts { Lasts (durable self.old) (durable self.new) }
        ensures file { path_of file.new ≡ path_of file.old }
        ensures some { IfOk result (λ n. n ≡ 0 → (length bytes.now ≡ 0) ⊎ (steady self.old ≡ None)) }
        ensures steady { IsSteady (steady self.old) (steady self.new) result };

    /// Makes the names of the files in the folder durable.
    ///
    /// # Errors
    ///
    /// If no folder is at the path, or the disk fails.
    fn sync_folder(&mut self, path: &str) -> Result<(), DiskFault>
        ensures named { OnOk result (NamesFiles path.now (told self.old) (durable self.new)) }
        ensures same { told self.new ≡ told self.old }
        ensures lasts { Lasts (durable self.old) (durable self.new) }
        ensures clean { OnOk result (failed_syncs self.new ≡ failed_syncs self.old) }
        ensures steady { IsSteady (steady self.old) (steady self.new) result };

    /// Makes the bytes of the file durable, if its name is.
    ///
    /// # Errors
    ///
    /// If the disk fails. A system may drop what was not durable then, and let a later call
    /// succeed. So a file whose sync failed is not to be trusted again, and no code over any disk
    /// can meet `clean` by another try.
    fn sync(&mut self, file: &Self::File) -> Result<(), DiskFault>
        ensures synced { OnOk result (SyncsFile (path_of file.now) (told self.old) (durable self.old) (durable self.new)) }
        ensures same { told self.new ≡ told self.old }
        ensures lasts { Lasts (durable self.old) (durable self.new) }
        ensures clean { OnOk result (failed_syncs self.new ≡ failed_syncs self.old) }
        ensures steady { IsSteady (steady self.old) (steady self.new) result };
}
