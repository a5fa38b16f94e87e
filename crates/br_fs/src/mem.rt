ghost use Rattle.std.specs.Prelude.{◌≡◌, ℕ, ◌-◌, ◌^◌, ◌<◌, ◌≤◌, ◌⊎◌, List, [], ◌++◌, length, take, bytes_eq, find, position, true, false};
ghost use Rattle.std.specs.Prelude.{Option, option_map, IfOk, OnOk, OnErr, None, Some, Err};
ghost use Rattle.std.specs.Option.{option_copied};
ghost use Rattle.br_model.specs.Volume.{volume_bytes};
ghost use Rattle.br_fs.specs.Calls.{Appends, IsNothing, IsPartAt, IsSteady, IsTaken, KeepsFolders};
ghost use Rattle.br_fs.specs.Durable.{Lasts, NamesFiles, SyncsFile};
ghost use Rattle.br_fs.specs.Memory.{Held, IsSeen, IsOtherIn, IsIn, durable_on, entries_in, kept_files, steady_of, with_appended};
ghost use Rattle.br_fs.specs.Memory.{synced_after, with_interrupts, with_calls, with_room};
ghost use Rattle.br_fs.specs.declared.fault.DiskFault.TheVariants.{Exists, NotFound};

use crate::disk::Disk;
use crate::fault::DiskFault;
use crate::file_path::FilePath;
use crate::kind::{Kind, Metadata};
use crate::mem_synced::{entries_of, len_at, note_synced};
use std::alloc::{AllocError, Global};
use std::marker::Model;

/// A disk over memory, for tests. Its reads and writes may be short or interrupted, its calls may
/// fail from a given call on, and it may be full. At first nothing on it is durable, and later no
/// more than what was synced.
#[derive(Drop)]
pub struct MemDisk {
    alloc: Global,
    files: Vec<(FilePath, Vec<u8>)>,
    others: Vec<(FilePath, Kind)>,
    /// The files whose names are durable, the last sync first, with the numbers of their bytes that
    /// are durable.
    synced: Vec<(FilePath, u64)>,
    at_most: usize,
    interrupts: u64,
    calls_left: Option<u64>,
    room: Option<u64>,
}

impl Model for MemDisk {
    ghost use Rattle.br_fs.specs.Memory.{Held, kept_files};

    ghost Value = { Held };

    ghost view = { λ d. record {
      tree = record { files = kept_files d.files.items; others = d.others.items };
      synced = d.synced.items;
      interrupts = d.interrupts;
      calls_left = d.calls_left;
      room = d.room;
    } };
}

impl MemDisk {
    /// Returns a disk with these files, and with something else at other paths.
    pub fn new(
        alloc: Global,
        files: Vec<(FilePath, Vec<u8>)>,
        others: Vec<(FilePath, Kind)>,
    ) -> MemDisk
        ensures tree { result.tree ≡ record { files = kept_files files.items; others = others.items } }
        ensures steady { steady_of result ≡ Some 0 }
    {
        MemDisk {
            alloc,
            files,
            others,
            synced: Vec::new(alloc),
            at_most: usize::MAX,
            interrupts: 0,
            calls_left: None,
            room: None,
        }
    }

    /// Makes reads and writes short: of at most this number of bytes, or of one if it is 0. The
    /// next of them are interrupted.
    pub fn shorten(&mut self, at_most: usize, interrupts: u64)
        ensures { self.new ≡ with_interrupts interrupts self.old }
    {
        self.at_most = at_most;
        self.interrupts = interrupts;
    }

    /// Makes calls fail after this number of them.
    pub fn fail_after(&mut self, calls: u64)
        ensures { self.new ≡ with_calls calls self.old }
    {
        self.calls_left = Some(calls);
    }

    /// Makes the disk full after this number of further bytes.
    pub fn fill_after(&mut self, room: u64)
        ensures { self.new ≡ with_room room self.old }
    {
        self.room = Some(room);
    }

    /// Returns the bytes of the file at the path, if there is one.
    pub fn bytes(&self, path: &str) -> Option<&[u8]>
        ensures { option_map (λ b. b.now) result ≡ volume_bytes self.now.tree.files path.now }
    {
        match bytes_of(&self.files, path.as_bytes()) {
            None => None,
            Some(bytes) => Some(bytes),
        }
    }

    /// Counts a call. Returns whether it succeeds.
    fn answers(&mut self) -> bool
        ensures tree { self.new.tree ≡ self.old.tree }
        ensures synced { self.new.synced ≡ self.old.synced }
        ensures interrupts { self.new.interrupts ≡ self.old.interrupts }
        ensures room { self.new.room ≡ self.old.room }
        ensures always { self.old.calls_left ≡ None → (self.new.calls_left ≡ None) × (result ≡ true) }
        ensures stopped { result ≡ false → steady_of self.old ≡ None }
        ensures counted { (n : ℕ) → self.old.calls_left ≡ Some n → self.new.calls_left ≡ Some (n - 1) }
    {
        match self.calls_left {
            None => true,
            Some(0) => false,
            Some(n) => {
                self.calls_left = Some(n - 1);
                true
            }
        }
    }
}

/// Returns the first file at the path.
fn file_of<'a>(files: &'a [(FilePath, Vec<u8>)], path: &[u8]) -> Option<&'a (FilePath, Vec<u8>)>
    ensures { option_copied result ≡ find (λ v. bytes_eq v.0 path.now) files.now }
{
    files.iter().find(|v| v.0.bytes() == path)
}

/// Returns the bytes of the first file at the path.
pub(crate) fn bytes_of<'a>(files: &'a [(FilePath, Vec<u8>)], path: &[u8]) -> Option<&'a Vec<u8>>
    ensures { option_map (λ b. b.now.items) result ≡ volume_bytes (kept_files files.now) path.now }
{
    match file_of(files, path) {
        None => None,
        Some(file) => Some(&file.1),
    }
}

/// Returns what is at the path other than a file.
fn other_of<'a>(others: &'a [(FilePath, Kind)], path: &[u8]) -> Option<&'a (FilePath, Kind)>
    ensures { option_copied result ≡ find (λ v. bytes_eq v.0 path.now) others.now }
{
    others.iter().find(|v| v.0.bytes() == path)
}

/// Returns what a call finds at a path of this kind. It follows links, whose targets never exist.
fn found_of(kind: Kind) -> Option<Metadata>
    ensures { IsSeen kind result }
{
    match kind {
        Kind::Folder => Some(Metadata { kind, len: 0 }),
        Kind::Other => Some(Metadata { kind, len: 0 }),
        Kind::File | Kind::Link => None,
    }
}

/// Returns what is found at the path other than a file.
#[tactic(auto, using(crate::proofs::AbsentLaws::other_seen, crate::proofs::AbsentLaws::none_seen))]
fn other_in(others: &[(FilePath, Kind)], path: &[u8]) -> Option<Metadata>
    ensures { IsOtherIn others.now path.now result }
{
    match other_of(others, path) {
        None => None,
        Some(other) => found_of(other.1),
    }
}

/// Returns what is found at the path.
#[tactic(auto, using(crate::proofs::AbsentLaws::other_is_in))]
fn found_in(
    files: &[(FilePath, Vec<u8>)],
    others: &[(FilePath, Kind)],
    path: &[u8],
) -> Option<Metadata>
    ensures { IsIn (record { files = kept_files files.now; others = others.now }) path.now result }
{
    if let Some(bytes) = bytes_of(files, path) {
        return Some(Metadata {
            kind: Kind::File,
            len: bytes.len() as u64,
        });
    }
    other_in(others, path)
}

/// Returns whether something is at the path.
fn is_taken(files: &[(FilePath, Vec<u8>)], others: &[(FilePath, Kind)], path: &[u8]) -> bool
    ensures free { result ≡ false → IsNothing (Some (record { files = kept_files files.now; others = others.now })) path.now }
    ensures taken { result ≡ true → IsTaken (Some (record { files = kept_files files.now; others = others.now })) path.now }
{
    match bytes_of(files, path) {
        Some(_) => true,
        None => other_of(others, path).is_some(),
    }
}

/// Returns the place of the first file at the path.
fn position_of(files: &[(FilePath, Vec<u8>)], path: &[u8]) -> Option<usize>
    ensures { result ≡ position (λ v. bytes_eq v.0 path.now) files.now }
{
    files.iter().position(|v| v.0.bytes() == path)
}

/// Appends bytes to a file, or makes a file of them. A refusal changes nothing.
fn append_to(
    alloc: Global,
    files: &mut Vec<(FilePath, Vec<u8>)>,
    path: &[u8],
    bytes: &[u8],
) -> Result<(), AllocError>
    ensures ok { OnOk result (kept_files files.new.items ≡ with_appended path.now bytes.now (kept_files files.old.items)) }
    ensures err { OnErr result (kept_files files.new.items ≡ kept_files files.old.items) }
{
    match position_of(files, path) {
        Some(at) => files[at].1.extend_from_slice(bytes),
        None => {
            let file = (FilePath::new(alloc, path)?, Vec::from_slice(alloc, bytes)?);
            files.push(file)?;
            Ok(())
        }
    }
}

/// Copies bytes from a place on to the beginning of the buffer: at most `at_most`, but at least one
/// if there is one.
fn copy_part(bytes: &[u8], buf: &mut [u8], at: u64, at_most: usize) -> usize
    ensures fits { result ≤ length buf.new }
    ensures part { length bytes.now < 2 ^ 63 → IsPartAt bytes.now at buf.new result }
{
    let rest = match bytes.get(at as usize..) {
        None => return 0,
        Some(rest) => rest,
    };
    let n = rest.len().min(buf.len()).min(at_most.max(1));
    buf[..n].copy_from_slice(&rest[..n]);
    n
}

impl Disk for MemDisk {
    ghost use Rattle.std.specs.Prelude.{Some};
    ghost use Rattle.br_fs.specs.Memory.{durable_on};

    type File = FilePath;

    ghost told = { λ d. Some d.tree };

    ghost durable = { λ d. Some (durable_on d) };

    ghost path_of = { λ file. file };

    ghost steady = { steady_of };

    #[tactic(auto, using(crate::proofs::AbsentLaws::unseen_is_absent))]
    fn find(&mut self, path: &str) -> Result<Metadata, DiskFault> {
        if !self.answers() {
            return Err(DiskFault::Failed);
        }
        match found_in(&self.files, &self.others, path.as_bytes()) {
            None => Err(DiskFault::NotFound),
            Some(found) => Ok(found),
        }
    }

    fn open(&mut self, path: &str) -> Result<FilePath, DiskFault> {
        if !self.answers() {
            return Err(DiskFault::Failed);
        }
        Ok(FilePath::new(self.alloc, path.as_bytes())?)
    }

    fn open_to_append(&mut self, path: &str) -> Result<FilePath, DiskFault> {
        if !self.answers() {
            return Err(DiskFault::Failed);
        }
        Ok(FilePath::new(self.alloc, path.as_bytes())?)
    }

    #[tactic(auto, using(crate::proofs::DurableLaws::lasts_same))]
    fn create(&mut self, path: &str) -> Result<FilePath, DiskFault>
        ensures opened { IfOk result (λ file. file ≡ path.now) }
        ensures fresh { OnOk result (IsNothing (Some self.old.tree) path.now) }
        ensures made { OnOk result (Appends path.now [] (Some self.old.tree) (Some self.new.tree)) }
        ensures refused { OnErr result (Some self.new.tree ≡ Some self.old.tree) }
        ensures taken { result ≡ Err Exists → IsTaken (Some self.old.tree) path.now }
        ensures lasts { Lasts (Some (durable_on self.old)) (Some (durable_on self.new)) }
        ensures folders { KeepsFolders (Some self.old.tree) (Some self.new.tree) }
        ensures makes { result ≡ Err NotFound → steady_of self.old ≡ None }
        ensures steady { IsSteady (steady_of self.old) (steady_of self.new) result }
        ensures settled { self.new.synced ≡ self.old.synced }
    {
        if !self.answers() {
            return Err(DiskFault::Failed);
        }
        if is_taken(&self.files, &self.others, path.as_bytes()) {
            return Err(DiskFault::Exists);
        }
        let file = FilePath::new(self.alloc, path.as_bytes())?;
        append_to(self.alloc, &mut self.files, path.as_bytes(), &[])?;
        Ok(file)
    }

    fn is_at(&self, file: &FilePath, path: &str) -> bool {
        file.bytes() == path.as_bytes()
    }

    fn read_at(&mut self, file: &FilePath, buf: &mut [u8], at: u64) -> Result<usize, DiskFault> {
        if !self.answers() {
            return Err(DiskFault::Failed);
        }
        if self.interrupts > 0 {
            self.interrupts -= 1;
            return Err(DiskFault::Interrupted);
        }
        let bytes = match bytes_of(&self.files, file.bytes()) {
            None => return Err(DiskFault::NotFound),
            Some(bytes) => bytes,
        };
        Ok(copy_part(bytes, buf, at, self.at_most))
    }

    #[tactic(auto, using(crate::proofs::DurableLaws::lasts_same))]
    fn write(&mut self, file: &mut FilePath, bytes: &[u8]) -> Result<usize, DiskFault>
        ensures fits { IfOk result (λ n. n ≤ length bytes.now) }
        ensures written { IfOk result (λ n. Appends file.old (take n bytes.now) (Some self.old.tree) (Some self.new.tree)) }
        ensures refused { OnErr result (Some self.new.tree ≡ Some self.old.tree) }
        ensures lasts { Lasts (Some (durable_on self.old)) (Some (durable_on self.new)) }
        ensures file { file.new ≡ file.old }
        ensures some { IfOk result (λ n. n ≡ 0 → (length bytes.now ≡ 0) ⊎ (steady_of self.old ≡ None)) }
        ensures steady { IsSteady (steady_of self.old) (steady_of self.new) result }
        ensures settled { self.new.synced ≡ self.old.synced }
    {
        if !self.answers() {
            return Err(DiskFault::Failed);
        }
        if self.interrupts > 0 {
            self.interrupts -= 1;
            return Err(DiskFault::Interrupted);
        }
        let n = bytes.len().min(self.at_most.max(1));
        let n = match self.room {
            None => n,
            Some(room) => {
                let taken = (n as u64).min(room);
                if taken == 0 && n > 0 {
                    return Err(DiskFault::Failed);
                }
                self.room = Some(room - taken);
                taken as usize
            }
        };
        append_to(self.alloc, &mut self.files, file.bytes(), &bytes[..n])?;
        Ok(n)
    }

    #[tactic(auto, using(crate::proofs::DurableLaws::entries_last, crate::proofs::DurableLaws::entries_named, crate::proofs::DurableLaws::lasts_same))]
    fn sync_folder(&mut self, path: &str) -> Result<(), DiskFault>
        ensures named { OnOk result (NamesFiles path.now (Some self.old.tree) (Some (durable_on self.new))) }
        ensures same { Some self.new.tree ≡ Some self.old.tree }
        ensures lasts { Lasts (Some (durable_on self.old)) (Some (durable_on self.new)) }
        ensures steady { IsSteady (steady_of self.old) (steady_of self.new) result }
        ensures exact { OnOk result (self.new.synced ≡ self.old.synced ++ entries_in path.now self.old.tree.files) }
        ensures settled { OnErr result (self.new.synced ≡ self.old.synced) }
    {
        if !self.answers() {
            return Err(DiskFault::Failed);
        }
        let mut entries = entries_of(self.alloc, &self.files, path.as_bytes())?;
        self.synced.append(&mut entries)?;
        Ok(())
    }

    #[tactic(auto, using(crate::proofs::DurableLaws::synced_last, crate::proofs::DurableLaws::synced_durable, crate::proofs::DurableLaws::lasts_same))]
    fn sync(&mut self, file: &FilePath) -> Result<(), DiskFault>
        ensures synced { OnOk result (SyncsFile file.now (Some self.old.tree) (Some (durable_on self.old)) (Some (durable_on self.new))) }
        ensures same { Some self.new.tree ≡ Some self.old.tree }
        ensures lasts { Lasts (Some (durable_on self.old)) (Some (durable_on self.new)) }
        ensures steady { IsSteady (steady_of self.old) (steady_of self.new) result }
        ensures exact { OnOk result (self.new.synced ≡ synced_after file.now self.old) }
        ensures settled { OnErr result (self.new.synced ≡ self.old.synced) }
    {
        if !self.answers() {
            return Err(DiskFault::Failed);
        }
        let len = len_at(&self.files, file.bytes());
        note_synced(self.alloc, &mut self.synced, file.bytes(), len)?;
        Ok(())
    }
}
