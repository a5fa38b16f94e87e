//! A maker over memory.
ghost use Rattle.std.specs.Prelude.{◌≡◌, ◌∷◌, [], Some, None, option_map, bytes_eq, find, OnOk, OnErr, Err};
ghost use Rattle.br_fs.specs.declared.fault.DiskFault.TheVariants.{NotFound};
ghost use Rattle.std.specs.Option.{option_copied};
ghost use Rattle.br_fs.specs.Making.{Else, node_at, kind_of, Sets};
ghost use Rattle.br_fs.specs.MemMaker.{begins_with_slash, bytes_in, is_below, is_filled, is_filled_at};
ghost use Rattle.br_fs.specs.MemMaker.{node_of, nodes_of, with_calls};

use crate::fault::DiskFault;
use crate::file_path::FilePath;
use crate::kind::Kind;
use crate::maker::FileMaker;
use std::alloc::{AllocError, Global};
use std::io;
use std::io::{ErrorKind, Write};
use std::marker::Model;

/// What a change left at a path.
#[derive(Drop)]
pub(crate) enum Left {
    Nothing,
    Else(Kind),
    Opened(u64),
    Bytes(Vec<u8>),
}

impl Left {
    /// Returns what a call finds, if anything is left.
    fn kind(&self) -> Option<Kind>
        ensures { result ≡ option_map kind_of (node_of self.now) }
    {
        match self {
            Left::Nothing => None,
            Left::Else(kind) => Some(*kind),
            Left::Opened(_) | Left::Bytes(_) => Some(Kind::File),
        }
    }

    /// Returns the bytes of a file that is not being written.
    fn known_bytes(&self) -> Option<&[u8]>
        ensures { option_map (λ b. b.now) result ≡ bytes_in (node_of self.now) }
    {
        match self {
            Left::Bytes(bytes) => Some(bytes),
            Left::Nothing | Left::Else(_) | Left::Opened(_) => None,
        }
    }
}

/// A new file in memory. Its writes may be short or interrupted, and it may be full.
#[derive(Drop)]
pub struct MemNew {
    number: u64,
    bytes: Vec<u8>,
    at_most: usize,
    interrupts: u64,
    room: usize,
}

impl Write for MemNew {
    ghost use Rattle.std.specs.Prelude.{Some, ◌∷◌};

    ghost contents = { λ f. Some (f.number ∷ f.bytes.items) };

    fn write(&mut self, buf: &[u8]) -> io::Result<usize> {
        if self.interrupts > 0 {
            self.interrupts -= 1;
            return Err(io::Error::from(ErrorKind::Interrupted));
        }
        let n = buf.len().min(self.at_most.max(1)).min(self.room);
        if n == 0 && !buf.is_empty() {
            return Err(io::Error::from(ErrorKind::StorageFull));
        }
        self.bytes.extend_from_slice(&buf[..n])?;
        self.room -= n;
        Ok(n)
    }

    fn flush(&mut self) -> io::Result<()> {
        Ok(())
    }
}

/// A maker over memory, for tests. Its calls may fail from a given call on, and its new files
/// may be full.
#[derive(Drop)]
pub struct MemMaker {
    alloc: Global,
    /// What was made and removed, the last change first.
    changes: Vec<(FilePath, Left)>,
    calls_left: Option<u64>,
    at_most: usize,
    interrupts: u64,
    room: usize,
}

impl Model for MemMaker {
    ghost use Rattle.br_fs.specs.MemMaker.{Made, nodes_of};

    ghost Value = { Made };

    ghost view = { λ m. record { nodes = nodes_of m.changes.items; calls_left = m.calls_left } };
}

/// Returns the last change at the path.
fn change_at<'a>(changes: &'a [(FilePath, Left)], path: &[u8]) -> Option<&'a (FilePath, Left)>
    ensures { option_copied result ≡ find (λ c. bytes_eq c.0 path.now) changes.now }
{
    changes.iter().find(|c| c.0.bytes() == path)
}

/// Returns what a call finds at the path.
fn kind_at(changes: &[(FilePath, Left)], path: &[u8]) -> Option<Kind>
    ensures { result ≡ option_map kind_of (node_at (nodes_of changes.now) path.now) }
{
    match change_at(changes, path) {
        None => None,
        Some(change) => change.1.kind(),
    }
}

/// Returns the bytes of the file at the path.
fn bytes_at<'a>(changes: &'a [(FilePath, Left)], path: &[u8]) -> Option<&'a [u8]>
    ensures { option_map (λ b. b.now) result ≡ bytes_in (node_at (nodes_of changes.now) path.now) }
{
    match change_at(changes, path) {
        None => None,
        Some(change) => change.1.known_bytes(),
    }
}

/// Returns whether the bytes begin with a slash.
fn begins_with_slash(bytes: &[u8]) -> bool
    ensures { result ≡ begins_with_slash bytes.now }
{
    match bytes {
        [] => false,
        [first, ..] => *first == b'/',
    }
}

/// Returns whether the path begins with the folder's and a slash.
#[tactic(auto, using(crate::proofs::EmptyLaws::short_is_not_below))]
pub(crate) fn is_below(folder: &[u8], path: &[u8]) -> bool
    ensures { result ≡ is_below folder.now path.now }
{
    if path.len() < folder.len() {
        return false;
    }
    let (front, rest) = path.split_at(folder.len());
    begins_with_slash(rest) && front == folder
}

/// Returns whether something is at the path, and the path is below the folder.
fn is_filled_at(folder: &[u8], changes: &[(FilePath, Left)], path: &[u8]) -> bool
    ensures { result ≡ is_filled_at folder.now (nodes_of changes.now) path.now }
{
    is_below(folder, path) && kind_at(changes, path).is_some()
}

/// Returns whether something is below the folder.
fn is_filled(folder: &[u8], changes: &[(FilePath, Left)]) -> bool
    ensures { result ≡ is_filled folder.now changes.now }
{
    changes
        .iter()
        .any(|c| is_filled_at(folder, changes, c.0.bytes()))
}

/// Adds a change. A refusal changes nothing.
#[tactic(auto, using(crate::proofs::MakingLaws::put_first))]
fn set_at(changes: &mut Vec<(FilePath, Left)>, path: FilePath, left: Left) -> Result<(), AllocError>
    ensures ok { OnOk result (nodes_of changes.new.items ≡ (path, node_of left) ∷ nodes_of changes.old.items) }
    ensures err { OnErr result (nodes_of changes.new.items ≡ nodes_of changes.old.items) }
{
    changes.insert(0, (path, left))?;
    Ok(())
}

impl MemMaker {
    /// Returns a maker with nothing at any path.
    pub fn new(alloc: Global) -> MemMaker
        ensures { result ≡ record { nodes = []; calls_left = None } }
    {
        MemMaker {
            alloc,
            changes: Vec::new(alloc),
            calls_left: None,
            at_most: usize::MAX,
            interrupts: 0,
            room: usize::MAX,
        }
    }

    /// Makes the calls fail after this number of them.
    pub fn fail_after(&mut self, calls: u64)
        ensures { self.new ≡ with_calls calls self.old }
    {
        self.calls_left = Some(calls);
    }

    /// Makes the writes of new files short: of at most this number of bytes, or of one if it is 0.
    /// The first writes of each file are interrupted, and no file takes more bytes than `room`.
    pub fn shorten(&mut self, at_most: usize, interrupts: u64, room: usize)
        ensures { self.new ≡ self.old }
    {
        self.at_most = at_most;
        self.interrupts = interrupts;
        self.room = room;
    }

    /// Places a link, a folder or something else at a path, as another program may.
    pub fn plant(&mut self, path: &str, kind: Kind) -> Result<(), DiskFault>
        ensures ok { OnOk result (Sets path.now (Some (Else kind)) (Some self.old.nodes) (Some self.new.nodes)) }
        ensures err { OnErr result (self.new.nodes ≡ self.old.nodes) }
        ensures calls { self.new.calls_left ≡ self.old.calls_left }
    {
        self.leave(path, Left::Else(kind))
    }

    /// Returns the bytes of the file at the path, if a file is there that is not being written.
    pub fn bytes(&self, path: &str) -> Option<&[u8]>
        ensures { option_map (λ b. b.now) result ≡ bytes_in (node_at self.now.nodes path.now) }
    {
        bytes_at(&self.changes, path.as_bytes())
    }

    /// Counts a call. Returns whether it succeeds.
    fn answers(&mut self) -> bool
        ensures { self.new.nodes ≡ self.old.nodes }
    {
        match self.calls_left {
            None => true,
            Some(0) => false,
            Some(n) => {
                self.calls_left = Some(n - 1);
                true
            }
        }
    }

    /// Returns a number that no earlier file has.
    fn next_number(&self) -> u64 {
        self.changes.len() as u64
    }

    /// Checks that nothing is at the path.
    #[tactic(auto, using(crate::proofs::MakingLaws::no_kind))]
    fn check_free(&self, path: &str) -> Result<(), DiskFault>
        ensures { OnOk result (node_at self.now.nodes path.now ≡ None) }
    {
        match kind_at(&self.changes, path.as_bytes()) {
            Some(_) => Err(DiskFault::Exists),
            None => Ok(()),
        }
    }

    /// Records that this is at the path.
    fn leave(&mut self, path: &str, left: Left) -> Result<(), DiskFault>
        ensures set { OnOk result (Sets path.now (node_of left) (Some self.old.nodes) (Some self.new.nodes)) }
        ensures refused { OnErr result (self.new.nodes ≡ self.old.nodes) }
        ensures calls { self.new.calls_left ≡ self.old.calls_left }
        ensures known { result ≡ Err NotFound → ⊥ }
    {
        let kept = FilePath::new(self.alloc, path.as_bytes())?;
        set_at(&mut self.changes, kept, left)?;
        Ok(())
    }
}

impl FileMaker for MemMaker {
    ghost use Rattle.std.specs.Prelude.{◌≡◌, Some, None};

    type New = MemNew;

    ghost nodes = { λ m. Some m.nodes };

    ghost is_steady = { λ m. m.calls_left ≡ None };

    #[tactic(auto, using(crate::proofs::MakingLaws::no_kind))]
    fn look(&mut self, path: &str) -> Result<Kind, DiskFault> {
        if !self.answers() {
            return Err(DiskFault::Failed);
        }
        match kind_at(&self.changes, path.as_bytes()) {
            None => Err(DiskFault::NotFound),
            Some(kind) => Ok(kind),
        }
    }

    #[tactic(auto, using(crate::proofs::EmptyLaws::empty_is, crate::proofs::EmptyLaws::not_steady, crate::proofs::EmptyLaws::nothing_there, crate::proofs::EmptyLaws::no_folder_there))]
    fn is_empty(&self, path: &str) -> Result<bool, DiskFault> {
        if let Some(0) = self.calls_left {
            return Err(DiskFault::Failed);
        }
        match kind_at(&self.changes, path.as_bytes()) {
            Some(Kind::Folder) => Ok(!is_filled(path.as_bytes(), &self.changes)),
            Some(Kind::File | Kind::Link | Kind::Other) => Err(DiskFault::Failed),
            None => Err(DiskFault::NotFound),
        }
    }

    fn make_folder(&mut self, path: &str) -> Result<(), DiskFault> {
        if !self.answers() {
            return Err(DiskFault::Failed);
        }
        self.check_free(path)?;
        self.leave(path, Left::Else(Kind::Folder))?;
        Ok(())
    }

    fn make_file(&mut self, path: &str) -> Result<MemNew, DiskFault> {
        if !self.answers() {
            return Err(DiskFault::Failed);
        }
        let number = self.next_number();
        self.check_free(path)?;
        self.leave(path, Left::Opened(number))?;
        Ok(MemNew {
            number,
            bytes: Vec::new(self.alloc),
            at_most: self.at_most,
            interrupts: self.interrupts,
            room: self.room,
        })
    }

    #[tactic(auto, using(crate::proofs::MakingLaws::set_keeps, crate::proofs::MakingLaws::same_keeps))]
    fn finish(&mut self, path: &str, file: MemNew) -> Result<(), DiskFault> {
        if !self.answers() {
            return Err(DiskFault::Failed);
        }
        self.leave(path, Left::Bytes(file.bytes))?;
        Ok(())
    }

    #[tactic(auto, using(crate::proofs::MakingLaws::no_kind))]
    fn remove(&mut self, path: &str) -> Result<(), DiskFault> {
        if !self.answers() {
            return Err(DiskFault::Failed);
        }
        match kind_at(&self.changes, path.as_bytes()) {
            None => return Err(DiskFault::NotFound),
            Some(Kind::Folder) => return Err(DiskFault::Failed),
            Some(_) => {}
        }
        self.leave(path, Left::Nothing)?;
        Ok(())
    }
}
