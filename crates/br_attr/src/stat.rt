ghost use Rattle.std.specs.Prelude.{◌≡◌, true, ◌≤◌, ◌∷◌, ◌++◌, IfOk, OnOk, ℕ, pos, take, length, slice_index_or, flat_map};
ghost use Rattle.std.specs.List.{AllByRecursion};
ghost use Rattle.br_model.specs.Answer.{AnswersAlways};
ghost use Rattle.br_model.specs.Attribute.{read_numbers, read_stat, stat_from, stat_numbers, write_stat};
ghost use Rattle.br_model.specs.Number as number;
ghost use Rattle.br_model.specs.Text.{words};
ghost use Rattle.br_attr.specs.Fault.{fault_number};

use crate::fault::AttrFault;
use crate::number64::{read_number, write_number};
use std::alloc::{AllocError, Global};
use std::marker::Model;

/// The number of numbers of a file.
const COUNT: usize = 14;

/// The number of numbers that a record must have.
const NEEDED: usize = 13;

/// The numbers of a file on the system that was backed up: the fields of `stat`, and for a hard
/// link the index of the file that it names.
#[derive(Clone, Copy, Debug, PartialEq)]
pub struct Stat {
    dev: i64,
    ino: i64,
    mode: i64,
    nlink: i64,
    uid: i64,
    gid: i64,
    rdev: i64,
    size: i64,
    blksize: i64,
    blocks: i64,
    atime: i64,
    mtime: i64,
    ctime: i64,
    link_index: i64,
}

impl Model for Stat {
    ghost use Rattle.br_model.specs.Attribute as model;

    ghost Value = { model.Stat };

    ghost view = { λ s. record {
      dev = s.dev;
      ino = s.ino;
      mode = s.mode;
      nlink = s.nlink;
      uid = s.uid;
      gid = s.gid;
      rdev = s.rdev;
      size = s.size;
      blksize = s.blksize;
      blocks = s.blocks;
      atime = s.atime;
      mtime = s.mtime;
      ctime = s.ctime;
      link_index = s.link_index;
    } };

    ghost inverse = { λ s. record {
      dev = s.dev;
      ino = s.ino;
      mode = s.mode;
      nlink = s.nlink;
      uid = s.uid;
      gid = s.gid;
      rdev = s.rdev;
      size = s.size;
      blksize = s.blksize;
      blocks = s.blocks;
      atime = s.atime;
      mtime = s.mtime;
      ctime = s.ctime;
      link_index = s.link_index;
    } };
}

/// Returns the first 14 numbers of a text, followed by zeros, and the number of numbers read.
fn numbers_in(text: &[u8]) -> Result<([i64; COUNT], usize), AttrFault>
    ensures read { AnswersAlways (λ found. take found.1 found.0) fault_number result (read_numbers (take 14 (words text.now))) }
    ensures within { IfOk result (λ found. found.1 ≤ length found.0) }
    ensures zeros { IfOk result (λ found. (k : ℕ) → found.1 ≤ k → slice_index_or found.0 k (pos 0) ≡ pos 0) }
{
    let mut numbers = [0_i64; COUNT];
    let mut count = 0;
    for word in text
        .split(|byte| *byte == b' ')
        .filter(|word| !word.is_empty())
        .take(COUNT)
    {
        numbers[count] = read_number(word)?;
        count += 1;
    }
    Ok((numbers, count))
}

/// Appends numbers with a space before each.
fn push_numbers(text: &mut Vec<u8>, numbers: &[i64]) -> Result<(), AllocError>
    ensures { OnOk result (text.new.items ≡ text.old.items ++ flat_map (λ n. 32 ∷ number.write_number n) numbers.now) }
{
    for number in numbers {
        text.push(b' ')?;
        write_number(*number, text)?;
    }
    Ok(())
}

impl Stat {
    /// Makes the value of numbers in their order.
    #[tactic(auto, unfolding(br_model::specs::Attribute::stat_from))]
    fn from_numbers(numbers: [i64; COUNT]) -> Stat
        ensures { result ≡ stat_from numbers }
    {
        let [
            dev,
            ino,
            mode,
            nlink,
            uid,
            gid,
            rdev,
            size,
            blksize,
            blocks,
            atime,
            mtime,
            ctime,
            link_index,
        ] = numbers;
        Stat {
            dev,
            ino,
            mode,
            nlink,
            uid,
            gid,
            rdev,
            size,
            blksize,
            blocks,
            atime,
            mtime,
            ctime,
            link_index,
        }
    }

    /// Reads base 64 numbers with one or more spaces between them, before them and after them.
    /// Their order is dev, ino, mode, nlink, uid, gid, rdev, size, blksize, blocks, atime, mtime,
    /// ctime, LinkFI, as in Bacula's Developer's Guide ("Storage Media Output Format"). A missing
    /// LinkFI is 0, and what follows the fourteenth number is not read.
    ///
    /// # Errors
    ///
    /// - `BadNumber` at the first word that is not a number.
    /// - `MissingField` if there are fewer than 13 numbers.
    #[tactic(auto, unfolding(br_model::specs::Attribute::read_stat))]
    pub fn read(text: &[u8]) -> Result<Stat, AttrFault>
        ensures { AnswersAlways (λ s. s) fault_number result (read_stat text.now) }
    {
        let (numbers, count) = numbers_in(text)?;
        if count < NEEDED {
            return Err(AttrFault::MissingField);
        }
        Ok(Stat::from_numbers(numbers))
    }

    /// Returns the numbers in their order.
    fn numbers(&self) -> [i64; COUNT]
        ensures { result ≡ stat_numbers self.now }
    {
        let Stat {
            dev,
            ino,
            mode,
            nlink,
            uid,
            gid,
            rdev,
            size,
            blksize,
            blocks,
            atime,
            mtime,
            ctime,
            link_index,
        } = *self;
        [
            dev, ino, mode, nlink, uid, gid, rdev, size, blksize, blocks, atime, mtime, ctime,
            link_index,
        ]
    }

    /// States that each number fits 64 bits, a fact that other contracts need. It does nothing.
    pub fn has_64_bits(&self)
        ensures { AllByRecursion (λ z. number.is_64_bits z ≡ true) (stat_numbers self.now) }
    {
        let _ = self.numbers();
    }

    /// Appends the numbers, as `write` returns them.
    pub(crate) fn push(&self, text: &mut Vec<u8>) -> Result<(), AllocError>
        ensures { OnOk result (text.new.items ≡ text.old.items ++ write_stat self.now) }
    {
        let numbers = self.numbers();
        write_number(numbers[0], text)?;
        push_numbers(text, &numbers[1..])
    }

    /// Returns the text of the numbers: all 14 in the order of `read`, each as short as possible,
    /// with one space between two.
    pub fn write(&self, alloc: Global) -> Result<Vec<u8>, AllocError>
        ensures { IfOk result (λ text. text.items ≡ write_stat self.now) }
    {
        let mut text = Vec::new(alloc);
        self.push(&mut text)?;
        Ok(text)
    }

    /// Returns the device of the file.
    pub fn dev(&self) -> i64
        ensures { result ≡ self.now.dev }
    {
        self.dev
    }

    /// Returns the number of the file's inode.
    pub fn ino(&self) -> i64
        ensures { result ≡ self.now.ino }
    {
        self.ino
    }

    /// Returns the type and the permissions, as `stat` does.
    pub fn mode(&self) -> i64
        ensures { result ≡ self.now.mode }
    {
        self.mode
    }

    /// Returns the number of names of the file.
    pub fn nlink(&self) -> i64
        ensures { result ≡ self.now.nlink }
    {
        self.nlink
    }

    /// Returns the number of the owner.
    pub fn uid(&self) -> i64
        ensures { result ≡ self.now.uid }
    {
        self.uid
    }

    /// Returns the number of the group.
    pub fn gid(&self) -> i64
        ensures { result ≡ self.now.gid }
    {
        self.gid
    }

    /// Returns the device of a device file.
    pub fn rdev(&self) -> i64
        ensures { result ≡ self.now.rdev }
    {
        self.rdev
    }

    /// Returns the size in bytes.
    pub fn size(&self) -> i64
        ensures { result ≡ self.now.size }
    {
        self.size
    }

    /// Returns the block size of the file system in bytes.
    pub fn blksize(&self) -> i64
        ensures { result ≡ self.now.blksize }
    {
        self.blksize
    }

    /// Returns the number of blocks of 512 bytes that the file took.
    pub fn blocks(&self) -> i64
        ensures { result ≡ self.now.blocks }
    {
        self.blocks
    }

    /// Returns the time of the last read, in seconds since 1970.
    pub fn atime(&self) -> i64
        ensures { result ≡ self.now.atime }
    {
        self.atime
    }

    /// Returns the time of the last write, in seconds since 1970.
    pub fn mtime(&self) -> i64
        ensures { result ≡ self.now.mtime }
    {
        self.mtime
    }

    /// Returns the time of the last change of the inode, in seconds since 1970.
    pub fn ctime(&self) -> i64
        ensures { result ≡ self.now.ctime }
    {
        self.ctime
    }

    /// Returns LinkFI: for a hard link the index of the file that it names, else 0.
    pub fn link_index(&self) -> i64
        ensures { result ≡ self.now.link_index }
    {
        self.link_index
    }
}
