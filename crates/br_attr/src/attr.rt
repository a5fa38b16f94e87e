ghost use Rattle.std.specs.Prelude.{◌≡◌, ◌==◌, ◌^◌, ◌<◌, ◌≤◌, ◌++◌, ◌∷◌, [], true, not, decimal, Ok, IfOk, OnOk};
ghost use Rattle.std.specs.List.{before_first, list_all};
ghost use Rattle.br_model.specs.Answer.{Answers, AnswersAlways};
ghost use Rattle.br_model.specs.Attribute as model;
ghost use Rattle.br_attr.specs.Digits.{spelled10};
ghost use Rattle.br_attr.specs.Fault.{cause, fault_number};
ghost use Rattle.br_attr.specs.Parts.{of_parts};
ghost use Rattle.br_attr.specs.Path.{path_or_fault};

use crate::fault::AttrFault;
use crate::stat::Stat;
use br_model::attributes_read_back;
use br_types::{FileIndex, MAX_INDEX, Path, place_of};
use itoa::Buffer;
use std::alloc::{AllocError, Global};
use std::marker::Model;

/// Returns the text before the first byte `end`, and the text after it.
#[tactic(auto, unfolding(br_model::specs::Attribute::field))]
fn field(end: u8, text: &[u8]) -> Result<(&[u8], &[u8]), AttrFault>
    ensures { AnswersAlways (λ x. (x.0.now, x.1.now)) fault_number result (model.field end text.now) }
{
    match place_of(text, end) {
        None => Err(AttrFault::MissingField),
        Some(i) => Ok((&text[..i], &text[i + 1..])),
    }
}

/// Returns the number that decimal digits spell, if it fits 32 bits.
fn decimal_of(digits: &[u8]) -> Option<u32>
    ensures { result ≡ spelled10 digits.now }
{
    let mut value: u32 = 0;
    for byte in digits {
        if !byte.is_ascii_digit() {
            return None;
        }
        value = value.checked_mul(10)?.checked_add(u32::from(*byte - b'0'))?;
    }
    Some(value)
}

/// Reads a decimal number from 1 to 2^31 - 1, with any number of leading zeros.
#[tactic(auto, using(crate::proofs::DigitLaws::positive_is))]
fn read_positive(text: &[u8]) -> Result<u32, AttrFault>
    ensures same { AnswersAlways (λ n. n) fault_number result (model.read_positive text.now) }
    ensures in_range { IfOk result (λ n. (1 ≤ n) × (n < 2 ^ 31)) }
{
    let number = decimal_of(text).ok_or(AttrFault::BadNumber)?;
    if 1 <= number && number <= MAX_INDEX {
        Ok(number)
    } else {
        Err(AttrFault::BadNumber)
    }
}

/// Returns the text before the first NUL, or the whole text.
fn before_nul(text: &[u8]) -> &[u8]
    ensures same { result.now ≡ before_first (λ c. c == 0) text.now }
    ensures no_nul { list_all (λ c. not (c == 0)) result.now ≡ true }
{
    match place_of(text, 0) {
        None => text,
        Some(i) => &text[..i],
    }
}

/// Makes the path with these bytes.
#[tactic(auto, unfolding(br_model::specs::Name::checked_path, crate::specs::Path::path_or_fault))]
fn path_of(alloc: Global, bytes: &[u8]) -> Result<Path, AttrFault>
    ensures { Answers (λ path. path) cause result (path_or_fault bytes.now) }
{
    Ok(Path::new(alloc, bytes)?)
}

/// Appends a decimal number and a byte.
fn push_number(text: &mut Vec<u8>, number: u32, end: u8) -> Result<(), AllocError>
    ensures { OnOk result (text.new.items ≡ text.old.items ++ decimal number ++ end ∷ []) }
{
    let mut buffer = Buffer::new();
    text.extend_from_slice(buffer.format(number).as_bytes())?;
    text.push(end)?;
    Ok(())
}

/// Appends bytes and a NUL.
fn push_text(text: &mut Vec<u8>, bytes: &[u8]) -> Result<(), AllocError>
    ensures { OnOk result (text.new.items ≡ text.old.items ++ bytes.now ++ 0 ∷ []) }
{
    text.extend_from_slice(bytes)?;
    text.push(0)?;
    Ok(())
}

/// Returns the attribute record of a file with this index, type, path, numbers and link text, as
/// `Attr::write` does. It is read back if the type is from 1 to 2^31 - 1 and the link text has no
/// NUL.
#[tactic(auto, unfolding(br_model::specs::Attribute::write_attributes))]
pub fn write_attributes(
    alloc: Global,
    index: FileIndex,
    kind: u32,
    path: &Path,
    stat: &Stat,
    link: &[u8],
) -> Result<Vec<u8>, AllocError>
    ensures { IfOk result (λ text. text.items ≡ model.write_attributes (of_parts index kind path.now stat.now link.now)) }
{
    let mut text = Vec::new(alloc);
    push_number(&mut text, index.get(), b' ')?;
    push_number(&mut text, kind, b' ')?;
    push_text(&mut text, path.bytes())?;
    stat.push(&mut text)?;
    text.push(0)?;
    push_text(&mut text, link)?;
    Ok(text)
}

/// The attributes of a file: its index in its session, type, path, numbers and link text.
///
/// Types are Bacula's: 1 a hard link to a saved file, 2 an empty file, 3 a file, 4 a symbolic link,
/// 5 a directory. Of other types only the attributes are restored.
#[derive(Debug, Drop)]
pub struct Attr {
    index: FileIndex,
    kind: u32,
    path: Path,
    stat: Stat,
    link: Vec<u8>,
}

impl Model for Attr {
    ghost use Rattle.std.specs.Prelude.{◌≡◌, ◌==◌, ◌^◌, ◌<◌, ◌≤◌, true, not};
    ghost use Rattle.std.specs.List.{list_all};
    ghost use Rattle.br_model.specs.Attribute as model;

    ghost Value = { model.Attributes };

    ghost view = { λ a. record { index = a.index; kind = a.kind; path = a.path; stat = a.stat; link = a.link.items } };

    ghost invariant = { λ a. (1 ≤ a.kind) × (a.kind < 2 ^ 31) × (list_all (λ c. not (c == 0)) a.link.items ≡ true) };
}

impl Attr {
    /// Reads the attribute record of the file with this index: `INDEX TYPE PATH NUL NUMBERS NUL
    /// LINK NUL`. The last NUL may be missing, and what follows it is not read. This is stream 1 of
    /// Bacula's Developer's Guide ("Storage Media Output Format", Unix attributes).
    ///
    /// # Errors
    ///
    /// The first fault from left to right:
    /// - `MissingField` if no space follows the index or the type, no NUL follows the path or the
    ///   numbers, or there are fewer than 13 numbers.
    /// - `BadNumber` if the index or the type is not decimal from 1 to 2^31 - 1, or one of the
    ///   file's numbers is not a number.
    /// - `IndexDiffers` if the record has another index.
    /// - `BadName` if the path is not a path.
    #[tactic(auto, unfolding(br_model::specs::Attribute::read_attributes, crate::specs::Path::path_or_fault))]
    pub fn read(alloc: Global, bytes: &[u8], index: FileIndex) -> Result<Attr, AttrFault>
        ensures { Answers (λ a. a) cause result (model.read_attributes bytes.now index) }
    {
        let (index_text, rest) = field(b' ', bytes)?;
        if read_positive(index_text)? != index.get() {
            return Err(AttrFault::IndexDiffers);
        }
        let (kind_text, rest) = field(b' ', rest)?;
        let kind = read_positive(kind_text)?;
        let (path_text, rest) = field(0, rest)?;
        let path = path_of(alloc, path_text)?;
        let (stat_text, rest) = field(0, rest)?;
        let stat = Stat::read(stat_text)?;
        let link = Vec::from_slice(alloc, before_nul(rest))?;
        Ok(Attr {
            index,
            kind,
            path,
            stat,
            link,
        })
    }

    /// States that the attributes can be written and read back. It does nothing.
    fn can_be_written(&self)
        ensures { model.CanBeWritten self.now }
    {
        let _ = self.index.get();
        let _ = self.path.bytes();
        let stat = &self.stat;
        stat.has_64_bits();
    }

    /// Returns the attribute record: `INDEX TYPE PATH NUL NUMBERS NUL LINK NUL` with index and type
    /// in decimal without leading zeros, and the numbers as `Stat::write` returns them. `read`
    /// reads it back.
    pub fn write(&self, alloc: Global) -> Result<Vec<u8>, AllocError>
        ensures text { IfOk result (λ text. text.items ≡ model.write_attributes self.now) }
        ensures reads_back { IfOk result (λ text. model.read_attributes text.items self.now.index ≡ Ok self.now) }
    {
        attributes_read_back();
        self.can_be_written();
        write_attributes(
            alloc, self.index, self.kind, &self.path, &self.stat, &self.link,
        )
    }

    /// Returns the file's index in its session.
    pub fn index(&self) -> FileIndex
        ensures { result ≡ self.now.index }
    {
        self.index
    }

    /// Returns the type: 1 to 2^31 - 1.
    pub fn kind(&self) -> u32
        ensures same { result ≡ self.now.kind }
        ensures from_one { 1 ≤ self.now.kind }
        ensures to_greatest { self.now.kind < 2 ^ 31 }
    {
        self.kind
    }

    /// Returns the path under which the file was saved.
    pub fn path(&self) -> &Path
        ensures { result.now ≡ self.now.path }
    {
        &self.path
    }

    /// Returns the numbers of the file.
    pub fn stat(&self) -> Stat
        ensures { result ≡ self.now.stat }
    {
        self.stat
    }

    /// Returns the target of a hard link or a symbolic link; of other files mostly nothing.
    pub fn link(&self) -> &[u8]
        ensures same { result.now ≡ self.now.link }
        ensures no_nul { list_all (λ c. not (c == 0)) self.now.link ≡ true }
    {
        &self.link
    }

    /// Returns the type, the path, the numbers and the link text, without copying.
    pub fn into_parts(self) -> (u32, Path, Stat, Vec<u8>)
        ensures kind { result.0 ≡ self.kind }
        ensures path { result.1 ≡ self.path }
        ensures stat { result.2 ≡ self.stat }
        ensures link { result.3.items ≡ self.link }
    {
        let Attr {
            index: _,
            kind,
            path,
            stat,
            link,
        } = self;
        (kind, path, stat, link)
    }
}
