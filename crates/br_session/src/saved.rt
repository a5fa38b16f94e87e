ghost use Rattle.std.specs.Prelude.{◌≡◌, IfOk};
ghost use Rattle.br_model.specs.Answer.{AnswersAlways};
ghost use Rattle.br_model.specs.Attribute as model;
ghost use Rattle.br_model.specs.File.{has_bytes};
ghost use Rattle.br_model.specs.Session.{has_link, can_be_saved, checked_file, has_digest};
ghost use Rattle.br_model.specs.SessionHolds.{IsToSave};
ghost use Rattle.br_session.specs.Fault.{fault_number};
ghost use Rattle.br_session.specs.Records.{of_parts};

use crate::fault::SessionFault;
use br_attr::Stat;
use br_types::{Path, has_no_nul, is_directory_path};
use std::marker::Model;

/// The greatest number of bytes of a saved file: 2^30.
const MAX_BYTES: usize = 1_073_741_824;

/// The greatest number of bytes of a link text.
const MAX_LINK: usize = 4096;

/// Returns whether files of the type have a link text.
fn has_link_of(kind: u32) -> bool
    ensures { result ≡ has_link kind }
{
    kind == 1 || kind == 4
}

/// Returns whether a file with these parts can be saved.
#[tactic(auto, unfolding(br_model::specs::Session::can_be_saved))]
fn can_be_saved_of(kind: u32, path: &Path, link: &[u8], bytes: &[u8]) -> bool
    ensures { (stat : model.Stat) → result ≡ can_be_saved (of_parts path.now kind stat link.now bytes.now) }
{
    1 <= kind
        && kind <= 5
        && (kind == 5) == is_directory_path(path.bytes())
        && (kind == 3 || bytes.is_empty())
        && (has_link_of(kind) || link.is_empty())
        && link.len() <= MAX_LINK
        && has_no_nul(link)
}

/// A file to save: its type, path, numbers, link text and bytes, and whether its digest is wanted.
///
/// Types are Bacula's: 1 a hard link to a file saved earlier in the session, 2 an empty file, 3 a
/// file, 4 a symbolic link, 5 a directory.
#[derive(Drop)]
pub struct SavedFile {
    path: Path,
    kind: u32,
    stat: Stat,
    link: Vec<u8>,
    bytes: Vec<u8>,
    digest: bool,
}

impl Model for SavedFile {
    ghost use Rattle.br_model.specs.Session as model;
    ghost use Rattle.br_session.specs.Records.{IsSaved, of_parts};

    ghost Value = { model.ToSave };

    ghost view = { λ f. record {
      file = record { path = f.path; kind = f.kind; stat = f.stat; link = f.link.items; bytes = f.bytes.items };
      digest = f.digest;
    } };

    ghost invariant = { λ f. IsSaved (of_parts f.path f.kind f.stat f.link.items f.bytes.items) };
}

impl SavedFile {
    /// Makes the file with these parts.
    ///
    /// # Errors
    ///
    /// - `TooLarge` for more than 2^30 bytes.
    /// - `BadSavedFile` for a type outside 1 to 5; for a path that ends in `/` unless the type is 5, or
    ///   does not if it is 5; for bytes unless the type is 3; for a link text unless the type is 1 or
    ///   4; for a link text with a NUL or of more than 4,096 bytes.
    #[tactic(auto, unfolding(br_model::specs::Session::checked_file))]
    pub fn new(
        path: Path,
        kind: u32,
        stat: Stat,
        link: Vec<u8>,
        bytes: Vec<u8>,
        digest: bool,
    ) -> Result<SavedFile, SessionFault>
        ensures file { AnswersAlways (λ f. f.file) fault_number result
            (checked_file (of_parts path kind stat link.items bytes.items)) }
        ensures digest { IfOk result (λ f. f.digest ≡ digest) }
    {
        if bytes.len() > MAX_BYTES {
            return Err(SessionFault::TooLarge);
        }
        if !can_be_saved_of(kind, &path, &link, &bytes) {
            return Err(SessionFault::BadSavedFile);
        }
        Ok(SavedFile {
            path,
            kind,
            stat,
            link,
            bytes,
            digest,
        })
    }

    /// Returns the path under which it is saved.
    pub fn path(&self) -> &Path
        ensures same { result.now ≡ self.now.file.path }
        ensures valid { IsToSave self.now }
    {
        let _ = self.path.bytes();
        let stat = &self.stat;
        stat.has_64_bits();
        &self.path
    }

    /// Returns the type: 1 to 5.
    pub fn kind(&self) -> u32
        ensures { result ≡ self.now.file.kind }
    {
        self.kind
    }

    /// Returns the numbers of the file.
    pub fn stat(&self) -> Stat
        ensures { result ≡ self.now.file.stat }
    {
        self.stat
    }

    /// Returns the target of a hard link or a symbolic link; of other files nothing.
    pub fn link(&self) -> &[u8]
        ensures { result.now ≡ self.now.file.link }
    {
        &self.link
    }

    /// Returns the bytes of the file.
    pub fn bytes(&self) -> &[u8]
        ensures { result.now ≡ self.now.file.bytes }
    {
        &self.bytes
    }

    /// Returns whether a digest of the bytes is wanted.
    pub fn digest(&self) -> bool
        ensures { result ≡ self.now.digest }
    {
        self.digest
    }

    /// Returns whether files of its type have bytes: types 2 and 3.
    pub(crate) fn has_bytes(&self) -> bool
        ensures { result ≡ has_bytes self.now.file.kind }
    {
        matches!(self.kind, 2 | 3)
    }

    /// Returns whether a digest of the bytes is written: one is wanted, and the type is 2 or 3.
    pub fn has_digest(&self) -> bool
        ensures { result ≡ has_digest self.now }
    {
        self.has_bytes() && self.digest
    }
}
