ghost use Rattle.std.specs.Prelude.{◌≡◌, true, drop, IfOk};
ghost use Rattle.std.specs.List.{list_all, slice_split};
ghost use Rattle.br_model.specs.Answer.{Answers};
ghost use Rattle.br_model.specs.Name.{is_slash, is_component, are_components, is_path, checked_path};
ghost use Rattle.br_types.specs.Fault.{cause};

use crate::bytes::has_no_nul;
use crate::fault::NameFault;
use bstr::BStr;
use std::alloc::{AllocError, Global};
use std::fmt;
use std::marker::Model;

/// The greatest number of bytes of a path.
const MAX_LEN: usize = 4096;

fn is_component_of(part: &[u8]) -> bool
    ensures { result ≡ is_component part.now }
{
    !part.is_empty() && part != b".".as_slice() && part != b"..".as_slice()
}

fn all_are_components(bytes: &[u8]) -> bool
    ensures { result ≡ list_all is_component (slice_split is_slash bytes.now) }
{
    bytes
        .split(|byte| *byte == b'/')
        .all(|part| is_component_of(part))
}

fn are_components_of(bytes: &[u8]) -> bool
    ensures { result ≡ are_components (slice_split is_slash bytes.now) }
{
    match bytes.split_last() {
        None => true,
        Some((last, front)) => {
            if *last == b'/' {
                all_are_components(front)
            } else {
                all_are_components(bytes)
            }
        }
    }
}

/// Returns if these bytes are a path. It takes no memory.
#[tactic(auto, unfolding(br_model::specs::Name::is_path))]
pub fn is_path_of(bytes: &[u8]) -> bool
    ensures { result ≡ is_path bytes.now }
{
    match bytes {
        [b'/', rest @ ..] => bytes.len() <= MAX_LEN && has_no_nul(bytes) && are_components_of(rest),
        _ => false,
    }
}

/// An absolute path: it begins with `/`, has at most 4,096 bytes, no NUL, and no component that is
/// empty, `.` or `..`. One `/` at the end marks a directory, so `/a` and `/a/` are two paths. `/`
/// is a path, too.
#[derive(Drop)]
pub struct Path {
    bytes: Vec<u8>,
}

impl Model for Path {
    ghost use Rattle.std.specs.Prelude.{◌≡◌, true, List, ℕ};
    ghost use Rattle.br_model.specs.Name.{is_path};

    ghost Value = { List ℕ };

    ghost view = { λ p. p.bytes.items };

    ghost invariant = { λ p. is_path p.bytes.items ≡ true };
}

impl fmt::Debug for Path {
    ghost use Rattle.bstr.specs.Show.{debug_text};

    ghost debug_output = { λ path. debug_text path };

    fn fmt<W: fmt::Write>(&self, f: &mut fmt::Formatter<W>) -> fmt::Result {
        fmt::Debug::fmt(&BStr::new(self.bytes()), f)
    }
}

impl Path {
    /// Makes the path with these bytes.
    ///
    /// # Errors
    ///
    /// `BadPath` if the bytes are not a path.
    #[tactic(auto, unfolding(br_model::specs::Name::checked_path))]
    pub fn new(alloc: Global, bytes: &[u8]) -> Result<Path, NameFault>
        ensures { Answers (λ path. path) cause result (checked_path bytes.now) }
    {
        if !is_path_of(bytes) {
            return Err(NameFault::BadPath);
        }
        Ok(Path {
            bytes: Vec::from_slice(alloc, bytes)?,
        })
    }

    /// Returns the bytes of the path.
    pub fn bytes(&self) -> &[u8]
        ensures same { result.now ≡ self.now }
        ensures valid { is_path self.now ≡ true }
    {
        &self.bytes
    }

    /// Returns an equal path.
    pub fn copy(&self, alloc: Global) -> Result<Path, AllocError>
        ensures { IfOk result (λ path. path ≡ self.now) }
    {
        Ok(Path {
            bytes: Vec::from_slice(alloc, &self.bytes)?,
        })
    }
}
