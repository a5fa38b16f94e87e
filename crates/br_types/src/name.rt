ghost use Rattle.std.specs.Prelude.{◌≡◌, true, IfOk};
ghost use Rattle.std.specs.List.{list_all};
ghost use Rattle.br_model.specs.Answer.{Answers};
ghost use Rattle.br_model.specs.Name.{is_name_byte, is_name, is_volume_name, checked_name, checked_volume_name};
ghost use Rattle.br_types.specs.Fault.{cause};

use crate::fault::NameFault;
use bstr::BStr;
use std::alloc::{AllocError, Global};
use std::fmt;
use std::marker::Model;

/// The greatest number of bytes of a name.
const MAX_LEN: usize = 127;

fn is_name_byte_of(byte: u8) -> bool
    ensures { result ≡ is_name_byte byte }
{
    byte.is_ascii_alphanumeric() || matches!(byte, b'-' | b'_' | b'.' | b':' | b' ')
}

fn are_name_bytes(bytes: &[u8]) -> bool
    ensures { result ≡ list_all is_name_byte bytes.now }
{
    bytes.iter().all(|byte| is_name_byte_of(*byte))
}

#[tactic(auto, unfolding(br_model::specs::Name::is_name))]
fn is_name_of(bytes: &[u8]) -> bool
    ensures { result ≡ is_name bytes.now }
{
    1 <= bytes.len() && bytes.len() <= MAX_LEN && are_name_bytes(bytes)
}

/// The name of a client or a file set: 1 to 127 ASCII letters, digits, spaces or bytes of `-_.:`.
#[derive(Drop)]
pub struct Name {
    bytes: Vec<u8>,
}

impl Model for Name {
    ghost use Rattle.std.specs.Prelude.{◌≡◌, true, List, ℕ};
    ghost use Rattle.br_model.specs.Name.{is_name};

    ghost Value = { List ℕ };

    ghost view = { λ n. n.bytes.items };

    ghost invariant = { λ n. is_name n.bytes.items ≡ true };
}

impl fmt::Debug for Name {
    ghost use Rattle.bstr.specs.Show.{debug_text};

    ghost debug_output = { λ name. debug_text name };

    fn fmt<W: fmt::Write>(&self, f: &mut fmt::Formatter<W>) -> fmt::Result {
        fmt::Debug::fmt(&BStr::new(self.bytes()), f)
    }
}

impl Name {
    /// Makes the name with these bytes.
    ///
    /// # Errors
    ///
    /// `BadName` if the bytes are not a name.
    #[tactic(auto, unfolding(br_model::specs::Name::checked_name))]
    pub fn new(alloc: Global, bytes: &[u8]) -> Result<Name, NameFault>
        ensures { Answers (λ name. name) cause result (checked_name bytes.now) }
    {
        if !is_name_of(bytes) {
            return Err(NameFault::BadName);
        }
        Ok(Name {
            bytes: Vec::from_slice(alloc, bytes)?,
        })
    }

    /// Returns the bytes of the name.
    pub fn bytes(&self) -> &[u8]
        ensures same { result.now ≡ self.now }
        ensures valid { is_name self.now ≡ true }
    {
        &self.bytes
    }

    /// Returns an equal name.
    pub fn copy(&self, alloc: Global) -> Result<Name, AllocError>
        ensures { IfOk result (λ name. name ≡ self.now) }
    {
        Ok(Name {
            bytes: Vec::from_slice(alloc, &self.bytes)?,
        })
    }
}

/// The name of a volume: any name but `.` and `..`, so that a file in a folder can have it.
#[derive(Debug, Drop)]
pub struct VolName {
    name: Name,
}

impl Model for VolName {
    ghost use Rattle.std.specs.Prelude.{◌≡◌, true, List, ℕ};
    ghost use Rattle.br_model.specs.Name.{is_volume_name};

    ghost Value = { List ℕ };

    ghost view = { λ v. v.name };

    ghost invariant = { λ v. is_volume_name v.name ≡ true };
}

impl VolName {
    /// Makes the volume's name with these bytes.
    ///
    /// # Errors
    ///
    /// `BadName` if the bytes are not a name, or are `.` or `..`.
    #[tactic(auto, unfolding(br_model::specs::Name::checked_name, br_model::specs::Name::checked_volume_name, br_model::specs::Name::is_volume_name))]
    pub fn new(alloc: Global, bytes: &[u8]) -> Result<VolName, NameFault>
        ensures { Answers (λ name. name) cause result (checked_volume_name bytes.now) }
    {
        if bytes == b".".as_slice() || bytes == b"..".as_slice() {
            return Err(NameFault::BadName);
        }
        Ok(VolName {
            name: Name::new(alloc, bytes)?,
        })
    }

    /// Returns the bytes of the name.
    pub fn bytes(&self) -> &[u8]
        ensures same { result.now ≡ self.now }
        ensures valid { is_volume_name self.now ≡ true }
    {
        self.name.bytes()
    }

    /// Returns an equal name.
    pub fn copy(&self, alloc: Global) -> Result<VolName, AllocError>
        ensures { IfOk result (λ name. name ≡ self.now) }
    {
        Ok(VolName {
            name: self.name.copy(alloc)?,
        })
    }
}
