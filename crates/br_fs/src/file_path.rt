ghost use Rattle.std.specs.Prelude.{◌≡◌, IfOk, IsTrue};

use std::alloc::{AllocError, Global};
use std::marker::Model;

/// The path of a file.
#[derive(Drop)]
pub struct FilePath {
    bytes: Vec<u8>,
}

impl Model for FilePath {
    ghost use Rattle.std.specs.Prelude.{List, ℕ};

    ghost Value = { List ℕ };

    ghost view = { λ p. p.bytes.items };
}

impl FilePath {
    /// Returns a path of these bytes.
    pub fn new(alloc: Global, path: &[u8]) -> Result<FilePath, AllocError>
        ensures { IfOk result (λ p. p ≡ path.now) }
    {
        Ok(FilePath {
            bytes: Vec::from_slice(alloc, path)?,
        })
    }

    /// Returns the path's bytes.
    pub fn bytes(&self) -> &[u8]
        ensures { result.now ≡ self.now }
    {
        &self.bytes
    }
}
