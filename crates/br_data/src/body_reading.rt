//! Reading the bytes of a file part by part: they are digested, and not kept.
ghost use Rattle.std.specs.Prelude.{◌≡◌, ◌++◌, [], length, IfOk, OnOk};
ghost use Rattle.br_data.specs.Content.{content_bytes};

use crate::file_bytes::{Content, FileBytes};
use crate::read_bytes::ReadBytes;
use md5::{Digest, Md5};
use std::alloc::{AllocError, Global};
use std::marker::Model;

/// The bytes of a file that were read so far. They are digested, and stay where they were read.
#[derive(Drop)]
pub struct Reading {
    hasher: Md5,
    len: usize,
    read: ReadBytes,
}

impl Model for Reading {
    ghost use Rattle.std.specs.Prelude.{◌≡◌, ℕ, List, length};
    ghost use Rattle.md5.specs.Md5.{Holds};

    ghost Value = { List ℕ };

    ghost view = { λ r. r.read.bytes };

    ghost invariant = { λ r. (r.len ≡ length r.read.bytes) × Holds r.hasher r.read.bytes };
}

/// Returns these bytes, `len` in number, as those of a file that are not in memory.
fn left(alloc: Global, len: usize, read: ReadBytes) -> Content
    requires { len ≡ length read.bytes }
    ensures { content_bytes result ≡ read.bytes }
{
    if len == 0 {
        Content::Held(Vec::new(alloc))
    } else {
        Content::Left(read)
    }
}

impl Reading {
    /// Returns a reading of no bytes.
    pub fn new() -> Reading
        ensures { result ≡ [] }
    {
        Reading {
            hasher: Md5::new(),
            len: 0,
            read: ReadBytes::none(),
        }
    }

    /// Adds the bytes that follow.
    ///
    /// # Errors
    ///
    /// `AllocError` if the number of bytes does not fit `usize`.
    pub fn push(&mut self, bytes: &[u8]) -> Result<(), AllocError>
        ensures { OnOk result (self.new ≡ self.old ++ bytes.now) }
    {
        let Some(len) = self.len.checked_add(bytes.len()) else {
            return Err(AllocError);
        };
        self.hasher.update(bytes);
        self.len = len;
        self.read = ReadBytes::and(&self.read, bytes);
        Ok(())
    }

    /// Returns a copy, to which other bytes can be added.
    ///
    /// # Errors
    ///
    /// `AllocError` if memory runs out.
    pub fn copy(&self) -> Result<Reading, AllocError>
        ensures { IfOk result (λ reading. reading ≡ self.now) }
    {
        Ok(Reading {
            hasher: self.hasher.clone()?,
            len: self.len,
            read: self.read.copy(),
        })
    }

    /// Returns the bytes with their digest. They are not in memory.
    pub fn finish(self, alloc: Global) -> FileBytes
        ensures { result ≡ self }
    {
        let Reading { hasher, len, read } = self;
        let digest = hasher.finalize();
        FileBytes::of_content(left(alloc, len, read), len, digest)
    }
}
