//! The bytes of a restored file.
ghost use Rattle.std.specs.Prelude.{◌≡◌, ◌++◌, [], length, IfOk, OnErr, OnOk};
ghost use Rattle.std.specs.Io.KnownBytes.{Appends};
ghost use Rattle.md5.specs.Md5.{md5};
ghost use Rattle.br_data.specs.Content.{content_bytes};
ghost use Rattle.br_data.specs.BodyParts.{joined};
ghost use Rattle.br_data.specs.BodyWritten.{AppendsFront};

use crate::body_part::{Part, push_part};
use crate::read_bytes::ReadBytes;
use md5::{Digest, Md5};
use std::alloc::{AllocError, Global};
use std::io;
use std::io::Write;
use std::marker::Model;
use std::sync::ArcSlice;

/// The bytes of a file, in memory or not.
#[derive(Drop)]
pub(crate) enum Content {
    /// Parts that are shared with the fragments in which they were found.
    Held(Vec<Part>),
    /// Bytes that were read part by part, and stay where they were read.
    Left(ReadBytes),
}

/// The bytes of a restored file, with their number and their MD5 digest, which is computed once.
#[derive(Drop)]
pub struct FileBytes {
    content: Content,
    len: usize,
    digest: [u8; 16],
}

impl Model for FileBytes {
    ghost use Rattle.std.specs.Prelude.{◌≡◌, ℕ, List, length};
    ghost use Rattle.md5.specs.Md5.{md5};
    ghost use Rattle.br_data.specs.Content.{content_bytes};

    ghost Value = { List ℕ };

    ghost view = { λ b. content_bytes b.content };

    ghost invariant = { λ b. (b.len ≡ length (content_bytes b.content)) × (b.digest ≡ md5 (content_bytes b.content)) };
}

/// Returns the MD5 digest of the bytes of the parts, one part after another.
///
/// # Errors
///
/// `AllocError` if bytes are not in memory.
fn digest_of(parts: &[Part]) -> Result<[u8; 16], AllocError>
    ensures { IfOk result (λ digest. digest ≡ md5 (joined parts.now)) }
{
    let mut hasher = Md5::new();
    for part in parts {
        part.digest(&mut hasher)?;
    }
    Ok(hasher.finalize())
}

/// Writes the bytes of the parts, one part after another, or the first of them if a write fails. It
/// fails with `OutOfMemory` at the first bytes that are not in memory.
fn write_parts<W: Write>(writer: &mut W, parts: &[Part]) -> io::Result<()>
    ensures all { OnOk result (Appends (W.contents writer.old) (W.contents writer.new) (joined parts.now)) }
    ensures front { OnErr result (AppendsFront (W.contents writer.old) (W.contents writer.new) (joined parts.now)) }
{
    for part in parts {
        part.write_to(writer)?;
    }
    Ok(())
}

/// Appends copies of the bytes of the parts.
///
/// # Errors
///
/// `AllocError` if memory runs out, or bytes are not in memory.
fn push_all(bytes: &mut Vec<u8>, parts: &[Part]) -> Result<(), AllocError>
    ensures { OnOk result (bytes.new.items ≡ bytes.old.items ++ joined parts.now) }
{
    for part in parts {
        part.push_to(bytes)?;
    }
    Ok(())
}

/// Returns parts that share the bytes of these.
fn shared(alloc: Global, parts: &[Part]) -> Result<Vec<Part>, AllocError>
    ensures { IfOk result (λ copies. joined copies.items ≡ joined parts.now) }
{
    let mut copies = Vec::with_capacity(alloc, parts.len())?;
    for part in parts {
        push_part(&mut copies, part.share()?)?;
    }
    Ok(copies)
}

/// Leaves the bytes of fragments on their volumes.
fn let_go_all(parts: &mut [Part])
    ensures { joined parts.new ≡ joined parts.old }
{
    for i in 0..parts.len() {
        parts[i].let_go();
    }
}

impl Content {
    /// Writes the bytes, or the first of them if a write fails. It fails with `OutOfMemory` at the
    /// first bytes that are not in memory.
    fn write_to<W: Write>(&self, writer: &mut W) -> io::Result<()>
        ensures all { OnOk result (Appends (W.contents writer.old) (W.contents writer.new) (content_bytes self.now)) }
        ensures front { OnErr result (AppendsFront (W.contents writer.old) (W.contents writer.new) (content_bytes self.now)) }
    {
        match self {
            Content::Held(parts) => write_parts(writer, parts),
            Content::Left(_) => Err(io::Error::from(AllocError)),
        }
    }

    /// Appends copies of the bytes.
    ///
    /// # Errors
    ///
    /// `AllocError` if memory runs out, or bytes are not in memory.
    fn push_to(&self, bytes: &mut Vec<u8>) -> Result<(), AllocError>
        ensures { OnOk result (bytes.new.items ≡ bytes.old.items ++ content_bytes self.now) }
    {
        match self {
            Content::Held(parts) => push_all(bytes, parts),
            Content::Left(_) => Err(AllocError),
        }
    }

    /// Returns the same bytes, which are shared.
    fn share(&self, alloc: Global) -> Result<Content, AllocError>
        ensures { IfOk result (λ content. content_bytes content ≡ content_bytes self.now) }
    {
        match self {
            Content::Held(parts) => Ok(Content::Held(shared(alloc, parts)?)),
            Content::Left(read) => Ok(Content::Left(read.copy())),
        }
    }

    /// Leaves the bytes of fragments on their volumes.
    fn let_go(&mut self)
        ensures { content_bytes self.new ≡ content_bytes self.old }
    {
        if let Content::Held(parts) = self {
            let_go_all(parts);
        }
    }
}

impl FileBytes {
    /// Returns these bytes, and computes their digest.
    pub fn new(alloc: Global, bytes: Vec<u8>) -> Result<FileBytes, AllocError>
        ensures { IfOk result (λ file. file ≡ bytes.items) }
    {
        let mut parts = Vec::new(alloc);
        let len = bytes.len();
        push_part(&mut parts, Part::Made(ArcSlice::from_vec(bytes)?))?;
        FileBytes::from_parts(parts, len)
    }

    /// Returns no bytes.
    pub fn empty(alloc: Global) -> Result<FileBytes, AllocError>
        ensures { IfOk result (λ file. file ≡ []) }
    {
        FileBytes::from_parts(Vec::new(alloc), 0)
    }

    /// Returns the bytes of these parts, `len` in number, and computes their digest.
    ///
    /// # Errors
    ///
    /// `AllocError` if bytes are not in memory.
    pub fn from_parts(parts: Vec<Part>, len: usize) -> Result<FileBytes, AllocError>
        requires { len ≡ length (joined parts.items) }
        ensures { IfOk result (λ file. file ≡ joined parts.items) }
    {
        let digest = digest_of(&parts)?;
        Ok(FileBytes {
            content: Content::Held(parts),
            len,
            digest,
        })
    }

    /// Returns these bytes, `len` in number, with this digest.
    pub(crate) fn of_content(content: Content, len: usize, digest: [u8; 16]) -> FileBytes
        requires len { len ≡ length (content_bytes content) }
        requires digest { digest ≡ md5 (content_bytes content) }
        ensures { result ≡ content_bytes content }
    {
        FileBytes {
            content,
            len,
            digest,
        }
    }

    /// Returns the number of bytes.
    pub fn len(&self) -> u64
        ensures { result ≡ length self.now }
    {
        self.len as u64
    }

    /// Returns the MD5 digest of the bytes.
    pub fn digest(&self) -> [u8; 16]
        ensures { result ≡ md5 self.now }
    {
        self.digest
    }

    /// Writes all bytes, at most 64 KiB per call. If a write fails, the first of the bytes are
    /// written, maybe none. It fails with `OutOfMemory` at the first bytes that are not in memory.
    pub fn write_to<W: Write>(&self, writer: &mut W) -> io::Result<()>
        ensures all { OnOk result (Appends (W.contents writer.old) (W.contents writer.new) self.now) }
        ensures front { OnErr result (AppendsFront (W.contents writer.old) (W.contents writer.new) self.now) }
    {
        self.content.write_to(writer)
    }

    /// Returns a copy of the bytes.
    pub fn to_vec(&self, alloc: Global) -> Result<Vec<u8>, AllocError>
        ensures { IfOk result (λ bytes. bytes.items ≡ self.now) }
    {
        let mut bytes = Vec::with_capacity(alloc, self.len)?;
        self.content.push_to(&mut bytes)?;
        Ok(bytes)
    }

    /// Returns the same bytes, which are shared: no byte is copied, and no digest is computed.
    pub fn share(&self, alloc: Global) -> Result<FileBytes, AllocError>
        ensures { IfOk result (λ file. file ≡ self.now) }
    {
        Ok(FileBytes {
            content: self.content.share(alloc)?,
            len: self.len,
            digest: self.digest,
        })
    }

    /// Leaves the bytes on their volumes, except those that were made. They are no longer in memory,
    /// so that `write_to` and `to_vec` fail. For contracts they are the same.
    pub fn let_go(&mut self)
        ensures { self.new ≡ self.old }
    {
        self.content.let_go();
    }
}
