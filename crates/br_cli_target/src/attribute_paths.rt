//! The paths in the attributes of files.
ghost use Rattle.std.specs.Prelude.{◌≡◌, ◌++◌, IfOk, OnOk};
ghost use Rattle.br_cli_target.specs.AttributePaths.{bytes_in, path_in};

use br_attr::{Attr, AttrFault};
use br_match::Hit;
use br_types::{FileKey, Path};
use std::alloc::{AllocError, Global};

/// Appends the bytes of a hit.
///
/// # Errors
///
/// `AllocError` also if they are not in memory.
fn push_bytes(bytes: &mut Vec<u8>, hit: &Hit) -> Result<(), AllocError>
    ensures { OnOk result (bytes.new.items ≡ bytes.old.items ++ hit.now.fragment.bytes) }
{
    match hit.data.held() {
        Some(held) => bytes.extend_from_slice(held),
        None => Err(AllocError),
    }
}

/// Returns the bytes of some hits, one after another.
#[tactic(auto, unfolding(crate::specs::AttributePaths::bytes_in))]
fn bytes_of(alloc: Global, hits: &[Hit]) -> Result<Vec<u8>, AllocError>
    ensures { IfOk result (λ bytes. bytes.items ≡ bytes_in hits.now) }
{
    let mut bytes = Vec::new(alloc);
    for hit in hits {
        push_bytes(&mut bytes, hit)?;
    }
    Ok(bytes)
}

/// Returns the path in a file's attributes; nothing if they can't be read.
fn path_read(alloc: Global, key: FileKey, bytes: &[u8]) -> Result<Option<Path>, AllocError>
    ensures { IfOk result (λ path. path ≡ path_in key bytes.now) }
{
    match Attr::read(alloc, bytes, key.index) {
        Ok(attr) => {
            let (_kind, path, _stat, _link) = attr.into_parts();
            Ok(Some(path))
        }
        Err(AttrFault::Memory) => Err(AllocError),
        Err(_) => Ok(None),
    }
}

/// Returns the path in the attributes of a file, which its hits contain one after another; nothing
/// if they can't be read.
pub(crate) fn path_of(alloc: Global, key: FileKey, own: &[Hit]) -> Result<Option<Path>, AllocError>
    ensures { IfOk result (λ path. path ≡ path_in key (bytes_in own.now)) }
{
    let bytes = bytes_of(alloc, own)?;
    path_read(alloc, key, &bytes)
}
