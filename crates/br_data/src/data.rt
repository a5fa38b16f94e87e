ghost use Rattle.std.specs.Prelude.{◌≡◌, false, true, length, Some, None, IfOk, IfSome, option_map, if◌then◌else◌};
ghost use Rattle.std.specs.Arc.{arc_slice_items};

use crate::found_bytes::FoundBytes;
use std::alloc::AllocError;
use std::marker::Model;
use std::sync::ArcSlice;

/// The bytes of a fragment, held in memory or left on the volume.
#[derive(Drop)]
pub struct Data {
    held: Option<ArcSlice<u8>>,
    len: usize,
    found: FoundBytes,
}

impl Model for Data {
    ghost use Rattle.std.specs.Prelude.{◌≡◌, IfSome, is_some, length};
    ghost use Rattle.std.specs.Arc.{arc_slice_items};
    ghost use Rattle.br_data.specs.KeptData as model;

    ghost Value = { model.Kept };

    ghost view = { λ d. record { bytes = d.found.bytes; held = is_some d.held } };

    ghost invariant = { λ d. (d.len ≡ length d.found.bytes)
        × IfSome d.held (λ held. arc_slice_items held ≡ d.found.bytes) };
}

impl Data {
    /// Returns data with these bytes, which are in memory.
    pub fn new(bytes: ArcSlice<u8>) -> Data
        ensures { result ≡ record { bytes = arc_slice_items bytes; held = true } }
    {
        Data {
            len: bytes.len(),
            found: FoundBytes::of(&bytes),
            held: Some(bytes),
        }
    }

    /// Returns data with these bytes, which are left on the volume.
    pub fn left(bytes: &[u8]) -> Data
        ensures { result ≡ record { bytes = bytes.now; held = false } }
    {
        Data {
            held: None,
            len: bytes.len(),
            found: FoundBytes::of_slice(bytes),
        }
    }

    /// Returns the number of bytes.
    pub fn len(&self) -> usize
        ensures { result ≡ length self.now.bytes }
    {
        self.len
    }

    /// Returns whether the bytes are in memory.
    pub fn is_held(&self) -> bool
        ensures { result ≡ self.now.held }
    {
        self.held.is_some()
    }

    /// Leaves the bytes on the volume: they are no longer in memory.
    pub fn let_go(&mut self)
        ensures { self.new ≡ record self.old { held = false } }
    {
        self.held = None;
    }

    /// Returns the same data. Bytes in memory are shared, and none are copied.
    ///
    /// # Errors
    ///
    /// `AllocError` if memory runs out.
    pub fn share(&self) -> Result<Data, AllocError>
        ensures { IfOk result (λ shared. shared ≡ self.now) }
    {
        Ok(Data {
            held: self.held.clone()?,
            len: self.len,
            found: self.found.copy(),
        })
    }

    /// Returns the bytes if they are in memory.
    pub fn held(&self) -> Option<&[u8]>
        ensures bytes { option_map (λ bytes. bytes.now) result ≡ if self.now.held then Some self.now.bytes else None }
        ensures found { IfSome result (λ bytes. bytes.now ≡ self.now.bytes) }
    {
        match &self.held {
            Some(bytes) => Some(bytes),
            None => None,
        }
    }
}
