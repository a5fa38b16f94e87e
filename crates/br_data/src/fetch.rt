//! Gets the bytes of data, from memory or from a volume.
ghost use Rattle.std.specs.Prelude.{◌≡◌, ℕ, List, length, Result, Ok, IfOk, OnOk, ⊤};
ghost use Rattle.br_model.specs.Answer.{AnswersAlways};
ghost use Rattle.br_model.specs.Meaning as meaning;
ghost use Rattle.br_data.specs.KeptData.{Kept, held_bytes};
ghost use Rattle.br_data.specs.declared.reread_fault.AgainFault.{AgainFault};

use crate::data::Data;
use crate::reread_fault::AgainFault;
use crate::spot::Spot;

/// A source of the bytes of data: those in memory, and maybe others, which it rereads.
pub trait Fetch {
    /// It gives the bytes for data with these bytes, of the fragment at this place.
    ghost gives: { Self → meaning.Spot → List ℕ → Type 0 };

    /// The bytes that it is ready to give for data, of the fragment with this number of fragments
    /// before it in its block.
    ghost ready: { Self → ℕ → Kept → Result (List ℕ) AgainFault };

    /// Gets ready to return the bytes of the data, by `bytes_of`.
    ///
    /// # Errors
    ///
    /// `Memory` if memory runs out, or the bytes are not in memory and cannot be read, `Failed` if
    /// a drive failed, `Changed` if the volume has no block there.
    fn prepare(&mut self, spot: Spot, found: &Data) -> Result<(), AgainFault>
        ensures ready { OnOk result (gives self.old spot found.now.bytes → ready self.new spot.ordinal found.now ≡ Ok found.now.bytes) }
        ensures keeps { (at : meaning.Spot) (bytes : List ℕ) → gives self.old at bytes → gives self.new at bytes };

    /// Returns the bytes of the data for which `prepare` was called.
    ///
    /// # Errors
    ///
    /// Those of `prepare`, if it was called for other data.
    fn bytes_of<'a>(&'a self, ordinal: u32, found: &'a Data) -> Result<&'a [u8], AgainFault>
        ensures given { AnswersAlways (λ bytes. bytes.now) (λ e. e) result (ready self.now ordinal found.now) }
        ensures sized { IfOk result (λ bytes. length bytes.now ≡ length found.now.bytes) };
}

/// Returns bytes that are in memory, and reads nothing.
#[derive(Clone, Copy)]
pub struct InMemory;

impl Fetch for InMemory {
    // Holds of all data: `prepare` refuses those whose bytes are not held.
    ghost gives = { λ _ _ _. ⊤ };

    ghost ready = { λ _ _ kept. held_bytes kept };

    /// Refuses with `Memory` if the bytes are not in memory.
    fn prepare(&mut self, _spot: Spot, found: &Data) -> Result<(), AgainFault> {
        if found.is_held() {
            Ok(())
        } else {
            Err(AgainFault::Memory)
        }
    }

    /// Refuses with `Memory` if the bytes are not in memory.
    fn bytes_of<'a>(&'a self, _ordinal: u32, found: &'a Data) -> Result<&'a [u8], AgainFault> {
        match found.held() {
            Some(bytes) => Ok(bytes),
            None => Err(AgainFault::Memory),
        }
    }
}
