ghost use Rattle.std.specs.Prelude.{◌≡◌, ◌≤◌, ◌<◌, true, Err, None, OnOk, IsOk, option_map};
ghost use Rattle.br_model.specs.Answer.{AnswersAlways};
ghost use Rattle.br_volume.specs.Drive.{OnlyGrows};
ghost use Rattle.br_data.specs.KnownBlocks.{IsKnown, GivesBytes, OfFragment, bytes_of, knows};
ghost use Rattle.br_data.specs.DataSpans.{data_of};
ghost use Rattle.br_data.specs.Rereading.{IsGone};
ghost use Rattle.br_data.specs.declared.reread_fault.AgainFault.TheVariants.{Changed, Failed};

use crate::data::Data;
use crate::data_place::FragmentPlace;
use crate::data_spans::{DataSpan, data_at, spans_of};
use crate::reread_fault::AgainFault;
use crate::reread_fragment::read_again;
use br_types::VolName;
use br_volume::Drive;
use std::alloc::Global;
use std::marker::Model;

/// The block that was read last, so that fragments of one block cost one read, and one walk over
/// the block. It is of one drive,
/// and of no other.
#[derive(Drop)]
pub struct Again {
    /// The bytes of the block; anything if none is known.
    bytes: Vec<u8>,
    /// Where the data of its fragments are.
    spans: Vec<DataSpan>,
    /// The volume and the address of the block.
    known: Option<(VolName, u64)>,
}

impl Model for Again {
    ghost use Rattle.std.specs.Prelude.{IfSome, Option, option_map};
    ghost use Rattle.br_data.specs.DataSpans.{IsCutAt};
    ghost use Rattle.br_data.specs.KnownBlocks as model;

    ghost Value = { Option model.KnownBlock };

    ghost view = { λ a. option_map (λ k. record { volume = k.0; address = k.1; bytes = a.bytes.items }) a.known };

    ghost invariant = { λ a. IfSome a.known (λ _. IsCutAt a.bytes.items a.spans.items) };
}

impl Again {
    /// Returns a value without a known block.
    pub fn new(alloc: Global) -> Again
        ensures { result ≡ None }
    {
        Again {
            bytes: Vec::new(alloc),
            spans: Vec::new(alloc),
            known: None,
        }
    }

    /// Returns whether the block of the place was read last.
    fn knows(&self, place: &FragmentPlace<'_>) -> bool
        ensures { result ≡ knows place.now self.now }
    {
        match &self.known {
            Some((name, addr)) => name.bytes() == place.vol.bytes() && *addr == place.addr,
            None => false,
        }
    }

    /// Reads the block of the place, unless it was read last. The drive is the same for all calls.
    ///
    /// # Errors
    ///
    /// `Failed` if the drive failed, `Changed` if there is no block at the address, `Memory` if
    /// memory runs out. Then no block is known.
    fn fetch<D: Drive>(
        &mut self,
        drive: &mut D,
        place: &FragmentPlace<'_>,
    ) -> Result<(), AgainFault>
        requires known { IsKnown (D.shows drive.old) self.old }
        ensures known { IsKnown (D.shows drive.new) self.new }
        ensures fetched { OnOk result (knows place.now self.new ≡ true) }
        ensures gone { IsGone (D.shows drive.old) place.now.volume place.now.address result }
        ensures grows { OnlyGrows (D.shows drive.old) (D.shows drive.new) }
        ensures counted { D.failures drive.old ≤ D.failures drive.new }
        ensures failed { result ≡ Err Failed → D.failures drive.old < D.failures drive.new }
    {
        if self.knows(place) {
            return Ok(());
        }
        self.known = None;
        let alloc = *self.bytes.allocator();
        let name = place.vol.copy(alloc)?;
        read_again(drive, place.vol, place.addr, &mut self.bytes)?;
        self.spans = spans_of(alloc, &self.bytes)?;
        self.known = Some((name, place.addr));
        Ok(())
    }

    /// Gets ready to return the bytes of the data, by `bytes_of`: reads the block of the
    /// place, unless the bytes are in memory or the block was read last. The drive is the same
    /// for all calls.
    ///
    /// Over all volumes that the drive shows, whatever else it shows, the bytes are then those that
    /// were found, if the volumes have these at the place.
    ///
    /// # Errors
    ///
    /// `Failed` if the drive failed, `Changed` if there is no block at the address, `Memory` if
    /// memory runs out. There is none if the bytes are in memory.
    pub fn prepare<D: Drive>(
        &mut self,
        drive: &mut D,
        place: &FragmentPlace<'_>,
        found: &Data,
    ) -> Result<(), AgainFault>
        requires known { IsKnown (D.shows drive.old) self.old }
        ensures known { IsKnown (D.shows drive.new) self.new }
        ensures same { OnOk result (GivesBytes (D.shows drive.old) place.now found.now self.new) }
        ensures held { found.now.held ≡ true → IsOk result }
        ensures gone { result ≡ Err Changed → OfFragment (D.shows drive.old) place.now (λ _. ⊥) }
        ensures grows { OnlyGrows (D.shows drive.old) (D.shows drive.new) }
        ensures counted { D.failures drive.old ≤ D.failures drive.new }
        ensures failed { result ≡ Err Failed → D.failures drive.old < D.failures drive.new }
    {
        if found.is_held() {
            return Ok(());
        }
        self.fetch(drive, place)
    }

    /// Returns the data of the fragment of the block that was read last with this number of
    /// fragments before it, if there is one.
    fn data(&self, ordinal: u32) -> Option<&[u8]>
        ensures { option_map (λ d. d.now) result ≡ data_of self.now ordinal }
    {
        match &self.known {
            Some(_) => data_at(&self.bytes, &self.spans, ordinal),
            None => None,
        }
    }

    /// Returns the bytes of the data: those in memory, or those of the fragment of the block
    /// that was read last with this number of fragments before it.
    ///
    /// # Errors
    ///
    /// `Changed` if no bytes are in memory and there is no such fragment, or one of another length.
    #[tactic(auto, unfolding(crate::specs::KnownBlocks::bytes_of), using(crate::proofs::SpanLaws::read_is, crate::proofs::SpanLaws::none_read))]
    pub fn bytes_of<'a>(&'a self, ordinal: u32, found: &'a Data) -> Result<&'a [u8], AgainFault>
        ensures { AnswersAlways (λ bytes. bytes.now) (λ e. e) result (bytes_of self.now ordinal found.now) }
    {
        if let Some(bytes) = found.held() {
            return Ok(bytes);
        }
        let Some(data) = self.data(ordinal) else {
            return Err(AgainFault::Changed);
        };
        if data.len() != found.len() {
            return Err(AgainFault::Changed);
        }
        Ok(data)
    }
}
