use br_types::VolName;
use std::marker::Model;

/// The place of a fragment.
#[derive(Drop)]
pub struct FragmentPlace<'v> {
    /// The volume.
    pub vol: &'v VolName,
    /// The address of the fragment's block, in bytes from the start of the volume.
    pub addr: u64,
    /// The number of fragments before it in the block.
    pub ordinal: u32,
}

impl<'v> Model for FragmentPlace<'v> {
    ghost use Rattle.br_data.specs.StandingHits as model;

    ghost Value = { model.FragmentPlace };

    ghost view = { λ p. record { volume = p.vol.now; address = p.addr; ordinal = p.ordinal } };
}
