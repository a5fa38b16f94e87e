use std::marker::Model;

/// The place of a fragment of a restore. Spots are ordered by group, then by address, then by
/// ordinal.
#[derive(Clone, Copy, PartialEq, Eq, PartialOrd, Ord)]
pub struct Spot {
    /// The number of the first group of the bootstrap that hits the fragment. The group names the
    /// volume.
    pub group: u32,
    /// The address of its block, in bytes from the start of the volume.
    pub addr: u64,
    /// The number of fragments before it in the block.
    pub ordinal: u32,
}

impl Model for Spot {
    ghost use Rattle.br_model.specs.Meaning as model;

    ghost Value = { model.Spot };

    ghost view = { λ s. record { group = s.group; address = s.addr; ordinal = s.ordinal } };

    ghost inverse = { λ s. record { group = s.group; addr = s.address; ordinal = s.ordinal } };
}
