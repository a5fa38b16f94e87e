use br_types::VolName;
use std::marker::Model;

/// A share of the blocks of a session, which goes to one volume.
#[derive(Drop)]
pub struct Place {
    /// The volume.
    pub vol: VolName,
    /// The number of blocks that it takes, at least 1. The last place takes all that are left, and
    /// may have 0.
    pub blocks: u32,
}

impl Model for Place {
    ghost use Rattle.br_model.specs.Session as model;

    ghost Value = { model.Place };

    ghost view = { λ p. record { volume = p.vol; blocks = p.blocks } };
}
