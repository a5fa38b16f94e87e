ghost use Rattle.std.specs.Prelude.{◌≡◌, OnOk, IfOk};
ghost use Rattle.br_piece.specs.Piece.{first_piece, with_one_more};

use br_bsr::Group;
use br_types::VolName;
use std::alloc::{AllocError, Global};
use std::marker::Model;

/// The part of a bootstrap that is on one volume.
#[derive(Drop)]
pub struct Piece {
    /// The number of the piece: the number of volumes that the bootstrap names before this one.
    pub number: u32,
    /// The volume.
    pub vol: VolName,
    /// The groups on the volume in order, each with its number in the bootstrap, from 0.
    pub groups: Vec<(u32, Group)>,
}

impl Model for Piece {
    ghost use Rattle.br_model.specs.Meaning as model;

    ghost Value = { model.Piece };

    ghost view = { λ p. record { number = p.number; volume = p.vol; groups = p.groups.items } };
}

impl Piece {
    /// Makes the piece of this number with a copy of one group, which has the number `group_number`
    /// in the bootstrap.
    pub(crate) fn first(
        alloc: Global,
        number: u32,
        group_number: u32,
        group: &Group,
    ) -> Result<Piece, AllocError>
        ensures { IfOk result (λ piece. piece ≡ first_piece number (group_number, group.now)) }
    {
        let vol = group.vol.copy(alloc)?;
        let mut groups = Vec::new(alloc);
        groups.push((group_number, group.copy(alloc)?))?;
        Ok(Piece {
            number,
            vol,
            groups,
        })
    }

    /// Appends a copy of a group, which has the number `group_number` in the bootstrap.
    pub(crate) fn add(
        &mut self,
        alloc: Global,
        group_number: u32,
        group: &Group,
    ) -> Result<(), AllocError>
        ensures { OnOk result (self.new ≡ with_one_more self.old (group_number, group.now)) }
    {
        self.groups.push((group_number, group.copy(alloc)?))?;
        Ok(())
    }
}
