//! Up to which piece of a bootstrap all hits were taken.
use br_piece::Piece;
use std::alloc::{AllocError, Global};
use std::collections::BTreeMap;

/// The number of groups between two that are looked at.
const MOST_GROUPS: usize = 64;

/// The piece of each group, and the lowest piece that is open. All hits of lower pieces were taken.
#[derive(Drop)]
pub(crate) struct Floor {
    /// The number of each group with that of its piece, in order of group.
    groups: Vec<(u32, u32)>,
    /// The number of the lowest piece that is open, or `u32::MAX` if none is.
    lowest: u32,
}

/// Returns the groups of pieces, in their order, with the numbers of the pieces.
fn groups_of(alloc: Global, pieces: &[Piece]) -> Result<Vec<(u32, u32)>, AllocError> {
    let mut groups = Vec::new(alloc);
    for piece in pieces {
        for (group, _) in &piece.groups {
            groups.push((*group, piece.number))?;
        }
    }
    Ok(groups)
}

/// Returns the lowest open piece from a number on, or `u32::MAX` if none is open.
fn lowest_open(pieces: &BTreeMap<u32, bool>, from: u32) -> u32 {
    for (piece, closed) in pieces.range(from..) {
        if !*closed {
            return *piece;
        }
    }
    u32::MAX
}

/// Returns whether each of these groups is of this piece, or of one below the lowest open one.
fn are_of(groups: &[(u32, u32)], own: u32, lowest: u32) -> bool {
    for (_, piece) in groups {
        if *piece != own && *piece >= lowest {
            return false;
        }
    }
    true
}

impl Floor {
    /// Returns the floor of these pieces, each of them open.
    pub(crate) fn of(alloc: Global, pieces: &[Piece]) -> Result<Floor, AllocError> {
        let mut groups = groups_of(alloc, pieces)?;
        groups.sort()?;
        Ok(Floor { groups, lowest: 0 })
    }

    /// Returns the place of a group.
    fn place_of(&self, group: u32) -> usize {
        self.groups.partition_point(|known| known.0 < group)
    }

    /// Returns whether all hits of the pieces before that of this group were taken: of all pieces, if
    /// no piece has a group of that number or a greater one.
    pub(crate) fn allows(&self, group: u32) -> bool {
        match self.groups.get(self.place_of(group)) {
            Some((_, piece)) => *piece <= self.lowest,
            None => self.is_over_all(),
        }
    }

    /// Returns whether the groups from `last` on that are before `group` are of its own piece, which
    /// is read in order, or of pieces whose hits were all taken. It looks at few groups: if there are
    /// more, it returns whether all hits were taken.
    pub(crate) fn is_next(&self, last: u32, group: u32) -> bool {
        let to = self.place_of(group);
        let Some((_, own)) = self.groups.get(to) else {
            return self.is_over_all();
        };
        match self.groups.get(self.place_of(last)..to) {
            Some(between) if between.len() <= MOST_GROUPS => are_of(between, *own, self.lowest),
            _ => self.is_over_all(),
        }
    }

    /// Returns whether all hits were taken.
    pub(crate) fn is_over_all(&self) -> bool {
        self.lowest == u32::MAX
    }

    /// Goes on to the lowest piece that is open. Returns false if that is the piece of before. All
    /// calls together walk the pieces once.
    pub(crate) fn rise(&mut self, pieces: &BTreeMap<u32, bool>) -> bool {
        let before = self.lowest;
        self.lowest = lowest_open(pieces, before);
        self.lowest != before
    }

    /// Goes back to where each piece is open.
    pub(crate) fn fall(&mut self) {
        self.lowest = 0;
    }
}
