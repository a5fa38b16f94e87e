use br_data::{Data, Spot};
use br_types::FileKey;
use std::marker::Model;

/// A fragment of a file that a bootstrap asks for.
#[derive(Drop)]
pub struct Hit {
    /// The file.
    pub key: FileKey,
    /// The place of the fragment.
    pub spot: Spot,
    /// The stream of its data; negative if it continues a record of an earlier block.
    pub stream: i32,
    /// The number of bytes of data that the record header gives.
    pub size: u32,
    /// The data in the block: fewer than `size` bytes if the record continues in a later block. A
    /// file that is made from it shares it, so that no byte is copied.
    pub data: Data,
}

impl Model for Hit {
    ghost use Rattle.std.specs.Prelude.{pos};
    ghost use Rattle.br_model.specs.Meaning as model;

    ghost Value = { model.Hit };

    ghost view = { λ h. record {
      key = h.key;
      spot = h.spot;
      fragment = record { session = h.key.session; index = pos h.key.index; stream = h.stream; size = h.size; bytes = h.data.bytes };
    } };
}

/// The hits in one block of a piece's volume.
#[derive(Drop)]
pub struct Batch {
    /// The hits, in order of place in the block.
    pub hits: Vec<Hit>,
}

/// The hits that were found for a piece.
#[derive(Drop)]
pub struct Found {
    /// The number of the piece.
    pub piece: u32,
    /// The hits, in order of address and place in the block.
    pub hits: Vec<Hit>,
}
