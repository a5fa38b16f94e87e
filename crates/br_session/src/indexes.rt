ghost use Rattle.std.specs.Prelude.{◌≡◌, fold, flat_map, Ok};
ghost use Rattle.br_model.specs.Block.{read_block, fragments_of};
ghost use Rattle.br_model.specs.Session.{least_of, greatest_of};
ghost use Rattle.br_session.specs.Spans.{AreReadable, bytes_of, indexes_of, with_index};

use br_block::Block;

/// Widens the least and the greatest index by one more index.
fn widened(range: Option<(u32, u32)>, index: u32) -> Option<(u32, u32)>
    ensures { result ≡ with_index range index }
{
    match range {
        None => Some((index, index)),
        Some((first, last)) => Some((first.min(index), last.max(index))),
    }
}

/// Widens the least and the greatest index by those of the fragments in a block.
fn widened_by_block(range: Option<(u32, u32)>, bytes: &[u8]) -> Option<(u32, u32)>
    requires { read_block bytes.now ≡ Ok bytes.now }
    ensures { result ≡ fold with_index range (indexes_of (fragments_of bytes.now)) }
{
    let Ok(block) = Block::read(bytes) else {
        unreachable!()
    };
    let mut range = range;
    for fragment in block.fragments() {
        range = widened(range, fragment.index.unsigned_abs());
    }
    range
}

/// Returns the least and the greatest index of a fragment in the blocks; 0 and 0 if there is none.
pub(crate) fn index_range(blocks: &[Vec<u8>]) -> (u32, u32)
    requires { AreReadable (bytes_of blocks.now) }
    ensures first { result.0 ≡ least_of (indexes_of (flat_map fragments_of (bytes_of blocks.now))) }
    ensures last { result.1 ≡ greatest_of (indexes_of (flat_map fragments_of (bytes_of blocks.now))) }
{
    let mut range = None;
    for block in blocks {
        range = widened_by_block(range, block);
    }
    range.unwrap_or((0, 0))
}
