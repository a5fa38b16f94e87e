//! Headers of blocks, and the messages of faults.

use crate::printing::push;
use br_block::{BlockFault, BlockHead};
use br_test_support::Case;
use std::io::Write;

/// Prints the messages of all faults.
fn push_messages(case: &mut Case) {
    let (id, size, end) = (
        BlockFault::BadId,
        BlockFault::BadBlockSize,
        BlockFault::Truncated,
    );
    if write!(case.out(), "{id}; {size}; {end}").is_err() {
        case.fail("out of memory");
    }
}

/// Runs a call.
pub(crate) fn run(case: &mut Case, call: &[&str]) {
    match call {
        ["head", bytes] => {
            let bytes = case.bytes_of(bytes);
            push(
                case,
                &BlockHead::read(&bytes).map_err(|fault| fault.number()),
            );
        }
        _ => push_messages(case),
    }
}
