//! Values as `{:?}` prints them.

use br_test_support::Case;
use std::fmt::Debug;
use std::io::Write;

/// Prints a value as `{:?}` does, and a blank.
pub(crate) fn shown<T: Debug>(case: &mut Case, value: &T) {
    if write!(case.out(), "{value:?} ").is_err() {
        case.fail("out of memory");
    }
}
