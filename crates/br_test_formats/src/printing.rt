//! Prints the results of calls.

use br_test_support::Case;
use std::fmt::Debug;
use std::io::Write;

/// Prints a value with `{:?}`.
pub(crate) fn shown<T: Debug>(case: &mut Case, value: &T) {
    if write!(case.out(), "{value:?} ").is_err() {
        case.fail("out of memory");
    }
}

/// Prints a value, or the number of its refusal.
pub(crate) fn push<T: Debug>(case: &mut Case, value: &Result<T, u32>) {
    match value {
        Ok(value) => shown(case, value),
        Err(number) => case.refused(*number),
    }
}
