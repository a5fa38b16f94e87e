//! The selections and counts of the groups of a bootstrap, and its text.

use crate::printing::shown;
use br_bsr::{Bootstrap, Group, counts_of, read_bootstrap, write_bootstrap};
use br_test_support::Case;
use br_types::SessionKey;
use std::io::Write;

/// Prints the volume of a group, which of the addresses from 0 to 10 it covers, its last address, and
/// the number of its ranges of indexes.
fn push_group(case: &mut Case, group: &Group) {
    case.bytes(group.vol.bytes());
    case.text(" ");
    for addr in 0..11 {
        case.text(if group.covers(addr) { "+" } else { "-" });
    }
    case.text(" ");
    shown(case, &group.last_address());
    case.number(group.indexes.len() as u64);
    case.text(" ");
}

/// Prints copies of groups.
fn push_groups(case: &mut Case, groups: &[Group]) {
    for group in groups {
        match group.copy(case.alloc()) {
            Ok(copy) => push_group(case, &copy),
            Err(_fault) => case.fail("out of memory"),
        }
    }
}

/// Prints for each group whether it hits a record of an address, a session, an index and a stream.
fn push_hits(case: &mut Case, groups: &[Group], fields: &[&str]) {
    let [addr, id, time, index, stream] = fields else {
        return case.fail("a record has five fields");
    };
    let session = SessionKey {
        id: case.u32_of(id),
        time: case.u32_of(time),
    };
    let (addr, index, stream) = (case.u64_of(addr), case.i32_of(index), case.i32_of(stream));
    for group in groups {
        let is_hit = group.hits(addr, session, index, stream);
        case.text(if is_hit { "+" } else { "-" });
    }
}

/// Runs a call over a bootstrap.
fn run_over(case: &mut Case, call: &str, bootstrap: &Bootstrap, rest: &[&str]) {
    let (alloc, groups) = (case.alloc(), bootstrap.groups());
    match call {
        "canonical" => case.made(write_bootstrap(alloc, bootstrap)),
        "groups" => push_groups(case, groups),
        "count" => case.number(groups.len() as u64),
        "hits" => push_hits(case, groups, rest),
        _ => case.fail("there is no such call"),
    }
}

/// Runs a call over the text of a bootstrap. Prints the message of a refusal.
pub(crate) fn run(case: &mut Case, call: &str, text: &str, rest: &[&str]) {
    let text = case.text_of(text);
    if call == "counts" {
        return shown(case, &counts_of(case.alloc(), &text));
    }
    match read_bootstrap(case.alloc(), &text) {
        Ok(bootstrap) => run_over(case, call, &bootstrap, rest),
        Err(fault) => {
            if write!(case.out(), "{fault}").is_err() {
                case.fail("out of memory");
            }
        }
    }
}
