//! Records of attributes, and the reading and writing of numbers and records.

use crate::printing::push;
use br_attr::{Attr, Stat, read_number, write_attributes, write_number};
use br_test_support::Case;

/// Prints attributes as they are written: as a whole, from their parts, and their numbers alone.
fn push_written(case: &mut Case, attr: &Attr) {
    let (alloc, stat) = (case.alloc(), attr.stat());
    case.made(attr.write(alloc));
    case.text(" ");
    case.made(write_attributes(
        alloc,
        attr.index(),
        attr.kind(),
        attr.path(),
        &stat,
        attr.link(),
    ));
    case.text(" ");
    case.made(stat.write(alloc));
}

/// Reads the record of the file with this index, and prints its contents, or as it is written
/// again.
fn read(case: &mut Case, call: &str, index: &str, record: &str) {
    let Some(index) = case.index_of(index) else {
        return;
    };
    let record = case.bytes_of(record);
    let attr = Attr::read(case.alloc(), &record, index).map_err(|fault| fault.number());
    match &attr {
        Ok(attr) if call == "rewrite" => push_written(case, attr),
        _ => push(case, &attr),
    }
}

/// Reads a number, or the numbers of a file.
fn read_text(case: &mut Case, call: &str, text: &[u8]) {
    match call {
        "number" => push(case, &read_number(text).map_err(|fault| fault.number())),
        _ => push(case, &Stat::read(text).map_err(|fault| fault.number())),
    }
}

/// Runs a call.
pub(crate) fn run(case: &mut Case, call: &[&str]) {
    match call {
        [call, index, record] => read(case, call, index, record),
        ["write_number", number] => {
            let number = case.i64_of(number);
            let done = write_number(number, case.out());
            case.done(done);
        }
        [call, text] => {
            let text = case.bytes_of(text);
            read_text(case, call, &text);
        }
        _ => case.fail("there is no such call"),
    }
}
