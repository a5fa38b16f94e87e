//! Names, paths, keys and numbers, and how they are printed and read.

use crate::printing::{push, shown};
use br_test_support::Case;
use br_types::{
    FileKey, Name, Names, Path, SessionKey, VolName, push_escaped, push_hexadecimal, push_number,
    push_wide, unescape,
};

/// Reads `ID:TIME:INDEX`.
fn key_of(case: &mut Case, field: &str) -> Option<FileKey> {
    let (id, rest) = case.split(field, ':');
    let (time, index) = case.split(rest, ':');
    let session = SessionKey {
        id: case.u32_of(id),
        time: case.u32_of(time),
    };
    let index = case.index_of(index)?;
    Some(FileKey { session, index })
}

/// Sets the path of a file as `KEY,PATH`, and prints its path before and after.
fn set_name(case: &mut Case, names: &mut Names, field: &str) {
    let (key, text) = case.split(field, ',');
    match (key_of(case, key), Path::new(case.alloc(), text.as_bytes())) {
        (Some(key), Ok(path)) => {
            shown(case, &names.insert(key, path));
            shown(case, &names.get(key));
        }
        _ => case.fail("a field has no key or no path"),
    }
}

/// Sets the paths of files, looks up a file, and prints a copy of everything.
fn names(case: &mut Case, asked: &str, fields: &[&str]) {
    let mut names = Names::new(case.alloc());
    for field in fields {
        set_name(case, &mut names, field);
    }
    if let Some(key) = key_of(case, asked) {
        shown(case, &names.get(key));
    }
    shown(case, &names.copy(case.alloc()));
}

/// Runs a call that makes something of bytes.
fn run_made(case: &mut Case, call: &str, text: &[u8]) {
    let alloc = case.alloc();
    match call {
        "name" => push(
            case,
            &Name::new(alloc, text).map_err(|fault| fault.number()),
        ),
        "volume" => push(
            case,
            &VolName::new(alloc, text).map_err(|fault| fault.number()),
        ),
        "path" => push(
            case,
            &Path::new(alloc, text).map_err(|fault| fault.number()),
        ),
        "unescape" => shown(case, &unescape(alloc, text)),
        _ => case.fail("there is no such call"),
    }
}

/// Runs a call that prints a field.
fn run_printed(case: &mut Case, call: &str, field: &str) {
    let text = case.bytes_of(field);
    let done = match call {
        "escape" => push_escaped(case.out(), &text),
        "hexadecimal" => push_hexadecimal(case.out(), &text),
        "wide" => push_wide(case.out(), field.parse::<u128>().unwrap_or(0)),
        _ => {
            let number = case.u64_of(field);
            push_number(case.out(), number)
        }
    };
    case.done(done);
}

/// Runs a call.
pub(crate) fn run(case: &mut Case, call: &[&str]) {
    match call {
        ["names", asked, set @ ..] => names(case, asked, set),
        ["print", call, field] => run_printed(case, call, field),
        [call, field] => {
            let text = case.bytes_of(field);
            run_made(case, call, &text);
        }
        _ => case.fail("there is no such call"),
    }
}
