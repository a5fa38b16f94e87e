//! Fields that are texts of lines. In them a part `$NAME` is the bytes of that name, and the bytes
//! of a part `#DIGITS` are unchanged.

use br_test_support::Case;

/// A block with two whole records of file 1 of session 1, 100: attributes of 38 bytes, and the data
/// `hello`.
static BLOCK: &[u8] = b"\0\0\0\0\0\0\0\x5b\0\0\0\0BB02\0\0\0\x01\0\0\0\x64\
    \0\0\0\x01\0\0\0\x01\0\0\0\x261 3 /a\0A A IGk B A A A F A A A A A A\0\0\
    \0\0\0\x01\0\0\0\x02\0\0\0\x05hello";

/// The header of that block after its size.
static REST: &[u8] = b"\0\0\0\0BB02\0\0\0\x01\0\0\0\x64";

/// The attributes in it: those of a file /a of type 3, mode 33188 and size 5.
static FILE: &[u8] = b"1 3 /a\0A A IGk B A A A F A A A A A A\0\0";

/// The attributes of the files 1 and 2, which are /a and /b of size 14.
static FIRST: &[u8] = b"1 3 /a\0A A IGk B A A A O A A A A A A\0\0";

static SECOND: &[u8] = b"2 3 /b\0A A IGk B A A A O A A A A A A\0\0";

/// Returns the bytes of a name.
fn named(case: &mut Case, name: &str) -> &'static [u8] {
    match name {
        "block" => BLOCK,
        "rest" => REST,
        "file" => FILE,
        "first" => FIRST,
        "second" => SECOND,
        _ => {
            case.fail("a field has no name of bytes");
            b""
        }
    }
}

/// Appends a part of a text.
fn push_part(case: &mut Case, text: &mut Vec<u8>, part: &str) {
    let done = if let Some(name) = part.strip_prefix('$') {
        text.extend_from_slice(named(case, name))
    } else if part.starts_with('#') {
        text.extend_from_slice(&case.bytes_of(part))
    } else {
        text.extend_from_slice(&case.text_of(part))
    };
    case.done(done);
}

/// Reads a text.
pub(crate) fn text_of(case: &mut Case, field: &str) -> Vec<u8> {
    let mut text = Vec::new(case.alloc());
    for part in field.split('+') {
        push_part(case, &mut text, part);
    }
    text
}
