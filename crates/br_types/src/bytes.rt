ghost use Rattle.std.specs.Prelude.{◌≡◌, ◌==◌, ◌<◌, IfSome, length, not, position};
ghost use Rattle.std.specs.Char.{is_ascii_digit};
ghost use Rattle.std.specs.List.{list_all};
ghost use Rattle.br_model.specs.Name.{is_directory};
ghost use Rattle.br_model.specs.Text.{is_blank};

use bstr::ByteSlice;

/// Returns whether a byte is a blank: a space or a tab.
pub(crate) fn is_blank_byte(byte: u8) -> bool
    ensures { result ≡ is_blank byte }
{
    byte == b' ' || byte == b'\t'
}

/// Returns the place of the first byte that is this one, if there is one.
pub fn place_of(text: &[u8], byte: u8) -> Option<usize>
    ensures place { result ≡ position (λ c. c == byte) text.now }
    ensures inside { IfSome result (λ at. at < length text.now) }
{
    // The clause of bstr, as one about a single byte.
    text.find_byte(byte)
}

/// Returns whether a text has no NUL.
pub fn has_no_nul(text: &[u8]) -> bool
    ensures { result ≡ list_all (λ c. not (c == 0)) text.now }
{
    text.iter().all(|byte| *byte != 0)
}

/// Returns whether a text has only decimal digits; a text of no bytes has.
pub fn are_digits(text: &[u8]) -> bool
    ensures { result ≡ list_all is_ascii_digit text.now }
{
    text.iter().all(|byte| byte.is_ascii_digit())
}

/// Returns whether a path, or a name in a directory, is that of a directory: it ends in `/`.
pub fn is_directory_path(path: &[u8]) -> bool
    ensures { result ≡ is_directory path.now }
{
    path.ends_with(b"/")
}
