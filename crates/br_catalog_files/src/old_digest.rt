//! Tests a digest without decoding it.

ghost use Rattle.std.specs.Prelude.{◌≡◌, is_ok};
ghost use Rattle.std.specs.List.{list_all};
ghost use Rattle.br_catalog_rows.specs.Decode.{digest};
ghost use Rattle.br_catalog_files.specs.Digest.{is_digest_digit};

/// The number of digits of a digest.
const DIGITS: usize = 32;

/// Returns whether a byte is a digit of a digest, in lower case.
fn is_digit(byte: u8) -> bool
    ensures { result ≡ is_digest_digit byte }
{
    matches!(byte, b'0'..=b'9' | b'a'..=b'f')
}

/// Returns whether all bytes are such digits.
fn are_digits(text: &[u8]) -> bool
    ensures { result ≡ list_all is_digest_digit text.now }
{
    text.iter().all(|byte| is_digit(*byte))
}

/// Returns whether a text spells a digest in lower case digits, or is empty.
#[tactic(auto, using(crate::proofs::DigestLaws::digest_reads))]
pub(crate) fn is_digest(text: &[u8]) -> bool
    ensures { result ≡ is_ok (digest text.now) }
{
    text.is_empty() || text.len() == DIGITS && are_digits(text)
}
