//! Paths, addresses and digests as the catalogue keeps them.

ghost use Rattle.std.specs.Prelude.{◌≡◌, length};
ghost use Rattle.hex.specs.Hex.{encode_lower};
ghost use Rattle.br_catalog_rows.specs.Decode.{front, rest, high, low};

use bstr::ByteSlice;

/// Returns the number of bytes of a path up to its last slash, with that slash; 0 if it has none.
fn front_len(path: &[u8]) -> usize
    ensures { result ≡ length (front path.now) }
{
    match path.rfind_byte(b'/') {
        Some(at) => at + 1,
        None => 0,
    }
}

/// Returns the part of a path up to its last slash, with that slash, and the rest.
pub fn cut(path: &[u8]) -> (&[u8], &[u8])
    ensures front { result.0.now ≡ front path.now }
    ensures rest { result.1.now ≡ rest path.now }
{
    path.split_at(front_len(path))
}

/// Returns the high 32 bits of an address.
pub fn high_half(address: u64) -> u32
    ensures { result ≡ high address }
{
    (address / 4_294_967_296) as u32
}

/// Returns the low 32 bits of an address.
pub fn low_half(address: u64) -> u32
    ensures { result ≡ low address }
{
    (address % 4_294_967_296) as u32
}

/// Returns a digest in lower case hexadecimal digits.
pub fn digits_of(digest: [u8; 16]) -> [u8; 32]
    ensures { result ≡ encode_lower digest }
{
    let mut digits = [0u8; 32];
    let _ = hex::encode_to_slice(digest, &mut digits);
    digits
}
