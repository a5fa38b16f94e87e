ghost use Rattle.std.specs.Prelude.{◌≡◌, ◌+◌, ◌≤◌, length};
ghost use Rattle.br_model.specs.Block.{u32_at, i32_at};

/// Reads the number in the four bytes from a place on.
pub fn u32_from(bytes: &[u8], at: usize) -> u32
    requires { at + 4 ≤ length bytes.now }
    ensures { result ≡ u32_at at bytes.now }
{
    let (_, rest) = bytes.split_at(at);
    let (four, _) = rest.split_at(4);
    u32::from_be_bytes([four[0], four[1], four[2], four[3]])
}

/// Reads the signed number in the four bytes from a place on.
pub fn i32_from(bytes: &[u8], at: usize) -> i32
    requires { at + 4 ≤ length bytes.now }
    ensures { result ≡ i32_at at bytes.now }
{
    u32_from(bytes, at).cast_signed()
}
