//! Sizes in bytes, as words give them.
ghost use Rattle.std.specs.Prelude.{◌≡◌};
ghost use Rattle.br_cli_args.specs.ByteSize.{in_units, last_sized, size_spelled, sized, unit_of};

use br_types::read_number;

/// Returns the number of bytes of a unit: K, M, G or T, each 1,024 times the previous one, or the
/// small letter.
fn unit_of(letter: u8) -> Option<u64>
    ensures { result ≡ unit_of letter }
{
    match letter {
        b'K' | b'k' => Some(1 << 10),
        b'M' | b'm' => Some(1 << 20),
        b'G' | b'g' => Some(1 << 30),
        b'T' | b't' => Some(1 << 40),
        _ => None,
    }
}

/// Returns the number of bytes of this number of units, if it is below 2^64.
fn in_units(unit: u64, digits: &[u8]) -> Option<u64>
    ensures { result ≡ in_units unit digits.now }
{
    let number = read_number(digits, u64::MAX)?;
    number.checked_mul(unit)
}

/// Returns the size of a text with this last byte, which may have to be a unit.
fn sized(needs_unit: bool, text: &[u8], last: u8) -> Option<u64>
    ensures { result ≡ sized needs_unit text.now last }
{
    match unit_of(last) {
        Some(unit) => in_units(unit, &text[..text.len().saturating_sub(1)]),
        None if needs_unit => None,
        None => in_units(1, text),
    }
}

/// Returns the size of a text, whose last byte may have to be a unit.
#[tactic(auto, unfolding(crate::specs::ByteSize::last_sized))]
fn last_sized(needs_unit: bool, text: &[u8]) -> Option<u64>
    ensures { result ≡ last_sized needs_unit text.now }
{
    match text.last() {
        Some(last) => sized(needs_unit, text, *last),
        None => None,
    }
}

/// Returns the size in a text: a number of bytes in decimal, or of a unit after it. `iB` may follow
/// the unit.
#[tactic(auto, unfolding(crate::specs::ByteSize::size_spelled))]
pub(crate) fn read_size(text: &[u8]) -> Option<u64>
    ensures { result ≡ size_spelled text.now }
{
    let (front, end) = text.split_at(text.len().saturating_sub(2));
    if end == b"iB".as_slice() {
        last_sized(true, front)
    } else {
        last_sized(false, text)
    }
}
