ghost use Rattle.std.specs.Prelude.{◌≡◌, ◌+◌, ◌++◌, ◌≤◌, Ok, OnOk};
ghost use Rattle.br_model.specs.Answer.{AnswersAlways};
ghost use Rattle.br_model.specs.Number.{digit64, digit_at, read_number, write_magnitude, write_number};
ghost use Rattle.br_attr.specs.Digits.{integer64, last_digits, signed64, spelled64};
ghost use Rattle.br_attr.specs.Fault.{fault_number};

use crate::fault::AttrFault;
use br_model::numbers_read_back;
use std::alloc::AllocError;

/// The digits for 0 to 63.
const DIGITS: [u8; 64] = *b"ABCDEFGHIJKLMNOPQRSTUVWXYZabcdefghijklmnopqrstuvwxyz0123456789+/";

/// The place of the first digit of the greatest number of 64 bits, counted from the right.
const GREATEST_PLACE: u32 = 10;

/// Returns the value of a base 64 digit.
#[tactic(auto, using(crate::proofs::DigitLaws::digit_rules))]
fn digit_of(byte: u8) -> Option<u64>
    ensures { result ≡ digit64 byte }
{
    match byte {
        b'A'..=b'Z' => Some(u64::from(byte - b'A')),
        b'a'..=b'z' => Some(u64::from(byte - b'a') + 26),
        b'0'..=b'9' => Some(u64::from(byte - b'0') + 52),
        b'+' => Some(62),
        b'/' => Some(63),
        _ => None,
    }
}

/// Returns the number that base 64 digits spell, if it fits 64 bits.
fn spelled_by(digits: &[u8]) -> Option<u64>
    ensures { result ≡ spelled64 digits.now }
{
    let mut value: u64 = 0;
    for byte in digits {
        let digit = digit_of(*byte)?;
        value = value.checked_mul(64)?.checked_add(digit)?;
    }
    Some(value)
}

/// Returns the integer of a sign and a magnitude, if it fits 64 bits.
fn signed(minus: bool, magnitude: u64) -> Option<i64>
    ensures { result ≡ signed64 minus magnitude }
{
    if minus {
        0_i64.checked_sub_unsigned(magnitude)
    } else {
        0_i64.checked_add_unsigned(magnitude)
    }
}

/// Returns the integer that digits after a sign spell, if it fits 64 bits.
fn integer_of(minus: bool, digits: &[u8]) -> Option<i64>
    ensures { result ≡ integer64 minus digits.now }
{
    if digits.is_empty() {
        return None;
    }
    signed(minus, spelled_by(digits)?)
}

/// Reads a base 64 integer: an optional `-`, and at least one digit of `A-Z a-z 0-9 + /` for 0 to
/// 63, the most significant first, without padding. There may be leading zeros, and `-A` is 0.
/// Bacula's Developer's Guide, "Storage Media Output Format", has these numbers in the attributes
/// of a file.
///
/// # Errors
///
/// `BadNumber` if the text has another form, or the integer does not fit 64 bits.
#[tactic(auto, unfolding(br_model::specs::Number::read_number))]
pub fn read_number(text: &[u8]) -> Result<i64, AttrFault>
    ensures { AnswersAlways (λ n. n) fault_number result (read_number text.now) }
{
    let integer = match text {
        [b'-', digits @ ..] => integer_of(true, digits),
        _ => integer_of(false, text),
    };
    integer.ok_or(AttrFault::BadNumber)
}

/// Returns the digit at a place, counted from the right.
fn digit_in(magnitude: u64, place: u32) -> u8
    requires { place ≤ 10 }
    ensures { result ≡ digit_at magnitude place }
{
    DIGITS[(magnitude / 64_u64.pow(place) % 64) as usize]
}

/// Returns the place of the first digit that is not 0, or of the last digit.
fn first_place(magnitude: u64) -> u32
    ensures within { result ≤ 10 }
    ensures shortest { last_digits magnitude (result + 1) ≡ write_magnitude magnitude }
{
    let mut place = GREATEST_PLACE;
    while place > 0 && digit_in(magnitude, place) == b'A' {
        place -= 1;
    }
    place
}

/// Appends the last `count` digits.
fn push_digits(text: &mut Vec<u8>, magnitude: u64, count: u32) -> Result<(), AllocError>
    requires { count ≤ 11 }
    ensures { OnOk result (text.new.items ≡ text.old.items ++ last_digits magnitude count) }
{
    let mut left = count;
    while left > 0 {
        left -= 1;
        text.push(digit_in(magnitude, left))?;
    }
    Ok(())
}

/// Appends an integer in base 64, as the shortest text from which `read_number` reads it: `-` if it
/// is negative, and digits of `A-Z a-z 0-9 + /` for 0 to 63, the most significant first, without
/// leading zeros. 0 is `A`.
///
/// If memory runs out, a part of the digits may have been appended.
#[tactic(auto, unfolding(br_model::specs::Number::write_number))]
pub fn write_number(number: i64, text: &mut Vec<u8>) -> Result<(), AllocError>
    ensures ok { OnOk result (text.new.items ≡ text.old.items ++ write_number number) }
    ensures reads_back { OnOk result (read_number (write_number number) ≡ Ok number) }
{
    numbers_read_back();
    if number < 0 {
        text.push(b'-')?;
    }
    let magnitude = number.unsigned_abs();
    push_digits(text, magnitude, first_place(magnitude) + 1)
}
