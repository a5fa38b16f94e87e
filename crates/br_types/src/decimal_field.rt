ghost use Rattle.std.specs.Prelude.{◌≡◌, ◌≤◌, ◌-◌, ◌+◌, ◌*◌, true, fold, IfSome};
ghost use Rattle.std.specs.List.{list_all};
ghost use Rattle.std.specs.Char.{is_ascii_digit};
ghost use Rattle.br_types.specs.DecimalField.{capped, number_spelled, up_to};

use crate::bytes::are_digits;

/// The number that is read for every number that does not fit 64 bits: 2^64.
const CAP: u128 = 18_446_744_073_709_551_616;

/// Returns the number whose digits are those of `value` and one more, or 2^64 if it is greater.
fn with_digit(value: u128, digit: u8) -> u128
    requires few { value ≤ 18446744073709551616 }
    requires digit { is_ascii_digit digit ≡ true }
    ensures { result ≡ capped (10 * value + (digit - 48)) }
{
    let value = 10 * value + u128::from(digit - b'0');
    if value < CAP { value } else { CAP }
}

/// Returns the number that decimal digits spell, or 2^64 if it is greater.
fn spelled(digits: &[u8]) -> u128
    requires { list_all is_ascii_digit digits.now ≡ true }
    ensures { result ≡ capped (fold (λ n c. 10 * n + (c - 48)) 0 digits.now) }
{
    let mut value = 0;
    for digit in digits {
        value = with_digit(value, *digit);
    }
    value
}

/// Returns a number that is at most `most`.
fn at_most(number: u128, most: u64) -> Option<u64>
    ensures is { result ≡ up_to most number }
    ensures fits { IfSome result (λ n. n ≤ most) }
{
    if number <= u128::from(most) {
        Some(number as u64)
    } else {
        None
    }
}

/// Reads a number in decimal, with any number of leading zeros, that is at most `most`. Returns `None` for
/// any other text.
#[tactic(auto, unfolding(crate::specs::DecimalField::number_spelled, br_model::specs::Text::decimal_value), using(crate::proofs::NumberLaws::capped_up_to))]
pub fn read_number(text: &[u8], most: u64) -> Option<u64>
    ensures is { result ≡ number_spelled most text.now }
    ensures fits { IfSome result (λ n. n ≤ most) }
{
    if text.is_empty() || !are_digits(text) {
        return None;
    }
    at_most(spelled(text), most)
}
