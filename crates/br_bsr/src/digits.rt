ghost use Rattle.std.specs.Prelude.{◌≡◌, ◌≤◌, ◌<◌, ◌+◌, ◌-◌, ◌*◌, ◌^◌, true, length, fold};
ghost use Rattle.std.specs.List.{list_all};
ghost use Rattle.std.specs.Char.{is_ascii_digit};
ghost use Rattle.br_model.specs.Answer.{some_or};
ghost use Rattle.br_model.specs.Text.{decimal_value};
ghost use Rattle.br_model.specs.BootstrapText.{read_digits};

use br_types::are_digits;

/// The greatest number of digits of a number.
const MAX_DIGITS: usize = 20;

/// Returns the number that decimal digits spell.
fn spelled(digits: &[u8]) -> u128
    requires few { length digits.now ≤ 20 }
    requires digits { list_all is_ascii_digit digits.now ≡ true }
    ensures { result ≡ fold (λ n c. 10 * n + (c - 48)) 0 digits.now }
{
    let mut value = 0;
    for byte in digits {
        value = 10 * value + u128::from(*byte - b'0');
    }
    value
}

/// Returns the number that 1 to 20 decimal digits spell; `None` for any other text.
#[tactic(auto, unfolding(br_model::specs::BootstrapText::read_digits, br_model::specs::Text::decimal_value))]
pub fn digits_of(text: &[u8]) -> Option<u128>
    ensures { some_or result 33 ≡ read_digits text.now }
{
    if text.len() > MAX_DIGITS || text.is_empty() || !are_digits(text) {
        return None;
    }
    Some(spelled(text))
}
