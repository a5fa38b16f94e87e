ghost use Rattle.std.specs.Prelude.{◌≡◌, ◌-◌, ◌*◌, ◌+◌, ◌<◌, true, length, fold, Some, None, if◌then◌else◌};
ghost use Rattle.br_model.specs.Answer.{AnswersAlways};
ghost use Rattle.br_model.specs.Moment as model;
ghost use Rattle.br_plan.specs.Fault.{moment_number};
ghost use Rattle.br_plan.specs.Moment.{has_date, IsWritten};

use br_types::are_digits;
use jiff::civil::DateTime;
use std::marker::Model;
use thiserror::Error;

/// A text that is no moment.
#[derive(Clone, Copy, Debug, Error)]
#[error("not a moment from 1970 on of the form YYYY-MM-DD HH:MM:SS")]
pub struct BadMoment;

impl BadMoment {
    /// Returns the number of the refusal: 52.
    pub fn number(self) -> u32
        ensures { result ≡ moment_number self }
    {
        52
    }
}

/// The numbers of a moment, which may not be in the calendar.
#[derive(Drop)]
struct Moment {
    year: u64,
    month: u64,
    day: u64,
    hour: u64,
    minute: u64,
    second: u64,
}

impl Model for Moment {
    ghost use Rattle.br_model.specs.Moment as model;

    ghost Value = { model.Moment };

    ghost view = { λ m. record { year = m.year; month = m.month; day = m.day; hour = m.hour; minute = m.minute; second = m.second } };
}

/// Returns whether the text has 19 bytes and begins with `YYYY-MM-DD`.
fn has_date(text: &[u8]) -> bool
    ensures form { result ≡ has_date text.now }
    ensures long { result ≡ true → length text.now ≡ 19 }
{
    text.len() == 19
        && are_digits(&text[0..4])
        && text[4] == b'-'
        && are_digits(&text[5..7])
        && text[7] == b'-'
        && are_digits(&text[8..10])
}

/// Returns whether the text is of the form `YYYY-MM-DD HH:MM:SS`.
#[tactic(auto, unfolding(br_model::specs::Moment::is_moment_text))]
fn has_form(text: &[u8]) -> bool
    ensures form { result ≡ model.is_moment_text text.now }
    ensures long { result ≡ true → length text.now ≡ 19 }
{
    has_date(text)
        && text[10] == b' '
        && are_digits(&text[11..13])
        && text[13] == b':'
        && are_digits(&text[14..16])
        && text[16] == b':'
        && are_digits(&text[17..19])
}

/// Returns the number of two digits.
fn two(bytes: &[u8]) -> u64
    requires { length bytes.now ≡ 2 }
    ensures value { result ≡ fold (λ n c. 10 * n + (c - 48)) 0 bytes.now }
    ensures small { result < 4096 }
{
    10 * u64::from(bytes[0].saturating_sub(b'0')) + u64::from(bytes[1].saturating_sub(b'0'))
}

/// Returns the number of four digits.
fn four(bytes: &[u8]) -> u64
    requires { length bytes.now ≡ 4 }
    ensures { result ≡ fold (λ n c. 10 * n + (c - 48)) 0 bytes.now }
{
    100 * two(&bytes[..2]) + two(&bytes[2..])
}

/// Returns the numbers in a text of the form.
fn numbers_in(text: &[u8]) -> Moment
    requires { length text.now ≡ 19 }
    ensures { result ≡ model.moment_in text.now }
{
    Moment {
        year: four(&text[0..4]),
        month: two(&text[5..7]),
        day: two(&text[8..10]),
        hour: two(&text[11..13]),
        minute: two(&text[14..16]),
        second: two(&text[17..19]),
    }
}

/// Returns the seconds from the beginning of 1970 to a moment, if it is in the calendar and not
/// before 1970.
#[tactic(auto, unfolding(br_model::specs::Moment::is_moment))]
fn seconds_of(moment: &Moment) -> Option<u64>
    requires { IsWritten moment.now }
    ensures { result ≡ if model.is_moment moment.now then Some (model.seconds_of moment.now) else None }
{
    if moment.year < 1970 {
        return None;
    }
    let civil = DateTime::new(
        moment.year as i16,
        moment.month as i8,
        moment.day as i8,
        moment.hour as i8,
        moment.minute as i8,
        moment.second as i8,
        0,
    );
    match civil {
        Ok(civil) => Some(civil.to_plain().to_second() as u64),
        Err(_) => None,
    }
}

/// Reads a moment in UTC as `YYYY-MM-DD HH:MM:SS`, with digits in the places of the letters, as
/// seconds since 1970.
///
/// # Errors
///
/// `BadMoment` unless it is a day of the calendar from 1970 on, an hour up to 23, and a minute and a second up to 59.
#[tactic(auto, unfolding(br_model::specs::Moment::read_moment))]
pub fn read_moment(text: &[u8]) -> Result<u64, BadMoment>
    ensures { AnswersAlways (λ seconds. seconds) moment_number result (model.read_moment text.now) }
{
    if !has_form(text) {
        return Err(BadMoment);
    }
    match seconds_of(&numbers_in(text)) {
        Some(seconds) => Ok(seconds),
        None => Err(BadMoment),
    }
}
