ghost use Rattle.std.specs.Prelude.{◌≡◌, ◌==◌, ◌≤◌, ◌&&◌, IfSome, find, map, is_some, nat_le, option_map};
ghost use Rattle.std.specs.List.{list_any};
ghost use Rattle.br_cli_common.specs.RefusalRows.{all_rows, rows_below_50, rows_from_50, row_of};
ghost use Rattle.br_cli_common.specs.RefusalTable.{explained, is_outcome};

use crate::refusal_table::{BELOW_50, FROM_50};

/// What an operator should know of a refusal, or of an outcome of a file, by its number.
#[derive(Clone, Copy)]
pub struct Refusal {
    pub number: u32,
    pub name: &'static str,
    pub meaning: &'static str,
    /// What to do next.
    pub next: &'static str,
}

impl Refusal {
    /// Returns true if the number is that of an outcome, which is in a line `X` of the manifest.
    pub fn is_outcome(&self) -> bool
        ensures { result ≡ is_outcome self.now.number }
    {
        60 <= self.number && self.number <= 69
    }
}

/// Returns the first row with this number.
fn find_in(refusals: &'static [Refusal], number: u32) -> Option<&'static Refusal>
    ensures { option_map (λ row. row.now) result ≡ find (λ row. row.number == number) refusals.now }
{
    refusals.iter().find(|refusal| refusal.number == number)
}

/// Returns the same row; it has the number.
fn row_in(refusals: &'static [Refusal], number: u32) -> Option<&'static Refusal>
    ensures row { option_map (λ r. row_of r.now) result ≡ find (λ r. r.number == number) (map row_of refusals.now) }
    ensures known { is_some result ≡ list_any (λ n. n == number) (map (λ row. row.number) refusals.now) }
    ensures number { IfSome result (λ row. row.now.number ≡ number) }
{
    // The search has a clause of its own, from which these are proved.
    find_in(refusals, number)
}

/// Returns the rows of the table below 50, in order of number.
pub fn refusals_below_50() -> &'static [Refusal]
    ensures { map row_of result.now ≡ rows_below_50 }
{
    &BELOW_50
}

/// Returns the rows of the table from 50 on, in order of number.
pub fn refusals_from_50() -> &'static [Refusal]
    ensures { map row_of result.now ≡ rows_from_50 }
{
    &FROM_50
}

/// Returns the row of the table with this number; `None` if no refusal and no outcome has it.
pub fn explain(number: u32) -> Option<&'static Refusal>
    ensures row { option_map (λ r. row_of r.now) result ≡ find (λ r. r.number == number) all_rows }
    ensures known { is_some result ≡ list_any (λ n. n == number) explained }
    ensures number { IfSome result (λ row. row.now.number ≡ number) }
{
    row_in(refusals_below_50(), number).or(row_in(refusals_from_50(), number))
}
