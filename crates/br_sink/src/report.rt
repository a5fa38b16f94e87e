ghost use Rattle.std.specs.Prelude.{◌≡◌, map};
ghost use Rattle.br_model.specs.Manifest.{totals_of};
ghost use Rattle.br_join.specs.Outcome.{restored};

use br_join::Outcome;
use br_types::FileKey;
use std::marker::Model;

/// How a restore ended.
#[derive(Clone, Copy)]
pub struct Report {
    /// The number of files.
    pub files: u64,
    /// The number of faults instead of files.
    pub faults: u64,
    /// The number of records that were skipped in the files.
    pub skipped: u128,
}

impl Model for Report {
    ghost use Rattle.br_model.specs.Manifest.{Totals};

    ghost Value = { Totals };

    ghost view = { λ r. record { files = r.files; faults = r.faults; skipped = r.skipped } };

    ghost inverse = { λ t. record { files = t.files; faults = t.faults; skipped = t.skipped } };
}

/// Returns the totals of a restore: files, faults, and the records that were skipped in its files.
#[tactic(auto, unfolding(br_model::specs::Manifest::totals_of))]
pub fn totals(outcomes: &[(FileKey, Outcome)]) -> Report
    ensures { result ≡ totals_of (map restored outcomes.now) }
{
    let mut files = 0;
    let mut faults = 0;
    let mut skipped = 0;
    for (_, outcome) in outcomes {
        match outcome {
            Outcome::File(item) => {
                files += 1;
                skipped += u128::from(item.skipped);
            }
            Outcome::Fault { .. } => faults += 1,
        }
    }
    Report {
        files,
        faults,
        skipped,
    }
}
