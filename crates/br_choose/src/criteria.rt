ghost use Rattle.std.specs.Prelude.{◌≡◌};
ghost use Rattle.std.specs.Option.{option_copied};
ghost use Rattle.br_model.specs.Choice.{is_good, is_of_client, is_of_fileset};
ghost use Rattle.br_choose.specs.Wanted.{is_candidate, comes_after, is_wanted, later};

use br_history::JobRows;
use br_types::Name;
use std::marker::Model;

/// Returns the key by which jobs are ordered: the start time, then the number.
pub(crate) fn rank(rows: &JobRows) -> (u64, u32)
    ensures start { result.0 ≡ rows.now.row.start }
    ensures number { result.1 ≡ rows.now.row.id }
{
    let row = rows.row();
    (row.start, row.id.get())
}

/// Returns whether a job comes after another, if there is one.
fn comes_behind(earlier: Option<&JobRows>, rows: &JobRows) -> bool
    ensures { result ≡ comes_after (option_copied earlier.entry) rows.now }
{
    match earlier {
        Some(earlier) => rank(earlier) < rank(rows),
        None => true,
    }
}

/// Returns the later of two jobs.
pub(crate) fn later_of<'h>(first: &'h JobRows, second: &'h JobRows) -> &'h JobRows
    ensures { result.now ≡ later first.now second.now }
{
    if rank(first) < rank(second) {
        second
    } else {
        first
    }
}

/// Returns whether a job is a backup that ended well, or with warnings.
fn ended_well(rows: &JobRows) -> bool
    ensures { result ≡ is_good rows.now }
{
    let row = rows.row();
    row.kind.get() == b'B' && (row.status.get() == b'T' || row.status.get() == b'W')
}

/// The conditions on a chosen job: its client, its file set, and the moment before which it began.
#[derive(Drop)]
pub(crate) struct Criteria<'r> {
    pub(crate) client: &'r Name,
    pub(crate) fileset: &'r Name,
    /// In seconds since 1970.
    pub(crate) moment: u64,
}

impl<'r> Model for Criteria<'r> {
    ghost use Rattle.br_model.specs.Choice as model;

    ghost Value = { model.Request };

    ghost view = { λ r. record { client = r.client.now; fileset = r.fileset.now; moment = r.moment } };
}

impl<'r> Criteria<'r> {
    /// Returns whether a job is of the client.
    pub(crate) fn names_client(&self, rows: &JobRows) -> bool
        ensures { result ≡ is_of_client self.now.client rows.now }
    {
        rows.row().client.bytes() == self.client.bytes()
    }

    /// Returns whether a job is of the file set.
    pub(crate) fn names_fileset(&self, rows: &JobRows) -> bool
        ensures { result ≡ is_of_fileset self.now.fileset rows.now }
    {
        rows.row().fileset.bytes() == self.fileset.bytes()
    }

    /// Returns whether a job ended well, is of the client and the file set, and began before the moment.
    fn admits(&self, rows: &JobRows) -> bool
        ensures { result ≡ is_candidate self.now rows.now }
    {
        ended_well(rows)
            && self.names_client(rows)
            && self.names_fileset(rows)
            && rows.row().start < self.moment
    }

    /// Returns whether a job is admitted, of this level, and comes after another job, if there is one.
    pub(crate) fn wants(&self, rows: &JobRows, level: u8, earlier: Option<&JobRows>) -> bool
        ensures { result ≡ is_wanted self.now level (option_copied earlier.entry) rows.now }
    {
        self.admits(rows) && rows.row().level.get() == level && comes_behind(earlier, rows)
    }
}
