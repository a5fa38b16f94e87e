ghost use Rattle.std.specs.Prelude.{◌≡◌, bytes_eq, nat_lt, true};
ghost use Rattle.std.specs.Option.{option_map_or};
ghost use Rattle.br_jobs.specs.JobFilter.{is_listed};

use br_history::{JobRow, JobRows};

/// The choice of the jobs that are listed. What is not given does not matter.
#[derive(Clone, Copy)]
pub struct Filter<'a> {
    /// The name of a client.
    pub client: Option<&'a str>,
    /// The name of a file set.
    pub fileset: Option<&'a str>,
    /// The moment before which a job began, in seconds since 1970 in UTC.
    pub before: Option<u64>,
}

impl Filter<'_> {
    /// Returns true if a row names the client, if one is given.
    fn admits_client(&self, row: &JobRow) -> bool
        ensures { result ≡ option_map_or (λ c. bytes_eq row.now.client c.now) self.now.client true }
    {
        match self.client {
            Some(client) => row.client.bytes() == client.as_bytes(),
            None => true,
        }
    }

    /// Returns true if a row names the file set, if one is given.
    fn admits_fileset(&self, row: &JobRow) -> bool
        ensures { result ≡ option_map_or (λ s. bytes_eq row.now.fileset s.now) self.now.fileset true }
    {
        match self.fileset {
            Some(fileset) => row.fileset.bytes() == fileset.as_bytes(),
            None => true,
        }
    }

    /// Returns true if a job with this row began before the moment, if one is given.
    fn admits_start(&self, row: &JobRow) -> bool
        ensures { result ≡ option_map_or (λ m. nat_lt row.now.start m) self.now.before true }
    {
        match self.before {
            Some(before) => row.start < before,
            None => true,
        }
    }

    /// Returns true if a job is listed.
    pub(crate) fn admits(&self, job: &JobRows) -> bool
        ensures { result ≡ is_listed self.now job.now }
    {
        let row = job.row();
        self.admits_client(row) && self.admits_fileset(row) && self.admits_start(row)
    }
}
