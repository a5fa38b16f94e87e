ghost use Rattle.std.specs.Prelude.{◌≡◌, IfOk};
ghost use Rattle.br_model.specs.Job.{is_file_row};

use br_attr::Stat;
use br_types::{JobId, Letter, MAX_INDEX, Name, Path, SessionKey};
use std::alloc::{AllocError, Global};
use std::marker::Model;

/// A job's own row: the columns of Job that are used here, with the names of its client and its file set.
#[derive(Debug, Drop)]
pub struct JobRow {
    /// JobId.
    pub id: JobId,
    /// Type: B is a backup.
    pub kind: Letter,
    /// Level: F is a Full, D a Differential, I an Incremental.
    pub level: Letter,
    /// JobStatus: T ended well, W with warnings.
    pub status: Letter,
    /// StartTime, in seconds since 1970 in UTC.
    pub start: u64,
    /// VolSessionId and VolSessionTime.
    pub session: SessionKey,
    /// The name of the client that was saved.
    pub client: Name,
    /// The name of the file set that was saved.
    pub fileset: Name,
}

impl Model for JobRow {
    ghost use Rattle.br_model.specs.Job as model;

    ghost Value = { model.JobRow };

    ghost view = { λ j. record {
      id = j.id;
      kind = j.kind;
      level = j.level;
      status = j.status;
      start = j.start;
      session = j.session;
      client = j.client;
      fileset = j.fileset;
    } };
}

impl JobRow {
    /// Returns an equal row.
    pub fn copy(&self, alloc: Global) -> Result<JobRow, AllocError>
        ensures { IfOk result (λ row. row ≡ self.now) }
    {
        Ok(JobRow {
            id: self.id,
            kind: self.kind,
            level: self.level,
            status: self.status,
            start: self.start,
            session: self.session,
            client: self.client.copy(alloc)?,
            fileset: self.fileset.copy(alloc)?,
        })
    }
}

/// A row of File: a path that a job saved, or whose deletion it noted.
#[derive(Debug, Drop)]
pub struct FileRow {
    /// The path.
    pub path: Path,
    /// FileIndex; 0 notes that the path was deleted.
    pub index: u32,
    /// LStat, the numbers of a saved file as text; any text for a deletion.
    pub lstat: String,
    /// MD5, if a digest was saved.
    pub md5: Option<[u8; 16]>,
}

impl Model for FileRow {
    ghost use Rattle.std.specs.String.{string_bytes};
    ghost use Rattle.br_model.specs.Job as model;

    ghost Value = { model.FileRow };

    ghost view = { λ f. record { path = f.path; index = f.index; lstat = string_bytes f.lstat; digest = f.md5 } };
}

impl FileRow {
    /// Returns whether the index is below 2^31 and the numbers of a saved file can be read.
    pub(crate) fn is_valid(&self) -> bool
        ensures { result ≡ is_file_row self.now }
    {
        self.index <= MAX_INDEX && (self.index == 0 || Stat::read(self.lstat.as_bytes()).is_ok())
    }

    /// Returns an equal row.
    pub fn copy(&self, alloc: Global) -> Result<FileRow, AllocError>
        ensures { IfOk result (λ row. row ≡ self.now) }
    {
        Ok(FileRow {
            path: self.path.copy(alloc)?,
            index: self.index,
            lstat: String::from_str(alloc, self.lstat.as_str())?,
            md5: self.md5,
        })
    }
}
