//! Facts about commits to a catalogue in a database. The calls do nothing: a caller makes one for
//! its clauses.
ghost use Rattle.br_keeper.specs.Keeping.{shelf_of};
ghost use Rattle.br_store.specs.Crash.{CommitsOutlive, CrashesLeaveFoundJobs, RefusalsAreWhole, stored_on};

use br_volume::VolumeStore;
use sqlite::Alter;

/// States what a crash leaves of the database after a commit. If the job was stored, published or
/// not, it leaves the rows with the job. If the database refused the job, it leaves what it could
/// leave before, or the rows with the job. After any other refusal the database is unchanged.
pub fn commits_outlive_crashes<S: Alter, W: VolumeStore>()
    ensures { CommitsOutlive S.Store (shelf_of W.holds W.failures) }
{}

/// States what an opening finds after an insertion that was refused, also if a failure shut the
/// store. Of a database that a crash leaves then it finds the rows as they were before, or with the
/// job.
pub fn refused_jobs_are_whole<S: Alter>()
    ensures { RefusalsAreWhole S.Store }
{}

/// States what is found after a commit and a crash. If volumes and catalogue agreed before, each
/// job of which an opening finds the rows is held by the volumes that the crash leaves. A job that
/// was stored is found, published or not. One that the database refused may be found, and no other.
pub fn crashes_leave_found_jobs<S: Alter, W: VolumeStore>()
    ensures { CrashesLeaveFoundJobs S.Store (stored_on S.Store W.VolumeStore) }
{}
