ghost use Rattle.std.specs.Prelude.{◌≡◌, true, [], ◌∷◌, ◌++◌, map, IfOk, OnOk};
ghost use Rattle.std.specs.List.{list_all};
ghost use Rattle.br_model.specs.Bootstrap.{SessionId, VolAddr};
ghost use Rattle.br_model.specs.BootstrapText.{is_range, is_group};
ghost use Rattle.br_model.specs.Job.{is_span};
ghost use Rattle.br_model.specs.Plan as model;
ghost use Rattle.br_plan.specs.Parts.{Rise, indexes_of, groups_of_span, groups_of_job, groups_of_jobs};
ghost use Rattle.br_plan.specs.Runs.{AreRuns};

use crate::index_runs::runs_of;
use crate::part::{FileOf, FileRuns, part_of};
use crate::ranges::ranges_of;
use br_bsr::{Group, Range};
use br_history::JobRows;
use br_session::Span;
use std::alloc::{AllocError, Global};

/// Returns the range of one number alone.
fn one_number(alloc: Global, number: u32) -> Result<Vec<Range>, AllocError>
    ensures same { IfOk result (λ ranges. ranges.items ≡ model.one_number number) }
    ensures valid { IfOk result (λ ranges. list_all (is_range SessionId) ranges.items ≡ true) }
{
    let mut ranges = Vec::new(alloc);
    ranges.push(Range {
        low: u64::from(number),
        high: u64::from(number),
    })?;
    Ok(ranges)
}

/// Returns the range of the bytes of a span.
fn bytes_of(alloc: Global, span: &Span) -> Result<Vec<Range>, AllocError>
    requires { is_span span.now ≡ true }
    ensures same { IfOk result (λ ranges. ranges.items ≡ record { low = span.now.start; high = span.now.end } ∷ []) }
    ensures valid { IfOk result (λ ranges. list_all (is_range VolAddr) ranges.items ≡ true) }
{
    let mut ranges = Vec::new(alloc);
    ranges.push(Range {
        low: span.start,
        high: span.end,
    })?;
    Ok(ranges)
}

/// Returns the group of a span for these files of the job.
fn group_of(
    alloc: Global,
    job: &JobRows,
    span: &Span,
    part: FileRuns<'_>,
) -> Result<Group, AllocError>
    requires span { is_span span.now ≡ true }
    requires runs { AreRuns part.files.now part.runs.now }
    ensures same { IfOk result (λ group. group ≡ model.span_group job.now.row.session span.now (indexes_of part.entry.files.now)) }
    ensures valid { IfOk result (λ group. is_group group ≡ true) }
{
    // The name is valid because of its type.
    let _ = span.vol.bytes();
    let session = job.row().session;
    let mut group = Group::on(alloc, span.vol.copy(alloc)?);
    group.session_ids = one_number(alloc, session.id)?;
    group.session_times = one_number(alloc, session.time)?;
    group.addrs = bytes_of(alloc, span)?;
    group.indexes = ranges_of(alloc, part.files, part.runs)?;
    Ok(group)
}

/// Adds a group for a span of a job, if a file has a part in it.
fn add_span(
    groups: &mut Vec<Group>,
    files: FileRuns<'_>,
    job: &JobRows,
    span: &Span,
) -> Result<(), AllocError>
    requires rise { Rise files.files.now }
    requires runs { AreRuns files.files.now files.runs.now }
    requires span { is_span span.now ≡ true }
    requires groups { list_all is_group groups.old.items ≡ true }
    ensures more { OnOk result (groups.new.items ≡ groups.old.items ++ groups_of_span files.entry.files.now job.now span.now) }
    ensures valid { OnOk result (list_all is_group groups.new.items ≡ true) }
{
    let part = part_of(files, job.row().id, span);
    if !part.files.is_empty() {
        let alloc = *groups.allocator();
        groups.push(group_of(alloc, job, span, part)?)?;
    }
    Ok(())
}

/// Adds a group for each span of a job in which a file has a part.
fn add_job(groups: &mut Vec<Group>, files: FileRuns<'_>, job: &JobRows) -> Result<(), AllocError>
    requires rise { Rise files.files.now }
    requires runs { AreRuns files.files.now files.runs.now }
    requires groups { list_all is_group groups.old.items ≡ true }
    ensures more { OnOk result (groups.new.items ≡ groups.old.items ++ groups_of_job files.entry.files.now job.now) }
    ensures valid { OnOk result (list_all is_group groups.new.items ≡ true) }
{
    for span in job.spans() {
        add_span(groups, files, job, span)?;
    }
    Ok(())
}

/// Returns a group for each span of the jobs in which one of the files has a part.
fn groups_by(
    alloc: Global,
    files: FileRuns<'_>,
    jobs: &[&JobRows],
) -> Result<Vec<Group>, AllocError>
    requires rise { Rise files.files.now }
    requires runs { AreRuns files.files.now files.runs.now }
    ensures same { IfOk result (λ groups. groups.items ≡ groups_of_jobs files.entry.files.now (map (λ j. j.now) jobs.now)) }
    ensures valid { IfOk result (λ groups. list_all is_group groups.items ≡ true) }
{
    let mut groups = Vec::new(alloc);
    for job in jobs {
        add_job(&mut groups, files, job)?;
    }
    Ok(groups)
}

/// Returns a group for each span of the jobs in which one of the files has a part. Beside a search
/// for each span the time is that for the ranges of the groups.
pub(crate) fn groups_of(
    alloc: Global,
    files: &[FileOf],
    jobs: &[&JobRows],
) -> Result<Vec<Group>, AllocError>
    requires { Rise files.now }
    ensures same { IfOk result (λ groups. groups.items ≡ groups_of_jobs files.now (map (λ j. j.now) jobs.now)) }
    ensures valid { IfOk result (λ groups. list_all is_group groups.items ≡ true) }
{
    let runs = runs_of(alloc, files)?;
    groups_by(alloc, FileRuns { files, runs: &runs }, jobs)
}
