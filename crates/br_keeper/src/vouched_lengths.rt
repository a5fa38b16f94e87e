//! The lengths of volumes that a keeper vouches for.
ghost use Rattle.std.specs.Prelude.{◌≡◌, ◌++◌, true, false, length, map, min, bytes_eq, position, IfOk, OnOk, OnErr};
ghost use Rattle.std.specs.List.{list_all};
ghost use Rattle.std.specs.Option.{option_copied};
ghost use Rattle.br_model.specs.Job.{is_span, are_rows, is_history};
ghost use Rattle.br_keeper.specs.Vouching.{entry_of, is_retired, end_in, end_of_spans, end_of_jobs, vouched, starts_of};
ghost use Rattle.br_keeper.specs.Vouching.{changed, longer, retired, new_entries};

use br_history::JobRows;
use br_session::{Place, Span};
use br_types::VolName;
use std::alloc::{AllocError, Global};

/// A volume that a commit has begun to write to.
#[derive(Drop)]
pub(crate) struct Vouch {
    pub(crate) vol: VolName,
    /// The number of vouched bytes.
    pub(crate) bytes: u64,
    /// Whether an append or a sync has failed.
    pub(crate) is_retired: bool,
}

/// Returns the entry of a volume.
fn entry_of<'v>(vouches: &'v [Vouch], vol: &VolName) -> Option<&'v Vouch>
    ensures { option_copied result ≡ entry_of vouches.now vol.now }
{
    vouches.iter().find(|v| v.vol.bytes() == vol.bytes())
}

/// Returns whether an append to the volume, or its sync, has failed.
pub(crate) fn is_retired(vouches: &[Vouch], vol: &VolName) -> bool
    ensures { result ≡ is_retired vouches.now vol.now }
{
    match entry_of(vouches, vol) {
        Some(entry) => entry.is_retired,
        None => false,
    }
}

/// Returns the end of a span, exclusive, if it is on this volume; else 0.
fn end_in(vol: &VolName, span: &Span) -> u64
    requires { is_span span.now ≡ true }
    ensures { result ≡ end_in vol.now span.now }
{
    if span.vol.bytes() == vol.bytes() {
        span.end + 1
    } else {
        0
    }
}

/// Returns the end of a volume's spans, exclusive; 0 if there is none.
#[tactic(auto, using(crate::proofs::VouchLaws::fold_next))]
fn end_of_spans(vol: &VolName, spans: &[Span]) -> u64
    requires { list_all is_span spans.now ≡ true }
    ensures { result ≡ end_of_spans vol.now spans.now }
{
    let mut end = 0;
    for span in spans {
        end = end.max(end_in(vol, span));
    }
    end
}

/// Returns the end of the spans of a job on a volume, exclusive; 0 if there is none.
fn end_of_job(vol: &VolName, job: &JobRows) -> u64
    ensures { result ≡ end_of_spans vol.now job.now.spans }
{
    end_of_spans(vol, job.spans())
}

/// Returns the end of the spans of jobs on a volume, exclusive; 0 if there is none.
#[tactic(auto, using(crate::proofs::VouchLaws::fold_next))]
fn end_of_jobs(vol: &VolName, jobs: &[JobRows]) -> u64
    ensures { result ≡ end_of_jobs vol.now jobs.now }
{
    let mut end = 0;
    for job in jobs {
        end = end.max(end_of_job(vol, job));
    }
    end
}

/// Returns the vouched length of a volume, if the catalogue has these jobs.
pub(crate) fn vouched(vouches: &[Vouch], jobs: &[JobRows], vol: &VolName) -> u64
    ensures { result ≡ vouched vouches.now jobs.now vol.now }
{
    match entry_of(vouches, vol) {
        Some(entry) => entry.bytes,
        None => end_of_jobs(vol, jobs),
    }
}

/// Returns the vouched length of the volume of each place.
pub(crate) fn starts_of(
    alloc: Global,
    vouches: &[Vouch],
    jobs: &[JobRows],
    places: &[Place],
) -> Result<Vec<(VolName, u64)>, AllocError>
    ensures { IfOk result (λ starts. starts.items ≡ starts_of vouches.now jobs.now places.now) }
{
    let mut starts = Vec::new(alloc);
    for place in places {
        let bytes = vouched(vouches, jobs, &place.vol);
        starts.push((place.vol.copy(alloc)?, bytes))?;
    }
    Ok(starts)
}

/// Returns the entry of a volume of which no append and no sync has failed.
fn new_entry(alloc: Global, vol: &VolName, bytes: u64) -> Result<Vouch, AllocError>
    ensures { IfOk result (λ v. v ≡ record { vol = vol.now; bytes = bytes; is_retired = false }) }
{
    Ok(Vouch {
        vol: vol.copy(alloc)?,
        bytes,
        is_retired: false,
    })
}

/// Returns entries of the volumes that have none, with these lengths.
fn new_entries(
    alloc: Global,
    vouches: &[Vouch],
    starts: &[(VolName, u64)],
) -> Result<Vec<Vouch>, AllocError>
    ensures { IfOk result (λ entries. entries.items ≡ new_entries vouches.now starts.now) }
{
    let mut entries = Vec::new(alloc);
    for start in starts {
        if entry_of(vouches, &start.0).is_none() {
            entries.push(new_entry(alloc, &start.0, start.1)?)?;
        }
    }
    Ok(entries)
}

/// Adds entries of the volumes that have none, with these lengths. If memory runs out, it adds
/// none.
pub(crate) fn enter(
    alloc: Global,
    vouches: &mut Vec<Vouch>,
    starts: &[(VolName, u64)],
) -> Result<(), AllocError>
    ensures ok { OnOk result (vouches.new.items ≡ vouches.old.items ++ new_entries vouches.old.items starts.now) }
    ensures err { OnErr result (vouches.new.items ≡ vouches.old.items) }
{
    let mut entries = new_entries(alloc, vouches, starts)?;
    vouches.append(&mut entries)?;
    Ok(())
}

/// Returns the place of the entry of a volume.
fn place_of(vouches: &[Vouch], vol: &VolName) -> Option<usize>
    ensures { result ≡ position (λ v. bytes_eq v.vol vol.now) vouches.now }
{
    vouches.iter().position(|v| v.vol.bytes() == vol.bytes())
}

/// Adds to the vouched length of a volume. If it has no entry, nothing is changed.
pub(crate) fn grow(vouches: &mut [Vouch], vol: &VolName, by: usize)
    ensures { vouches.new ≡ changed (longer by) vol.now vouches.old }
{
    match place_of(vouches, vol) {
        Some(at) => vouches[at].bytes = vouches[at].bytes.saturating_add(by as u64),
        None => {}
    }
}

/// Notes that an append to a volume failed. If it has no entry, nothing is changed.
pub(crate) fn retire(vouches: &mut [Vouch], vol: &VolName)
    ensures { vouches.new ≡ changed retired vol.now vouches.old }
{
    match place_of(vouches, vol) {
        Some(at) => vouches[at].is_retired = true,
        None => {}
    }
}
