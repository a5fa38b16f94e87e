//! Reports on the outcomes of a restore, to a terminal and a log.
ghost use Rattle.std.specs.Prelude.{◌≡◌};
ghost use Rattle.br_cli_target.specs.Nothing.{asks_nothing};

use crate::absent_count::count_absent;
use crate::advice_lines::{push_absent, push_older, push_origin};
use crate::origin::{Origin, origins};
use br_bsr::Bootstrap;
use br_cli_common::reason_of_read;
use br_cli_progress::{Faults, Gauge, WatchedWriter};
use br_engine::older_copies;
use br_join::Outcome;
use br_piece::split;
use br_types::{Copies, FileKey, Gaps, VolName, Wanted};
use br_volume::FolderDrive;
use std::alloc::AllocError;
use std::io;

/// The number of volumes whose reasons are reported.
const VOLUMES: usize = 8;

/// The number of outcomes whose lines are printed at once.
const LINES: usize = 256;

/// What a watcher noted of a restore while it ran.
#[derive(Drop)]
pub struct ToldOutcomes<'t> {
    /// The outcomes that are no files.
    faults: &'t Faults,
    /// The keys of the outcomes, unless memory ran out.
    keys: Option<&'t [FileKey]>,
    /// The bootstrap, if there was one.
    bootstrap: Option<&'t Bootstrap>,
}

impl<'t> ToldOutcomes<'t> {
    /// Returns what a watched writer noted of a restore by this bootstrap, if there was one.
    pub fn by<W>(
        writer: &'t WatchedWriter<'_, '_, W>,
        bootstrap: Option<&'t Bootstrap>,
    ) -> ToldOutcomes<'t>
        ensures { result.bootstrap ≡ bootstrap.entry }
    {
        ToldOutcomes {
            faults: writer.faults(),
            keys: writer.keys(),
            bootstrap,
        }
    }

    /// Returns true if there was a bootstrap, and it has no group.
    pub fn asks_nothing(&self) -> bool
        ensures { result ≡ asks_nothing self.now.bootstrap }
    {
        match self.bootstrap {
            Some(bootstrap) => bootstrap.groups().is_empty(),
            None => false,
        }
    }

    /// Returns what a watched writer noted of a console session.
    pub fn of_session<W>(writer: &'t WatchedWriter<'_, '_, W>) -> ToldOutcomes<'t> {
        ToldOutcomes::by(writer, writer.plan())
    }
}

/// Returns the origins of the outcomes that are no files. Their attributes are read once more, with
/// a separate drive.
fn origins_of(
    rt: &HostRuntime,
    volumes: &str,
    told: &ToldOutcomes<'_>,
) -> Result<Vec<Origin>, AllocError> {
    let keys = told.faults.keys(rt.alloc())?;
    let Some(bootstrap) = told.bootstrap else {
        return Ok(Vec::new(rt.alloc()));
    };
    let mut drive = FolderDrive::new(rt.alloc(), rt, volumes)?;
    origins(rt.alloc(), bootstrap, &keys, &mut drive)
}

/// Returns the lines with the origins of outcomes.
fn origin_lines(rt: &HostRuntime, origins: &[Origin]) -> Result<Vec<u8>, AllocError> {
    let mut text = Vec::new(rt.alloc());
    for origin in origins {
        push_origin(&mut text, origin)?;
    }
    Ok(text)
}

/// Reports the origins of outcomes to a terminal and the log, some lines at once. Lines for which
/// memory runs out are left out.
///
/// # Errors
///
/// If standard error failed.
fn tell_origins(rt: &HostRuntime, gauge: &Gauge<'_>, origins: &[Origin]) -> io::Result<()> {
    for part in origins.chunks(LINES) {
        if let Ok(lines) = origin_lines(rt, part) {
            gauge.tell_lines(lines)?;
        }
    }
    Ok(())
}

/// Reports to a terminal and the log the outcomes that are no files in words, and the origin of
/// each, by the volumes in a folder. The origins are left out if memory runs out for them.
///
/// # Errors
///
/// If memory ran out for the words, or standard error failed.
pub fn tell_outcomes(
    rt: &HostRuntime,
    gauge: &Gauge<'_>,
    volumes: &str,
    told: &ToldOutcomes<'_>,
) -> io::Result<()> {
    if !gauge.is_watching() || told.faults.are_none() {
        return Ok(());
    }
    gauge.tell_faults(told.faults)?;
    match origins_of(rt, volumes, told) {
        Ok(origins) => tell_origins(rt, gauge, &origins),
        Err(_) => Ok(()),
    }
}

/// Returns the line with the number of indexes without an outcome, if there are any.
fn absent_lines(rt: &HostRuntime, told: &ToldOutcomes<'_>) -> Result<Vec<u8>, AllocError> {
    let mut text = Vec::new(rt.alloc());
    if let (Some(keys), Some(bootstrap)) = (told.keys, told.bootstrap) {
        let keys = Vec::from_slice(rt.alloc(), keys)?;
        push_absent(
            &mut text,
            count_absent(rt.alloc(), bootstrap.groups(), keys)?,
        )?;
    }
    Ok(text)
}

/// Returns the line with the number of files that are older copies, if there are any.
fn older_lines(rt: &HostRuntime, outcomes: &[(FileKey, Outcome)]) -> Result<Vec<u8>, AllocError> {
    let mut text = Vec::new(rt.alloc());
    push_older(&mut text, &older_copies(rt.alloc(), outcomes)?)?;
    Ok(text)
}

/// Returns the number of outcomes that are files.
fn count_files(outcomes: &[(FileKey, Outcome)]) -> u64 {
    let mut count: u64 = 0;
    for (_, outcome) in outcomes {
        if let Outcome::File(_) = outcome {
            count = count.saturating_add(1);
        }
    }
    count
}

/// Reports to a terminal and the log what `--complete` and `--newest` would report or change, if
/// they were not given. Notes the number of older copies that are left out, if `--newest` was
/// given. The outcomes are those that were to be delivered, and `conflicts` is the number of
/// further files that are left out as conflicting. Lines for which memory runs out are left out.
///
/// # Errors
///
/// If standard error failed.
pub fn advise(
    rt: &HostRuntime,
    gauge: &Gauge<'_>,
    wanted: Wanted,
    outcomes: &[(FileKey, Outcome)],
    conflicts: u64,
    told: &ToldOutcomes<'_>,
) -> io::Result<()> {
    if !gauge.is_watching() {
        return Ok(());
    }
    if wanted.gaps == Gaps::Unreported {
        if let Ok(lines) = absent_lines(rt, told) {
            gauge.tell_lines(lines)?;
        }
    }
    match wanted.copies {
        Copies::All => match older_lines(rt, outcomes) {
            Ok(lines) => gauge.tell_lines(lines),
            Err(_) => Ok(()),
        },
        Copies::Newest => {
            gauge.note_others(count_files(outcomes).saturating_add(conflicts));
            Ok(())
        }
    }
}

/// Reports why a volume in a folder can't be read, if it can't. Returns true if it did.
fn say_volume(
    rt: &HostRuntime,
    gauge: &Gauge<'_>,
    volumes: &str,
    vol: &VolName,
) -> io::Result<bool> {
    match reason_of_read(rt, volumes, vol.bytes())? {
        Some(reason) => {
            gauge.say(format!(in rt.alloc(); "  {reason}")?.as_str())?;
            Ok(true)
        }
        None => Ok(false),
    }
}

/// Reports why volumes in a folder that the bootstrap names can't be read, for the first of them,
/// after a restore that stopped since a volume was missing.
///
/// # Errors
///
/// If memory ran out, or standard error failed.
pub fn say_volumes(
    rt: &HostRuntime,
    gauge: &Gauge<'_>,
    volumes: &str,
    told: &ToldOutcomes<'_>,
) -> io::Result<()> {
    if !gauge.is_watching() {
        return Ok(());
    }
    let Some(bootstrap) = told.bootstrap else {
        return Ok(());
    };
    let mut said: usize = 0;
    for piece in &split(rt.alloc(), bootstrap)? {
        if said < VOLUMES && say_volume(rt, gauge, volumes, &piece.vol)? {
            said = said.saturating_add(1);
        }
    }
    Ok(())
}
