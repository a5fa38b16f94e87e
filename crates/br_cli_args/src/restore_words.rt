//! The command `restore`, by the words that were found for its options.
ghost use Rattle.std.specs.Prelude.{◌≡◌, [], Some, codes, map, option_map, IfOk, IfSome};
ghost use Rattle.clap.specs.Walk.{all_of};
ghost use Rattle.clap.specs.Words.{found_of, rows_of};
ghost use Rattle.br_cli_common.specs.Options.{HasDrives};
ghost use Rattle.br_cli_args.specs.Words.{asked, before_asked, careful, careful_session, careful_start, given_goal, has_choice, patterns_asked};
ghost use Rattle.br_cli_args.specs.Words.{patterns_or_all, restore_asked, restore_bootstrap, restore_paths, target};

use crate::words::{drives_of, memory_of, progress_of, syncs_of, target_of, value_of};
use br_cli_common::{ConsoleOptions, ExtractOptions, FileRows, Invocation, Marks, Printed, Target};
use br_types::{Copies, Gaps, Start, Stops, Wanted};
use clap::ArgMatches;
use std::alloc::{AllocError, Global};

/// The moment after all jobs.
const LAST_MOMENT: &str = "9999-12-31 23:59:59";

/// Returns the target, if there is one.
fn given_goal(to: Target<'_>) -> Option<Target<'_>>
    ensures { option_map target result ≡ given_goal (target to.entry) }
{
    match to {
        Target::Nowhere => None,
        Target::Folder(_) | Target::TarFile(_) | Target::TarOutput => Some(to),
    }
}

/// Returns what the target may hold: a folder may hold files of an earlier restore.
fn careful_start(to: Target<'_>) -> Start
    ensures { result ≡ careful_start (target to.entry) }
{
    match to {
        Target::Folder(_) => Start::Resumed,
        Target::Nowhere | Target::TarFile(_) | Target::TarOutput => Start::Empty,
    }
}

/// Returns the wishes for a restore by a bootstrap: of each path the newest copy, with what is missing
/// reported, and files that can't be written left out.
fn careful() -> Wanted
    ensures { result ≡ careful }
{
    Wanted {
        copies: Copies::Newest,
        gaps: Gaps::Reported,
        stops: Stops::Never,
    }
}

/// Returns those for a restore by a catalogue, which has one copy of each path.
fn careful_session() -> Wanted
    ensures { result ≡ careful_session }
{
    Wanted {
        copies: Copies::All,
        gaps: Gaps::Reported,
        stops: Stops::Never,
    }
}

/// Returns `restore` by a bootstrap with the options that were found, if all required ones were.
#[tactic(auto, unfolding(crate::specs::Words::restore_bootstrap))]
fn bootstrap_found<'a>(found: &ArgMatches<'a>) -> Option<Invocation<'a>>
    ensures asked { option_map asked result ≡ restore_bootstrap (rows_of (found_of found.now)) }
    ensures drives { IfSome result HasDrives }
{
    let bsr = value_of(found, "bsr")?;
    let volumes = value_of(found, "volumes")?;
    let target = given_goal(target_of(found)?)?;
    Some(Invocation::Extract(ExtractOptions {
        bsr,
        volumes,
        target,
        drives: drives_of(found)?,
        memory: memory_of(found)?,
        wanted: careful(),
        start: careful_start(target),
        syncs: syncs_of(found),
        progress: progress_of(found),
        log: value_of(found, "log"),
        printed: Printed::Words(value_of(found, "manifest")),
    }))
}

/// Returns the moment that was found, else the last one.
fn before_of<'a>(found: &ArgMatches<'a>) -> &'a str
    ensures { result.now ≡ before_asked (rows_of (found_of found.now)) }
{
    match value_of(found, "before") {
        Some(before) => before,
        None => LAST_MOMENT,
    }
}

/// Returns the patterns that were found.
fn values_found<'m, 'a>(found: &'m ArgMatches<'a>) -> Option<&'m [&'a str]>
    ensures { option_map (λ s. map (λ v. v.now) s.now) result ≡ all_of (codes "pattern") (rows_of (found_of found.now)) }
{
    // The clause of clap, as a fact about rows.
    found.get_strs("pattern")
}

/// Adds the pattern of all paths to no patterns.
fn add_all(patterns: &mut Vec<&str>) -> Result<(), AllocError>
    requires { patterns.old.items ≡ [] }
    ensures { IfOk result (λ _. map (λ p. p.now) patterns.new.items ≡ patterns_or_all (Some [])) }
{
    patterns.push("/").map_err(AllocError::from)?;
    Ok(())
}

/// Returns the patterns that were found; that of all paths if none was.
///
/// # Errors
///
/// `AllocError` if memory runs out.
#[tactic(auto, unfolding(crate::specs::Words::patterns_asked))]
fn patterns_of<'a>(alloc: Global, found: &ArgMatches<'a>) -> Result<Vec<&'a str>, AllocError>
    ensures { IfOk result (λ patterns. map (λ p. p.now) patterns.items ≡ patterns_asked (rows_of (found_of found.now))) }
{
    let mut patterns = match values_found(found) {
        Some(values) => Vec::from_slice(alloc, values)?,
        None => Vec::new(alloc),
    };
    if patterns.is_empty() {
        add_all(&mut patterns)?;
    }
    Ok(patterns)
}

/// Returns `restore` by a catalogue with these patterns and the options that were found, if all required
/// ones were.
#[tactic(auto, unfolding(crate::specs::Words::restore_paths))]
fn paths_found<'a>(found: &ArgMatches<'a>, patterns: Vec<&'a str>) -> Option<Invocation<'a>>
    requires { map (λ p. p.now) patterns.items ≡ patterns_asked (rows_of (found_of found.now)) }
    ensures asked { option_map asked result ≡ restore_paths (rows_of (found_of found.now)) }
    ensures drives { IfSome result HasDrives }
{
    let db = value_of(found, "db")?;
    let volumes = value_of(found, "volumes")?;
    let client = value_of(found, "client")?;
    let fileset = value_of(found, "fileset")?;
    let target = given_goal(target_of(found)?)?;
    Some(Invocation::Console(ConsoleOptions {
        db,
        volumes,
        client,
        fileset,
        before: before_of(found),
        file_rows: FileRows::Needed,
        marks: Marks::Patterns(patterns),
        target,
        drives: drives_of(found)?,
        memory: memory_of(found)?,
        wanted: careful_session(),
        start: careful_start(target),
        syncs: syncs_of(found),
        progress: progress_of(found),
        log: value_of(found, "log"),
        manifest: value_of(found, "manifest"),
    }))
}

/// Returns true if something was found that goes with a catalogue alone.
fn has_choice(found: &ArgMatches<'_>) -> bool
    ensures { result ≡ has_choice (rows_of (found_of found.now)) }
{
    value_of(found, "db").is_some()
        || value_of(found, "client").is_some()
        || value_of(found, "fileset").is_some()
        || value_of(found, "before").is_some()
        || value_of(found, "pattern").is_some()
}

/// Returns `restore` with the options that were found, if all required ones were, and none that exclude
/// each other.
///
/// # Errors
///
/// `AllocError` if memory runs out.
#[tactic(auto, unfolding(crate::specs::Words::restore_asked))]
pub(crate) fn restore_found<'a>(
    alloc: Global,
    found: &ArgMatches<'a>,
) -> Result<Option<Invocation<'a>>, AllocError>
    ensures asked { IfOk result (λ given. option_map asked given ≡ restore_asked (rows_of (found_of found.now))) }
    ensures drives { IfOk result (λ given. IfSome given HasDrives) }
{
    if value_of(found, "bsr").is_none() {
        let patterns = patterns_of(alloc, found)?;
        return Ok(paths_found(found, patterns));
    }
    if has_choice(found) {
        return Ok(None);
    }
    Ok(bootstrap_found(found))
}

/// Returns what `restore` lacks.
pub(crate) fn restore_lacks(found: &ArgMatches<'_>) -> &'static str {
    let has_bsr = value_of(found, "bsr").is_some();
    if has_bsr && has_choice(found) {
        return "the argument '--bsr <FILE>' cannot be used with '--db <FILE>', '--client <NAME>', '--fileset <NAME>', '--before <MOMENT>' or a pattern";
    }
    let has_all = value_of(found, "db").is_some()
        && value_of(found, "client").is_some()
        && value_of(found, "fileset").is_some();
    if !has_bsr && !has_all {
        return "either '--bsr <FILE>', or '--db <FILE>', '--client <NAME>' and '--fileset <NAME>' must be given";
    }
    "the argument '--into <DIR>' or '--tar <FILE>' must be given"
}
