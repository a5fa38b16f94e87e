//! The command that the words of a command line ask for.
ghost use Rattle.std.specs.Prelude.{◌≡◌, codes, Some, true, false, map, option_map, string_bytes, IfOk, IfSome};
ghost use Rattle.clap.specs.Walk.{first_of};
ghost use Rattle.clap.specs.Words.{FailsBy, app_of, fault_of, found_of, rows_of, subcommand_rows_of};
ghost use Rattle.br_cli_args.specs.ClapCommands.{program_app};
ghost use Rattle.br_cli_common.specs.Options.{AreFew, HasDrives};
ghost use Rattle.br_cli_args.specs.Words.{copies_asked, copies_by, gaps_asked, gaps_by, is_given, wanted_asked};
ghost use Rattle.br_cli_args.specs.Words.{checksums_asked, checksums_by, progress_asked, progress_by, stops_asked, stops_by};
ghost use Rattle.br_cli_args.specs.Words.{file_rows_asked, file_rows_by, syncs_asked, syncs_by};
ghost use Rattle.br_cli_args.specs.Words.{clock_asked, clock_by, start_asked, start_by, start_for};
ghost use Rattle.br_cli_args.specs.Words.{is_no_size, memory_asked};
ghost use Rattle.br_cli_args.specs.Words.{AsksFor, MissesBy, asked, asked_by, words_asked, words_fault, words_kind};
ghost use Rattle.br_cli_args.specs.Words.{check_asked, console_asked, drives_asked, explain_asked, extract_asked};
ghost use Rattle.br_cli_args.specs.Words.{jobs_asked, migrate_asked, number_asked, serve_asked, serve_by, target_asked};
ghost use Rattle.br_cli_args.specs.Words.{kind_by, kind_in, session_wanted, tar_target, target, target_by};

use crate::byte_size::read_size;
use crate::command_table::{error_of, program};
use crate::restore_words::{restore_found, restore_lacks};
use br_cli_common::{
    CheckOptions, Checksums, Clock, ConsoleOptions, ExtractOptions, FileRows, Invocation,
    JobsOptions, Marks, Printed, Progress, ServeOptions, Syncs, Target,
};
use br_types::{Copies, Gaps, Start, Stops, Wanted};
use clap::error::ErrorKind;
use clap::{ArgMatches, Command, Error};
use std::alloc::{AllocError, Global};

/// The memory for data if none is given.
const DEFAULT_MEMORY: u64 = 1 << 30;

/// Returns what was found for an option.
pub(crate) fn value_of<'a>(found: &ArgMatches<'a>, name: &str) -> Option<&'a str>
    ensures { option_map (λ s. s.now) result ≡ first_of name.now (rows_of (found_of found.now)) }
{
    // The clause of clap, as a fact about rows.
    found.get_str(name)
}

/// Returns the target of a tar stream: `-` is standard output.
fn tar_target(file: &str) -> Target<'_>
    ensures { target result ≡ tar_target file.now }
{
    if file == "-" {
        return Target::TarOutput;
    }
    Target::TarFile(file)
}

/// Returns the target of the restored files by the values of `--into` and `--tar`; only one may be
/// given.
fn target_by<'a>(into: Option<&'a str>, tar: Option<&'a str>) -> Option<Target<'a>>
    ensures { option_map target result ≡ target_by (option_map (λ s. s.now) into.entry) (option_map (λ s. s.now) tar.entry) }
{
    match (into, tar) {
        (None, None) => Some(Target::Nowhere),
        (Some(folder), None) => Some(Target::Folder(folder)),
        (None, Some(file)) => Some(tar_target(file)),
        (Some(_), Some(_)) => None,
    }
}

/// Returns the target of the restored files, unless two were found.
#[tactic(auto, unfolding(crate::specs::Words::target_asked))]
pub(crate) fn target_of<'a>(found: &ArgMatches<'a>) -> Option<Target<'a>>
    ensures { option_map target result ≡ target_asked (rows_of (found_of found.now)) }
{
    target_by(value_of(found, "into"), value_of(found, "tar"))
}

/// Returns the number of drives that was found, if it is from 1 to 16.
pub(crate) fn drives_of(found: &ArgMatches<'_>) -> Option<usize>
    ensures asked { result ≡ drives_asked (rows_of (found_of found.now)) }
    ensures drives { IfSome result AreFew }
{
    let drives = found.get_one::<usize>("drives")?;
    if 1 <= drives && drives <= 16 {
        Some(drives)
    } else {
        None
    }
}

/// Returns the memory for data that was found, if it is a size.
#[tactic(auto, unfolding(crate::specs::Words::memory_asked))]
pub(crate) fn memory_of(found: &ArgMatches<'_>) -> Option<u64>
    ensures { result ≡ memory_asked (rows_of (found_of found.now)) }
{
    read_size(value_of(found, "memory")?.as_bytes())
}

/// Returns true if an option without a value was found.
fn is_found(found: &ArgMatches<'_>, name: &str) -> bool
    ensures { result ≡ is_given name.now (rows_of (found_of found.now)) }
{
    match value_of(found, name) {
        Some(value) => value == "true",
        None => false,
    }
}

/// Returns which files are to be delivered; `--newest` decides.
fn copies_by(is_newest: bool) -> Copies
    ensures { result ≡ copies_by is_newest }
{
    if is_newest {
        Copies::Newest
    } else {
        Copies::All
    }
}

/// Returns which files are to be delivered.
#[tactic(auto, unfolding(crate::specs::Words::copies_asked))]
fn copies_of(found: &ArgMatches<'_>) -> Copies
    ensures { result ≡ copies_asked (rows_of (found_of found.now)) }
{
    copies_by(is_found(found, "newest"))
}

/// Returns true if missing indexes are to be reported; `--complete` decides.
fn gaps_by(is_complete: bool) -> Gaps
    ensures { result ≡ gaps_by is_complete }
{
    if is_complete {
        Gaps::Reported
    } else {
        Gaps::Unreported
    }
}

/// Returns true if missing indexes are to be reported.
#[tactic(auto, unfolding(crate::specs::Words::gaps_asked))]
fn gaps_of(found: &ArgMatches<'_>) -> Gaps
    ensures { result ≡ gaps_asked (rows_of (found_of found.now)) }
{
    gaps_by(is_found(found, "complete"))
}

/// Returns what the delivery does at a file that can't be put; `--keep-going` decides.
fn stops_by(goes_on: bool) -> Stops
    ensures { result ≡ stops_by goes_on }
{
    if goes_on {
        Stops::Never
    } else {
        Stops::AtFirst
    }
}

/// Returns what the delivery does at a file that can't be put.
#[tactic(auto, unfolding(crate::specs::Words::stops_asked))]
fn stops_of(found: &ArgMatches<'_>) -> Stops
    ensures { result ≡ stops_asked (rows_of (found_of found.now)) }
{
    stops_by(is_found(found, "keep-going"))
}

/// Returns what a folder may hold; `--resume` decides.
fn start_by(is_resumed: bool) -> Start
    ensures { result ≡ start_by is_resumed }
{
    if is_resumed {
        Start::Resumed
    } else {
        Start::Empty
    }
}

/// Returns what a folder may hold.
#[tactic(auto, unfolding(crate::specs::Words::start_asked))]
fn start_of(found: &ArgMatches<'_>) -> Start
    ensures { result ≡ start_asked (rows_of (found_of found.now)) }
{
    start_by(is_found(found, "resume"))
}

/// Returns what the target may hold, unless `--resume` was given and the target is no folder.
fn start_for(to: Target<'_>, start: Start) -> Option<Start>
    ensures { result ≡ start_for (target to.entry) start }
{
    match to {
        Target::Folder(_) => Some(start),
        Target::Nowhere | Target::TarFile(_) | Target::TarOutput => match start {
            Start::Empty => Some(Start::Empty),
            Start::Resumed => None,
        },
    }
}

/// Returns the further wishes for the restore.
fn wanted_of(found: &ArgMatches<'_>) -> Wanted
    ensures { result ≡ wanted_asked (rows_of (found_of found.now)) }
{
    Wanted {
        copies: copies_of(found),
        gaps: gaps_of(found),
        stops: stops_of(found),
    }
}

/// Returns the further wishes for the restore of a session, which has one copy of each path.
fn session_wanted(found: &ArgMatches<'_>) -> Wanted
    ensures { result ≡ session_wanted (rows_of (found_of found.now)) }
{
    Wanted {
        copies: Copies::All,
        gaps: gaps_of(found),
        stops: stops_of(found),
    }
}

/// Returns whether the files of a delivery are synced; `--sync` decides.
fn syncs_by(is_synced: bool) -> Syncs
    ensures { result ≡ syncs_by is_synced }
{
    if is_synced { Syncs::Each } else { Syncs::Never }
}

/// Returns whether the files of a delivery are synced.
#[tactic(auto, unfolding(crate::specs::Words::syncs_asked))]
pub(crate) fn syncs_of(found: &ArgMatches<'_>) -> Syncs
    ensures { result ≡ syncs_asked (rows_of (found_of found.now)) }
{
    syncs_by(is_found(found, "sync"))
}

/// Returns which rows of files are looked at; `--verify-catalogue` decides.
fn file_rows_by(is_verified: bool) -> FileRows
    ensures { result ≡ file_rows_by is_verified }
{
    if is_verified {
        FileRows::All
    } else {
        FileRows::Needed
    }
}

/// Returns which rows of files are looked at.
#[tactic(auto, unfolding(crate::specs::Words::file_rows_asked))]
fn file_rows_of(found: &ArgMatches<'_>) -> FileRows
    ensures { result ≡ file_rows_asked (rows_of (found_of found.now)) }
{
    file_rows_by(is_found(found, "verify-catalogue"))
}

/// Returns true if a terminal shows the progress of the restore; `--quiet` decides.
fn progress_by(is_quiet: bool) -> Progress
    ensures { result ≡ progress_by is_quiet }
{
    if is_quiet {
        Progress::Quiet
    } else {
        Progress::Shown
    }
}

/// Returns true if a terminal shows the progress of the restore.
#[tactic(auto, unfolding(crate::specs::Words::progress_asked))]
pub(crate) fn progress_of(found: &ArgMatches<'_>) -> Progress
    ensures { result ≡ progress_asked (rows_of (found_of found.now)) }
{
    progress_by(is_found(found, "quiet"))
}

/// Returns what a check does with checksums; `--checksums` decides.
fn checksums_by(is_compared: bool) -> Checksums
    ensures { result ≡ checksums_by is_compared }
{
    if is_compared {
        Checksums::Compared
    } else {
        Checksums::Passed
    }
}

/// Returns what a check does with checksums.
#[tactic(auto, unfolding(crate::specs::Words::checksums_asked))]
fn checksums_of(found: &ArgMatches<'_>) -> Checksums
    ensures { result ≡ checksums_asked (rows_of (found_of found.now)) }
{
    checksums_by(is_found(found, "checksums"))
}

/// Returns the zones in which moments are shown; `--local` decides.
fn clock_by(is_local: bool) -> Clock
    ensures { result ≡ clock_by is_local }
{
    if is_local {
        Clock::UtcAndLocal
    } else {
        Clock::Utc
    }
}

/// Returns the zones in which moments are shown.
#[tactic(auto, unfolding(crate::specs::Words::clock_asked))]
fn clock_of(found: &ArgMatches<'_>) -> Clock
    ensures { result ≡ clock_asked (rows_of (found_of found.now)) }
{
    clock_by(is_found(found, "local"))
}

/// Returns the number to explain that was found.
fn number_of(found: &ArgMatches<'_>) -> Option<u32>
    ensures { result ≡ number_asked (rows_of (found_of found.now)) }
{
    let number = found.get_one::<usize>("number")?;
    match u32::try_from(number) {
        Ok(number) => Some(number),
        Err(_) => None,
    }
}

/// Returns `extract` with the options that were found, if all required ones were.
#[tactic(auto, unfolding(crate::specs::Words::extract_asked))]
fn extract_found<'a>(found: &ArgMatches<'a>) -> Option<Invocation<'a>>
    ensures asked { option_map asked result ≡ extract_asked (rows_of (found_of found.now)) }
    ensures drives { IfSome result HasDrives }
{
    let bootstrap = value_of(found, "bsr")?;
    let volumes = value_of(found, "volumes")?;
    let target = target_of(found)?;
    Some(Invocation::Extract(ExtractOptions {
        bsr: bootstrap,
        volumes,
        target,
        drives: drives_of(found)?,
        memory: memory_of(found)?,
        wanted: wanted_of(found),
        start: start_for(target, start_of(found))?,
        syncs: syncs_of(found),
        progress: progress_of(found),
        log: value_of(found, "log"),
        printed: Printed::Manifest,
    }))
}

/// Returns `console` with the options that were found, if all required ones were.
#[tactic(auto, unfolding(crate::specs::Words::console_asked))]
fn console_found<'a>(found: &ArgMatches<'a>) -> Option<Invocation<'a>>
    ensures asked { option_map asked result ≡ console_asked (rows_of (found_of found.now)) }
    ensures drives { IfSome result HasDrives }
{
    let db = value_of(found, "db")?;
    let volumes = value_of(found, "volumes")?;
    let client = value_of(found, "client")?;
    let fileset = value_of(found, "fileset")?;
    let before = value_of(found, "before")?;
    let target = target_of(found)?;
    Some(Invocation::Console(ConsoleOptions {
        db,
        volumes,
        client,
        fileset,
        before,
        file_rows: file_rows_of(found),
        marks: Marks::Lines,
        target,
        drives: drives_of(found)?,
        memory: memory_of(found)?,
        wanted: session_wanted(found),
        start: start_for(target, start_of(found))?,
        syncs: syncs_of(found),
        progress: progress_of(found),
        log: value_of(found, "log"),
        manifest: value_of(found, "manifest"),
    }))
}

/// Returns `check` with the options that were found, if all required ones were.
#[tactic(auto, unfolding(crate::specs::Words::check_asked))]
fn check_found<'a>(found: &ArgMatches<'a>) -> Option<Invocation<'a>>
    ensures asked { option_map asked result ≡ check_asked (rows_of (found_of found.now)) }
    ensures drives { IfSome result HasDrives }
{
    let bsr = value_of(found, "bsr")?;
    let volumes = value_of(found, "volumes")?;
    let checksums = checksums_of(found);
    let memory = memory_of(found)?;
    Some(Invocation::Check(CheckOptions {
        bsr,
        volumes,
        checksums,
        memory,
    }))
}

/// Returns `jobs` with the options that were found, if all required ones were.
#[tactic(auto, unfolding(crate::specs::Words::jobs_asked))]
fn jobs_found<'a>(found: &ArgMatches<'a>) -> Option<Invocation<'a>>
    ensures asked { option_map asked result ≡ jobs_asked (rows_of (found_of found.now)) }
    ensures drives { IfSome result HasDrives }
{
    Some(Invocation::Jobs(JobsOptions {
        db: value_of(found, "db")?,
        client: value_of(found, "client"),
        fileset: value_of(found, "fileset"),
        before: value_of(found, "before"),
        file_rows: file_rows_of(found),
        clock: clock_of(found),
    }))
}

/// Returns `explain` with the number that was found, if there is one.
#[tactic(auto, unfolding(crate::specs::Words::explain_asked))]
fn explain_found<'a>(found: &ArgMatches<'a>) -> Option<Invocation<'a>>
    ensures asked { option_map asked result ≡ explain_asked (rows_of (found_of found.now)) }
    ensures drives { IfSome result HasDrives }
{
    match value_of(found, "number") {
        None => Some(Invocation::ExplainAll),
        Some(_) => Some(Invocation::Explain(number_of(found)?)),
    }
}

/// Returns `serve` by the values of `--db` and `--volumes`, unless one was given without the other,
/// and the memory for data.
fn serve_by<'a>(
    db: Option<&'a str>,
    volumes: Option<&'a str>,
    memory: u64,
) -> Option<Invocation<'a>>
    ensures asked { option_map asked result
        ≡ serve_by (option_map (λ s. s.now) db.entry) (option_map (λ s. s.now) volumes.entry) memory }
    ensures drives { IfSome result HasDrives }
{
    match (db, volumes) {
        (None, None) => Some(Invocation::Serve(memory)),
        (Some(db), Some(volumes)) => Some(Invocation::ServeFiles(ServeOptions {
            db,
            volumes,
            memory,
        })),
        (Some(_), None) | (None, Some(_)) => None,
    }
}

/// Returns `serve` with the options that were found, unless one was given without the other.
#[tactic(auto, unfolding(crate::specs::Words::serve_asked))]
fn serve_found<'a>(found: &ArgMatches<'a>) -> Option<Invocation<'a>>
    ensures asked { option_map asked result ≡ serve_asked (rows_of (found_of found.now)) }
    ensures drives { IfSome result HasDrives }
{
    let memory = memory_of(found)?;
    serve_by(value_of(found, "db"), value_of(found, "volumes"), memory)
}

/// Returns `migrate` with the file that was found, if there is one.
#[tactic(auto, unfolding(crate::specs::Words::migrate_asked))]
fn migrate_found<'a>(found: &ArgMatches<'a>) -> Option<Invocation<'a>>
    ensures asked { option_map asked result ≡ migrate_asked (rows_of (found_of found.now)) }
    ensures drives { IfSome result HasDrives }
{
    Some(Invocation::Migrate(value_of(found, "db")?))
}

/// Returns the name of the subcommand that was found, and what was found for its options.
fn found_command<'m, 'a>(matches: &'m ArgMatches<'a>) -> Option<(&'a str, &'m ArgMatches<'a>)>
    ensures { subcommand_rows_of matches.now ≡ option_map (λ p. (p.0.now, rows_of (found_of p.1.now))) result }
{
    matches.subcommand()
}

/// Returns the command that was found, if all its required options were.
///
/// # Errors
///
/// `AllocError` if memory runs out.
#[tactic(auto, unfolding(crate::specs::Words::asked_by))]
fn invocation_of<'a>(
    alloc: Global,
    matches: &ArgMatches<'a>,
) -> Result<Option<Invocation<'a>>, AllocError>
    ensures asked { IfOk result (λ found. option_map asked found ≡ asked_by (subcommand_rows_of matches.now)) }
    ensures drives { IfOk result (λ found. IfSome found HasDrives) }
{
    match found_command(matches) {
        None => Ok(Some(Invocation::Serve(DEFAULT_MEMORY))),
        Some((name, found)) if name == "restore" => restore_found(alloc, found),
        Some((name, found)) if name == "extract" => Ok(extract_found(found)),
        Some((name, found)) if name == "console" => Ok(console_found(found)),
        Some((name, found)) if name == "check" => Ok(check_found(found)),
        Some((name, found)) if name == "jobs" => Ok(jobs_found(found)),
        Some((name, found)) if name == "explain" => Ok(explain_found(found)),
        Some((name, found)) if name == "serve" => Ok(serve_found(found)),
        Some((name, found)) if name == "migrate" => Ok(migrate_found(found)),
        Some(_) => Ok(None),
    }
}

/// Returns true if a value is not a size.
fn is_no_size(value: Option<&str>) -> bool
    ensures { result ≡ is_no_size (option_map (λ s. s.now) value.entry) }
{
    match value {
        None => false,
        Some(value) => read_size(value.as_bytes()).is_none(),
    }
}

/// Returns the kind of fault of options that ask for no command: two that exclude each other, a
/// value that is not a size, or a missing one.
fn kind_in(found: &ArgMatches<'_>) -> ErrorKind
    ensures { result ≡ kind_in (rows_of (found_of found.now)) }
{
    if target_of(found).is_none() {
        return ErrorKind::ArgumentConflict;
    }
    if is_no_size(value_of(found, "memory")) {
        return ErrorKind::ValueValidation;
    }
    ErrorKind::MissingRequiredArgument
}

/// Returns the kind of fault of a command line that asks for no command.
#[tactic(auto, unfolding(crate::specs::Words::kind_by))]
fn kind_of_fault(matches: &ArgMatches<'_>) -> ErrorKind
    ensures { result ≡ kind_by (subcommand_rows_of matches.now) }
{
    match found_command(matches) {
        None => ErrorKind::MissingRequiredArgument,
        Some((_, found)) => kind_in(found),
    }
}

/// Returns true if `--resume` was given.
fn is_resumed(matches: &ArgMatches<'_>) -> bool {
    match found_command(matches) {
        None => false,
        Some((_, found)) => is_found(found, "resume"),
    }
}

/// Returns what `restore` lacks.
fn lacks_of(matches: &ArgMatches<'_>) -> &'static str {
    match found_command(matches) {
        None => "",
        Some((_, found)) => restore_lacks(found),
    }
}

/// Returns the message for a fault of this kind.
fn text_of_fault(matches: &ArgMatches<'_>, kind: ErrorKind) -> &'static str {
    match kind {
        ErrorKind::ArgumentConflict => {
            "the argument '--into <DIR>' cannot be used with '--tar <FILE>'"
        }
        ErrorKind::ValueValidation => {
            "the value of '--memory <SIZE>' is no number of bytes below 2^64, alone or with K, M, G or T"
        }
        _ if name_found(matches) == "restore" => lacks_of(matches),
        _ if is_resumed(matches) => "the argument '--resume' must be given with '--into <DIR>'",
        _ => "the arguments '--db <FILE>' and '--volumes <DIR>' must be given together",
    }
}

/// Returns the name of the subcommand that was found; an empty name if there is none.
fn name_found<'a>(matches: &ArgMatches<'a>) -> &'a str {
    match found_command(matches) {
        None => "",
        Some((name, _)) => name,
    }
}

/// What was found in a command line: the command, if all its required options were found; else the
/// kind of fault and its message; and the name of the subcommand.
type Found<'a> = (Option<Invocation<'a>>, ErrorKind, &'static str, &'a str);

/// Returns what was found in a command line.
///
/// # Errors
///
/// `AllocError` if memory runs out.
fn found_in<'a>(alloc: Global, matches: &ArgMatches<'a>) -> Result<Found<'a>, AllocError>
    ensures asked { IfOk result (λ found. option_map asked found.0 ≡ asked_by (subcommand_rows_of matches.now)) }
    ensures drives { IfOk result (λ found. IfSome found.0 HasDrives) }
    ensures kind { IfOk result (λ found. found.1 ≡ kind_by (subcommand_rows_of matches.now)) }
{
    let kind = kind_of_fault(matches);
    Ok((
        invocation_of(alloc, matches)?,
        kind,
        text_of_fault(matches, kind),
        name_found(matches),
    ))
}

/// Returns what clap finds in the words of a command line.
fn parsed<'a>(command: &mut Command<'a>, words: &'a [String]) -> Result<ArgMatches<'a>, Error>
    requires { app_of command.old ≡ program_app }
    ensures asks { IfOk result (AsksFor (map string_bytes words.entry.now)) }
    ensures misses { IfOk result (MissesBy (map string_bytes words.entry.now)) }
    ensures fails { FailsBy (fault_of program_app (map string_bytes words.entry.now)) result }
{
    // The clauses of clap, as facts about the words.
    command.try_get_matches_from_mut(words)
}

/// Reads words by the program's commands.
fn read_by<'a>(
    alloc: Global,
    command: &mut Command<'a>,
    words: &'a [String],
) -> Result<Invocation<'a>, Error>
    requires { app_of command.old ≡ program_app }
    ensures asks { IfOk result (λ invocation. words_asked (map string_bytes words.entry.now) ≡ Some (asked invocation)) }
    ensures fails { FailsBy (words_fault (map string_bytes words.entry.now)) result }
    ensures drives { IfOk result HasDrives }
{
    let (found, kind, text, name) = found_in(alloc, &parsed(command, words)?)?;
    match found {
        Some(invocation) => Ok(invocation),
        None => Err(error_of(alloc, name, kind, text)?),
    }
}

/// Reads the words of a command line; the first is the program's name.
///
/// The commands are `restore --volumes DIR` with `--bsr FILE`, or with `--db FILE --client NAME
/// --fileset NAME`, `--before MOMENT` and patterns, `extract --bsr FILE --volumes DIR`, `console --db FILE --volumes DIR --client
/// NAME --fileset NAME --before MOMENT`, `check --bsr FILE --volumes DIR [--checksums]`, `jobs --db
/// FILE [--client NAME] [--fileset NAME] [--before MOMENT] [--local]`, `migrate --db FILE`,
/// `explain [N]` and `serve`. `restore`, `extract` and `console` also take `--into DIR` or `--tar FILE`, `--drives N`,
/// `--sync`, `--quiet` and `--log FILE`; the last two `--complete`, `--keep-going` and, with `--into`,
/// `--resume`. `extract` takes `--newest`, `restore` and `console` take `--manifest FILE`. `serve` takes
/// `--db FILE` and `--volumes DIR`, both or neither. All that restore, and `check`, take `--memory SIZE`: bytes, or a
/// number with K, M, G or T. No command is the same as `serve`.
///
/// # Errors
///
/// A fault of the command line, with its text for the operator; a request for help or for the
/// version; `OutOfMemory`.
pub fn read_words<'a>(alloc: Global, words: &'a [String]) -> Result<Invocation<'a>, Error>
    ensures asks { IfOk result (λ invocation. words_asked (map string_bytes words.entry.now) ≡ Some (asked invocation)) }
    ensures fails { FailsBy (words_fault (map string_bytes words.entry.now)) result }
    ensures drives { IfOk result HasDrives }
{
    let mut command = program(alloc)?;
    read_by(alloc, &mut command, words)
}
