//! The restoring half of a Bacula Director, with the volume reading that a restore needs.
//!
//! `restore` brings back all that it can, by a bootstrap or by patterns over a catalogue. `extract` runs
//! a bootstrap over the volumes of a folder. `console` lets the operator mark files
//! as they were at a moment, and restores them. Both write the restored files into another folder,
//! if one is given. `jobs` lists the jobs of a catalogue. `explain` prints what a refusal number
//! means. `migrate` changes a catalogue of version 1 to version 2. `serve` runs a script from
//! standard input, over a catalogue and a folder of volumes, or in memory; without a command the
//! program does the same in memory.
//!
//! The words of the command line are read by br_cli_args, catalogues are in files of SQLite
//! (br_catalog_files), and what the commands do is in br_cli, br_cli_console and br_cli_listing.
#![tactic(auto)]

mod command;

use crate::command::run_command;
use br_catalog_files::CatalogueFiles;
use br_cli_args::read_words;
use br_cli_common::{BAD_COMMAND, BAD_STREAM, CLEAN, REFUSED, tell_refusal};
use std::fs::File;
use std::io::{self, ErrorKind};
use std::process::ExitCode;
use std::rt::Env;
use std::sync::Wait;
use std::thread::Threads;

/// Returns the words of the command line, the program's name first; `None` if one of them is not
/// UTF-8.
fn words_of<R: Env + AllocGlobal>(rt: &R) -> io::Result<Option<Vec<String>>> {
    match std::env::args(rt) {
        Ok(words) => Ok(Some(words.collect(rt.alloc())?)),
        Err(e) if e.kind() == ErrorKind::InvalidData => Ok(None),
        Err(e) => Err(e),
    }
}

/// Carries out the command line, in as many threads as `threads` starts. Returns the exit status.
fn run(rt: &HostRuntime, threads: &(impl Threads + Wait + Sync)) -> io::Result<u8> {
    let Some(words) = words_of(rt)? else {
        eprintln!(rt; "brestore: an argument is not UTF-8")?;
        return Ok(BAD_COMMAND);
    };
    match read_words(rt.alloc(), &words) {
        Ok(command) => run_command(rt, threads, &CatalogueFiles::new(rt), &command),
        Err(fault) if fault.kind() == clap::error::ErrorKind::OutOfMemory => {
            Err(ErrorKind::OutOfMemory.into())
        }
        Err(fault) => {
            fault.print(rt)?;
            Ok(if fault.use_stderr() {
                BAD_COMMAND
            } else {
                CLEAN
            })
        }
    }
}

/// Takes the place of each standard stream that is closed. Else a file of the program would get it, and
/// with it what is printed. A folder is neither read nor written, so the stream still fails.
fn hold_streams(rt: &HostRuntime) -> [Option<File>; 3] {
    [
        File::open(rt, "/").ok(),
        File::open(rt, "/").ok(),
        File::open(rt, "/").ok(),
    ]
}

/// Runs the program. The exit status is 0 if nothing was refused and every outcome is a file, else
/// 1; 2 for a fault of the command line, 3 if the program's own files or streams failed.
fn main(rt: HostRuntime) -> ExitCode {
    let _held = hold_streams(&rt);
    match run(&rt, &rt) {
        Ok(status) => ExitCode::from(status),
        Err(e) if e.kind() == ErrorKind::OutOfMemory => {
            let _ = eprintln!(rt; "refused 1");
            let _ = tell_refusal(&rt, 1);
            ExitCode::from(REFUSED)
        }
        Err(e) => {
            let _ = eprintln!(rt; "brestore: {e}");
            ExitCode::from(BAD_STREAM)
        }
    }
}
