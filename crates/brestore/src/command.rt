//! The commands, carried out from their options.
ghost use Rattle.br_cli_common.specs.Options.{HasDrives};

use br_cli::{check_files, explain_all, explain_number, extract_files};
use br_cli_common::{Invocation, greet};
use br_cli_console::restore_marked;
use br_cli_listing::list;
use br_cli_serve::{migrate_catalogue, serve_files, serve_memory};
use br_keeper::Catalogue;
use std::io;
use std::sync::Wait;
use std::thread::Threads;

/// The text for an operator at a terminal who gives no command.
const SCRIPT_AWAITED: &str =
    "brestore: reads a script from standard input. `brestore --help` lists the commands; Ctrl-D ends the input.";

/// Carries out a command, in as many threads as `threads` starts. Returns the exit status: 0 if
/// nothing was refused and every outcome is a file; 1 otherwise; 3 if the program's own files or
/// streams failed.
///
/// # Errors
///
/// If memory ran out, or a stream of the program failed where that is no exit status of the command.
pub(crate) fn run_command<C: Catalogue>(
    rt: &HostRuntime,
    threads: &(impl Threads + Wait + Sync),
    catalogue: &C,
    command: &Invocation<'_>,
) -> io::Result<u8>
    requires few { HasDrives command.now }
{
    match command {
        Invocation::Serve(memory) => {
            greet(rt, SCRIPT_AWAITED)?;
            serve_memory(rt, threads, *memory)
        }
        Invocation::ServeFiles(options) => serve_files(rt, threads, catalogue, options),
        Invocation::Extract(options) => extract_files(rt, threads, options),
        Invocation::Console(options) => restore_marked(rt, threads, catalogue, options),
        Invocation::Check(options) => check_files(rt, options),
        Invocation::Jobs(options) => list(rt, catalogue, options),
        Invocation::Migrate(db) => migrate_catalogue(rt, catalogue, db),
        Invocation::Explain(number) => explain_number(rt, *number),
        Invocation::ExplainAll => explain_all(rt),
    }
}
