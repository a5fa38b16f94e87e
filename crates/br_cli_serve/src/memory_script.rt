//! The command `serve` in memory, which the program also runs without a command.
ghost use Rattle.std.specs.Prelude.{◌≡◌, IfOk};
ghost use Rattle.br_cli_serve.specs.MemoryScriptEnding.{IsStatus, IsStatusOf, KeepsStatus, script_status};

use crate::script::ScriptEnd;
use crate::script_fault::ScriptFault;
use crate::script_run::run_script;
use br_cli_common::{CLEAN, REFUSED};
use br_engine::Budget;
use br_sink::Flush;
use std::io::{self, BufRead, BufReader, BufWriter, ErrorKind};
use std::sync::Wait;
use std::thread::Threads;

/// Returns the exit status of a script with this end.
fn status_of(end: ScriptEnd) -> u8
    ensures { result ≡ script_status end }
{
    match end {
        ScriptEnd::Clean => CLEAN,
        ScriptEnd::Refused => REFUSED,
    }
}

/// Flushes the answers of a script with this end. Returns the exit status.
pub(crate) fn flushed_end<W: Flush>(
    end: Result<ScriptEnd, ScriptFault>,
    writer: &mut W,
) -> io::Result<u8>
    ensures flushed { IfOk result (λ _. W.is_flushed writer.new) }
    ensures status { IfOk result (IsStatusOf end) }
    ensures known { IfOk result IsStatus }
{
    writer.flush_all()?;
    Ok(status_of(end?))
}

/// Runs a script, and writes and flushes its answers. Returns the exit status.
pub fn answer<R: BufRead, W: Flush>(
    threads: &(impl Threads + Wait + Sync),
    budget: Budget,
    reader: &mut R,
    writer: &mut W,
) -> io::Result<u8>
    ensures flushed { IfOk result (λ _. W.is_flushed writer.new) }
    ensures status { IfOk result IsStatus }
{
    let end = run_script(threads, budget, reader, writer);
    flushed_end(end, writer)
}

/// Runs the script of standard input, and writes its answers to standard output. Returns the exit status.
fn run_input<R: Input + Print + AllocGlobal>(
    rt: &R,
    threads: &(impl Threads + Wait + Sync),
    memory: u64,
) -> io::Result<u8>
    ensures { IfOk result IsStatus }
{
    let mut reader = BufReader::new(rt.alloc(), rt.reader())?;
    let mut writer = BufWriter::new(rt.alloc(), io::writer(rt))?;
    let budget = Budget {
        alloc: rt.alloc(),
        room: memory,
    };
    answer(threads, budget, &mut reader, &mut writer)
}

/// Returns the exit status of a script. An error for memory is a refusal of the script; it is
/// printed as the last line.
pub(crate) fn refuse_memory<R: Print>(rt: &R, status: io::Result<u8>) -> io::Result<u8>
    requires { IfOk status IsStatus }
    ensures known { IfOk result IsStatus }
    ensures kept { KeepsStatus status result }
{
    match status {
        Ok(status) => Ok(status),
        Err(e) if e.kind() == ErrorKind::OutOfMemory => {
            println!(rt; "refused 1")?;
            Ok(REFUSED)
        }
        Err(e) => Err(e),
    }
}

/// Runs the script of standard input in memory. Returns the exit status.
pub fn serve_memory<R: Input + Print + AllocGlobal>(
    rt: &R,
    threads: &(impl Threads + Wait + Sync),
    memory: u64,
) -> io::Result<u8>
    ensures { IfOk result IsStatus }
{
    refuse_memory(rt, run_input(rt, threads, memory))
}
