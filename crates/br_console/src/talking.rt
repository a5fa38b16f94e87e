ghost use Rattle.std.specs.Prelude.{◌≡◌, ◌+◌, ◌^◌, ◌<◌, IfOk, IfErr, OnOk};
ghost use Rattle.std.specs.Io.BufRead.{strip_last};
ghost use Rattle.br_console.specs.ConsoleFault.{EndlessAfterAll, IsBrokenOff};
ghost use Rattle.br_console.specs.ConsoleEnding.{are_accepted, is_done};
ghost use Rattle.br_console.specs.Talking.{Converses, LeavesOver, ReadsLine, talk};

use crate::console_fault::ConsoleFault;
use crate::ending::{LineVerdict, SessionEnd, SessionOutcome};
use crate::reply::say;
use br_engine::Turns;
use br_mark::Console;
use br_sink::{Flush, show};
use std::alloc::Global;
use std::io::BufRead;

/// Returns the result of a session from two flags: it ended with `done`, and no line was refused.
fn session_of(done: bool, clean: bool) -> SessionOutcome
    ensures done { is_done result.end ≡ done }
    ensures clean { are_accepted result.lines ≡ clean }
{
    SessionOutcome {
        lines: if clean {
            LineVerdict::AllAccepted
        } else {
            LineVerdict::SomeRefused
        },
        end: if done {
            SessionEnd::Done
        } else {
            SessionEnd::Quit
        },
    }
}

/// Removes the line feed from the end of a line, if it has one.
fn drop_feed(line: &mut Vec<u8>)
    ensures { line.new.items ≡ strip_last 10 line.old.items }
{
    if line.last() == Some(&b'\n') {
        line.pop();
    }
}

/// Makes one turn of reading: reads the next line without its line feed into `line`, in place of
/// its old bytes. The writer is flushed before. Returns false at the end of input.
fn read_line<R: BufRead, W: Flush>(
    reader: &mut R,
    turns: &mut Turns,
    line: &mut Vec<u8>,
    writer: &W,
) -> Result<bool, ConsoleFault>
    requires shown { W.is_flushed writer.now }
    ensures line { IfOk result (λ is_line. ReadsLine (R.remaining reader.old) (R.remaining reader.new) line.new.items is_line) }
    ensures turn { OnOk result (turns.new ≡ turns.old + 1) }
    ensures few { OnOk result (turns.old < 2 ^ 40) }
    ensures free { IfErr result IsBrokenOff }
    ensures endless { IfErr result EndlessAfterAll }
{
    let _writer = writer;
    turns.take()?;
    line.clear();
    match reader.read_until(b'\n', line) {
        Ok(len) => {
            drop_feed(line);
            Ok(len > 0)
        }
        Err(fault) => Err(ConsoleFault::of_reading(fault)),
    }
}

/// Runs a console session: reads line after line, of any length, gives each to the console, and
/// writes the answer, or `refused N` if the console refuses the line with 55, 56 or 57. The writer
/// is flushed after each answer. A line ends only at its line feed, which the last one may lack.
/// The session ends at `done`, at `quit` or at the end of input; lines after `done` or `quit` stay
/// unread.
///
/// # Errors
///
/// - `Memory` if memory ran out.
/// - `Io` if the reader or the writer failed.
/// - `NoEnd` if the reader has not ended after 2^40 lines.
///
/// After `Memory` and `NoEnd` the writer has the answers to the first lines, and nothing else. After
/// `Io` it may have a part of an answer, too.
pub fn converse<R: BufRead + Drop, W: Flush>(
    alloc: Global,
    console: &mut Console<'_>,
    reader: &mut R,
    writer: &mut W,
) -> Result<SessionOutcome, ConsoleFault>
    requires shown { W.is_flushed writer.old }
    ensures session { Converses (talk R.Read W.Write (reader.old, writer.old) (reader.new, writer.new)) console.old result }
    ensures leaves { LeavesOver (R.remaining reader.old) console.old console.new result }
    ensures view { console.new.view ≡ console.old.view }
    ensures flushed { OnOk result (W.is_flushed writer.new) }
    ensures free { IfErr result IsBrokenOff }
    ensures endless { IfErr result EndlessAfterAll }
{
    let mut line = Vec::new(alloc);
    let mut is_clean = true;
    let mut turns = Turns::new();
    loop {
        if !read_line(reader, &mut turns, &mut line, writer)? {
            return Ok(session_of(false, is_clean));
        }
        let reply = say(alloc, console, &line)?;
        let (ends, is_done) = (reply.ends(), reply.ends_done());
        is_clean &= !reply.is_refused();
        show(writer, &reply.into_text(alloc)?)?;
        if ends {
            return Ok(session_of(is_done, is_clean));
        }
    }
}
