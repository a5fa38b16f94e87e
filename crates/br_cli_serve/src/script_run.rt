//! Scripts, line by line.
ghost use Rattle.std.specs.Prelude.{◌≡◌, ◌≤◌, Err, IfErr, OnOk};
ghost use Rattle.br_cli_serve.specs.ScriptDeeds.{AppendsRaw, Does, DoesFew, DoesSome};
ghost use Rattle.br_cli_serve.specs.ScriptAnswering.{refusal_at};
ghost use Rattle.br_cli_serve.specs.ScriptKeeper.{IsOwn, SeesMore};
ghost use Rattle.br_cli_serve.specs.ScriptEnding.{RefusesBy};
ghost use Rattle.br_cli_serve.specs.ScriptFault.{EndlessAfterAll};
ghost use Rattle.br_cli_serve.specs.ScriptJobs.{GivesUp};
ghost use Rattle.br_cli_serve.specs.ScriptLine.{drives_after, drives_by, line_said, said};
ghost use Rattle.br_cli_serve.specs.ScriptObeying.{AppendsBy, Carries, CarriesOut, Obeys, TakesOutside, number_of};
ghost use Rattle.br_cli_serve.specs.declared.script.ScriptEnd.TheVariants.{Refused};

use crate::driven_store::DrivenStore;
use crate::forgetful::Forgetful;
use crate::script::{BAD_SCRIPT, Script, ScriptEnd};
use crate::script_fault::ScriptFault;
use crate::script_input::{InputLines, LineReading};
use crate::script_line::{ScriptLine, is_restore, read_line};
use crate::script_text::skip_dialogue;
use br_engine::Budget;
use br_history::MAX_LINE;
use br_keeper::{JobStore, Keeper, Session};
use br_types::{LineFault, VolName};
use br_volume::MemStore;
use std::io::{self, BufRead, ErrorKind, Write};
use std::sync::Wait;
use std::thread::Threads;

impl<C: JobStore, V: DrivenStore> Script<C, V> {
    /// Appends bytes to a volume. No job vouches for them.
    fn append<W: Write>(&mut self, name: VolName, bytes: &[u8], writer: &mut W) -> io::Result<()>
        requires own { IsOwn self.old.desk.session self.old.desk.keeper }
        ensures own { IsOwn self.new.desk.session self.new.desk.keeper }
        ensures sees { SeesMore self.old.desk.session self.new.desk.session }
        ensures drives { self.new.drives ≡ self.old.drives }
        ensures appended { AppendsRaw V.holds name bytes.now self.old.desk.keeper self.new.desk.keeper }
        ensures answers { AppendsBy V.holds V.failures self.old self.new (W.contents writer.old) (W.contents writer.new) name bytes.now result }
    {
        match self.desk.keeper.append_raw(&name, bytes) {
            Ok(()) => Ok(()),
            Err(_) => self.refuse(44, writer),
        }
    }

    /// Carries out the request of a line.
    #[tactic(auto, using(crate::proofs::DeskLaws::appended_few))]
    fn obey<T: Threads + Wait + Sync, R: BufRead, W: Write>(
        &mut self,
        rt: &T,
        line: ScriptLine<'_>,
        lines: &mut InputLines<R>,
        writer: &mut W,
    ) -> Result<(), ScriptFault>
        requires own { IsOwn self.old.desk.session self.old.desk.keeper }
        ensures own { IsOwn self.new.desk.session self.new.desk.keeper }
        ensures sees { SeesMore self.old.desk.session self.new.desk.session }
        ensures drives { self.new.drives ≡ drives_after (said line.entry) self.old.drives }
        ensures turns { OnOk result (lines.old.turns ≤ lines.new.turns) }
        ensures few { DoesFew C.inserts C.refuses V.holds V.failures self.new.desk.session self.old.desk.keeper self.new.desk.keeper }
        ensures obeys { Obeys V.holds V.failures self.old self.new (W.contents writer.old) (W.contents writer.new)
            lines.old.number result (said line.entry) }
    {
        match line {
            ScriptLine::Drives(count) => {
                self.drives = count;
                Ok(())
            }
            ScriptLine::Volume { name, bytes } => Ok(self.append(name, &bytes, writer)?),
            ScriptLine::Bsr => self.keep_bootstrap(lines, writer),
            ScriptLine::Extract => self.run_kept(rt, lines.number(), writer),
            ScriptLine::Job(fields) => Ok(self.begin_job(fields, lines.number(), writer)?),
            ScriptLine::Restore(fields) => self.restore(rt, fields, lines, writer),
        }
    }

    /// Refuses a line outside of a job.
    fn refuse_outside<R: BufRead, W: Write>(
        &mut self,
        fault: LineFault,
        line: &[u8],
        lines: &mut InputLines<R>,
        writer: &mut W,
    ) -> Result<(), ScriptFault>
        ensures drives { self.new.drives ≡ self.old.drives }
        ensures desk { self.new.desk ≡ self.old.desk }
        ensures turns { OnOk result (lines.old.turns ≤ lines.new.turns) }
        ensures ended { self.new.end ≡ Refused }
        ensures refuses { RefusesBy (W.contents writer.old) (W.contents writer.new) self.new.end result
            (refusal_at (number_of fault) lines.old.number) }
    {
        match fault {
            LineFault::Memory => self.refuse(1, writer)?,
            LineFault::BadScript => self.refuse_line(BAD_SCRIPT, lines.number(), writer)?,
        }
        if is_restore(line) {
            skip_dialogue(self.alloc, lines)?;
        }
        Ok(())
    }

    /// Carries out a line outside of a job, or writes why it is refused.
    fn take_line<T: Threads + Wait + Sync, R: BufRead, W: Write>(
        &mut self,
        rt: &T,
        line: &[u8],
        lines: &mut InputLines<R>,
        writer: &mut W,
    ) -> Result<(), ScriptFault>
        requires own { IsOwn self.old.desk.session self.old.desk.keeper }
        ensures own { IsOwn self.new.desk.session self.new.desk.keeper }
        ensures sees { SeesMore self.old.desk.session self.new.desk.session }
        ensures drives { self.new.drives ≡ drives_by (line_said line.now) self.old.drives }
        ensures turns { OnOk result (lines.old.turns ≤ lines.new.turns) }
        ensures few { DoesFew C.inserts C.refuses V.holds V.failures self.new.desk.session self.old.desk.keeper self.new.desk.keeper }
        ensures refused { line_said line.now ≡ Err tt → (self.new.desk ≡ self.old.desk) × (self.new.end ≡ Refused) }
        ensures takes { TakesOutside V.holds V.failures self.old self.new (W.contents writer.old) (W.contents writer.new)
            lines.old.number result line.now }
    {
        match read_line(self.alloc, line) {
            Ok(asked) => self.obey(rt, asked, lines, writer),
            Err(fault) => self.refuse_outside(fault, line, lines, writer),
        }
    }

    /// Carries out a line, or writes why it is refused.
    fn carry_out<T: Threads + Wait + Sync, R: BufRead, W: Write>(
        &mut self,
        rt: &T,
        line: &[u8],
        lines: &mut InputLines<R>,
        writer: &mut W,
    ) -> Result<(), ScriptFault>
        requires own { IsOwn self.old.desk.session self.old.desk.keeper }
        ensures own { IsOwn self.new.desk.session self.new.desk.keeper }
        ensures sees { SeesMore self.old.desk.session self.new.desk.session }
        ensures turns { OnOk result (lines.old.turns ≤ lines.new.turns) }
        ensures few { DoesFew C.inserts C.refuses V.holds V.failures self.new.desk.session self.old.desk.keeper self.new.desk.keeper }
        ensures carries { CarriesOut C.inserts C.refuses V.holds V.failures W.contents self.old self.new writer.old writer.new
            lines.old.number result line.now }
    {
        match self.draft.take() {
            Some(draft) => self.take_job_line(rt, draft, line, lines, writer),
            None => self.take_line(rt, line, lines, writer),
        }
    }

    /// Carries out a line that was read. One for which memory ran out is refused, and the job that it
    /// is in is given up.
    fn take_reading<T: Threads + Wait + Sync, R: BufRead, W: Write>(
        &mut self,
        rt: &T,
        reading: LineReading,
        line: &[u8],
        lines: &mut InputLines<R>,
        writer: &mut W,
    ) -> Result<(), ScriptFault>
        requires own { IsOwn self.old.desk.session self.old.desk.keeper }
        ensures own { IsOwn self.new.desk.session self.new.desk.keeper }
        ensures sees { SeesMore self.old.desk.session self.new.desk.session }
        ensures turns { OnOk result (lines.old.turns ≤ lines.new.turns) }
        ensures few { DoesFew C.inserts C.refuses V.holds V.failures self.new.desk.session self.old.desk.keeper self.new.desk.keeper }
        ensures lost { reading ≡ LineReading.NoMemory → GivesUp self.old.draft self.new.draft }
        ensures carries { Carries C.inserts C.refuses V.holds V.failures W.contents self.old self.new writer.old writer.new
            lines.old.number reading result line.now }
    {
        match reading {
            LineReading::Line => self.carry_out(rt, line, lines, writer),
            LineReading::NoMemory => Ok(self.lose_line(writer)?),
            LineReading::End => Ok(()),
        }
    }

    /// Carries out all lines of a script.
    #[tactic(auto, using(crate::proofs::DeskLaws::does_more))]
    fn run<T: Threads + Wait + Sync, R: BufRead, W: Write>(
        &mut self,
        rt: &T,
        reader: &mut R,
        writer: &mut W,
    ) -> Result<ScriptEnd, ScriptFault>
        requires own { IsOwn self.old.desk.session self.old.desk.keeper }
        ensures own { IsOwn self.new.desk.session self.new.desk.keeper }
        ensures endless { IfErr result EndlessAfterAll }
        ensures does { Does C.inserts C.refuses V.holds V.failures self.new.desk.session self.old.desk.keeper self.new.desk.keeper }
    {
        let mut lines = InputLines::new(reader);
        let mut line = Vec::new(self.alloc);
        loop {
            let reading = lines.read(&mut line, MAX_LINE + 1)?;
            if reading == LineReading::End {
                return Ok(self.end);
            }
            self.take_reading(rt, reading, &line, &mut lines, writer)?;
        }
    }
}

/// Runs a script over the jobs and volumes of a keeper, and writes its answers. Returns the keeper.
pub fn run_script_over<T: Threads + Wait + Sync, C: JobStore, V: DrivenStore, R: BufRead, W: Write>(
    rt: &T,
    budget: Budget,
    keeper: Keeper<C, V>,
    session: Session,
    reader: &mut R,
    writer: &mut W,
) -> (Keeper<C, V>, Result<ScriptEnd, ScriptFault>)
    requires own { session.book ≡ keeper.list.book }
    ensures endless { IfErr result.1 EndlessAfterAll }
    ensures does { DoesSome C.JobStore V.VolumeStore keeper result.0 }
{
    let mut script = Script::new(budget, keeper, session);
    let end = script.run(rt, reader, writer);
    (script.into_keeper(), end)
}

/// Returns the fault of a script for which memory ran out before its first line.
fn no_memory() -> ScriptFault {
    ScriptFault::Io(ErrorKind::OutOfMemory.into())
}

/// Runs a script over a keeper in memory, and ends the keeper.
fn run_in_memory<T: Threads + Wait + Sync, R: BufRead, W: Write>(
    rt: &T,
    budget: Budget,
    keeper: Keeper<Forgetful, MemStore>,
    session: Session,
    reader: &mut R,
    writer: &mut W,
) -> Result<ScriptEnd, ScriptFault>
    requires own { session.book ≡ keeper.list.book }
    ensures endless { IfErr result EndlessAfterAll }
{
    let (keeper, end) = run_script_over(rt, budget, keeper, session, reader, writer);
    let _ = keeper.close(rt);
    end
}

/// Runs a script over a catalogue and volumes in memory, and writes its answers.
///
/// `drives N` sets the number of drives, 1 to 16; it is 1 before. `volume NAME HEX` appends bytes
/// to a volume. The lines between `bsr` and `.` are a bootstrap, which is kept until the next one.
/// `extract` runs the kept bootstrap and writes the manifest. The lines from `job` to `end` are a
/// job, which is committed. The lines after `restore` up to `done` or `quit` are a dialogue with
/// the console over the jobs that were stored before. For a refused line, `refused N` is written
/// and nothing is done.
///
/// # Errors
///
/// - `Io` if the reader or the writer failed, or memory ran out before the first line.
/// - `NoEnd` if the input does not end within 2^40 turns of reading.
pub fn run_script<R: BufRead, W: Write>(
    rt: &(impl Threads + Wait + Sync),
    budget: Budget,
    reader: &mut R,
    writer: &mut W,
) -> Result<ScriptEnd, ScriptFault>
    ensures endless { IfErr result EndlessAfterAll }
{
    let alloc = budget.alloc;
    let catalogue = Forgetful::new(alloc);
    match Keeper::new(rt, alloc, catalogue, MemStore::new(alloc), 1) {
        Ok((keeper, mut sessions)) => match sessions.pop() {
            Some(session) => run_in_memory(rt, budget, keeper, session, reader, writer),
            None => {
                let _ = keeper.close(rt);
                Err(no_memory())
            }
        },
        Err(_) => Err(no_memory()),
    }
}
