//! The lines of a script that make a job.
ghost use Rattle.std.specs.Prelude.{◌≡◌, ◌≤◌, None, OnOk};
ghost use Rattle.std.specs.Io.KnownBytes.{Appends};
ghost use Rattle.br_model.specs.Text.{refused_line};
ghost use Rattle.br_cli_serve.specs.ScriptAnswering.{refusal_at};
ghost use Rattle.br_cli_serve.specs.ScriptDeeds.{DoesFew};
ghost use Rattle.br_cli_serve.specs.ScriptKeeper.{IsOwn, SeesMore};
ghost use Rattle.br_cli_serve.specs.ScriptJobs.{BeginsJob, CommitsJob, DraftTakes, EndsDraft, GivesUp};

use crate::script::Script;
use crate::script_fault::ScriptFault;
use crate::script_input::InputLines;
use crate::script_line::is_restore;
use crate::script_text::skip_dialogue;
use br_history::{Draft, SavedJob, Taken, read_head};
use br_keeper::JobStore;
use br_volume::VolumeStore;
use std::io::{self, BufRead, Write};
use std::sync::Wait;

impl<C: JobStore, V: VolumeStore> Script<C, V> {
    /// Begins a job with these fields.
    pub(crate) fn begin_job<W: Write>(
        &mut self,
        fields: &[u8],
        line: u64,
        writer: &mut W,
    ) -> io::Result<()>
        ensures drives { self.new.drives ≡ self.old.drives }
        ensures desk { self.new.desk ≡ self.old.desk }
        ensures begins { BeginsJob line (W.contents writer.old) (W.contents writer.new) result fields.now self.old.draft self.new.draft }
    {
        match read_head(self.alloc, fields) {
            Ok(head) => {
                self.draft = Some(Draft::new(self.alloc, head));
                Ok(())
            }
            Err(fault) => self.refuse_line(fault.number(), line, writer),
        }
    }

    /// Commits a job, and writes that it is stored.
    fn commit<T: Wait, W: Write>(&mut self, rt: &T, job: SavedJob, writer: &mut W) -> io::Result<()>
        requires own { IsOwn self.old.desk.session self.old.desk.keeper }
        ensures own { IsOwn self.new.desk.session self.new.desk.keeper }
        ensures sees { SeesMore self.old.desk.session self.new.desk.session }
        ensures drives { self.new.drives ≡ self.old.drives }
        ensures draft { self.new.draft ≡ self.old.draft }
        ensures answers { CommitsJob C.inserts C.refuses V.holds V.failures W.contents self.old self.new writer.old writer.new job result }
    {
        match self.desk.commit(rt, job) {
            Ok(id) => {
                let id = id.get();
                writeln!(writer, "stored {id}")
            }
            Err(fault) => self.refuse(fault.number(), writer),
        }
    }

    /// Ends a job: commits it, unless it was given up.
    fn end_job<T: Wait, W: Write>(
        &mut self,
        rt: &T,
        draft: Draft,
        line: u64,
        writer: &mut W,
    ) -> io::Result<()>
        requires own { IsOwn self.old.desk.session self.old.desk.keeper }
        ensures own { IsOwn self.new.desk.session self.new.desk.keeper }
        ensures sees { SeesMore self.old.desk.session self.new.desk.session }
        ensures drives { self.new.drives ≡ self.old.drives }
        ensures draft { self.new.draft ≡ self.old.draft }
        ensures ends { EndsDraft C.inserts C.refuses V.holds V.failures W.contents self.old self.new writer.old writer.new line result draft }
    {
        match draft.end() {
            Ok(Some(job)) => self.commit(rt, job, writer),
            Ok(None) => Ok(()),
            Err(fault) => self.refuse_line(fault.number(), line, writer),
        }
    }

    /// Refuses a line in a job. The lines that follow a line `restore` are skipped.
    fn refuse_in_job<R: BufRead, W: Write>(
        &mut self,
        number: u32,
        line: &[u8],
        lines: &mut InputLines<R>,
        writer: &mut W,
    ) -> Result<(), ScriptFault>
        ensures drives { self.new.drives ≡ self.old.drives }
        ensures desk { self.new.desk ≡ self.old.desk }
        ensures draft { self.new.draft ≡ self.old.draft }
        ensures turns { OnOk result (lines.old.turns ≤ lines.new.turns) }
        ensures written { OnOk result (Appends (W.contents writer.old) (W.contents writer.new) (refusal_at number lines.old.number)) }
    {
        self.refuse_line(number, lines.number(), writer)?;
        if is_restore(line) {
            skip_dialogue(self.alloc, lines)?;
        }
        Ok(())
    }

    /// Carries out a line in a job.
    #[tactic(auto, using(crate::proofs::DeskLaws::ended_few))]
    pub(crate) fn take_job_line<T: Wait, R: BufRead, W: Write>(
        &mut self,
        rt: &T,
        mut draft: Draft,
        line: &[u8],
        lines: &mut InputLines<R>,
        writer: &mut W,
    ) -> Result<(), ScriptFault>
        requires own { IsOwn self.old.desk.session self.old.desk.keeper }
        requires taken { self.old.draft ≡ None }
        ensures own { IsOwn self.new.desk.session self.new.desk.keeper }
        ensures sees { SeesMore self.old.desk.session self.new.desk.session }
        ensures drives { self.new.drives ≡ self.old.drives }
        ensures turns { OnOk result (lines.old.turns ≤ lines.new.turns) }
        ensures few { DoesFew C.inserts C.refuses V.holds V.failures self.new.desk.session self.old.desk.keeper self.new.desk.keeper }
        ensures takes { DraftTakes C.inserts C.refuses V.holds V.failures W.contents self.old self.new writer.old writer.new
            lines.old.number result line.now draft }
    {
        match draft.take(self.alloc, line) {
            Ok(Taken::End) => Ok(self.end_job(rt, draft, lines.number(), writer)?),
            Ok(Taken::Line) => {
                self.draft = Some(draft);
                Ok(())
            }
            Err(fault) => {
                self.draft = Some(draft);
                self.refuse_in_job(fault.number(), line, lines, writer)
            }
        }
    }

    /// Refuses a line for which memory ran out. The job that the line is in is given up.
    pub(crate) fn lose_line<W: Write>(&mut self, writer: &mut W) -> io::Result<()>
        ensures drives { self.new.drives ≡ self.old.drives }
        ensures desk { self.new.desk ≡ self.old.desk }
        ensures gives_up { GivesUp self.old.draft self.new.draft }
        ensures written { OnOk result (Appends (W.contents writer.old) (W.contents writer.new) (refused_line 1)) }
    {
        if let Some(draft) = &mut self.draft {
            draft.give_up();
        }
        self.refuse(1, writer)
    }
}
