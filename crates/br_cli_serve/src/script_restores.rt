//! The lines of a script that restore.
ghost use Rattle.std.specs.Prelude.{◌≡◌, ◌≤◌, ◌++◌, true, IfOk, IfSome, MatchOption, OnOk, Some};
ghost use Rattle.br_cli_serve.specs.ScriptAnswering.{refusal_at};
ghost use Rattle.br_cli_serve.specs.ScriptRestoring.{Converses, ConversesIn, ConversesOver, FinishesDialogueBy, IsUnchosen, RestoresBy};
ghost use Rattle.br_cli_serve.specs.ScriptObeying.{KeepsBootstrap};
ghost use Rattle.br_cli_serve.specs.ScriptKeeper.{IsOwn, SeesMore};
ghost use Rattle.br_cli_serve.specs.ScriptEnding.{EndsDialogueBy, RefusesBy, RestoresPlan, RunsKeptBy};

use crate::driven_store::{DrivenRestore, DrivenStore, restore_by_reader};
use crate::restore_line::read_request;
use crate::script::{BAD_SCRIPT, Script, ScriptEnd};
use crate::script_fault::ScriptFault;
use crate::script_input::InputLines;
use crate::script_text::{Text, TextKind, read_text, skip_dialogue};
use br_bsr::read_bootstrap;
use br_console::{ConsoleFault, LineVerdict, prepare};
use br_engine::ExtractFault;
use br_keeper::{JobStore, Snapshot};
use br_plan::{JobSelection, Plan, Request};
use std::alloc::Global;
use std::io::{BufRead, Write};
use std::sync::Wait;
use std::thread::Threads;

/// The result of the dialogue of a restore.
enum Dialogue {
    /// Its jobs were not chosen, with this number. Its lines were not read.
    Refused(u32),
    /// Memory ran out for its lines.
    NoMemory,
    /// The input ended before the dialogue, which has no effect.
    Unended,
    /// It was completed: whether its lines were accepted, and the plan, if it ended with `done`.
    Held(LineVerdict, Option<Plan>),
    /// It failed, or its plan was refused.
    Broken(ConsoleFault),
}

/// Runs the dialogue of these lines, and writes what comes before drives are used.
fn hold<W: Write>(alloc: Global, asked: &JobSelection<'_>, text: &[u8], writer: &mut W) -> Dialogue
    ensures over { Converses (W.contents writer.old) (W.contents writer.new) asked.now.history asked.now.request result }
    ensures held { result ≡ Dialogue.Unended → ⊥ }
{
    let mut reader = text;
    match prepare(alloc, asked, &mut reader, writer) {
        Ok((judged, plan)) => Dialogue::Held(judged, plan),
        Err(fault) => Dialogue::Broken(fault),
    }
}

/// Returns the number of the refusal of the choice of jobs, if it is refused.
#[tactic(auto, using(br_console::proofs::ChoiceLaws::refused_choice))]
fn refusal_of(alloc: Global, asked: &JobSelection<'_>) -> Option<u32>
    ensures { IfSome result (IsUnchosen asked.now.history asked.now.request) }
{
    match asked.jobs(alloc) {
        Ok(_) => None,
        Err(fault) => Some(fault.number()),
    }
}

/// Reads the lines of a dialogue, and runs it over the chosen jobs of a history.
fn converse_over<R: BufRead, W: Write>(
    alloc: Global,
    asked: &JobSelection<'_>,
    lines: &mut InputLines<R>,
    writer: &mut W,
) -> Result<Dialogue, ScriptFault>
    ensures turns { OnOk result (lines.old.turns ≤ lines.new.turns) }
    ensures over { ConversesOver (W.contents writer.old) (W.contents writer.new) asked.now.history asked.now.request result }
    ensures unended { IfOk result (λ dialogue. dialogue ≡ Dialogue.Unended → lines.new.has_ended ≡ true) }
{
    if let Some(number) = refusal_of(alloc, asked) {
        return Ok(Dialogue::Refused(number));
    }
    match read_text(alloc, lines, TextKind::Dialogue)? {
        Text::Whole(text) => Ok(hold(alloc, asked, &text, writer)),
        Text::NoMemory => Ok(Dialogue::NoMemory),
        Text::Unended => Ok(Dialogue::Unended),
    }
}

/// Runs the dialogue of a request over the jobs of a snapshot.
fn converse_at<R: BufRead, W: Write>(
    alloc: Global,
    snapshot: &Snapshot,
    request: &Request,
    lines: &mut InputLines<R>,
    writer: &mut W,
) -> Result<Dialogue, ScriptFault>
    ensures turns { OnOk result (lines.old.turns ≤ lines.new.turns) }
    ensures over { ConversesOver (W.contents writer.old) (W.contents writer.new)
        (snapshot.now.opening ++ snapshot.now.list) request.now result }
    ensures unended { IfOk result (λ dialogue. dialogue ≡ Dialogue.Unended → lines.new.has_ended ≡ true) }
{
    let asked = JobSelection::new(alloc, snapshot.history(), request);
    converse_over(alloc, &asked, lines, writer)
}

impl<C: JobStore, V: DrivenStore> Script<C, V> {
    /// Reads the lines up to `.` as a bootstrap and keeps it instead of the previous one. Keeps
    /// none if it is refused.
    pub(crate) fn keep_bootstrap<R: BufRead, W: Write>(
        &mut self,
        lines: &mut InputLines<R>,
        writer: &mut W,
    ) -> Result<(), ScriptFault>
        ensures drives { self.new.drives ≡ self.old.drives }
        ensures desk { self.new.desk ≡ self.old.desk }
        ensures turns { OnOk result (lines.old.turns ≤ lines.new.turns) }
        ensures keeps { KeepsBootstrap (W.contents writer.old) (W.contents writer.new) self.old.end self.new.end result
            self.old.kept self.new.kept }
    {
        let text = match read_text(self.alloc, lines, TextKind::Bootstrap)? {
            Text::Whole(text) => text,
            Text::NoMemory => {
                self.kept = None;
                return Ok(self.refuse(1, writer)?);
            }
            Text::Unended => return Ok(()),
        };
        match read_bootstrap(self.alloc, &text) {
            Ok(bootstrap) => {
                self.kept = Some(bootstrap);
                Ok(())
            }
            Err(fault) => {
                self.kept = None;
                self.refuse_extract(ExtractFault::Bootstrap(fault), writer)
            }
        }
    }

    /// Runs the kept bootstrap over the volumes, and writes the manifest.
    pub(crate) fn run_kept<T: Threads + Wait + Sync, W: Write>(
        &mut self,
        rt: &T,
        line: u64,
        writer: &mut W,
    ) -> Result<(), ScriptFault>
        ensures drives { self.new.drives ≡ self.old.drives }
        ensures desk { self.new.desk ≡ self.old.desk }
        ensures kept { self.new.kept ≡ self.old.kept }
        ensures runs { RunsKeptBy V.holds self.old self.new (W.contents writer.old) (W.contents writer.new) line result }
    {
        let Some(bootstrap) = &self.kept else {
            return Ok(self.refuse_line(BAD_SCRIPT, line, writer)?);
        };
        let wanted = DrivenRestore {
            drives: self.drives,
            bootstrap,
            names: None,
        };
        let volumes = self.desk.keeper.volumes();
        let result = restore_by_reader(rt, volumes, self.budget(), wanted, writer);
        self.end_restore(result, writer)
    }

    /// Restores by a plan over the volumes, and writes the manifest.
    fn run_plan<T: Threads + Wait + Sync, W: Write>(
        &mut self,
        rt: &T,
        plan: Plan,
        writer: &mut W,
    ) -> Result<(), ScriptFault>
        ensures drives { self.new.drives ≡ self.old.drives }
        ensures desk { self.new.desk ≡ self.old.desk }
        ensures restores { RestoresPlan V.holds self.old self.new (W.contents writer.old) (W.contents writer.new) result plan }
    {
        let (bootstrap, names) = plan.into_parts();
        let wanted = DrivenRestore {
            drives: self.drives,
            bootstrap: &bootstrap,
            names: Some(names),
        };
        let volumes = self.desk.keeper.volumes();
        let result = restore_by_reader(rt, volumes, self.budget(), wanted, writer);
        self.end_restore(result, writer)
    }

    /// Notes whether the lines of a dialogue were accepted, and restores by its plan, if there is one.
    fn end_dialogue<T: Threads + Wait + Sync, W: Write>(
        &mut self,
        rt: &T,
        judged: LineVerdict,
        plan: Option<Plan>,
        writer: &mut W,
    ) -> Result<(), ScriptFault>
        ensures drives { self.new.drives ≡ self.old.drives }
        ensures desk { self.new.desk ≡ self.old.desk }
        ensures ends { EndsDialogueBy V.holds self.old self.new (W.contents writer.old) (W.contents writer.new) result judged plan }
    {
        if judged == LineVerdict::SomeRefused {
            self.end = ScriptEnd::Refused;
        }
        match plan {
            Some(plan) => self.run_plan(rt, plan, writer),
            None => Ok(()),
        }
    }

    /// Refuses the line of a restore, and skips the lines of its dialogue.
    fn refuse_restore<R: BufRead, W: Write>(
        &mut self,
        number: u32,
        lines: &mut InputLines<R>,
        writer: &mut W,
    ) -> Result<(), ScriptFault>
        ensures drives { self.new.drives ≡ self.old.drives }
        ensures desk { self.new.desk ≡ self.old.desk }
        ensures turns { OnOk result (lines.old.turns ≤ lines.new.turns) }
        ensures refuses { RefusesBy (W.contents writer.old) (W.contents writer.new) self.new.end result (refusal_at number lines.old.number) }
    {
        self.refuse_line(number, lines.number(), writer)?;
        skip_dialogue(self.alloc, lines)
    }

    /// Carries out the request of a dialogue.
    fn finish_dialogue<T: Threads + Wait + Sync, R: BufRead, W: Write>(
        &mut self,
        rt: &T,
        dialogue: Dialogue,
        lines: &mut InputLines<R>,
        writer: &mut W,
    ) -> Result<(), ScriptFault>
        ensures drives { self.new.drives ≡ self.old.drives }
        ensures desk { self.new.desk ≡ self.old.desk }
        ensures turns { OnOk result (lines.old.turns ≤ lines.new.turns) }
        ensures finishes { FinishesDialogueBy V.holds self.old self.new (W.contents writer.old) (W.contents writer.new) result dialogue }
    {
        match dialogue {
            Dialogue::Refused(number) => {
                self.refuse(number, writer)?;
                skip_dialogue(self.alloc, lines)
            }
            Dialogue::NoMemory => Ok(self.refuse(1, writer)?),
            Dialogue::Unended => Ok(()),
            Dialogue::Held(judged, plan) => self.end_dialogue(rt, judged, plan, writer),
            Dialogue::Broken(fault) => self.refuse_dialogue(fault, writer),
        }
    }

    /// Runs the dialogue of a request over a snapshot of the published jobs.
    fn converse<R: BufRead, W: Write>(
        &mut self,
        request: &Request,
        lines: &mut InputLines<R>,
        writer: &mut W,
    ) -> Result<Dialogue, ScriptFault>
        requires own { IsOwn self.old.desk.session self.old.desk.keeper }
        ensures own { IsOwn self.new.desk.session self.new.desk.keeper }
        ensures sees { SeesMore self.old.desk.session self.new.desk.session }
        ensures drives { self.new.drives ≡ self.old.drives }
        ensures keeper { self.new.desk.keeper ≡ self.old.desk.keeper }
        ensures end { self.new.end ≡ self.old.end }
        ensures turns { OnOk result (lines.old.turns ≤ lines.new.turns) }
        ensures over { MatchOption self.old.desk.session ⊥ (λ s. ConversesIn (W.contents writer.old) (W.contents writer.new) s request.now result) }
    {
        let Some(snapshot) = self.desk.snapshot() else {
            return Ok(Dialogue::Refused(1));
        };
        let dialogue = converse_at(self.alloc, &snapshot, request, lines, writer);
        self.desk.session = Some(snapshot.release());
        dialogue
    }

    /// Restores what the dialogue asks for among the published jobs.
    pub(crate) fn restore<T: Threads + Wait + Sync, R: BufRead, W: Write>(
        &mut self,
        rt: &T,
        fields: &[u8],
        lines: &mut InputLines<R>,
        writer: &mut W,
    ) -> Result<(), ScriptFault>
        requires own { IsOwn self.old.desk.session self.old.desk.keeper }
        ensures own { IsOwn self.new.desk.session self.new.desk.keeper }
        ensures sees { SeesMore self.old.desk.session self.new.desk.session }
        ensures drives { self.new.drives ≡ self.old.drives }
        ensures keeper { self.new.desk.keeper ≡ self.old.desk.keeper }
        ensures turns { OnOk result (lines.old.turns ≤ lines.new.turns) }
        ensures restores { RestoresBy V.holds self.old self.new (W.contents writer.old) (W.contents writer.new) lines.old.number result fields.now }
    {
        let request = match read_request(self.alloc, fields) {
            Ok(request) => request,
            Err(fault) => return self.refuse_restore(fault.number(), lines, writer),
        };
        let dialogue = self.converse(&request, lines, writer)?;
        self.finish_dialogue(rt, dialogue, lines, writer)
    }
}
