//! The state of a running script, and the refusals of its lines.
ghost use Rattle.std.specs.Prelude.{◌≡◌, IfOk, None, OnOk, Some};
ghost use Rattle.std.specs.Io.KnownBytes.{Appends};
ghost use Rattle.br_model.specs.Text.{refused_line};
ghost use Rattle.br_engine.specs.Fault as extract;
ghost use Rattle.br_console.specs.ConsoleFault as dialogue;
ghost use Rattle.br_cli_serve.specs.ScriptAnswering.{TellsMade, refusal_at};
ghost use Rattle.br_cli_serve.specs.ScriptEnding.{EndsRestore, RefusesDialogue, RefusesExtract};
ghost use Rattle.br_cli_serve.specs.declared.script.ScriptEnd.TheVariants.{Refused};

use crate::drive_count::DriveCount;
use crate::script_fault::ScriptFault;
use crate::script_keeper::Desk;
use br_bsr::Bootstrap;
use br_console::ConsoleFault;
use br_engine::{Budget, ExtractFault, RestoreEnd};
use br_history::Draft;
use br_keeper::{JobStore, Keeper, Session};
use br_volume::VolumeStore;
use std::alloc::{AllocError, Global};
use std::io::{self, Write};

/// The number of the refusal of a malformed line, or of a line in a wrong place.
pub(crate) const BAD_SCRIPT: u32 = 90;

/// The end of a script.
#[derive(Clone, Copy)]
pub enum ScriptEnd {
    /// Nothing was refused, and every outcome was a file.
    Clean,
    /// Something was refused, or some outcome was not a file.
    Refused,
}

/// The state of a running script.
pub(crate) struct Script<C: JobStore, V: VolumeStore> {
    pub(crate) alloc: Global,
    /// The number of bytes of data that a restore holds.
    pub(crate) room: u64,
    pub(crate) drives: DriveCount,
    pub(crate) desk: Desk<C, V>,
    /// The bootstrap that `extract` runs.
    pub(crate) kept: Option<Bootstrap>,
    /// The job whose lines the script gives.
    pub(crate) draft: Option<Draft>,
    pub(crate) end: ScriptEnd,
}

impl<C: JobStore, V: VolumeStore> Script<C, V> {
    /// Returns the state before the first line.
    pub(crate) fn new(budget: Budget, keeper: Keeper<C, V>, session: Session) -> Script<C, V>
        ensures drives { result.drives ≡ 1 }
        ensures keeper { result.desk.keeper ≡ keeper }
        ensures session { result.desk.session ≡ Some session }
    {
        Script {
            alloc: budget.alloc,
            room: budget.room,
            drives: DriveCount::one(),
            desk: Desk {
                keeper,
                session: Some(session),
            },
            kept: None,
            draft: None,
            end: ScriptEnd::Clean,
        }
    }

    /// Returns the memory of a restore.
    pub(crate) fn budget(&self) -> Budget {
        Budget {
            alloc: self.alloc,
            room: self.room,
        }
    }

    /// Returns the keeper.
    pub(crate) fn into_keeper(self) -> Keeper<C, V>
        ensures { result ≡ self.desk.keeper }
    {
        let Script {
            alloc: _,
            room: _,
            drives: _,
            desk,
            kept: _kept,
            draft: _draft,
            end: _,
        } = self;
        let Desk {
            keeper,
            session: _session,
        } = desk;
        keeper
    }

    /// Writes the line of a refusal by its number.
    pub(crate) fn refuse<W: Write>(&mut self, number: u32, writer: &mut W) -> io::Result<()>
        ensures same { self.new ≡ record self.old { end = Refused } }
        ensures written { OnOk result (Appends (W.contents writer.old) (W.contents writer.new) (refused_line number)) }
    {
        self.end = ScriptEnd::Refused;
        writeln!(writer, "refused {number}")
    }

    /// Writes the line of a refusal; 90 comes with the line's number.
    pub(crate) fn refuse_line<W: Write>(
        &mut self,
        number: u32,
        line: u64,
        writer: &mut W,
    ) -> io::Result<()>
        ensures same { self.new ≡ record self.old { end = Refused } }
        ensures written { OnOk result (Appends (W.contents writer.old) (W.contents writer.new) (refusal_at number line)) }
    {
        if number != BAD_SCRIPT {
            return self.refuse(number, writer);
        }
        self.end = ScriptEnd::Refused;
        writeln!(writer, "refused 90 line {line}")
    }

    /// Writes a text that is a refusal, or `refused 1` if memory ran out for the text.
    fn refuse_by<W: Write>(
        &mut self,
        text: Result<Vec<u8>, AllocError>,
        writer: &mut W,
    ) -> io::Result<()>
        ensures same { self.new ≡ record self.old { end = Refused } }
        ensures written { TellsMade (W.contents writer.old) (W.contents writer.new) result text }
    {
        match text {
            Ok(text) => {
                self.end = ScriptEnd::Refused;
                writer.write_all(&text)
            }
            Err(_) => self.refuse(1, writer),
        }
    }

    /// Refuses a bootstrap or a run of one.
    pub(crate) fn refuse_extract<W: Write>(
        &mut self,
        fault: ExtractFault,
        writer: &mut W,
    ) -> Result<(), ScriptFault>
        ensures refuses { RefusesExtract (W.contents writer.old) (W.contents writer.new) self.new.end fault result }
        ensures drives { self.new.drives ≡ self.old.drives }
        ensures desk { self.new.desk ≡ self.old.desk }
        ensures kept { self.new.kept ≡ self.old.kept }
    {
        match fault {
            ExtractFault::Io(fault) => Err(ScriptFault::Io(fault)),
            ExtractFault::NoEnd(fault) => Err(ScriptFault::NoEnd(fault)),
            fault => Ok(self.refuse_by(extract_text(self.alloc, &fault), writer)?),
        }
    }

    /// Refuses a dialogue, or the plan that it leads to.
    pub(crate) fn refuse_dialogue<W: Write>(
        &mut self,
        fault: ConsoleFault,
        writer: &mut W,
    ) -> Result<(), ScriptFault>
        ensures refuses { RefusesDialogue (W.contents writer.old) (W.contents writer.new) self.new.end fault result }
        ensures drives { self.new.drives ≡ self.old.drives }
        ensures desk { self.new.desk ≡ self.old.desk }
    {
        match fault {
            ConsoleFault::Io(fault) => Err(ScriptFault::Io(fault)),
            ConsoleFault::NoEnd(fault) => Err(ScriptFault::NoEnd(fault)),
            fault => Ok(self.refuse_by(dialogue_text(self.alloc, &fault), writer)?),
        }
    }

    /// Notes how a restore ended, or refuses it.
    pub(crate) fn end_restore<W: Write>(
        &mut self,
        ended: Result<RestoreEnd, ExtractFault>,
        writer: &mut W,
    ) -> Result<(), ScriptFault>
        ensures drives { self.new.drives ≡ self.old.drives }
        ensures desk { self.new.desk ≡ self.old.desk }
        ensures kept { self.new.kept ≡ self.old.kept }
        ensures ends { EndsRestore (W.contents writer.old) (W.contents writer.new) self.old.end self.new.end ended result }
    {
        match ended {
            Ok(RestoreEnd::AllFiles) => Ok(()),
            Ok(RestoreEnd::SomeFaults | RestoreEnd::Stopped(_)) => {
                self.end = ScriptEnd::Refused;
                Ok(())
            }
            Err(fault) => self.refuse_extract(fault, writer),
        }
    }
}

/// Returns the line of a refused bootstrap or run.
fn extract_text(alloc: Global, fault: &ExtractFault) -> Result<Vec<u8>, AllocError>
    ensures { IfOk result (λ text. text.items ≡ extract.fault_text fault.now) }
{
    let mut text = Vec::new(alloc);
    fault.push_line(&mut text)?;
    Ok(text)
}

/// Returns the line of a refused dialogue or plan.
fn dialogue_text(alloc: Global, fault: &ConsoleFault) -> Result<Vec<u8>, AllocError>
    ensures { IfOk result (λ text. text.items ≡ dialogue.fault_text fault.now) }
{
    let mut text = Vec::new(alloc);
    fault.push_line(&mut text)?;
    Ok(text)
}
