//! Restores, from an order to the manifest and the delivered files.
ghost use Rattle.std.specs.Prelude.{◌≡◌, map, option_map, IfErr, IfOk};
ghost use Rattle.br_join.specs.Outcome.{restored};
ghost use Rattle.br_pool.specs.Pool.{AreDrives, OnlyIfAllFail, StayInPlace};
ghost use Rattle.br_engine.specs.Extracting.{WritesNothing};
ghost use Rattle.br_engine.specs.Fault.{EndlessAfterAll, IsNoDriveLeft, IsNoLine};
ghost use Rattle.br_engine.specs.Outputs.{SinkCounts, StopsByFailure};
ghost use Rattle.br_engine.specs.Restores.{AreOfText, AreOrdered, ChangesOnly, ChangesOnlyText, CountsFailures, Restores, RestoresText};
ghost use Rattle.br_engine.specs.Restores.{StopIsCounted, StopIsLost, TellsDelivered, TellsStop, change};
ghost use Rattle.br_engine.specs.WantedOutcomes.{left_by};

use crate::bootstrap_text::read_text;
use crate::budget::Budget;
use crate::chosen_outcomes::{keep_delivered, prepare};
use crate::extracted::Extracted;
use crate::extracting::write_manifest;
use crate::fault::ExtractFault;
use crate::made::{deliver_made, restore_within};
use crate::restore_order::RestoreOrder;
use crate::stopping_path::path_at_stop;
use br_bsr::read_bootstrap;
use br_sink::{Flush, Sink};
use br_volume::Drive;
use std::io::Read;
use std::mem;
use std::sync::Wait;
use std::thread::Threads;

/// The means of a restore.
#[derive(Drop)]
pub struct Restore<D, S> {
    /// The memory for it.
    pub budget: Budget,
    /// The drives that read the volumes: 1 to 16, each of which shows all of them.
    pub drives: Vec<D>,
    /// The sink for the restored files, if they are to be delivered.
    pub sink: Option<S>,
}

impl<D: Drive + Send, S: Sink> Restore<D, S> {
    /// Restores by an order: writes the manifest and flushes it, and then delivers the files into the sink in
    /// the order of the manifest, if there is a sink.
    ///
    /// The manifest has all outcomes. If only the newest copies are wanted, then of several files with one path
    /// that of the newest session is delivered: by time, then by number, then by index. If the delivery is not to
    /// stop, a file whose path conflicts with one delivered before is left out.
    ///
    /// If the delivery stopped, the manifest is written, and the sink has the files before the stop.
    ///
    /// # Errors
    ///
    /// - `Piece` for a volume that can't be read, or if no drive is left; then nothing is written.
    /// - `Memory` if memory ran out before the manifest; then nothing is written.
    /// - `Changed` if a volume was changed while it was read; then nothing is written.
    /// - `Io` if the writer failed, which may have taken a part of the manifest.
    ///
    /// After an error nothing is put into the sink.
    pub fn run<W: Flush>(
        &mut self,
        rt: &(impl Threads + Wait + Sync),
        order: RestoreOrder<'_>,
        writer: &mut W,
    ) -> Result<Extracted, ExtractFault>
        requires drives { AreDrives self.old.drives.items }
        ensures restores { Restores order.entry (change D.Drive W.Write S.Sink (self.old, writer.old) (self.new, writer.new)) result }
        ensures changed { ChangesOnly order.entry (change D.Drive W.Write S.Sink (self.old, writer.old) (self.new, writer.new)) result }
        ensures nothing { IfErr result (WritesNothing (W.contents writer.old) (W.contents writer.new)) }
        ensures flushed { IfOk result (λ _. W.is_flushed writer.new) }
        ensures driven { IfErr result IsNoLine }
        ensures places { StayInPlace D.shows D.failures self.old.drives.items self.new.drives.items }
        ensures failed { OnlyIfAllFail D.failures self.old.drives.items self.new.drives.items IsNoDriveLeft result }
        ensures lost { StopIsLost D.failures self.old self.new result }
        ensures wanted { AreOrdered order.entry (change D.Drive W.Write S.Sink (self.old, writer.old) (self.new, writer.new)) result }
        ensures outcomes { TellsDelivered (change D.Drive W.Write S.Sink (self.old, writer.old) (self.new, writer.new)) result }
        ensures stopped_at { TellsStop result }
        ensures sink_counted { CountsFailures S.failures self.old self.new }
        ensures sink_failed { StopIsCounted S.failures self.old self.new result }
    {
        let alloc = self.budget.alloc;
        let RestoreOrder {
            asked,
            names,
            wanted,
        } = order;
        let mut made = restore_within(rt, self.budget, asked.bootstrap, names, &mut self.drives)?;
        let prepared = prepare(alloc, wanted, &asked, &made.outcomes)?;
        write_manifest(alloc, &made.outcomes, writer)?;
        keep_delivered(&mut made.outcomes, &prepared.flags);
        let groups = asked.bootstrap.groups();
        let end = deliver_made(rt, alloc, &made, groups, &mut self.drives, &mut self.sink);
        let stopped_at = path_at_stop(alloc, &made.outcomes, &end);
        let outcomes = mem::replace(&mut made.outcomes, Vec::new(alloc));
        Ok(Extracted {
            end,
            missing: prepared.missing,
            left: prepared.left,
            stopped_at,
            outcomes,
        })
    }
}

/// Reads the text of a bootstrap from a reader, and restores all that it selects.
///
/// The text is read to the end of the reader. If a line is too long before its LF has come, nothing
/// more is read: the text is refused whatever follows.
///
/// # Errors
///
/// - `Io` if the reader failed.
/// - `NoEnd` if it has not ended after 2^40 reads.
/// - `Bootstrap` for a line that is refused.
/// - Then those of `Restore::run`.
pub fn run_extract<R: Read + Drop, D: Drive + Send, W: Flush, S: Sink>(
    rt: &(impl Threads + Wait + Sync),
    restore: &mut Restore<D, S>,
    reader: &mut R,
    writer: &mut W,
) -> Result<Extracted, ExtractFault>
    requires drives { AreDrives restore.old.drives.items }
    ensures restores { RestoresText (R.remaining reader.old) (change D.Drive W.Write S.Sink (restore.old, writer.old) (restore.new, writer.new)) result }
    ensures changed { ChangesOnlyText (R.remaining reader.old)
        (change D.Drive W.Write S.Sink (restore.old, writer.old) (restore.new, writer.new)) result }
    ensures nothing { IfErr result (WritesNothing (W.contents writer.old) (W.contents writer.new)) }
    ensures flushed { IfOk result (λ _. W.is_flushed writer.new) }
    ensures endless { IfErr result EndlessAfterAll }
    ensures places { StayInPlace D.shows D.failures restore.old.drives.items restore.new.drives.items }
    ensures failed { OnlyIfAllFail D.failures restore.old.drives.items restore.new.drives.items IsNoDriveLeft result }
    ensures lost { StopIsLost D.failures restore.old restore.new result }
    ensures wanted { AreOfText (R.remaining reader.old) (change D.Drive W.Write S.Sink (restore.old, writer.old) (restore.new, writer.new)) result }
    ensures outcomes { TellsDelivered (change D.Drive W.Write S.Sink (restore.old, writer.old) (restore.new, writer.new)) result }
    ensures stopped_at { TellsStop result }
    ensures sink_counted { CountsFailures S.failures restore.old restore.new }
    ensures sink_failed { StopIsCounted S.failures restore.old restore.new result }
{
    let text = read_text(restore.budget.alloc, reader)?;
    let bootstrap = read_bootstrap(restore.budget.alloc, &text)?;
    restore.run(rt, RestoreOrder::plain(&bootstrap, None), writer)
}
