ghost use Rattle.std.specs.Prelude.{◌≡◌, ◌∷◌, ℕ, ◌<◌, ◌≤◌, List, [], length, Option, Err, IfOk, IfSome, OnOk, OnErr, IfErr};
ghost use Rattle.std.specs.Thread.{IsSync};
ghost use Rattle.br_model.specs.File as model;
ghost use Rattle.br_sink.specs.Delivery.{IsStopBelow, items_in, items_put};
ghost use Rattle.br_sink.specs.FileParts.{AreAlike, with_bytes};
ghost use Rattle.br_sink.specs.Sink.{HasMore};
ghost use Rattle.br_sink.specs.TwoParts.{AreTwoAlike, AreTwoSame, FailsTwo, LosesTwo, NotChanged, two_put};
ghost use Rattle.br_sink.specs.declared.fault.SinkFault.TheVariants.{Fault};
ghost use Rattle.br_sink.specs.declared.file_parts.PartsFault.TheVariants as why;

use crate::fault::{SinkFault, SinkStop};
use crate::file_parts::{Parts, PartsFault, whole_of};
use crate::two_parts::{TwoParts, TwoPut};
use br_join::{FileBytes, Item, Outcome};
use br_types::FileKey;
use std::alloc::Global;
use std::thread::Threads;

/// What takes the files of a restore, one after another.
pub trait Sink {
    /// The files that were put so far, in their order, if the sink reports them: a sink in memory
    /// does, one over a folder does not.
    ghost has: { Self → Option (List model.Item) };

    /// The number of times that it has failed.
    ghost failures: { Self → ℕ };

    /// Adds a file to those that the sink has.
    ///
    /// `Fault` if the sink failed. `Memory` if memory ran out, which is no failure and is not
    /// counted. Then the sink has what it had; one that does not report its files, as a folder, may
    /// hold a part of the file.
    fn put(&mut self, item: &Item) -> Result<(), SinkFault>
        ensures put { OnOk result (HasMore (item.now ∷ []) (has self.old) (has self.new)) }
        ensures refused { OnErr result (has self.new ≡ has self.old) }
        ensures counted { failures self.old ≤ failures self.new }
        ensures failed { result ≡ Err Fault → failures self.old < failures self.new };

    /// Adds the files among the outcomes to those that the sink has, in their order, and skips the
    /// faults.
    ///
    /// The handle is for a sink that writes several at once.
    ///
    /// Stops at the first file that can't be put: if the sink failed (80), or memory ran out (1).
    /// The stop contains the number of files that were put before, and the sink has these; one that
    /// does not report its files, as a folder, may hold a part of the next.
    fn put_all<R: Threads + Sync>(
        &mut self,
        _threads: &R,
        outcomes: &[(FileKey, Outcome)],
    ) -> Result<(), SinkStop>
        requires threads { IsSync R.row }
        ensures put { HasMore (items_put result (items_in outcomes.now)) (has self.old) (has self.new) }
        ensures stopped { IfErr result (IsStopBelow (length (items_in outcomes.now))) }
        ensures counted { failures self.old ≤ failures self.new }
        ensures failed { IfErr result (λ stop. stop.number ≡ 80 → failures self.old < failures self.new) }
    {
        let mut done = 0;
        for (_, outcome) in outcomes {
            if let Outcome::File(item) = outcome {
                if let Err(fault) = self.put(item) {
                    return Err(SinkStop::of_sink(fault, done));
                }
                done += 1;
            }
        }
        Ok(())
    }

    /// Adds a file like this one, whose bytes are read again while it is put, and returns these. A
    /// sink that keeps no files in memory has one part of them in memory at a time.
    ///
    /// `NoDriveLeft` if each drive failed, `Changed` if the bytes are not given as they were found.
    /// Then, and after `Fault` and `Memory`, the sink has what it had; one that does not report its
    /// files may hold a part of this one.
    fn put_parts<P: Parts>(
        &mut self,
        alloc: Global,
        item: &Item,
        parts: &mut P,
    ) -> Result<FileBytes, PartsFault>
        ensures put { IfOk result (λ bytes. HasMore (with_bytes item.now bytes ∷ []) (has self.old) (has self.new)) }
        ensures alike { IfOk result (λ bytes. AreAlike bytes item.now.bytes) }
        ensures same { IfOk result (λ bytes. P.gives parts.old item.now → bytes ≡ item.now.bytes) }
        ensures refused { OnErr result (has self.new ≡ has self.old) }
        ensures counted { failures self.old ≤ failures self.new }
        ensures failed { result ≡ Err why.Fault → failures self.old < failures self.new }
        ensures changed { result ≡ Err why.Changed → P.gives parts.old item.now → ⊥ }
        ensures lost { result ≡ Err why.NoDriveLeft → P.loses parts.old parts.new }
        ensures on { P.goes_on parts.old parts.new }
    {
        let whole = whole_of(alloc, item, parts)?;
        self.put(&whole)?;
        Ok(whole.bytes)
    }

    /// Adds two files like these, whose bytes are read again while they are put, side by side.
    /// Returns `None`, and has what it had, if it does not put these two side by side: then the
    /// caller puts one after the other.
    ///
    /// The caller makes sure that the two paths do not conflict. The result is that of putting one
    /// file after the other. If the first file can't be put, neither is; if only the second can't,
    /// the first one is put. Of a file that is not put, a sink that does not report its files may
    /// hold a part.
    fn put_two<P: TwoParts>(
        &mut self,
        _alloc: Global,
        one: &Item,
        other: &Item,
        parts: &mut P,
    ) -> Option<TwoPut>
        ensures put { HasMore (two_put one.now other.now result) (has self.old) (has self.new) }
        ensures alike { IfSome result (AreTwoAlike one.now other.now) }
        ensures same { P.gives parts.old one.now other.now → IfSome result (AreTwoSame one.now other.now) }
        ensures counted { failures self.old ≤ failures self.new }
        ensures failed { FailsTwo result → failures self.old < failures self.new }
        ensures changed { P.gives parts.old one.now other.now → IfSome result NotChanged }
        ensures lost { LosesTwo result → P.loses parts.old parts.new }
        ensures on { P.goes_on parts.old parts.new }
    {
        None
    }
}
