//! A sink around another sink. It goes on after a file at which that one fails.
ghost use Rattle.std.specs.Prelude.{◌≡◌, ◌<◌, ◌≤◌, ◌∷◌, [], length, map, OnOk, OnErr, IfErr, IfOk, IfSome, Err, Some};
ghost use Rattle.std.specs.Thread.{IsSync};
ghost use Rattle.br_types.specs.declared.wanted.Stops.TheVariants.{AtFirst};
ghost use Rattle.br_sink.specs.Delivery.{IsStopBelow, items_in, items_put};
ghost use Rattle.br_sink.specs.FileParts.{AreAlike, with_bytes};
ghost use Rattle.br_sink.specs.Sink.{HasMore};
ghost use Rattle.br_sink.specs.TwoParts.{AreTwoAlike, AreTwoSame, FailsTwo, LosesTwo, NotChanged, two_put};
ghost use Rattle.br_sink.specs.declared.fault.SinkFault.TheVariants.{Fault};
ghost use Rattle.br_sink.specs.declared.file_parts.PartsFault.TheVariants as why;
ghost use Rattle.br_sink.specs.KeepGoing.{ArePut};

use crate::fault::{SinkFault, SinkStop};
use crate::file_parts::{Parts, PartsFault};
use crate::keep_going_delivery::{put_each, put_one, put_one_by_parts, put_two_noted};
use crate::left_out::Noted;
use crate::sink::Sink;
use crate::two_parts::{TwoParts, TwoPut};
use br_join::{FileBytes, Item, Outcome};
use br_types::{FileKey, Path, Stops};
use std::alloc::Global;
use std::marker::Model;
use std::snapshot::Snapshot;
use std::thread::Threads;

/// A sink around another sink. With `Stops::Never` it leaves out a file at which that one fails,
/// and goes on. With `Stops::AtFirst` it stops there, as that one does.
#[derive(Drop)]
pub struct Leaving<S: Sink + Drop> {
    stops: Stops,
    inner: S,
    start: Snapshot<S>,
    noted: Noted,
}

impl<S: Sink + Drop> Model for Leaving<S> {
    ghost use Rattle.br_sink.specs.KeepGoing.{AreNoted, InLeaving};

    ghost Value = { InLeaving S };

    ghost view = { λ s.
        record { stops = s.stops; inner = s.inner; start = S.has s.start.value; taken = s.noted.taken.items; left = s.noted.left.items } };

    ghost invariant = { λ s. AreNoted (S.has s.start.value) (S.has s.inner) (S.failures s.inner) s.noted };
}

impl<S: Sink + Drop> Leaving<S> {
    /// Creates a sink around this one.
    pub fn new(alloc: Global, inner: S, stops: Stops) -> Leaving<S>
        ensures { result ≡ record { stops = stops; inner = inner; start = S.has inner; taken = []; left = [] } }
    {
        Leaving {
            stops,
            start: Snapshot::of(&inner),
            inner,
            noted: Noted::new(alloc),
        }
    }

    /// Returns the paths of the files that are left out, in their order.
    pub fn left_out(&self) -> &[Path]
        ensures paths { result.now ≡ map (λ i. i.path) self.now.left }
        ensures put { ArePut self.now.start (S.has self.now.inner) self.now.left self.now.taken }
        ensures failed { length self.now.left ≤ S.failures self.now.inner }
    {
        self.noted.paths()
    }
}

impl<S: Sink + Drop> Sink for Leaving<S> {
    ghost use Rattle.std.specs.Prelude.{Some};

    ghost has = { λ s. Some s.taken };

    ghost failures = { λ s. S.failures s.inner };

    /// Puts the file, or leaves it out.
    fn put(&mut self, item: &Item) -> Result<(), SinkFault>
        ensures put { OnOk result (HasMore (item.now ∷ []) (Some self.old.taken) (Some self.new.taken)) }
        ensures refused { OnErr result (Some self.new.taken ≡ Some self.old.taken) }
        ensures counted { S.failures self.old.inner ≤ S.failures self.new.inner }
        ensures failed { result ≡ Err Fault → S.failures self.old.inner < S.failures self.new.inner }
        ensures first { result ≡ Err Fault → self.old.stops ≡ AtFirst }
        ensures stops { self.new.stops ≡ self.old.stops }
        ensures kept { self.old.stops ≡ AtFirst → self.new.left ≡ self.old.left }
    {
        put_one(self.stops, &mut self.inner, &mut self.noted, item)
    }

    /// Puts the files among the outcomes, and leaves out those at which the sink inside fails.
    fn put_all<R: Threads + Sync>(
        &mut self,
        threads: &R,
        outcomes: &[(FileKey, Outcome)],
    ) -> Result<(), SinkStop>
        requires threads { IsSync R.row }
        ensures put { HasMore (items_put result (items_in outcomes.now)) (Some self.old.taken) (Some self.new.taken) }
        ensures stopped { IfErr result (IsStopBelow (length (items_in outcomes.now))) }
        ensures counted { S.failures self.old.inner ≤ S.failures self.new.inner }
        ensures failed { IfErr result (λ stop. stop.number ≡ 80 → S.failures self.old.inner < S.failures self.new.inner) }
        ensures first { IfErr result (λ stop. stop.number ≡ 80 → self.old.stops ≡ AtFirst) }
        ensures stops { self.new.stops ≡ self.old.stops }
        ensures kept { self.old.stops ≡ AtFirst → self.new.left ≡ self.old.left }
    {
        put_each(
            threads,
            self.stops,
            &mut self.inner,
            &mut self.noted,
            outcomes,
        )
    }

    /// Puts the file, or leaves it out. Its bytes are read again while it is put.
    fn put_parts<P: Parts>(
        &mut self,
        alloc: Global,
        item: &Item,
        parts: &mut P,
    ) -> Result<FileBytes, PartsFault>
        ensures put { IfOk result (λ bytes. HasMore (with_bytes item.now bytes ∷ []) (Some self.old.taken) (Some self.new.taken)) }
        ensures alike { IfOk result (λ bytes. AreAlike bytes item.now.bytes) }
        ensures same { IfOk result (λ bytes. P.gives parts.old item.now → bytes ≡ item.now.bytes) }
        ensures refused { OnErr result (Some self.new.taken ≡ Some self.old.taken) }
        ensures counted { S.failures self.old.inner ≤ S.failures self.new.inner }
        ensures failed { result ≡ Err why.Fault → S.failures self.old.inner < S.failures self.new.inner }
        ensures changed { result ≡ Err why.Changed → P.gives parts.old item.now → ⊥ }
        ensures lost { result ≡ Err why.NoDriveLeft → P.loses parts.old parts.new }
        ensures on { P.goes_on parts.old parts.new }
        ensures first { result ≡ Err why.Fault → self.old.stops ≡ AtFirst }
        ensures stops { self.new.stops ≡ self.old.stops }
        ensures kept { self.old.stops ≡ AtFirst → self.new.left ≡ self.old.left }
    {
        put_one_by_parts(
            alloc,
            self.stops,
            &mut self.inner,
            &mut self.noted,
            item,
            parts,
        )
    }

    /// Puts two files side by side, as the sink inside does, if it stops at the first fault. Else
    /// it puts one file at a time, since each may be left out alone.
    fn put_two<P: TwoParts>(
        &mut self,
        alloc: Global,
        one: &Item,
        other: &Item,
        parts: &mut P,
    ) -> Option<TwoPut>
        ensures put { HasMore (two_put one.now other.now result) (Some self.old.taken) (Some self.new.taken) }
        ensures alike { IfSome result (AreTwoAlike one.now other.now) }
        ensures same { P.gives parts.old one.now other.now → IfSome result (AreTwoSame one.now other.now) }
        ensures counted { S.failures self.old.inner ≤ S.failures self.new.inner }
        ensures failed { FailsTwo result → S.failures self.old.inner < S.failures self.new.inner }
        ensures changed { P.gives parts.old one.now other.now → IfSome result NotChanged }
        ensures lost { LosesTwo result → P.loses parts.old parts.new }
        ensures on { P.goes_on parts.old parts.new }
        ensures first { FailsTwo result → self.old.stops ≡ AtFirst }
        ensures stops { self.new.stops ≡ self.old.stops }
        ensures kept { self.new.left ≡ self.old.left }
    {
        match self.stops {
            Stops::Never => None,
            Stops::AtFirst => put_two_noted(
                alloc,
                &mut self.inner,
                &mut self.noted,
                one,
                other,
                parts,
            ),
        }
    }
}
