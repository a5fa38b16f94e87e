//! A sink that reports its files.
ghost use Rattle.std.specs.Prelude.{◌≡◌, ◌<◌, ◌≤◌, length, IfErr};
ghost use Rattle.std.specs.Thread.{IsSync};
ghost use Rattle.br_sink.specs.Delivery.{IsStopBelow, items_in, items_put};
ghost use Rattle.br_sink.specs.Sink.{HasMore};

use crate::gauge::Gauge;
use br_join::{FileBytes, Item, Outcome};
use br_sink::{
    Parts, PartsFault, Sink, SinkFault, SinkStop, StopCause, TwoParts, TwoPut, file_at, totals,
};
use br_types::FileKey;
use std::alloc::Global;
use std::thread::Threads;

/// The number of outcomes after which the files that were put are reported to the gauge.
const RUN_LEN: usize = 64;

/// A sink that puts files as another one does, and reports them to a gauge.
#[derive(Drop)]
pub struct WatchedSink<'g, 'r, S> {
    pub inner: S,
    gauge: &'g Gauge<'r>,
}

impl<'g, 'r, S> WatchedSink<'g, 'r, S> {
    /// Creates a sink that puts files as this one does.
    pub fn new(inner: S, gauge: &'g Gauge<'r>) -> WatchedSink<'g, 'r, S>
        ensures { result.inner ≡ inner }
    {
        WatchedSink { inner, gauge }
    }

    /// Returns the sink inside.
    pub fn into_inner(self) -> S
        ensures { result ≡ self.entry.inner }
    {
        let WatchedSink { inner, .. } = self;
        inner
    }
}

/// Puts the files among the outcomes into a sink, one run of outcomes after another, and reports to
/// the gauge after each.
fn put_runs<S: Sink, R: Threads + Sync>(
    gauge: &Gauge<'_>,
    threads: &R,
    outcomes: &[(FileKey, Outcome)],
    sink: &mut S,
) -> Result<(), SinkStop>
    requires threads { IsSync R.row }
    ensures put { HasMore (items_put result (items_in outcomes.now)) (S.has sink.old) (S.has sink.new) }
    ensures stopped { IfErr result (IsStopBelow (length (items_in outcomes.now))) }
    ensures counted { S.failures sink.old ≤ S.failures sink.new }
    ensures failed { IfErr result (λ stop. stop.number ≡ 80 → S.failures sink.old < S.failures sink.new) }
{
    gauge.begin_putting();
    let mut place = 0;
    let mut done = 0;
    while place < outcomes.len() {
        let rest = &outcomes[place..];
        let (run, _) = rest.split_at(rest.len().min(RUN_LEN));
        if let Err(stop) = sink.put_all(threads, run) {
            let put = stop.done();
            gauge.note_files_taken(run, put);
            return Err(SinkStop::new(stop.cause(), done + put));
        }
        let files = totals(run).files;
        gauge.note_files_taken(run, files);
        done += files;
        place += run.len();
    }
    Ok(())
}

impl<'g, 'r, S: Sink> Sink for WatchedSink<'g, 'r, S> {
    ghost has = { λ s. S.has s.inner };

    ghost failures = { λ s. S.failures s.inner };

    fn put(&mut self, item: &Item) -> Result<(), SinkFault> {
        self.gauge.begin_putting();
        let put = self.inner.put(item);
        match &put {
            Ok(()) => self.gauge.note_file_taken(item),
            Err(SinkFault::Fault) => self.gauge.log_failed(item),
            Err(SinkFault::Memory) => {}
        }
        put
    }

    fn put_all<R: Threads + Sync>(
        &mut self,
        threads: &R,
        outcomes: &[(FileKey, Outcome)],
    ) -> Result<(), SinkStop> {
        if !self.gauge.is_watching() {
            return self.inner.put_all(threads, outcomes);
        }
        let put = put_runs(self.gauge, threads, outcomes, &mut self.inner);
        if let Err(stop) = &put {
            if let (StopCause::Fault, Some((_, item))) = (
                stop.cause(),
                file_at(outcomes, stop.done()),
            ) {
                self.gauge.log_failed(item);
            }
        }
        put
    }

    fn put_parts<P: Parts>(
        &mut self,
        alloc: Global,
        item: &Item,
        parts: &mut P,
    ) -> Result<FileBytes, PartsFault> {
        self.gauge.begin_parts(item.bytes.len());
        let put = self.inner.put_parts(alloc, item, parts);
        self.gauge.end_parts();
        match &put {
            Ok(_) => self.gauge.note_file_taken(item),
            Err(PartsFault::Fault) => self.gauge.log_failed(item),
            Err(PartsFault::Memory | PartsFault::NoDriveLeft | PartsFault::Changed) => {}
        }
        put
    }

    fn put_two<P: TwoParts>(
        &mut self,
        alloc: Global,
        one: &Item,
        other: &Item,
        parts: &mut P,
    ) -> Option<TwoPut> {
        let bytes = one.bytes.len().saturating_add(other.bytes.len());
        self.gauge.begin_parts(bytes);
        let put = self.inner.put_two(alloc, one, other, parts);
        self.gauge.end_parts();
        match &put {
            Some(TwoPut::Both { .. }) => {
                self.gauge.note_file_taken(one);
                self.gauge.note_file_taken(other);
            }
            Some(TwoPut::One { why, .. }) => {
                self.gauge.note_file_taken(one);
                if *why == PartsFault::Fault {
                    self.gauge.log_failed(other);
                }
            }
            Some(
                TwoPut::Neither {
                    why: PartsFault::Fault,
                },
            ) => {
                self.gauge.log_failed(one);
            }
            Some(TwoPut::Neither { .. }) | None => {}
        }
        put
    }
}
