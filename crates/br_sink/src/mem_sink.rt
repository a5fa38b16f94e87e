ghost use Rattle.std.specs.Prelude.{◌≡◌, ◌↔◌, ◌∷◌, ◌++◌, ◌<◌, ◌≤◌, [], Some, IfOk, OnOk, OnErr, Err};
ghost use Rattle.br_sink.specs.MemSink.{with_put, without_put, with_failure};
ghost use Rattle.br_sink.specs.Sink.{HasMore};
ghost use Rattle.br_sink.specs.declared.fault.SinkFault.TheVariants.{Memory, Fault};

use crate::fault::SinkFault;
use crate::sink::Sink;
use br_join::Item;
use br_volume::Count;
use std::alloc::{AllocError, Global};
use std::marker::Model;

/// A sink in memory. It keeps a copy of each file, which shares the file's bytes.
#[derive(Drop)]
pub struct MemSink {
    alloc: Global,
    items: Vec<Item>,
    fails_at: u64,
    failures: Count,
}

impl Model for MemSink {
    ghost use Rattle.br_sink.specs.MemSink.{Kept};

    ghost Value = { Kept };

    ghost view = { λ s. record { items = s.items.items; fails_at = s.fails_at; failures = s.failures.number } };
}

impl MemSink {
    /// Returns a sink without files. It keeps the allocator, by which it grows.
    pub fn new(alloc: Global) -> MemSink
        ensures { result ≡ record { items = []; fails_at = 0; failures = 0 } }
    {
        MemSink::failing_at(alloc, 0)
    }

    /// Returns a sink without files that fails once, at its `k`-th put, counted from 1; never if
    /// `k` is 0.
    pub fn failing_at(alloc: Global, k: u64) -> MemSink
        ensures { result ≡ record { items = []; fails_at = k; failures = 0 } }
    {
        MemSink {
            alloc,
            items: Vec::new(alloc),
            fails_at: k,
            failures: Count::zero(),
        }
    }

    /// Returns the files that were put, in their order.
    pub fn items(&self) -> &[Item]
        ensures { result.now ≡ self.now.items }
    {
        &self.items
    }
}

/// Returns an equal file, which shares the bytes.
pub fn copy_of(alloc: Global, item: &Item) -> Result<Item, AllocError>
    ensures { IfOk result (λ copy. copy ≡ item.now) }
{
    Ok(Item {
        path: item.path.copy(alloc)?,
        kind: item.kind,
        stat: item.stat,
        link: Vec::from_slice(alloc, &item.link)?,
        bytes: item.bytes.share(alloc)?,
        skipped: item.skipped,
    })
}

/// Adds a copy of the file at the end. After a refusal nothing has changed.
fn push_copy(alloc: Global, items: &mut Vec<Item>, item: &Item) -> Result<(), AllocError>
    ensures ok { OnOk result (items.new.items ≡ items.old.items ++ item.now ∷ []) }
    ensures err { OnErr result (items.new.items ≡ items.old.items) }
{
    items.push(copy_of(alloc, item)?)?;
    Ok(())
}

impl Sink for MemSink {
    ghost use Rattle.std.specs.Prelude.{Some};

    ghost has = { λ s. Some s.items };

    ghost failures = { λ s. s.failures };

    /// Fails at the put that was chosen to fail, for any file.
    fn put(&mut self, item: &Item) -> Result<(), SinkFault>
        ensures put { OnOk result (HasMore (item.now ∷ []) (Some self.old.items) (Some self.new.items)) }
        ensures refused { OnErr result (Some self.new.items ≡ Some self.old.items) }
        ensures counted { self.old.failures ≤ self.new.failures }
        ensures failed { result ≡ Err Fault → self.old.failures < self.new.failures }
        ensures exact { OnOk result (self.new ≡ with_put item.now self.old) }
        ensures memory { result ≡ Err Memory → self.new ≡ without_put self.old }
        ensures fails { result ≡ Err Fault → self.new ≡ with_failure self.old }
        ensures when { (result ≡ Err Fault) ↔ (self.old.fails_at ≡ 1) }
    {
        if self.fails_at == 1 {
            self.fails_at = 0;
            self.failures = self.failures.next();
            return Err(SinkFault::Fault);
        }
        self.fails_at = self.fails_at.saturating_sub(1);
        push_copy(self.alloc, &mut self.items, item)?;
        Ok(())
    }
}
