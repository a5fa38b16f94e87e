//! The order of a restore: what it is asked to do.
ghost use Rattle.std.specs.Prelude.{◌≡◌, IfOk};
ghost use Rattle.br_model.specs.Answer.{Answers};
ghost use Rattle.br_model.specs.BootstrapText as model;
ghost use Rattle.br_bsr.specs.Counts.{counts};
ghost use Rattle.br_bsr.specs.Fault.{cause};
ghost use Rattle.br_engine.specs.WantedOutcomes.{plain};

use br_bsr::{Bootstrap, BsrFault, counts_of, read_bootstrap};
use br_types::{Copies, Gaps, Names, Stops, Wanted};
use std::alloc::Global;

/// A bootstrap, and the `Count` of each of its groups, if it has one.
#[derive(Clone, Copy)]
pub struct CountedBootstrap<'b> {
    /// The groups.
    pub bootstrap: &'b Bootstrap,
    /// The count of each group, in the same order.
    pub counts: &'b [Option<u64>],
}

/// A bootstrap that was read from its text, and the `Count` of each of its groups.
#[derive(Drop)]
pub struct ReadBootstrap {
    /// The groups.
    pub bootstrap: Bootstrap,
    /// The count of each group, in the same order.
    pub counts: Vec<Option<u64>>,
}

impl ReadBootstrap {
    /// Reads the text of a bootstrap.
    ///
    /// # Errors
    ///
    /// Those of `read_bootstrap` of br_bsr.
    pub fn read(alloc: Global, text: &[u8]) -> Result<ReadBootstrap, BsrFault>
        ensures exact { Answers (λ read. read.bootstrap) cause result (model.read_bootstrap text.now) }
        ensures counts { IfOk result (λ read. read.counts.items ≡ counts text.now) }
    {
        let bootstrap = read_bootstrap(alloc, text)?;
        let counts = counts_of(alloc, text)?;
        Ok(ReadBootstrap { bootstrap, counts })
    }

    /// Returns the groups with their counts.
    pub fn counted(&self) -> CountedBootstrap<'_>
        ensures bootstrap { result.bootstrap.now ≡ self.now.bootstrap }
        ensures counts { result.counts.now ≡ self.now.counts.items }
    {
        CountedBootstrap {
            bootstrap: &self.bootstrap,
            counts: &self.counts,
        }
    }
}

/// Which files to restore, and what else is wanted.
#[derive(Drop)]
pub struct RestoreOrder<'b> {
    /// What selects the files.
    pub asked: CountedBootstrap<'b>,
    /// The names of the files, if they were planned. Then these files are restored and no others.
    pub names: Option<Names>,
    /// The copies to deliver, what to report as missing, and where the delivery stops.
    pub wanted: Wanted,
}

impl<'b> RestoreOrder<'b> {
    /// Returns the order to restore all that a bootstrap selects, or only the planned files if
    /// there are names. Nothing is reported as missing, and the delivery stops at the first file
    /// that can't be put.
    pub fn plain(bootstrap: &'b Bootstrap, names: Option<Names>) -> RestoreOrder<'b>
        ensures bootstrap { result.asked.bootstrap.now ≡ bootstrap.entry.now }
        ensures names { result.names ≡ names }
        ensures wanted { result.wanted ≡ plain }
    {
        RestoreOrder {
            asked: CountedBootstrap {
                bootstrap,
                counts: &[],
            },
            names,
            wanted: Wanted {
                copies: Copies::All,
                gaps: Gaps::Unreported,
                stops: Stops::AtFirst,
            },
        }
    }
}
