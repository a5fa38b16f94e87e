//! What is published, and the rule that connects it with its readers.
ghost use Rattle.std.specs.Prelude.{◌≡◌, ◌++◌, [], ◌∷◌, OnOk, OnErr};

use crate::beginnings::Front;
use atomic_table::{Join, Split};
use br_history::{History, JobRows};
use crossbeam_utils::rule::{Outcome, Protocol};
use left_right::Absorb;
use left_right::reader::{Reader, Reading};
use left_right::writer::Writer;
use std::alloc::{AllocError, Global};
use std::collections::LinkedList;

/// All jobs, with the beginning of the list that the added ones form.
#[derive(Drop)]
pub(crate) struct Published {
    pub(crate) alloc: Global,
    pub(crate) history: History,
    pub(crate) front: Front,
}

/// A job that is added, together with the list.
#[derive(Drop)]
pub(crate) struct Added {
    pub(crate) rows: JobRows,
    pub(crate) front: Front,
}

/// Appends a copy of a job. A refusal changes nothing.
fn append(alloc: Global, history: &mut History, rows: &JobRows) -> Result<(), AllocError>
    ensures ok { OnOk result (history.new ≡ history.old ++ rows.now ∷ []) }
    ensures err { OnErr result (history.new ≡ history.old) }
{
    let copy = rows.copy(alloc)?;
    match history.push(copy) {
        Ok(()) => Ok(()),
        Err(_) => Err(AllocError),
    }
}

impl Absorb<Added> for Published {
    ghost use Rattle.std.specs.Prelude.{◌++◌, [], ◌∷◌};

    type State = (History, Front);

    ghost state = { λ s. (s.history, s.front) };

    ghost applied = { λ s a. (s.0 ++ a.rows ∷ [], a.front) };

    /// Adds a copy of the job. It is refused if memory runs out.
    fn absorb_first(&mut self, operation: &Added, _other: &Published) -> Result<(), AllocError> {
        match append(self.alloc, &mut self.history, &operation.rows) {
            Ok(()) => {
                self.front = operation.front.again();
                Ok(())
            }
            Err(_) => Err(AllocError),
        }
    }
}

/// The list of what is published, and the jobs before it, once they are known. No value of it is
/// made.
pub(crate) struct PublishedView {
    pub(crate) knows: bool,
    pub(crate) number: u64,
    pub(crate) log_name: u64,
    pub(crate) cells_name: u64,
    pub(crate) opening: LinkedList<JobRows>,
}

/// The rule: what is published is the opening jobs and then a beginning of the one list.
pub(crate) struct OneList;

impl Protocol<Published, PublishedView> for OneList {
    ghost use Rattle.br_keeper.specs.Keeps.{Keeps, stranger};

    ghost holds = { λ x views. Keeps x.history x.front views };

    ghost first = { stranger };
}

/// The first publish: from then on the publisher knows the list.
pub(crate) struct Begins;

impl Outcome<Published, PublishedView> for Begins {
    ghost use Rattle.std.specs.Prelude.{◌≡◌};
    ghost use Rattle.br_keeper.specs.Keeps.{knowing};

    ghost then = { λ v x y w. w ≡ knowing y.front.book y.history };
}

/// A later publish.
pub(crate) struct Publishes;

impl Outcome<Published, PublishedView> for Publishes {
    ghost use Rattle.std.specs.Prelude.{◌≡◌};

    ghost then = { λ v x y w. w ≡ v };
}

/// A session enters, and sees what is published.
pub(crate) struct Sees;

impl Outcome<Published, PublishedView> for Sees {
    ghost use Rattle.br_keeper.specs.Keeps.{Saw};

    ghost then = { λ v x y w. Saw v x.history x.front w };
}

/// The publisher shows a session the list, and the session learns it.
pub(crate) struct Notes;

impl Split<PublishedView> for Notes {
    ghost left = { λ v. v };

    ghost right = { λ v. v };
}

impl Join<PublishedView> for Notes {
    ghost use Rattle.br_keeper.specs.Keeps.{stranger};

    ghost both = { λ v w. w };

    ghost spent = { stranger };
}

pub(crate) type HistoryWriter = Writer<Published, Added, PublishedView, OneList>;

pub(crate) type HistoryReader = Reader<Published, PublishedView, OneList>;

pub(crate) type HistoryReading = Reading<Published, PublishedView, OneList>;
