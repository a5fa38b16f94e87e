//! Beginnings of the one list of added jobs. The list exists in proofs only.
ghost use Rattle.std.specs.Prelude.{◌≡◌, ◌+◌, ◌<◌, ◌≤◌, ◌^◌, ◌++◌, ◌∷◌, [], length, MatchBool, IfSome, Some, None};
ghost use mathlib.Core.List.{IsPrefix};
ghost use Rattle.logbook.specs.Pages.{may_write, nib};
ghost use Rattle.br_keeper.specs.Beginnings.{IsNext, beginning, count_of, head_of, last_id};

use br_history::JobRows;
use br_types::JobId;
use logbook::{Gain, Offer, Pen, Plain, Play, Rule, Seen, Start, Word};
use std::marker::Model;

/// The rule of the list: the first word is its length, and each job has a cell.
pub(crate) struct Law;

impl Rule<JobRows, u64> for Law {
    ghost use Rattle.std.specs.Prelude.{[]};
    ghost use base.Fml.{ftrue};
    ghost use Rattle.br_keeper.specs.Beginnings.{IsKept};

    ghost holds = { λ cells log. IsKept cells log };

    ghost first = { [] };

    ghost hinted = { λ n log. Unit {0} };

    ghost shows = { λ log. [] };

    ghost keeps = { λ names log. ftrue };

    ghost moves = { λ ask before after answer. Unit {0} };
}

/// What a step gives in exchange: nothing.
struct Nothing;

impl Gain<JobRows, u64> for Nothing {
    ghost use base.Fml.{ftrue};

    ghost after = { λ names about answer. ftrue };
}

/// The step that adds a job.
struct Add;

impl Play<JobRows, u64> for Add {
    ghost use Rattle.br_keeper.specs.Beginnings.{Adds};

    ghost then = { Adds };
}

impl Plain<JobRows, JobRows, u64> for Add {
    ghost use Rattle.std.specs.Prelude.{None};

    ghost ask = { λ rows. rows };

    ghost state = { λ rows. None };
}

/// The step that makes a cell for one more job.
struct AddCell;

impl Play<JobRows, u64> for AddCell {
    ghost use Rattle.br_keeper.specs.Beginnings.{AddsCell};

    ghost then = { AddsCell };
}

impl Plain<u64, JobRows, u64> for AddCell {
    ghost use Rattle.std.specs.Prelude.{None};
    ghost use Rattle.br_keeper.specs.Beginnings.{no_rows};

    ghost ask = { λ n. no_rows };

    ghost state = { λ n. None };
}

/// The step that shows that no other job was added.
struct Whole;

impl Play<JobRows, u64> for Whole {
    ghost use Rattle.br_keeper.specs.Beginnings.{IsWhole};

    ghost then = { IsWhole };
}

impl Plain<u64, JobRows, u64> for Whole {
    ghost use Rattle.std.specs.Prelude.{None};
    ghost use Rattle.br_keeper.specs.Beginnings.{no_rows};

    ghost ask = { λ n. no_rows };

    ghost state = { λ n. None };
}

/// A word of the list: its length, or the number of its cells.
type ListWord = Word<JobRows, u64, Law>;

/// A beginning of the list. It can be copied and shared, and uses memory only for its length and
/// the number of its last job.
#[derive(Drop)]
pub(crate) struct Front {
    count: u64,
    last: Option<JobId>,
    seen: Seen<JobRows, u64, Law>,
}

impl Model for Front {
    ghost use Rattle.std.specs.Prelude.{◌≡◌, length};
    ghost use Rattle.br_keeper.specs.Beginnings.{Beginning, last_id};

    ghost Value = { Beginning };

    ghost view = { λ f. record { book = f.seen.book; log = f.seen.log } };

    ghost invariant = { λ f. (f.count ≡ length f.seen.log) × (f.last ≡ last_id f.seen.log) };
}

impl Front {
    /// Returns the number of jobs.
    pub(crate) fn len(&self) -> u64
        ensures { result ≡ length self.now.log }
    {
        self.count
    }

    /// Returns the number of the last job.
    pub(crate) fn last(&self) -> Option<JobId>
        ensures { result ≡ last_id self.now.log }
    {
        self.last
    }

    /// Returns a copy.
    pub(crate) fn again(&self) -> Front
        ensures { result ≡ self.now }
    {
        Front {
            count: self.count,
            last: self.last,
            seen: self.seen.again(),
        }
    }

    /// States that of two beginnings of one list the shorter begins the longer.
    pub(crate) fn compare(&self, other: &Front)
        requires book { other.now.book ≡ self.now.book }
        requires less { length self.now.log ≤ length other.now.log }
        ensures { IsPrefix self.now.log other.now.log }
    {
        let mut both = self.seen.again();
        both.learn(&other.seen);
    }

    /// Makes a cell after this many others, and returns its pen. Returns `None` if there are not as
    /// many.
    fn next_cell(&self, cells: &ListWord, count: u64) -> Option<Pen>
        requires book { cells.now ≡ count_of self.now.book }
        requires room { count < 2 ^ 62 + 1 }
        ensures { IfSome result (λ p. (p.book ≡ self.now.book) × (p.nib ≡ nib may_write (count + 2) 0)) }
    {
        let mut seen = self.seen.again();
        let mut offer: Offer<JobRows, u64, Law, Nothing> = seen.plain::<Nothing, u64, AddCell>(
            &count,
        );
        let mut pen = seen.no_pen();
        let found = cells.compare_exchange::<AddCell, Nothing>(
            count,
            count + 1,
            &mut seen,
            &mut offer,
            &mut pen,
        );
        if found != count {
            return None;
        }
        let _made: ListWord = Word::tracked(0, &mut pen);
        Some(pen)
    }

    /// Adds a job to the list, of which this is the whole, and returns the list.
    fn with(&self, words: &ListWord, pen: &mut Pen, rows: &JobRows) -> Front
        requires book { words.now ≡ head_of self.now.book }
        requires next { IsNext self.now pen.old }
        requires room { length self.now.log < 2 ^ 62 }
        ensures { result ≡ beginning self.now.book (self.now.log ++ rows.now ∷ []) }
    {
        let mut seen = self.seen.again();
        let mut offer: Offer<JobRows, u64, Law, Nothing> = seen.plain::<Nothing, JobRows, Add>(
            rows,
        );
        let old = self.count;
        words.compare_exchange::<Add, Nothing>(old, old + 1, &mut seen, &mut offer, pen);
        Front {
            count: old + 1,
            last: Some(rows.row().id),
            seen,
        }
    }

    /// States that another beginning of the list, of which this is the whole, begins it.
    fn cover(&self, other: &Front, words: &ListWord, pen: &mut Pen)
        requires book { words.now ≡ head_of self.now.book }
        requires same { other.now.book ≡ self.now.book }
        requires next { IsNext self.now pen.old }
        ensures next { IsNext self.now pen.new }
        ensures begins { IsPrefix other.now.log self.now.log }
    {
        let mut seen = self.seen.again();
        seen.learn(&other.seen);
        let count = self.count;
        let mut offer: Offer<JobRows, u64, Law, Nothing> = seen.plain::<Nothing, u64, Whole>(
            &count,
        );
        words.compare_exchange::<Whole, Nothing>(count, count, &mut seen, &mut offer, pen);
    }
}

/// The list, by who adds jobs to it: nobody else can add one.
#[derive(Drop)]
pub(crate) struct JobList {
    front: Front,
    length: ListWord,
    cells: ListWord,
    /// The right to write the cell of the next job.
    pen: Pen,
}

impl Model for JobList {
    ghost use Rattle.br_keeper.specs.Beginnings.{Beginning, IsOwned};

    ghost Value = { Beginning };

    ghost view = { λ l. l.front };

    ghost invariant = { λ l. IsOwned l.front l.length l.cells l.pen };
}

impl JobList {
    /// Opens a list without jobs. It never returns `None`, but the contracts of the words do not
    /// exclude it.
    pub(crate) fn open() -> Option<JobList>
        ensures { IfSome result (λ l. l.log ≡ []) }
    {
        let (seen, mut first, mut second) = Seen::open(Start::alone(), 0, 0);
        let front = Front {
            count: 0,
            last: None,
            seen,
        };
        let length = Word::tracked(0, &mut first);
        let cells = Word::tracked(0, &mut second);
        let pen = front.next_cell(&cells, 0)?;
        Some(JobList {
            front,
            length,
            cells,
            pen,
        })
    }

    /// Returns the list.
    pub(crate) fn front(&self) -> &Front
        ensures { result.now ≡ self.now }
    {
        &self.front
    }

    /// Adds a job, and returns whether it did. It always does, but the contracts of the words do
    /// not exclude that it does not.
    pub(crate) fn add(&mut self, rows: &JobRows) -> bool
        requires room { length self.old.log < 2 ^ 62 }
        ensures { MatchBool result (self.new ≡ beginning self.old.book (self.old.log ++ rows.now ∷ [])) (self.new ≡ self.old) }
    {
        let Some(pen) = self.front.next_cell(&self.cells, self.front.len() + 1) else {
            return false;
        };
        let front = self.front.with(&self.length, &mut self.pen, rows);
        self.front = front;
        self.pen = pen;
        true
    }

    /// States that a beginning of the list begins it as it is now.
    pub(crate) fn cover(&mut self, front: &Front)
        requires { front.now.book ≡ self.old.book }
        ensures same { self.new ≡ self.old }
        ensures begins { IsPrefix front.now.log self.old.log }
    {
        self.front.cover(front, &self.length, &mut self.pen);
    }
}
