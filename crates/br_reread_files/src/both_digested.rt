//! Two files that are read and digested side by side. This thread reads a window of one file and
//! then one of the other, while two other threads digest the windows that were read before.
ghost use Rattle.std.specs.Prelude.{◌≡◌, ◌≤◌, ◌-◌, ◌++◌, length, Err, IfOk, OnOk};
ghost use Rattle.br_data.specs.declared.reread_fault.AgainFault.TheVariants.{Changed, Failed};
ghost use Rattle.br_join.specs.Outcome.{restored};
ghost use Rattle.br_data.specs.ManyDrives.{GoOn, HaveFailed};
ghost use Rattle.br_reread_files.specs.Digesting.{AreRead, IsDigested, IsRead, IsWhole, ReadsOn};
ghost use Rattle.br_reread_files.specs.FileHits.{digested, unread};
ghost use Rattle.br_reread_parts.specs.Given.{GivesHits};
ghost use Rattle.br_join.specs.Runs.{file_of};
ghost use Rattle.br_reread_parts.specs.Windows.{data_bytes};

use crate::digesting::{Ahead, Digesting, digest_rest, finish, open, read_ahead, take_ahead};
use crate::file_hits::FileHits;
use crate::file_run::FileRun;
use br_data::{AgainFault, OverMany, standing_stays};
use br_join::{Outcome, named};
use br_match::Hit;
use br_reread_parts::{DIGESTED, cut_window, digest_window};
use br_volume::Drive;
use std::alloc::{AllocError, Global};
use std::thread::{Threads, join_mut};

/// Hits of two files.
#[derive(Drop)]
pub(crate) struct Both<'h> {
    pub(crate) one: &'h [Hit],
    pub(crate) other: &'h [Hit],
}

/// A window of each of two files; both were read.
#[derive(Drop)]
struct BothAhead {
    one: Ahead,
    other: Ahead,
}

/// Reads a window of each of two files, one after the other.
///
/// # Errors
///
/// Those of `many`, and `Memory` if memory runs out.
#[tactic(auto, using(br_data::proofs::GoOnLaws::go_more, br_data::proofs::GoOnLaws::failed_on))]
fn read_both<D: Drive>(
    alloc: Global,
    many: &mut OverMany<'_, D>,
    next: &Both<'_>,
) -> Result<BothAhead, AgainFault>
    ensures one { IfOk result (λ ahead. AreRead many.old next.now.one.now ahead.one) }
    ensures other { IfOk result (λ ahead. AreRead many.old next.now.other.now ahead.other) }
    ensures on { GoOn many.old many.new }
    ensures changed { result ≡ Err Changed → GivesHits many.old next.now.one.now → GivesHits many.old next.now.other.now → ⊥ }
    ensures failed { result ≡ Err Failed → HaveFailed many.old many.new }
{
    standing_stays();
    let one = read_ahead(alloc, many, next.one)?;
    let other = read_ahead(alloc, many, next.other)?;
    Ok(BothAhead { one, other })
}

/// Reads a window of each of two files, while another thread digests the data of one of them.
///
/// # Errors
///
/// Those of `many`, and `Memory` if memory runs out.
fn digest_one_beside<D: Drive>(
    rt: &impl Threads,
    alloc: Global,
    many: &mut OverMany<'_, D>,
    begun: &mut Digesting,
    next: &Both<'_>,
) -> Result<BothAhead, AgainFault>
    ensures digested { OnOk result (begun.new.reading ≡ begun.old.reading ++ data_bytes begun.old.window.items) }
    ensures hits { begun.new.hits.items ≡ begun.old.hits.items }
    ensures one { IfOk result (λ ahead. AreRead many.old next.now.one.now ahead.one) }
    ensures other { IfOk result (λ ahead. AreRead many.old next.now.other.now ahead.other) }
    ensures on { GoOn many.old many.new }
    ensures changed { result ≡ Err Changed → GivesHits many.old next.now.one.now → GivesHits many.old next.now.other.now → ⊥ }
    ensures failed { result ≡ Err Failed → HaveFailed many.old many.new }
{
    let reading = &mut begun.reading;
    let window = begun.window.as_slice();
    let (digested, ahead) = join_mut(
        rt,
        &mut || digest_window(reading, window),
        &mut || read_both(alloc, many, next),
    );
    digested?;
    ahead
}

/// Reads a window of each of two files, while two other threads digest the data of both.
///
/// # Errors
///
/// Those of `many`, and `Memory` if memory runs out.
fn digest_both_beside<D: Drive>(
    rt: &impl Threads,
    alloc: Global,
    many: &mut OverMany<'_, D>,
    one: &mut Digesting,
    other: &mut Digesting,
    next: &Both<'_>,
) -> Result<BothAhead, AgainFault>
    ensures digested_one { OnOk result (one.new.reading ≡ one.old.reading ++ data_bytes one.old.window.items) }
    ensures digested_other { OnOk result (other.new.reading ≡ other.old.reading ++ data_bytes other.old.window.items) }
    ensures hits_one { one.new.hits.items ≡ one.old.hits.items }
    ensures hits_other { other.new.hits.items ≡ other.old.hits.items }
    ensures one { IfOk result (λ ahead. AreRead many.old next.now.one.now ahead.one) }
    ensures other { IfOk result (λ ahead. AreRead many.old next.now.other.now ahead.other) }
    ensures on { GoOn many.old many.new }
    ensures changed { result ≡ Err Changed → GivesHits many.old next.now.one.now → GivesHits many.old next.now.other.now → ⊥ }
    ensures failed { result ≡ Err Failed → HaveFailed many.old many.new }
{
    let reading = &mut one.reading;
    let window = one.window.as_slice();
    let (digested, ahead) = join_mut(
        rt,
        &mut || digest_window(reading, window),
        &mut || digest_one_beside(rt, alloc, many, other, next),
    );
    digested?;
    ahead
}

/// Reads the next window of each of two files, while two other threads digest the data of both.
///
/// # Errors
///
/// Those of `many`, and `Memory` if memory runs out.
fn read_both_on<'h, D: Drive>(
    rt: &impl Threads,
    alloc: Global,
    many: &mut OverMany<'_, D>,
    one: &mut Digesting,
    other: &mut Digesting,
    rest: &Both<'h>,
) -> Result<Both<'h>, AgainFault>
    requires one { IsRead one.old }
    requires other { IsRead other.old }
    ensures one { IfOk result (λ left. ReadsOn many.old one.old.hits.items rest.now.one.now one.new left.one.now) }
    ensures other { IfOk result (λ left. ReadsOn many.old other.old.hits.items rest.now.other.now other.new left.other.now) }
    ensures fewer { IfOk result (λ left. length left.one.now ≤ length rest.now.one.now - 1) }
    ensures on { GoOn many.old many.new }
    ensures changed { result ≡ Err Changed → GivesHits many.old rest.now.one.now → GivesHits many.old rest.now.other.now → ⊥ }
    ensures failed { result ≡ Err Failed → HaveFailed many.old many.new }
{
    let first = cut_window(rest.one, DIGESTED);
    let second = cut_window(rest.other, DIGESTED);
    let next = Both {
        one: first.window,
        other: second.window,
    };
    let ahead = digest_both_beside(rt, alloc, many, one, other, &next)?;
    take_ahead(one, ahead.one)?;
    take_ahead(other, ahead.other)?;
    Ok(Both {
        one: first.rest,
        other: second.rest,
    })
}

/// Reads and digests two files side by side, while both have a window left.
///
/// # Errors
///
/// Those of `many`, and `Memory` if memory runs out.
#[tactic(auto, using(br_data::proofs::GoOnLaws::go_itself, br_data::proofs::GoOnLaws::go_more, br_data::proofs::GoOnLaws::failed_on))]
fn digest_while_both<'h, D: Drive>(
    rt: &impl Threads,
    alloc: Global,
    many: &mut OverMany<'_, D>,
    one: &mut Digesting,
    other: &mut Digesting,
    rest: Both<'h>,
) -> Result<Both<'h>, AgainFault>
    requires one { IsRead one.old }
    requires other { IsRead other.old }
    ensures one { IfOk result (λ left. ReadsOn many.old one.old.hits.items rest.entry.one.now one.new left.one.now) }
    ensures other { IfOk result (λ left. ReadsOn many.old other.old.hits.items rest.entry.other.now other.new left.other.now) }
    ensures on { GoOn many.old many.new }
    ensures changed { result ≡ Err Changed → GivesHits many.old rest.entry.one.now → GivesHits many.old rest.entry.other.now → ⊥ }
    ensures failed { result ≡ Err Failed → HaveFailed many.old many.new }
{
    standing_stays();
    let mut left = rest;
    while !left.one.is_empty() && !left.other.is_empty() {
        left = read_both_on(rt, alloc, many, one, other, &left)?;
    }
    Ok(left)
}

/// Reads and digests two files: side by side, until one of them ends, and then the other one alone.
///
/// # Errors
///
/// Those of `many`, and `Memory` if memory runs out.
#[tactic(auto, using(br_data::proofs::GoOnLaws::go_more, br_data::proofs::GoOnLaws::failed_on))]
fn digest_both<D: Drive>(
    rt: &impl Threads,
    alloc: Global,
    many: &mut OverMany<'_, D>,
    one: &mut Digesting,
    other: &mut Digesting,
    rest: Both<'_>,
) -> Result<(), AgainFault>
    requires one { IsRead one.old }
    requires other { IsRead other.old }
    ensures one { OnOk result (IsDigested many.old one.old.hits.items rest.entry.one.now one.new) }
    ensures other { OnOk result (IsDigested many.old other.old.hits.items rest.entry.other.now other.new) }
    ensures on { GoOn many.old many.new }
    ensures changed { result ≡ Err Changed → GivesHits many.old rest.entry.one.now → GivesHits many.old rest.entry.other.now → ⊥ }
    ensures failed { result ≡ Err Failed → HaveFailed many.old many.new }
{
    standing_stays();
    let left = digest_while_both(rt, alloc, many, one, other, rest)?;
    digest_rest(rt, alloc, many, one, left.one)?;
    digest_rest(rt, alloc, many, other, left.other)?;
    Ok(())
}

/// Two files that are digested.
#[derive(Drop)]
struct BothRead {
    one: Digesting,
    other: Digesting,
}

/// Reads and digests two files side by side. What is digested of them already is not read again. The
/// data of two windows of each are in memory at most.
///
/// # Errors
///
/// Those of `many`, and `Memory` if memory runs out.
#[tactic(auto, using(br_data::proofs::GoOnLaws::go_more, br_data::proofs::GoOnLaws::failed_on))]
fn read_two<D: Drive>(
    rt: &impl Threads,
    alloc: Global,
    many: &mut OverMany<'_, D>,
    first: &FileHits<'_>,
    second: &FileHits<'_>,
) -> Result<BothRead, AgainFault>
    ensures one { IfOk result (λ read. IsDigested many.old (digested first.now) (unread first.now) read.one) }
    ensures other { IfOk result (λ read. IsDigested many.old (digested second.now) (unread second.now) read.other) }
    ensures on { GoOn many.old many.new }
    ensures changed { result ≡ Err Changed → GivesHits many.old (unread first.now) → GivesHits many.old (unread second.now) → ⊥ }
    ensures failed { result ≡ Err Failed → HaveFailed many.old many.new }
{
    standing_stays();
    let mut one = open(alloc, many, first)?;
    let mut other = open(alloc, many, second)?;
    let rest = Both {
        one: one.rest,
        other: other.rest,
    };
    digest_both(rt, alloc, many, &mut one.begun, &mut other.begun, rest)?;
    Ok(BothRead {
        one: one.begun,
        other: other.begun,
    })
}

/// Returns the outcome of a digested file, under its planned path, if it has one.
///
/// # Errors
///
/// `AllocError` if memory runs out.
fn outcome_under(alloc: Global, run: &FileRun<'_>, read: Digesting) -> Result<Outcome, AllocError>
    requires { IsWhole run.now.key read }
    ensures { IfOk result (λ outcome. read.hits.items ≡ run.now.hits → restored (run.now.key, outcome) ≡ file_of run.now) }
{
    let outcome = finish(alloc, run.key, read)?;
    Ok(named(run.path, outcome))
}

/// The outcomes of two files.
#[derive(Drop)]
pub(crate) struct Outcomes {
    pub(crate) one: Outcome,
    pub(crate) other: Outcome,
}

/// Makes two files without sparse data side by side, each under its planned path, if it has one.
/// Their bytes are not kept in memory.
///
/// # Errors
///
/// Those of `many`, and `Memory` if memory runs out.
pub(crate) fn files_by_two<D: Drive>(
    rt: &impl Threads,
    alloc: Global,
    many: &mut OverMany<'_, D>,
    one: &FileRun<'_>,
    other: &FileRun<'_>,
) -> Result<Outcomes, AgainFault>
    ensures one { IfOk result (λ both. GivesHits many.old one.now.hits → restored (one.now.key, both.one) ≡ file_of one.now) }
    ensures other { IfOk result (λ both. GivesHits many.old other.now.hits → restored (other.now.key, both.other) ≡ file_of other.now) }
    ensures on { GoOn many.old many.new }
    ensures changed { result ≡ Err Changed → GivesHits many.old one.now.hits → GivesHits many.old other.now.hits → ⊥ }
    ensures failed { result ≡ Err Failed → HaveFailed many.old many.new }
{
    let read = read_two(rt, alloc, many, &one.file, &other.file)?;
    let first = outcome_under(alloc, one, read.one)?;
    let second = outcome_under(alloc, other, read.other)?;
    Ok(Outcomes {
        one: first,
        other: second,
    })
}
