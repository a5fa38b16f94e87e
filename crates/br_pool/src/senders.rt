//! The senders of a round: they are made from workers, run while the joiner takes what they send,
//! and are taken apart.
ghost use Rattle.std.specs.Prelude.{◌≡◌, ◌<◌, ◌≤◌, [], true, map, reverse, length, vec_capacity, IfOk, IsTrue};
ghost use Rattle.std.specs.List.{AllByRecursion, AllZip};
ghost use Rattle.std.specs.Thread.{IsSend, IsSync};
ghost use Rattle.crossbeam_queue.specs.Passes.{view, IsPassOf};
ghost use Rattle.br_pool.specs.Crew.{HasAll, crew, hired};
ghost use Rattle.br_pool.specs.Gathering.{IsStill, Takes};
ghost use Rattle.br_pool.specs.Outlets.{outlet_view};
ghost use Rattle.br_pool.specs.Gathers.{HasHired, HasTakenIn, HaveSentIn, sent_of};
ghost use Rattle.br_pool.specs.Sending.{AreSetUpIn, HasRunIn, IsPassAt, IsSetUpIn};
ghost use Rattle.br_pool.specs.Workers.{EachAt, EachPairAt, IsSetUp};

use crate::batch_queue::{CrewPass, Line, pass_for_worker, take_in};
use crate::gate::Gate;
use crate::gathering::{gather, gather_sent, give_kept};
use crate::outlet::Outlet;
use crate::sender::{SendRound, Sender, run_senders};
use crate::worker::Worker;
use br_join::Joiner;
use br_volume::Drive;
use std::alloc::{AllocError, Global};
use std::sync::Wait;
use std::thread::{Threads, join_mut};

/// The result of `lists_for`.
pub(crate) type Lists<D> = (Vec<Worker<D>>, Vec<Sender<D>>);

/// Returns a list for `count` workers and one for as many senders, both empty.
pub(crate) fn lists_for<D: Drive>(alloc: Global, count: usize) -> Result<Lists<D>, AllocError>
    ensures none { IfOk result (λ lists. (lists.0.items ≡ []) × (lists.1.items ≡ [])) }
    ensures room { IfOk result (λ lists. (count ≤ vec_capacity lists.0) × (count ≤ vec_capacity lists.1)) }
{
    let workers = Vec::with_capacity(alloc, count)?;
    match Vec::with_capacity(alloc, count) {
        Ok(senders) => Ok((workers, senders)),
        Err(refused) => {
            workers.destroy_empty();
            Err(refused)
        }
    }
}

/// Makes a sender from each worker, the last worker first. Each gets a part of the pass.
fn hire<D: Drive>(
    line: &Line,
    pass: &mut CrewPass,
    workers: &mut Vec<Worker<D>>,
    senders: &mut Vec<Sender<D>>,
)
    requires pass { IsPassOf line.now pass.old }
    requires parts { length workers.old.items < (view pass.old).parts }
    requires none { senders.old.items ≡ [] }
    requires room { length workers.old.items ≤ vec_capacity senders.old }
    ensures pass { IsPassOf line.now pass.new }
    ensures fewer { HasHired (length workers.old.items) (view pass.old) (view pass.new) }
    ensures none { workers.new.items ≡ [] }
    ensures room { vec_capacity workers.new ≡ vec_capacity workers.old }
    ensures workers { reverse (map (λ (s : Sender D). s.worker) senders.new.items) ≡ workers.old.items }
    ensures hired { AllByRecursion (λ (s : Sender D). IsPassAt line.now.table.shared.table_id s.outlet.pass
        × (outlet_view s.outlet ≡ hired)) senders.new.items }
{
    while !workers.is_empty() {
        let worker = workers.take_last();
        let own = pass_for_worker(line, pass);
        let outlet = Outlet::new(*workers.allocator(), own);
        senders.push_reserved(Sender { worker, outlet });
    }
}

/// Takes the senders apart, the last one first. Their workers go back; their passes are taken in. What
/// they keep is pushed before, and goes to the joiner if the queue is full. Returns whether nothing
/// was lost.
fn dismiss<D: Drive, R: Wait>(
    rt: &R,
    line: &Line,
    pass: &mut CrewPass,
    mut senders: Vec<Sender<D>>,
    workers: &mut Vec<Worker<D>>,
    joiner: &mut Joiner,
) -> bool
    requires pass { IsPassOf line.now pass.old }
    requires gathers { (view pass.old).gathers ≡ true }
    requires passes { AllByRecursion (λ (s : Sender D). IsPassAt line.now.table.shared.table_id s.outlet.pass
        × ((outlet_view s.outlet).parts ≡ 1)) senders.items }
    requires none { workers.old.items ≡ [] }
    requires room { length senders.items ≤ vec_capacity workers.old }
    ensures pass { IsPassOf line.now pass.new }
    ensures taken { HasTakenIn (length senders.items) (sent_of senders.items) (view pass.old) (view pass.new) }
    ensures took { Takes (IsTrue result) (view pass.old) (view pass.new) joiner.old joiner.new }
    ensures workers { workers.new.items ≡ reverse (map (λ (s : Sender D). s.worker) senders.items) }
{
    let mut fine = true;
    while !senders.is_empty() {
        let Sender { worker, outlet } = senders.take_last();
        let Outlet { pass: own, kept } = outlet;
        let mut own = own;
        fine &= give_kept(rt, line, pass, joiner, &mut own, kept);
        take_in(line, pass, own);
        workers.push_reserved(worker);
    }
    senders.destroy_empty();
    fine
}

/// Runs the senders, one in this thread and each of the others in its own thread, while another
/// thread gives the joiner what they send. Returns whether nothing was lost. If no thread can be
/// made for the joiner, this thread gives it what is in the queue after the senders have ended.
fn run_both<D: Drive + Send, G: Gate + Sync, R: Threads + Wait + Sync>(
    rt: &R,
    sending: &SendRound<'_, G>,
    senders: &mut [Sender<D>],
    pass: &mut CrewPass,
    joiner: &mut Joiner,
) -> bool
    requires few { sending.now.round.now.claims.now.limit ≡ length sending.now.round.now.left.now }
    requires below { AllByRecursion (λ x. x < length sending.now.round.now.pieces.now) sending.now.round.now.left.now }
    requires ready { EachAt (IsSetUpIn sending.now) senders.old }
    requires pass { IsPassOf sending.now.line.now pass.old }
    requires gathers { (view pass.old).gathers ≡ true }
    ensures ran { EachPairAt (HasRunIn D.shows D.failures sending.now) senders.old senders.new }
    ensures pass { IsPassOf sending.now.line.now pass.new }
    ensures still { IsStill (view pass.old) (view pass.new) }
    ensures took { Takes (IsTrue result) (view pass.old) (view pass.new) joiner.old joiner.new }
{
    let line = sending.line;
    let course = sending.course;
    let (fine, _) = join_mut(
        rt,
        &mut || gather_sent(rt, line, pass, joiner, course),
        &mut ||
            requires { IsSync R.row × IsSend D.row × IsSync G.row × AreSetUpIn sending.now senders.now }
            ensures { EachPairAt (HasRunIn D.shows D.failures sending.entry.now) senders.entry.now senders.exit.now }
        {
            run_senders(rt, sending, senders);
            course.end();
        },
    );
    fine
}

/// Runs the senders as `run_both` does, and returns them after their run.
fn run_all<D: Drive + Send, G: Gate + Sync, R: Threads + Wait + Sync>(
    rt: &R,
    sending: &SendRound<'_, G>,
    mut senders: Vec<Sender<D>>,
    pass: &mut CrewPass,
    joiner: &mut Joiner,
) -> (Vec<Sender<D>>, bool)
    requires few { sending.now.round.now.claims.now.limit ≡ length sending.now.round.now.left.now }
    requires below { AllByRecursion (λ x. x < length sending.now.round.now.pieces.now) sending.now.round.now.left.now }
    requires ready { AllByRecursion (IsSetUpIn sending.now) senders.items }
    requires pass { IsPassOf sending.now.line.now pass.old }
    requires gathers { (view pass.old).gathers ≡ true }
    ensures ran { AllZip (HasRunIn D.shows D.failures sending.now) senders.items result.0.items }
    ensures pass { IsPassOf sending.now.line.now pass.new }
    ensures still { IsStill (view pass.old) (view pass.new) }
    ensures took { Takes (IsTrue result.1) (view pass.old) (view pass.new) joiner.old joiner.new }
{
    let fine = run_both(rt, sending, senders.as_mut_slice(), pass, joiner);
    (senders, fine)
}

/// Runs workers that send what they find to the joiner, and returns them after their run. Returns
/// also whether nothing was lost.
pub(crate) fn send_all<D: Drive + Send, G: Gate + Sync, R: Threads + Wait + Sync>(
    rt: &R,
    sending: &SendRound<'_, G>,
    mut pass: CrewPass,
    mut workers: Vec<Worker<D>>,
    mut senders: Vec<Sender<D>>,
    joiner: &mut Joiner,
) -> (Vec<Worker<D>>, bool)
    requires few { sending.now.round.now.claims.now.limit ≡ length sending.now.round.now.left.now }
    requires below { AllByRecursion (λ x. x < length sending.now.round.now.pieces.now) sending.now.round.now.left.now }
    requires ready { AllByRecursion (IsSetUp sending.now.round.now.claims.now.claims sending.now.round.now.claims.now.limit) workers.items }
    requires pass { IsPassOf sending.now.line.now pass }
    requires first { view pass ≡ crew true 65536 [] [] }
    requires many { length workers.items ≤ 16 }
    requires none { senders.items ≡ [] }
    requires room { length workers.items ≤ vec_capacity senders }
    ensures { HaveSentIn D.shows D.failures sending.now workers.items result.0.items joiner.old joiner.new result.1 }
{
    let line = sending.line;
    hire(line, &mut pass, &mut workers, &mut senders);
    let (senders, fine) = run_all(rt, sending, senders, &mut pass, joiner);
    let kept = dismiss(rt, line, &mut pass, senders, &mut workers, joiner);
    let rest = gather(rt, line, &mut pass, joiner, sending.course);
    (workers, fine & kept & rest)
}
