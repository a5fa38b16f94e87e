//! Plans of a session that learns what a keeper in memory commits.
ghost use Rattle.std.specs.Prelude.{◌≡◌, IfSome};

use crate::keeping::MemKeeper;
use crate::mem_volumes::MemVolumes;
use crate::saved_jobs::job_of;
use br_history::History;
use br_keeper::{Keeper, MemJobs, Session};
use br_plan::{Plan, PlanFault, Request};
use br_test_support::Case;
use br_types::{Name, Path};
use br_volume::MemStore;
use std::alloc::Global;
use std::sync::Wait;

/// Commits a job and prints its receipt as NUMBER:JOB, or the number of the refusal. Returns the
/// session, which has learned the receipt.
fn learned<R: Wait>(
    rt: &R,
    case: &mut Case,
    keeper: &mut MemKeeper,
    session: Session,
    field: &str,
) -> Option<Session>
    requires { session.book ≡ keeper.old.list.book }
    ensures { IfSome result (λ s. s.book ≡ keeper.new.list.book) }
{
    let job = job_of(case, field)?;
    match keeper.commit(rt, job) {
        Ok(receipt) => {
            case.number(receipt.number());
            case.text(":");
            case.number(u64::from(receipt.job().get()));
            Some(session.learn(&receipt))
        }
        Err(fault) => {
            case.number(u64::from(fault.number()));
            None
        }
    }
}

/// Plans a restore of `/a` of the client `c` and the file set `f`, as it was before a moment.
fn plan_of(alloc: Global, history: &History, moment: u64) -> Result<Plan, PlanFault> {
    let (Ok(client), Ok(fileset)) = (Name::new(alloc, b"c"), Name::new(alloc, b"f")) else {
        return Err(PlanFault::Memory);
    };
    let Ok(path) = Path::new(alloc, b"/a") else {
        return Err(PlanFault::Memory);
    };
    let request = Request {
        client,
        fileset,
        moment,
    };
    Plan::make(alloc, history, &request, &[path])
}

/// Plans a restore from a snapshot, and prints the session of each planned file and its path, or
/// the number of the refusal.
fn plan(case: &mut Case, session: Session, moment: u64) -> Option<Session>
    ensures { IfSome result (λ s. s.book ≡ session.book) }
{
    let Ok(snapshot) = session.snapshot() else {
        case.fail("there is no snapshot");
        return None;
    };
    match plan_of(case.alloc(), snapshot.history(), moment) {
        Ok(plan) => {
            for (key, path) in plan.names().iter() {
                case.text(" ");
                case.number(u64::from(key.session.id));
                case.text(":");
                case.bytes(path.bytes());
            }
        }
        Err(fault) => case.number(u64::from(fault.number())),
    }
    case.text(" ");
    Some(snapshot.release())
}

/// Commits jobs one after another. After each the session learns the receipt and plans a restore.
fn plan_each<R: Wait>(
    rt: &R,
    case: &mut Case,
    keeper: &mut MemKeeper,
    session: Session,
    moment: u64,
    jobs: &[&str],
)
    requires { session.book ≡ keeper.old.list.book }
{
    let mut session = session;
    for job in jobs {
        let Some(learned) = learned(rt, case, keeper, session, job) else {
            return;
        };
        let Some(planned) = plan(case, learned, moment) else {
            return;
        };
        session = planned;
    }
}

/// Runs a call: makes a keeper over a catalogue without jobs, and prints what is planned after each
/// of the jobs is committed.
pub(crate) fn run<R: Wait>(rt: &R, case: &mut Case, moment: &str, jobs: &[&str]) {
    let alloc = case.alloc();
    let moment = case.u64_of(moment);
    let volumes = MemVolumes::new(MemStore::new(alloc), 0, 0);
    let catalogue = MemJobs::new(alloc);
    match Keeper::new(rt, alloc, catalogue, volumes, 1) {
        Ok((mut keeper, mut sessions)) => {
            if let Some(session) = sessions.pop() {
                plan_each(rt, case, &mut keeper, session, moment, jobs);
            }
            let _ = keeper.close(rt);
        }
        Err(fault) => case.refused(fault.number()),
    }
}
