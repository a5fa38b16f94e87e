//! The machine of restores and backups, on given events.
//!
//! An event is `commit:JOB`, `plan:MOMENT` for a restore of everything before a moment, or one of
//! the restore with a number: `claim:PLAN:PIECE`, `read:PLAN:PIECE:COMMITS`, `fail:PLAN:PIECE`,
//! `finish:PLAN:PIECE`, `take:PLAN:PLACE` and `deliver:PLAN`. A job is the text of its lines,
//! without the word `job`.

use crate::shelf::Shelf;
use crate::streams::push_manifest;
use br_core::{Event, Reply, World, prepared};
use br_history::{Draft, History, SavedJob, read_head};
use br_mark::Command;
use br_plan::Request;
use br_test_support::Case;
use br_types::Name;
use std::alloc::AllocError;
use std::thread::Threads;

/// Reads a job.
fn job_of(case: &mut Case, shelf: &Shelf, field: &str) -> Option<SavedJob> {
    let text = shelf.text_of(case, field);
    let mut lines = text.split(|byte| *byte == b'\n');
    let head = read_head(case.alloc(), lines.next()?).ok()?;
    let mut draft = Draft::new(case.alloc(), head);
    for line in lines {
        if draft.take(case.alloc(), line).is_err() {
            case.fail("a line of a job is refused");
        }
    }
    draft.end().ok()?
}

/// Makes the request for the state before a moment.
fn request_of(case: &Case, moment: u64) -> Option<Request> {
    Some(Request {
        client: Name::new(case.alloc(), b"c").ok()?,
        fileset: Name::new(case.alloc(), b"f").ok()?,
        moment,
    })
}

/// Makes the script that marks everything.
fn script(case: &mut Case) -> Option<Vec<Command>> {
    let mut script = Vec::new(case.alloc());
    let command = Command::read(case.alloc(), b"mark *").ok()?;
    case.done(script.push(command).map_err(AllocError::from));
    Some(script)
}

/// Reads a number; 0 if there is none.
fn number_of(case: &mut Case, word: Option<&str>) -> u64 {
    match word {
        Some(word) => case.u64_of(word),
        None => 0,
    }
}

/// Reads an event.
fn event_of(case: &mut Case, shelf: &Shelf, field: &str) -> Option<Event> {
    let (word, rest) = case.split(field, ':');
    if word == "commit" {
        return Some(Event::Commit(job_of(case, shelf, rest)?));
    }
    let mut words = rest.split(':');
    let plan = number_of(case, words.next());
    let place = number_of(case, words.next());
    let commits = number_of(case, words.next());
    let piece = u32::try_from(place).ok()?;
    Some(match word {
        "plan" => Event::Plan(request_of(case, plan)?, script(case)?),
        "claim" => Event::Claim { plan, piece },
        "read" => Event::Read {
            plan,
            piece,
            commits,
        },
        "fail" => Event::Fail { plan, piece },
        "finish" => Event::Finish { plan, piece },
        "take" => Event::Take { plan, place },
        "deliver" => Event::Deliver { plan },
        _ => return None,
    })
}

/// Reads events.
fn events_of(case: &mut Case, shelf: &Shelf, fields: &[&str]) -> Vec<Event> {
    let mut events = Vec::new(case.alloc());
    for field in fields {
        match event_of(case, shelf, field) {
            Some(event) => case.done(events.push(event).map_err(AllocError::from)),
            None => case.fail("a field is no event"),
        }
    }
    events
}

/// Prints a reply; for delivered files, their manifest.
fn push_reply(case: &mut Case, shelf: &Shelf, reply: &Reply) {
    match reply {
        Reply::Done => case.text("done "),
        Reply::Planned(number) => {
            case.text("planned ");
            case.number(*number);
            case.text(" ");
        }
        Reply::Refused(number) => {
            case.refused(*number);
            case.text(" ");
        }
        Reply::Delivered(files) => push_manifest(case, shelf, files),
    }
}

/// Takes the step of each event, and prints the replies.
fn step_by_step(case: &mut Case, threads: &(impl Threads + Sync), shelf: &Shelf, fields: &[&str]) {
    let mut world = World::new(case.alloc());
    for event in events_of(case, shelf, fields) {
        match world.step(threads, event) {
            Ok(reply) => push_reply(case, shelf, &reply),
            Err(fault) => push_reply(case, shelf, &Reply::Refused(fault.number())),
        }
    }
}

/// Runs over events, and prints the replies.
fn at_once(case: &mut Case, threads: &(impl Threads + Sync), shelf: &Shelf, fields: &[&str]) {
    let events = events_of(case, shelf, fields);
    match br_core::run(threads, case.alloc(), events) {
        Ok((_world, replies)) => {
            for reply in &replies {
                push_reply(case, shelf, reply);
            }
        }
        Err(_fault) => case.fail("out of memory"),
    }
}

/// Prints the last byte of each span of a job that is committed to a volume of this length, or the refusal.
fn commit(case: &mut Case, shelf: &Shelf, job: &str, volume: &str) {
    let (vol, len) = case.split(volume, ':');
    let len = case.u64_of(len);
    let (Some(vol), Some(job)) = (case.vol_of(vol), job_of(case, shelf, job)) else {
        return case.fail("a field is no job");
    };
    match prepared(
        case.alloc(),
        &History::new(case.alloc()),
        &[(vol, len)],
        &job,
    ) {
        Ok((rows, _blocks)) => {
            for span in rows.spans() {
                case.number(span.end);
                case.text(" ");
            }
        }
        Err(fault) => case.refused(fault.number()),
    }
}

/// Runs a call.
pub(crate) fn run(case: &mut Case, threads: &(impl Threads + Sync), shelf: &Shelf, call: &[&str]) {
    match call {
        ["steps", events @ ..] => step_by_step(case, threads, shelf, events),
        ["run", events @ ..] => at_once(case, threads, shelf, events),
        ["end", job, volume] => commit(case, shelf, job, volume),
        _ => case.fail("there is no such call"),
    }
}
