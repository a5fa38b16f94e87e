//! Steps with a sink in memory that fails at a put, or outcomes that are put into a folder in
//! memory whose calls fail; and a manifest. A step is `put:FILE`, `all:OUTCOMES`, which are put in
//! one call, or `deliver:OUTCOMES`.

use crate::items::{item_of, outcomes_of};
use br_fs::{FileMaker, Kind, MemMaker};
use br_sink::{MemSink, Report, Sink, SinkStop, deliver, manifest, totals};
use br_sink_folder::FolderSink;
use br_test_support::Case;
use std::io::Write;
use std::thread::Threads;

/// Prints `all`, or the number of a stop and the number of files before it.
fn push_end(case: &mut Case, end: &Result<(), SinkStop>) {
    match end {
        Ok(()) => case.text("all "),
        Err(stop) => {
            case.refused(stop.number());
            case.text(" after ");
            case.number(stop.done());
            case.text(" ");
        }
    }
}

/// Prints the numbers of files, faults and skipped records.
fn push_report(case: &mut Case, report: Report) {
    let Report {
        files,
        faults,
        skipped,
    } = report;
    if write!(case.out(), "{files} {faults} {skipped} ").is_err() {
        case.fail("out of memory");
    }
}

/// Prints the manifest of outcomes, whose indexes begin with 1, and their totals.
pub(crate) fn whole_manifest(case: &mut Case, call: &[&str]) {
    let [outcomes] = call else {
        return case.fail("a call has another number of fields");
    };
    let outcomes = outcomes_of(case, outcomes);
    match manifest(case.alloc(), &outcomes) {
        Ok(text) => case.lines(&text),
        Err(_fault) => case.fail("out of memory"),
    }
    push_report(case, totals(&outcomes));
}

/// Puts a file. Prints the number of the refusal; 0 if it is put.
fn push_put(case: &mut Case, sink: &mut MemSink, field: &str) {
    if let Some(item) = item_of(case, field) {
        match sink.put(&item) {
            Ok(()) => case.text("0 "),
            Err(fault) => case.numbers(&[i64::from(fault.number())]),
        }
    }
}

/// Puts outcomes in one call, and prints the result.
fn push_all(
    case: &mut Case,
    threads: &(impl Threads + Sync),
    sink: &mut impl Sink,
    outcomes: &str,
) {
    let outcomes = outcomes_of(case, outcomes);
    push_end(case, &sink.put_all(threads, &outcomes));
}

/// Delivers outcomes. Prints the totals, or the stop.
fn push_delivered(
    case: &mut Case,
    threads: &(impl Threads + Sync),
    sink: &mut MemSink,
    outcomes: &str,
) {
    let outcomes = outcomes_of(case, outcomes);
    match deliver(threads, case.alloc(), &outcomes, sink) {
        Ok(report) => push_report(case, report),
        Err(stop) => push_end(case, &Err(stop)),
    }
}

/// Takes steps with a sink.
fn take_steps(
    case: &mut Case,
    threads: &(impl Threads + Sync),
    sink: &mut MemSink,
    steps: &[&str],
) {
    for step in steps {
        let (name, field) = case.split(step, ':');
        match name {
            "put" => push_put(case, sink, field),
            "all" => push_all(case, threads, sink, field),
            "deliver" => push_delivered(case, threads, sink, field),
            _ => case.fail("there is no such step"),
        }
    }
}

/// Takes steps with a sink in memory that fails at its `k`-th put; `-` for one that never does.
/// Prints also its files.
pub(crate) fn memory(case: &mut Case, threads: &(impl Threads + Sync), call: &[&str]) {
    let [k, steps @ ..] = call else {
        return case.fail("a call has another number of fields");
    };
    let mut sink = match *k {
        "-" => MemSink::new(case.alloc()),
        k => MemSink::failing_at(case.alloc(), case.u64_of(k)),
    };
    take_steps(case, threads, &mut sink, steps);
    for item in sink.items() {
        case.bytes(item.path.bytes());
        case.text(":");
        case.made(item.bytes.to_vec(case.alloc()));
        case.text(" ");
    }
}

/// Makes a maker with the empty folder /into. Its calls fail after this number of them.
fn maker_of(case: &mut Case, calls: &str) -> MemMaker {
    let mut maker = MemMaker::new(case.alloc());
    if maker.plant("/into", Kind::Folder).is_err() {
        case.fail("there is no folder");
    }
    maker.fail_after(case.u64_of(calls));
    maker
}

/// Prints what is at a path: the bytes of a file, `part` of one that was not finished, or `none`.
/// No call fails afterwards.
fn push_at(case: &mut Case, maker: &mut MemMaker, path: &str) {
    maker.fail_after(u64::MAX);
    match maker.look(path) {
        Ok(_) => match maker.bytes(path) {
            Some(bytes) => case.bytes(bytes),
            None => case.text("part"),
        },
        Err(_fault) => case.text("none"),
    }
    case.text(" ");
}

/// Puts outcomes into a folder. Prints also what is then at paths.
pub(crate) fn folder(case: &mut Case, threads: &(impl Threads + Sync), call: &[&str]) {
    let [calls, paths, outcomes] = call else {
        return case.fail("a call has another number of fields");
    };
    let maker = maker_of(case, calls);
    match FolderSink::new(case.alloc(), maker, "/into") {
        Ok(sink) => {
            let mut sink = sink;
            push_all(case, threads, &mut sink, outcomes);
            let mut maker = sink.into_maker();
            for path in paths.split(';') {
                push_at(case, &mut maker, path);
            }
        }
        Err(fault) => case.refused(fault.number()),
    }
}
