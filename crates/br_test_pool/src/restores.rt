//! Restores by a bootstrap, with limited room for data.
ghost use Rattle.br_pool.specs.Pool.{AreDrives};

use crate::drives::{Turned, are_drives, drives_of};
use crate::pools::push_line;
use crate::shelf::Shelf;
use br_engine::{Budget, ExtractFault, Extracted, Restore, RestoreEnd, run_extract};
use br_fs::{Kind, MemMaker};
use br_sink::{MemSink, Sink};
use br_sink_folder::FolderSink;
use br_test_support::Case;
use std::sync::Wait;
use std::thread::Threads;

/// The folder into which files are put.
const FOLDER: &str = "/into";

/// The paths that files may have there.
const PATHS: [&str; 3] = ["/into/a", "/into/b", "/into/c"];

/// Prints the end of a restore, or its refusal.
fn push_end(case: &mut Case, run: &Result<Extracted, ExtractFault>) {
    let mut line = Vec::new(case.alloc());
    let done = match run {
        Ok(done) => done.end.push_line(&mut line),
        Err(fault) => fault.push_line(&mut line),
    };
    case.done(done);
    match run {
        Ok(done) => push_name(case, &done.end),
        Err(_fault) => {}
    }
    push_line(case, &line);
}

/// Prints the name of an end.
fn push_name(case: &mut Case, end: &RestoreEnd) {
    match end {
        RestoreEnd::AllFiles => case.text("AllFiles "),
        RestoreEnd::SomeFaults => case.text("SomeFaults "),
        RestoreEnd::Stopped(stop) => {
            case.text("stopped after ");
            case.number(stop.done());
            case.text(" ");
        }
    }
}

/// Restores by a bootstrap, with room for this number of bytes of data. Prints the end, and the
/// manifest.
fn run_into<S: Sink + Drop>(
    case: &mut Case,
    threads: &(impl Threads + Wait + Sync),
    shelf: &Shelf,
    task: (u64, &[u8]),
    drives: Vec<Turned>,
    sink: Option<S>,
) -> Option<S>
    requires { AreDrives drives.items }
{
    let (room, text) = task;
    let budget = Budget {
        alloc: case.alloc(),
        room,
    };
    let mut restore = Restore {
        budget,
        drives,
        sink,
    };
    let mut reader = text;
    let mut manifest = Vec::new(case.alloc());
    let run = run_extract(threads, &mut restore, &mut reader, &mut manifest);
    push_end(case, &run);
    shelf.push_text(case, &manifest);
    restore.sink
}

/// Prints path and bytes of the files in memory.
fn push_items(case: &mut Case, shelf: &Shelf, sink: &MemSink) {
    for item in sink.items() {
        case.bytes(item.path.bytes());
        case.text(":");
        match item.bytes.to_vec(case.alloc()) {
            Ok(bytes) => shelf.push_text(case, &bytes),
            Err(_fault) => case.fail("out of memory"),
        }
    }
}

/// Makes a sink over an empty folder in memory.
fn folder_sink(case: &mut Case) -> Option<FolderSink<MemMaker>> {
    let mut maker = MemMaker::new(case.alloc());
    if maker.plant(FOLDER, Kind::Folder).is_err() {
        case.fail("there is no folder");
    }
    FolderSink::new(case.alloc(), maker, FOLDER).ok()
}

/// Prints path and bytes of the files in the folder.
fn push_files(case: &mut Case, shelf: &Shelf, maker: &MemMaker) {
    for path in PATHS {
        if let Some(bytes) = maker.bytes(path) {
            case.text(path);
            case.text(":");
            shelf.push_text(case, bytes);
        }
    }
}

/// Restores into a sink, and prints the files there.
fn restore(
    case: &mut Case,
    threads: &(impl Threads + Wait + Sync),
    shelf: &Shelf,
    task: (u64, &[u8]),
    drives: Vec<Turned>,
    sink: &str,
)
    requires { AreDrives drives.items }
{
    match sink {
        "memory" => {
            let sink = Some(MemSink::new(case.alloc()));
            if let Some(sink) = run_into(case, threads, shelf, task, drives, sink) {
                push_items(case, shelf, &sink);
            }
        }
        "folder" => {
            let sink = folder_sink(case);
            if let Some(sink) = run_into(case, threads, shelf, task, drives, sink) {
                push_files(case, shelf, &sink.into_maker());
            }
        }
        _ => {
            run_into(case, threads, shelf, task, drives, None::<MemSink>);
        }
    }
}

/// Restores by a bootstrap over drives, with room for this number of bytes of data or `all`, into
/// `memory`, a `folder` in memory, or no sink. Prints the end, the manifest, and the files there.
pub(crate) fn run(
    case: &mut Case,
    threads: &(impl Threads + Wait + Sync),
    shelf: &Shelf,
    k: u64,
    [room, sink, drives, text]: [&str; 4],
) {
    let room = if room == "all" {
        u64::MAX
    } else {
        case.u64_of(room)
    };
    let text = shelf.text_of(case, text);
    let drives = drives_of(case, shelf, k, drives);
    if are_drives(&drives) {
        restore(case, threads, shelf, (room, &text), drives, sink);
    }
}
