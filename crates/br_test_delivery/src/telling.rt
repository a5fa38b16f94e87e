//! The reports of a running restore, the lines that pass a watched writer, why a file could not be
//! written or read, and what refusals mean.
use crate::files;
use br_bsr::write_bootstrap;
use br_cli_common::{
    Target, push_with_words, reason_of_file, reason_of_folder, reason_of_new_file, reason_of_read,
    refused_number,
};
use br_cli_progress::{
    Faults, Gauge, Log, Putting, Standing, WatchedWriter, push_key, seconds_left,
};
use br_test_support::Case;
use br_types::push_number;
use std::alloc::{AllocError, Global};
use std::io::{self, Write};

/// Appends the reason why a file could not be written into the folder `into` or read from it, or
/// why a folder or a new file with this name is refused.
fn push_reason(
    text: &mut Vec<u8>,
    rt: &HostRuntime,
    way: &str,
    name: &str,
    path: &[u8],
) -> io::Result<()> {
    let reason = match way {
        "file" => Some(reason_of_file(rt, "into", path)?),
        "read" => reason_of_read(rt, "into", path)?,
        "folder" => Some(reason_of_folder(rt, name)?),
        _ => Some(reason_of_new_file(rt, name)?),
    };
    match reason {
        Some(reason) => write!(text, "{reason}"),
        None => Ok(()),
    }
}

/// Appends the keys of the outcomes that are no files, each in a line.
fn push_keys(text: &mut Vec<u8>, alloc: Global, faults: &Faults) -> Result<(), AllocError> {
    for key in &faults.keys(alloc)? {
        push_key(text, *key)?;
        text.extend_from_slice(b"\n")?;
    }
    Ok(())
}

/// Writes lines in parts of this length.
fn write_parts(
    writer: &mut WatchedWriter<'_, '_, Vec<u8>>,
    len: usize,
    lines: &[u8],
) -> io::Result<()> {
    if len > 0 {
        for part in lines.chunks(len) {
            writer.write_all(part)?;
        }
    }
    Ok(())
}

/// Reports the outcomes that passed a writer. Appends the number of kept keys, the keys of the
/// outcomes that are no files, and the kept bootstrap.
fn push_passed(
    text: &mut Vec<u8>,
    alloc: Global,
    gauge: &Gauge<'_>,
    writer: &WatchedWriter<'_, '_, Vec<u8>>,
) -> io::Result<()> {
    gauge.note_taken(1, 0);
    gauge.tell_faults(writer.faults())?;
    gauge.tell_end()?;
    let keys = match writer.keys() {
        Some(keys) => keys.len(),
        None => 0,
    };
    push_number(text, keys as u64)?;
    text.extend_from_slice(b"\n")?;
    push_keys(text, alloc, writer.faults())?;
    if let Some(plan) = writer.plan() {
        text.extend_from_slice(&write_bootstrap(alloc, plan)?)?;
    }
    Ok(())
}

/// Writes lines, in parts of this length, to a watched writer with a log, and appends what passed.
fn pass(
    text: &mut Vec<u8>,
    rt: &HostRuntime,
    log: &str,
    len: usize,
    lines: &[u8],
) -> io::Result<()> {
    let gauge = Gauge::new(rt, "", Target::Nowhere, false).with_log(Some(Log::open(rt, log)?));
    let mut writer = WatchedWriter::new(Vec::new(rt.alloc()), &gauge);
    write_parts(&mut writer, len, lines)?;
    push_passed(text, rt.alloc(), &gauge, &writer)
}

/// Reads a number, if there is one.
fn number_of(case: &mut Case, field: &str) -> Option<u64> {
    if field == "-" {
        return None;
    }
    Some(case.u64_of(field))
}

/// Returns how far files are put.
fn putting_of(case: &mut Case, written: &str, bytes: &str, put: &str, files: &str) -> Putting {
    Putting {
        written: case.u64_of(written),
        bytes: case.u64_of(bytes),
        put: case.u64_of(put),
        files: case.u64_of(files),
    }
}

/// Appends what a step says of the progress of a restore.
fn push_progress(text: &mut Vec<u8>, case: &mut Case, step: &[&str]) -> io::Result<()> {
    match step {
        ["standing", read, to_read, left] => {
            let standing = Standing {
                read: case.u64_of(read),
                to_read: case.u64_of(to_read),
                put: None,
                left: number_of(case, left),
            };
            write!(text, "{standing}")
        }
        ["putting", written, bytes, put, files, left] => {
            let standing = Standing {
                read: 5,
                to_read: 4,
                put: Some(putting_of(case, written, bytes, put, files)),
                left: number_of(case, left),
            };
            write!(text, "{standing}")
        }
        ["work", written, bytes, put, files] => {
            let putting = putting_of(case, written, bytes, put, files);
            write!(text, "{:?}", putting.work(putting.put))
        }
        ["left", elapsed, done, all] => {
            let left = seconds_left(case.u64_of(elapsed), case.u64_of(done), case.u64_of(all));
            write!(text, "{left:?}")
        }
        _ => Err(io::ErrorKind::InvalidInput.into()),
    }
}

/// Runs a step. If its output is a text, prints the text.
pub(crate) fn run(case: &mut Case, rt: &HostRuntime, step: &[&str]) {
    let mut text = Vec::new(case.alloc());
    let is_made = match step {
        ["reason", way, path] => {
            let bytes = case.bytes_of(path);
            push_reason(&mut text, rt, way, path, &bytes).is_ok()
        }
        ["standing" | "putting" | "work" | "left", ..] => {
            push_progress(&mut text, case, step).is_ok()
        }
        ["pass", log, len, lines] => {
            let len = case.u64_of(len) as usize;
            let lines = case.text_of(lines);
            pass(&mut text, rt, log, len, &lines).is_ok()
        }
        ["with_words", lines] => {
            let lines = case.text_of(lines);
            push_with_words(&mut text, &lines).is_ok()
        }
        ["number", line] => {
            let line = case.text_of(line);
            write!(text, "{:?}", refused_number(&line)).is_ok()
        }
        _ => return files::run(case, rt, step),
    };
    if !is_made {
        case.fail("a text is not made");
    }
    case.lines(&text);
}
