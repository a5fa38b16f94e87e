//! Files of the system.

use crate::shown::shown;
use br_fs::{DiskFault, FileMaker, HostDisk, clear_path, enter_folder, put_file};
use br_test_support::Case;
use std::os::unix::fs::{PermissionsExt, symlink};
use std::{fs, io};

/// Takes a step through the trait, and prints the result.
fn make<M: FileMaker>(case: &mut Case, maker: &mut M, word: &str, path: &str, bytes: &[u8]) {
    match word {
        "look" => shown(case, &maker.look(path)),
        "empty" => shown(case, &maker.is_empty(path)),
        "enter" => shown(case, &enter_folder(maker, path)),
        "clear" => shown(case, &clear_path(maker, path)),
        "put" => shown(case, &put_file(maker, path, bytes)),
        "folder" => shown(case, &maker.make_folder(path)),
        "file" => {
            let made: Result<(), DiskFault> = match maker.make_file(path) {
                Ok(_file) => Ok(()),
                Err(fault) => Err(fault),
            };
            shown(case, &made);
        }
        _ => shown(case, &maker.remove(path)),
    }
}

/// Makes a link to a path, removes a folder with everything in it, or prints the permissions or the
/// bytes of a file, without a maker.
fn ask(rt: &HostRuntime, case: &mut Case, word: &str, path: &str, target: &str) -> io::Result<()> {
    match word {
        "link" => symlink(rt, target, path),
        "gone" => fs::remove_dir_all(rt, path),
        "mode" => {
            let mode = fs::metadata(rt, path)?.permissions().mode() % 512;
            shown(case, &(mode / 64 * 100 + mode % 64 / 8 * 10 + mode % 8));
            Ok(())
        }
        _ => {
            case.bytes(&fs::read(rt, path)?);
            case.text(" ");
            Ok(())
        }
    }
}

/// Takes the step `WORD:PATH` or `WORD:PATH:TEXT`.
fn step(rt: &HostRuntime, case: &mut Case, field: &str) {
    let (word, rest) = case.split(field, ':');
    let (path, text) = rest.split_once(':').unwrap_or((rest, "-"));
    if matches!(word, "link" | "gone" | "mode" | "read") {
        if ask(rt, case, word, path, text).is_err() {
            case.fail("the system refused a step");
        }
        return;
    }
    let bytes = case.bytes_of(text);
    let mut maker = HostDisk::new(case.alloc(), rt);
    make(case, &mut maker, word, path, &bytes);
}

/// Takes steps one after another.
pub(crate) fn run(rt: &HostRuntime, case: &mut Case, steps: &[&str]) {
    for field in steps {
        step(rt, case, field);
    }
}
