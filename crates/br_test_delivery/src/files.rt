//! Files and folders: steps that make them, and steps that print what is in them.
use br_test_support::Case;
use std::fs;
use std::os::unix::fs::symlink;

/// Prints each line of a file that does not begin with two blanks.
fn push_lines(case: &mut Case, rt: &HostRuntime, name: &str) {
    match fs::read(rt, name) {
        Ok(bytes) => {
            for line in bytes.split(|byte| *byte == b'\n') {
                if !line.starts_with(b"  ") {
                    case.lines(line);
                }
            }
        }
        Err(_fault) => case.text("none "),
    }
}

/// Prints the number of entries of a folder, or `none`.
fn push_count(case: &mut Case, rt: &HostRuntime, name: &str) {
    match fs::read_dir(rt, name) {
        Ok(entries) => {
            case.number(entries.count() as u64);
            case.text(" ");
        }
        Err(_fault) => case.text("none "),
    }
}

/// Runs a step.
pub(crate) fn run(case: &mut Case, rt: &HostRuntime, step: &[&str]) {
    let made = match step {
        ["folder", name] => fs::create_dir(rt, *name),
        ["remove", name] => fs::remove_dir_all(rt, *name),
        ["link", name, to] => symlink(rt, *to, *name),
        ["text", name, text] => {
            let text = case.text_of(text);
            fs::write(rt, *name, &text)
        }
        ["lines", name] => {
            push_lines(case, rt, name);
            Ok(())
        }
        ["count", name] => {
            push_count(case, rt, name);
            Ok(())
        }
        _ => {
            case.fail("there is no such step");
            Ok(())
        }
    };
    if made.is_err() {
        case.fail("a file or folder is not made");
    }
}
