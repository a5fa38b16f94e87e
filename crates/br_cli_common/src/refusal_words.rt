//! Explanations of a refusal at a terminal.

use crate::refusal_lines::{push_words, refused_number};
use std::io::{self, IsTerminal, Write};

/// Returns true if standard error is a terminal.
pub fn is_shown(rt: &HostRuntime) -> bool {
    rt.stderr().is_terminal()
}

/// Prints to standard error what the refusal with this number means and what to do next, if that is
/// a terminal.
pub fn tell_refusal(rt: &HostRuntime, number: u32) -> io::Result<()> {
    if !is_shown(rt) {
        return Ok(());
    }
    let mut text = Vec::new(rt.alloc());
    push_words(&mut text, number)?;
    rt.stderr().write_all(&text)
}

/// Prints lines to standard error, if that is a terminal.
pub fn show_lines(rt: &HostRuntime, lines: &[u8]) -> io::Result<()> {
    if !is_shown(rt) {
        return Ok(());
    }
    rt.stderr().write_all(lines)
}

/// Prints to standard error, for each line `refused N` of a text, what it means and what to do
/// next, if that is a terminal.
pub fn tell_refusals(rt: &HostRuntime, text: &[u8]) -> io::Result<()> {
    for line in text.split(|byte| *byte == b'\n') {
        if let Some(number) = refused_number(line) {
            tell_refusal(rt, number)?;
        }
    }
    Ok(())
}
