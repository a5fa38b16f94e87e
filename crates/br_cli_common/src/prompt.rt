//! A prompt before each line that is read from a terminal.

use std::io::{self, IsTerminal, Read};

/// Returns true if standard input and standard error are terminals.
pub fn is_attended(rt: &HostRuntime) -> bool {
    rt.stdin().is_terminal() && rt.stderr().is_terminal()
}

/// Prints a line to standard error, if that and standard input are terminals.
pub fn greet(rt: &HostRuntime, line: &str) -> io::Result<()> {
    if is_attended(rt) {
        eprintln!(rt; "{line}")?;
    }
    Ok(())
}

/// A reader that prints a prompt to standard error before each read, if an operator attends. A
/// terminal gives one line to each read.
#[derive(Drop)]
pub struct Prompted<'r, I> {
    rt: &'r HostRuntime,
    input: I,
    is_attended: bool,
    /// The line that is printed before the first prompt.
    greeting: Option<&'static str>,
}

impl<I: Read> Read for Prompted<'_, I> {
    fn read(&mut self, buf: &mut [u8]) -> io::Result<usize> {
        if self.is_attended {
            if let Some(greeting) = self.greeting.take() {
                eprintln!(self.rt; "{greeting}")?;
            }
            eprint!(self.rt; "$ ")?;
        }
        self.input.read(buf)
    }
}

/// Returns the reader with prompts and with a line before the first one, if standard input and standard error
/// are terminals.
pub fn with_prompt<'r, I: Read>(
    rt: &'r HostRuntime,
    greeting: &'static str,
    input: I,
) -> Prompted<'r, I> {
    Prompted {
        rt,
        input,
        is_attended: is_attended(rt),
        greeting: Some(greeting),
    }
}
