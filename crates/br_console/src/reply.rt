ghost use Rattle.std.specs.Prelude.{◌≡◌, is_err, IfOk, OnOk};
ghost use Rattle.br_model.specs.Console.{said, written, answer_of, after_answer, ends, ends_done};
ghost use Rattle.br_mark.specs.Fault.{cause, fault_number};
ghost use Rattle.br_console.specs.Talking.{replied};

use br_engine::push_refused_line;
use br_mark::{Answer, Command, Console, MarkFault};
use std::alloc::{AllocError, Global};

/// A console's reply to a line.
#[derive(Drop)]
pub(crate) enum ConsoleReply {
    /// Lines to print, each with its line feed.
    Text(Vec<u8>),
    /// The number of a refusal: 55, 56 or 57.
    Refused(u32),
    Done,
    Quit,
}

impl ConsoleReply {
    /// Returns true if the line was refused.
    pub(crate) fn is_refused(&self) -> bool
        ensures { result ≡ is_err (replied self.now) }
    {
        matches!(self, ConsoleReply::Refused(_))
    }

    /// Returns true if the dialogue ends here.
    pub(crate) fn ends(&self) -> bool
        ensures { result ≡ ends (replied self.now) }
    {
        matches!(self, ConsoleReply::Done | ConsoleReply::Quit)
    }

    /// Returns true if the dialogue ends here with `done`.
    pub(crate) fn ends_done(&self) -> bool
        ensures { result ≡ ends_done (replied self.now) }
    {
        matches!(self, ConsoleReply::Done)
    }

    /// Returns what is written for the reply.
    pub(crate) fn into_text(self, alloc: Global) -> Result<Vec<u8>, AllocError>
        ensures { IfOk result (λ text. text.items ≡ written (replied self)) }
    {
        match self {
            ConsoleReply::Text(text) => Ok(text),
            ConsoleReply::Refused(number) => {
                let mut text = Vec::new(alloc);
                push_refused_line(&mut text, number)?;
                Ok(text)
            }
            ConsoleReply::Done | ConsoleReply::Quit => Ok(Vec::new(alloc)),
        }
    }
}

/// Returns the reply to a refused line.
fn refused(fault: MarkFault) -> Result<ConsoleReply, AllocError>
    ensures known { IfOk result (λ reply. cause fault ≡ Some (fault_number fault)) }
    ensures reply { IfOk result (λ reply. replied reply ≡ Err (fault_number fault)) }
{
    match fault {
        MarkFault::Memory => Err(AllocError),
        _ => Ok(ConsoleReply::Refused(fault.number())),
    }
}

/// Gives a line to the console. Returns its reply.
pub(crate) fn say(
    alloc: Global,
    console: &mut Console<'_>,
    line: &[u8],
) -> Result<ConsoleReply, AllocError>
    ensures reply { IfOk result (λ reply. replied reply ≡ answer_of (said console.old.view console.old.state line.now)) }
    ensures state { OnOk result (console.new.state ≡ after_answer console.old.state (said console.old.view console.old.state line.now)) }
    ensures view { console.new.view ≡ console.old.view }
{
    let command = match Command::read(alloc, line) {
        Ok(command) => command,
        Err(fault) => return refused(fault),
    };
    match console.apply(&command) {
        Ok(Answer::Text(text)) => Ok(ConsoleReply::Text(text)),
        Ok(Answer::Done) => Ok(ConsoleReply::Done),
        Ok(Answer::Quit) => Ok(ConsoleReply::Quit),
        Err(fault) => refused(fault),
    }
}
