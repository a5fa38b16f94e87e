//! A reader that answers `help`, `dir` and some slips itself.
ghost use Rattle.std.specs.Prelude.{◌≤◌, length};

use crate::help_text::HELP;
use crate::local_command::{LocalCommand, asked_of, without_feed};
use crate::shown_names::{shown_text, typed};
use crate::working_folder::ConsoleFolder;
use br_choose::ChooseFault;
use br_cli_common::is_attended;
use br_mark::Command;
use br_plan::JobSelection;
use std::alloc::AllocError;
use std::io::{self, Read, Write};

/// The folder of the console, as far as it was followed.
#[derive(Drop)]
enum Way<'j> {
    /// The lines that lead there from `/`, before anybody asked for it.
    Noted(Vec<Command>),
    Followed(ConsoleFolder<'j>),
}

/// A reader of the lines of a console session. If an operator attends, it takes out the lines
/// `help` and `dir`, empty ones and those of other programs, and answers them on standard error; in
/// others it replaces escapes by the bytes that they stand for. A terminal gives one line to each read.
#[derive(Drop)]
pub struct Helped<'a, 'j, 'r, I> {
    rt: &'r HostRuntime,
    /// The jobs that the session is over.
    asked: &'a JobSelection<'j>,
    input: I,
    is_attended: bool,
    /// True if the next read begins a line.
    is_at_start: bool,
    way: Way<'j>,
}

/// Returns the reader, which answers `help` and `dir` if standard input and standard error are terminals.
pub fn with_help<'a, 'j, 'r, I: Read>(
    rt: &'r HostRuntime,
    asked: &'a JobSelection<'j>,
    input: I,
) -> Helped<'a, 'j, 'r, I> {
    Helped {
        rt,
        asked,
        input,
        is_attended: is_attended(rt),
        is_at_start: true,
        way: Way::Noted(Vec::new(rt.alloc())),
    }
}

impl<'j, I: Read> Helped<'_, 'j, '_, I> {
    /// Notes where a line leads, if it is a `cd`.
    fn note(&mut self, line: &[u8]) -> Result<(), AllocError> {
        let Ok(command) = Command::read(self.rt.alloc(), line) else {
            return Ok(());
        };
        if let Command::Cd(_) = &command {
            match &mut self.way {
                Way::Noted(commands) => commands.push(command)?,
                Way::Followed(place) => place.follow(&command),
            }
        }
        Ok(())
    }

    /// Returns where the noted lines lead.
    fn follow(&self, commands: &[Command]) -> Result<ConsoleFolder<'j>, ChooseFault> {
        let mut place = ConsoleFolder::new(self.rt.alloc(), self.asked)?;
        for command in commands {
            place.follow(command);
        }
        Ok(place)
    }

    /// Returns the lines of the names in the folder.
    fn list(&mut self) -> Result<Vec<u8>, ChooseFault> {
        if let Way::Noted(commands) = &self.way {
            let place = self.follow(commands)?;
            self.way = Way::Followed(place);
        }
        match &self.way {
            Way::Followed(place) => Ok(place.list()?),
            Way::Noted(_) => Ok(Vec::new(self.rt.alloc())),
        }
    }

    /// Prints names, those that are UTF-8 as they are.
    fn show(&self, names: &[u8]) -> io::Result<()> {
        let text = shown_text(self.rt.alloc(), names)?;
        self.rt.stderr().write_all(&text)
    }

    /// Answers a line if it is one for the terminal. Returns false if the line is for the console.
    fn answer(&mut self, line: &[u8]) -> io::Result<bool> {
        match asked_of(line) {
            LocalCommand::Help => self.rt.stderr().write_all(HELP)?,
            LocalCommand::Dir => match self.list() {
                Ok(text) => self.show(&text)?,
                Err(fault) => eprintln!(self.rt; "dir: {fault}")?,
            },
            LocalCommand::Nothing => {}
            LocalCommand::Exit => {
                eprintln!(self.rt;
                    "`quit` ends without a restore, `done` restores what is marked."
                )?
            }
            LocalCommand::LongList => eprintln!(self.rt; "`dir` lists with sizes and moments.")?,
            LocalCommand::Folder => {
                eprintln!(self.rt; "`cd /` goes to the top, `cd ..` up, `pwd` prints the folder.")?
            }
            LocalCommand::Other => {
                self.note(without_feed(line))?;
                return Ok(false);
            }
        }
        Ok(true)
    }

    /// Replaces the escapes of a line that was typed by the bytes that they stand for. Returns the
    /// length of the line then.
    fn read_escapes(&self, buf: &mut [u8], len: usize) -> usize
        requires { len ≤ length buf.old }
        ensures { result ≤ length buf.new }
    {
        let line = buf.get(..len).unwrap_or(&[]);
        if !self.is_at_start {
            return len;
        }
        let Some(bytes) = typed(self.rt.alloc(), line) else {
            return len;
        };
        match buf.get_mut(..bytes.len()) {
            Some(place) => {
                place.copy_from_slice(&bytes);
                bytes.len()
            }
            None => len,
        }
    }

    /// Takes what was read. Returns true if it was a line that is answered here.
    fn take(&mut self, text: &[u8]) -> io::Result<bool> {
        if !self.is_at_start {
            self.is_at_start = text.ends_with(b"\n");
            return Ok(false);
        }
        let is_answered = self.answer(text)?;
        self.is_at_start = is_answered || text.ends_with(b"\n");
        Ok(is_answered)
    }
}

impl<I: Read> Read for Helped<'_, '_, '_, I> {
    fn read(&mut self, buf: &mut [u8]) -> io::Result<usize> {
        for _ in 0..u64::MAX {
            let len = self.input.read(buf)?;
            if len == 0 || !self.is_attended {
                return Ok(len);
            }
            let len = self.read_escapes(buf, len);
            if !self.take(buf.get(..len).unwrap_or(&[]))? {
                return Ok(len);
            }
        }
        Ok(0)
    }
}
