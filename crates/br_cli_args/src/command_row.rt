//! A command, as a row and in clap's form.
ghost use Rattle.std.specs.Prelude.{◌≡◌, false, IfOk};
ghost use Rattle.clap.specs.Words.{app_of};
ghost use Rattle.clap.specs.declared.builder.command.Command.TheViews.{out-Command as fields_of};
ghost use Rattle.br_cli_args.specs.CommandRows.{app_of_row, with_commands_of};

use crate::option_row::{OptionRow, with_options};
use clap::Command;
use std::alloc::{AllocError, Global};

/// A command with its options: its own, those of every restore, and those for the further wishes of
/// a restore.
#[derive(Clone, Copy)]
pub(crate) struct CommandRow {
    pub(crate) name: &'static str,
    pub(crate) about: &'static str,
    pub(crate) own: &'static [OptionRow],
    pub(crate) restoring: &'static [OptionRow],
    pub(crate) choices: &'static [OptionRow],
}

/// Returns the command of a row.
fn command_of<'a>(alloc: Global, row: &CommandRow) -> Result<Command<'a>, AllocError>
    ensures app { IfOk result (λ command. app_of command ≡ app_of_row row.now) }
    ensures local { IfOk result (λ command. (fields_of command).has_globals ≡ false) }
{
    let command = Command::new(alloc, row.name).about(row.about);
    let own = with_options(alloc, command, row.own)?;
    let restoring = with_options(alloc, own, row.restoring)?;
    with_options(alloc, restoring, row.choices)
}

/// Returns the command of the row with this name, if there is one. In its usage it is one of the
/// program.
pub(crate) fn command_named<'a>(
    alloc: Global,
    rows: &[CommandRow],
    name: &str,
) -> Result<Option<Command<'a>>, AllocError> {
    for row in rows {
        if row.name == name {
            let full = format!(in alloc; "brestore {name}")?;
            let command = command_of(alloc, row)?;
            return Ok(Some(command.bin_name(full.as_str())?));
        }
    }
    Ok(None)
}

/// Returns the program with the commands of these rows added.
pub(crate) fn with_commands<'a>(
    alloc: Global,
    program: Command<'a>,
    rows: &[CommandRow],
) -> Result<Command<'a>, AllocError>
    requires { (fields_of program).has_globals ≡ false }
    ensures app { IfOk result (λ r. app_of r ≡ with_commands_of rows.now (app_of program.entry)) }
{
    let mut longer = program;
    for row in rows {
        let command = command_of(alloc, row)?;
        longer = longer.subcommand(command)?;
    }
    Ok(longer)
}
