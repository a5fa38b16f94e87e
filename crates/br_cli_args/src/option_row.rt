//! An option of a command, as a row and in clap's form.
ghost use Rattle.std.specs.Prelude.{◌≡◌, false, fold, IfOk};
ghost use Rattle.clap.specs.Simple.{with_rule};
ghost use Rattle.clap.specs.Words.{app_of, rule_of};
ghost use Rattle.clap.specs.declared.builder.command.Command.TheViews.{out-Command as fields_of};
ghost use Rattle.br_cli_args.specs.ClapCommands.{drives_rule, flag_rule, number_rule, value_rule, values_rule};
ghost use Rattle.br_cli_args.specs.CommandRows.{rule_of_row, with_rows};

use clap::builder::ValueParser;
use clap::{Arg, ArgAction, Command};
use std::alloc::{AllocError, Global};

/// The greatest number that `explain` accepts.
const GREATEST_NUMBER: u64 = 4_294_967_295;

/// The kind of value of an option.
#[derive(Clone, Copy)]
pub(crate) enum ValueKind {
    /// No value.
    Nothing,
    /// A value that is not empty. The option may be omitted.
    Value,
    /// A value that is not empty. The option is required.
    Needed,
    /// The number of drives, 1 to 16; 1 if the option is omitted.
    OneDrive,
    /// The number of drives, 1 to 16; 4 if the option is omitted.
    FourDrives,
    /// The size of the memory for data; 1 GiB if the option is omitted.
    Memory,
    /// The number to explain, without a name before it. It may be omitted.
    Number,
    /// Any number of values that are not empty, without a name before them.
    Several,
}

/// An option of a command.
#[derive(Clone, Copy)]
pub(crate) struct OptionRow {
    pub(crate) name: &'static str,
    /// The word for the value in the help.
    pub(crate) value: &'static str,
    pub(crate) takes: ValueKind,
    pub(crate) help: &'static str,
}

/// Returns an option `--name VALUE`, whose value may not be empty.
fn value_option<'a>(alloc: Global, row: &OptionRow, is_required: bool) -> Arg<'a>
    ensures rule { rule_of result ≡ value_rule row.now.name.now is_required }
    ensures local { result.global ≡ false }
{
    Arg::new(alloc, row.name)
        .long(row.name)
        .value_name(row.value)
        .value_parser(ValueParser::NonEmptyString)
        .action(ArgAction::Set)
        .required(is_required)
        .help(row.help)
}

/// Returns an option `--name` without a value.
fn flag_option<'a>(alloc: Global, row: &OptionRow) -> Arg<'a>
    ensures rule { rule_of result ≡ flag_rule row.now.name.now }
    ensures local { result.global ≡ false }
{
    Arg::new(alloc, row.name)
        .long(row.name)
        .action(ArgAction::SetTrue)
        .help(row.help)
}

/// Returns the option for the number of drives, which is the default if it is omitted.
fn drives_option<'a>(alloc: Global, row: &OptionRow, default: &'static str) -> Arg<'a>
    ensures rule { rule_of result ≡ drives_rule default.now row.now.name.now }
    ensures local { result.global ≡ false }
{
    Arg::new(alloc, row.name)
        .long(row.name)
        .value_name(row.value)
        .value_parser(ValueParser::Unsigned(1, 16))
        .action(ArgAction::Set)
        .default_value(default)
        .help(row.help)
}

/// Returns the argument for the number to explain.
fn number_argument<'a>(alloc: Global, row: &OptionRow) -> Arg<'a>
    ensures rule { rule_of result ≡ number_rule row.now.name.now }
    ensures local { result.global ≡ false }
{
    Arg::new(alloc, row.name)
        .value_name(row.value)
        .value_parser(ValueParser::Unsigned(0, GREATEST_NUMBER))
        .action(ArgAction::Set)
        .help(row.help)
}

/// Returns the argument for any number of values.
fn values_argument<'a>(alloc: Global, row: &OptionRow) -> Arg<'a>
    ensures rule { rule_of result ≡ values_rule row.now.name.now }
    ensures local { result.global ≡ false }
{
    Arg::new(alloc, row.name)
        .value_name(row.value)
        .value_parser(ValueParser::NonEmptyString)
        .action(ArgAction::Append)
        .help(row.help)
}

/// Returns the option of a row.
#[tactic(auto, unfolding(crate::specs::CommandRows::rule_of_row))]
fn option_of<'a>(alloc: Global, row: &OptionRow) -> Arg<'a>
    ensures rule { rule_of result ≡ rule_of_row row.now }
    ensures local { result.global ≡ false }
{
    match row.takes {
        ValueKind::Nothing => flag_option(alloc, row),
        ValueKind::Value => value_option(alloc, row, false),
        ValueKind::Needed => value_option(alloc, row, true),
        ValueKind::OneDrive => drives_option(alloc, row, "1"),
        ValueKind::FourDrives => drives_option(alloc, row, "4"),
        ValueKind::Memory => value_option(alloc, row, false).default_value("1G"),
        ValueKind::Number => number_argument(alloc, row),
        ValueKind::Several => values_argument(alloc, row),
    }
}

/// Returns the command with the options of these rows added.
pub(crate) fn with_options<'a>(
    alloc: Global,
    command: Command<'a>,
    rows: &[OptionRow],
) -> Result<Command<'a>, AllocError>
    requires { (fields_of command).has_globals ≡ false }
    ensures app { IfOk result (λ r. app_of r ≡ with_rows rows.now (app_of command.entry)) }
    ensures local { IfOk result (λ r. (fields_of r).has_globals ≡ false) }
{
    let mut longer = command;
    for row in rows {
        longer = longer.arg(option_of(alloc, row))?;
    }
    Ok(longer)
}
