//! The command `explain`.
ghost use Rattle.std.specs.Prelude.{◌≡◌, flat_map, IfOk, OnOk};
ghost use Rattle.std.specs.Io.KnownBytes.{Appends};
ghost use Rattle.br_cli_common.specs.RefusalText.{refusal_text};
ghost use Rattle.br_cli.specs.Explaining.{number_status};

use br_cli_common::{
    BAD_COMMAND, CLEAN, Refusal, explain, push_refusals, refusals_below_50, refusals_from_50,
};
use br_sink::{Flush, show};
use std::alloc::Global;
use std::io;

/// Writes rows of the table and flushes them.
fn show_rows<W: Flush>(alloc: Global, writer: &mut W, rows: &[Refusal]) -> io::Result<()>
    ensures written { OnOk result (Appends (W.contents writer.old) (W.contents writer.new) (flat_map refusal_text rows.now)) }
    ensures flushed { OnOk result (W.is_flushed writer.new) }
{
    let mut text = Vec::new(alloc);
    push_refusals(&mut text, rows)?;
    show(writer, &text)?;
    Ok(())
}

/// Prints rows of the table to standard output.
fn print_rows<R: Print + AllocGlobal>(rt: &R, rows: &[Refusal]) -> io::Result<()> {
    show_rows(rt.alloc(), &mut io::writer(rt), rows)
}

/// Prints the meaning of all numbers. Returns the exit status.
pub fn explain_all<R: Print + AllocGlobal>(rt: &R) -> io::Result<u8>
    ensures { IfOk result (λ status. status ≡ 0) }
{
    print_rows(rt, refusals_below_50())?;
    print_rows(rt, refusals_from_50())?;
    Ok(CLEAN)
}

/// Prints the meaning of a number, or to standard error that it is no number of the table. Returns
/// the exit status, 2 in the second case.
pub fn explain_number<R: Print + Eprint + AllocGlobal>(rt: &R, number: u32) -> io::Result<u8>
    ensures { IfOk result (λ status. status ≡ number_status number) }
{
    let Some(refusal) = explain(number) else {
        eprintln!(rt; "brestore: {number} is not the number of a refusal or of an outcome")?;
        return Ok(BAD_COMMAND);
    };
    print_rows(rt, &[*refusal])?;
    Ok(CLEAN)
}
