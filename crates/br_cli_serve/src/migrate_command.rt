//! The command `migrate`.
ghost use Rattle.std.specs.Prelude.{[], ◌≡◌, ◌++◌, IfOk, OnOk};
ghost use Rattle.std.specs.Io.KnownBytes.{Appends};
ghost use Rattle.br_cli_serve.specs.MemoryScriptEnding.{IsStatus};
ghost use Rattle.br_cli_serve.specs.Migrating.{migrated_line, migrated_status};

use br_cli_common::{CLEAN, refuse_start};
use br_keeper::{Catalogue, CatalogueFault};
use br_sink::{Flush, show};
use br_types::push_number;
use std::alloc::AllocError;
use std::{fs, io};

/// The word of the line `migrated N`, a blank, the digits of a number below 2 ^ 64, and the end of the line.
const MOST_BYTES: usize = 30;

/// Appends the line `migrated N`.
fn push_migrated(text: &mut Vec<u8>, jobs: u64) -> Result<(), AllocError>
    ensures { OnOk result (text.new.items ≡ text.old.items ++ migrated_line jobs) }
{
    text.extend_from_slice(b"migrated ")?;
    push_number(text, jobs)?;
    text.push(b'\n')?;
    Ok(())
}

/// Writes the line `migrated N` and flushes it. The text, which is empty, has room for it.
fn show_migrated<W: Flush>(mut text: Vec<u8>, writer: &mut W, jobs: u64) -> io::Result<()>
    requires empty { text.items ≡ [] }
    ensures written { OnOk result (Appends (W.contents writer.old) (W.contents writer.new) (migrated_line jobs)) }
    ensures flushed { OnOk result (W.is_flushed writer.new) }
{
    push_migrated(&mut text, jobs)?;
    show(writer, &text)
}

/// Changes the catalogue of version 1 in a file to version 2, if the file exists. Returns the
/// number of its jobs.
fn migrate_file<C: Catalogue>(
    rt: &HostRuntime,
    catalogue: &C,
    db: &str,
) -> Result<u64, CatalogueFault> {
    // A file that does not exist would be made.
    if fs::metadata(rt, db).is_err() {
        return Err(CatalogueFault::Unreadable);
    }
    catalogue.migrate(db)
}

/// Prints the line of a catalogue that was migrated, or its refusal to standard error. Returns the
/// exit status. The text, which is empty, has room for the line.
fn end_migration(
    rt: &HostRuntime,
    text: Vec<u8>,
    migrated: Result<u64, CatalogueFault>,
) -> io::Result<u8>
    requires empty { text.items ≡ [] }
    ensures known { IfOk result IsStatus }
    ensures status { IfOk result (λ status. status ≡ migrated_status migrated) }
{
    match migrated {
        Ok(jobs) => {
            show_migrated(text, &mut io::writer(rt), jobs)?;
            Ok(CLEAN)
        }
        Err(fault) => refuse_start(rt, fault.number()),
    }
}

/// Changes the catalogue of version 1 in a file to version 2, and prints `migrated N`, the number
/// of its jobs. A refusal (45, 47) goes to standard error. Returns the exit status, 1 if there was
/// a refusal.
///
/// # Errors
///
/// If memory ran out, or a stream failed.
pub fn migrate_catalogue<C: Catalogue>(rt: &HostRuntime, catalogue: &C, db: &str) -> io::Result<u8>
    ensures status { IfOk result IsStatus }
{
    // Memory for the line is taken first, so that nothing is refused after the file was migrated.
    let text = Vec::with_capacity(rt.alloc(), MOST_BYTES)?;
    end_migration(rt, text, migrate_file(rt, catalogue, db))
}
