//! The table of the commands, and the program that has them.
ghost use Rattle.std.specs.Prelude.{◌≡◌, false, IfOk};
ghost use Rattle.clap.specs.Values.{kind_of};
ghost use Rattle.clap.specs.Words.{app_of};
ghost use Rattle.clap.specs.declared.builder.command.Command.TheViews.{out-Command as fields_of};
ghost use Rattle.br_cli_args.specs.ClapCommands.{program_app, with_all_commands};

use crate::command_row::{CommandRow, command_named, with_commands};
use crate::option_row::{OptionRow, ValueKind};
use clap::error::ErrorKind;
use clap::{Command, Error};
use std::alloc::{AllocError, Global};

/// The option for the bootstrap.
const BSR: OptionRow = OptionRow {
    name: "bsr",
    value: "FILE",
    takes: ValueKind::Needed,
    help: "The file of the bootstrap, - for standard input",
};

/// The option for the volumes.
const VOLUMES: OptionRow = OptionRow {
    name: "volumes",
    value: "DIR",
    takes: ValueKind::Needed,
    help: "The folder of the volumes",
};

/// The option for the catalogue.
const DB: OptionRow = OptionRow {
    name: "db",
    value: "FILE",
    takes: ValueKind::Needed,
    help: "The file of the catalogue",
};

/// The option for the memory.
const MEMORY: OptionRow = OptionRow {
    name: "memory",
    value: "SIZE",
    takes: ValueKind::Memory,
    help: "The memory for data: bytes, or a number with K, M, G or T; what is beyond it is read again",
};

/// The option for the rows of the catalogue that are looked at.
const VERIFY_CATALOGUE: OptionRow = OptionRow {
    name: "verify-catalogue",
    value: "",
    takes: ValueKind::Nothing,
    help: "Checks all rows of files in the catalogue, and not only those of the jobs that are needed",
};

/// The option for the folder of the restored files.
const INTO: OptionRow = OptionRow {
    name: "into",
    value: "DIR",
    takes: ValueKind::Value,
    help: "The empty folder to write the restored files into",
};

/// The option for the tar stream of the restored files.
const TAR: OptionRow = OptionRow {
    name: "tar",
    value: "FILE",
    takes: ValueKind::Value,
    help: "The new file to write the restored files into as a tar stream, - for standard output",
};

/// The option to sync what is written.
const SYNC: OptionRow = OptionRow {
    name: "sync",
    value: "",
    takes: ValueKind::Nothing,
    help: "Syncs the files and folders that it makes, so that they outlast a loss of power",
};

/// The option to show no progress.
const QUIET: OptionRow = OptionRow {
    name: "quiet",
    value: "",
    takes: ValueKind::Nothing,
    help: "Does not show at a terminal how far the restore is",
};

/// The option for the log.
const LOG: OptionRow = OptionRow {
    name: "log",
    value: "FILE",
    takes: ValueKind::Value,
    help: "The file to append a log to, - for standard error: each file as it is written, and what went wrong",
};

/// The options of every restore.
const RESTORING: [OptionRow; 7] = [
    INTO,
    TAR,
    OptionRow {
        name: "drives",
        value: "N",
        takes: ValueKind::OneDrive,
        help: "The number of drives that read the volumes at once, 1 to 16",
    },
    MEMORY,
    SYNC,
    QUIET,
    LOG,
];

/// The option to report missing files.
const COMPLETE: OptionRow = OptionRow {
    name: "complete",
    value: "",
    takes: ValueKind::Nothing,
    help: "Reports the files that the bootstrap asks for and that are not there",
};

/// The option to leave out files that can't be written.
const KEEP_GOING: OptionRow = OptionRow {
    name: "keep-going",
    value: "",
    takes: ValueKind::Nothing,
    help: "Leaves out a file that can't be written, and writes the others",
};

/// The option to go on with a restore.
const RESUME: OptionRow = OptionRow {
    name: "resume",
    value: "",
    takes: ValueKind::Nothing,
    help: "Goes on with a restore that was cut off: of the files in DIR those that are whole stay",
};

/// The options for the further wishes of a restore by a bootstrap.
const CHOICES: [OptionRow; 4] = [
    OptionRow {
        name: "newest",
        value: "",
        takes: ValueKind::Nothing,
        help: "Writes the newest copy alone of a path that comes several times",
    },
    COMPLETE,
    KEEP_GOING,
    RESUME,
];

/// Those of a restore of marked files, which has one copy of each path.
const SESSION_CHOICES: [OptionRow; 3] = [COMPLETE, KEEP_GOING, RESUME];

/// The options of `restore`.
const RESTORE: [OptionRow; 15] = [
    OptionRow {
        name: "pattern",
        value: "PATTERN",
        takes: ValueKind::Several,
        help: "The paths to restore: each whole, or with * and ? after its last slash; all if there is none",
    },
    OptionRow {
        name: "bsr",
        value: "FILE",
        takes: ValueKind::Value,
        help: "The file of the bootstrap, - for standard input",
    },
    OptionRow {
        name: "db",
        value: "FILE",
        takes: ValueKind::Value,
        help: "The file of the catalogue, if there is no bootstrap",
    },
    OptionRow {
        name: "client",
        value: "NAME",
        takes: ValueKind::Value,
        help: "The name of the client in the catalogue",
    },
    OptionRow {
        name: "fileset",
        value: "NAME",
        takes: ValueKind::Value,
        help: "The name of the file set in the catalogue",
    },
    OptionRow {
        name: "before",
        value: "MOMENT",
        takes: ValueKind::Value,
        help: "Uses only jobs that began before YYYY-MM-DD HH:MM:SS, in UTC; all jobs if it is left out",
    },
    VOLUMES,
    OptionRow {
        name: "into",
        value: "DIR",
        takes: ValueKind::Value,
        help: "The folder to write the restored files into, empty or with files of an earlier restore",
    },
    TAR,
    OptionRow {
        name: "drives",
        value: "N",
        takes: ValueKind::FourDrives,
        help: "The number of drives that read the volumes at once, 1 to 16",
    },
    MEMORY,
    SYNC,
    QUIET,
    LOG,
    OptionRow {
        name: "manifest",
        value: "FILE",
        takes: ValueKind::Value,
        help: "The file to write the manifest to; what is in it is replaced",
    },
];

/// The options that only `extract` has.
const EXTRACT: [OptionRow; 2] = [BSR, VOLUMES];

/// The options that only `console` has.
const CONSOLE: [OptionRow; 7] = [
    DB,
    VOLUMES,
    OptionRow {
        name: "client",
        value: "NAME",
        takes: ValueKind::Needed,
        help: "The name of the client",
    },
    OptionRow {
        name: "fileset",
        value: "NAME",
        takes: ValueKind::Needed,
        help: "The name of the file set",
    },
    OptionRow {
        name: "before",
        value: "MOMENT",
        takes: ValueKind::Needed,
        help: "Uses only jobs that began before YYYY-MM-DD HH:MM:SS, in UTC",
    },
    VERIFY_CATALOGUE,
    OptionRow {
        name: "manifest",
        value: "FILE",
        takes: ValueKind::Value,
        help: "The file to write the manifest to, apart from the answers; what is in it is replaced",
    },
];

/// The options of `check`.
const CHECK: [OptionRow; 4] = [
    BSR,
    VOLUMES,
    OptionRow {
        name: "checksums",
        value: "",
        takes: ValueKind::Nothing,
        help: "Reads whole blocks, and compares the checksum that each has",
    },
    MEMORY,
];

/// The options of `jobs`.
const JOBS: [OptionRow; 6] = [
    DB,
    OptionRow {
        name: "client",
        value: "NAME",
        takes: ValueKind::Value,
        help: "Lists only jobs of this client",
    },
    OptionRow {
        name: "fileset",
        value: "NAME",
        takes: ValueKind::Value,
        help: "Lists only jobs of this file set",
    },
    OptionRow {
        name: "before",
        value: "MOMENT",
        takes: ValueKind::Value,
        help: "Lists only jobs that began before YYYY-MM-DD HH:MM:SS, in UTC",
    },
    VERIFY_CATALOGUE,
    OptionRow {
        name: "local",
        value: "",
        takes: ValueKind::Nothing,
        help: "Shows each moment in the time zone of this system, too",
    },
];

/// The argument of `explain`.
const EXPLAIN: [OptionRow; 1] = [OptionRow {
    name: "number",
    value: "N",
    takes: ValueKind::Number,
    help: "The number to explain; all numbers if it is left out",
}];

/// The options of `serve`.
const SERVE: [OptionRow; 3] = [
    OptionRow {
        name: "db",
        value: "FILE",
        takes: ValueKind::Value,
        help: "The file of the catalogue, which is made if it is not there",
    },
    OptionRow {
        name: "volumes",
        value: "DIR",
        takes: ValueKind::Value,
        help: "The folder of the volumes; given with --db, or neither is",
    },
    MEMORY,
];

/// The option of `migrate`.
const MIGRATE: [OptionRow; 1] = [DB];

/// No options.
const NONE: [OptionRow; 0] = [];

/// The commands, in the order of the help.
const COMMANDS: [CommandRow; 8] = [
    CommandRow {
        name: "restore",
        about: "Restores the newest copy of each file, and says what did not come back",
        own: &RESTORE,
        restoring: &NONE,
        choices: &NONE,
    },
    CommandRow {
        name: "extract",
        about: "Restores the files of a bootstrap, each copy as it comes",
        own: &EXTRACT,
        restoring: &RESTORING,
        choices: &CHOICES,
    },
    CommandRow {
        name: "console",
        about: "Marks files as they were at a moment, and restores them",
        own: &CONSOLE,
        restoring: &RESTORING,
        choices: &SESSION_CHOICES,
    },
    CommandRow {
        name: "check",
        about: "Checks a bootstrap over its volumes, and restores nothing",
        own: &CHECK,
        restoring: &NONE,
        choices: &NONE,
    },
    CommandRow {
        name: "jobs",
        about: "Lists the jobs of a catalogue, and which of them would be chosen",
        own: &JOBS,
        restoring: &NONE,
        choices: &NONE,
    },
    CommandRow {
        name: "explain",
        about: "Says what a refusal number means and what to do next",
        own: &EXPLAIN,
        restoring: &NONE,
        choices: &NONE,
    },
    CommandRow {
        name: "serve",
        about: "Runs a script from standard input, as with no command",
        own: &SERVE,
        restoring: &NONE,
        choices: &NONE,
    },
    CommandRow {
        name: "migrate",
        about: "Makes a catalogue of version 1 one of version 2",
        own: &MIGRATE,
        restoring: &NONE,
        choices: &NONE,
    },
];

/// Returns the program with the commands of the table.
fn with_table<'a>(alloc: Global, program: Command<'a>) -> Result<Command<'a>, AllocError>
    requires { (fields_of program).has_globals ≡ false }
    ensures { IfOk result (λ r. app_of r ≡ with_all_commands (app_of program.entry)) }
{
    with_commands(alloc, program, &COMMANDS)
}

/// Returns the fault of a command line, with the usage of the command with this name, or of the
/// program if there is none.
///
/// # Errors
///
/// `AllocError` if memory runs out.
pub(crate) fn error_of(
    alloc: Global,
    name: &str,
    kind: ErrorKind,
    text: &str,
) -> Result<Error, AllocError>
    ensures kind { IfOk result (λ error. kind_of error ≡ kind) }
{
    match command_named(alloc, &COMMANDS, name)? {
        Some(mut command) => command.error(kind, text),
        None => {
            let mut command = program(alloc)?;
            command.error(kind, text)
        }
    }
}

/// Returns the program with its commands and options, in clap's form.
///
/// # Errors
///
/// `AllocError` if memory runs out.
pub(crate) fn program<'a>(alloc: Global) -> Result<Command<'a>, AllocError>
    ensures { IfOk result (λ command. app_of command ≡ program_app) }
{
    let program = Command::new(alloc, "brestore")
        .about("Restores files from Bacula volumes")
        .version("0.1.0");
    with_table(alloc, program)
}
