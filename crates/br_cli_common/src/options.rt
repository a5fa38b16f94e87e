use br_types::{Start, Wanted};

/// The target of the restored files.
#[derive(Clone, Copy)]
pub enum Target<'a> {
    /// No target: only the manifest is printed.
    Nowhere,
    /// Into this folder.
    Folder(&'a str),
    /// Into this new file, as a tar stream.
    TarFile(&'a str),
    /// To standard output, as a tar stream.
    TarOutput,
}

/// Whether a terminal on standard error shows the progress of a restore.
#[derive(Clone, Copy)]
pub enum Progress {
    /// A line shows it while the restore runs.
    Shown,
    /// Nothing shows it.
    Quiet,
}

/// Whether the files and folders of a delivery are made durable one by one.
#[derive(Clone, Copy)]
pub enum Syncs {
    /// The system writes them to the disk in its own time.
    Never,
    /// Each is synced once it is written.
    Each,
}

/// What a restore by a bootstrap prints.
#[derive(Clone, Copy)]
pub enum Printed<'a> {
    /// The manifest, and words to a terminal alone.
    Manifest,
    /// Words, wherever standard error goes. The manifest goes to this file, if there is one. What is
    /// in it is replaced.
    Words(Option<&'a str>),
}

/// How the paths to restore are marked.
#[derive(Drop)]
pub enum Marks<'a> {
    /// By the lines of a session on standard input.
    Lines,
    /// By these patterns.
    Patterns(Vec<&'a str>),
}

/// The rows of files that are looked at in a catalogue.
#[derive(Clone, Copy)]
pub enum FileRows {
    /// Those of the jobs whose files are needed.
    Needed,
    /// All.
    All,
}

/// The options of `extract`.
#[derive(Clone, Copy)]
pub struct ExtractOptions<'a> {
    /// The file of the bootstrap.
    pub bsr: &'a str,
    /// The folder of the volumes.
    pub volumes: &'a str,
    pub target: Target<'a>,
    /// The number of drives that read the volumes at once, from 1 to 16.
    pub drives: usize,
    /// The number of bytes of data that are held in memory.
    pub memory: u64,
    pub wanted: Wanted,
    /// What the target folder may hold. Other targets are new.
    pub start: Start,
    /// Whether what goes into a folder is synced. A tar stream in a file is, at its end.
    pub syncs: Syncs,
    pub progress: Progress,
    /// The file that a log of the restore is appended to, if there is one.
    pub log: Option<&'a str>,
    pub printed: Printed<'a>,
}

/// What `check` does with the checksums of blocks.
#[derive(Clone, Copy)]
pub enum Checksums {
    /// Skips the checksums.
    Passed,
    /// Reads whole blocks and compares the checksum of each.
    Compared,
}

/// The options of `check`.
#[derive(Clone, Copy)]
pub struct CheckOptions<'a> {
    /// The file of the bootstrap.
    pub bsr: &'a str,
    /// The folder of the volumes.
    pub volumes: &'a str,
    pub checksums: Checksums,
    /// The number of bytes of data that a restore would hold in memory.
    pub memory: u64,
}

/// The options of `console`, and of a restore by patterns.
#[derive(Drop)]
pub struct ConsoleOptions<'a> {
    /// The file of the catalogue.
    pub db: &'a str,
    /// The folder of the volumes.
    pub volumes: &'a str,
    pub client: &'a str,
    pub fileset: &'a str,
    /// The moment, as text.
    pub before: &'a str,
    pub file_rows: FileRows,
    pub marks: Marks<'a>,
    pub target: Target<'a>,
    /// The number of drives that read the volumes at once, from 1 to 16.
    pub drives: usize,
    /// The number of bytes of data that are held in memory.
    pub memory: u64,
    /// A session has one copy of each path, and all copies are wanted.
    pub wanted: Wanted,
    /// What the target folder may hold. Other targets are new.
    pub start: Start,
    /// Whether what goes into a folder is synced. A tar stream in a file is, at its end.
    pub syncs: Syncs,
    pub progress: Progress,
    /// The file that a log of the session is appended to, if there is one.
    pub log: Option<&'a str>,
    /// The file that the manifest goes to, if it does not go where the answers go. What is in it is
    /// replaced.
    pub manifest: Option<&'a str>,
}

/// The options of `serve` over files.
#[derive(Clone, Copy)]
pub struct ServeOptions<'a> {
    /// The file of the catalogue.
    pub db: &'a str,
    /// The folder of the volumes.
    pub volumes: &'a str,
    /// The number of bytes of data that a restore holds in memory.
    pub memory: u64,
}

/// The time zones in which the moments of jobs are shown.
#[derive(Clone, Copy)]
pub enum Clock {
    /// In UTC.
    Utc,
    /// In UTC, and in the time zone of this system.
    UtcAndLocal,
}

/// The options of `jobs`. A job is listed if it has the given client and file set, and began before
/// the given moment. What is not given does not matter.
#[derive(Clone, Copy)]
pub struct JobsOptions<'a> {
    /// The file of the catalogue.
    pub db: &'a str,
    pub client: Option<&'a str>,
    pub fileset: Option<&'a str>,
    /// The moment, as text.
    pub before: Option<&'a str>,
    pub file_rows: FileRows,
    pub clock: Clock,
}

/// A command of the program with its options.
#[derive(Drop)]
pub enum Invocation<'a> {
    /// Runs a script from standard input, with its jobs and volumes in memory, and this number of bytes
    /// of data that a restore holds.
    Serve(u64),
    /// Runs a script from standard input, with its jobs in a catalogue and its volumes in a folder.
    ServeFiles(ServeOptions<'a>),
    /// Runs a bootstrap over the volumes of a folder.
    Extract(ExtractOptions<'a>),
    /// Restores what is marked of the jobs of a catalogue, by the lines of a console session or by
    /// patterns.
    Console(ConsoleOptions<'a>),
    /// Checks a bootstrap over the volumes of a folder.
    Check(CheckOptions<'a>),
    /// Lists the jobs of a catalogue.
    Jobs(JobsOptions<'a>),
    /// Makes the catalogue of version 1 in this file one of version 2.
    Migrate(&'a str),
    /// Explains the number of a refusal or of an outcome.
    Explain(u32),
    /// Explains all numbers.
    ExplainAll,
}
