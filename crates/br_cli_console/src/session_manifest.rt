//! The manifest of a session, which may go to a file of its own, and what the session runs on.
ghost use Rattle.std.specs.Prelude.{◌≡◌, ◌⊎◌, length, None, option_map, IfOk, IfSome, OnOk};
ghost use Rattle.br_pool.specs.Pool.{AreDrives};
ghost use Rattle.br_cli_console.specs.ConsoleTasks.{FinishesBy, KeepsEach, RunsBy, RunsOn, session};

use br_cli_progress::{Gauge, WatchedWriter};
use br_cli_target::{ToldOutcomes, end_manifest, open_manifest};
use br_console::{ConsoleFault, ConsoleRun, LineVerdict, finish, prepare, run_console};
use br_engine::Restore;
use br_plan::{JobSelection, Plan};
use br_sink::{Flush, Sink};
use br_types::Wanted;
use br_volume::Drive;
use std::fs::File;
use std::io::{self, BufRead, BufWriter};
use std::sync::Wait;
use std::thread::Threads;

/// A file that a manifest goes to.
pub(crate) type ManifestFile<'g, 'r> = WatchedWriter<'g, 'r, BufWriter<File>>;

/// Opens the file for a manifest, if one is given. What is in it is removed.
pub(crate) fn manifest_at(rt: &HostRuntime, path: Option<&str>) -> io::Result<Option<File>> {
    match path {
        Some(path) => Ok(Some(open_manifest(rt, path)?)),
        None => Ok(None),
    }
}

/// Returns the writer of a manifest's file, if there is one.
fn manifest_writer<'g, 'r>(
    rt: &HostRuntime,
    gauge: &'g Gauge<'r>,
    file: Option<File>,
) -> io::Result<Option<ManifestFile<'g, 'r>>> {
    match file {
        Some(file) => {
            let writer = BufWriter::new(rt.alloc(), file)?;
            Ok(Some(WatchedWriter::new(writer, gauge)))
        }
        None => Ok(None),
    }
}

/// What a session writes to: the answers and the bootstrap to one writer, and the manifest to another
/// one, if there is one.
#[derive(Drop)]
pub(crate) struct Outputs<W, M> {
    pub(crate) answers: W,
    pub(crate) manifest: Option<M>,
}

/// Returns these outputs, which are watched.
pub(crate) fn watched_outputs<'g, 'r, W: Drop>(
    rt: &HostRuntime,
    gauge: &'g Gauge<'r>,
    outputs: Outputs<W, File>,
) -> io::Result<Outputs<WatchedWriter<'g, 'r, W>, ManifestFile<'g, 'r>>>
    ensures answers { IfOk result (λ out. out.answers.inner ≡ outputs.answers) }
{
    let manifest = manifest_writer(rt, gauge, outputs.manifest)?;
    let answers = WatchedWriter::new(outputs.answers, gauge);
    Ok(Outputs { answers, manifest })
}

/// What comes of the part of a session before a drive is used: whether each line was accepted, and the
/// plan if there is one.
pub(crate) type Prepared = Result<(LineVerdict, Option<Plan>), ConsoleFault>;

/// What a session runs on.
#[derive(Drop)]
pub(crate) enum SessionInput<R> {
    /// The lines that mark paths.
    Lines(R),
    /// What comes before a drive is used was prepared without lines.
    Prepared(Prepared),
}

/// Runs a session by its lines. The manifest goes to its own writer if there is one, else after the
/// bootstrap.
///
/// # Errors
///
/// Those of `run_console`.
fn run_lines<R: BufRead + Drop, D: Drive + Send, W: Flush + Drop, M: Flush + Drop, S: Sink>(
    threads: &(impl Threads + Wait + Sync),
    restore: &mut Restore<D, S>,
    order: (&JobSelection<'_>, Wanted),
    reader: &mut R,
    out: &mut Outputs<W, M>,
) -> Result<ConsoleRun, ConsoleFault>
    requires drives { AreDrives restore.old.drives.items }
    requires shown { W.is_flushed out.old.answers }
    requires fresh { IfSome out.old.manifest M.is_flushed }
    ensures session { RunsBy order.entry (R.remaining reader.old)
        (session D.Drive W.Write M.Write S.Sink (restore.old, out.old) (restore.new, out.new)) result }
    ensures many { length restore.new.drives.items ≡ length restore.old.drives.items }
    ensures flushed { OnOk result (W.is_flushed out.new.answers) }
    ensures apart { OnOk result (IfSome out.new.manifest M.is_flushed) }
{
    let (asked, wanted) = order;
    match &mut out.manifest {
        Some(manifest) => {
            let prepared = prepare(restore.budget.alloc, asked, reader, &mut out.answers);
            finish(threads, restore, prepared, wanted, manifest)
        }
        None => run_console(threads, restore, asked, wanted, reader, &mut out.answers),
    }
}

/// Runs the rest of a session that was prepared. The manifest goes to its own writer if there is one,
/// else to that of the answers.
///
/// # Errors
///
/// The error of what was prepared, or those of `restore_plan`.
fn run_prepared<D: Drive + Send, W: Flush + Drop, M: Flush + Drop, S: Sink>(
    threads: &(impl Threads + Wait + Sync),
    restore: &mut Restore<D, S>,
    prepared: Prepared,
    wanted: Wanted,
    out: &mut Outputs<W, M>,
) -> Result<ConsoleRun, ConsoleFault>
    requires drives { AreDrives restore.old.drives.items }
    requires shown { W.is_flushed out.old.answers }
    requires fresh { IfSome out.old.manifest M.is_flushed }
    ensures finishes { FinishesBy wanted
        (session D.Drive W.Write M.Write S.Sink (restore.old, out.old) (restore.new, out.new)) prepared result }
    ensures many { length restore.new.drives.items ≡ length restore.old.drives.items }
    ensures flushed { OnOk result (W.is_flushed out.new.answers) }
    ensures apart { OnOk result (IfSome out.new.manifest M.is_flushed) }
{
    match &mut out.manifest {
        Some(manifest) => finish(threads, restore, prepared, wanted, manifest),
        None => finish(threads, restore, prepared, wanted, &mut out.answers),
    }
}

/// Runs a session by its lines, or the rest of one that was prepared.
///
/// # Errors
///
/// Those of `run_console`.
pub(crate) fn run_session<
    R: BufRead + Drop,
    D: Drive + Send,
    W: Flush + Drop,
    M: Flush + Drop,
    S: Sink,
>(
    threads: &(impl Threads + Wait + Sync),
    restore: &mut Restore<D, S>,
    order: (&JobSelection<'_>, Wanted),
    input: SessionInput<R>,
    out: &mut Outputs<W, M>,
) -> Result<ConsoleRun, ConsoleFault>
    requires drives { AreDrives restore.old.drives.items }
    requires shown { W.is_flushed out.old.answers }
    requires fresh { IfSome out.old.manifest M.is_flushed }
    ensures session { RunsOn R.remaining order.entry input
        (session D.Drive W.Write M.Write S.Sink (restore.old, out.old) (restore.new, out.new)) result }
    ensures many { length restore.new.drives.items ≡ length restore.old.drives.items }
    ensures flushed { OnOk result (W.is_flushed out.new.answers) }
    ensures apart { OnOk result (IfSome out.new.manifest M.is_flushed) }
{
    match input {
        SessionInput::Lines(mut reader) => run_lines(threads, restore, order, &mut reader, out),
        SessionInput::Prepared(prepared) => run_prepared(threads, restore, prepared, order.1, out),
    }
}

/// Flushes what a session writes to.
///
/// # Errors
///
/// If a writer failed.
pub(crate) fn flush_outputs<W: Flush + Drop, M: Flush + Drop>(
    out: &mut Outputs<W, M>,
) -> io::Result<()>
    ensures shown { OnOk result (W.is_flushed out.new.answers) }
    ensures fresh { OnOk result (IfSome out.new.manifest M.is_flushed) }
    ensures kept { OnOk result (KeepsEach (option_map M.contents out.old.manifest) (option_map M.contents out.new.manifest)) }
{
    out.answers.flush_all()?;
    if let Some(manifest) = &mut out.manifest {
        manifest.flush_all()?;
    }
    Ok(())
}

/// Returns what watched writers noted of a session.
pub(crate) fn told_by<'t, W, M>(
    out: &'t Outputs<WatchedWriter<'_, '_, W>, WatchedWriter<'_, '_, M>>,
) -> ToldOutcomes<'t> {
    match &out.manifest {
        Some(manifest) => ToldOutcomes::by(manifest, out.answers.plan()),
        None => ToldOutcomes::of_session(&out.answers),
    }
}

/// Makes the manifest in the file with this path durable, if there is one. Returns the exit status of a
/// command that ends with this one otherwise.
///
/// # Errors
///
/// If memory ran out or standard error failed.
pub(crate) fn end_file(
    rt: &HostRuntime,
    gauge: &Gauge<'_>,
    path: Option<&str>,
    manifest: &mut Option<ManifestFile<'_, '_>>,
    status: u8,
) -> io::Result<u8>
    ensures ended { IfOk result (λ ended. (ended ≡ status) ⊎ (ended ≡ 3)) }
    ensures kept { path.entry ≡ None → IfOk result (λ ended. ended ≡ status) }
{
    match manifest {
        Some(manifest) => end_manifest(rt, gauge, path, manifest.inner.get_mut(), status),
        None => Ok(status),
    }
}
