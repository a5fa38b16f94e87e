//! The command `serve` over a catalogue in a file and volumes in a folder.
ghost use Rattle.std.specs.Prelude.{◌≡◌, IfErr, IfOk};
ghost use Rattle.std.specs.Result.{IsErr};
ghost use Rattle.br_cli_serve.specs.ScriptDeeds.{DoesSome};
ghost use Rattle.br_cli_serve.specs.MemoryScriptEnding.{IsStatus};
ghost use Rattle.br_cli_serve.specs.FolderVolumes.{IsFolder};
ghost use Rattle.br_cli_serve.specs.Serving.{IsLoaded, IsNotBegun, start_number};
ghost use Rattle.br_cli_serve.specs.declared.serve_command.ServeStartFault.TheVariants as start;

use crate::driven_store::DrivenStore;
use crate::folder_volumes::{FolderVolumes, HostVolumes};
use crate::memory_script::{flushed_end, refuse_memory};
use crate::script_run::run_script_over;
use br_cli_common::{ServeOptions, refuse_start, show_lines};
use br_engine::Budget;
use br_keeper::{Catalogue, CatalogueFault, JobStore, Keeper, KeeperFault, Session};
use br_sink::Flush;
use br_volume::VolumeStore;
use std::alloc::AllocError;
use std::fs::OpenOptions;
use std::io::{self, BufRead, BufReader, LineWriter};
use std::os::unix::fs::OpenOptionsExt;
use std::sync::Wait;
use std::thread::Threads;
use thiserror::Error;

/// The number of the refusal of a catalogue whose rows form no history.
const BAD_CATALOGUE: u32 = 47;

/// Why no script began.
#[derive(Clone, Copy, Debug, Error)]
pub enum ServeStartFault {
    #[error("out of memory")]
    Memory,
    /// The catalogue was refused.
    #[error("{0}")]
    Catalogue(CatalogueFault),
    /// The jobs of the catalogue were not loaded.
    #[error("{0}")]
    Keeper(KeeperFault),
}

impl From<AllocError> for ServeStartFault {
    ghost from_gives = { λ _ e. e ≡ start.Memory };

    fn from(_e: AllocError) -> ServeStartFault {
        ServeStartFault::Memory
    }
}

impl From<CatalogueFault> for ServeStartFault {
    ghost from_gives = { λ fault e. e ≡ start.Catalogue fault };

    fn from(fault: CatalogueFault) -> ServeStartFault {
        ServeStartFault::Catalogue(fault)
    }
}

impl From<KeeperFault> for ServeStartFault {
    ghost from_gives = { λ fault e. e ≡ start.Keeper fault };

    fn from(fault: KeeperFault) -> ServeStartFault {
        ServeStartFault::Keeper(fault)
    }
}

impl ServeStartFault {
    /// Returns the number of the refusal: 1 out of memory, 45 a catalogue that can't be read, 47 one of
    /// another version or whose rows form no history.
    pub fn number(self) -> u32
        ensures { result ≡ start_number self }
    {
        match self {
            ServeStartFault::Memory => 1,
            ServeStartFault::Catalogue(fault) => fault.number(),
            ServeStartFault::Keeper(fault) => fault.number(),
        }
    }
}

/// The means of a script over files: a keeper of the catalogue and the volumes, and a session of
/// it.
pub struct ServeSetup<C: JobStore, V: VolumeStore> {
    keeper: Keeper<C, V>,
    session: Session,
}

/// Opens the catalogue at the path, or makes one without jobs if there is none, and makes a keeper of
/// it and of the volumes in the folder.
///
/// # Errors
///
/// `Catalogue` if the catalogue can't be opened, `Keeper` if its jobs are not loaded.
pub fn set_up_serve<'r, C: Catalogue>(
    rt: &'r HostRuntime,
    threads: &impl Wait,
    catalogue: &C,
    given: &ServeOptions<'_>,
) -> Result<ServeSetup<C::Jobs, HostVolumes<'r>>, ServeStartFault>
    ensures jobs { IfOk result (λ setup. IsLoaded C.Jobs.loads (C.opens catalogue.now given.now.db.now) setup.keeper) }
    ensures volumes { IfOk result (λ setup. IsFolder given.now.volumes.now setup.keeper.volumes) }
    ensures own { IfOk result (λ setup. setup.session.book ≡ setup.keeper.list.book) }
    ensures refused { IfErr result (IsNotBegun C.Jobs.loads (C.opens catalogue.now given.now.db.now)) }
{
    let volumes = FolderVolumes::new(rt, given.volumes)?;
    let jobs = catalogue.open(given.db)?;
    let (keeper, mut sessions) = Keeper::new(threads, rt.alloc(), jobs, volumes, 1)?;
    // One session was asked for.
    let Some(session) = sessions.pop() else {
        unreachable!()
    };
    Ok(ServeSetup { keeper, session })
}

/// Runs a script over the prepared keeper, and writes and flushes its answers. Returns the keeper,
/// and the exit status.
pub fn serve_over<C: JobStore, V: DrivenStore, R: BufRead, W: Flush>(
    threads: &(impl Threads + Wait + Sync),
    budget: Budget,
    setup: ServeSetup<C, V>,
    reader: &mut R,
    writer: &mut W,
) -> (Keeper<C, V>, io::Result<u8>)
    requires own { setup.session.book ≡ setup.keeper.list.book }
    ensures does { DoesSome C.JobStore V.VolumeStore setup.keeper result.0 }
    ensures flushed { IfOk result.1 (λ _. W.is_flushed writer.new) }
    ensures status { IfOk result.1 IsStatus }
{
    let ServeSetup { keeper, session } = setup;
    let (keeper, end) = run_script_over(threads, budget, keeper, session, reader, writer);
    (keeper, flushed_end(end, writer))
}

/// Prints why a catalogue was not closed after a script that ended with this status. Returns the
/// exit status of the command.
///
/// # Errors
///
/// That of the script, or if standard error failed.
fn refuse_unclosed(
    rt: &HostRuntime,
    fault: CatalogueFault,
    status: io::Result<u8>,
) -> io::Result<u8>
    ensures refused { IfOk result (λ code. code ≡ 1) }
    ensures passed { IfErr status (λ _. IsErr result) }
{
    let refused = refuse_start(rt, fault.number())?;
    match status {
        Ok(_) => Ok(refused),
        Err(e) => Err(e),
    }
}

/// Writes all jobs into the file of the catalogue, after a script that ended with this status.
/// Returns the exit status of the command, which is that of the script unless the catalogue
/// refuses.
///
/// # Errors
///
/// That of the script, or if standard error failed.
fn end_serve<C: Catalogue>(
    rt: &HostRuntime,
    catalogue: &C,
    jobs: C::Jobs,
    status: io::Result<u8>,
) -> io::Result<u8>
    requires known { IfOk status IsStatus }
    ensures known { IfOk result IsStatus }
    ensures clean { IfOk result (λ code. code ≡ 0 → (status ≡ Ok 0) × C.closes catalogue.now jobs) }
{
    match catalogue.close(jobs) {
        Ok(()) => status,
        Err(fault) => refuse_unclosed(rt, fault, status),
    }
}

/// Makes the empty file of a catalogue for its owner alone, if there is no file. The log beside it
/// gets the rights of the file.
fn make_own(rt: &HostRuntime, db: &str) {
    let mut how = OpenOptions::new();
    how.mode(0o600).write(true).create_new(true);
    // If there is a file, or none can be made, opening the catalogue says what is wrong.
    let _made = how.open(rt, db);
}

/// Prints why no script began, and to a terminal which row of a catalogue is wrong, if that is why.
/// Returns the exit status.
fn refuse_serve<C: Catalogue>(
    rt: &HostRuntime,
    catalogue: &C,
    db: &str,
    number: u32,
) -> io::Result<u8>
    ensures status { IfOk result (λ status. status ≡ 1) }
{
    let status = refuse_start(rt, number)?;
    if number == BAD_CATALOGUE {
        show_lines(rt, &catalogue.wrong_rows(db))?;
    }
    Ok(status)
}

/// Runs the lines of a reader as a script over a catalogue in a file and volumes in a folder, and
/// writes its answers to standard output, each line as soon as it is complete. A catalogue that
/// can't be opened (45) or loaded (47) is refused on standard error before a line is read. After
/// the last line all jobs are written into the catalogue's file; if that fails, it is refused on
/// standard error too.
///
/// Returns the exit status: 0 if nothing was refused and each outcome is a file; 1 otherwise.
///
/// # Errors
///
/// If memory ran out before the first line, or a stream failed.
pub fn serve_by_lines<C: Catalogue, R: BufRead + Drop>(
    rt: &HostRuntime,
    threads: &(impl Threads + Wait + Sync),
    catalogue: &C,
    given: &ServeOptions<'_>,
    reader: &mut R,
) -> io::Result<u8>
    ensures { IfOk result IsStatus }
{
    let mut writer = LineWriter::new(rt.alloc(), io::writer(rt))?;
    make_own(rt, given.db);
    match set_up_serve(rt, threads, catalogue, given) {
        Ok(setup) => {
            let budget = Budget {
                alloc: rt.alloc(),
                room: given.memory,
            };
            let (keeper, status) = serve_over(threads, budget, setup, reader, &mut writer);
            let (jobs, _volumes) = keeper.close(threads);
            end_serve(rt, catalogue, jobs, refuse_memory(rt, status))
        }
        Err(fault) => refuse_serve(rt, catalogue, given.db, fault.number()),
    }
}

/// Runs the script of standard input, as `serve_by_lines` does.
pub fn serve_files<C: Catalogue>(
    rt: &HostRuntime,
    threads: &(impl Threads + Wait + Sync),
    catalogue: &C,
    given: &ServeOptions<'_>,
) -> io::Result<u8>
    ensures { IfOk result IsStatus }
{
    let mut reader = BufReader::new(rt.alloc(), rt.reader())?;
    serve_by_lines(rt, threads, catalogue, given, &mut reader)
}
