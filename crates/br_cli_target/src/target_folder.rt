//! A sink over the folder of the command line.
ghost use Rattle.std.specs.Prelude.{◌≡◌, [], option_map, IfOk, IfSome};
ghost use Rattle.br_cli_target.specs.AskedTarget.{folder_asked};

use br_cli_common::{Syncs, Target};
use br_cli_progress::{Gauge, WatchedSink};
use br_fs::HostDisk;
use br_sink::Leaving;
use br_sink_folder::{FolderFault, Resuming};
use br_types::{Start, Stops};

/// A sink over a folder of the system, which may hold files already.
pub type ResumingSink<'r> = Resuming<HostDisk<&'r HostRuntime>>;

/// A sink over a folder of the system, which may hold files already and may leave out files. The
/// sink inside is watched, so that only files that were put are reported.
pub type LeavingSink<'g, 'r> = Leaving<WatchedSink<'g, 'r, ResumingSink<'r>>>;

/// Returns the folder that the restored files go into, if any.
pub fn folder_of(target: Target<'_>) -> Option<&str>
    ensures { option_map (λ f. f.now) result ≡ folder_asked target.entry }
{
    match target {
        Target::Folder(folder) => Some(folder),
        Target::Nowhere | Target::TarFile(_) | Target::TarOutput => None,
    }
}

/// Returns the disk of the system, which syncs each file and folder that it makes, or none.
fn maker_of(rt: &HostRuntime, syncs: Syncs) -> HostDisk<&HostRuntime> {
    match syncs {
        Syncs::Never => HostDisk::new(rt.alloc(), rt),
        Syncs::Each => HostDisk::syncing(rt.alloc(), rt),
    }
}

/// Returns the sink over the folder to deliver into, if there is one. The folder is empty, unless the restore
/// is resumed.
pub fn resuming_over<'r>(
    rt: &'r HostRuntime,
    start: Start,
    syncs: Syncs,
    into: Option<&str>,
) -> Result<Option<ResumingSink<'r>>, FolderFault>
    ensures asked { IfOk result (λ sink. option_map (λ s. s.folder.path) sink ≡ option_map (λ f. f.now) into.entry) }
    ensures start { IfOk result (λ sink. IfSome sink (λ s. s.start ≡ start)) }
{
    let Some(path) = into else {
        return Ok(None);
    };
    let maker = maker_of(rt, syncs);
    Ok(Some(Resuming::new(rt.alloc(), maker, path, start)?))
}

/// Returns the sink over the folder to deliver into, if there is one. It leaves out the files that
/// can't be made, if a delivery is not to stop there, and reports those that are put to the gauge.
pub fn leaving_over<'g, 'r>(
    rt: &'r HostRuntime,
    gauge: &'g Gauge<'r>,
    stops: Stops,
    start: Start,
    syncs: Syncs,
    into: Option<&str>,
) -> Result<Option<LeavingSink<'g, 'r>>, FolderFault>
    ensures asked { IfOk result (λ sink. option_map (λ s. s.inner.inner.folder.path) sink ≡ option_map (λ f. f.now) into.entry) }
    ensures start { IfOk result (λ sink. IfSome sink (λ s. s.inner.inner.start ≡ start)) }
    ensures stops { IfOk result (λ sink. IfSome sink (λ s. s.stops ≡ stops)) }
    ensures taken { IfOk result (λ sink. IfSome sink (λ s. s.taken ≡ [])) }
{
    match resuming_over(rt, start, syncs, into)? {
        None => Ok(None),
        Some(sink) => {
            let watched = WatchedSink::new(sink, gauge);
            Ok(Some(Leaving::new(rt.alloc(), watched, stops)))
        }
    }
}
