//! Whether a restore left nothing out.
ghost use Rattle.std.specs.Prelude.{◌≡◌};
ghost use Rattle.br_cli_target.specs.WholeRestore.{failed_paths, is_whole};

use br_engine::Extracted;
use br_sink::{Leaving, Sink};
use br_types::Path;

/// Returns true if nothing is reported as missing, and no file is left out. `failed` are the paths
/// of the files at which the sink failed and that are left out.
pub fn is_whole(done: &Extracted, failed: &[Path]) -> bool
    ensures { result ≡ is_whole done.now failed.now }
{
    done.missing.is_empty() && done.left.is_empty() && failed.is_empty()
}

/// Returns the paths of the files that a sink left out since it failed at them, if there is a sink.
pub fn left_out<S: Sink + Drop>(sink: &Option<Leaving<S>>) -> &[Path]
    ensures { result.now ≡ failed_paths sink.now }
{
    match sink {
        Some(sink) => sink.left_out(),
        None => &[],
    }
}
