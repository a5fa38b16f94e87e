//! Which files are delivered if those whose paths conflict are left out.
ghost use Rattle.std.specs.Prelude.{◌≡◌, ◌&&◌, ◌++◌, [], true, false, not, if◌then◌else◌, length, IfOk, OnOk};
ghost use Rattle.br_model.specs.Delivery.{item_of};
ghost use Rattle.br_join.specs.Outcome.{restored};
ghost use Rattle.br_sink.specs.ConflictsApart.{IsKept, apart, conflicts, wanted_of, with_path};

use br_join::Outcome;
use br_types::{FileKey, Path, Ways, is_next};
use std::alloc::{AllocError, Global};

/// The outcomes that are delivered, and the files that are left out.
#[derive(Drop)]
pub struct Apart {
    /// For each outcome, true if it is delivered.
    pub flags: Vec<bool>,
    /// The paths of the files that are left out, in their order.
    pub left: Vec<Path>,
}

/// Returns true if the outcome conflicts with none noted before. Then its path is noted.
fn is_apart<'o>(ways: &mut Ways<'o>, key: FileKey, outcome: &'o Outcome) -> Result<bool, AllocError>
    ensures { IfOk result (IsKept ways.old ways.new true (item_of (restored (key, outcome.now)))) }
{
    match outcome {
        Outcome::File(item) => is_next(ways, item.path.bytes()),
        Outcome::Fault { .. } => Ok(true),
    }
}

/// Returns true if the outcome is wanted and conflicts with none noted before. Then its path is
/// noted.
fn is_kept<'o>(
    ways: &mut Ways<'o>,
    wanted: bool,
    key: FileKey,
    outcome: &'o Outcome,
) -> Result<bool, AllocError>
    ensures { IfOk result (IsKept ways.old ways.new wanted (item_of (restored (key, outcome.now)))) }
{
    if !wanted {
        return Ok(false);
    }
    is_apart(ways, key, outcome)
}

/// Returns true if a file is left out.
fn is_out(wanted: bool, kept: bool) -> bool
    ensures { result ≡ (wanted && not kept) }
{
    wanted && !kept
}

/// Adds the path of an outcome to the others, if it is a file.
fn push_path(
    alloc: Global,
    paths: &mut Vec<Path>,
    key: FileKey,
    outcome: &Outcome,
) -> Result<(), AllocError>
    ensures { OnOk result (paths.new.items ≡ paths.old.items ++ with_path [] (item_of (restored (key, outcome.now)))) }
{
    match outcome {
        Outcome::File(item) => {
            paths.push(item.path.copy(alloc)?)?;
            Ok(())
        }
        Outcome::Fault { .. } => Ok(()),
    }
}

/// Adds the path of an outcome to the others, if it is a file that is left out.
fn push_if_out(
    alloc: Global,
    paths: &mut Vec<Path>,
    out: bool,
    key: FileKey,
    outcome: &Outcome,
) -> Result<(), AllocError>
    ensures { OnOk result (paths.new.items ≡ paths.old.items ++ (if out then with_path [] (item_of (restored (key, outcome.now))) else [])) }
{
    if !out {
        return Ok(());
    }
    push_path(alloc, paths, key, outcome)
}

/// Returns which of the wanted outcomes are delivered: each whose path conflicts with none that is delivered
/// before it. One of two paths conflicts with the other if it does not end in `/` and is, with a `/`
/// appended, a prefix of the other. A fault is no file, and is always kept.
pub fn keep_apart(
    alloc: Global,
    wanted: &[bool],
    outcomes: &[(FileKey, Outcome)],
) -> Result<Apart, AllocError>
    requires { length wanted.now ≡ length outcomes.now }
    ensures kept { IfOk result (λ a. wanted_of a.flags.items outcomes.now ≡ apart (wanted_of wanted.now outcomes.now)) }
    ensures left { IfOk result (λ a. a.left.items ≡ conflicts (wanted_of wanted.now outcomes.now)) }
{
    let mut ways = Ways::new(alloc);
    let mut flags = Vec::new(alloc);
    let mut left = Vec::new(alloc);
    let mut place = 0;
    for outcome in outcomes {
        let wants = wanted[place];
        let kept = is_kept(&mut ways, wants, outcome.0, &outcome.1)?;
        flags.push(kept)?;
        push_if_out(alloc, &mut left, is_out(wants, kept), outcome.0, &outcome.1)?;
        place += 1;
    }
    Ok(Apart { flags, left })
}
