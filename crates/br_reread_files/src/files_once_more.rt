//! Files that are made once more.
ghost use Rattle.std.specs.Prelude.{◌≡◌, ◌<◌, ◌∷◌, ◌++◌, [], length, Ok, Err, IfErr, IfOk, OnErr, OnOk};
ghost use Rattle.std.specs.List.{AllZip};
ghost use Rattle.br_data.specs.declared.reread_fault.AgainFault.TheVariants.{Changed, Failed};
ghost use Rattle.br_join.specs.Outcome.{shown};
ghost use Rattle.br_records.specs.Runs.{AreListed};
ghost use Rattle.br_data.specs.ManyDrives.{GoOn, HaveFailed};
ghost use Rattle.br_sink.specs.Delivery.{items_in};
ghost use Rattle.br_reread_files.specs.Again.{AreSameIfGiven, CanMakeAll, IsLike, MakeItem};
ghost use Rattle.br_reread_parts.specs.Given.{GivesHits};

use crate::likeness::is_like;
use crate::rereading::outcome_by;
use br_data::{AgainFault, OverMany, standing_stays};
use br_join::{Item, Outcome};
use br_match::Hit;
use br_records::around;
use br_types::FileKey;
use br_volume::Drive;
use std::alloc::{AllocError, Global};

/// Returns the file of an outcome, if it is like this one.
///
/// # Errors
///
/// `Changed` if it is not, or if the outcome is a fault.
fn file_like(outcome: Outcome, item: &Item) -> Result<Item, AgainFault>
    ensures like { IfOk result (λ made. IsLike made item.now) }
    ensures same { IfOk result (λ made. shown outcome ≡ Ok made) }
    ensures changed { OnErr result (shown outcome ≡ Ok item.now → ⊥) }
    ensures never { result ≡ Err Failed → ⊥ }
    ensures only { IfErr result (λ fault. fault ≡ Changed) }
{
    let Outcome::File(made) = outcome else {
        return Err(AgainFault::Changed);
    };
    if is_like(&made, item) {
        return Ok(made);
    }
    Err(AgainFault::Changed)
}

/// Makes a file once more, from the hits with its key.
///
/// # Errors
///
/// Those of `many`, `Changed` if the result is not like the file, and `Memory` if memory runs out.
pub(crate) fn item_once_more<D: Drive>(
    alloc: Global,
    many: &mut OverMany<'_, D>,
    hits: &[Hit],
    key: FileKey,
    item: &Item,
) -> Result<Item, AgainFault>
    requires { AreListed hits.now }
    ensures like { IfOk result (λ made. IsLike made item.now) }
    ensures same { IfOk result (λ made. GivesHits many.old hits.now → MakeItem hits.now key item.now → made ≡ item.now) }
    ensures on { GoOn many.old many.new }
    ensures changed { result ≡ Err Changed → GivesHits many.old hits.now → MakeItem hits.now key item.now → ⊥ }
    ensures failed { result ≡ Err Failed → HaveFailed many.old many.new }
{
    let (_, run, _) = around(hits, key);
    let outcome = outcome_by(alloc, many, key, run)?;
    file_like(outcome, item)
}

/// Appends a file.
fn push_item(
    files: &mut Vec<(FileKey, Outcome)>,
    key: FileKey,
    item: Item,
) -> Result<(), AllocError>
    ensures { OnOk result (items_in files.new.items ≡ items_in files.old.items ++ item ∷ []) }
{
    files.push((key, Outcome::File(item)))?;
    Ok(())
}

/// Makes the files among outcomes once more, and skips the faults.
///
/// # Errors
///
/// As `item_once_more`.
#[tactic(auto, using(br_data::proofs::GoOnLaws::go_itself, br_data::proofs::GoOnLaws::go_more, br_data::proofs::GoOnLaws::failed_on))]
pub(crate) fn made_once_more<D: Drive>(
    alloc: Global,
    many: &mut OverMany<'_, D>,
    hits: &[Hit],
    outcomes: &[(FileKey, Outcome)],
) -> Result<Vec<(FileKey, Outcome)>, AgainFault>
    requires { AreListed hits.now }
    ensures like { IfOk result (λ made. AllZip IsLike (items_in made.items) (items_in outcomes.now)) }
    ensures same { IfOk result (λ made. AreSameIfGiven many.old hits.now outcomes.now made.items) }
    ensures some { OnErr result (0 < length (items_in outcomes.now)) }
    ensures on { GoOn many.old many.new }
    ensures changed { result ≡ Err Changed → CanMakeAll many.old hits.now outcomes.now → ⊥ }
    ensures failed { result ≡ Err Failed → HaveFailed many.old many.new }
{
    standing_stays();
    let mut files = Vec::new(alloc);
    for (key, outcome) in outcomes {
        if let Outcome::File(item) = outcome {
            let made = item_once_more(alloc, many, hits, *key, item)?;
            push_item(&mut files, *key, made)?;
        }
    }
    Ok(files)
}
