//! Hits whose data are read again.
ghost use Rattle.std.specs.Prelude.{◌≡◌, ◌∷◌, ◌++◌, [], All, Err, IfOk, OnOk};
ghost use Rattle.std.specs.List.{AllByRecursion};
ghost use Rattle.br_data.specs.declared.reread_fault.AgainFault.TheVariants.{Changed, Failed};
ghost use Rattle.br_model.specs.Meaning as meaning;
ghost use Rattle.br_model.specs.Restored as model;
ghost use Rattle.br_reread_parts.specs.Given.{GivesHit, GivesHits};
ghost use Rattle.br_join.specs.Outcome.{shown};
ghost use Rattle.br_records.specs.Records.{fragments};
ghost use Rattle.br_data.specs.ManyDrives.{GoOn, HaveFailed};

use br_data::{AgainFault, OverMany, standing_stays};
use br_join::{Outcome, outcome_of};
use br_match::Hit;
use br_types::FileKey;
use br_volume::Drive;
use std::alloc::{AllocError, Global};

/// Returns the hit with its data in memory.
///
/// # Errors
///
/// Those of `many`, and `Memory` if memory runs out.
fn read_hit<D: Drive>(
    alloc: Global,
    many: &mut OverMany<'_, D>,
    hit: &Hit,
) -> Result<Hit, AgainFault>
    ensures key { IfOk result (λ read. read.key ≡ hit.now.key) }
    ensures same { IfOk result (λ read. GivesHit many.old hit.now → read ≡ hit.now) }
    ensures on { GoOn many.old many.new }
    ensures changed { result ≡ Err Changed → GivesHit many.old hit.now → ⊥ }
    ensures failed { result ≡ Err Failed → HaveFailed many.old many.new }
{
    let data = many.read(alloc, hit.spot, &hit.data)?;
    Ok(Hit {
        key: hit.key,
        spot: hit.spot,
        stream: hit.stream,
        size: hit.size,
        data,
    })
}

/// Appends a hit.
pub(crate) fn push_hit(hits: &mut Vec<Hit>, hit: Hit) -> Result<(), AllocError>
    ensures { OnOk result (hits.new.items ≡ hits.old.items ++ hit ∷ []) }
{
    hits.push(hit)?;
    Ok(())
}

/// Returns the hits of a file with their data in memory.
///
/// # Errors
///
/// Those of `many`, and `Memory` if memory runs out.
#[tactic(auto, using(br_data::proofs::GoOnLaws::go_itself, br_data::proofs::GoOnLaws::go_more, br_data::proofs::GoOnLaws::failed_on))]
fn read_hits<D: Drive>(
    alloc: Global,
    many: &mut OverMany<'_, D>,
    key: FileKey,
    hits: &[Hit],
) -> Result<Vec<Hit>, AgainFault>
    requires { AllByRecursion (λ (h : meaning.Hit). h.key ≡ key) hits.now }
    ensures keys { IfOk result (λ read. All (λ (h : meaning.Hit). h.key ≡ key) read.items) }
    ensures same { IfOk result (λ read. GivesHits many.old hits.now → read.items ≡ hits.now) }
    ensures on { GoOn many.old many.new }
    ensures changed { result ≡ Err Changed → GivesHits many.old hits.now → ⊥ }
    ensures failed { result ≡ Err Failed → HaveFailed many.old many.new }
{
    standing_stays();
    let mut read = Vec::with_capacity(alloc, hits.len())?;
    for hit in hits {
        let one = read_hit(alloc, many, hit)?;
        push_hit(&mut read, one)?;
    }
    Ok(read)
}

/// Returns the outcome of a file from its fragments, given in order of place; data that were let go
/// are read again.
///
/// # Errors
///
/// Those of `many`, and `Memory` if memory runs out.
pub(crate) fn outcome_by<D: Drive>(
    alloc: Global,
    many: &mut OverMany<'_, D>,
    key: FileKey,
    hits: &[Hit],
) -> Result<Outcome, AgainFault>
    requires { AllByRecursion (λ (h : meaning.Hit). h.key ≡ key) hits.now }
    ensures made { IfOk result (λ outcome. GivesHits many.old hits.now → shown outcome ≡ model.outcome_of key (fragments hits.now)) }
    ensures on { GoOn many.old many.new }
    ensures changed { result ≡ Err Changed → GivesHits many.old hits.now → ⊥ }
    ensures failed { result ≡ Err Failed → HaveFailed many.old many.new }
{
    let read = read_hits(alloc, many, key, hits)?;
    let outcome = outcome_of(alloc, key, &read)?;
    Ok(outcome)
}
