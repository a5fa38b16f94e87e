ghost use Rattle.std.specs.Prelude.{◌≡◌, ◌++◌, OnOk};
ghost use Rattle.std.specs.List.{AllByRecursion};
ghost use Rattle.std.specs.declared.cmp.Ordering.TheVariants.{Less};
ghost use Rattle.br_model.specs.Name.{key_cmp};
ghost use Rattle.br_model.specs.Meaning as model;
ghost use Rattle.br_records.specs.Runs.{AreListed};

use br_match::Hit;
use br_types::FileKey;
use std::alloc::AllocError;

/// Sorts hits by file and place. Of several at one place of one file, the first stays.
pub fn settle(hits: &mut Vec<Hit>) -> Result<(), AllocError>
    ensures listed { OnOk result (AreListed hits.new.items) }
    ensures same { model.hits_of hits.new.items ≡ model.hits_of hits.old.items }
{
    hits.sort_by_key(|hit| (hit.key, hit.spot))?;
    hits.dedup_by_key(|hit| (hit.key, hit.spot));
    Ok(())
}

/// Returns the hits of the files before this one, of this one, and of the files after it.
pub fn around(hits: &[Hit], key: FileKey) -> (&[Hit], &[Hit], &[Hit])
    requires { AreListed hits.now }
    ensures joined { result.0.now ++ (result.1.now ++ result.2.now) ≡ hits.now }
    ensures before { AllByRecursion (λ (h : model.Hit). key_cmp h.key key ≡ Less) result.0.now }
    ensures of_key { AllByRecursion (λ (h : model.Hit). h.key ≡ key) result.1.now }
    ensures after { AllByRecursion (λ (h : model.Hit). key_cmp key h.key ≡ Less) result.2.now }
{
    let (before, rest) = hits.split_at(hits.partition_point(|hit| hit.key < key));
    let (run, after) = rest.split_at(rest.partition_point(|hit| hit.key <= key));
    (before, run, after)
}
