//! How the counts of a text match its groups.
ghost use Rattle.br_bsr.specs.Counts.{EachGroupHasOne};

/// Each group that a text states has one place among the counts of the text.
#[tactic(auto, using(crate::proofs::GroupLaws::each_group_has_one_lem))]
pub fn each_group_has_one()
    ensures { EachGroupHasOne }
{}
