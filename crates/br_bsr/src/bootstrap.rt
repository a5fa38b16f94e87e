ghost use Rattle.std.specs.Prelude.{◌≡◌, ◌<◌, ◌^◌, ◌↔◌, true, length, IsSome, IfSome};
ghost use Rattle.std.specs.List.{list_all};
ghost use Rattle.br_model.specs.BootstrapText.{is_group};

use crate::group::Group;
use std::marker::Model;

/// The greatest number of groups of a bootstrap: 2^32 - 1.
pub const MAX_GROUPS: usize = 4_294_967_295;

/// A selection of the records to restore: those that one of its groups hits. It has fewer than 2^32
/// groups, and a text can state each of them.
#[derive(Drop)]
pub struct Bootstrap {
    groups: Vec<Group>,
}

impl Model for Bootstrap {
    ghost use Rattle.std.specs.Prelude.{◌≡◌, ◌<◌, ◌^◌, true, List, length};
    ghost use Rattle.std.specs.List.{list_all};
    ghost use Rattle.br_model.specs.Bootstrap as model;
    ghost use Rattle.br_model.specs.BootstrapText.{is_group};

    ghost Value = { List model.Group };

    ghost view = { λ b. b.groups.items };

    ghost invariant = { λ b. (length b.groups.items < 2 ^ 32) × (list_all is_group b.groups.items ≡ true) };
}

/// Returns whether a text can state each group.
fn are_valid(groups: &[Group]) -> bool
    ensures { result ≡ list_all is_group groups.now }
{
    groups.iter().all(|group| group.is_valid())
}

impl Bootstrap {
    /// Makes the bootstrap of these groups in their order; `None` if there are 2^32 or more, or one
    /// is not valid.
    pub fn new(groups: Vec<Group>) -> Option<Bootstrap>
        ensures valid { IsSome result ↔ ((length groups.items < 2 ^ 32) × (list_all is_group groups.items ≡ true)) }
        ensures value { IfSome result (λ bootstrap. bootstrap ≡ groups.items) }
    {
        if groups.len() <= MAX_GROUPS && are_valid(&groups) {
            Some(Bootstrap::from_valid(groups))
        } else {
            None
        }
    }

    /// Makes the bootstrap of these groups in their order.
    pub fn from_valid(groups: Vec<Group>) -> Bootstrap
        requires few { length groups.items < 2 ^ 32 }
        requires valid { list_all is_group groups.items ≡ true }
        ensures { result ≡ groups.items }
    {
        Bootstrap { groups }
    }

    /// Returns the groups in order.
    pub fn groups(&self) -> &[Group]
        ensures same { result.now ≡ self.now }
        ensures few { length self.now < 2 ^ 32 }
        ensures valid { list_all is_group self.now ≡ true }
    {
        &self.groups
    }
}
