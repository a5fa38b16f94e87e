//! Files of a delivery: a list for contracts only. It takes no bytes.
ghost use Rattle.std.specs.Prelude.{◌≡◌, ◌++◌, ◌∷◌, [], List};
ghost use Rattle.std.specs.Borrow.{ftrue};
ghost use Rattle.br_model.specs.File as model;
ghost use Rattle.br_sink.specs.FileParts.{with_bytes};

use br_data::FileBytes;
use br_join::Item;
use std::marker::Model;

/// Files, in their order.
#[derive(Drop)]
pub struct DeliveredFiles {
    pub ghost items: { List model.Item },
}

impl Model for DeliveredFiles {
    ghost also_owns = { λ _. ftrue };
}

impl DeliveredFiles {
    /// Returns no files.
    pub fn none() -> DeliveredFiles
        ensures { result.items ≡ [] }
    {
        DeliveredFiles {}
    }

    /// Returns these files and one more.
    pub fn and(_before: &DeliveredFiles, _item: &Item) -> DeliveredFiles
        ensures { result.items ≡ _before.now.items ++ _item.now ∷ [] }
    {
        DeliveredFiles {}
    }

    /// Returns these files and one more, the item with these bytes.
    pub(crate) fn and_with(
        _before: &DeliveredFiles,
        _item: &Item,
        _bytes: &FileBytes,
    ) -> DeliveredFiles
        ensures { result.items ≡ _before.now.items ++ with_bytes _item.now _bytes.now ∷ [] }
    {
        DeliveredFiles {}
    }
}
