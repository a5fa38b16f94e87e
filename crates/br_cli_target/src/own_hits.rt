//! The hits of one file among those of many.
ghost use Rattle.std.specs.Prelude.{◌≡◌};
ghost use Rattle.br_cli_target.specs.OwnHits.{hits_of};
ghost use Rattle.br_records.specs.Runs.{AreListed};

use br_match::Hit;
use br_records::around;
use br_types::FileKey;

/// Returns the hits of the file, in time log n.
pub(crate) fn own_hits(hits: &[Hit], key: FileKey) -> &[Hit]
    requires { AreListed hits.now }
    ensures { result.now ≡ hits_of key hits.now }
{
    let (_, own, _) = around(hits, key);
    own
}
