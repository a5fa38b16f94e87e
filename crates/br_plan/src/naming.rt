ghost use Rattle.std.specs.Prelude.{◌≡◌, map, IfOk, OnOk};
ghost use Rattle.std.specs.FinMap as finite;
ghost use Rattle.br_plan.specs.Selected.{key_of, named_pair};

use br_tree::Shown;
use br_types::{FileKey, Names, Path};
use br_view::Entry;
use std::alloc::{AllocError, Global};

/// Sets the path of an entry's file.
fn set_name(alloc: Global, names: &mut Names, path: &Path, entry: &Entry) -> Result<(), AllocError>
    ensures { OnOk result (names.new ≡ finite.insert names.old (key_of entry.now) path.now) }
{
    let key = FileKey {
        session: entry.session,
        index: entry.index,
    };
    names.insert(key, path.copy(alloc)?)?;
    Ok(())
}

/// Returns the paths under which the files of the entries are restored.
pub(crate) fn names_of(alloc: Global, entries: &[Shown<'_>]) -> Result<Names, AllocError>
    ensures { IfOk result (λ names. names ≡ finite.from_entries (map named_pair entries.now)) }
{
    let mut names = Names::new(alloc);
    for (path, entry) in entries.iter().rev() {
        set_name(alloc, &mut names, path, entry)?;
    }
    Ok(names)
}
