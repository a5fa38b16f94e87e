//! Laws of the definitions. Each function does nothing, and its clause is the law.
ghost use Rattle.br_types.specs.Newest.{NewestHasEachPath, NewestHasEachPathOnce, PlannedAreNewest};

/// States that the newest files have each path that some files have, by a file that is as new.
pub fn newest_has_each_path()
    ensures { NewestHasEachPath }
{}

/// States that no two of the newest files have one path, if no two of the files have one key.
pub fn newest_has_each_path_once()
    ensures { NewestHasEachPathOnce }
{}

/// States that the files of a planned restore are the newest of their paths: none is left out.
pub fn planned_are_newest()
    ensures { PlannedAreNewest }
{}
