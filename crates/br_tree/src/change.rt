ghost use Rattle.std.specs.Prelude.{◌≡◌};
ghost use Rattle.br_tree.specs.Change.{flag_of};

/// What a change does to the marks of the paths that are meant.
#[derive(Clone, Copy)]
pub(crate) enum Change {
    /// It sets them.
    Mark,
    /// It removes them.
    Unmark,
}

impl Change {
    /// Returns the flag of a path after the change.
    pub(crate) fn flag(self) -> bool
        ensures { result ≡ flag_of self }
    {
        match self {
            Change::Mark => true,
            Change::Unmark => false,
        }
    }
}

/// The paths of a directory that are meant.
#[derive(Clone, Copy)]
pub(crate) enum Meant<'p> {
    /// The names that match the pattern, and all below the directories among them.
    Names(&'p [u8]),
    /// The own paths of the directories that match; without a pattern the path of the directory.
    Directories(Option<&'p [u8]>),
}
