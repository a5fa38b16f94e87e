//! What a restore does besides the plain one: with several copies of a path, at missing indexes, at
//! a file that can't be written, and with a folder that contains files already.

/// Which files are delivered, if a bootstrap selects several copies of a path.
#[derive(Clone, Copy)]
pub enum Copies {
    /// All copies, in the order of the manifest.
    All,
    /// The newest copy of each path.
    Newest,
}

/// What is printed of the indexes that a bootstrap asks for and that gave no outcome.
#[derive(Clone, Copy)]
pub enum Gaps {
    /// Nothing.
    Unreported,
    /// A line for each run of them.
    Reported,
}

/// What a delivery does at a file that can't be put.
#[derive(Clone, Copy)]
pub enum Stops {
    /// It stops.
    AtFirst,
    /// It leaves the file out and goes on.
    Never,
}

/// What the folder that files are put into may hold before.
#[derive(Clone, Copy)]
pub enum Start {
    /// Nothing.
    Empty,
    /// What an interrupted restore has written there.
    Resumed,
}

/// What `extract` does beside what each restore does.
#[derive(Clone, Copy)]
pub struct Wanted {
    pub copies: Copies,
    pub gaps: Gaps,
    pub stops: Stops,
}
