use br_engine::Extracted;

/// Whether the lines of a dialogue were accepted.
#[derive(Clone, Copy)]
pub enum LineVerdict {
    AllAccepted,
    SomeRefused,
}

/// How a session ended.
#[derive(Clone, Copy)]
pub enum SessionEnd {
    /// With `done`.
    Done,
    /// With `quit` or the end of input.
    Quit,
}

/// The result of a console session.
#[derive(Clone, Copy)]
pub struct SessionOutcome {
    pub lines: LineVerdict,
    pub end: SessionEnd,
}

/// How a run of the console ended.
#[derive(Drop)]
pub enum End {
    /// The dialogue ended with `done`, and the marked files were restored.
    Done(Extracted),
    /// The dialogue ended with `quit` or the end of input.
    Quit,
}

/// The result of a run of the console.
#[derive(Drop)]
pub struct ConsoleRun {
    pub lines: LineVerdict,
    pub end: End,
}
