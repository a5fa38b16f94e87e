/// The answer of a console to a command.
#[derive(Drop)]
pub enum Answer {
    /// Lines to be printed, each with its end.
    Text(Vec<u8>),
    /// The dialogue ends with the marks.
    Done,
    /// The dialogue ends without them.
    Quit,
}
