/// One of the two files of a catalogue.
#[derive(Clone, Copy)]
pub enum Source {
    /// The file of the database.
    Main,
    /// The log beside it, with what was committed and is not in the file yet.
    Log,
}
