ghost use Rattle.std.specs.Prelude.{◌≡◌};
ghost use Rattle.std.specs.Io.BufRead.{strip_last};
ghost use Rattle.br_cli_listing.specs.LocalCommands.{asked_by, asked_of};

use br_types::trimmed;

/// What a line asks for.
#[derive(Clone, Copy)]
pub enum LocalCommand {
    /// The commands of the console.
    Help,
    /// The names of its folder, with size and moment.
    Dir,
    /// Nothing, by an empty line.
    Nothing,
    /// The end, by the word of other programs.
    Exit,
    /// A long list, by the option of another program.
    LongList,
    /// Another folder, without its name.
    Folder,
    /// Something else, which is for the console.
    Other,
}

/// Returns the line without its line feed, if it has one.
pub(crate) fn without_feed(line: &[u8]) -> &[u8]
    ensures { result.now ≡ strip_last 10 line.now }
{
    match line.split_last() {
        Some((b'\n', front)) => front,
        _ => line,
    }
}

/// Returns the request of a word.
fn asked_by(word: &[u8]) -> LocalCommand
    ensures { result ≡ asked_by word.now }
{
    if word == b"help".as_slice() || word == b"?".as_slice() {
        LocalCommand::Help
    } else if word == b"dir".as_slice() {
        LocalCommand::Dir
    } else if word == b"".as_slice() {
        LocalCommand::Nothing
    } else if word == b"exit".as_slice() {
        LocalCommand::Exit
    } else if word == b"ls -l".as_slice() {
        LocalCommand::LongList
    } else if word == b"cd".as_slice() {
        LocalCommand::Folder
    } else {
        LocalCommand::Other
    }
}

/// Returns the request of a line. The words have to be alone in it, with or without blanks around
/// them.
pub fn asked_of(line: &[u8]) -> LocalCommand
    ensures { result ≡ asked_of line.now }
{
    asked_by(trimmed(without_feed(line)))
}
