//! The commands of the console, as `help` lists them.

/// A line for each command, and lines that go on with it. No line has over 80 columns.
pub(crate) const HELP: &[u8] = b"\
ls [PATTERN]         lists the names of the folder; `*` is before one that is
                     marked, `+` before a folder that holds marked ones
dir                  lists them with size and moment (UTC), on the terminal
                     alone
cd FOLDER            goes to a folder; `cd ..` goes up
pwd                  prints the folder
find PATTERN         lists the paths whose last name matches, of all folders
mark PATTERN         marks files, and folders with all that is in them
unmark PATTERN       takes these marks away
markdir [PATTERN]    marks folders without what is in them; without a pattern
                     the folder itself
unmarkdir [PATTERN]  takes these marks away
lsmark               lists what is marked below the folder
count                prints how many paths there are, and how many are marked
estimate             prints how many paths are marked, and the bytes of their
                     files
done                 restores what is marked
quit                 ends without a restore
help                 prints this, as `?` does
In a pattern `*` stands for any text and `?` for one byte. A letter that is not
ASCII has several.
Patterns name files of the folder. So mark `/etc/hosts` with two lines:
`cd /etc`, then `mark hosts`.
";
