ghost use Rattle.std.specs.Prelude.{◌≡◌, ◌<◌, ◌^◌, [], length, OnOk};
ghost use Rattle.br_model.specs.Answer.{AnswersAlways};
ghost use Rattle.br_model.specs.Session.{checked_order};
ghost use Rattle.br_session.specs.Fault.{fault_number};
ghost use Rattle.br_session.specs.Order.{names_bytes, link_back, are_linked_back};

use crate::fault::SessionFault;
use crate::saved::SavedFile;

/// The greatest number of files of a session: 2^31 - 1.
const MAX_FILES: usize = 2_147_483_647;

/// Returns whether the number is that of an earlier file with bytes. The files are numbered from 1.
fn is_file_with_bytes(earlier: &[SavedFile], number: i64) -> bool
    ensures { result ≡ names_bytes earlier.now number }
{
    match usize::try_from(number) {
        Err(_) => false,
        Ok(number) => { 1 <= number && number <= earlier.len() && earlier[number - 1].has_bytes() }
    }
}

/// Returns whether the file is not a hard link, or is one to an earlier file with bytes.
fn is_linked_back(earlier: &[SavedFile], file: &SavedFile) -> bool
    ensures { result ≡ link_back earlier.now file.now }
{
    file.kind() != 1 || is_file_with_bytes(earlier, file.stat().link_index())
}

/// Returns whether each hard link names an earlier file with bytes.
fn are_all_linked_back(files: &[SavedFile]) -> bool
    ensures { result ≡ are_linked_back [] files.now }
{
    for place in 0..files.len() {
        if !is_linked_back(&files[..place], &files[place]) {
            return false;
        }
    }
    true
}

/// Tests the order of files, as `write_session` does first.
///
/// # Errors
///
/// `BadFileOrder` if a hard link does not name an earlier file of type 2 or 3, or there are 2^31
/// files or more.
#[tactic(auto, unfolding(br_model::specs::Session::checked_order))]
pub fn check_order(files: &[SavedFile]) -> Result<(), SessionFault>
    ensures same { AnswersAlways (λ _. files.now) fault_number result (checked_order files.now) }
    ensures few { OnOk result (length files.now < 2 ^ 31) }
{
    if are_all_linked_back(files) && files.len() <= MAX_FILES {
        Ok(())
    } else {
        Err(SessionFault::BadFileOrder)
    }
}
