ghost use Rattle.std.specs.Prelude.{◌≡◌, ◌<◌, ◌^◌, length, IfOk, OnOk};
ghost use Rattle.br_model.specs.Answer.{Answers};
ghost use Rattle.br_model.specs.BootstrapText as model;
ghost use Rattle.br_bsr.specs.Fault.{cause};
ghost use Rattle.br_bsr.specs.Line.{statement_view};

use crate::bootstrap::{Bootstrap, MAX_GROUPS};
use crate::fault::BsrFault;
use crate::group::Group;
use crate::scan::first_line;
use crate::statement::{Statement, statement_of};
use br_model::reading_is_the_grammar;
use std::alloc::{AllocError, Global};

/// Adds the statement of a line to the groups of the lines before it.
fn add(alloc: Global, groups: &mut Vec<Group>, statement: Statement) -> Result<(), AllocError>
    requires { length groups.old.items < 2 ^ 32 }
    ensures groups { OnOk result (groups.new.items ≡ model.with_statement groups.old.items (statement_view statement)) }
    ensures few { OnOk result (length groups.new.items < 2 ^ 32) }
{
    match statement {
        Statement::Nothing => {}
        Statement::OnVolume(vol) => {
            if groups.len() >= MAX_GROUPS {
                return Err(AllocError);
            }
            groups.push(Group::on(alloc, vol))?;
        }
        Statement::Admits(criterion, ranges) => {
            if let Some(group) = groups.last_mut() {
                group.admit(criterion, &ranges)?;
            }
        }
    }
    Ok(())
}

/// Reads the lines of a text one after another.
fn groups_in(alloc: Global, text: &[u8]) -> Result<Bootstrap, BsrFault>
    ensures { Answers (λ bootstrap. bootstrap) cause result (model.read_bootstrap text.now) }
{
    let mut groups = Vec::new(alloc);
    let mut rest = text;
    let mut number = 0;
    while !rest.is_empty() {
        let (line, following) = first_line(rest);
        number += 1;
        let statement = match statement_of(alloc, !groups.is_empty(), line) {
            Ok(statement) => statement,
            Err(refusal) => return Err(refusal.at(number)),
        };
        add(alloc, &mut groups, statement)?;
        rest = following;
    }
    Ok(Bootstrap::from_valid(groups))
}

/// Reads the text of a bootstrap. The format is that of "The Bootstrap File" in Bacula's main
/// manual.
///
/// Lines end with LF or CR LF. The last LF may be missing. A line is blank or `keyword = value`,
/// with a comment from the first `#` outside quotes on. Spaces and tabs may surround each part, and
/// the case of keywords is ignored. `Volume` begins a group and takes a name, in quotes or without
/// a space. The criteria VolSessionId, VolSessionTime, VolFile, VolBlock, VolAddr, FileIndex and
/// Stream take numbers of 1 to 20 digits and ranges `a-b`, with commas between them. Several lines
/// of one criterion are one list. Storage, MediaType, Device, Slot and Count are allowed in every
/// line and ignored.
///
/// # Errors
///
/// The fault of the first line that is refused, tested in this order:
/// - `TooLong` for more than 4,096 bytes.
/// - `UnknownKeyword`.
/// - `UnsupportedKeyword` for Client, Job, JobId, JobType, JobLevel and FileRegex.
/// - `VolumeFirst` for a criterion before the first volume.
/// - `BadValue` for a missing `=`, an open quote, or a value that is malformed or outside the
///   keyword's range.
///
/// `Memory` for 2^32 groups or more.
pub fn read_bootstrap(alloc: Global, text: &[u8]) -> Result<Bootstrap, BsrFault>
    ensures exact { Answers (λ bootstrap. bootstrap) cause result (model.read_bootstrap text.now) }
    ensures stated { IfOk result (λ bootstrap. model.IsBootstrapText text.now bootstrap) }
{
    reading_is_the_grammar();
    groups_in(alloc, text)
}
