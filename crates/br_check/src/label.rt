//! The name in the label of a volume.
ghost use Rattle.std.specs.Prelude.{◌≡◌, ◌⊎◌, ◌++◌, ◌≤◌, bytes_eq, drop, find, length, OnOk, option_map, take};
ghost use Rattle.br_check.specs.Label as model;
ghost use Rattle.br_check.specs.Shown.{shown_between};
ghost use Rattle.br_check.specs.Label.{AppendsLabel, LabelsOver, is_label, line_by, named_line, other_line};
ghost use Rattle.br_volume.specs.Drive.{OnlyGrows};
ghost use Rattle.br_volume.specs.declared.fault.DriveFault.TheVariants.{Fault, UnknownVolume};

use br_block::{Block, Fragment, Fragments};
use br_piece::Piece;
use br_types::{VolName, place_of, push_escaped};
use br_volume::{Drive, DriveFault};
use std::alloc::{AllocError, Global};

/// The beginning of a label, its mark.
const MARK: &[u8] = b"Bacula 1.0 immortal\n\0";

/// The number of bytes of the mark.
const MARK_LEN: usize = 21;

/// The number of bytes before the name: the mark, a version of four bytes, and four times of eight
/// bytes.
const NAME_AT: usize = 57;

/// The number of bytes at the beginning of a volume that contain its label.
const LABEL_ROOM: u32 = 65_536;

/// Returns the bytes before the first zero, or all if there is none.
fn before_zero(bytes: &[u8]) -> &[u8]
    ensures { result.now ≡ model.before_zero bytes.now }
{
    match place_of(bytes, 0) {
        Some(at) => &bytes[..at],
        None => bytes,
    }
}

/// Returns the bytes at the place of the mark.
fn front(label: &[u8]) -> &[u8]
    requires { 57 ≤ length label.now }
    ensures { result.now ≡ take 21 label.now }
{
    &label[..MARK_LEN]
}

/// Returns the bytes from the place of the name on.
fn rest(label: &[u8]) -> &[u8]
    requires { 57 ≤ length label.now }
    ensures { result.now ≡ drop 57 label.now }
{
    &label[NAME_AT..]
}

/// Returns whether bytes are the mark.
#[tactic(auto, unfolding(crate::specs::Label::mark))]
fn is_mark(bytes: &[u8]) -> bool
    ensures { result ≡ bytes_eq bytes.now model.mark }
{
    bytes == MARK
}

/// Returns the name in a label that is long enough to have one, if it begins with the mark.
fn marked_name(label: &[u8]) -> Option<&[u8]>
    requires { 57 ≤ length label.now }
    ensures { option_map (λ n. n.now) result ≡ model.marked_name label.now }
{
    if is_mark(front(label)) {
        Some(before_zero(rest(label)))
    } else {
        None
    }
}

/// Returns the name in a label.
#[tactic(auto, unfolding(crate::specs::Label::name_in))]
fn name_in(label: &[u8]) -> Option<&[u8]>
    ensures { option_map (λ n. n.now) result ≡ model.name_in label.now }
{
    if label.len() < NAME_AT {
        return None;
    }
    marked_name(label)
}

/// Returns whether a record is the label of a volume.
fn is_label_of(fragment: &Fragment<'_>) -> bool
    ensures { result ≡ is_label fragment.now }
{
    fragment.index < 0 && fragment.index.unsigned_abs() == 2
}

/// Returns the first record that is the label of a volume.
fn first_label<'b>(fragments: Fragments<'b>) -> Option<Fragment<'b>>
    ensures { result ≡ find is_label fragments.entry }
{
    for fragment in fragments {
        if is_label_of(&fragment) {
            return Some(fragment);
        }
    }
    None
}

/// Returns the name in the label of a block.
#[tactic(auto, unfolding(crate::specs::Label::name_in_block))]
fn name_in_block<'b>(block: &Block<'b>) -> Option<&'b [u8]>
    ensures { option_map (λ n. n.now) result ≡ model.name_in_block block.now }
{
    match first_label(block.fragments()) {
        Some(label) => name_in(label.bytes),
        None => None,
    }
}

/// Returns the name in the label of the volume that begins with these bytes.
#[tactic(auto, unfolding(crate::specs::Label::name_at))]
fn name_at(bytes: &[u8]) -> Option<&[u8]>
    ensures { option_map (λ n. n.now) result ≡ model.name_at bytes.now }
{
    match Block::read(bytes) {
        Ok(block) => name_in_block(&block),
        Err(_) => None,
    }
}

/// Appends the line of a volume whose label has this name.
fn push_line(text: &mut Vec<u8>, vol: &VolName, name: &[u8]) -> Result<(), AllocError>
    ensures { OnOk result (text.new.items ≡ text.old.items ++ other_line vol.now name.now) }
{
    text.extend_from_slice(b"label ")?;
    push_escaped(text, vol.bytes())?;
    text.push(b' ')?;
    push_escaped(text, name)?;
    text.push(b'\n')?;
    Ok(())
}

/// Appends the line of a volume whose label has this name, if it is that of another volume.
fn push_other(text: &mut Vec<u8>, vol: &VolName, name: &[u8]) -> Result<(), AllocError>
    ensures { OnOk result (text.new.items ≡ text.old.items ++ named_line vol.now name.now) }
{
    if name == vol.bytes() {
        return Ok(());
    }
    push_line(text, vol, name)
}

/// Appends the line of a volume whose label has this name, if it has one.
fn push_by(text: &mut Vec<u8>, vol: &VolName, name: Option<&[u8]>) -> Result<(), AllocError>
    ensures { OnOk result (text.new.items ≡ text.old.items ++ line_by vol.now (option_map (λ n. n.now) name.entry)) }
{
    match name {
        Some(name) => push_other(text, vol, name),
        None => Ok(()),
    }
}

/// Returns nothing for a volume that could not be read, unless memory ran out.
fn passed(fault: DriveFault) -> Result<(), AllocError>
    ensures { OnOk result ((fault ≡ Fault) ⊎ (fault ≡ UnknownVolume)) }
{
    match fault {
        DriveFault::Memory => Err(AllocError),
        DriveFault::Fault | DriveFault::UnknownVolume => Ok(()),
    }
}

/// Appends the line of a volume, if its label names another volume.
fn push_label<D: Drive>(
    text: &mut Vec<u8>,
    drive: &mut D,
    vol: &VolName,
    buf: &mut Vec<u8>,
) -> Result<(), AllocError>
    ensures tells { OnOk result (AppendsLabel (D.shows drive.new) (D.failures drive.old)
        (D.failures drive.new) vol.now text.old.items text.new.items) }
    ensures grows { OnlyGrows (D.shows drive.old) (D.shows drive.new) }
    ensures counted { D.failures drive.old ≤ D.failures drive.new }
{
    match drive.block_at(vol, 0, LABEL_ROOM, buf) {
        Ok(_) => push_by(text, vol, name_at(buf)),
        Err(fault) => passed(fault),
    }
}

/// Appends a line for each of the volumes whose label names another volume.
pub(crate) fn push_labels<D: Drive>(
    alloc: Global,
    text: &mut Vec<u8>,
    pieces: &[Piece],
    drive: &mut D,
) -> Result<(), AllocError>
    ensures tells { OnOk result
        (LabelsOver (shown_between D.Drive drive.old drive.new) pieces.now text.old.items text.new.items) }
    ensures grows { OnlyGrows (D.shows drive.old) (D.shows drive.new) }
    ensures counted { D.failures drive.old ≤ D.failures drive.new }
{
    let mut buf = Vec::new(alloc);
    for piece in pieces {
        push_label(text, drive, &piece.vol, &mut buf)?;
    }
    Ok(())
}
