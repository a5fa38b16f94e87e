ghost use Rattle.std.specs.Prelude.{◌≡◌, ◌∷◌, ◌++◌, length, map, flat_map, decimal, Ok, Err, OnOk};
ghost use Rattle.std.specs.List.{join_with_byte};
ghost use Rattle.br_model.specs.Attribute.{stat_numbers};
ghost use Rattle.br_model.specs.Manifest.{fault_fields, file_line, item_fields, key_fields};
ghost use Rattle.br_model.specs.Text.{escaped, hexadecimal, signed_decimal};
ghost use Rattle.br_join.specs.Outcome.{restored};
ghost use Rattle.br_sink.specs.Fault.{fault_of};
ghost use Rattle.md5.specs.Md5.{md5};

use crate::manifest_text::{push_field, push_signed};
use br_attr::Stat;
use br_join::{FileBytes, Item, Outcome};
use br_types::{FileKey, push_escaped, push_hexadecimal};
use std::alloc::AllocError;

/// The count of numbers that a file has.
const COUNT: usize = 14;

/// Appends session and index.
fn push_key(text: &mut Vec<u8>, key: FileKey) -> Result<(), AllocError>
    ensures { OnOk result (text.new.items ≡ text.old.items ++ 32 ∷ join_with_byte 32 (key_fields key)) }
{
    push_field(text, u64::from(key.session.id))?;
    push_field(text, u64::from(key.session.time))?;
    push_field(text, u64::from(key.index.get()))
}

/// The numbers of a file in their order.
fn numbers_of(stat: &Stat) -> [i64; COUNT]
    ensures { result ≡ stat_numbers stat.now }
{
    [
        stat.dev(),
        stat.ino(),
        stat.mode(),
        stat.nlink(),
        stat.uid(),
        stat.gid(),
        stat.rdev(),
        stat.size(),
        stat.blksize(),
        stat.blocks(),
        stat.atime(),
        stat.mtime(),
        stat.ctime(),
        stat.link_index(),
    ]
}

/// Appends numbers, each after a comma.
fn push_more_numbers(text: &mut Vec<u8>, numbers: &[i64]) -> Result<(), AllocError>
    ensures { OnOk result (text.new.items ≡ text.old.items ++ flat_map (λ n. 44 ∷ signed_decimal n) numbers.now) }
{
    for number in numbers {
        text.push(b',')?;
        push_signed(text, *number)?;
    }
    Ok(())
}

/// Appends the numbers of a file with a comma between two.
fn push_stat(text: &mut Vec<u8>, stat: &Stat) -> Result<(), AllocError>
    ensures { OnOk result (text.new.items ≡ text.old.items ++ join_with_byte 44 (map signed_decimal (stat_numbers stat.now))) }
{
    let numbers = numbers_of(stat);
    push_signed(text, numbers[0])?;
    push_more_numbers(text, &numbers[1..])
}

/// Appends a space and the path, as it is printed.
fn push_path(text: &mut Vec<u8>, path: &[u8]) -> Result<(), AllocError>
    ensures { OnOk result (text.new.items ≡ text.old.items ++ 32 ∷ escaped path.now) }
{
    text.push(b' ')?;
    push_escaped(text, path)
}

/// Appends a space, an equals sign and the link text.
fn push_link(text: &mut Vec<u8>, link: &[u8]) -> Result<(), AllocError>
    ensures { OnOk result (text.new.items ≡ text.old.items ++ 32 ∷ 61 ∷ escaped link.now) }
{
    text.extend_from_slice(b" =")?;
    push_escaped(text, link)
}

/// Appends a space, the length of the bytes, a space and their digest.
fn push_bytes(text: &mut Vec<u8>, bytes: &FileBytes) -> Result<(), AllocError>
    ensures { OnOk result (text.new.items ≡ text.old.items ++ (32 ∷ decimal (length bytes.now) ++ 32 ∷ hexadecimal (md5 bytes.now))) }
{
    push_field(text, bytes.len())?;
    text.push(b' ')?;
    push_hexadecimal(text, &bytes.digest())
}

/// Appends type, path, numbers, link text, length and digest of a file.
fn push_item(text: &mut Vec<u8>, item: &Item) -> Result<(), AllocError>
    ensures { OnOk result (text.new.items ≡ text.old.items ++ 32 ∷ join_with_byte 32 (item_fields item.now)) }
{
    push_field(text, u64::from(item.kind))?;
    push_path(text, item.path.bytes())?;
    text.push(b' ')?;
    push_stat(text, &item.stat)?;
    push_link(text, &item.link)?;
    push_bytes(text, &item.bytes)
}

/// Appends the number of a fault, and after 65 the stream.
fn push_cause(text: &mut Vec<u8>, number: u32, stream: u32) -> Result<(), AllocError>
    ensures { OnOk result (text.new.items ≡ text.old.items ++ 32 ∷ join_with_byte 32 (fault_fields (fault_of number stream))) }
{
    push_field(text, u64::from(number))?;
    if number == 65 {
        push_field(text, u64::from(stream))?;
    }
    Ok(())
}

/// Appends the line of a file.
fn push_file(text: &mut Vec<u8>, key: FileKey, item: &Item) -> Result<(), AllocError>
    ensures { OnOk result (text.new.items ≡ text.old.items ++ file_line (record { key = key; outcome = Ok item.now })) }
{
    text.push(b'F')?;
    push_key(text, key)?;
    push_item(text, item)?;
    text.push(b'\n')?;
    Ok(())
}

/// Appends the line of a fault.
fn push_fault(text: &mut Vec<u8>, key: FileKey, number: u32, stream: u32) -> Result<(), AllocError>
    ensures { OnOk result (text.new.items ≡ text.old.items ++ file_line (record { key = key; outcome = Err (fault_of number stream) })) }
{
    text.push(b'X')?;
    push_key(text, key)?;
    push_cause(text, number, stream)?;
    text.push(b'\n')?;
    Ok(())
}

/// Appends the line of an outcome: `F` or `X`, its key, and its fields.
pub(crate) fn push_line(
    text: &mut Vec<u8>,
    key: FileKey,
    outcome: &Outcome,
) -> Result<(), AllocError>
    ensures { OnOk result (text.new.items ≡ text.old.items ++ file_line (restored (key, outcome.now))) }
{
    match outcome {
        Outcome::File(item) => push_file(text, key, item),
        Outcome::Fault { number, stream } => push_fault(text, key, *number, *stream),
    }
}
