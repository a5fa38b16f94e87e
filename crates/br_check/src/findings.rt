//! The lines of the findings.
ghost use Rattle.std.specs.Prelude.{◌≡◌, ◌++◌, flat_map, map, OnOk};
ghost use Rattle.br_records.specs.Making.{file_fault};
ghost use Rattle.br_records.specs.ShownRecords.{outlined};
ghost use Rattle.br_check.specs.Findings.{empty_line, fault_line, file_line, key_text, named_line, refused_line, stream_text, volume_line};

use br_match::{Found, PieceFault};
use br_records::{FileFault, Sketch};
use br_types::{FileKey, push_escaped, push_number};
use std::alloc::AllocError;

/// Appends the line of a volume that can't be searched.
fn push_fault(text: &mut Vec<u8>, fault: &PieceFault) -> Result<(), AllocError>
    ensures { OnOk result (text.new.items ≡ text.old.items ++ fault_line fault.now) }
{
    match fault {
        PieceFault::Memory => Err(AllocError),
        PieceFault::Block { cause, vol, addr } => {
            text.extend_from_slice(b"volume ")?;
            push_number(text, u64::from(cause.number()))?;
            text.push(b' ')?;
            push_escaped(text, vol.bytes())?;
            text.push(b' ')?;
            push_number(text, *addr)?;
            text.push(b'\n')?;
            Ok(())
        }
    }
}

/// Appends the line of a volume, if it can't be searched.
fn push_volume(text: &mut Vec<u8>, found: &Result<Found, PieceFault>) -> Result<(), AllocError>
    ensures { OnOk result (text.new.items ≡ text.old.items ++ volume_line found.now) }
{
    match found {
        Ok(_) => Ok(()),
        Err(fault) => push_fault(text, fault),
    }
}

/// Appends a line for each volume that can't be searched.
pub(crate) fn push_volumes(
    text: &mut Vec<u8>,
    results: &[Result<Found, PieceFault>],
) -> Result<(), AllocError>
    ensures { OnOk result (text.new.items ≡ text.old.items ++ flat_map volume_line results.now) }
{
    for found in results {
        push_volume(text, found)?;
    }
    Ok(())
}

/// Appends the line of a bootstrap that asks for nothing, if it is one.
pub fn push_empty(text: &mut Vec<u8>, is_empty: bool) -> Result<(), AllocError>
    ensures { OnOk result (text.new.items ≡ text.old.items ++ empty_line is_empty) }
{
    if is_empty {
        return text.extend_from_slice(b"empty\n");
    }
    Ok(())
}

/// Appends session and index of a file.
fn push_key(text: &mut Vec<u8>, key: FileKey) -> Result<(), AllocError>
    ensures { OnOk result (text.new.items ≡ text.old.items ++ key_text key) }
{
    text.push(b' ')?;
    push_number(text, u64::from(key.session.id))?;
    text.push(b' ')?;
    push_number(text, u64::from(key.session.time))?;
    text.push(b' ')?;
    push_number(text, u64::from(key.index.get()))?;
    Ok(())
}

/// Appends the line of a file, which begins with a word and ends with the path.
pub(crate) fn push_named(
    text: &mut Vec<u8>,
    word: &[u8],
    key: FileKey,
    path: &[u8],
) -> Result<(), AllocError>
    ensures { OnOk result (text.new.items ≡ text.old.items ++ named_line word.now (record { key = key; path = path.now })) }
{
    text.extend_from_slice(word)?;
    push_key(text, key)?;
    text.push(b' ')?;
    push_escaped(text, path)?;
    text.push(b'\n')?;
    Ok(())
}

/// Appends the stream of a fault, if it has one.
fn push_stream(text: &mut Vec<u8>, fault: FileFault) -> Result<(), AllocError>
    ensures { OnOk result (text.new.items ≡ text.old.items ++ stream_text (file_fault fault)) }
{
    if let FileFault::Unsupported(stream) = fault {
        text.push(b' ')?;
        push_number(text, u64::from(stream))?;
    }
    Ok(())
}

/// Appends the line of a file that can't be restored.
fn push_refused(text: &mut Vec<u8>, key: FileKey, fault: FileFault) -> Result<(), AllocError>
    ensures { OnOk result (text.new.items ≡ text.old.items ++ refused_line key (file_fault fault)) }
{
    text.extend_from_slice(b"file ")?;
    push_number(text, u64::from(fault.number()))?;
    push_key(text, key)?;
    push_stream(text, fault)?;
    text.push(b'\n')?;
    Ok(())
}

/// Appends the line of a file, if it can't be restored.
fn push_file(text: &mut Vec<u8>, key: FileKey, sketch: &Sketch) -> Result<(), AllocError>
    ensures { OnOk result (text.new.items ≡ text.old.items ++ file_line (outlined (key, sketch.now))) }
{
    match sketch {
        Sketch::File(_) => Ok(()),
        Sketch::Fault(fault) => push_refused(text, key, *fault),
    }
}

/// Appends a line for each file that can't be restored.
pub(crate) fn push_files(
    text: &mut Vec<u8>,
    sketches: &[(FileKey, Sketch)],
) -> Result<(), AllocError>
    ensures { OnOk result (text.new.items ≡ text.old.items ++ flat_map file_line (map outlined sketches.now)) }
{
    for sketch in sketches {
        push_file(text, sketch.0, &sketch.1)?;
    }
    Ok(())
}
