ghost use Rattle.std.specs.Prelude.{◌≡◌, ◌∷◌, ◌++◌, codes, Ok, IfOk, OnOk};
ghost use Rattle.br_model.specs.Bootstrap.{range_text, range_lines, group_text, canonical};
ghost use Rattle.br_model.specs.BootstrapText.{read_bootstrap};
ghost use Rattle.br_model.specs.Text.{line};

use crate::bootstrap::Bootstrap;
use crate::group::Group;
use crate::range::Range;
use br_model::canonical_reads_back;
use br_types::push_number;
use std::alloc::{AllocError, Global};

/// Appends one number, or two with a dash between them.
pub fn push_range(text: &mut Vec<u8>, range: Range) -> Result<(), AllocError>
    ensures { OnOk result (text.new.items ≡ text.old.items ++ range_text range) }
{
    push_number(text, range.low)?;
    if range.low != range.high {
        text.push(b'-')?;
        push_number(text, range.high)?;
    }
    Ok(())
}

/// Appends a line `keyword=range`.
fn push_range_line(text: &mut Vec<u8>, keyword: &[u8], range: Range) -> Result<(), AllocError>
    ensures { OnOk result (text.new.items ≡ text.old.items ++ line (keyword.now ++ 61 ∷ range_text range)) }
{
    text.extend_from_slice(keyword)?;
    text.push(b'=')?;
    push_range(text, range)?;
    text.push(b'\n')?;
    Ok(())
}

/// Appends a line for each range.
fn push_ranges(text: &mut Vec<u8>, keyword: &[u8], ranges: &[Range]) -> Result<(), AllocError>
    ensures { OnOk result (text.new.items ≡ text.old.items ++ range_lines keyword.now ranges.now) }
{
    for range in ranges {
        push_range_line(text, keyword, *range)?;
    }
    Ok(())
}

/// Appends the line that names a volume.
fn push_volume(text: &mut Vec<u8>, name: &[u8]) -> Result<(), AllocError>
    ensures { OnOk result (text.new.items ≡ text.old.items ++ line (codes "Volume=\"" ++ name.now ++ codes "\"")) }
{
    text.extend_from_slice(b"Volume=\"")?;
    text.extend_from_slice(name)?;
    text.extend_from_slice(b"\"\n")?;
    Ok(())
}

/// Appends the lines of a group.
fn push_group(text: &mut Vec<u8>, group: &Group) -> Result<(), AllocError>
    ensures { OnOk result (text.new.items ≡ text.old.items ++ group_text group.now) }
{
    push_volume(text, group.vol.bytes())?;
    push_ranges(text, b"VolSessionId", &group.session_ids)?;
    push_ranges(text, b"VolSessionTime", &group.session_times)?;
    push_ranges(text, b"VolFile", &group.files)?;
    push_ranges(text, b"VolBlock", &group.blocks)?;
    push_ranges(text, b"VolAddr", &group.addrs)?;
    push_ranges(text, b"FileIndex", &group.indexes)?;
    push_ranges(text, b"Stream", &group.streams)?;
    Ok(())
}

/// Returns the lines of the groups.
#[tactic(auto, unfolding(br_model::specs::Bootstrap::canonical))]
fn text_of(alloc: Global, groups: &[Group]) -> Result<Vec<u8>, AllocError>
    ensures { IfOk result (λ text. text.items ≡ canonical groups.now) }
{
    let mut text = Vec::new(alloc);
    for group in groups {
        push_group(&mut text, group)?;
    }
    Ok(text)
}

/// Returns the canonical text of a bootstrap, which `read_bootstrap` reads back. Each group is a
/// line `Volume="name"` and a line for each range: `Keyword=a-b`, or `Keyword=a` if both ends are
/// equal. Keywords are in the order VolSessionId, VolSessionTime, VolFile, VolBlock, VolAddr,
/// FileIndex, Stream. There are no blanks, and each line ends with LF.
pub fn write_bootstrap(alloc: Global, bootstrap: &Bootstrap) -> Result<Vec<u8>, AllocError>
    ensures canonical { IfOk result (λ text. text.items ≡ canonical bootstrap.now) }
    ensures reads_back { IfOk result (λ text. read_bootstrap text.items ≡ Ok bootstrap.now) }
{
    canonical_reads_back();
    let groups = bootstrap.groups();
    text_of(alloc, groups)
}
