ghost use Rattle.std.specs.Prelude.{◌≡◌, ◌∷◌, List, ℕ, IfOk, OnOk};
ghost use Rattle.br_session.specs.Spans.{length_at, AreLengths};

use br_types::VolName;
use std::alloc::{AllocError, Global};
use std::collections::BTreeMap;

/// Sets the length of a volume.
pub(crate) fn set_length<'a>(
    lengths: &mut BTreeMap<&'a [u8], u64>,
    vol: &'a VolName,
    length: u64,
) -> Result<(), AllocError>
    ensures { OnOk result ((list : List (List ℕ × ℕ)) → AreLengths lengths.old list → AreLengths lengths.new ((vol.now, length) ∷ list)) }
{
    lengths.insert(vol.bytes(), length)?;
    Ok(())
}

/// Returns the length of a volume; 0 if it is not in the map.
pub(crate) fn length_of<'a>(lengths: &BTreeMap<&'a [u8], u64>, vol: &'a VolName) -> u64
    ensures { result ≡ length_at lengths.now vol.now }
{
    lengths.get(&vol.bytes()).copied().unwrap_or(0)
}

/// Returns the lengths by name, of which the first for each name counts.
pub(crate) fn lengths_of(
    alloc: Global,
    starts: &[(VolName, u64)],
) -> Result<BTreeMap<&[u8], u64>, AllocError>
    ensures { IfOk result (λ lengths. AreLengths lengths starts.now) }
{
    let mut lengths = BTreeMap::new(alloc);
    for (vol, length) in starts.iter().rev() {
        set_length(&mut lengths, vol, *length)?;
    }
    Ok(lengths)
}
