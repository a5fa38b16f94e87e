//! Data that are read by one drive, and then by the first drive that does not fail.
ghost use Rattle.std.specs.Prelude.{◌≡◌, ◌<◌, ◌≤◌, Err, IfOk};
ghost use Rattle.std.specs.List.{AllZip};
ghost use Rattle.br_volume.specs.Drive.{OnlyGrows};
ghost use Rattle.br_data.specs.KnownBlocks.{IsKnown};
ghost use Rattle.br_data.specs.declared.reread_fault.AgainFault.TheVariants.{Changed, Failed};
ghost use Rattle.br_data.specs.ManyDrives.{FailsAt, HasBytes, HaveBytes, IsKnownAt, StayOn};

use crate::data::Data;
use crate::data_place::FragmentPlace;
use crate::reread_blocks::Again;
use crate::reread_fault::AgainFault;
use crate::standing_stays;
use br_volume::Drive;
use std::alloc::Global;
use std::sync::ArcSlice;

/// Returns the data in memory, read by a drive. The block that was read last is of this drive.
///
/// # Errors
///
/// `Failed` if the drive failed, `Changed` if the volume no longer has as many bytes at the place,
/// `Memory` if memory runs out.
fn read_by<D: Drive>(
    alloc: Global,
    drive: &mut D,
    again: &mut Again,
    place: &FragmentPlace<'_>,
    found: &Data,
) -> Result<Data, AgainFault>
    requires known { IsKnown (D.shows drive.old) again.old }
    ensures known { IsKnown (D.shows drive.new) again.new }
    ensures same { IfOk result (λ read. HasBytes (D.shows drive.old) place.now found.now.bytes → read.bytes ≡ found.now.bytes) }
    ensures grows { OnlyGrows (D.shows drive.old) (D.shows drive.new) }
    ensures counted { D.failures drive.old ≤ D.failures drive.new }
    ensures failed { result ≡ Err Failed → D.failures drive.old < D.failures drive.new }
    ensures changed { result ≡ Err Changed → HasBytes (D.shows drive.old) place.now found.now.bytes → ⊥ }
{
    again.prepare(drive, place, found)?;
    let bytes = again.bytes_of(place.ordinal, found)?;
    Ok(Data::new(ArcSlice::from_slice(alloc, bytes)?))
}

/// Returns the data in memory, read by the drive with this number. The block that was read last is of
/// this drive.
///
/// # Errors
///
/// As `read_by`, and `Failed` if there is no such drive.
fn read_at<D: Drive>(
    alloc: Global,
    drives: &mut Vec<D>,
    at: usize,
    again: &mut Again,
    place: &FragmentPlace<'_>,
    found: &Data,
) -> Result<Data, AgainFault>
    requires known { IsKnownAt D.shows drives.old.items at again.old }
    ensures known { IsKnownAt D.shows drives.new.items at again.new }
    ensures same { IfOk result (λ read. HaveBytes D.shows drives.old.items place.now found.now.bytes → read.bytes ≡ found.now.bytes) }
    ensures stay { StayOn D.shows D.failures drives.old.items drives.new.items }
    ensures failed { result ≡ Err Failed → FailsAt D.failures drives.old.items drives.new.items at }
    ensures changed { result ≡ Err Changed → HaveBytes D.shows drives.old.items place.now found.now.bytes → ⊥ }
{
    match drives.get_mut(at) {
        None => Err(AgainFault::Failed),
        Some(drive) => read_by(alloc, drive, again, place, found),
    }
}

/// Returns the data in memory, read by the first of the drives that does not fail, and the number
/// of this drive. The block that was read last is of it.
///
/// # Errors
///
/// As `read_by`; `Failed` if each drive failed.
fn read_any<D: Drive>(
    alloc: Global,
    drives: &mut Vec<D>,
    again: &mut Again,
    place: &FragmentPlace<'_>,
    found: &Data,
) -> Result<(usize, Data), AgainFault>
    ensures known { IfOk result (λ read. IsKnownAt D.shows drives.new.items read.0 again.new) }
    ensures same { IfOk result (λ read. HaveBytes D.shows drives.old.items place.now found.now.bytes → read.1.bytes ≡ found.now.bytes) }
    ensures stay { StayOn D.shows D.failures drives.old.items drives.new.items }
    ensures failed { result ≡ Err Failed → AllZip (λ x y. D.failures x < D.failures y) drives.old.items drives.new.items }
    ensures changed { result ≡ Err Changed → HaveBytes D.shows drives.old.items place.now found.now.bytes → ⊥ }
{
    standing_stays();
    for at in 0..drives.len() {
        *again = Again::new(alloc);
        match read_at(alloc, drives, at, again, place, found) {
            Ok(read) => return Ok((at, read)),
            Err(AgainFault::Failed) => {}
            Err(AgainFault::Memory) => return Err(AgainFault::Memory),
            Err(AgainFault::Changed) => return Err(AgainFault::Changed),
        }
    }
    Err(AgainFault::Failed)
}

/// Returns the data in memory, read by the first of the drives that does not fail. This drive reads
/// from now on. The block that was read last is of the drive with the number `at`.
///
/// # Errors
///
/// Those of `read_any`.
fn read_by_another<D: Drive>(
    alloc: Global,
    drives: &mut Vec<D>,
    at: &mut usize,
    again: &mut Again,
    place: &FragmentPlace<'_>,
    found: &Data,
) -> Result<Data, AgainFault>
    ensures known { IsKnownAt D.shows drives.new.items at.new again.new }
    ensures same { IfOk result (λ read. HaveBytes D.shows drives.old.items place.now found.now.bytes → read.bytes ≡ found.now.bytes) }
    ensures stay { StayOn D.shows D.failures drives.old.items drives.new.items }
    ensures failed { result ≡ Err Failed → AllZip (λ x y. D.failures x < D.failures y) drives.old.items drives.new.items }
    ensures changed { result ≡ Err Changed → HaveBytes D.shows drives.old.items place.now found.now.bytes → ⊥ }
{
    match read_any(alloc, drives, again, place, found) {
        Ok((first, read)) => {
            *at = first;
            Ok(read)
        }
        Err(fault) => {
            *again = Again::new(alloc);
            Err(fault)
        }
    }
}

/// Returns the data in memory, read by the drive with the number `at`, or if it fails, by the first
/// that does not. This drive reads from now on, and the block that was read last is of it.
///
/// # Errors
///
/// As `read_by`; `Failed` if each drive failed.
pub(crate) fn read_again<D: Drive>(
    alloc: Global,
    drives: &mut Vec<D>,
    at: &mut usize,
    again: &mut Again,
    place: &FragmentPlace<'_>,
    found: &Data,
) -> Result<Data, AgainFault>
    requires known { IsKnownAt D.shows drives.old.items at.old again.old }
    ensures known { IsKnownAt D.shows drives.new.items at.new again.new }
    ensures same { IfOk result (λ read. HaveBytes D.shows drives.old.items place.now found.now.bytes → read.bytes ≡ found.now.bytes) }
    ensures stay { StayOn D.shows D.failures drives.old.items drives.new.items }
    ensures failed { result ≡ Err Failed → AllZip (λ x y. D.failures x < D.failures y) drives.old.items drives.new.items }
    ensures changed { result ≡ Err Changed → HaveBytes D.shows drives.old.items place.now found.now.bytes → ⊥ }
{
    standing_stays();
    match read_at(alloc, drives, *at, again, place, found) {
        Ok(read) => Ok(read),
        Err(AgainFault::Failed) => read_by_another(alloc, drives, at, again, place, found),
        Err(AgainFault::Memory) => Err(AgainFault::Memory),
        Err(AgainFault::Changed) => Err(AgainFault::Changed),
    }
}
