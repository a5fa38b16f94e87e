//! Bytes of fragments that are held, or read again from a drive in memory.
ghost use Rattle.std.specs.Prelude.{Some};
ghost use Rattle.br_data.specs.KnownBlocks.{IsKnown};

use crate::printing::shown;
use crate::volumes::drive_of;
use br_data::{Again, Data, FragmentPlace};
use br_test_support::Case;
use br_volume::MemDrive;
use std::sync::ArcSlice;

/// Makes data with these bytes. They are let go unless the word is `held`.
fn data_of(case: &mut Case, word: &str, bytes: &str) -> Option<Data> {
    let bytes = case.bytes_of(bytes);
    match ArcSlice::from_vec(bytes) {
        Ok(shared) => {
            let mut data = Data::new(shared);
            if word != "held" {
                data.let_go();
            }
            Some(data)
        }
        Err(_fault) => {
            case.fail("out of memory");
            None
        }
    }
}

/// Prints the bytes of the data, or why they were not read.
fn push_data(
    case: &mut Case,
    again: &mut Again,
    drive: &mut MemDrive,
    place: &FragmentPlace<'_>,
    data: &Data,
)
    requires known { IsKnown (Some drive.old.volumes) again.old }
    ensures known { IsKnown (Some drive.new.volumes) again.new }
{
    if let Err(fault) = again.prepare(drive, place, data) {
        shown(case, &fault);
        return;
    }
    match again.bytes_of(place.ordinal, data) {
        Ok(bytes) => {
            case.bytes(bytes);
            case.text(" ");
        }
        Err(fault) => shown(case, &fault),
    }
}

/// Prints the bytes that were found at a place, for `WORD:NAME:ADDR:ORDINAL:BYTES`.
fn read(case: &mut Case, again: &mut Again, drive: &mut MemDrive, field: &str)
    requires known { IsKnown (Some drive.old.volumes) again.old }
    ensures known { IsKnown (Some drive.new.volumes) again.new }
{
    let (word, rest) = case.split(field, ':');
    let (name, rest) = case.split(rest, ':');
    let (addr, rest) = case.split(rest, ':');
    let (ordinal, bytes) = case.split(rest, ':');
    let (addr, ordinal) = (case.u64_of(addr), case.u32_of(ordinal));
    let vol = case.vol_of(name);
    let data = data_of(case, word, bytes);
    if let (Some(vol), Some(data)) = (&vol, &data) {
        let place = FragmentPlace { vol, addr, ordinal };
        push_data(case, again, drive, &place, data);
    }
}

/// Prints the bytes that were found at some places, and the number of bytes that the drive gave.
pub(crate) fn read_all(case: &mut Case, kind: &str, volumes: &str, tails: &str, places: &[&str]) {
    let mut drive = drive_of(case, kind, volumes, tails);
    let mut again = Again::new(case.alloc());
    for place in places {
        read(case, &mut again, &mut drive, place);
    }
    case.text("gave ");
    case.number(drive.bytes_read());
}
