ghost use Rattle.std.specs.Prelude.{◌≡◌, ◌≤◌, [], false, map, reverse, length, vec_capacity};
ghost use Rattle.std.specs.List.{AllByRecursion};

use crate::worker::Reader;
use br_volume::Drive;

/// Makes a reader of each drive, the last drive first. No drive is out.
pub(crate) fn into_readers<D: Drive>(drives: &mut Vec<D>, readers: &mut Vec<Reader<D>>)
    requires none { readers.old.items ≡ [] }
    requires room { length drives.old.items ≤ vec_capacity readers.old }
    ensures none { drives.new.items ≡ [] }
    ensures many { length readers.new.items ≡ length drives.old.items }
    ensures room { vec_capacity drives.new ≡ vec_capacity drives.old }
    ensures drives { reverse (map (λ (r : Reader D). r.drive) readers.new.items) ≡ drives.old.items }
    ensures fresh { AllByRecursion (λ (r : Reader D). r.out ≡ false) readers.new.items }
{
    while !drives.is_empty() {
        readers.push_reserved(Reader {
            drive: drives.take_last(),
            out: false,
        });
    }
}

/// Takes the readers apart, the last one first. Their drives go back.
pub(crate) fn out_of_readers<D: Drive>(mut readers: Vec<Reader<D>>, drives: &mut Vec<D>)
    requires none { drives.old.items ≡ [] }
    requires room { length readers.items ≤ vec_capacity drives.old }
    ensures { drives.new.items ≡ reverse (map (λ (r : Reader D). r.drive) readers.items) }
{
    while !readers.is_empty() {
        let Reader { drive, out: _out } = readers.take_last();
        drives.push_reserved(drive);
    }
    readers.destroy_empty();
}
