ghost use Rattle.std.specs.Prelude.{◌≡◌, [], length, Err, IfOk};
ghost use Rattle.br_data.specs.declared.reread_fault.AgainFault.TheVariants.{Changed, Failed};
ghost use Rattle.br_data.specs.ManyDrives.{GivesMany, GoOn, HaveFailed, driven_by};

use crate::data::Data;
use crate::data_place::FragmentPlace;
use crate::reread_blocks::Again;
use crate::reread_data::read_again;
use crate::reread_fault::AgainFault;
use crate::spot::Spot;
use br_bsr::Group;
use br_volume::Drive;
use std::alloc::Global;
use std::marker::Model;
use std::mem;

/// Rereads data from the volumes that its drives show; each drive shows all volumes. One drive
/// reads until it fails, and then the first one that does not. The number of a group among the
/// groups of the bootstrap says which volume that is.
#[derive(Drop)]
pub struct OverMany<'b, D: Drive> {
    drives: Vec<D>,
    groups: &'b [Group],
    /// The number of the drive that reads.
    at: usize,
    /// The block that this drive read last.
    again: Again,
}

impl<'b, D: Drive> Model for OverMany<'b, D> {
    ghost use Rattle.br_data.specs.ManyDrives.{IsKnownAt, RereadingMany, driven_by};

    ghost Value = { RereadingMany };

    ghost view = { λ m. record { drives = driven_by D.shows D.failures m.drives.items; groups = m.groups.now } };

    ghost invariant = { λ m. IsKnownAt D.shows m.drives.items m.at m.again };
}

impl<'b, D: Drive> OverMany<'b, D> {
    /// Returns a reader over these drives that has read nothing yet.
    pub fn new(alloc: Global, drives: Vec<D>, groups: &'b [Group]) -> OverMany<'b, D>
        ensures drives { result.drives ≡ driven_by D.shows D.failures drives.items }
        ensures groups { result.groups ≡ groups.now }
    {
        OverMany {
            drives,
            groups,
            at: 0,
            again: Again::new(alloc),
        }
    }

    /// Returns the drives, each in its place.
    pub fn into_drives(self) -> Vec<D>
        ensures { driven_by D.shows D.failures result.items ≡ self.entry.drives }
    {
        self.drives
    }

    /// Returns the number of drives.
    pub fn count(&self) -> usize
        ensures { result ≡ length self.now.drives }
    {
        self.drives.len()
    }

    /// Returns the groups of the bootstrap.
    pub fn groups(&self) -> &'b [Group]
        ensures { result.now ≡ self.now.groups }
    {
        self.groups
    }

    /// Takes the whole value out, with its drives. This one has no drives after that.
    pub fn take(&mut self, alloc: Global) -> OverMany<'b, D>
        ensures taken { result ≡ self.old }
        ensures none { self.new ≡ record { drives = []; groups = self.old.groups } }
    {
        let none = OverMany::new(alloc, Vec::new(alloc), self.groups);
        mem::replace(self, none)
    }

    /// Puts a value back that was taken out.
    pub fn put_back(&mut self, taken: OverMany<'b, D>)
        requires none { self.old.drives ≡ [] }
        ensures { self.new ≡ taken.entry }
    {
        let none = mem::replace(self, taken);
        none.into_drives().destroy_empty();
    }

    /// Takes the drives out, in order.
    pub fn take_drives(&mut self, alloc: Global) -> Vec<D>
        ensures drives { driven_by D.shows D.failures result.items ≡ self.old.drives }
        ensures none { self.new ≡ record { drives = []; groups = self.old.groups } }
    {
        self.again = Again::new(alloc);
        mem::replace(&mut self.drives, Vec::new(alloc))
    }

    /// Puts drives back, after they were taken out.
    pub fn put_drives(&mut self, alloc: Global, drives: Vec<D>)
        requires none { self.old.drives ≡ [] }
        ensures { self.new ≡ record { drives = driven_by D.shows D.failures drives.items; groups = self.old.groups } }
    {
        self.at = 0;
        self.again = Again::new(alloc);
        let none = mem::replace(&mut self.drives, drives);
        none.destroy_empty();
    }

    /// Returns the data in memory: shared if they are in memory already, else reread.
    ///
    /// # Errors
    ///
    /// `Failed` if each drive failed, `Changed` if no group has this number or a volume no longer has as
    /// many bytes at the place, `Memory` if memory runs out.
    pub fn read(&mut self, alloc: Global, spot: Spot, found: &Data) -> Result<Data, AgainFault>
        ensures same { IfOk result (λ read. GivesMany self.old spot found.now.bytes → read.bytes ≡ found.now.bytes) }
        ensures on { GoOn self.old self.new }
        ensures failed { result ≡ Err Failed → HaveFailed self.old self.new }
        ensures changed { result ≡ Err Changed → GivesMany self.old spot found.now.bytes → ⊥ }
    {
        if found.is_held() {
            return Ok(found.share()?);
        }
        let groups = self.groups;
        match groups.get(spot.group as usize) {
            None if self.count() == 0 => Err(AgainFault::Failed),
            None => Err(AgainFault::Changed),
            Some(group) => {
                let place = FragmentPlace {
                    vol: &group.vol,
                    addr: spot.addr,
                    ordinal: spot.ordinal,
                };
                read_again(
                    alloc,
                    &mut self.drives,
                    &mut self.at,
                    &mut self.again,
                    &place,
                    found,
                )
            }
        }
    }
}
