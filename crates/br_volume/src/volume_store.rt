ghost use Rattle.std.specs.Prelude.{◌≡◌, ◌≤◌, List, Option, IfOk, OnOk, OnErr};
ghost use Rattle.br_model.specs.Volume.{Volume};
ghost use Rattle.br_volume.specs.Store.{AppendsTo, AppendsInPartTo, Failures, FailsOn, IsDurableIn, IsLengthIn, AppendsAddUp, Lasts};

use crate::fault::VolumeFault;
use br_types::VolName;

/// A writer that appends to volumes, by name.
pub trait VolumeStore {
    /// The volumes that the store has, if it tells them. A store over memory does, one over the
    /// system's files does not.
    ghost holds: { Self → Option (List Volume) };

    /// The volumes that a crash leaves, with the bytes of them that it leaves at least, if the store
    /// tells them. `MayBeLeft` says what else it may leave.
    ghost durable: { Self → Option (List Volume) };

    /// The calls that have failed: their number, and the volume at which the last of them did.
    ghost failures: { Self → Failures };

    /// Appends bytes to a volume. A volume that does not exist is made first, even if there are no
    /// bytes.
    ///
    /// # Errors
    ///
    /// `Failed` if the store failed. Then nothing is changed, or the first of the bytes are
    /// appended.
    fn append(&mut self, vol: &VolName, bytes: &[u8]) -> Result<(), VolumeFault>
        ensures appended { OnOk result (AppendsTo vol.now bytes.now (holds self.old) (holds self.new)) }
        ensures refused { OnErr result (AppendsInPartTo vol.now bytes.now (holds self.old) (holds self.new)) }
        ensures lasts { Lasts (durable self.old) (durable self.new) }
        ensures counted { (failures self.old).number ≤ (failures self.new).number }
        ensures clean { OnOk result (failures self.new ≡ failures self.old) }
        ensures failed { OnErr result (FailsOn vol.now (failures self.old) (failures self.new)) };

    /// Returns the length of a volume in bytes; 0 if the volume does not exist. Changes no volume.
    ///
    /// # Errors
    ///
    /// `Failed` if the store failed.
    fn length(&mut self, vol: &VolName) -> Result<u64, VolumeFault>
        ensures told { IfOk result (λ n. IsLengthIn (holds self.old) vol.now n) }
        ensures same { holds self.new ≡ holds self.old }
        ensures settled { durable self.new ≡ durable self.old }
        ensures counted { (failures self.old).number ≤ (failures self.new).number }
        ensures clean { OnOk result (failures self.new ≡ failures self.old) }
        ensures failed { OnErr result (FailsOn vol.now (failures self.old) (failures self.new)) };

    /// Makes a volume durable: its name, and all its bytes. Does nothing if the volume does not
    /// exist.
    ///
    /// # Errors
    ///
    /// `Failed` if the store failed. A system may drop what was not durable then, and let a later
    /// call succeed. So a volume whose sync failed is not to be appended to again, and by `clean` no
    /// caller may try again and say that all is well.
    fn sync(&mut self, vol: &VolName) -> Result<(), VolumeFault>
        ensures synced { OnOk result (IsDurableIn (holds self.new) (durable self.new) vol.now) }
        ensures same { holds self.new ≡ holds self.old }
        ensures lasts { Lasts (durable self.old) (durable self.new) }
        ensures counted { (failures self.old).number ≤ (failures self.new).number }
        ensures clean { OnOk result (failures self.new ≡ failures self.old) }
        ensures failed { OnErr result (FailsOn vol.now (failures self.old) (failures self.new)) };
}

/// States that blocks which are appended one after another are all appended, each to its volume.
#[tactic(auto, using(crate::proofs::AppendLaws::appends_add_up_lem))]
pub fn appends_add_up()
    ensures { AppendsAddUp }
{}
