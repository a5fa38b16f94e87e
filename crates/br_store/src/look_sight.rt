ghost use Rattle.std.specs.Prelude.{◌≡◌, ℕ, ◌≤◌, length, take, drop, Option, IfOk};
ghost use Rattle.br_store.specs.Scene.{At, Scene, bytes_of, log_front};

use crate::look_fault::LookFault;
use crate::look_source::Source;
use crate::look_stamp::Stamp;

/// The file of a catalogue and what lies beside it, to be looked at. No call writes to a file or makes
/// one. Other programs may change them between two calls.
pub trait Sight {
    /// The file and its log, if it has one, open for reading.
    type Files: Drop;

    /// The file and its log at each moment, and whether there is a journal, if the sight tells them.
    /// One over memory does, that of the system does not.
    ghost told: { Self → Option (ℕ → Scene) };

    /// The moment at which the last call looked.
    ghost moment: { Self → ℕ };

    /// Opens the file and its log.
    ///
    /// # Errors
    ///
    /// `InUse` if another program writes to them.
    fn open(&mut self) -> Result<Self::Files, LookFault>
        ensures same { told self.new ≡ told self.old }
        ensures later { moment self.old ≤ moment self.new };

    /// Returns whether a journal lies beside the file that has to be rolled back.
    fn has_journal(&mut self) -> Result<bool, LookFault>
        ensures journal { IfOk result (λ has. At (told self.old) (moment self.new) (λ scene. scene.has_journal ≡ has)) }
        ensures same { told self.new ≡ told self.old }
        ensures later { moment self.old ≤ moment self.new };

    /// Returns the length of the file, and the values that show whether it was changed.
    ///
    /// # Errors
    ///
    /// `InUse` if the names lead to other files by now, or a log has come.
    fn stamp(&mut self, files: &Self::Files) -> Result<Stamp, LookFault>
        ensures stamp { IfOk result (λ stamp. At (told self.old) (moment self.new) (λ scene. scene.stamp ≡ stamp)) }
        ensures len { IfOk result (λ stamp. At (told self.old) (moment self.new) (λ scene. stamp.len ≡ length scene.bytes)) }
        ensures same { told self.new ≡ told self.old }
        ensures later { moment self.old ≤ moment self.new };

    /// Reads the header of the log into the buffer. Returns the number of its bytes, which is less than
    /// the buffer's length only if the log has no more bytes.
    fn read_header(&mut self, files: &Self::Files, buf: &mut [u8]) -> Result<usize, LookFault>
        requires { length buf.old ≡ 32 }
        ensures fits { IfOk result (λ n. n ≤ length buf.new) }
        ensures front { IfOk result (λ n. At (told self.old) (moment self.new) (λ scene. log_front scene ≡ take n buf.new)) }
        ensures same { told self.new ≡ told self.old }
        ensures later { moment self.old ≤ moment self.new };

    /// Returns the length of the log: 0 if there is none.
    fn log_len(&mut self, files: &Self::Files) -> Result<u64, LookFault>
        ensures len { IfOk result (λ len. At (told self.old) (moment self.new) (λ scene. len ≡ length scene.log)) }
        ensures same { told self.new ≡ told self.old }
        ensures later { moment self.old ≤ moment self.new };

    /// Reads bytes of one of the files, from this place on, into the beginning of the buffer. Returns
    /// their number, maybe fewer than there are.
    fn read_at(
        &mut self,
        files: &Self::Files,
        source: Source,
        buf: &mut [u8],
        at: usize,
    ) -> Result<usize, LookFault>
        ensures fits { IfOk result (λ n. n ≤ length buf.new) }
        ensures read { IfOk result (λ n. At (told self.old) (moment self.new) (λ scene. take n buf.new ≡ take n (drop at (bytes_of source scene)))) }
        ensures same { told self.new ≡ told self.old }
        ensures later { moment self.old ≤ moment self.new };

    /// Waits for a moment.
    ///
    /// # Errors
    ///
    /// `InUse` if it has been waited for long enough.
    fn wait(&mut self) -> Result<(), LookFault>
        ensures same { told self.new ≡ told self.old }
        ensures later { moment self.old ≤ moment self.new };
}
