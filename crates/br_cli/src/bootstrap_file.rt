//! The bootstrap in a file, and what is left of it if volumes are lost.
ghost use Rattle.std.specs.Prelude.{◌≡◌, ℕ, false, is_some, length, option_map, None, IfOk, IfSome};
ghost use Rattle.std.specs.Option.{ForSome};
ghost use Rattle.std.specs.Result.{ForOk};
ghost use Rattle.br_damage.specs.NarrowedBootstrap.{IsNarrowedBy, with_volume};
ghost use Rattle.br_cli.specs.LostGroups.{LeavesBy};

use crate::extract_command::ExtractStartFault;
use br_bsr::{Bootstrap, BsrFault};
use br_cli_progress::Gauge;
use br_cli_target::narrow;
use br_damage::{NarrowedBootstrap, with_volume};
use br_engine::{ReadBootstrap, read_text};
use br_types::VolName;
use std::alloc::{AllocError, Global};
use std::fs::{self, File};
use std::io;

/// What of a bootstrap is lost with volumes.
#[derive(Drop)]
pub(crate) struct LostGroups {
    /// The bootstrap with it.
    whole: Bootstrap,
    /// For each of its groups, true if its volume is lost.
    flags: Vec<bool>,
    /// The lines of the indexes that these groups ask for.
    lines: Vec<u8>,
}

/// The bootstrap in a file, or why its text is refused, and the path of the file.
#[derive(Drop)]
pub(crate) struct BootstrapFile<'p> {
    pub(crate) path: &'p str,
    /// What is left of the bootstrap, if volumes are lost.
    pub(crate) read: Result<ReadBootstrap, BsrFault>,
    pub(crate) lost: Option<LostGroups>,
    ghost each: { ForSome lost (λ l. length l.flags.items ≡ length l.whole) },
    ghost narrowed: { ForSome lost (λ l. ForOk read (λ r. IsNarrowedBy l.flags.items l.whole r.bootstrap l.lines.items)) },
}

/// Returns the text of a bootstrap, as far as it can be one: of standard input for `-`, else of the
/// file with this path. Nothing but a regular file is opened, since a pipe may never have a writer.
fn text_at(rt: &HostRuntime, path: &str) -> Result<Vec<u8>, ExtractStartFault> {
    if path == "-" {
        let mut input = rt.reader();
        return Ok(read_text(rt.alloc(), &mut input)?);
    }
    if !fs::metadata(rt, path)?.is_file() {
        return Err(ExtractStartFault::NoFile);
    }
    let mut file = File::open(rt, path)?;
    Ok(read_text(rt.alloc(), &mut file)?)
}

/// Returns what is left of a bootstrap without the groups that have a flag and those on a volume, with
/// the flags of all these; `None` if nothing is, or if a group does not name one session.
fn left_without(
    alloc: Global,
    whole: &Bootstrap,
    flags: &[bool],
    vol: &VolName,
) -> Result<Option<(Vec<bool>, NarrowedBootstrap)>, AllocError>
    requires { length flags.now ≡ length whole.now }
    ensures { IfOk result (LeavesBy (with_volume vol.now flags.now whole.now) whole.now) }
{
    let more = with_volume(alloc, whole.groups(), flags, vol)?;
    match NarrowedBootstrap::by_flags(alloc, whole, &more)? {
        Some(narrowed) => Ok(Some((more, narrowed))),
        None => Ok(None),
    }
}

impl<'p> BootstrapFile<'p> {
    ghost use Rattle.br_cli.specs.BootstrapFiles.{LeavesWithout, whole_of};

    /// Reads the file with this path, or standard input for `-`, as far as it can be a bootstrap.
    pub(crate) fn read(
        rt: &HostRuntime,
        path: &'p str,
    ) -> Result<BootstrapFile<'p>, ExtractStartFault>
        ensures path { IfOk result (λ file. file.path.now ≡ path.entry.now) }
        ensures whole { IfOk result (λ file. file.lost ≡ None) }
    {
        let text = text_at(rt, path)?;
        Ok(BootstrapFile {
            path,
            read: ReadBootstrap::read(rt.alloc(), &text),
            lost: None,
        })
    }

    /// Returns the bootstrap with all its volumes, if the text is not refused.
    fn whole(&self) -> Option<&Bootstrap>
        ensures { option_map (λ b. b.now) result ≡ whole_of self.now }
    {
        match (&self.lost, &self.read) {
            (Some(lost), _) => Some(&lost.whole),
            (None, Ok(read)) => Some(&read.bootstrap),
            (None, Err(_)) => None,
        }
    }

    /// Returns the bootstrap narrowed to what is left of the whole one.
    pub(crate) fn with_lost(
        self,
        alloc: Global,
        flags: Vec<bool>,
        narrowed: NarrowedBootstrap,
    ) -> BootstrapFile<'p>
        requires { IfSome (whole_of self) (λ w. IsNarrowedBy flags.items w narrowed.left narrowed.missing.items) }
        ensures path { result.path.now ≡ self.entry.path.now }
        ensures whole { whole_of result ≡ whole_of self.entry }
    {
        let BootstrapFile { path, read, lost } = self;
        let whole = match (lost, read) {
            (Some(lost), _) => lost.whole,
            (None, Ok(read)) => read.bootstrap,
            (None, Err(fault)) => {
                return BootstrapFile {
                    path,
                    read: Err(fault),
                    lost: None,
                };
            }
        };
        BootstrapFile {
            path,
            read: Ok(ReadBootstrap {
                bootstrap: narrowed.left,
                counts: Vec::new(alloc),
            }),
            lost: Some(LostGroups {
                whole,
                flags,
                lines: narrowed.missing,
            }),
        }
    }

    /// Returns the bootstrap without the volumes that can't be read, if that is known of each file.
    pub(crate) fn without_lost(
        self,
        rt: &HostRuntime,
        gauge: &Gauge<'_>,
        volumes: &str,
    ) -> io::Result<BootstrapFile<'p>>
        ensures path { IfOk result (λ file. file.path.now ≡ self.entry.path.now) }
        ensures whole { IfOk result (λ file. whole_of file ≡ whole_of self.entry) }
    {
        let Some(whole) = self.whole() else {
            return Ok(self);
        };
        match narrow(rt, gauge, volumes, whole)? {
            Some((flags, narrowed)) => Ok(self.with_lost(rt.alloc(), flags, narrowed)),
            None => Ok(self),
        }
    }

    /// Returns what is left without one more volume, with the flags of all groups that are lost;
    /// `None` if nothing is, or if a group does not name one session.
    pub(crate) fn without_volume(
        &self,
        alloc: Global,
        vol: &VolName,
    ) -> Result<Option<(Vec<bool>, NarrowedBootstrap)>, AllocError>
        ensures { IfOk result (LeavesWithout vol.now self.now) }
    {
        match (&self.lost, &self.read) {
            (Some(lost), _) => left_without(alloc, &lost.whole, &lost.flags, vol),
            (None, Ok(read)) => {
                let none = vec![in alloc; false; read.bootstrap.groups().len()]?;
                left_without(alloc, &read.bootstrap, &none, vol)
            }
            (None, Err(_)) => Ok(None),
        }
    }

    /// Returns the lines of what is lost, if volumes are.
    pub(crate) fn lost(&self) -> Option<&[u8]>
        ensures { is_some result ≡ is_some self.now.lost }
    {
        match &self.lost {
            Some(lost) => Some(&lost.lines),
            None => None,
        }
    }

    /// Returns what is left of the bootstrap, if the text is not refused.
    pub(crate) fn bootstrap(&self) -> Option<&Bootstrap> {
        match &self.read {
            Ok(read) => Some(&read.bootstrap),
            Err(_) => None,
        }
    }
}
