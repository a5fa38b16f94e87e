//! The time zone of the system.

use jiff::Error;
use jiff::tz::{SystemTimeZone, TimeZone, TimeZoneDatabase};
use std::alloc::AllocError;
use std::io;

/// The time zones of the system, and the name or the rules of its own zone. Each is present if it
/// can be read.
#[derive(Drop)]
pub(crate) struct SystemZones {
    own: Option<SystemTimeZone>,
    database: Option<TimeZoneDatabase>,
}

/// Returns a value that was read; nothing if it can't be read.
fn known<T: Drop>(read: Result<T, Error>) -> io::Result<Option<T>> {
    match read {
        Ok(value) => Ok(Some(value)),
        Err(Error::OutOfMemory) => Err(AllocError.into()),
        Err(_) => Ok(None),
    }
}

impl SystemZones {
    /// Reads the zone that `TZ` or else `/etc/localtime` names, and the zones that have names.
    ///
    /// # Errors
    ///
    /// If memory ran out.
    pub(crate) fn read(rt: &HostRuntime) -> io::Result<SystemZones> {
        Ok(SystemZones {
            own: known(SystemTimeZone::read(rt))?,
            database: known(TimeZoneDatabase::from_env(rt))?,
        })
    }

    /// Returns the zone of the system, if it is known.
    ///
    /// # Errors
    ///
    /// If memory ran out.
    pub(crate) fn zone(&self) -> io::Result<Option<TimeZone<'_>>> {
        let (Some(own), Some(database)) = (&self.own, &self.database) else {
            return Ok(None);
        };
        let zone = known(own.time_zone(database))?;
        Ok(zone.filter(|zone| !zone.is_unknown()))
    }
}
