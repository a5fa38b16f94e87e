use jiff::tz::TimeZone;

/// The zones in which a line shows the moment of its job.
#[derive(Clone, Copy)]
pub enum Zones<'z> {
    /// UTC alone.
    Utc,
    /// UTC, and then a time zone, if it is known.
    UtcAndLocal(Option<TimeZone<'z>>),
}
