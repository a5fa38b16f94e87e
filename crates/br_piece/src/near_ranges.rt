ghost use Rattle.std.specs.Prelude.{◌≡◌, filter, not};
ghost use Rattle.br_piece.specs.NearRanges.{AreSorted, is_asked, is_before, is_session, is_session_before};
ghost use Rattle.br_piece.specs.NearRanges.{HasAllOf, is_up_to, one_of};

use br_bsr::{Group, Range};
use br_types::{FileKey, SessionKey};

/// Returns the number in the ranges, if they are one range of one number.
fn one_number(ranges: &[Range]) -> Option<u64>
    ensures { result ≡ one_of ranges.now }
{
    match ranges {
        [range] => {
            if range.low == range.high {
                Some(range.low)
            } else {
                None
            }
        }
        _ => None,
    }
}

/// Returns if the session has a smaller number, or this number and a smaller time.
fn is_earlier(session: SessionKey, id: u64, time: u64) -> bool
    ensures { result ≡ is_session_before session id time }
{
    u64::from(session.id) < id || u64::from(session.id) == id && u64::from(session.time) < time
}

/// Returns if the session has this number and this time.
fn is_equal(session: SessionKey, id: u64, time: u64) -> bool
    ensures { result ≡ is_session session id time }
{
    u64::from(session.id) == id && u64::from(session.time) == time
}

/// Returns if the file comes before those of the session from this index on.
fn precedes(key: FileKey, id: u64, time: u64, low: u64) -> bool
    ensures { result ≡ is_before id time low key }
{
    is_earlier(key.session, id, time)
        || is_equal(key.session, id, time) && u64::from(key.index.get()) < low
}

/// Returns if the file comes before those of the session after this index.
fn reaches_to(key: FileKey, id: u64, time: u64, high: u64) -> bool
    ensures { result ≡ is_up_to id time high key }
{
    is_earlier(key.session, id, time)
        || is_equal(key.session, id, time) && u64::from(key.index.get()) <= high
}

/// Returns the files from the session's file with this index on.
fn from_low(keys: &[FileKey], id: u64, time: u64, low: u64) -> &[FileKey]
    requires { AreSorted keys.now }
    ensures { result.now ≡ filter (λ k. not (is_before id time low k)) keys.now }
{
    &keys[keys.partition_point(|key| precedes(*key, id, time, low))..]
}

/// Returns the files up to the session's file with this index.
fn up_to_high(keys: &[FileKey], id: u64, time: u64, high: u64) -> &[FileKey]
    requires { AreSorted keys.now }
    ensures { result.now ≡ filter (is_up_to id time high) keys.now }
{
    &keys[..keys.partition_point(|key| reaches_to(*key, id, time, high))]
}

/// Returns the files of the session from one index to another: all that a group asks for by this range
/// if it names the session and no other.
fn within(keys: &[FileKey], id: u64, time: u64, low: u64, high: u64) -> &[FileKey]
    requires { AreSorted keys.now }
    ensures { HasAllOf result.now keys.now id time (record { low = low; high = high }) }
{
    up_to_high(from_low(keys, id, time, low), id, time, high)
}

/// Returns a part of the files, with all that the group asks for by the range. If the group names one
/// session, these are the files of the session in the range, found in time log n.
pub(crate) fn near<'k>(keys: &'k [FileKey], group: &Group, range: Range) -> &'k [FileKey]
    requires { AreSorted keys.now }
    ensures { filter (is_asked group.now range) result.now ≡ filter (is_asked group.now range) keys.now }
{
    match (
        one_number(&group.session_ids),
        one_number(&group.session_times),
    ) {
        (Some(id), Some(time)) => within(keys, id, time, range.low, range.high),
        _ => keys,
    }
}
