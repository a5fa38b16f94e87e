//! The session that a group names, and the places of its files.
ghost use Rattle.std.specs.Prelude.{◌≡◌, is_some};
ghost use Rattle.std.specs.List.{list_all};
ghost use Rattle.br_damage.specs.GroupSessions.{number_in, one_number, place, session_of};

use br_bsr::{Group, Range};
use br_types::SessionKey;

/// Returns the number in the range, if it is the only one and a session can have it.
fn one_number(range: Range) -> Option<u32>
    ensures { result ≡ one_number range }
{
    if range.low != range.high {
        return None;
    }
    match u32::try_from(range.low) {
        Ok(number) => Some(number),
        Err(_) => None,
    }
}

/// Returns the number in the ranges, if they are one range of one number that a session can have.
fn number_in(ranges: &[Range]) -> Option<u32>
    ensures { result ≡ number_in ranges.now }
{
    match ranges {
        [range] => one_number(*range),
        _ => None,
    }
}

/// Returns the session that the group names, if it names one and no other.
pub(crate) fn session_of(group: &Group) -> Option<SessionKey>
    ensures { result ≡ session_of group.now }
{
    match (
        number_in(&group.session_ids),
        number_in(&group.session_times),
    ) {
        (Some(id), Some(time)) => Some(SessionKey { id, time }),
        _ => None,
    }
}

/// Returns true if the group names one session.
fn names_session(group: &Group) -> bool
    ensures { result ≡ is_some (session_of group.now) }
{
    session_of(group).is_some()
}

/// Returns true if each group names one session.
pub fn name_sessions(groups: &[Group]) -> bool
    ensures { result ≡ list_all (λ g. is_some (session_of g)) groups.now }
{
    groups.iter().all(|group| names_session(group))
}

/// Returns the place of a file: by the number and the time of its session, then by its index.
pub(crate) fn place_of(session: SessionKey, index: u64) -> u128
    ensures { result ≡ place session index }
{
    let number = u128::from(session.id) * 4_294_967_296 + u128::from(session.time);
    number * 18_446_744_073_709_551_616 + u128::from(index)
}
