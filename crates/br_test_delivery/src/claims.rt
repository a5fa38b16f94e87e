//! The numbers that seats draw, in turn and in threads.
ghost use Rattle.std.specs.Prelude.{◌≡◌, true};

use br_claim::{ClaimFault, ClaimSeat, Claims};
use br_test_support::Case;
use std::alloc::{AllocError, Global};
use std::io::Write;
use std::sync::Wait;
use std::thread::{Threads, join};

/// Prints the number that a seat of these claims draws. The seat stays one of theirs.
fn draw(case: &mut Case, claims: &Claims, seat: &mut ClaimSeat)
    requires { seat.old.claims ≡ claims.now.claims }
    ensures { seat.new.claims ≡ seat.old.claims }
{
    let drawn = claims.draw(seat);
    case.number_or_none(drawn.map(|number| u64::from(number)));
    case.text(" ");
}

/// Prints the result of gathering seats: the numbers of each, or the number of the refusal.
fn push_gathered(case: &mut Case, gathered: Result<Vec<Vec<u32>>, ClaimFault>) {
    let gathered = gathered.map_err(|fault| fault.number());
    if write!(case.out(), "{gathered:?}").is_err() {
        case.fail("out of memory");
    }
}

/// Returns the numbers that two seats drew.
fn gathered(
    alloc: Global,
    claims: Claims,
    s: ClaimSeat,
    t: ClaimSeat,
) -> Result<Vec<Vec<u32>>, ClaimFault>
    requires { (s.claims ≡ claims.claims) × (t.claims ≡ claims.claims) }
{
    match Vec::from_array(alloc, [s, t]) {
        Ok(seats) => claims.gather(seats),
        Err(_fault) => Err(ClaimFault::Memory),
    }
}

/// Prints what two seats draw of `n` numbers in turn, and what each drew.
fn in_turn(case: &mut Case, n: u32) -> Result<(), AllocError> {
    let mut claims = Claims::new(case.alloc(), n)?;
    let mut s = claims.seat()?;
    let mut t = claims.seat()?;
    draw(case, &claims, &mut s);
    draw(case, &claims, &mut t);
    draw(case, &claims, &mut s);
    draw(case, &claims, &mut t);
    draw(case, &claims, &mut s);
    let gathered = gathered(case.alloc(), claims, s, t);
    push_gathered(case, gathered);
    Ok(())
}

/// Prints the number of the refusal of claims of `n` numbers that lack a seat.
fn missing(case: &mut Case, n: u32) -> Result<(), AllocError> {
    let mut claims = Claims::new(case.alloc(), n)?;
    let s = claims.seat()?;
    let t = claims.seat()?;
    drop(t);
    let seats = Vec::from_array(case.alloc(), [s])?;
    push_gathered(case, claims.gather(seats));
    Ok(())
}

/// Draws until none is left.
fn drained(claims: &Claims, mut seat: ClaimSeat) -> ClaimSeat
    requires { seat.claims ≡ claims.now.claims }
    ensures { (result.claims ≡ claims.now.claims) × (result.ended ≡ true) }
{
    while let Some(_number) = claims.draw(&mut seat) {}
    seat
}

/// Returns the numbers that two threads draw from these, a list for each.
fn shared_out(
    threads: &(impl Threads + Wait + Sync),
    alloc: Global,
    n: u32,
) -> Result<Result<Vec<Vec<u32>>, ClaimFault>, AllocError> {
    let mut claims = Claims::new(alloc, n)?;
    let s = claims.seat()?;
    let t = claims.seat()?;
    let shared = &claims;
    let (s, t) = join(threads, || drained(shared, s), || drained(shared, t));
    Ok(gathered(alloc, claims, s, t))
}

/// Returns the numbers of all lists in order.
fn merged(alloc: Global, lists: &[Vec<u32>]) -> Result<Vec<u32>, AllocError> {
    let mut all = Vec::new(alloc);
    for list in lists {
        all.extend_from_slice(list.as_slice())?;
    }
    all.sort()?;
    Ok(all)
}

/// Returns whether the numbers are those below `n` in order.
fn are_all_below(n: u32, numbers: &[u32]) -> bool {
    numbers.len() == n as usize && (0..n).all(|x| numbers.get(x as usize).copied() == Some(x))
}

/// Prints whether two threads draw each number below `n` once.
fn in_threads(
    case: &mut Case,
    threads: &(impl Threads + Wait + Sync),
    n: u32,
) -> Result<(), AllocError> {
    if let Ok(lists) = shared_out(threads, case.alloc(), n)? {
        let all = merged(case.alloc(), &lists)?;
        case.test(are_all_below(n, &all));
    }
    Ok(())
}

/// Runs a call with this number of numbers.
pub(crate) fn run(case: &mut Case, threads: &(impl Threads + Wait + Sync), call: &[&str]) {
    match call {
        [call, n] => {
            let n = case.u32_of(n);
            let done = match *call {
                "turns" => in_turn(case, n),
                "missing" => missing(case, n),
                _ => in_threads(case, threads, n),
            };
            case.done(done);
        }
        _ => case.fail("there is no such call"),
    }
}
