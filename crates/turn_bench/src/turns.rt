//! Steps in turns of the ticket lock.
ghost use Rattle.std.specs.Prelude.{◌≡◌, ◌+◌, ◌≤◌};
ghost use Rattle.std.specs.Thread.{IsSync};
ghost use Rattle.turn_lock.specs.Seats.{IsOutsideOf, weight};

use crate::counter::Counter;
use std::alloc::{AllocError, Global};
use std::sync::Wait;
use std::thread::{Threads, join};
use turn_lock::{Turn, TurnSeat};

type Lock = Turn<Counter>;

type Seat = TurnSeat<Counter>;

/// Steps in each round, in a turn of the seat.
fn step_often<R: Wait + Sync>(rt: &R, turn: &Lock, mut seat: Seat, rounds: u32) -> Seat
    requires { IsOutsideOf turn.now seat }
    ensures { IsOutsideOf turn.now result × (weight result ≡ weight seat) }
{
    for _ in 0..rounds {
        let mut counter = turn.enter(rt, &mut seat);
        counter.steps = counter.steps.wrapping_add(1);
        turn.leave(&mut seat, counter);
    }
    seat
}

/// Steps in each round by two threads, with a seat each.
fn step_in_two<R: Threads + Wait + Sync>(rt: &R, turn: &Lock, mut first: Seat, rounds: u32) -> Seat
    requires { IsOutsideOf turn.now first × (2 ≤ weight first) }
    ensures { IsOutsideOf turn.now result × (weight result ≡ weight first) }
{
    let second = turn.split(&mut first);
    let (mut first, second) = join(
        rt,
        || -> Seat
            requires { IsOutsideOf turn.now first }
            ensures { IsOutsideOf turn.entry.now result × (weight result ≡ weight first) }
        { step_often(rt, turn, first, rounds) },
        || -> Seat
            requires { IsOutsideOf turn.now second }
            ensures { IsOutsideOf turn.entry.now result × (weight result ≡ weight second) }
        { step_often(rt, turn, second, rounds) },
    );
    turn.join(&mut first, second);
    first
}

/// The steps that one seat counts.
pub fn by_one<R: Wait + Sync>(rt: &R, alloc: Global, rounds: u32) -> Result<u64, AllocError> {
    let (turn, seat) = Turn::new(alloc, Counter { steps: 0 }, 1)?;
    let seat = step_often(rt, &turn, seat, rounds);
    Ok(turn.close(seat).steps)
}

/// The steps that two seats count, each in all rounds, on a thread each.
pub fn by_two<R: Threads + Wait + Sync>(
    rt: &R,
    alloc: Global,
    rounds: u32,
) -> Result<u64, AllocError> {
    let (turn, seat) = Turn::new(alloc, Counter { steps: 0 }, 2)?;
    let seat = step_in_two(rt, &turn, seat, rounds);
    Ok(turn.close(seat).steps)
}

/// The steps that four seats count, each in all rounds, on a thread each.
pub fn by_four<R: Threads + Wait + Sync>(
    rt: &R,
    alloc: Global,
    rounds: u32,
) -> Result<u64, AllocError> {
    let (turn, mut first) = Turn::new(alloc, Counter { steps: 0 }, 4)?;
    let mut second = turn.split(&mut first);
    let third = turn.split(&mut first);
    turn.join(&mut second, third);
    let lent = &turn;
    let (mut first, second) = join(
        rt,
        || -> Seat
            requires { IsSync R.row × IsOutsideOf lent.now first × (weight first ≡ 2) }
            ensures { IsOutsideOf lent.entry.now result × (weight result ≡ 2) }
        { step_in_two(rt, lent, first, rounds) },
        || -> Seat
            requires { IsSync R.row × IsOutsideOf lent.now second × (weight second ≡ 2) }
            ensures { IsOutsideOf lent.entry.now result × (weight result ≡ 2) }
        { step_in_two(rt, lent, second, rounds) },
    );
    turn.join(&mut first, second);
    Ok(turn.close(first).steps)
}
