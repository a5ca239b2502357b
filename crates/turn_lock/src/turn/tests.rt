ghost use Rattle.std.specs.Prelude.{◌≡◌, ◌+◌, ◌^◌, ◌<◌, ◌≤◌};
ghost use Rattle.std.specs.Thread.{IsSync};
ghost use mathlib.Core.List.{IsPrefix};
ghost use Rattle.turn_lock.specs.Seats.{IsOutsideOf, weight};

use super::SERVING;
use crate::{Journalled, Turn, TurnSeat};
use std::alloc::{AllocError, Global};
use std::process::Abort;
use std::sync::Wait;
use std::sync::atomic::{AtomicU64, Ordering};
use std::test::Fail;
use std::thread::{self, Threads, join};
use std::time::{Clock, Duration};

/// A list of numbers.
#[derive(Drop)]
struct Numbers {
    list: Vec<u64>,
}

impl Journalled for Numbers {
    type Entry = u64;

    type Kind = ();

    ghost entries = { λ n. n.list.items };

    ghost kind = { λ _. tt };

    fn count(&self) -> u64 {
        self.list.len() as u64
    }
}

impl Numbers {
    fn with_room(alloc: Global, room: usize) -> Result<Numbers, AllocError> {
        Ok(Numbers {
            list: Vec::with_capacity(alloc, room)?,
        })
    }

    fn add(&mut self, number: u64)
        ensures { IsPrefix self.old.list.items self.new.list.items }
    {
        let _ = self.list.push(number);
    }
}

// Adds the number in a turn of the seat.
fn append<R: Wait + Sync>(rt: &R, turn: &Turn<Numbers>, seat: &mut TurnSeat<Numbers>, number: u64)
    requires { IsOutsideOf turn.now seat.old }
    ensures { IsOutsideOf turn.now seat.new × (weight seat.new ≡ weight seat.old) }
{
    let mut numbers = turn.enter(rt, seat);
    numbers.add(number);
    turn.leave(seat, numbers);
}

// Adds the number in this many turns.
fn append_often<R: Wait + Sync>(
    rt: &R,
    turn: &Turn<Numbers>,
    mut seat: TurnSeat<Numbers>,
    number: u64,
    rounds: u32,
) -> TurnSeat<Numbers>
    requires { IsOutsideOf turn.now seat }
    ensures { IsOutsideOf turn.now result × (weight result ≡ weight seat) }
{
    for _ in 0..rounds {
        append(rt, turn, &mut seat, number);
    }
    seat
}

#[test]
fn two_seats_append(rt: HostRuntime) -> Result<(), Fail> {
    let (turn, mut first) = Turn::new(rt.alloc(), Numbers::with_room(rt.alloc(), 2)?, 2)?;
    let mut second = turn.split(&mut first);
    append(&rt, &turn, &mut first, 7);
    let mut numbers = turn.enter(&rt, &mut second);
    assert!(rt; numbers.list.as_slice() == [7].as_slice());
    numbers.add(8);
    turn.leave(&mut second, numbers);
    turn.join(&mut first, second);
    assert!(rt; first.weight() == 2);
    let numbers = turn.close(first);
    assert!(rt; numbers.list.as_slice() == [7, 8].as_slice());
    Ok(())
}

// Two threads that add their number in 100 turns each.
fn appended_by_two<R: Threads + Wait + Sync>(rt: &R, alloc: Global) -> Result<Numbers, AllocError> {
    let (turn, mut first) = Turn::new(alloc, Numbers::with_room(alloc, 200)?, 2)?;
    let second = turn.split(&mut first);
    let lent = &turn;
    let (mut first, second) = join(
        rt,
        || -> TurnSeat<Numbers>
            requires { IsOutsideOf lent.now first }
            ensures { IsOutsideOf lent.entry.now result × (weight result ≡ weight first) }
        { append_often(rt, lent, first, 1, 100) },
        || -> TurnSeat<Numbers>
            requires { IsOutsideOf lent.now second }
            ensures { IsOutsideOf lent.entry.now result × (weight result ≡ weight second) }
        { append_often(rt, lent, second, 2, 100) },
    );
    turn.join(&mut first, second);
    Ok(turn.close(first))
}

#[test]
fn two_threads_append(rt: HostRuntime) -> Result<(), Fail> {
    let numbers = appended_by_two(&rt, rt.alloc())?;
    let all = numbers.list.as_slice();
    assert!(rt; all.len() == 200);
    assert!(rt; all.iter().filter(|n| **n == 1).count() == 100);
    assert!(rt; all.iter().filter(|n| **n == 2).count() == 100);
    Ok(())
}

// Cuts a seat of weight 2 off the seat.
fn pair(turn: &Turn<Numbers>, seat: &mut TurnSeat<Numbers>) -> TurnSeat<Numbers>
    requires seat { IsOutsideOf turn.now seat.old }
    requires weight { 3 ≤ weight seat.old }
    ensures seats { IsOutsideOf turn.now seat.new × IsOutsideOf turn.now result }
    ensures weights { (weight seat.new + 2 ≡ weight seat.old) × (weight result ≡ 2) }
{
    let mut two = turn.split(seat);
    let one = turn.split(seat);
    turn.join(&mut two, one);
    two
}

// In each of 25 rounds the seat is cut in two, both add the number, and they are joined again.
fn split_and_join<R: Wait + Sync>(
    rt: &R,
    turn: &Turn<Numbers>,
    mut seat: TurnSeat<Numbers>,
    number: u64,
) -> TurnSeat<Numbers>
    requires { IsOutsideOf turn.now seat × (weight seat ≡ 2) }
    ensures { IsOutsideOf turn.now result × (weight result ≡ 2) }
{
    for _ in 0..25 {
        let mut other = turn.split(&mut seat);
        append(rt, turn, &mut other, number);
        append(rt, turn, &mut seat, number);
        turn.join(&mut seat, other);
    }
    seat
}

fn both_split_and_join<R: Threads + Wait + Sync>(
    rt: &R,
    turn: &Turn<Numbers>,
    first: TurnSeat<Numbers>,
    second: TurnSeat<Numbers>,
    number: u64,
) -> TurnSeat<Numbers>
    requires numbers { number < 2 ^ 8 }
    requires first { IsOutsideOf turn.now first × (weight first ≡ 2) }
    requires second { IsOutsideOf turn.now second × (weight second ≡ 2) }
    ensures { IsOutsideOf turn.now result × (weight result ≡ 4) }
{
    let (mut first, second) = join(
        rt,
        || -> TurnSeat<Numbers>
            requires { IsOutsideOf turn.now first × (weight first ≡ 2) }
            ensures { IsOutsideOf turn.entry.now result × (weight result ≡ 2) }
        { split_and_join(rt, turn, first, number) },
        || -> TurnSeat<Numbers>
            requires { IsOutsideOf turn.now second × (weight second ≡ 2) × (number < 2 ^ 8) }
            ensures { IsOutsideOf turn.entry.now result × (weight result ≡ 2) }
        { split_and_join(rt, turn, second, number + 1) },
    );
    turn.join(&mut first, second);
    first
}

fn appended_by_four<R: Threads + Wait + Sync>(
    rt: &R,
    alloc: Global,
) -> Result<Numbers, AllocError> {
    let (turn, mut a) = Turn::new(alloc, Numbers::with_room(alloc, 200)?, 8)?;
    let b = pair(&turn, &mut a);
    let c = pair(&turn, &mut a);
    let d = pair(&turn, &mut a);
    let lent = &turn;
    let (mut first, second) = join(
        rt,
        || -> TurnSeat<Numbers>
            requires { IsSync R.row × IsOutsideOf lent.now a × (weight a ≡ 2) × IsOutsideOf lent.now b × (weight b ≡ 2) }
            ensures { IsOutsideOf lent.entry.now result × (weight result ≡ 4) }
        { both_split_and_join(rt, lent, a, b, 0) },
        || -> TurnSeat<Numbers>
            requires { IsSync R.row × IsOutsideOf lent.now c × (weight c ≡ 2) × IsOutsideOf lent.now d × (weight d ≡ 2) }
            ensures { IsOutsideOf lent.entry.now result × (weight result ≡ 4) }
        { both_split_and_join(rt, lent, c, d, 2) },
    );
    turn.join(&mut first, second);
    Ok(turn.close(first))
}

#[test]
fn four_threads_split_and_join(rt: HostRuntime) -> Result<(), Fail> {
    let numbers = appended_by_four(&rt, rt.alloc())?;
    let all = numbers.list.as_slice();
    assert!(rt; all.len() == 200);
    for number in 0..4u64 {
        assert!(rt; all.iter().filter(|n| **n == number).count() == 50);
    }
    Ok(())
}

// How often one seat holds the turn while another waits, and for how many milliseconds.
const HOLDS: u64 = 40;

const HOLD: u64 = 5;

// How many milliseconds the other seat has to enter, once the turn was left.
const PATIENCE: u64 = 5_000;

// The round in which the turn is held, and the last in which the other seat was served.
#[derive(Drop)]
struct Rounds {
    held: AtomicU64,
    served: AtomicU64,
}

impl Rounds {
    // Whether the other seat is served in time.
    fn is_served<C: Clock>(&self, clock: &C, round: u64) -> bool {
        for _ in 0..PATIENCE {
            if self.served.load(Ordering::SeqCst) >= round {
                return true;
            }
            thread::sleep(clock, Duration::from_millis(1));
        }
        false
    }

    // Wakes the other seat until it is served.
    fn wake<R: Wait + Clock>(&self, rt: &R, turn: &Turn<Numbers>, round: u64) {
        for _ in rt.forever() {
            if self.served.load(Ordering::SeqCst) >= round {
                return;
            }
            turn.table.shared.wake_all(SERVING);
            thread::sleep(rt, Duration::from_millis(1));
        }
    }

    // Holds the turn in each round for longer than a waiting seat spins, and says whether each leave woke the other.
    fn hold<R: Wait + Clock + Sync>(
        &self,
        rt: &R,
        turn: &Turn<Numbers>,
        mut seat: TurnSeat<Numbers>,
    ) -> (TurnSeat<Numbers>, bool)
        requires { IsOutsideOf turn.now seat }
        ensures { IsOutsideOf turn.now result.0 × (weight result.0 ≡ weight seat) }
    {
        let mut woken = true;
        for round in 1..=HOLDS {
            let mut numbers = turn.enter(rt, &mut seat);
            self.held.store(round, Ordering::SeqCst);
            thread::sleep(rt, Duration::from_millis(HOLD));
            numbers.add(1);
            turn.leave(&mut seat, numbers);
            woken = woken && self.is_served(rt, round);
            if !woken {
                self.wake(rt, turn, round);
            }
        }
        (seat, woken)
    }

    // Asks for the turn in each round while it is held.
    fn ask<R: Wait + Sync>(
        &self,
        rt: &R,
        turn: &Turn<Numbers>,
        mut seat: TurnSeat<Numbers>,
    ) -> TurnSeat<Numbers>
        requires { IsOutsideOf turn.now seat }
        ensures { IsOutsideOf turn.now result × (weight result ≡ weight seat) }
    {
        for round in 1..=HOLDS {
            self.await_held(rt, round);
            append(rt, turn, &mut seat, 2);
            self.served.store(round, Ordering::SeqCst);
        }
        seat
    }

    fn await_held<R: Wait>(&self, rt: &R, round: u64) {
        for _ in rt.forever() {
            if self.held.load(Ordering::SeqCst) >= round {
                return;
            }
            thread::yield_now();
        }
    }
}

// The numbers in the order in which they came, and whether each waiting seat was woken.
fn held_while_asked<R: Threads + Wait + Clock + Sync>(
    rt: &R,
    alloc: Global,
) -> Result<(Numbers, bool), AllocError> {
    let room = usize::try_from(2 * HOLDS).unwrap_or(0);
    let (turn, mut first) = Turn::new(alloc, Numbers::with_room(alloc, room)?, 2)?;
    let second = turn.split(&mut first);
    let rounds = Rounds {
        held: AtomicU64::new(0),
        served: AtomicU64::new(0),
    };
    let lent = &turn;
    let all = &rounds;
    let ((mut first, woken), second) = join(
        rt,
        || -> (TurnSeat<Numbers>, bool)
            requires { IsOutsideOf lent.now first }
            ensures { IsOutsideOf lent.entry.now result.0 × (weight result.0 ≡ weight first) }
        { all.hold(rt, lent, first) },
        || -> TurnSeat<Numbers>
            requires { IsOutsideOf lent.now second }
            ensures { IsOutsideOf lent.entry.now result × (weight result ≡ weight second) }
        { all.ask(rt, lent, second) },
    );
    turn.join(&mut first, second);
    Ok((turn.close(first), woken))
}

#[test]
fn a_seat_that_sleeps_is_woken(rt: HostRuntime) -> Result<(), Fail> {
    let (numbers, woken) = held_while_asked(&rt, rt.alloc())?;
    assert!(rt; woken);
    let all = numbers.list.as_slice();
    assert!(rt; all.len() == 80);
    for (i, number) in all.iter().enumerate() {
        assert!(rt; *number == if i % 2 == 0 { 1 } else { 2 });
    }
    Ok(())
}
