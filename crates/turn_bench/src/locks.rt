//! The same steps under std's `Mutex`.
ghost use Rattle.std.specs.Thread.{IsSync};

use crate::counter::Counter;
use std::sync::{Mutex, Wait};
use std::thread::{Threads, join};

type Lock = Mutex<Counter>;

/// Steps in each round, under the lock.
fn step_often<R: Wait>(rt: &R, lock: &Lock, rounds: u32) {
    for _ in 0..rounds {
        let mut counter = lock.lock(rt);
        counter.steps = counter.steps.wrapping_add(1);
    }
}

/// Steps in each round by two threads.
fn step_in_two<R: Threads + Wait + Sync>(rt: &R, lock: &Lock, rounds: u32) {
    join(
        rt,
        || step_often(rt, lock, rounds),
        || step_often(rt, lock, rounds),
    );
}

/// The steps that one thread counts.
pub fn by_one<R: Wait>(rt: &R, rounds: u32) -> u64 {
    let lock = Mutex::new(Counter { steps: 0 });
    step_often(rt, &lock, rounds);
    lock.into_inner().steps
}

/// The steps that two threads count, each in all rounds.
pub fn by_two<R: Threads + Wait + Sync>(rt: &R, rounds: u32) -> u64 {
    let lock = Mutex::new(Counter { steps: 0 });
    step_in_two(rt, &lock, rounds);
    lock.into_inner().steps
}

/// The steps that four threads count, each in all rounds.
pub fn by_four<R: Threads + Wait + Sync>(rt: &R, rounds: u32) -> u64 {
    let lock = Mutex::new(Counter { steps: 0 });
    let lent = &lock;
    join(
        rt,
        ||
            requires { IsSync R.row }
        { step_in_two(rt, lent, rounds) },
        ||
            requires { IsSync R.row }
        { step_in_two(rt, lent, rounds) },
    );
    lock.into_inner().steps
}
