//! A bench over a state without a lock.
ghost use Rattle.std.specs.Prelude.{◌≡◌, length};
ghost use Rattle.std.specs.List.{range_with_len};

use crate::{Bench, HandIn, Job, hand_in_to, take_from};
use decider::{Decision, Snapshot};
use pair_enumeration::Classes;
use survey_state::State;

/// What it is of.
pub struct AboutState {
    classes: Classes,
    worker: u8,
}

/// A state, and how often jobs were taken and handed in.
#[derive(Drop)]
pub struct StateBench {
    pub state: State,
    pub length: u32,
    pub taken: u32,
    pub handed_in: u32,
    pub none_left: u32,
}

impl StateBench {
    /// A bench of this state, at which nothing was taken yet.
    pub fn new(state: State) -> StateBench
        ensures { result.state ≡ state }
    {
        StateBench {
            state,
            length: 0,
            taken: 0,
            handed_in: 0,
            none_left: 0,
        }
    }
}

/// The number with which it eliminates.
pub const WORKER: u8 = 3;

/// All places of the journal are its own.
impl Bench for StateBench {
    type About = AboutState;

    ghost about = { λ bench. record { classes = bench.state.listed; worker = 3 } };

    ghost listed = { λ about. about.classes };

    ghost worker = { λ about. about.worker };

    ghost seen = { λ bench. record { journal = bench.state.journal; own = range_with_len 0 (length bench.state.journal) } };

    ghost counts = { λ bench. record { taken = bench.taken; handed_in = bench.handed_in; none_left = bench.none_left } };

    ghost can_wait = { Unit {0} };

    fn take(&mut self, snapshot: &mut Snapshot) -> Option<Job> {
        self.length = self.state.length();
        let job = take_from(&mut self.state, snapshot);
        match job {
            Some(job) => {
                self.taken = self.taken.saturating_add(1);
                Some(job)
            }
            None => {
                self.none_left = self.none_left.saturating_add(1);
                None
            }
        }
    }

    fn hand_in(&mut self, job: Job, snapshot: &Snapshot, decision: Decision) -> HandIn {
        let answer = hand_in_to(&mut self.state, WORKER, job, snapshot, decision);
        self.length = self.state.length();
        self.handed_in = self.handed_in.saturating_add(1);
        answer
    }
}
