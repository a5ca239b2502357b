//! What became of the jobs that an eliminator handed in.
ghost use Rattle.std.specs.Prelude.{◌≡◌};

use decider::{Decision, Snapshot};
use eliminators::{Bench, HandIn, Job};

/// How many hand-ins came to what.
#[derive(Clone, Copy)]
pub struct HandIns {
    pub recorded: u32,
    pub kept: u32,
    pub stale: u32,
}

impl HandIns {
    /// Nothing was handed in.
    pub fn none() -> HandIns {
        HandIns {
            recorded: 0,
            kept: 0,
            stale: 0,
        }
    }

    /// These and others.
    pub fn and(&self, other: &HandIns) -> HandIns {
        HandIns {
            recorded: self.recorded.saturating_add(other.recorded),
            kept: self.kept.saturating_add(other.kept),
            stale: self.stale.saturating_add(other.stale),
        }
    }

    fn count(&mut self, answer: HandIn) {
        match answer {
            HandIn::Recorded => self.recorded = self.recorded.saturating_add(1),
            HandIn::Kept => self.kept = self.kept.saturating_add(1),
            HandIn::Stale(_) => self.stale = self.stale.saturating_add(1),
        }
    }
}

/// A bench, and what came of what was handed in to it.
#[derive(Drop)]
pub struct CountingBench<B> {
    bench: B,
    pub hand_ins: HandIns,
}

impl<B: Bench> CountingBench<B> {
    /// Over a bench to which nothing was handed in.
    pub fn over(bench: B) -> CountingBench<B>
        ensures { result.bench ≡ bench }
    {
        CountingBench {
            bench,
            hand_ins: HandIns::none(),
        }
    }

    /// The bench.
    pub fn into_bench(self) -> B
        ensures { result ≡ self.bench }
    {
        self.bench
    }
}

impl<B: Bench> Bench for CountingBench<B> {
    type About = B::About;

    ghost about = { λ counting. B.about counting.bench };

    ghost listed = { B.listed };

    ghost worker = { B.worker };

    ghost seen = { λ counting. B.seen counting.bench };

    ghost counts = { λ counting. B.counts counting.bench };

    ghost can_wait = { B.can_wait };

    fn take(&mut self, snapshot: &mut Snapshot) -> Option<Job> {
        self.bench.take(snapshot)
    }

    fn hand_in(&mut self, job: Job, snapshot: &Snapshot, decision: Decision) -> HandIn {
        let answer = self.bench.hand_in(job, snapshot, decision);
        self.hand_ins.count(answer);
        answer
    }
}
