ghost use Rattle.std.specs.Prelude.{◌≡◌, ℕ, Some, MatchOption};
ghost use Rattle.answer_rows.specs.Room.{room_of};
ghost use Rattle.decider.specs.Decisions.{IsDecision};
ghost use Rattle.decider.specs.Reserved.{IsReservedSnapshot};
ghost use Rattle.pair_enumeration.specs.Listed.{Listed, IsListed};
ghost use Rattle.survey_core.specs.Histories.{class_at};
ghost use Rattle.survey_core.specs.Legal.{IsLegal};
ghost use Rattle.survey_replies.specs.Calls.{Seen, Watches};
ghost use Rattle.eliminators.specs.Jobs.{IsJob, IsReadySnapshot, JobCounts, with_taken, with_handed_in, with_none_left};
ghost use Rattle.eliminators.specs.HandIns.{HandsIn};

use crate::job::{HandIn, Job};
use decider::{Decision, Snapshot};

/// What an eliminator works at: jobs are taken from it and handed in to it, each in one turn.
pub trait Bench {
    // What it is of: a model with its classes, a worker, and whatever else an implementation names. No call changes it.
    type About;

    ghost about: { Self → Self.About };

    ghost listed: { Self.About → Listed };

    // The number with which it eliminates.
    ghost worker: { Self.About → ℕ };

    // The journal seen, and the places of it that are one's own.
    ghost seen: { Self → Seen };

    ghost counts: { Self → JobCounts };

    // What a call needs of its surroundings where it may wait for others; `Unit` where nobody is waited for.
    ghost can_wait: { Type 0 };

    /// Takes a job, if there is one, and brings the snapshot to the journal's answers.
    fn take(&mut self, snapshot: &mut Snapshot) -> Option<Job>
        requires waits { can_wait }
        requires reserved { IsReservedSnapshot (listed (about self.old)).criteria snapshot.old }
        ensures job { MatchOption result (counts self.new ≡ with_none_left (counts self.old))
            (λ job. IsJob (listed (about self.old)) (seen self.new).journal job × (counts self.new ≡ with_taken (counts self.old))) }
        ensures ready { IsReadySnapshot (listed (about self.old)) (seen self.new).journal snapshot.new }
        ensures room { room_of snapshot.new.answers ≡ room_of snapshot.old.answers }
        ensures watches { Watches (seen self.old) (seen self.new) }
        ensures listed { IsListed (listed (about self.old)) }
        ensures legal { IsLegal (listed (about self.old)) (seen self.new).journal }
        ensures same { about self.new ≡ about self.old };

    /// Hands a job in, with what the snapshot's answers say of it.
    fn hand_in(&mut self, job: Job, snapshot: &Snapshot, decision: Decision) -> HandIn
        requires waits { can_wait }
        requires reserved { IsReservedSnapshot (listed (about self.old)).criteria snapshot.now }
        requires class { class_at (listed (about self.old)).classes job.place ≡ Some job.pair }
        requires decision { IsDecision (listed (about self.old)).criteria.levels snapshot.now.answers.answers job.pair decision }
        ensures handed_in { HandsIn (listed (about self.old)) (worker (about self.old)) job decision (seen self.old) (seen self.new) result }
        ensures counts { counts self.new ≡ with_handed_in (counts self.old) }
        ensures legal { IsLegal (listed (about self.old)) (seen self.new).journal }
        ensures same { about self.new ≡ about self.old };
}
