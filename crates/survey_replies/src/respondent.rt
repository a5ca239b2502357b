ghost use Rattle.std.specs.Prelude.{◌≡◌, ℕ, ◌≤◌, Some, length, IfOk, OnErr};
ghost use Rattle.pair_enumeration.specs.Listed.{Listed, IsListed};
ghost use Rattle.survey_core.specs.Histories.{item_at, class_at};
ghost use Rattle.survey_core.specs.Legal.{IsDesk, IsPlace, IsLegal};
ghost use Rattle.survey_replies.specs.Requests as request;
ghost use Rattle.survey_replies.specs.Outcomes as outcome;
ghost use Rattle.survey_replies.specs.Calls.{Seen, Watches, IsCall};

use crate::replies::{AnswerReply, NextReply, ValuesReply, WithdrawReply};
use criteria_model::{Pair, Side};
use std::alloc::AllocError as NoMemory;
use survey_core::Event;

/// A survey's journal, as far as it was seen. Its events have the places from 1 on.
pub trait Events {
    // What the journal is one of: a model with its classes, and whatever else an implementation names. No call changes it.
    type About;

    ghost about: { Self → Self.About };

    ghost listed: { Self.About → Listed };

    // The journal seen, and the places of it that are one's own.
    ghost seen: { Self → Seen };

    // What a call needs of its surroundings where it may wait for others; `Unit` where nobody is waited for.
    ghost can_wait: { Type 0 };

    /// How many events were seen.
    fn length(&self) -> u32
        ensures value { result ≡ length (seen self.now).journal }
        ensures listed { IsListed (listed (about self.now)) }
        ensures legal { IsLegal (listed (about self.now)) (seen self.now).journal };

    /// The event at a place. More of the journal may be seen afterwards.
    fn event(&mut self, place: u32) -> Event
        requires waits { can_wait }
        requires low { 1 ≤ place }
        requires high { place ≤ length (seen self.old).journal }
        ensures value { item_at (seen self.old).journal place ≡ Some result }
        ensures watches { Watches (seen self.old) (seen self.new) }
        ensures same { about self.new ≡ about self.old };

    /// The class at a place of the class list.
    fn class_pair(&self, place: u32) -> Pair
        requires { IsPlace (listed (about self.now)) place }
        ensures { class_at (listed (about self.now)).classes place ≡ Some result };
}

/// A desk of a survey. Each call is one of the reply law: its reply is the right one on the first `at` events of the journal, and
/// what it recorded comes after them.
pub trait Respondent: Events {
    ghost desk: { Self.About → ℕ };

    /// The next question.
    fn next(&mut self) -> NextReply
        requires { Self.can_wait }
        ensures call { IsCall (Self.listed (Self.about self.old)) (desk (Self.about self.old)) (Self.seen self.old) (Self.seen self.new)
            request.next (outcome.next result) }
        ensures desk { IsDesk (desk (Self.about self.old)) }
        ensures same { Self.about self.new ≡ Self.about self.old };

    /// Takes an answer to a question.
    fn answer(&mut self, question: u32, side: Side) -> AnswerReply
        requires { Self.can_wait }
        ensures call { IsCall (Self.listed (Self.about self.old)) (desk (Self.about self.old)) (Self.seen self.old) (Self.seen self.new)
            (request.answer question side) (outcome.answer result) }
        ensures desk { IsDesk (desk (Self.about self.old)) }
        ensures same { Self.about self.new ≡ Self.about self.old };

    /// Values that meet the answers.
    fn values(&mut self) -> ValuesReply
        requires { Self.can_wait }
        ensures call { IsCall (Self.listed (Self.about self.old)) (desk (Self.about self.old)) (Self.seen self.old) (Self.seen self.new)
            request.values (outcome.values result) }
        ensures desk { IsDesk (desk (Self.about self.old)) }
        ensures same { Self.about self.new ≡ Self.about self.old };

    /// Takes back the last answer.
    ///
    /// # Errors
    ///
    /// Out of memory: nothing was recorded.
    fn withdraw(&mut self) -> Result<WithdrawReply, NoMemory>
        requires { Self.can_wait }
        ensures call { IfOk result (λ reply. IsCall (Self.listed (Self.about self.old)) (desk (Self.about self.old))
            (Self.seen self.old) (Self.seen self.new) request.withdraw (outcome.withdraw reply)) }
        ensures quiet { OnErr result (Watches (Self.seen self.old) (Self.seen self.new)) }
        ensures desk { IsDesk (desk (Self.about self.old)) }
        ensures same { Self.about self.new ≡ Self.about self.old };
}
