//! The calls of a desk, each by its pass.
ghost use Rattle.std.specs.Prelude.{◌≡◌, ◌≤◌, Some, length, IfOk, OnErr};
ghost use Rattle.survey_core.specs.Histories.{item_at};
ghost use Rattle.survey_core.specs.Legal.{IsDesk};
ghost use Rattle.survey_replies.specs.Requests as request;
ghost use Rattle.survey_replies.specs.Outcomes as outcome;
ghost use Rattle.survey_replies.specs.Calls.{IsCall, Watches};
ghost use Rattle.shared_survey.specs.Passes.{AreDeskTools, IsPassOf, StaysPass, desk_of, pass_seen, pass_weight, survey_listed};

use crate::pass::{DeskTools, Pass};
use crate::pass_access::PassAccess;
use crate::survey::Survey;
use criteria_model::Side;
use edges::{Gate, GatePoint};
use std::alloc::AllocError as NoMemory;
use std::sync::Wait;
use survey_core::Event;
use survey_replies::{AnswerReply, NextReply, ValuesReply, WithdrawReply};
use survey_state::{answer_by, next_by, values_by, withdraw_by};

impl Survey {
    /// The next question.
    pub fn next<R: Wait + Sync, G: Gate>(&self, rt: &R, pass: &mut Pass, gate: &G) -> NextReply
        requires pass { IsPassOf self.now pass.old }
        requires desk { IsDesk (desk_of pass.old) }
        ensures call { IsCall (survey_listed self.now) (desk_of pass.old) (pass_seen pass.old) (pass_seen pass.new)
            request.next (outcome.next result) }
        ensures pass { StaysPass self.now pass.old pass.new }
    {
        let mut tools = pass.take_tools();
        let desk = tools.desk;
        gate.pass(GatePoint::NextBegins { desk });
        let reply = self.next_with(rt, pass, &mut tools);
        gate.pass(GatePoint::NextAnswered { desk });
        pass.desk = Some(tools);
        reply
    }

    fn next_with<R: Wait + Sync>(&self, rt: &R, pass: &mut Pass, of: &mut DeskTools) -> NextReply
        requires pass { IsPassOf self.now pass.old }
        requires tools { AreDeskTools (survey_listed self.now) of.old }
        ensures call { IsCall (survey_listed self.now) of.old.desk (pass_seen pass.old) (pass_seen pass.new)
            request.next (outcome.next result) }
        ensures pass { IsPassOf self.now pass.new × (pass_weight pass.new ≡ pass_weight pass.old) }
        ensures tools { AreDeskTools (survey_listed self.now) of.new × (of.new.desk ≡ of.old.desk) }
    {
        let mut access = PassAccess::lend(rt, self, pass);
        next_by(&mut access, &mut of.tools, of.desk)
    }

    /// Takes an answer to a question.
    pub fn answer<R: Wait + Sync>(
        &self,
        rt: &R,
        pass: &mut Pass,
        question: u32,
        side: Side,
    ) -> AnswerReply
        requires pass { IsPassOf self.now pass.old }
        requires desk { IsDesk (desk_of pass.old) }
        ensures call { IsCall (survey_listed self.now) (desk_of pass.old) (pass_seen pass.old) (pass_seen pass.new)
            (request.answer question side) (outcome.answer result) }
        ensures pass { StaysPass self.now pass.old pass.new }
    {
        let mut tools = pass.take_tools();
        let reply = self.answer_with(rt, pass, &mut tools, question, side);
        pass.desk = Some(tools);
        reply
    }

    fn answer_with<R: Wait + Sync>(
        &self,
        rt: &R,
        pass: &mut Pass,
        of: &mut DeskTools,
        question: u32,
        side: Side,
    ) -> AnswerReply
        requires pass { IsPassOf self.now pass.old }
        requires tools { AreDeskTools (survey_listed self.now) of.old }
        ensures call { IsCall (survey_listed self.now) of.old.desk (pass_seen pass.old) (pass_seen pass.new)
            (request.answer question side) (outcome.answer result) }
        ensures pass { IsPassOf self.now pass.new × (pass_weight pass.new ≡ pass_weight pass.old) }
        ensures tools { AreDeskTools (survey_listed self.now) of.new × (of.new.desk ≡ of.old.desk) }
    {
        let mut access = PassAccess::lend(rt, self, pass);
        answer_by(&mut access, &mut of.tools, of.desk, question, side)
    }

    /// Values that meet the answers.
    pub fn values<R: Wait + Sync>(&self, rt: &R, pass: &mut Pass) -> ValuesReply
        requires pass { IsPassOf self.now pass.old }
        requires desk { IsDesk (desk_of pass.old) }
        ensures call { IsCall (survey_listed self.now) (desk_of pass.old) (pass_seen pass.old) (pass_seen pass.new)
            request.values (outcome.values result) }
        ensures pass { StaysPass self.now pass.old pass.new }
    {
        let mut tools = pass.take_tools();
        let reply = self.values_with(rt, pass, &mut tools);
        pass.desk = Some(tools);
        reply
    }

    fn values_with<R: Wait + Sync>(
        &self,
        rt: &R,
        pass: &mut Pass,
        of: &mut DeskTools,
    ) -> ValuesReply
        requires pass { IsPassOf self.now pass.old }
        requires tools { AreDeskTools (survey_listed self.now) of.old }
        ensures call { IsCall (survey_listed self.now) of.old.desk (pass_seen pass.old) (pass_seen pass.new)
            request.values (outcome.values result) }
        ensures pass { IsPassOf self.now pass.new × (pass_weight pass.new ≡ pass_weight pass.old) }
        ensures tools { AreDeskTools (survey_listed self.now) of.new × (of.new.desk ≡ of.old.desk) }
    {
        let mut access = PassAccess::lend(rt, self, pass);
        values_by(&mut access, &mut of.tools)
    }

    /// Takes back the last answer.
    ///
    /// # Errors
    ///
    /// Out of memory: nothing was recorded.
    pub fn withdraw<R: Wait + Sync>(
        &self,
        rt: &R,
        pass: &mut Pass,
    ) -> Result<WithdrawReply, NoMemory>
        requires pass { IsPassOf self.now pass.old }
        requires desk { IsDesk (desk_of pass.old) }
        ensures call { IfOk result (λ reply. IsCall (survey_listed self.now) (desk_of pass.old) (pass_seen pass.old) (pass_seen pass.new)
            request.withdraw (outcome.withdraw reply)) }
        ensures quiet { OnErr result (Watches (pass_seen pass.old) (pass_seen pass.new)) }
        ensures pass { StaysPass self.now pass.old pass.new }
    {
        let desk = pass.desk();
        let mut access = PassAccess::lend(rt, self, pass);
        withdraw_by(&mut access, desk)
    }

    /// The event at a place that the pass has seen. It may have seen more of the journal afterwards.
    pub fn event<R: Wait + Sync>(&self, rt: &R, pass: &mut Pass, place: u32) -> Event
        requires pass { IsPassOf self.now pass.old }
        requires low { 1 ≤ place }
        requires high { place ≤ length (pass_seen pass.old).journal }
        ensures value { item_at (pass_seen pass.old).journal place ≡ Some result }
        ensures watches { Watches (pass_seen pass.old) (pass_seen pass.new) }
        ensures pass { StaysPass self.now pass.old pass.new }
    {
        let state = pass.seat.enter(rt, &self.turn);
        let event = state.event(place);
        pass.seat.leave(&self.turn, state);
        event
    }
}
