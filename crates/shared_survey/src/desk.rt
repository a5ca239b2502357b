//! A desk that asks and answers by its pass.
ghost use Rattle.std.specs.Option.{ForSome};
ghost use Rattle.std.specs.Prelude.{◌≡◌, ◌≤◌, All};
ghost use Rattle.survey_core.specs.Legal.{IsDesk};
ghost use Rattle.shared_survey.specs.Passes.{IsPassOf, desk_of};

use crate::pass::Pass;
use crate::pass_access::PassAbout;
use crate::survey::Survey;
use criteria_model::{Pair, Side};
use edges::Gate;
use eliminators::JobEnd;
use std::alloc::AllocError as NoMemory;
use std::slice;
use std::sync::Wait;
use survey_core::Event;
use survey_replies::{AnswerReply, Events, NextReply, Respondent, ValuesReply, WithdrawReply};

/// A desk of a survey, while its pass is lent. Where it has an end of the job line, it hands that a job after each answer that is
/// accepted.
#[derive(Drop)]
pub struct Desk<'a, R: Wait + Sync, G: Gate> {
    rt: &'a R,
    survey: &'a Survey,
    pass: &'a mut Pass,
    gate: &'a G,
    // One end of the job line, or none.
    jobs: &'a [JobEnd],
    // The survey's number on that line.
    number: u32,
    ghost of: { IsPassOf survey.now pass.now },
    ghost of_desk: { IsDesk (desk_of pass.now) },
    ghost numbered: { All (λ jobs. (1 ≤ number) × (number ≤ jobs.surveys)) jobs.now },
}

impl<'a, R: Wait + Sync, G: Gate> Desk<'a, R, G> {
    /// The desk of the pass. `number` is the survey's on the job line.
    pub fn lend(
        rt: &'a R,
        survey: &'a Survey,
        pass: &'a mut Pass,
        jobs: Option<&'a JobEnd>,
        number: u32,
        gate: &'a G,
    ) -> Desk<'a, R, G>
        requires pass { IsPassOf survey.now pass.old }
        requires desk { IsDesk (desk_of pass.old) }
        requires jobs { ForSome jobs (λ end. (1 ≤ number) × (number ≤ end.now.surveys)) }
        ensures loan { result.pass.ghost_name ≡ pass.entry.ghost_name }
        ensures lent { (result.survey.now ≡ survey.now) × (result.pass.now ≡ pass.old) }
    {
        let jobs: &'a [JobEnd] = match jobs {
            Some(end) => slice::from_ref(end),
            None => &[],
        };
        Desk {
            rt,
            survey,
            pass,
            gate,
            jobs,
            number,
        }
    }

    /// Sends a job of the survey, if there is a line.
    fn send_job(&self) {
        for end in self.jobs {
            end.send(self.rt, self.number);
        }
    }
}

impl<'a, R: Wait + Sync, G: Gate> Events for Desk<'a, R, G> {
    ghost use Rattle.std.specs.Thread.{IsSync};
    ghost use Rattle.shared_survey.specs.Passes.{pass_seen, survey_listed};
    ghost use Rattle.shared_survey.specs.Accesses.{about_pass};

    type About = PassAbout;

    ghost about = { λ desk. about_pass desk.survey.now desk.pass };

    ghost listed = { λ about. survey_listed about.survey };

    ghost seen = { λ desk. pass_seen desk.pass.now };

    ghost can_wait = { IsSync R.row };

    fn length(&self) -> u32 {
        self.pass.length()
    }

    fn event(&mut self, place: u32) -> Event {
        self.survey.event(self.rt, self.pass, place)
    }

    fn class_pair(&self, place: u32) -> Pair {
        self.survey.classes.class(place)
    }
}

impl<'a, R: Wait + Sync, G: Gate> Respondent for Desk<'a, R, G> {
    ghost desk = { λ about. about.desk };

    fn next(&mut self) -> NextReply {
        self.survey.next(self.rt, self.pass, self.gate)
    }

    fn answer(&mut self, question: u32, side: Side) -> AnswerReply {
        let reply = self.survey.answer(self.rt, self.pass, question, side);
        if let AnswerReply::Accepted { .. } = reply {
            self.send_job();
        }
        reply
    }

    fn values(&mut self) -> ValuesReply {
        self.survey.values(self.rt, self.pass)
    }

    fn withdraw(&mut self) -> Result<WithdrawReply, NoMemory> {
        self.survey.withdraw(self.rt, self.pass)
    }
}
