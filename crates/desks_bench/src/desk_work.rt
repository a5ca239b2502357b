//! What a desk does.
ghost use Rattle.std.specs.Prelude.{◌≡◌, length};
ghost use Rattle.criteria_model.specs.Worth.{increments};
ghost use Rattle.desks_bench.specs.Runs.{IsOf, AsksFitPair};

use crate::times::{Times, time_now, time_since};
use criteria_model::{Model, Vector};
use sample_values::Draws;
use std::thread;
use std::time::{Clock, Duration};
use survey_replies::{NextReply, Respondent};

/// How a desk works.
#[derive(Clone, Copy)]
pub struct Habits {
    /// How often it asks, at most.
    pub rounds: u32,
    /// Of 1,000 rounds, how many begin with a withdrawal.
    pub withdrawals: u32,
    /// How long it thinks about a question.
    pub thinking: Duration,
}

/// How a desk's work went.
#[derive(Clone, Copy)]
pub struct Course {
    /// Nothing was left to ask.
    pub is_complete: bool,
    pub questions: u32,
    pub withdrawals: u32,
    /// Each reply.
    pub replies: Times,
    /// From an answer to the next question.
    pub waits: Times,
    /// From its beginning to its end.
    pub took: Duration,
}

impl Course {
    /// Nothing was done.
    pub fn none() -> Course {
        Course {
            is_complete: false,
            questions: 0,
            withdrawals: 0,
            replies: Times::none(),
            waits: Times::none(),
            took: Duration::ZERO,
        }
    }

    /// This and another.
    pub fn and(&self, other: &Course) -> Course {
        Course {
            is_complete: self.is_complete || other.is_complete,
            questions: self.questions.saturating_add(other.questions),
            withdrawals: self.withdrawals.saturating_add(other.withdrawals),
            replies: self.replies.and(&other.replies),
            waits: self.waits.and(&other.waits),
            took: self.took.max(other.took),
        }
    }
}

/// Who answers: a model, and the hidden values by which each question is answered.
#[derive(Clone, Copy)]
pub struct Person<'a> {
    pub model: &'a Model,
    pub hidden: &'a Vector,
    ghost fits: { length hidden.now ≡ increments model.now.levels },
}

/// Asks and answers, until nothing is left to ask or it was done as often as may be.
pub fn work<D: Respondent, R: Clock>(
    rt: &R,
    desk: &mut D,
    person: &Person,
    draws: &mut Draws,
    habits: &Habits,
) -> Course
    requires waits { D.can_wait }
    requires desk { IsOf person.now.model.now (D.listed (D.about desk.old)) }
    ensures same { D.about desk.new ≡ D.about desk.old }
{
    let start = time_now(rt);
    let mut course = Course::none();
    let mut begun = start;
    for _ in 0..habits.rounds {
        if draws.draw() < habits.withdrawals {
            take_back(rt, desk, &mut course);
        }
        begun = work_round(rt, desk, person, habits, begun, &mut course);
        if course.is_complete {
            break;
        }
    }
    course.took = time_since(rt, start);
    course
}

/// Takes the last answer back.
fn take_back<D: Respondent, R: Clock>(rt: &R, desk: &mut D, course: &mut Course)
    requires { D.can_wait }
    ensures { D.about desk.new ≡ D.about desk.old }
{
    let start = time_now(rt);
    if desk.withdraw().is_ok() {
        course.withdrawals = course.withdrawals.saturating_add(1);
    }
    course.replies.add(time_since(rt, start));
}

/// Asks, thinks and answers. `begun` is when the last answer was given; the time of this one is given back.
fn work_round<D: Respondent, R: Clock>(
    rt: &R,
    desk: &mut D,
    person: &Person,
    habits: &Habits,
    begun: Duration,
    course: &mut Course,
) -> Duration
    requires waits { D.can_wait }
    requires desk { IsOf person.now.model.now (D.listed (D.about desk.old)) }
    ensures same { D.about desk.new ≡ D.about desk.old }
{
    let start = time_now(rt);
    let reply = asked(desk, person.model);
    course.replies.add(time_since(rt, start));
    match reply {
        NextReply::Question { number, pair, .. } => {
            course.questions = course.questions.saturating_add(1);
            course.waits.add(time_since(rt, begun));
            let side = person.model.ranking(person.hidden, &pair);
            thread::sleep(rt, habits.thinking);
            let answered = time_now(rt);
            desk.answer(number, side);
            course.replies.add(time_since(rt, answered));
            answered
        }
        NextReply::Complete { .. } => {
            course.is_complete = true;
            course.waits.add(time_since(rt, begun));
            begun
        }
        NextReply::Full { .. } | NextReply::Waiting { .. } => begun,
    }
}

/// The reply to a wish for a question.
fn asked<D: Respondent>(desk: &mut D, model: &Model) -> NextReply
    requires waits { D.can_wait }
    requires desk { IsOf model.now (D.listed (D.about desk.old)) }
    ensures fits { AsksFitPair model.now.levels result }
    ensures same { D.about desk.new ≡ D.about desk.old }
{
    desk.next()
}
