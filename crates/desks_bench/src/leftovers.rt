//! What is left when all desks have gone.
ghost use Rattle.std.specs.Prelude.{◌≡◌, ◌≤◌, IfSome, length};
ghost use Rattle.criteria_model.specs.Pairs.{IsFit};
ghost use Rattle.desks_bench.specs.Runs.{IsOf};

use crate::desk_work::{Course, Habits, Person, work};
use criteria_model::{Model, Pair};
use sample_values::Draws;
use std::time::{Clock, Duration};
use survey_core::Event;
use survey_replies::Respondent;

/// How often what is left is looked through.
const MAX_LOOKS: u32 = 10_000;

/// Answers what was asked, and asks and answers the rest. True where nothing is left.
pub fn finish<D: Respondent, R: Clock>(rt: &R, desk: &mut D, person: &Person) -> bool
    requires waits { D.can_wait }
    requires desk { IsOf person.now.model.now (D.listed (D.about desk.old)) }
    ensures same { D.about desk.new ≡ D.about desk.old }
{
    for _ in 0..MAX_LOOKS {
        answer_asked(desk, person);
        if ask_rest(rt, desk, person).is_complete {
            return true;
        }
    }
    false
}

/// Asks and answers the rest.
fn ask_rest<D: Respondent, R: Clock>(rt: &R, desk: &mut D, person: &Person) -> Course
    requires waits { D.can_wait }
    requires desk { IsOf person.now.model.now (D.listed (D.about desk.old)) }
    ensures same { D.about desk.new ≡ D.about desk.old }
{
    let habits = Habits {
        rounds: person.model.class_count(),
        withdrawals: 0,
        thinking: Duration::ZERO,
    };
    work(rt, desk, person, &mut Draws::from_seed(0), &habits)
}

/// Answers each question that was asked.
fn answer_asked<D: Respondent>(desk: &mut D, person: &Person)
    requires waits { D.can_wait }
    requires desk { IsOf person.now.model.now (D.listed (D.about desk.old)) }
    ensures same { D.about desk.new ≡ D.about desk.old }
{
    let length = desk.length();
    let mut questions = 0u32;
    for place in 0..length {
        questions = answer_at(desk, person, place + 1, questions);
    }
}

/// Answers the question that the event at the place asks, if it asks one, which is then this number and one more. Gives
/// the number of questions so far.
fn answer_at<D: Respondent>(desk: &mut D, person: &Person, place: u32, questions: u32) -> u32
    requires waits { D.can_wait }
    requires desk { IsOf person.now.model.now (D.listed (D.about desk.old)) }
    requires low { 1 ≤ place }
    requires high { place ≤ length (D.seen desk.old).journal }
    ensures same { D.about desk.new ≡ D.about desk.old }
    ensures longer { length (D.seen desk.old).journal ≤ length (D.seen desk.new).journal }
{
    let Event::Issue { place: class, .. } = desk.event(place) else {
        return questions;
    };
    let number = questions.saturating_add(1);
    if let Some(pair) = class_at(desk, person.model, class) {
        desk.answer(number, person.model.ranking(person.hidden, &pair));
    }
    number
}

/// The class at a place, where there is one.
fn class_at<D: Respondent>(desk: &D, model: &Model, place: u32) -> Option<Pair>
    requires { IsOf model.now (D.listed (D.about desk.now)) }
    ensures { IfSome result (λ pair. IsFit model.now.levels pair) }
{
    if place == 0 || place > model.class_count() {
        return None;
    }
    let pair = desk.class_pair(place);
    if model.fits(&pair) { Some(pair) } else { None }
}
