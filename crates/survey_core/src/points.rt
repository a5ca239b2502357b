//! The points of the answers that stand, for whoever keeps a history: a withdrawal brings an earlier point back.
ghost use Rattle.std.specs.Prelude.{◌≡◌, ◌<◌, pos, replicate, fold, length, vec_len, vec_capacity, IsTrue};
ghost use Rattle.std.specs.Option.{option_map};
ghost use Rattle.criteria_model.specs.Worth.{increments};
ghost use Rattle.survey_core.specs.Histories.{item_at};
ghost use Rattle.survey_core.specs.Kinds.{is_commit};
ghost use Rattle.survey_core.specs.Points.{points_after};

use crate::events::Event;
use criteria_model::{MAX_INCREMENTS, Model, Vector};

/// The point that came with an answer, and the question that it answers.
#[derive(Clone, Copy)]
pub struct AnswerPoint {
    /// The question's number.
    pub question: u32,
    /// Values that meet the answers up to this one.
    pub point: Vector,
}

/// The points of the answers that stand, after one more event: an answer's point comes last, and a withdrawal takes the last away.
pub fn follow(points: &mut Vec<AnswerPoint>, event: &Event)
    requires { IsTrue (is_commit event.now) → vec_len points.old < vec_capacity points.old }
    ensures items { points.new.items ≡ points_after points.old.items event.now }
    ensures capacity { vec_capacity points.new ≡ vec_capacity points.old }
{
    match event {
        Event::Commit {
            question,
            point,
            ..
        } => points.push_reserved(AnswerPoint {
            question: *question,
            point: *point,
        }),
        Event::Withdraw { .. } => {
            let _last = points.pop();
        }
        _ => {}
    }
}

/// The last of the points, or all ones where there is none.
pub fn latest(points: &[AnswerPoint], model: &Model) -> Vector
    ensures { result ≡ fold (λ earlier last. last.point) (replicate (increments model.now.levels) (pos 1)) points.now }
{
    match points.last() {
        Some(last) => last.point,
        None => ones(model),
    }
}

/// The vector of ones.
fn ones(model: &Model) -> Vector
    ensures { result ≡ replicate (increments model.now.levels) (pos 1) }
{
    let ones = [1; MAX_INCREMENTS];
    Vector::of(&ones[..usize::from(model.increments())])
}

/// The question of the last answer.
pub fn last_question(points: &[AnswerPoint]) -> Option<u32>
    ensures { result ≡ option_map (λ last. last.question) (item_at points.now (length points.now)) }
{
    Some(points.last()?.question)
}
