//! A respondent that answers by hidden values.
ghost use Rattle.std.specs.Prelude.{◌≡◌, IfOk};
ghost use Rattle.criteria_model.specs.Worth.{increments, IsValueVector};
ghost use Rattle.pair_enumeration.specs.Listed.{IsListed};
ghost use Rattle.survey_core.specs.Legal.{IsLegal};
ghost use Rattle.survey_replies.specs.Calls.{unseen};
ghost use Rattle.survey_replies.specs.PlainLaws.{IsAlone};
ghost use Rattle.sample_survey.specs.Samples.{IsSample, IsSampleOf};
ghost use Rattle.sample_survey.specs.Sampling.{IsSampling, IsSampleStep};

use crate::NoMemory;
use crate::summary::Summary;
use criteria_model::{Model, Side, Vector};
use sample_values::hidden_values;
use std::alloc::Global;
use survey_replies::{AnswerReply, Events, NextReply, Respondent};
use survey_state::Solo;

/// The sample of a seed in a survey of its own.
///
/// # Errors
///
/// Out of memory.
pub fn solo_sample(alloc: Global, seed: u32, model: &Model) -> Result<Summary, NoMemory>
    ensures { IfOk result (λ summary. IsSampleOf model.now seed summary) }
{
    let mut solo = Solo::new(alloc, model)?;
    Ok(sample_by(&mut solo, seed, model))
}

/// Asks, and answers by the hidden values of the seed, up to Complete or to the first reply that a sample doesn't have. The
/// respondent has seen nothing yet.
pub fn sample_by<R: Respondent>(respondent: &mut R, seed: u32, model: &Model) -> Summary
    requires waits { R.can_wait }
    requires model { model.now ≡ (R.listed (R.about respondent.old)).criteria }
    requires unseen { R.seen respondent.old ≡ unseen }
    ensures sampling { IsSampling (R.listed (R.about respondent.old)) (R.desk (R.about respondent.old)) seed
        (R.seen respondent.old) (R.seen respondent.new) result }
    ensures alone { IsAlone (R.seen respondent.new) → IsSample (R.listed (R.about respondent.old)) seed result }
    ensures same { R.about respondent.new ≡ R.about respondent.old }
{
    let values = hidden_values(seed, model);
    let classes = model.class_count();
    let mut summary = Summary::new(classes);
    look(respondent);
    for _asked in 0..classes + 1 {
        let step = answer_next(respondent, model, &values);
        look(respondent);
        match step {
            Step::Answered { place, side } => summary = summary.with_answer(place, side),
            Step::NotAccepted => return summary.with_question(),
            Step::NoQuestion => return summary,
        }
    }
    // Each question is of a class that wasn't asked before.
    unreachable!()
}

/// What comes of asking once.
#[derive(Clone, Copy)]
enum Step {
    /// A question on the class at the place came, and its answer by the side was accepted.
    Answered { place: u32, side: Side },
    /// A question came, and its answer wasn't accepted.
    NotAccepted,
    /// No question came.
    NoQuestion,
}

/// Asks for a question, and answers it by the values.
fn answer_next<R: Respondent>(respondent: &mut R, model: &Model, values: &Vector) -> Step
    requires waits { R.can_wait }
    requires model { model.now ≡ (R.listed (R.about respondent.old)).criteria }
    requires listed { IsListed (R.listed (R.about respondent.old)) }
    requires vector { IsValueVector model.now.levels values.now }
    ensures step { IsSampleStep (R.listed (R.about respondent.old)) (R.desk (R.about respondent.old)) values.now
        (R.seen respondent.old) (R.seen respondent.new) result }
    ensures same { R.about respondent.new ≡ R.about respondent.old }
{
    let NextReply::Question {
        number,
        place,
        pair,
        ..
    } = respondent.next()
    else {
        return Step::NoQuestion;
    };
    let side = model.ranking(values, &pair);
    match respondent.answer(number, side) {
        AnswerReply::Accepted { .. } => Step::Answered { place, side },
        _ => Step::NotAccepted,
    }
}

/// Looks at what was seen: a legal journal.
fn look<E: Events>(events: &E)
    ensures listed { IsListed (E.listed (E.about events.now)) }
    ensures legal { IsLegal (E.listed (E.about events.now)) (E.seen events.now).journal }
{
    let _length = events.length();
}
