//! What is counted of a sample survey.
ghost use Rattle.std.specs.Prelude.{◌≡◌, ℕ, ◌+◌, ◌-◌, ◌*◌, ◌%◌, ◌^◌, ◌<◌, List, [], ◌∷◌, ◌++◌, length};
ghost use Rattle.sample_survey.specs.Samples.{AnsweredQuestion, side_number as number_of_side, summary_of};

use criteria_model::Side;

/// What the trace before an answer is multiplied by.
const TRACE_FACTOR: u64 = 31;

/// What the place of an answered class is multiplied by in a trace.
const PLACE_FACTOR: u64 = 3;

/// What each trace is below.
const TRACE_MODULUS: u64 = 1_000_000_007;

/// Counts of a sample survey.
#[derive(Clone, Copy, PartialEq, Eq, Debug)]
pub struct Summary {
    /// Classes of the model.
    pub classes: u32,
    /// Questions that came.
    pub questions: u32,
    /// Accepted answers by the left side.
    pub left: u32,
    /// Accepted answers by the right side.
    pub right: u32,
    /// Accepted answers that both are worth as much.
    pub equal: u32,
    /// Classes that no accepted answer is about.
    pub eliminated: u32,
    /// A number that the places and the sides of the answers give, in their order.
    pub trace: u64,
}

impl Summary {
    /// Nothing was asked about these classes.
    pub(crate) fn new(classes: u32) -> Summary
        ensures { result ≡ summary_of classes 0 [] }
    {
        Summary {
            classes,
            questions: 0,
            left: 0,
            right: 0,
            equal: 0,
            eliminated: classes,
            trace: 0,
        }
    }

    /// One question more came, and its answer wasn't accepted.
    pub(crate) fn with_question(self) -> Summary
        requires { self.questions < 2 ^ 32 - 1 }
        ensures { (classes : ℕ) (questions : List AnsweredQuestion) → self ≡ summary_of classes (length questions) questions
            → result ≡ summary_of classes (length questions + 1) questions }
    {
        Summary {
            questions: self.questions + 1,
            ..self
        }
    }

    /// One question more came and was answered.
    pub(crate) fn with_answer(self, place: u32, side: Side) -> Summary
        requires { (questions : List AnsweredQuestion) × (self ≡ summary_of self.classes (length questions) questions)
            × (length questions < self.classes) }
        ensures { (classes : ℕ) (questions : List AnsweredQuestion) (one : AnsweredQuestion)
            → self ≡ summary_of classes (length questions) questions → one.place ≡ place → one.side ≡ side
            → result ≡ summary_of classes (length questions + 1) (questions ++ one ∷ []) }
    {
        let asked = Summary {
            questions: self.questions + 1,
            eliminated: self.eliminated - 1,
            trace: trace_after(self.trace, place, side),
            ..self
        };
        match side {
            Side::Left => Summary {
                left: asked.left + 1,
                ..asked
            },
            Side::Right => Summary {
                right: asked.right + 1,
                ..asked
            },
            Side::Equal => Summary {
                equal: asked.equal + 1,
                ..asked
            },
        }
    }
}

/// The trace after an answer on the class at a place.
fn trace_after(trace: u64, place: u32, side: Side) -> u64
    requires { trace < TRACE_MODULUS }
    ensures { result ≡ (TRACE_FACTOR * trace + PLACE_FACTOR * place + number_of_side side) % TRACE_MODULUS }
{
    (TRACE_FACTOR * trace + PLACE_FACTOR * u64::from(place) + side_number(side)) % TRACE_MODULUS
}

/// The number of a side in a trace.
fn side_number(side: Side) -> u64
    ensures { result ≡ number_of_side side }
{
    match side {
        Side::Left => 0,
        Side::Right => 1,
        Side::Equal => 2,
    }
}
