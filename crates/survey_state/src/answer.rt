//! An answer to a question.
ghost use Rattle.std.specs.Prelude.{◌≡◌, None};
ghost use Rattle.decider.specs.Reserved.{IsReserved};
ghost use Rattle.survey_core.specs.Legal.{IsDesk};
ghost use Rattle.survey_replies.specs.Requests as request;
ghost use Rattle.survey_replies.specs.Outcomes as outcome;
ghost use Rattle.survey_replies.specs.Calls.{IsCall};
ghost use Rattle.survey_state.specs.Findings.{KeepsTools};

use crate::access::Access;
use crate::calls::{Call, Sought, call_by};
use crate::recording::{eliminate_once, record};
use crate::state::State;
use criteria_model::{Side, Vector};
use decider::Tools;
use farkas_check::Combination;
use survey_core::{Event, QuestionState};
use survey_replies::AnswerReply;

/// Takes an answer to a question.
///
/// The tools were reserved for the model. No turn is held while anything is solved.
pub fn answer_by<A: Access>(
    access: &mut A,
    tools: &mut Tools,
    desk: u8,
    question: u32,
    side: Side,
) -> AnswerReply
    requires waits { A.can_wait }
    requires free { A.out access.old ≡ None }
    requires desk { IsDesk desk }
    requires reserved { IsReserved (A.listed (A.about access.old)).criteria tools.old }
    ensures call { IsCall (A.listed (A.about access.old)) desk (A.seen access.old) (A.seen access.new)
        (request.answer question side) (outcome.answer result) }
    ensures free { A.out access.new ≡ None }
    ensures same { A.about access.new ≡ A.about access.old }
    ensures rooms { KeepsTools tools.old tools.new }
{
    let call = AnswerCall {
        desk,
        question,
        side,
    };
    call_by(access, tools, &call)
}

/// A desk answers a question.
#[derive(Clone, Copy)]
struct AnswerCall {
    desk: u8,
    question: u32,
    side: Side,
}

impl Call for AnswerCall {
    type Reply = AnswerReply;

    ghost request = { λ call. request.answer call.question call.side };

    ghost outcome_of = { outcome.answer };

    ghost desk = { λ call. call.desk };

    ghost wanted = { λ call. call.side };

    fn side(&self) -> Side {
        self.side
    }

    fn seek(&self, state: &State) -> Sought<AnswerReply> {
        let at = state.length();
        let question = self.question;
        match state.core().question(question) {
            QuestionState::Never => Sought::Now(AnswerReply::Unknown { at, question }),
            QuestionState::Gone { .. } => Sought::Now(AnswerReply::Closed { at, question }),
            QuestionState::Live { place } => Sought::Class(place),
        }
    }

    fn open(
        &self,
        state: &mut State,
        _place: u32,
        plus: &Vector,
        minus: &Vector,
        point: &Vector,
    ) -> AnswerReply {
        let at = state.length();
        let question = self.question;
        record(
            state,
            Event::Commit {
                desk: self.desk,
                question,
                side: self.side,
                plus: *plus,
                minus: *minus,
                point: *point,
            },
        );
        AnswerReply::Accepted { at, question }
    }

    fn rank(
        &self,
        state: &mut State,
        place: u32,
        verdict: Side,
        combination: &Combination,
    ) -> Option<AnswerReply> {
        let at = state.length();
        let question = self.question;
        eliminate_once(state, place, verdict, combination);
        record(
            state,
            Event::Close {
                desk: self.desk,
                question,
            },
        );
        Some(AnswerReply::Implied {
            at,
            question,
            verdict,
            combination: *combination,
        })
    }
}
