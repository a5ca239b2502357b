//! The wish for a question.
ghost use Rattle.std.specs.Prelude.{◌≡◌, None};
ghost use Rattle.criteria_model.specs.declared.pairs.Side.TheVariants.{Left};
ghost use Rattle.decider.specs.Reserved.{IsReserved};
ghost use Rattle.survey_core.specs.Legal.{IsDesk};
ghost use Rattle.survey_replies.specs.Requests as request;
ghost use Rattle.survey_replies.specs.Outcomes as outcome;
ghost use Rattle.survey_replies.specs.Calls.{IsCall};
ghost use Rattle.survey_state.specs.Findings.{KeepsTools};

use crate::access::Access;
use crate::calls::{Call, Sought, call_by};
use crate::recording::{eliminate, record};
use crate::state::State;
use criteria_model::{Side, Vector};
use decider::Tools;
use farkas_check::Combination;
use survey_core::{Event, MAX_OPEN_QUESTIONS};
use survey_replies::NextReply;

/// The next question.
///
/// The tools were reserved for the model. No turn is held while anything is solved.
pub fn next_by<A: Access>(access: &mut A, tools: &mut Tools, desk: u8) -> NextReply
    requires waits { A.can_wait }
    requires free { A.out access.old ≡ None }
    requires desk { IsDesk desk }
    requires reserved { IsReserved (A.listed (A.about access.old)).criteria tools.old }
    ensures call { IsCall (A.listed (A.about access.old)) desk (A.seen access.old) (A.seen access.new) request.next (outcome.next result) }
    ensures free { A.out access.new ≡ None }
    ensures same { A.about access.new ≡ A.about access.old }
    ensures rooms { KeepsTools tools.old tools.new }
{
    call_by(access, tools, &NextCall { desk })
}

/// A desk asks for a question.
#[derive(Clone, Copy)]
struct NextCall {
    desk: u8,
}

impl Call for NextCall {
    type Reply = NextReply;

    ghost request = { λ _. request.next };

    ghost outcome_of = { outcome.next };

    ghost desk = { λ call. call.desk };

    ghost wanted = { λ _. Left };

    fn side(&self) -> Side {
        Side::Left
    }

    fn seek(&self, state: &State) -> Sought<NextReply> {
        match state.first_due() {
            Some(place) => Sought::Class(place),
            None => match state.first_unranked() {
                Some(place) => Sought::Class(place),
                None => Sought::Now(NextReply::Complete { at: state.length() }),
            },
        }
    }

    fn open(
        &self,
        state: &mut State,
        place: u32,
        plus: &Vector,
        minus: &Vector,
        _point: &Vector,
    ) -> NextReply {
        let at = state.length();
        if state.core().open_questions() >= MAX_OPEN_QUESTIONS {
            return NextReply::Full { at };
        }
        let (plus, minus) = (*plus, *minus);
        if state.first_due().is_none() {
            return NextReply::Waiting {
                at,
                place,
                plus,
                minus,
            };
        }
        let pair = state.core().class(place);
        let desk = self.desk;
        record(
            state,
            Event::Issue {
                desk,
                place,
                plus,
                minus,
            },
        );
        let number = state.core().asked();
        NextReply::Question {
            at,
            number,
            place,
            pair,
        }
    }

    fn rank(
        &self,
        state: &mut State,
        place: u32,
        verdict: Side,
        combination: &Combination,
    ) -> Option<NextReply> {
        eliminate(state, place, verdict, combination);
        None
    }
}
