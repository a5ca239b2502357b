//! The wish for values.
ghost use Rattle.std.specs.Prelude.{◌≡◌, ℕ, None};
ghost use Rattle.criteria_model.specs.declared.pairs.Side.TheVariants.{Left};
ghost use Rattle.decider.specs.Reserved.{IsReserved};
ghost use Rattle.survey_replies.specs.Requests as request;
ghost use Rattle.survey_replies.specs.Outcomes as outcome;
ghost use Rattle.survey_replies.specs.Calls.{IsCall};
ghost use Rattle.survey_state.specs.Findings.{KeepsTools};

use crate::access::Access;
use crate::calls::{Call, Sought, call_by};
use crate::recording::eliminate;
use crate::state::State;
use criteria_model::{Side, Vector};
use decider::Tools;
use farkas_check::Combination;
use survey_replies::ValuesReply;

/// Values that meet the answers, once these rank every class.
///
/// The tools were reserved for the model. No turn is held while anything is solved. The reply is the same at each desk.
pub fn values_by<A: Access>(access: &mut A, tools: &mut Tools) -> ValuesReply
    requires waits { A.can_wait }
    requires free { A.out access.old ≡ None }
    requires reserved { IsReserved (A.listed (A.about access.old)).criteria tools.old }
    ensures call { (desk : ℕ) → IsCall (A.listed (A.about access.old)) desk (A.seen access.old) (A.seen access.new) request.values (outcome.values result) }
    ensures free { A.out access.new ≡ None }
    ensures same { A.about access.new ≡ A.about access.old }
    ensures rooms { KeepsTools tools.old tools.new }
{
    call_by(access, tools, &ValuesCall)
}

/// Values are asked for.
#[derive(Clone, Copy)]
struct ValuesCall;

impl Call for ValuesCall {
    type Reply = ValuesReply;

    ghost request = { λ _. request.values };

    ghost outcome_of = { outcome.values };

    ghost desk = { λ _. 1 };

    ghost wanted = { λ _. Left };

    fn side(&self) -> Side {
        Side::Left
    }

    fn seek(&self, state: &State) -> Sought<ValuesReply> {
        match state.first_unranked() {
            Some(place) => Sought::Class(place),
            None => Sought::Now(ValuesReply::Values {
                at: state.length(),
                vector: state.point(),
            }),
        }
    }

    fn open(
        &self,
        state: &mut State,
        place: u32,
        plus: &Vector,
        minus: &Vector,
        _point: &Vector,
    ) -> ValuesReply {
        ValuesReply::Incomplete {
            at: state.length(),
            place,
            pair: state.core().class(place),
            plus: *plus,
            minus: *minus,
        }
    }

    fn rank(
        &self,
        state: &mut State,
        place: u32,
        verdict: Side,
        combination: &Combination,
    ) -> Option<ValuesReply> {
        eliminate(state, place, verdict, combination);
        None
    }
}
