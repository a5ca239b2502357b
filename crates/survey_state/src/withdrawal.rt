//! The withdrawal.
ghost use Rattle.std.specs.Prelude.{◌≡◌, None, IfOk, OnErr};
ghost use Rattle.survey_core.specs.Legal.{IsDesk};
ghost use Rattle.survey_replies.specs.Requests as request;
ghost use Rattle.survey_replies.specs.Outcomes as outcome;
ghost use Rattle.survey_replies.specs.Calls.{Watches, IsCall, RepliesInTurn};

use crate::access::Access;
use crate::offer::Offer;
use crate::state::State;
use std::alloc::AllocError as NoMemory;
use survey_core::{Event, spent};
use survey_replies::WithdrawReply;

/// Takes back the last answer, in one turn.
///
/// # Errors
///
/// Out of memory: nothing was recorded.
pub fn withdraw_by<A: Access>(access: &mut A, desk: u8) -> Result<WithdrawReply, NoMemory>
    requires waits { A.can_wait }
    requires free { A.out access.old ≡ None }
    requires desk { IsDesk desk }
    ensures call { IfOk result (λ reply. IsCall (A.listed (A.about access.old)) desk (A.seen access.old) (A.seen access.new)
        request.withdraw (outcome.withdraw reply)) }
    ensures quiet { OnErr result (Watches (A.seen access.old) (A.seen access.new)) }
    ensures free { A.out access.new ≡ None }
    ensures same { A.about access.new ≡ A.about access.old }
{
    let mut state = access.begin();
    let reply = withdraw(&mut state, desk);
    access.finish(state);
    reply
}

/// The withdrawal on the state of a turn.
fn withdraw(state: &mut State, desk: u8) -> Result<WithdrawReply, NoMemory>
    requires { IsDesk desk }
    ensures replied { IfOk result (λ reply. RepliesInTurn state.old.listed desk state.old.journal state.new.journal
        request.withdraw (outcome.withdraw reply)) }
    ensures quiet { OnErr result (state.new.journal ≡ state.old.journal) }
    ensures same { state.new.listed ≡ state.old.listed }
{
    let at = state.length();
    let core = state.core();
    let answer = core.answers().len();
    let is_spent = spent(core.model().class_count(), core.withdrawals());
    let Some(question) = state.last_question() else {
        return Ok(WithdrawReply::Nothing { at });
    };
    if is_spent {
        return Ok(WithdrawReply::Spent { at });
    }
    state.make_room()?;
    match state.offer(Event::Withdraw { desk, answer }) {
        Offer::Done => Ok(WithdrawReply::Withdrawn {
            at,
            answer,
            question,
        }),
        Offer::Stale(_) => unreachable!(),
    }
}
