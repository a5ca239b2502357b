//! Calls of a survey, each a row of turns: what must be decided is decided between them.
ghost use Rattle.std.specs.Prelude.{◌≡◌, ◌≢◌, ℕ, length, None, IfSome, IsTrue, IsFalse, MatchOption};
ghost use Rattle.criteria_model.specs.declared.pairs.Side.{Side};
ghost use Rattle.answer_rows.specs.Room.{room_of};
ghost use Rattle.decider.specs.Reserved.{IsReservedSnapshot, IsReserved};
ghost use Rattle.decider.specs.Standing.{KeepsRoom};
ghost use Rattle.survey_core.specs.Legal.{IsDesk, IsPlace, OpensClass};
ghost use Rattle.survey_replies.specs.Requests.{Request};
ghost use Rattle.survey_replies.specs.Outcomes.{Outcome};
ghost use Rattle.survey_replies.specs.Calls.{IsCall, RepliesInTurn};
ghost use Rattle.survey_state.specs.Sought.{IsSought};
ghost use Rattle.survey_state.specs.Findings.{IsCertifiedClass, MeetsWithClass, IsFinding, IsFindingOf, IsReadyFor, IsLook, IsFoundIn, IsFresh, IsEarlier, HoldsNow, KeepsTools};
ghost use Rattle.survey_state.specs.Turns.{Seeks, AppendsEliminate, IsStep, SeeksOn, Grows, Advances, IsTurn};

use crate::access::Access;
use crate::findings::{Finding, Found, Look, find};
use crate::state::State;
use criteria_model::{Side, Vector};
use decider::{Snapshot, Tools};
use farkas_check::Combination;

/// What a state makes of a request.
pub(crate) enum Sought<R> {
    /// The reply.
    Now(R),
    /// The reply rests on whether the class at the place is open.
    Class(u32),
}

/// What a turn comes to.
pub(crate) enum Step<R> {
    /// The reply.
    Reply(R),
    /// A class to look at before the next turn.
    Look(Look),
    /// The next turn goes on.
    Again,
}

/// A request of a desk.
pub(crate) trait Call {
    type Reply: Copy;

    ghost request: { Self → Request };

    ghost outcome_of: { Self.Reply → Outcome };

    ghost desk: { Self → ℕ };

    // The side of the answer for which a point is wanted.
    ghost wanted: { Self → Side };

    /// The side of the answer for which a point is wanted.
    fn side(&self) -> Side
        ensures { result ≡ wanted self.now };

    /// What the state makes of the request at once.
    fn seek(&self, state: &State) -> Sought<Self::Reply>
        ensures { Seeks outcome_of (desk self.now) (request self.now) state.now result };

    /// The reply where two vectors open the class.
    fn open(
        &self,
        state: &mut State,
        place: u32,
        plus: &Vector,
        minus: &Vector,
        point: &Vector,
    ) -> Self::Reply
        requires desk { IsDesk (desk self.now) }
        requires sought { IsSought state.old.listed state.old.journal (request self.now) place }
        requires opens { OpensClass state.old.listed state.old.journal place plus.now minus.now }
        requires meets { MeetsWithClass state.old.listed state.old.journal place (wanted self.now) point.now }
        ensures replied { RepliesInTurn state.old.listed (desk self.now) state.old.journal state.new.journal (request self.now) (outcome_of result) }
        ensures same { state.new.listed ≡ state.old.listed };

    /// Records the ranking of the class. The reply, if it rests on this class alone.
    fn rank(
        &self,
        state: &mut State,
        place: u32,
        verdict: Side,
        combination: &Combination,
    ) -> Option<Self::Reply>
        requires desk { IsDesk (desk self.now) }
        requires sought { IsSought state.old.listed state.old.journal (request self.now) place }
        requires certified { IsCertifiedClass state.old.listed state.old.journal place verdict combination.now }
        ensures recorded { MatchOption result
            (AppendsEliminate (request self.now) state.old.journal state.new.journal place verdict combination.now)
            (λ reply. RepliesInTurn state.old.listed (desk self.now) state.old.journal state.new.journal (request self.now) (outcome_of reply)) }
        ensures same { state.new.listed ≡ state.old.listed };
}

/// The reply to the request, by turns as many as it takes.
pub(crate) fn call_by<A: Access, C: Call>(access: &mut A, tools: &mut Tools, call: &C) -> C::Reply
    requires waits { A.can_wait }
    requires free { A.out access.old ≡ None }
    requires desk { IsDesk (C.desk call.now) }
    requires reserved { IsReserved (A.listed (A.about access.old)).criteria tools.old }
    ensures call { IsCall (A.listed (A.about access.old)) (C.desk call.now) (A.seen access.old) (A.seen access.new)
        (C.request call.now) (C.outcome_of result) }
    ensures free { A.out access.new ≡ None }
    ensures same { A.about access.new ≡ A.about access.old }
    ensures rooms { KeepsTools tools.old tools.new }
{
    let mut found = None;
    loop {
        match turn_by(access, tools, call, &found) {
            Step::Reply(reply) => return reply,
            Step::Look(look) => found = Some(found_of(tools, call.side(), look)),
            Step::Again => found = None,
        }
    }
}

/// What is found out of the class.
fn found_of(tools: &mut Tools, side: Side, look: Look) -> Found
    requires { IsReadyFor look tools.old }
    ensures at { result.at ≡ look.at }
    ensures place { result.place ≡ look.place }
    ensures finding { IsFinding look.model.levels tools.old.snapshot.answers.answers look.pair side result.finding }
    ensures snapshot { tools.new.snapshot ≡ tools.old.snapshot }
    ensures room { KeepsRoom tools.old.work tools.new.work }
{
    let finding = find(tools, side, &look);
    Found {
        at: look.at,
        place: look.place,
        finding,
    }
}

/// One turn. Nothing is solved in it.
fn turn_by<A: Access, C: Call>(
    access: &mut A,
    tools: &mut Tools,
    call: &C,
    found: &Option<Found>,
) -> Step<C::Reply>
    requires waits { A.can_wait }
    requires free { A.out access.old ≡ None }
    requires desk { IsDesk (C.desk call.now) }
    requires reserved { IsReserved (A.listed (A.about access.old)).criteria tools.old }
    requires found { IfSome found.now (IsFoundIn (A.listed (A.about access.old)) (A.seen access.old).journal (C.request call.now) (C.wanted call.now) tools.old.snapshot) }
    ensures turn { IsTurn C.outcome_of (A.listed (A.about access.old)) (C.desk call.now) (C.request call.now) (A.seen access.old) (A.seen access.new) tools.new.snapshot result }
    ensures advances { Advances found.now (A.seen access.old).journal (A.seen access.new).journal result }
    ensures free { A.out access.new ≡ None }
    ensures same { A.about access.new ≡ A.about access.old }
    ensures rooms { KeepsTools tools.old tools.new }
{
    let mut state = access.begin();
    let step = turn(call, &mut state, &mut tools.snapshot, found);
    access.finish(state);
    step
}

/// The same on the state.
fn turn<C: Call>(
    call: &C,
    state: &mut State,
    snapshot: &mut Snapshot,
    found: &Option<Found>,
) -> Step<C::Reply>
    requires desk { IsDesk (C.desk call.now) }
    requires reserved { IsReservedSnapshot state.old.listed.criteria snapshot.old }
    requires found { IfSome found.now (IsFoundIn state.old.listed state.old.journal (C.request call.now) (C.wanted call.now) snapshot.old) }
    ensures step { IsStep C.outcome_of (C.desk call.now) (C.request call.now) state.old state.new snapshot.new result }
    ensures advances { Advances found.now state.old.journal state.new.journal result }
    ensures same { state.new.listed ≡ state.old.listed }
    ensures room { room_of snapshot.new.answers ≡ room_of snapshot.old.answers }
{
    match call.seek(state) {
        Sought::Now(reply) => Step::Reply(reply),
        Sought::Class(place) => match fresh(state, snapshot, found, place) {
            Some(found) => act(call, state, snapshot, found),
            None => {
                state.snapshot_into(snapshot);
                Step::Look(look_at(state, state.length(), place))
            }
        },
    }
}

/// What was found, if it holds now.
fn fresh<'a>(
    state: &State,
    snapshot: &Snapshot,
    found: &'a Option<Found>,
    place: u32,
) -> Option<&'a Found>
    ensures { (asked : Request) (side : Side) → IsSought state.now.listed state.now.journal asked place
        → IfSome found.now (IsFoundIn state.now.listed state.now.journal asked side snapshot.now)
        → MatchOption result (IsEarlier found.now state.now.journal) (λ one. HoldsNow state.now.listed state.now.journal asked side snapshot.now one.now) }
{
    match found {
        Some(one) => {
            if is_fresh(state, snapshot, one, place) {
                Some(one)
            } else {
                None
            }
        }
        None => None,
    }
}

/// Whether what was found holds now: nothing came since, or the same class is sought and the answers are the same.
fn is_fresh(state: &State, snapshot: &Snapshot, found: &Found, place: u32) -> bool
    ensures fresh { (asked : Request) (side : Side) → IsTrue result → IsSought state.now.listed state.now.journal asked place
        → IsFoundIn state.now.listed state.now.journal asked side snapshot.now found.now
        → IsFresh state.now.listed state.now.journal asked snapshot.now found.now.place }
    ensures stale { IsFalse result → found.now.at ≢ length state.now.journal }
{
    found.at == state.length() || (found.place == place && snapshot.version == state.version())
}

/// Does what follows from what was found.
fn act<C: Call>(call: &C, state: &mut State, snapshot: &Snapshot, found: &Found) -> Step<C::Reply>
    requires desk { IsDesk (C.desk call.now) }
    requires fresh { IsFresh state.old.listed state.old.journal (C.request call.now) snapshot.now found.now.place }
    requires finding { IsFindingOf state.old.listed snapshot.now (C.wanted call.now) found.now }
    ensures step { IsStep C.outcome_of (C.desk call.now) (C.request call.now) state.old state.new snapshot.now result }
    ensures grows { Grows state.old.journal state.new.journal result }
    ensures same { state.new.listed ≡ state.old.listed }
{
    match &found.finding {
        Finding::Open { plus, minus, point } => {
            state.keep_met(found.place, snapshot.answers.len(), *plus, *minus);
            Step::Reply(call.open(state, found.place, plus, minus, point))
        }
        Finding::Ranked {
            verdict,
            combination,
        } => match call.rank(state, found.place, *verdict, combination) {
            Some(reply) => Step::Reply(reply),
            None => seek_on(call, state),
        },
    }
}

/// What is to be looked at next. The turn has appended, so it doesn't reply.
fn seek_on<C: Call>(call: &C, state: &State) -> Step<C::Reply>
    ensures { SeeksOn state.now.listed state.now.journal (C.request call.now) result }
{
    let at = state.length();
    match call.seek(state) {
        Sought::Now(_) => Step::Again,
        Sought::Class(place) => Step::Look(look_at(state, at, place)),
    }
}

/// The class at the place, to be looked at.
fn look_at(state: &State, at: u32, place: u32) -> Look
    requires at { at ≡ length state.now.journal }
    requires place { IsPlace state.now.listed place }
    ensures place { result.place ≡ place }
    ensures look { IsLook state.now.listed state.now.journal result }
{
    let core = state.core();
    Look {
        at,
        place,
        model: core.model(),
        pair: core.class(place),
        kept: state.kept(place),
    }
}
