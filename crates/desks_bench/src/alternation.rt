//! A desk and an eliminator that take turns on one thread: how long turns are, and what jobs come to.
ghost use Rattle.std.specs.Prelude.{◌≡◌, None};
ghost use mathlib.Core.List.{IsPrefix};
ghost use Rattle.criteria_model.specs.Pairs.{IsFit};
ghost use Rattle.decider.specs.Reserved.{IsReserved};
ghost use Rattle.decider.specs.ToolDecisions.{AreReady, Decides};
ghost use Rattle.survey_core.specs.Legal.{IsPlace};
ghost use Rattle.desks_bench.specs.Runs.{IsOf, AsksFitPair};

use crate::desk_work::Person;
use crate::timed_access::TimedAccess;
use crate::times::{Times, time_now, time_since};
use criteria_model::{Model, Pair};
use decider::{Decision, Tools};
use eliminators::{hand_in_to, take_from};
use std::alloc::{AllocError as NoMemory, Global};
use std::time::{Clock, Duration};
use survey_replies::NextReply;
use survey_state::{Access, State, answer_by, next_by};
use witness_check::meets;

/// The desk's number.
const DESK: u8 = 1;

/// The eliminator's number.
const WORKER: u8 = 1;

/// What jobs came to.
#[derive(Clone, Copy)]
pub struct Jobs {
    pub takes: Times,
    pub hand_ins: Times,
    /// Decisions with and without a solve.
    pub solved: Times,
    pub looked_up: Times,
    /// Classes whose kept vectors met all answers, and how many of them took a solve.
    pub still_open: u32,
    pub still_open_solved: u32,
}

impl Jobs {
    /// None were taken.
    pub fn none() -> Jobs {
        Jobs {
            takes: Times::none(),
            hand_ins: Times::none(),
            solved: Times::none(),
            looked_up: Times::none(),
            still_open: 0,
            still_open_solved: 0,
        }
    }

    /// Counts a decision on a class, which was known to be open or not.
    fn count(&mut self, took: Duration, by_solve: bool, was_open: bool) {
        if by_solve {
            self.solved.add(took);
        } else {
            self.looked_up.add(took);
        }
        self.still_open = self.still_open.saturating_add(u32::from(was_open));
        let again = was_open && by_solve;
        self.still_open_solved = self.still_open_solved.saturating_add(u32::from(again));
    }
}

/// What turns and jobs came to.
#[derive(Clone, Copy)]
pub struct Alternation {
    pub questions: u32,
    pub turns: Times,
    pub jobs: Jobs,
}

/// A desk asks and answers until nothing is left to ask. After each answer an eliminator does jobs, `most` at most.
pub fn alternate<R: Clock>(
    rt: &R,
    alloc: Global,
    person: &Person,
    most: u32,
) -> Result<Alternation, NoMemory> {
    let state = State::new(alloc, person.model)?;
    let mut desk_tools = Tools::reserve(alloc, person.model)?;
    let mut tools = Tools::reserve(alloc, person.model)?;
    let mut access = TimedAccess::to(rt, state);
    let mut jobs = Jobs::none();
    let mut questions = 0u32;
    for _ in 0..=person.model.class_count() {
        if !ask_and_answer(&mut access, &mut desk_tools, person) {
            break;
        }
        questions = questions.saturating_add(1);
        eliminate_by(rt, &mut access, &mut tools, person.model, most, &mut jobs);
    }
    Ok(Alternation {
        questions,
        turns: *access.turns(),
        jobs,
    })
}

/// Asks and answers. False where nothing is left to ask.
fn ask_and_answer<A: Access>(access: &mut A, tools: &mut Tools, person: &Person) -> bool
    requires waits { A.can_wait }
    requires free { A.out access.old ≡ None }
    requires model { IsOf person.now.model.now (A.listed (A.about access.old)) }
    requires reserved { IsReserved person.now.model.now tools.old }
    ensures free { A.out access.new ≡ None }
    ensures same { A.about access.new ≡ A.about access.old }
    ensures reserved { IsReserved person.now.model.now tools.new }
{
    let NextReply::Question { number, pair, .. } = asked(access, tools, person.model) else {
        return false;
    };
    let side = person.model.ranking(person.hidden, &pair);
    answer_by(access, tools, DESK, number, side);
    true
}

/// The reply to a wish for a question.
fn asked<A: Access>(access: &mut A, tools: &mut Tools, model: &Model) -> NextReply
    requires waits { A.can_wait }
    requires free { A.out access.old ≡ None }
    requires model { IsOf model.now (A.listed (A.about access.old)) }
    requires reserved { IsReserved model.now tools.old }
    ensures fits { AsksFitPair model.now.levels result }
    ensures free { A.out access.new ≡ None }
    ensures same { A.about access.new ≡ A.about access.old }
    ensures reserved { IsReserved model.now tools.new }
{
    next_by(access, tools, DESK)
}

/// Does jobs in one turn, `most` at most.
fn eliminate_by<R: Clock, A: Access>(
    rt: &R,
    access: &mut A,
    tools: &mut Tools,
    model: &Model,
    most: u32,
    jobs: &mut Jobs,
)
    requires waits { A.can_wait }
    requires free { A.out access.old ≡ None }
    requires model { IsOf model.now (A.listed (A.about access.old)) }
    requires reserved { IsReserved model.now tools.old }
    ensures free { A.out access.new ≡ None }
    ensures same { A.about access.new ≡ A.about access.old }
    ensures reserved { IsReserved model.now tools.new }
{
    let mut state = access.begin();
    eliminate_in(rt, &mut state, tools, model, most, jobs);
    access.finish(state);
}

/// Does jobs of a state, `most` at most.
fn eliminate_in<R: Clock>(
    rt: &R,
    state: &mut State,
    tools: &mut Tools,
    model: &Model,
    most: u32,
    jobs: &mut Jobs,
)
    requires model { IsOf model.now state.old.listed }
    requires reserved { IsReserved model.now tools.old }
    ensures listed { state.new.listed ≡ state.old.listed }
    ensures longer { IsPrefix state.old.journal state.new.journal }
    ensures reserved { IsReserved model.now tools.new }
{
    for _ in 0..most {
        if !eliminate_one(rt, state, tools, model, jobs) {
            break;
        }
    }
}

/// Takes a job, decides it and hands it in. False where none is left.
fn eliminate_one<R: Clock>(
    rt: &R,
    state: &mut State,
    tools: &mut Tools,
    model: &Model,
    jobs: &mut Jobs,
) -> bool
    requires model { IsOf model.now state.old.listed }
    requires reserved { IsReserved model.now tools.old }
    ensures listed { state.new.listed ≡ state.old.listed }
    ensures longer { IsPrefix state.old.journal state.new.journal }
    ensures reserved { IsReserved model.now tools.new }
{
    let start = time_now(rt);
    let Some(job) = take_from(state, &mut tools.snapshot) else {
        return false;
    };
    jobs.takes.add(time_since(rt, start));
    let was_open = is_still_open(state, model, job.place);
    let decision = decide_counted(rt, tools, model, &job.pair, was_open, jobs);
    let start = time_now(rt);
    hand_in_to(state, WORKER, job, &tools.snapshot, decision);
    jobs.hand_ins.add(time_since(rt, start));
    true
}

/// The decision on a pair, which was known to be open or not.
fn decide_counted<R: Clock>(
    rt: &R,
    tools: &mut Tools,
    model: &Model,
    pair: &Pair,
    was_open: bool,
    jobs: &mut Jobs,
) -> Decision
    requires ready { AreReady model.now tools.old }
    requires fits { IsFit model.now.levels pair.now }
    ensures { Decides model.now tools.old tools.new pair.now result }
{
    let rows = tools.work.added();
    let start = time_now(rt);
    let decision = tools.decide(model, pair);
    let took = time_since(rt, start);
    jobs.count(took, tools.work.added() != rows, was_open);
    decision
}

/// Whether the vectors kept for a class meet all answers.
fn is_still_open(state: &State, model: &Model, place: u32) -> bool
    requires model { IsOf model.now state.now.listed }
    requires place { IsPlace state.now.listed place }
{
    let Some(kept) = state.kept(place) else {
        return false;
    };
    let answers = state.core().answers();
    meets(model, answers, &kept.plus) && meets(model, answers, &kept.minus)
}
