//! Eliminators while they are at rest, and at work.
ghost use Rattle.std.specs.Prelude.{◌≡◌, ◌<◌, ◌≤◌, [], All, IfSome, vec_len, vec_capacity};
ghost use Rattle.std.specs.Arc.{arc_value};
ghost use Rattle.std.specs.List.{AllZip};
ghost use Rattle.decider.specs.Reserved.{IsReserved};
ghost use Rattle.eliminators.specs.Jobs.{IsWorker};
ghost use Rattle.shared_survey.specs.Passes.{IsPassOf, survey_listed};
ghost use Rattle.survey_hall.specs.EliminatorSeats.{AreHeld, HoldsPass, IsOfModel};
ghost use Rattle.survey_hall.specs.EliminatorBenches.{IsBenchOf};
ghost use Rattle.survey_hall.specs.Stacks.{AllStacked};

use criteria_model::Model;
use decider::Tools;
use edges::Gate;
use eliminators::{Benches, JobEnd, worker};
use json_forms::NoMemory;
use shared_survey::{Pass, Survey, SurveyBench};
use std::alloc::Global;
use std::sync::atomic::{AtomicBool, Ordering};
use std::sync::{Arc, Wait};
use std::thread;

/// An eliminator: a pass of each survey, the last survey first, its tools and its end of the job line.
#[derive(Drop)]
pub(crate) struct EliminatorSeat {
    number: u8,
    model: Model,
    surveys: Vec<Arc<Survey>>,
    passes: Vec<Pass>,
    tools: Tools,
    jobs: JobEnd,
    // How many surveys there are jobs for.
    count: u32,
    ghost numbered: { IsWorker number },
    ghost as_many: { vec_len surveys ≡ vec_len passes },
    ghost each: { AreHeld surveys.items passes.items },
    ghost models: { All (IsOfModel model) surveys.items },
    ghost reserved: { IsReserved model tools },
    ghost line: { jobs.surveys ≡ count },
}

impl EliminatorSeat {
    /// An eliminator with no pass.
    pub(crate) fn new(
        alloc: Global,
        number: u8,
        model: Model,
        tools: Tools,
        jobs: JobEnd,
        count: u32,
    ) -> EliminatorSeat
        requires number { IsWorker number }
        requires tools { IsReserved model tools }
        requires jobs { jobs.surveys ≡ count }
        ensures { result.model ≡ model }
    {
        EliminatorSeat {
            number,
            model,
            surveys: Vec::new(alloc),
            passes: Vec::new(alloc),
            tools,
            jobs,
            count,
        }
    }

    /// Adds a pass of a survey.
    ///
    /// # Errors
    ///
    /// Out of memory.
    pub(crate) fn add(&mut self, survey: Arc<Survey>, pass: Pass) -> Result<(), NoMemory>
        requires pass { IsPassOf (arc_value survey) pass }
        requires model { (survey_listed (arc_value survey)).criteria ≡ self.old.model }
        ensures model { self.new.model ≡ self.old.model }
    {
        self.surveys.reserve(1)?;
        self.passes.reserve(1)?;
        self.push(survey, pass);
        Ok(())
    }

    /// Adds a pass where there is room.
    fn push(&mut self, survey: Arc<Survey>, pass: Pass)
        requires pass { IsPassOf (arc_value survey) pass }
        requires model { (survey_listed (arc_value survey)).criteria ≡ self.old.model }
        requires room { (vec_len self.old.surveys < vec_capacity self.old.surveys) × (vec_len self.old.passes < vec_capacity self.old.passes) }
        ensures model { self.new.model ≡ self.old.model }
    {
        self.surveys.push_reserved(survey);
        self.passes.push_reserved(pass);
    }

    /// Works at the surveys until it is told to stop. Without memory to begin it is left out.
    pub(crate) fn work<R: Wait + Sync, G: Gate>(
        self,
        rt: &R,
        alloc: Global,
        start: &Start,
        gate: &G,
    ) -> EliminatorSeat {
        let EliminatorSeat {
            number,
            model,
            surveys,
            mut passes,
            mut tools,
            mut jobs,
            count,
        } = self;
        let Some(benches) = benches_for(alloc, &surveys, count) else {
            start.leave_out();
            return EliminatorSeat {
                number,
                model,
                surveys,
                passes,
                tools,
                jobs,
                count,
            };
        };
        start.begin();
        work_at(
            rt,
            &surveys,
            &mut passes,
            number,
            &model,
            &mut tools,
            &mut jobs,
            benches,
            gate,
        );
        EliminatorSeat {
            number,
            model,
            surveys,
            passes,
            tools,
            jobs,
            count,
        }
    }
}

/// Whether an eliminator has begun, or was left out.
#[derive(Drop)]
pub(crate) struct Start {
    has_begun: AtomicBool,
    is_left_out: AtomicBool,
}

impl Start {
    /// Neither is known.
    pub(crate) fn new() -> Start {
        Start {
            has_begun: AtomicBool::new(false),
            is_left_out: AtomicBool::new(false),
        }
    }

    /// It takes jobs from now on.
    fn begin(&self) {
        self.has_begun.store(true, Ordering::SeqCst);
    }

    /// It takes no jobs.
    pub(crate) fn leave_out(&self) {
        self.is_left_out.store(true, Ordering::SeqCst);
    }

    /// Whether it takes no jobs.
    pub(crate) fn is_left_out(&self) -> bool {
        self.is_left_out.load(Ordering::SeqCst)
    }

    /// Whether it takes jobs. Waits until that is known.
    pub(crate) fn has_begun<R: Wait>(&self, rt: &R) -> bool {
        for _ in rt.forever() {
            if self.has_begun.load(Ordering::SeqCst) {
                return true;
            }
            if self.is_left_out() {
                return false;
            }
            thread::yield_now();
        }
        unreachable!()
    }
}

/// Memory for a bench at each survey, where there is a pass of each that jobs come for.
fn benches_for<'s, R: Wait + Sync>(
    alloc: Global,
    surveys: &'s Vec<Arc<Survey>>,
    count: u32,
) -> Option<Benches<SurveyBench<'s, R>>>
    ensures { IfSome result (λ benches. (benches.list.items ≡ []) × (vec_len surveys.now ≡ count) × (count ≤ vec_capacity benches.list)) }
{
    if surveys.len() != count as usize {
        return None;
    }
    match Benches::reserve(alloc, count) {
        Ok(benches) => Some(benches),
        Err(_) => None,
    }
}

/// Works by the passes, and puts them back.
fn work_at<'s, R: Wait + Sync, G: Gate>(
    rt: &'s R,
    surveys: &'s Vec<Arc<Survey>>,
    passes: &mut Vec<Pass>,
    number: u8,
    model: &Model,
    tools: &mut Tools,
    jobs: &mut JobEnd,
    benches: Benches<SurveyBench<'s, R>>,
    gate: &G,
)
    requires number { IsWorker number }
    requires passes { AllZip HoldsPass surveys.now.items passes.old.items }
    requires models { All (IsOfModel model.now) surveys.now.items }
    requires reserved { IsReserved model.now tools.old }
    requires jobs { jobs.old.surveys ≡ vec_len surveys.now }
    requires benches { (benches.list.items ≡ []) × (vec_len surveys.now ≤ vec_capacity benches.list) }
    ensures passes { AllZip HoldsPass surveys.now.items passes.new.items }
    ensures each { AreHeld surveys.now.items passes.new.items }
    ensures as_many { vec_len surveys.now ≡ vec_len passes.new }
    ensures reserved { IsReserved model.now tools.new }
    ensures jobs { jobs.new.surveys ≡ jobs.old.surveys }
{
    let mut benches = hold_all(rt, surveys, passes, number, benches);
    worker(rt, &mut benches, number, model, tools, jobs, gate);
    give_back(surveys, benches, passes);
}

/// A bench of each survey by its pass.
fn hold_all<'s, R: Wait + Sync>(
    rt: &'s R,
    surveys: &'s Vec<Arc<Survey>>,
    passes: &mut Vec<Pass>,
    number: u8,
    mut benches: Benches<SurveyBench<'s, R>>,
) -> Benches<SurveyBench<'s, R>>
    requires number { IsWorker number }
    requires passes { AllZip HoldsPass surveys.now.items passes.old.items }
    requires benches { (benches.list.items ≡ []) × (vec_len surveys.now ≤ vec_capacity benches.list) }
    ensures benches { AllStacked IsBenchOf surveys.now.items result.list.items }
    ensures none { (passes.new.items ≡ []) × (vec_capacity passes.new ≡ vec_capacity passes.old) }
{
    while let Some(pass) = passes.pop() {
        let survey = &surveys[passes.len()];
        benches.push(SurveyBench::hold(rt, survey, pass, number));
    }
    benches
}

/// Puts the passes of the benches back.
fn give_back<'s, R: Wait + Sync>(
    surveys: &Vec<Arc<Survey>>,
    mut benches: Benches<SurveyBench<'s, R>>,
    passes: &mut Vec<Pass>,
)
    requires benches { AllStacked IsBenchOf surveys.now.items benches.list.items }
    requires room { (passes.old.items ≡ []) × (vec_len surveys.now ≤ vec_capacity passes.old) }
    ensures { AllZip HoldsPass surveys.now.items passes.new.items }
{
    while let Some(bench) = benches.pop() {
        passes.push_reserved(bench.into_pass());
    }
}
