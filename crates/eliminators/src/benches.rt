//! A bench for each survey.
ghost use Rattle.std.specs.Prelude.{◌≡◌, ◌≢◌, ◌+◌, ◌<◌, ◌≤◌, ℕ, [], ◌∷◌, ◌++◌, length, slice_get, vec_len, vec_capacity, All, IfOk, MatchOption};
ghost use Rattle.std.specs.List.{AllZip};
ghost use Rattle.decider.specs.Reserved.{IsReserved};
ghost use Rattle.survey_state.specs.Findings.{KeepsTools};
ghost use Rattle.eliminators.specs.Jobs.{IsWorker};
ghost use Rattle.eliminators.specs.Work.{Stays};

use crate::bench::Bench;
use crate::work::work_until_idle;
use criteria_model::Model;
use decider::Tools;
use edges::Gate;
use std::alloc::{AllocError as NoMemory, Global};
use std::sync::Wait;

/// A list with one bench for each survey of a job line.
#[derive(Drop)]
pub struct Benches<B> {
    pub(crate) list: Vec<B>,
}

impl<B: Bench> Benches<B> {
    /// An empty list, with memory for this number of benches.
    ///
    /// # Errors
    ///
    /// Out of memory.
    pub fn reserve(alloc: Global, room: u32) -> Result<Benches<B>, NoMemory>
        ensures empty { IfOk result (λ benches. benches.list.items ≡ []) }
        ensures room { IfOk result (λ benches. room ≤ vec_capacity benches.list) }
    {
        let list = Vec::with_capacity(alloc, room as usize)?;
        Ok(Benches { list })
    }

    /// Puts a bench at the end.
    pub fn push(&mut self, bench: B)
        requires { vec_len self.old.list < vec_capacity self.old.list }
        ensures pushed { self.new.list.items ≡ self.old.list.items ++ bench ∷ [] }
        ensures room { vec_capacity self.new.list ≡ vec_capacity self.old.list }
    {
        self.list.push_reserved(bench);
    }

    /// Takes the last bench out.
    pub fn pop(&mut self) -> Option<B>
        ensures popped { MatchOption result ((self.old.list.items ≡ []) × (self.new.list.items ≡ []))
            (λ bench. self.old.list.items ≡ self.new.list.items ++ bench ∷ []) }
        ensures room { vec_capacity self.new.list ≡ vec_capacity self.old.list }
    {
        self.list.pop()
    }

    /// Works at the bench of a survey until no job is left there.
    pub(crate) fn work_at<R: Wait, G: Gate>(
        &mut self,
        rt: &R,
        survey: u32,
        number: u8,
        model: &Model,
        tools: &mut Tools,
        gate: &G,
    )
        requires waits { B.can_wait }
        requires low { 1 ≤ survey }
        requires high { survey ≤ length self.old.list.items }
        requires number { IsWorker number }
        requires models { All (λ bench. (B.listed (B.about bench)).criteria ≡ model.now) self.old.list.items }
        requires reserved { IsReserved model.now tools.old }
        ensures each { AllZip (Stays B.about B.listed B.worker B.seen) self.old.list.items self.new.list.items }
        ensures others { (k : ℕ) → k + 1 ≢ survey → slice_get self.new.list.items k ≡ slice_get self.old.list.items k }
        ensures rooms { KeepsTools tools.old tools.new }
    {
        let bench = &mut self.list[survey as usize - 1];
        work_until_idle(rt, bench, number, model, tools, gate);
    }
}
