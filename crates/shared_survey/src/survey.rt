//! A survey behind a lock.
ghost use Rattle.std.specs.Prelude.{◌≡◌, ◌⊎◌, ◌+◌, ◌≤◌, [], ◌++◌, length, IfOk, OnErr};
ghost use mathlib.Core.List.{IsPrefix};
ghost use Rattle.pair_enumeration.specs.Listed.{IsListed};
ghost use Rattle.survey_core.specs.Legal.{IsDesk};
ghost use Rattle.turn_lock.specs.Rule.{AreAllPlaces};
ghost use Rattle.turn_lock.specs.Seats.{opening};

use crate::pass::{DeskTools, Pass};
use crate::seat::SurveySeat;
use crate::shared_state::SharedState;
use criteria_model::Model;
use decider::Tools;
use pair_enumeration::Classes;
use std::alloc::{AllocError as NoMemory, Global};
use survey_state::State;
use turn_lock::{MAX_SEATS, Turn};

/// A survey that several threads share, each by a pass of its own.
#[derive(Drop)]
pub struct Survey {
    pub(crate) turn: Turn<SharedState>,
    // A class is looked up here without a turn.
    pub(crate) classes: Classes,
    ghost began: { (opening turn).state.journal ≡ [] },
    ghost same_classes: { (opening turn).state.listed ≡ classes },
}

/// What passes are made of, and what they come to.
impl Survey {
    ghost use Rattle.shared_survey.specs.Passes.{IsPassOf, desk_of, pass_seen, pass_weight, survey_listed, survey_weight};

    /// A survey with nothing asked, and a pass of no desk that has all its weight: it can be split into so many.
    ///
    /// # Errors
    ///
    /// Out of memory.
    pub fn build(alloc: Global, model: &Model, passes: u32) -> Result<(Survey, Pass), NoMemory>
        requires { (1 ≤ passes) × (passes ≤ MAX_SEATS) }
        ensures listed { IfOk result (λ r. ((survey_listed r.0).criteria ≡ model.now) × IsListed (survey_listed r.0)) }
        ensures weight { IfOk result (λ r. (survey_weight r.0 ≡ passes) × (pass_weight r.1 ≡ passes)) }
        ensures pass { IfOk result (λ r. IsPassOf r.0 r.1 × (desk_of r.1 ≡ 0) × (pass_seen r.1 ≡ record { journal = []; own = [] })) }
    {
        let classes = Classes::list(alloc, model)?;
        let state = State::new(alloc, model)?;
        let (turn, seat) = SurveySeat::open(alloc, state, passes)?;
        Ok((Survey { turn, classes }, Pass { seat, desk: None }))
    }

    /// A pass of weight 1 for a desk, with tools of its own.
    ///
    /// # Errors
    ///
    /// Out of memory.
    pub fn pass(&self, alloc: Global, from: &mut Pass, desk: u8) -> Result<Pass, NoMemory>
        requires from { IsPassOf self.now from.old }
        requires weight { 2 ≤ pass_weight from.old }
        requires desk { IsDesk desk }
        ensures new { IfOk result (λ pass. IsPassOf self.now pass × (pass_weight pass ≡ 1) × (desk_of pass ≡ desk)) }
        ensures from { IfOk result (λ _. IsPassOf self.now from.new × (pass_weight from.new + 1 ≡ pass_weight from.old) × (desk_of from.new ≡ desk_of from.old)) }
        ensures seen { IfOk result (λ pass. (pass_seen from.new ≡ pass_seen from.old) × (pass_seen pass ≡ record { journal = (pass_seen from.old).journal; own = [] })) }
        ensures refused { OnErr result (from.new ≡ from.old) }
    {
        let tools = Tools::reserve(alloc, &self.classes.model())?;
        let mut pass = self.worker_pass(from);
        pass.desk = Some(DeskTools { desk, tools });
        Ok(pass)
    }

    /// A pass of weight 1 for no desk. It is for an eliminator.
    pub fn worker_pass(&self, from: &mut Pass) -> Pass
        requires from { IsPassOf self.now from.old }
        requires weight { 2 ≤ pass_weight from.old }
        ensures new { IsPassOf self.now result × (pass_weight result ≡ 1) × (desk_of result ≡ 0) }
        ensures from { IsPassOf self.now from.new × (pass_weight from.new + 1 ≡ pass_weight from.old) × (desk_of from.new ≡ desk_of from.old) }
        ensures seen { (pass_seen from.new ≡ pass_seen from.old) × (pass_seen result ≡ record { journal = (pass_seen from.old).journal; own = [] }) }
    {
        let seat = from.seat.split(&self.turn);
        Pass { seat, desk: None }
    }

    /// Joins another pass into the pass, with all that it has seen and made.
    pub fn join(&self, pass: &mut Pass, other: Pass)
        requires pass { IsPassOf self.now pass.old }
        requires other { IsPassOf self.now other }
        ensures pass { IsPassOf self.now pass.new × (desk_of pass.new ≡ desk_of pass.old) }
        ensures weight { pass_weight pass.new ≡ pass_weight pass.old + pass_weight other }
        ensures journal { IsPrefix (pass_seen pass.old).journal (pass_seen pass.new).journal × IsPrefix (pass_seen other).journal (pass_seen pass.new).journal }
        ensures longer { ((pass_seen pass.new).journal ≡ (pass_seen pass.old).journal) ⊎ ((pass_seen pass.new).journal ≡ (pass_seen other).journal) }
        ensures own { (pass_seen pass.new).own ≡ (pass_seen pass.old).own ++ (pass_seen other).own }
    {
        let Pass { seat, desk: _ } = other;
        pass.seat.join(&self.turn, seat);
    }

    /// Ends the survey. The own places of the pass are all of the journal, each once.
    pub fn close(self, pass: Pass) -> State
        requires pass { IsPassOf self pass }
        requires whole { pass_weight pass ≡ survey_weight self }
        ensures listed { result.listed ≡ survey_listed self }
        ensures journal { IsPrefix (pass_seen pass).journal result.journal }
        ensures own { AreAllPlaces 0 (length result.journal) (pass_seen pass).own }
    {
        let Pass { seat, desk: _ } = pass;
        let Survey { turn, classes: _ } = self;
        seat.close(turn)
    }
}
