//! A survey of one desk.
ghost use Rattle.std.specs.Prelude.{◌≡◌, [], length, Option, IfOk};
ghost use Rattle.std.specs.List.{range_with_len};
ghost use Rattle.decider.specs.Reserved.{IsReserved};
ghost use Rattle.pair_enumeration.specs.Listed.{IsListed};
ghost use Rattle.survey_state.specs.Solos.{held_state, journal_out};

use crate::access::Access;
use crate::answer::answer_by;
use crate::next::next_by;
use crate::state::State;
use crate::values::values_by;
use crate::withdrawal::withdraw_by;
use criteria_model::{Model, Pair, Side};
use decider::Tools;
use pair_enumeration::Classes;
use std::alloc::{AllocError as NoMemory, Global};
use std::snapshot::Snapshot;
use survey_core::{Core, Event};
use survey_replies::{AnswerReply, Events, NextReply, Respondent, ValuesReply, WithdrawReply};

/// The one desk.
const DESK: u8 = 1;

/// A state that is given out and taken back, with nobody to wait for.
#[derive(Drop)]
struct Held {
    state: Option<State>,
    // The state as it was given out last.
    last: Snapshot<State>,
}

impl Access for Held {
    type About = Classes;

    ghost about = { λ held. (held_state held.state held.last.value).listed };

    ghost listed = { λ about. about };

    ghost seen = { λ held. record {
      journal = (held_state held.state held.last.value).journal;
      own = range_with_len 0 (length (held_state held.state held.last.value).journal);
    } };

    ghost out = { λ held. journal_out held.state held.last.value };

    ghost can_wait = { Unit {0} };

    fn begin(&mut self) -> State {
        let Some(state) = self.state.take() else {
            unreachable!()
        };
        self.last = Snapshot::of(&state);
        state
    }

    fn finish(&mut self, state: State) {
        self.state = Some(state);
    }
}

/// A survey of one desk in memory: it asks, takes answers and takes them back, and gives values. Its journal is its own, so no
/// call waits.
#[derive(Drop)]
pub struct Solo {
    held: Held,
    tools: Tools,
}

// Clauses see the model with its classes, and the journal.
impl std::marker::Model for Solo {
    ghost use Rattle.survey_core.specs.Recorded.{Recorded};
    ghost use Rattle.survey_state.specs.Solos.{held_state, KeepsSolo};

    ghost Value = { Recorded };

    ghost view = { λ s. record { listed = (held_state s.held.state s.held.last.value).listed; history = (held_state s.held.state s.held.last.value).journal } };

    ghost invariant = { λ s. KeepsSolo s.held.state s.held.last.value s.tools };
}

impl Solo {
    /// A survey with nothing asked.
    ///
    /// # Errors
    ///
    /// Out of memory.
    pub fn new(alloc: Global, model: &Model) -> Result<Solo, NoMemory>
        ensures model { IfOk result (λ solo. solo.listed.criteria ≡ model.now) }
        ensures listed { IfOk result (λ solo. IsListed solo.listed) }
        ensures empty { IfOk result (λ solo. solo.history ≡ []) }
    {
        let state = State::new(alloc, model)?;
        let tools = Tools::reserve(alloc, model)?;
        let last = Snapshot::of(&state);
        let held = Held {
            state: Some(state),
            last,
        };
        Ok(Solo { held, tools })
    }

    /// What the journal comes to.
    pub fn core(&self) -> &Core
        ensures listed { result.now.listed ≡ self.now.listed }
        ensures history { result.now.history ≡ self.now.history }
    {
        self.state().core()
    }

    /// The tools by which it decides. Their dictionary counts the rows that solves took.
    pub fn tools(&self) -> &Tools
        ensures { IsReserved self.now.listed.criteria result.now }
    {
        &self.tools
    }

    fn state(&self) -> &State
        ensures listed { result.now.listed ≡ self.now.listed }
        ensures journal { result.now.journal ≡ self.now.history }
    {
        match &self.held.state {
            Some(state) => state,
            None => unreachable!(),
        }
    }
}

/// All places of the journal are its own.
impl Events for Solo {
    type About = Classes;

    ghost about = { λ solo. solo.listed };

    ghost listed = { λ about. about };

    ghost seen = { λ solo. record { journal = solo.history; own = range_with_len 0 (length solo.history) } };

    ghost can_wait = { Unit {0} };

    fn length(&self) -> u32 {
        self.state().length()
    }

    fn event(&mut self, place: u32) -> Event {
        self.state().event(place)
    }

    fn class_pair(&self, place: u32) -> Pair {
        self.core().class(place)
    }
}

impl Respondent for Solo {
    ghost desk = { λ _. 1 };

    fn next(&mut self) -> NextReply {
        next_by(&mut self.held, &mut self.tools, DESK)
    }

    fn answer(&mut self, question: u32, side: Side) -> AnswerReply {
        answer_by(&mut self.held, &mut self.tools, DESK, question, side)
    }

    fn values(&mut self) -> ValuesReply {
        values_by(&mut self.held, &mut self.tools)
    }

    fn withdraw(&mut self) -> Result<WithdrawReply, NoMemory> {
        withdraw_by(&mut self.held, DESK)
    }
}

#[cfg(test)]
mod tests;
