//! A seat at the lock of a survey.
ghost use Rattle.std.specs.Prelude.{◌≡◌, ◌⊎◌, ◌+◌, ◌≤◌, List, [], ◌++◌, Some, None, length, IfOk};
ghost use mathlib.Core.List.{IsPrefix};
ghost use Rattle.pair_enumeration.specs.Listed.{Listed, IsListed};
ghost use Rattle.survey_core.specs.declared.events.Event.{Event as TheEvent};
ghost use Rattle.survey_core.specs.Legal.{IsLegal};
ghost use Rattle.survey_replies.specs.Calls.{TakesTurn};
ghost use Rattle.turn_lock.specs.Rule.{AreAllPlaces};
ghost use Rattle.turn_lock.specs.Seats.{opening, whole_weight};
ghost use Rattle.shared_survey.specs.LockSeats.{IsAtLock, journal_out, seat_seen};

use crate::shared_state::SharedState;
use std::alloc::{AllocError as NoMemory, Global};
use std::sync::Wait;
use survey_state::State;
use turn_lock::{MAX_SEATS, Turn, TurnSeat};

/// A seat, and how many events it has seen.
#[derive(Drop)]
pub(crate) struct SurveySeat {
    seat: TurnSeat<SharedState>,
    length: u32,
}

// Clauses see of which lock it is and what it knows.
impl std::marker::Model for SurveySeat {
    ghost use Rattle.shared_survey.specs.LockSeats.{KeepsSeat, LockSeat};

    ghost Value = { LockSeat };

    ghost view = { λ s. record { lock = s.seat.token.table_id; knows = s.seat.token.me.0 } };

    ghost invariant = { λ s. KeepsSeat s.length s.seat.token.me.0 };
}

impl SurveySeat {
    /// A lock around the state, and a seat with all its weight.
    pub(crate) fn open(
        alloc: Global,
        state: State,
        seats: u32,
    ) -> Result<(Turn<SharedState>, SurveySeat), NoMemory>
        requires { (1 ≤ seats) × (seats ≤ MAX_SEATS) }
        ensures turn { IfOk result (λ r. ((opening r.0).state ≡ state) × (whole_weight r.0 ≡ seats)) }
        ensures seat { IfOk result (λ r. IsAtLock r.0 r.1 × (journal_out r.1 ≡ None) × (r.1.knows.weight ≡ seats)) }
        ensures seen { IfOk result (λ r. seat_seen r.1 ≡ record { journal = state.journal; own = [] }) }
    {
        let length = state.length();
        let (turn, seat) = Turn::new(alloc, SharedState { state }, seats)?;
        Ok((turn, SurveySeat { seat, length }))
    }

    /// How many events it has seen.
    pub(crate) fn length(&self) -> u32
        ensures value { result ≡ length (seat_seen self.now).journal }
        ensures legal { (listed : Listed) → self.now.knows.kind ≡ Some listed → IsListed listed × IsLegal listed (seat_seen self.now).journal }
    {
        self.length
    }

    /// Cuts a seat of weight 1 off, which has seen as much.
    pub(crate) fn split(&mut self, turn: &Turn<SharedState>) -> SurveySeat
        requires at { IsAtLock turn.now self.old × (journal_out self.old ≡ None) }
        requires weight { 2 ≤ self.old.knows.weight }
        ensures at { IsAtLock turn.now self.new × (journal_out self.new ≡ None) }
        ensures lent { (self.new.knows.weight + 1 ≡ self.old.knows.weight) × (seat_seen self.new ≡ seat_seen self.old) }
        ensures new_at { IsAtLock turn.now result × (journal_out result ≡ None) }
        ensures new { (result.knows.weight ≡ 1) × (seat_seen result ≡ record { journal = (seat_seen self.old).journal; own = [] }) }
    {
        let seat = turn.split(&mut self.seat);
        SurveySeat {
            seat,
            length: self.length,
        }
    }

    /// Waits for a turn, and gives the state out.
    pub(crate) fn enter<R: Wait + Sync>(&mut self, rt: &R, turn: &Turn<SharedState>) -> State
        requires { IsAtLock turn.now self.old × (journal_out self.old ≡ None) }
        ensures at { IsAtLock turn.now self.new }
        ensures out { journal_out self.new ≡ Some result.journal }
        ensures longer { IsPrefix (seat_seen self.old).journal result.journal }
        ensures listed { result.listed ≡ (opening turn.now).state.listed }
        ensures same { (self.new.knows.weight ≡ self.old.knows.weight) × (seat_seen self.new ≡ seat_seen self.old) }
    {
        let SharedState { state } = turn.enter(rt, &mut self.seat);
        state
    }

    /// Takes the state back, and ends the turn.
    pub(crate) fn leave(&mut self, turn: &Turn<SharedState>, state: State)
        requires at { IsAtLock turn.now self.old }
        requires listed { state.listed ≡ (opening turn.now).state.listed }
        requires longer { (found : List TheEvent) × (journal_out self.old ≡ Some found) × IsPrefix found state.journal }
        ensures at { IsAtLock turn.now self.new × (journal_out self.new ≡ None) }
        ensures journal { (seat_seen self.new).journal ≡ state.journal }
        ensures turn { (found : List TheEvent) → journal_out self.old ≡ Some found → TakesTurn (seat_seen self.old) (seat_seen self.new) found }
        ensures legal { IsListed (opening turn.now).state.listed × IsLegal (opening turn.now).state.listed (seat_seen self.new).journal }
        ensures same { self.new.knows.weight ≡ self.old.knows.weight }
    {
        let length = state.length();
        turn.leave(&mut self.seat, SharedState { state });
        self.length = length;
    }

    /// Joins another seat into the seat.
    pub(crate) fn join(&mut self, turn: &Turn<SharedState>, other: SurveySeat)
        requires at { IsAtLock turn.now self.old × (journal_out self.old ≡ None) }
        requires other { IsAtLock turn.now other × (journal_out other ≡ None) }
        ensures at { IsAtLock turn.now self.new × (journal_out self.new ≡ None) }
        ensures weight { self.new.knows.weight ≡ self.old.knows.weight + other.knows.weight }
        ensures journal { IsPrefix (seat_seen self.old).journal (seat_seen self.new).journal × IsPrefix (seat_seen other).journal (seat_seen self.new).journal }
        ensures longer { ((seat_seen self.new).journal ≡ (seat_seen self.old).journal) ⊎ ((seat_seen self.new).journal ≡ (seat_seen other).journal) }
        ensures own { (seat_seen self.new).own ≡ (seat_seen self.old).own ++ (seat_seen other).own }
    {
        let SurveySeat { seat, length } = other;
        turn.join(&mut self.seat, seat);
        self.length = self.length.max(length);
    }

    /// Ends the lock, and gives the state.
    pub(crate) fn close(self, turn: Turn<SharedState>) -> State
        requires at { IsAtLock turn self × (journal_out self ≡ None) }
        requires whole { self.knows.weight ≡ whole_weight turn }
        ensures listed { result.listed ≡ (opening turn).state.listed }
        ensures longer { IsPrefix (seat_seen self).journal result.journal }
        ensures own { AreAllPlaces (length (opening turn).state.journal) (length result.journal) (seat_seen self).own }
    {
        let SurveySeat { seat, length: _ } = self;
        let SharedState { state } = turn.close(seat);
        state
    }
}
