//! The lock and its seats.
ghost use Rattle.std.specs.Prelude.{◌≡◌, ◌≤◌, false, length};
ghost use Rattle.turn_lock.specs.declared.limits.TheConstants.{MAX_SEATS};
ghost use Rattle.turn_lock.specs.Steps.{holding, is_waiting, log_of};

use crate::journal::Journalled;
use crate::limits::MAX_SEATS;
use crate::rule::{Opening, Token, TurnTable};
use crate::steps::{Draw, Join, Look, Mark, MarkedList, Meet, PassOn, Split};
use atomic_table::Table;
use std::alloc::{AllocError as NoMemory, Global};
use std::hint;
use std::marker::Brand;
use std::snapshot::Snapshot;
use std::sync::Wait;

#[cfg(test)]
mod tests;

// The words of the table: the count of entries, the next ticket and the ticket that is served.
const COUNT: usize = 0;

const TICKET: usize = 1;

const SERVING: usize = 2;

// How often a seat looks before it sleeps.
const SPINS: u32 = 256;

// The half of a word that a sleep compares.
fn low_half(word: u64) -> u32 {
    (word & 0xffff_ffff) as u32
}

/// A ticket lock over a state whose list only grows.
#[derive(Drop)]
pub struct Turn<S: Journalled> {
    table: TurnTable<S>,
    ghost sized: { (table.shared.table_id.words ≡ 3) × (table.shared.table_id.slots ≡ 1) },
}

/// A right to take turns, for one thread at a time.
///
/// A turn can't be closed once one of its seats was dropped, since its weight is missing then. A seat that is dropped
/// inside lets no other in.
#[derive(Drop)]
pub struct TurnSeat<S: Journalled> {
    token: Token<S>,
    weight: u64,
    /// While inside, how many entries the state had that `enter` gave.
    count: u64,
    ghost weighs: { (weight ≡ token.me.0.weight) × (weight ≤ MAX_SEATS) },
    ghost counts: { count ≡ length (log_of token.me.0.stage) },
    ghost holds: { token.me.1 ≡ holding token.me.0.stage },
    ghost settled: { is_waiting token.me.0.stage ≡ false },
}

impl<S: Journalled> Turn<S> {
    ghost use Rattle.std.specs.Prelude.{ℕ, ◌+◌, ◌%◌, ◌^◌, ◌++◌, ◌⊎◌, [], true, IfOk};
    ghost use mathlib.Core.List.{IsPrefix};
    ghost use Rattle.turn_lock.specs.declared.rule.Stage.TheVariants.{Waiting};
    ghost use Rattle.turn_lock.specs.Rule.{AreAllPlaces};
    ghost use Rattle.turn_lock.specs.Steps.{Takes, is_inside, new_places, with_list};
    ghost use Rattle.turn_lock.specs.Seats.{IsInsideOf, IsOutsideOf, front, given, opening, own, weight, whole_weight};

    /// A turn around `state`, and one seat with the weight `seats`.
    pub fn new(alloc: Global, state: S, seats: u32) -> Result<(Turn<S>, TurnSeat<S>), NoMemory>
    where
        S: Drop,
        requires { (1 ≤ seats) × (seats ≤ MAX_SEATS) }
        ensures turn { IfOk result (λ r. (opening r.0 ≡ state) × (whole_weight r.0 ≡ seats)) }
        ensures seat { IfOk result (λ r. IsOutsideOf r.0 r.1) }
        ensures knows { IfOk result (λ r. (weight r.1 ≡ seats) × (front r.1 ≡ S.entries state) × (own r.1 ≡ [])) }
    {
        let words = [state.count(), 0, 0];
        let seats = u64::from(seats);
        let about = Opening {
            state: Snapshot::of(&state),
            seats,
        };
        let mut slots = Vec::with_capacity(alloc, 1)?;
        slots.push_reserved(Some(state));
        let Ok((table, token)) = Table::new(alloc, &words, slots, &about) else {
            return Err(NoMemory);
        };
        let seat = TurnSeat {
            token,
            weight: seats,
            count: 0,
        };
        Ok((Turn { table }, seat))
    }

    /// Cuts a seat of weight 1 off the seat, which has seen as much.
    pub fn split(&self, seat: &mut TurnSeat<S>) -> TurnSeat<S>
        requires own { IsOutsideOf self.now seat.old }
        requires weight { 2 ≤ weight seat.old }
        ensures seats { IsOutsideOf self.now seat.new × IsOutsideOf self.now result }
        ensures lent { (weight seat.new + 1 ≡ weight seat.old) × (front seat.new ≡ front seat.old) × (own seat.new ≡ own seat.old) }
        ensures new { (weight result ≡ 1) × (front result ≡ front seat.old) × (own result ≡ []) }
    {
        let token = self.table.shared.split_seat::<Split>(&mut seat.token);
        seat.weight -= 1;
        TurnSeat {
            token,
            weight: 1,
            count: 0,
        }
    }

    /// Waits for the seat's turn, and gives the state. Give it back by `leave`.
    pub fn enter<R: Wait + Sync>(&self, rt: &R, seat: &mut TurnSeat<S>) -> S
        requires { IsOutsideOf self.now seat.old }
        ensures seat { IsInsideOf self.now seat.new }
        ensures state { IsPrefix (front seat.old) (S.entries result) × (S.kind result ≡ S.kind (opening self.now)) }
        ensures given { given seat.new ≡ S.entries result }
        ensures same { (weight seat.new ≡ weight seat.old) × (front seat.new ≡ front seat.old) × (own seat.new ≡ own seat.old) }
    {
        let number = self
            .table
            .shared
            .fetch_add::<Draw>(&mut seat.token, TICKET, 1);
        self.wait(rt, &mut seat.token, number);
        let Some(state) = self.table.shared.exchange(&mut seat.token, 0, None) else {
            unreachable!()
        };
        seat.count = state.count();
        state
    }

    /// Gives the state back with its new entries, and lets the next seat in.
    pub fn leave(&self, seat: &mut TurnSeat<S>, state: S)
        requires seat { IsInsideOf self.now seat.old }
        requires state { IsPrefix (given seat.old) (S.entries state) × (S.kind state ≡ S.kind (opening self.now)) }
        ensures seat { IsOutsideOf self.now seat.new }
        ensures front { front seat.new ≡ S.entries state }
        ensures own { own seat.new ≡ own seat.old ++ new_places (given seat.old) (S.entries state) }
        ensures same { weight seat.new ≡ weight seat.old }
    {
        self.mark::<Brand>(&mut seat.token, &state, seat.count);
        let nothing = self.table.shared.exchange(&mut seat.token, 0, Some(state));
        let None = nothing else { unreachable!() };
        let served = self
            .table
            .shared
            .fetch_add::<PassOn>(&mut seat.token, SERVING, 1);
        seat.count = 0;
        if self.table.shared.peek(TICKET) != served.wrapping_add(1) {
            self.table.shared.wake_all(SERVING);
        }
    }

    /// Whether some seat has the state or waits for it, as it is at this moment.
    pub fn is_busy(&self) -> bool {
        self.table.shared.peek(TICKET) != self.table.shared.peek(SERVING)
    }

    /// Joins another seat of this turn into the seat.
    pub fn join(&self, seat: &mut TurnSeat<S>, other: TurnSeat<S>)
        requires seat { IsOutsideOf self.now seat.old }
        requires other { IsOutsideOf self.now other }
        ensures seat { IsOutsideOf self.now seat.new }
        ensures weight { weight seat.new ≡ weight seat.old + weight other }
        ensures front { IsPrefix (front seat.old) (front seat.new) × IsPrefix (front other) (front seat.new) × ((front seat.new ≡ front seat.old) ⊎ (front seat.new ≡ front other)) }
        ensures own { own seat.new ≡ own seat.old ++ own other }
    {
        let TurnSeat {
            token,
            weight,
            count: _,
        } = other;
        self.table.shared.join_seat::<Join>(&mut seat.token, token);
        self.table.shared.load::<Meet>(&mut seat.token, COUNT);
        seat.weight += weight;
    }

    /// Ends the turn, and gives the state.
    pub fn close(self, seat: TurnSeat<S>) -> S
        requires seat { IsOutsideOf self seat }
        requires whole { weight seat ≡ whole_weight self }
        ensures state { IsPrefix (front seat) (S.entries result) × (S.kind result ≡ S.kind (opening self)) }
        ensures began { IsPrefix (S.entries (opening self)) (S.entries result) }
        ensures own { AreAllPlaces (length (S.entries (opening self))) (length (S.entries result)) (own seat) }
    {
        let Turn { table } = self;
        let TurnSeat {
            token,
            weight: _,
            count: _,
        } = seat;
        let mut closed = table.close_with(token);
        let state = closed.take(0);
        closed.free();
        let Some(state) = state else { unreachable!() };
        state
    }

    // Waits until the number is served. The seat has the slot then.
    fn wait<R: Wait + Sync>(&self, rt: &R, token: &mut Token<S>, number: u64)
        requires turn { (token.old.table_id ≡ self.now.table.shared.table_id) × ((kind : S.Kind) × (token.old.me.0.kind ≡ Some kind)) }
        requires waits { (t : ℕ) × (token.old.me.0.stage ≡ Waiting t) × (number ≡ t % 2 ^ 64) }
        ensures turn { token.new.table_id ≡ token.old.table_id }
        ensures takes { Takes S.entries S.kind token.old.me token.new.me }
    {
        let mut spins = 0u32;
        for _ in rt.forever() {
            let served = self.table.shared.load::<Look<S>>(token, SERVING);
            if served == number {
                return;
            }
            if spins < SPINS {
                spins += 1;
                hint::spin_loop();
            } else {
                self.table.shared.park(rt, SERVING, low_half(served));
            }
        }
        unreachable!()
    }

    // Fixes the new entries of the state, with their places. `before` is the count that `enter` found.
    fn mark<N: MarkedList<S::Entry>>(&self, token: &mut Token<S>, state: &S, before: u64)
        requires turn { (token.old.table_id ≡ self.now.table.shared.table_id) × ((kind : S.Kind) × (token.old.me.0.kind ≡ Some kind)) }
        requires served { (is_inside token.old.me.0.stage ≡ true) × (before ≡ length (log_of token.old.me.0.stage)) }
        requires state { IsPrefix (log_of token.old.me.0.stage) (S.entries state.now) × (N.list ≡ S.entries state.now) }
        ensures turn { token.new.table_id ≡ token.old.table_id }
        ensures marks { token.new.me ≡ (with_list token.old.me.0 (S.entries state.now), token.old.me.1) }
    {
        let fresh = state.count() - before;
        self.table.shared.fetch_add::<Mark<N>>(token, COUNT, fresh);
    }
}

impl<S: Journalled> TurnSeat<S> {
    ghost use Rattle.turn_lock.specs.Seats.{weight};

    /// The weight of the seat: how many seats it can be split into.
    pub fn weight(&self) -> u64
        ensures { result ≡ weight self.now }
    {
        self.weight
    }
}
