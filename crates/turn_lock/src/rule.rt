//! What the seats know, and the rule of the table. No value of a view is made.
use crate::journal::Journalled;
use atomic_table::{Seat, Table, TableRule};
use std::alloc::Global;
use std::collections::LinkedList;
use std::marker::PhantomData;
use std::snapshot::Snapshot;

/// A seat has no ticket, waits with one, or is served and knows the list as last marked.
pub enum Stage<E> {
    Outside,
    Waiting(u64),
    Served(u64, LinkedList<E>),
}

/// What a seat knows. In a clause a `LinkedList` is a list.
pub struct View<E, K> {
    pub stage: Stage<E>,
    pub weight: u64,
    pub front: LinkedList<E>,
    /// The front of the seat that was joined last, until the two are compared.
    pub other: LinkedList<E>,
    pub own: LinkedList<u64>,
    pub kind: Option<K>,
}

/// What is fixed with the table: the opening state and the weight of all seats.
#[derive(Drop)]
pub struct Opening<S> {
    pub state: Snapshot<S>,
    pub seats: u64,
}

/// The rule that each step keeps.
pub struct TicketRule<S> {
    of: PhantomData<S>,
}

impl<S: Journalled> TableRule<Option<S>, View<S::Entry, S::Kind>, Opening<S>> for TicketRule<S> {
    ghost use Rattle.std.specs.Prelude.{[], Some};
    ghost use Rattle.turn_lock.specs.Rule.{ObeysRule, seat_outside};

    ghost holds = { λ key. ObeysRule S.entries S.kind key.state.value key.seats };

    ghost first = { λ key. seat_outside key.seats (S.entries key.state.value) [] (Some (S.kind key.state.value)) };
}

/// What a seat steps with: a seat of the table.
pub type Token<S> = Seat<Option<S>, View<<S as Journalled>::Entry, <S as Journalled>::Kind>>;

/// The table: three words, and one slot for the state.
pub type TurnTable<S> = Table<
    Option<S>,
    View<<S as Journalled>::Entry, <S as Journalled>::Kind>,
    Opening<S>,
    TicketRule<S>,
    Global,
>;
