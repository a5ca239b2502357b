//! The kinds of step that a seat makes on a word of the table, and what each lets it know.
ghost use Rattle.std.specs.Prelude.{List, []};
ghost use Rattle.turn_lock.specs.Rule.{spent};
ghost use Rattle.turn_lock.specs.Steps.{drawn, looked, marked, passed, met, lighter, split_off, joined};

use crate::journal::Journalled;
use crate::rule::View;
use atomic_table::Play;
use std::marker::{Brand, PhantomData};

/// The seat outside draws a ticket.
pub struct Draw;

impl<S, E, K> Play<Option<S>, View<E, K>> for Draw {
    ghost then = { drawn };
}

/// The waiting seat looks which ticket is served, and takes the slot where it is its own.
pub struct Look<S> {
    of: PhantomData<S>,
}

impl<S: Journalled> Play<Option<S>, View<S::Entry, S::Kind>> for Look<S> {
    ghost then = { looked S.entries S.kind };
}

/// The list that a mark fixes.
pub trait MarkedList<E> {
    ghost list: { List E };
}

impl<E> MarkedList<E> for Brand {
    ghost list = { [] };
}

/// The served seat fixes the list with its new entries.
pub struct Mark<N> {
    list: PhantomData<N>,
}

impl<S, E, K, N: MarkedList<E>> Play<Option<S>, View<E, K>> for Mark<N> {
    ghost then = { marked N.list };
}

/// The served seat gives the slot back, and the next ticket is served.
pub struct PassOn;

impl<S, E, K> Play<Option<S>, View<E, K>> for PassOn {
    ghost then = { passed };
}

/// The joined seat learns which of its two fronts is the longer.
pub struct Meet;

impl<S, E, K> Play<Option<S>, View<E, K>> for Meet {
    ghost then = { met };
}

/// A new seat gets weight 1 of the seat.
pub struct Split;

impl<E, K> atomic_table::Split<View<E, K>> for Split {
    ghost left = { lighter };

    ghost right = { split_off };
}

/// The seat takes the other in.
pub struct Join;

impl<E, K> atomic_table::Join<View<E, K>> for Join {
    ghost both = { joined };

    ghost spent = { spent };
}
