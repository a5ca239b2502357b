//! Which variable stands where.
ghost use Rattle.std.specs.Prelude.{◌≡◌, ◌+◌, ◌-◌, ◌<◌, ◌≤◌, ◌^◌, [], ◌∷◌, ◌++◌, length, take, swap, slice_index, IfOk, vec_len, vec_capacity};
ghost use Rattle.std.specs.List.{range_with_len};
ghost use Rattle.fraction_free.specs.Arrangement.{IsArrangement};

use std::alloc::{AllocError, Global};
use std::marker::Model;

/// A list that holds each of the numbers below its length once, and where each stands.
#[derive(Drop)]
pub struct Places {
    order: Vec<u32>,
    place: Vec<u32>,
    room: usize,
}

impl Model for Places {
    ghost use Rattle.std.specs.Prelude.{◌≡◌, ◌≤◌, length, vec_capacity};
    ghost use Rattle.fraction_free.specs.Arrangement.{Arranged, HasPlaces};

    ghost Value = { Arranged };

    ghost view = { λ p. record { order = p.order.items; room = p.room } };

    ghost invariant = { λ p. HasPlaces p.order.items p.place.items
        × (p.room ≤ vec_capacity p.order) × (p.room ≤ vec_capacity p.place) };
}

impl Places {
    /// Room for an arrangement of this length; it is empty.
    pub fn reserve(alloc: Global, room: usize) -> Result<Places, AllocError>
        ensures empty { IfOk result (λ places. places ≡ record { order = []; room = room }) }
    {
        let order = Vec::with_capacity(alloc, room)?;
        let place = Vec::with_capacity(alloc, room)?;
        Ok(Places { order, place, room })
    }

    /// The arrangement 1, 2, .. up to the number of columns, and then 0.
    pub fn reset(&mut self, columns: u8)
        requires { columns < self.old.room }
        ensures order { self.new ≡ record self.old { order = range_with_len 1 columns ++ 0 ∷ [] } }
        ensures arrangement { IsArrangement self.new.order }
    {
        self.order.clear();
        self.place.clear();
        count_up(&mut self.order, 1, u32::from(columns));
        append(&mut self.order, 0);
        append(&mut self.place, u32::from(columns));
        count_up(&mut self.place, 0, u32::from(columns));
    }

    /// The number at a place.
    pub fn number(&self, at: usize) -> u32
        requires { at < length self.now.order }
        ensures value { result ≡ slice_index self.now.order at }
        ensures below { result < length self.now.order }
    {
        self.order[at]
    }

    /// The place of a number.
    pub fn place(&self, number: usize) -> usize
        requires { number < length self.now.order }
        ensures value { slice_index self.now.order result ≡ number }
        ensures below { result < length self.now.order }
    {
        self.place[number] as usize
    }

    /// Exchanges the numbers at two places.
    pub fn swap(&mut self, first: usize, second: usize)
        requires first { first < length self.old.order }
        requires second { second < length self.old.order }
        ensures order { self.new ≡ record self.old { order = swap self.old.order first second } }
        ensures arrangement { IsArrangement self.new.order }
    {
        let one = self.order[first] as usize;
        let other = self.order[second] as usize;
        self.order.swap(first, second);
        self.place.swap(one, other);
    }

    /// Appends the next number.
    pub fn push(&mut self)
        requires room { length self.old.order < self.old.room }
        requires small { length self.old.order < 2 ^ 32 }
        ensures order { self.new ≡ record self.old { order = self.old.order ++ length self.old.order ∷ [] } }
        ensures arrangement { IsArrangement self.new.order }
    {
        let next = self.order.len() as u32;
        append(&mut self.order, next);
        append(&mut self.place, next);
    }

    /// Takes away the last number, which stands at the last place.
    pub fn pop(&mut self)
        requires some { 0 < length self.old.order }
        requires last { slice_index self.old.order (length self.old.order - 1) ≡ length self.old.order - 1 }
        ensures order { self.new ≡ record self.old { order = take (length self.old.order - 1) self.old.order } }
        ensures arrangement { IsArrangement self.new.order }
    {
        let _number = self.order.pop();
        let _place = self.place.pop();
    }
}

/// Appends a number where there is room for it.
fn append(numbers: &mut Vec<u32>, number: u32)
    requires { vec_len numbers.old < vec_capacity numbers.old }
    ensures items { numbers.new.items ≡ numbers.old.items ++ number ∷ [] }
    ensures len { vec_len numbers.new ≡ vec_len numbers.old + 1 }
    ensures capacity { vec_capacity numbers.old ≤ vec_capacity numbers.new }
{
    let _pushed = numbers.push(number);
}

/// Appends `count` numbers that rise by one.
fn count_up(numbers: &mut Vec<u32>, from: u32, count: u32)
    requires room { vec_len numbers.old + count ≤ vec_capacity numbers.old }
    requires small { from + count < 2 ^ 32 }
    ensures items { numbers.new.items ≡ numbers.old.items ++ range_with_len from count }
    ensures len { vec_len numbers.new ≡ vec_len numbers.old + count }
    ensures capacity { vec_capacity numbers.old ≤ vec_capacity numbers.new }
{
    for number in from..from + count {
        append(numbers, number);
    }
}
