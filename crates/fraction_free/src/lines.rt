//! One row of a dictionary's numbers.
ghost use Rattle.std.specs.Prelude.{◌≡◌, ◌≢◌, ℕ, ◌<◌, ◌≤◌, ◌^◌, length, replicate, slice_set, slice_index_or, vec_capacity, List, [], ℤ, pos, ◌+ℤ◌, ◌-ℤ◌, ◌*ℤ◌, unsigned_abs, IsTrue};
ghost use Rattle.wide_step.specs.Quotient.{HasQuotient};
ghost use Rattle.row_laws.specs.Rows.{entry};
ghost use Rattle.fraction_free.specs.Changes.{with_sign, IsOtherLine, IsPivotLine, IsExchangedAt};
ghost use Rattle.fraction_free.specs.Representation.{CanExchange, AreExchanged};

use crate::limits::{MAX_LINE, NUMBER_BOUND};
use std::marker::Model;
use wide_step::{Divisor, QUOTIENT_BOUND};

/// A list of at most 25 whole numbers: the entries of a row, and its constant.
#[derive(Drop)]
pub struct Line {
    cells: [i128; MAX_LINE],
    len: u8,
}

impl Model for Line {
    ghost use Rattle.std.specs.Prelude.{ℤ, ◌≤◌, List, take};
    ghost use Rattle.fraction_free.specs.declared.limits.TheConstants.{MAX_LINE};

    ghost Value = { List ℤ };

    ghost view = { λ l. take l.len l.cells };

    ghost invariant = { λ l. l.len ≤ MAX_LINE };
}

impl Line {
    /// `len` zeros.
    pub fn zeros(len: usize) -> Line
        requires { len ≤ MAX_LINE }
        ensures { result ≡ replicate len (pos 0) }
    {
        Line {
            cells: [0; MAX_LINE],
            len: len as u8,
        }
    }

    /// The same numbers again.
    pub fn copy(&self) -> Line
        ensures { result ≡ self.now }
    {
        Line {
            cells: self.cells,
            len: self.len,
        }
    }

    /// How many numbers it has.
    pub fn len(&self) -> usize
        ensures value { result ≡ length self.now }
        ensures most { result ≤ MAX_LINE }
    {
        usize::from(self.len)
    }

    /// The number at a place, counted from 0.
    pub fn get(&self, place: usize) -> i128
        requires { place < length self.now }
        ensures { result ≡ entry self.now place }
    {
        let cells = &self.cells;
        cells[place]
    }

    /// Writes the number at a place.
    pub fn set(&mut self, place: usize, value: i128)
        requires { place < length self.old }
        ensures { self.new ≡ slice_set self.old place value }
    {
        let cells = &mut self.cells;
        cells[place] = value;
    }
}

impl Line {
    /// The line after a pivot on another row: each number is the exact quotient by the old scale.
    pub fn exchange(&mut self, pivot: &Line, column: usize, scale: &Divisor)
        requires len { length pivot.now ≡ length self.old }
        requires column { column < length self.old }
        requires sizes { (place : ℕ) → unsigned_abs (entry self.old place) < NUMBER_BOUND }
        requires pivot_sizes { (place : ℕ) → unsigned_abs (entry pivot.now place) < NUMBER_BOUND }
        requires exact { (place : ℕ) → place < length self.old → place ≢ column
            → HasQuotient (entry pivot.now column *ℤ entry self.old place -ℤ entry self.old column *ℤ entry pivot.now place) scale.now }
        ensures { IsOtherLine scale.now column pivot.now self.old self.new }
    {
        let sign = pivot.get(column);
        let entry = with_sign(sign, sign);
        let factor = with_sign(sign, self.get(column));
        // the line stays: nothing is taken off, and the old scale is the new one
        if factor == 0 && entry == scale.number() {
            return;
        }
        let same = is_same(entry, scale);
        for place in 0..self.len() {
            if place != column {
                self.exchange_at(place, entry, factor, pivot.get(place), scale, same);
            }
        }
        self.set(column, factor);
    }

    /// One number after a pivot on another row, by the pivot's entry, the row's factor and the other
    /// row's number.
    #[inline(always)]
    fn exchange_at(
        &mut self,
        place: usize,
        lead: i128,
        factor: i128,
        other: i128,
        scale: &Divisor,
        same: bool,
    )
        requires place { place < length self.old }
        requires entry_size { unsigned_abs lead < NUMBER_BOUND }
        requires number_size { unsigned_abs (entry self.old place) < NUMBER_BOUND }
        requires factor_size { unsigned_abs factor < NUMBER_BOUND }
        requires other_size { unsigned_abs other < NUMBER_BOUND }
        requires exact { HasQuotient (lead *ℤ entry self.old place -ℤ factor *ℤ other) scale.now }
        requires same_scale { IsTrue same → lead ≡ scale.now }
        ensures { IsExchangedAt scale.now lead factor other self.old self.new place }
    {
        // nothing is taken off, and the old scale is the new one
        if same && other == 0 {
            return;
        }
        let quotient = quotient_of(lead, self.get(place), factor, other, scale);
        self.set(place, quotient);
    }

    /// The line of the variable that was nonbasic, after a pivot on this row.
    pub fn leave(&mut self, column: usize, scale: i128)
        requires column { column < length self.old }
        requires scale_size { unsigned_abs scale < NUMBER_BOUND }
        requires sizes { (place : ℕ) → unsigned_abs (entry self.old place) < NUMBER_BOUND }
        ensures { IsPivotLine scale column self.old self.new }
    {
        for place in 0..self.len() {
            if place != column {
                let number = with_sign(self.get(column), -self.get(place));
                self.set(place, number);
            }
        }
        let number = with_sign(self.get(column), scale);
        self.set(column, number);
    }

    /// Adds a multiple of another line.
    pub fn add(&mut self, other: &Line, times: i128)
        requires len { length other.now ≡ length self.old }
        requires times { unsigned_abs times ≤ 25 }
        requires sizes { (place : ℕ) → unsigned_abs (entry self.old place) < 2 ^ 100 }
        requires other_sizes { (place : ℕ) → unsigned_abs (entry other.now place) < NUMBER_BOUND }
        ensures len { length self.new ≡ length self.old }
        ensures sums { (place : ℕ) → place < length self.old
            → entry self.new place ≡ entry self.old place +ℤ times *ℤ entry other.now place }
    {
        for place in 0..self.len() {
            self.set(place, self.get(place) + times * other.get(place));
        }
    }
}

/// Whether the pivot's entry is the old scale.
#[inline]
fn is_same(lead: i128, scale: &Divisor) -> bool
    requires { unsigned_abs lead < NUMBER_BOUND }
    ensures { IsTrue result → lead ≡ scale.now }
{
    lead == scale.number()
}

/// The exact quotient by the old scale. Where entry and scale are 1, as in most pivots on rows of few differing
/// increments, there is nothing to divide.
#[inline(always)]
fn quotient_of(entry: i128, number: i128, factor: i128, other: i128, scale: &Divisor) -> i128
    requires entry_size { unsigned_abs entry < NUMBER_BOUND }
    requires number_size { unsigned_abs number < NUMBER_BOUND }
    requires factor_size { unsigned_abs factor < NUMBER_BOUND }
    requires other_size { unsigned_abs other < NUMBER_BOUND }
    requires exact { HasQuotient (entry *ℤ number -ℤ factor *ℤ other) scale.now }
    ensures quotient { result *ℤ scale.now ≡ entry *ℤ number -ℤ factor *ℤ other }
    ensures size { unsigned_abs result < QUOTIENT_BOUND }
{
    if entry == 1 && scale.number() == 1 {
        return number - factor * other;
    }
    scale.step(entry, number, factor, other)
}

/// A number, or its negation where the first is negative.
pub fn with_sign(of: i128, number: i128) -> i128
    requires { unsigned_abs number < 2 ^ 127 }
    ensures { result ≡ with_sign of number }
{
    if of < 0 { -number } else { number }
}

/// The line at a place.
fn copy_at(lines: &[Line], at: usize) -> Line
    requires { at < length lines.now }
    ensures { result ≡ slice_index_or lines.now at [] }
{
    let line = &lines[at];
    line.copy()
}

/// All lines after a pivot, and the pivot's entry.
pub fn pivot_lines(lines: &mut Vec<Line>, at: usize, column: usize, scale: i128) -> i128
    requires at { at < length lines.old.items }
    requires exact { CanExchange scale at column lines.old.items }
    ensures entry { result ≡ entry (slice_index_or lines.old.items at []) column }
    ensures size { unsigned_abs result < NUMBER_BOUND }
    ensures lines { AreExchanged scale at column lines.old.items lines.new.items }
    ensures capacity { vec_capacity lines.new ≡ vec_capacity lines.old }
{
    let pivot = copy_at(lines.as_slice(), at);
    let entry = pivot.get(column);
    exchange_lines(lines.as_mut_slice(), at, &pivot, column, scale);
    entry
}

/// All lines after a pivot on the line at a place.
fn exchange_lines(lines: &mut [Line], at: usize, pivot: &Line, column: usize, scale: i128)
    requires at { at < length lines.old }
    requires pivot { pivot.now ≡ slice_index_or lines.old at [] }
    requires exact { CanExchange scale at column lines.old }
    ensures { AreExchanged scale at column lines.old lines.new }
{
    let divisor = Divisor::of(scale);
    for row in 0..lines.len() {
        let line = &mut lines[row];
        if row == at {
            line.leave(column, scale);
        } else {
            line.exchange(pivot, column, &divisor);
        }
    }
}

/// The first line with a number that is not 0 at a column, or the number of lines.
pub fn first_row_with(lines: &[Line], column: usize) -> usize
    requires { (row : ℕ) → row < length lines.now → column < length (slice_index_or lines.now row []) }
    ensures before { (row : ℕ) → row < result → entry (slice_index_or lines.now row []) column ≡ pos 0 }
    ensures found { result < length lines.now → entry (slice_index_or lines.now result []) column ≢ pos 0 }
    ensures most { result ≤ length lines.now }
{
    for row in 0..lines.len() {
        let line = &lines[row];
        if line.get(column) != 0 {
            return row;
        }
    }
    lines.len()
}
