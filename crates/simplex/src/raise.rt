//! The last row decided from a dictionary whose other rows are feasible, by pivots that keep them so.
ghost use Rattle.std.specs.Prelude.{◌≡◌, ◌≢◌, ◌-◌, ◌*◌, ◌<◌, ◌≤◌, length, IfSome, pos, ◌<ℤ◌, unsigned_abs};
ghost use Rattle.fraction_free.specs.Dictionary.{IsDictionary, entry_in, constant_in};
ghost use Rattle.simplex.specs.Raise.{IsFirstAtZero, IsSooner, IsRaised, IsFeasibleBut};
ghost use Rattle.simplex.specs.Results.{IsFound, KeepsRows};

use crate::choice::{entering_column, leaving_row};
use crate::clash::clash_of;
use crate::found::Found;
use crate::point::point_of;
use crate::solver::solve;
use fraction_free::Dictionary;

/// How many pivots raise a row at most, before the least-index rule takes over.
const MAX_RAISES: u32 = 256;

/// What became of the last row's variable.
#[derive(Drop)]
enum Raised {
    /// It is at least 0.
    Up,
    /// It is below 0, and the nonbasic variable of the column raises it to 0 before another variable falls below 0.
    Reaches(u8),
    /// It is below 0, and no nonbasic variable helps it to rise.
    Blocked,
    /// It isn't known: there were too many pivots or too large numbers.
    Unsettled,
}

/// A point or a clash, as [`solve`] gives it. Raises the last row, whose slack is basic there, by pivots that keep the
/// other rows feasible; solves only where that settles nothing.
pub fn solve_last(work: &mut Dictionary) -> Found
    requires { 0 < length work.old.loaded }
    ensures found { IsFound work.old.columns work.old.loaded result }
    ensures rows { KeepsRows work.old work.new }
    ensures dictionary { IsDictionary work.new }
{
    let last = work.rows();
    match raise(work, last) {
        Raised::Blocked => Found::Clash(clash_of(work, last)),
        Raised::Reaches(col) => reach(work, last, col),
        Raised::Up | Raised::Unsettled => point_or_solve(work),
    }
}

/// The dictionary's point where it is feasible, else what the solver finds.
fn point_or_solve(work: &mut Dictionary) -> Found
    ensures found { IsFound work.old.columns work.old.loaded result }
    ensures rows { KeepsRows work.old work.new }
    ensures dictionary { IsDictionary work.new }
{
    match leaving_row(work) {
        None => Found::Point(point_of(work)),
        Some(_) => solve(work),
    }
}

/// The point of a dictionary that one pivot makes feasible, which is undone.
fn reach(work: &mut Dictionary, last: u32, col: u8) -> Found
    requires last_low { 1 ≤ last }
    requires last_high { last ≤ length work.old.loaded }
    requires col_low { 1 ≤ col }
    requires col_high { col ≤ work.old.columns }
    requires entry { entry_in work.old (last - 1) (col - 1) ≢ pos 0 }
    requires dictionary { IsDictionary work.old }
    ensures found { IsFound work.old.columns work.old.loaded result }
    ensures rows { KeepsRows work.old work.new }
    ensures dictionary { IsDictionary work.new }
{
    work.pivot(last, col);
    if leaving_row(work).is_some() {
        return solve(work);
    }
    let point = point_of(work);
    work.pivot(last, col);
    Found::Point(point)
}

/// Raises the last row's variable while it is below 0: the least nonbasic variable that helps rises, until a variable
/// would fall below 0. Rows that are feasible stay so.
fn raise(work: &mut Dictionary, last: u32) -> Raised
    requires last { last ≡ length work.old.loaded }
    requires some { 0 < length work.old.loaded }
    requires dictionary { IsDictionary work.old }
    ensures raised { IsRaised work.new (last - 1) result }
    ensures others { IsFeasibleBut work.old (last - 1) → IsFeasibleBut work.new (last - 1) }
    ensures rows { KeepsRows work.old work.new }
    ensures dictionary { IsDictionary work.new }
{
    for _ in 0..MAX_RAISES {
        if work.constant(last) >= 0 {
            return Raised::Up;
        }
        let Some(col) = entering_column(work, last) else {
            return Raised::Blocked;
        };
        let Some(row) = first_at_zero(work, last, col) else {
            return Raised::Unsettled;
        };
        if row == last {
            return Raised::Reaches(col);
        }
        work.pivot(row, col);
    }
    Raised::Unsettled
}

/// The row whose variable comes to 0 first where the nonbasic variable of the column rises: the last one among
/// equals, else that of the least variable. `None` where a product is too large.
fn first_at_zero(work: &Dictionary, last: u32, col: u8) -> Option<u32>
    requires last { last ≡ length work.now.loaded }
    requires some { 0 < length work.now.loaded }
    requires col_low { 1 ≤ col }
    requires col_high { col ≤ work.now.columns }
    requires helps { pos 0 <ℤ entry_in work.now (last - 1) (col - 1) }
    ensures { IfSome result (λ row. (1 ≤ row) × IsFirstAtZero work.now (last - 1) (col - 1) (row - 1)) }
{
    let mut first = last;
    for at in 0..last - 1 {
        let row = at + 1;
        if work.entry(row, col) < 0 {
            let Some(sooner) = sooner_at_zero(work, last, col, first, row) else {
                return None;
            };
            first = sooner;
        }
    }
    Some(first)
}

/// Which of two rows' variables comes to 0 first: of equals the last row, else that of the lesser variable. `None`
/// where a product is too large.
fn sooner_at_zero(work: &Dictionary, last: u32, col: u8, first: u32, row: u32) -> Option<u32>
    requires first_low { 1 ≤ first }
    requires first_high { first ≤ length work.now.loaded }
    requires row_low { 1 ≤ row }
    requires row_high { row ≤ length work.now.loaded }
    requires col_low { 1 ≤ col }
    requires col_high { col ≤ work.now.columns }
    ensures { IfSome result (λ sooner. IsSooner work.now (col - 1) first row sooner) }
{
    let Some(ahead) = cross_product(work, col, row, first) else {
        return None;
    };
    let Some(behind) = cross_product(work, col, first, row) else {
        return None;
    };
    let lesser = first != last && work.basic(row) < work.basic(first);
    if ahead < behind || (ahead == behind && lesser) {
        Some(row)
    } else {
        Some(first)
    }
}

/// The size of a row's constant times that of another row's entry.
fn cross_product(work: &Dictionary, col: u8, row: u32, other: u32) -> Option<u128>
    requires row_low { 1 ≤ row }
    requires row_high { row ≤ length work.now.loaded }
    requires other_low { 1 ≤ other }
    requires other_high { other ≤ length work.now.loaded }
    requires col_low { 1 ≤ col }
    requires col_high { col ≤ work.now.columns }
    ensures { IfSome result (λ product. product ≡ unsigned_abs (constant_in work.now (row - 1)) * unsigned_abs (entry_in work.now (other - 1) (col - 1))) }
{
    let constant = work.constant(row).unsigned_abs();
    let entry = work.entry(other, col).unsigned_abs();
    constant.checked_mul(entry)
}

/// Makes the dictionary feasible, where its rows can be met: by raising the last row where the others are feasible.
pub fn settle(work: &mut Dictionary)
    ensures rows { KeepsRows work.old work.new }
    ensures dictionary { IsDictionary work.new }
{
    if leaving_row(work).is_none() {
        return;
    }
    let last = work.rows();
    if let Raised::Reaches(col) = raise(work, last) {
        work.pivot(last, col);
    }
    let _found = point_or_solve(work);
}
