ghost use Rattle.std.specs.Prelude.{◌≡◌, ◌⊎◌, ◌+◌, ◌<◌, length, pos};

use super::*;
use criteria_model::Row;
use std::process::Abort;
use std::test::Fail;

/// What a row of a dictionary of three columns is to hold: its basic variable, entries and constant.
type ExpectedRow = (u32, [i128; 3], i128);

/// That the dictionary holds these numbers.
fn expect(
    rt: &impl Abort,
    work: &Dictionary,
    scale: i128,
    nonbasic: [u32; 3],
    rows: &[ExpectedRow],
) {
    assert_eq!(rt; work.scale(), scale);
    assert_eq!(rt; work.cols(), 3);
    assert_eq!(rt; work.nonbasic(1), nonbasic[0]);
    assert_eq!(rt; work.nonbasic(2), nonbasic[1]);
    assert_eq!(rt; work.nonbasic(3), nonbasic[2]);
    assert_eq!(rt; work.rows() as usize, rows.len());
    for (index, expected) in rows.iter().enumerate() {
        expect_row(rt, work, index as u32 + 1, expected);
    }
}

fn expect_row(rt: &impl Abort, work: &Dictionary, row: u32, expected: &ExpectedRow) {
    assert!(rt; row >= 1 && row <= work.rows());
    assert_eq!(rt; work.cols(), 3);
    let (basic, entries, constant) = *expected;
    assert_eq!(rt; work.basic(row), basic);
    assert_eq!(rt; work.entry(row, 1), entries[0]);
    assert_eq!(rt; work.entry(row, 2), entries[1]);
    assert_eq!(rt; work.entry(row, 3), entries[2]);
    assert_eq!(rt; work.constant(row), constant);
}

fn add(rt: &impl Abort, work: &mut Dictionary, coefficients: &Row, least: i8)
    requires room { length work.old.loaded < work.old.room_rows }
    requires least { (least ≡ pos 0) ⊎ (least ≡ pos 1) }
    ensures rows { length work.new.loaded ≡ length work.old.loaded + 1 }
    ensures room { work.new.room_rows ≡ work.old.room_rows }
{
    assert!(rt; coefficients.len() == usize::from(work.cols()));
    work.add_row(coefficients, least);
}

fn pivot(rt: &impl Abort, work: &mut Dictionary, row: u32, col: u8)
    ensures rows { length work.new.loaded ≡ length work.old.loaded }
    ensures room { work.new.room_rows ≡ work.old.room_rows }
{
    assert!(rt; row >= 1 && row <= work.rows());
    assert!(rt; col >= 1 && col <= work.cols());
    assert!(rt; work.entry(row, col) != 0);
    work.pivot(row, col);
}

// The rows after each step of the test, as bench/pivots.py works them out by exact fractions.

const LOADED: [ExpectedRow; 3] = [(4, [1, -1, 0], -1), (5, [-1, 1, 1], 1), (6, [1, 1, -1], 0)];

const FIRST_PIVOT: [ExpectedRow; 3] = [
    (2, [1, -1, 0], -1),
    (5, [0, -1, 1], 0),
    (6, [2, -1, -1], -1),
];

const SECOND_PIVOT: [ExpectedRow; 3] = [(2, [1, -1, 1], -1), (5, [0, -2, 2], 0), (1, [1, 1, 1], 1)];

const ROW_ADDED: [ExpectedRow; 4] = [
    (2, [1, -1, 1], -1),
    (5, [0, -2, 2], 0),
    (1, [1, 1, 1], 1),
    (7, [2, 0, 4], 4),
];

const THIRD_PIVOT: [ExpectedRow; 4] = [
    (2, [1, -2, 1], -4),
    (5, [-2, -4, 2], -4),
    (1, [1, 2, 1], 0),
    (3, [-2, 0, 2], -4),
];

const FOURTH_PIVOT: [ExpectedRow; 4] = [
    (6, [4, 2, -1], 4),
    (5, [-2, -2, 1], -3),
    (1, [1, 1, 0], 1),
    (3, [-2, -1, 1], -3),
];

const ROW_DROPPED: [ExpectedRow; 3] = [(3, [2, 1, -1], 1), (5, [2, 0, -1], 1), (1, [1, 1, 0], 1)];

const LAST_PIVOT: [ExpectedRow; 3] = [(3, [2, 2, 0], 0), (2, [1, 0, 1], -1), (1, [1, 2, 1], 1)];

/// Three rows through pivots, with a row added and dropped in between.
#[test]
fn pivots(rt: HostRuntime) -> Result<(), Fail> {
    let mut work = Dictionary::reserve(rt.alloc(), 3, 4)?;
    add(&rt, &mut work, &Row::of(&[1, -1, 0]), 1);
    add(&rt, &mut work, &Row::of(&[-1, 1, 1]), 0);
    add(&rt, &mut work, &Row::of(&[1, 1, -1]), 1);
    expect(&rt, &work, 1, [1, 2, 3], &LOADED);
    pivot(&rt, &mut work, 1, 2);
    expect(&rt, &work, 1, [1, 4, 3], &FIRST_PIVOT);
    pivot(&rt, &mut work, 3, 1);
    expect(&rt, &work, 2, [6, 4, 3], &SECOND_PIVOT);
    add(&rt, &mut work, &Row::of(&[1, 1, 1]), 1);
    expect(&rt, &work, 2, [6, 4, 3], &ROW_ADDED);
    pivot(&rt, &mut work, 4, 3);
    expect(&rt, &work, 4, [6, 4, 7], &THIRD_PIVOT);
    pivot(&rt, &mut work, 1, 1);
    expect(&rt, &work, 1, [2, 4, 7], &FOURTH_PIVOT);
    work.drop_last();
    expect(&rt, &work, 1, [2, 4, 6], &ROW_DROPPED);
    pivot(&rt, &mut work, 2, 1);
    expect(&rt, &work, 2, [5, 4, 6], &LAST_PIVOT);
    Ok(())
}

#[test]
fn counts(rt: HostRuntime) -> Result<(), Fail> {
    let mut work = Dictionary::reserve(rt.alloc(), 2, 1)?;
    assert_eq!(rt; work.loads(), 0);
    work.load(2);
    add(&rt, &mut work, &Row::of(&[-1, 1]), 0);
    assert_eq!(rt; work.rows(), 1);
    let (coefficients, least) = work.loaded(1);
    assert_eq!(rt; coefficients, Row::of(&[-1, 1]));
    assert_eq!(rt; least, 0);
    work.drop_last();
    assert_eq!(rt; work.rows(), 0);
    assert_eq!(rt; work.loads(), 1);
    assert_eq!(rt; work.added(), 1);
    Ok(())
}
