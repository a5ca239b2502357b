//! What no clause says: which point and which clash small systems give.
use super::*;
use criteria_model::{Row, Vector};
use fraction_free::Dictionary;
use std::test::Fail;

#[test]
fn rows_move_the_point(rt: HostRuntime) -> Result<(), Fail> {
    let mut work = Dictionary::reserve(rt.alloc(), 3, 4)?;
    assert_eq!(rt; solve(&mut work), Found::Point(Vector::of(&[1, 1, 1])));
    work.add_row(&Row::of(&[1, -1, 0]), 1);
    assert_eq!(rt; solve(&mut work), Found::Point(Vector::of(&[2, 1, 1])));
    work.add_row(&Row::of(&[-1, 1, 1]), 0);
    assert_eq!(rt; solve(&mut work), Found::Point(Vector::of(&[2, 1, 1])));
    work.add_row(&Row::of(&[0, -1, 1]), 1);
    assert_eq!(rt; solve(&mut work), Found::Point(Vector::of(&[2, 1, 2])));
    Ok(())
}

#[test]
fn opposed_rows_clash(rt: HostRuntime) -> Result<(), Fail> {
    let mut work = Dictionary::reserve(rt.alloc(), 3, 4)?;
    work.add_row(&Row::of(&[1, -1, 0]), 1);
    work.add_row(&Row::of(&[0, 1, -1]), 1);
    work.add_row(&Row::of(&[-1, 0, 1]), 0);
    let mut rows = RowWeights::none();
    rows.push(1, 1);
    rows.push(2, 1);
    rows.push(3, 1);
    let increments = Vector::of(&[0, 0, 0]);
    assert_eq!(rt; solve(&mut work), Found::Clash(Clash { increments, rows }));
    Ok(())
}

#[test]
fn negative_row_clashes_with_an_increment(rt: HostRuntime) -> Result<(), Fail> {
    let mut work = Dictionary::reserve(rt.alloc(), 2, 2)?;
    work.add_row(&Row::of(&[-1, 0]), 1);
    let mut rows = RowWeights::none();
    rows.push(1, 1);
    let increments = Vector::of(&[1, 0]);
    assert_eq!(rt; solve(&mut work), Found::Clash(Clash { increments, rows }));
    Ok(())
}
