ghost use Rattle.std.specs.Prelude.{◌≡◌, ◌≤◌, All};

use super::*;
use criteria_model::{Pair, Side, Tuple};
use std::test::Fail;

fn answer_on(left: &[u8; 3], right: &[u8; 3], side: Side) -> Answer
    requires left_within { All (λ x. x ≤ 25) left.now }
    requires right_within { All (λ x. x ≤ 25) right.now }
    ensures pair { (result.pair.left ≡ left.now) × (result.pair.right ≡ right.now) }
    ensures side { result.side ≡ side }
{
    let pair = Pair {
        left: Tuple::of(left),
        right: Tuple::of(right),
    };
    Answer { pair, side }
}

/// A list that grows, is copied as far as memory goes, and is cut.
#[test]
fn lists(rt: HostRuntime) -> Result<(), Fail> {
    let first = answer_on(&[2, 1, 0], &[1, 2, 0], Side::Left);
    let second = answer_on(&[0, 2, 1], &[0, 1, 2], Side::Right);
    let mut list = Answers::reserve(rt.alloc(), 1)?;
    list.push(first);
    list.grow(1)?;
    list.push(second);
    assert_eq!(rt; list.len(), 2);
    assert_eq!(rt; list.answer(2), second);
    let mut copy = Answers::reserve(rt.alloc(), 1)?;
    let missing = copy.copy_from(&list);
    assert!(rt; copy.len() + missing == 2);
    copy.cut(0);
    assert_eq!(rt; copy.len(), 0);
    assert_eq!(rt; list.as_slice().len(), 2);
    Ok(())
}

/// The winner of an answer right is its right side.
#[test]
fn rows(rt: HostRuntime) -> Result<(), Fail> {
    let model = Model::new(&[2, 2, 2], 3)?;
    let answer = answer_on(&[0, 2, 1], &[0, 1, 2], Side::Right);
    assert!(rt; model.fits(&answer.pair));
    let mut list = Answers::reserve(rt.alloc(), 1)?;
    list.push(answer);
    assert_eq!(rt; list.row_of(&model, 1), Row::of(&[0, -1, 1]));
    Ok(())
}
