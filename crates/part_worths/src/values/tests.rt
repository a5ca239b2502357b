use super::*;
use crate::apportionment::WHOLE;
use std::test::Fail;

/// The values of levels, and the shares of two criteria.
#[test]
fn two_criteria(rt: HostRuntime) -> Result<(), Fail> {
    let model = Model::new(&[3, 2], 2)?;
    let vector = Vector::of(&[2, 3, 10]);
    assert_eq!(rt; level_value(&model, &vector, 1, 1), 0);
    assert_eq!(rt; level_value(&model, &vector, 1, 2), 2);
    assert_eq!(rt; level_value(&model, &vector, 1, 3), 5);
    assert_eq!(rt; level_value(&model, &vector, 2, 2), 10);
    let shares = shares(&model, &vector);
    assert_eq!(rt; shares.share(1), 3_333);
    assert_eq!(rt; shares.share(2), 6_667);
    Ok(())
}

/// All increments on one criterion.
#[test]
fn one_criterion(rt: HostRuntime) -> Result<(), Fail> {
    let model = Model::new(&[25], 1)?;
    let vector = Vector::of(&[1; 24]);
    assert_eq!(rt; level_value(&model, &vector, 1, 25), 24);
    assert_eq!(rt; shares(&model, &vector).share(1), WHOLE);
    Ok(())
}
