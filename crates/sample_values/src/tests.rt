use super::*;
use criteria_model::Model;
use std::test::Fail;

/// Seed 1 draws 838, 758 and 113 first (16838, 5758 and 10113 modulo 1,000).
#[test]
fn the_first_values_of_seed_1(rt: HostRuntime) -> Result<(), Fail> {
    let model = Model::new(&[2, 2, 2], 3)?;
    let values = hidden_values(1, &model);
    assert_eq!(rt; values.as_slice(), [839, 759, 114].as_slice());
    Ok(())
}
