use crate::solo_sample;
use criteria_model::Model;
use std::test::Fail;

/// A survey by a seed: the level counts, the degree, and then classes, questions, answers by side, eliminated classes and trace.
const SAMPLES: [(u32, &[u32], u32, [u64; 7]); 2] = [
    (1, &[2, 2, 2], 3, [6, 4, 3, 1, 0, 2, 95_431]),
    (1, &[3, 2], 2, [3, 2, 2, 0, 0, 1, 102]),
];

#[test]
fn sample_lines(rt: HostRuntime) -> Result<(), Fail> {
    for (seed, levels, degree, want) in SAMPLES {
        let model = Model::new(levels, degree)?;
        let s = solo_sample(rt.alloc(), seed, &model)?;
        let counts = [
            u64::from(s.classes),
            u64::from(s.questions),
            u64::from(s.left),
            u64::from(s.right),
            u64::from(s.equal),
            u64::from(s.eliminated),
            s.trace,
        ];
        assert_eq!(rt; counts, want);
    }
    Ok(())
}
