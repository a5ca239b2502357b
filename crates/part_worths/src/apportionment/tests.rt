use super::*;

/// Shares worked out by hand, ties among them.
#[test]
fn largest_remainders(rt: HostRuntime) {
    let shares = [
        (Shares::of(&[1, 1, 1]), [3_334, 3_333, 3_333]),
        (Shares::of(&[3, 2, 1]), [5_000, 3_333, 1_667]),
        (Shares::of(&[1, 1, 4]), [1_667, 1_667, 6_666]),
        (Shares::of(&[5, 1, 1]), [7_143, 1_429, 1_428]),
        (Shares::of(&[0, 1, 0]), [0, 10_000, 0]),
    ];
    for (found, expected) in shares {
        assert!(rt; found.as_slice() == expected.as_slice());
    }
}
