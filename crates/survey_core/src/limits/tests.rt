use super::*;

/// With 16,384 classes two withdrawals are allowed and the third isn't.
#[test]
fn withdrawals_spent(rt: HostRuntime) {
    assert!(rt; !spent(16_384, 1));
    assert!(rt; spent(16_384, 2));
}
