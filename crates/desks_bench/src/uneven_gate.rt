//! A gate that changes who comes first.
use edges::{Gate, GatePoint};
use std::sync::atomic::{AtomicU64, Ordering};

/// Holds each that comes by for a number of looks that nobody knows before.
#[derive(Drop)]
pub struct UnevenGate {
    state: AtomicU64,
    most: u64,
}

impl UnevenGate {
    /// For at most so many looks; with 0 it holds nobody.
    pub fn new(seed: u32, most: u32) -> UnevenGate {
        UnevenGate {
            state: AtomicU64::new(u64::from(seed)),
            most: u64::from(most),
        }
    }
}

impl Gate for UnevenGate {
    fn pass(&self, _point: GatePoint) {
        let turn = self.state.fetch_add(1, Ordering::SeqCst);
        for _ in 0..looks(turn, self.most) {
            std::hint::spin_loop();
        }
    }
}

/// The looks of a turn: the middle bits of a multiple of its number.
fn looks(turn: u64, most: u64) -> u64 {
    let mixed = turn.wrapping_mul(6_364_136_223_846_793_005) >> 33;
    mixed % most.saturating_add(1)
}
