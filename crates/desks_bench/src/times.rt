//! How long calls take.
use std::time::{Clock, Duration};

/// How often something was done, and how long that took.
#[derive(Clone, Copy)]
pub struct Times {
    pub count: u32,
    pub total: Duration,
    pub longest: Duration,
}

impl Times {
    /// Nothing was done.
    pub fn none() -> Times {
        Times {
            count: 0,
            total: Duration::ZERO,
            longest: Duration::ZERO,
        }
    }

    /// It was done once more.
    pub fn add(&mut self, took: Duration) {
        self.count = self.count.saturating_add(1);
        self.total = self.total.saturating_add(took);
        self.longest = self.longest.max(took);
    }

    /// These and others.
    pub fn and(&self, other: &Times) -> Times {
        Times {
            count: self.count.saturating_add(other.count),
            total: self.total.saturating_add(other.total),
            longest: self.longest.max(other.longest),
        }
    }

    /// How long it took once, on the average.
    pub fn mean(&self) -> Duration {
        self.total / self.count.max(1)
    }
}

/// The time, or none where the clock can't be read.
pub fn time_now<R: Clock>(rt: &R) -> Duration {
    rt.monotonic().unwrap_or(Duration::ZERO)
}

/// How long it is since then.
pub fn time_since<R: Clock>(rt: &R, start: Duration) -> Duration {
    time_now(rt).saturating_sub(start)
}
