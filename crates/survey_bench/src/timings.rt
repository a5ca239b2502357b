//! How long a survey's calls take.
use std::time::Duration;

/// A call of `next`: its processor time, and how many events it recorded, one for each class that it decided.
#[derive(Clone, Copy)]
pub struct Call {
    pub time: Duration,
    pub events: u32,
}

/// The processor time of a survey's calls of `next`.
#[derive(Clone, Copy)]
pub struct Times {
    pub total: Duration,
    /// For each event, in the first and in the last tenth of the calls.
    pub early: Duration,
    pub late: Duration,
}

impl Times {
    /// What the times of all calls come to.
    pub fn of(calls: &[Call]) -> Times {
        let tenth = calls.len().div_ceil(10);
        Times {
            total: time_of(calls),
            early: time_an_event(&calls[..tenth]),
            late: time_an_event(&calls[calls.len() - tenth..]),
        }
    }
}

fn time_of(calls: &[Call]) -> Duration {
    calls.iter().fold(
        Duration::ZERO,
        |total, call| total.saturating_add(call.time),
    )
}

fn time_an_event(calls: &[Call]) -> Duration {
    let events = calls
        .iter()
        .fold(0u32, |total, call| total.saturating_add(call.events));
    time_of(calls) / events.max(1)
}
