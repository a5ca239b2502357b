//! Gates: points in the work of sessions and workers at which a test may hold whoever comes by.
use crate::NoMemory;
use std::alloc::Global;
use std::sync::atomic::{AtomicBool, Ordering};

/// How often a held caller looks whether it may go on, before it goes on anyway.
const MOST_LOOKS: u32 = 10_000_000;

/// A point in the work of a session or a worker.
#[derive(Clone, Copy, PartialEq, Eq, Debug)]
pub enum GatePoint {
    /// A desk's next question is about to be looked for.
    NextBegins {
        desk: u8,
    },
    /// A desk's next question is known.
    NextAnswered {
        desk: u8,
    },
    /// A worker took the class at this place, and hasn't solved yet.
    JobTaken {
        worker: u8,
        place: u32,
    },
    /// A worker handed in what it found of the class at this place.
    HandedIn {
        worker: u8,
        place: u32,
        eliminated: bool,
    },
}

/// Is called at each point that somebody comes to. It promises nothing.
pub trait Gate {
    /// Somebody comes to the point, and goes on when the call returns.
    fn pass(&self, point: GatePoint);
}

/// A gate that holds nobody.
#[derive(Clone, Copy)]
pub struct OpenGate;

impl Gate for OpenGate {
    fn pass(&self, _point: GatePoint) {}
}

/// Holds whoever comes to `at` until somebody came to `until`.
#[derive(Clone, Copy, PartialEq, Eq, Debug)]
pub struct Hold {
    pub at: GatePoint,
    pub until: GatePoint,
}

/// A hold and what became of it.
#[derive(Drop)]
struct HoldState {
    hold: Hold,
    /// Somebody came to the point at which it holds.
    is_used: AtomicBool,
    /// Somebody came to the point until which it holds.
    is_over: AtomicBool,
    /// It let go before it was over.
    is_missed: AtomicBool,
}

impl HoldState {
    /// Waits until the hold is over, or was looked at too often.
    fn wait(&self) {
        for _ in 0..MOST_LOOKS {
            if self.is_over.load(Ordering::SeqCst) {
                return;
            }
            std::hint::spin_loop();
        }
        self.is_missed.store(true, Ordering::SeqCst);
    }
}

/// A gate with a list of holds, for tests. Each hold is used once; those at one point are used in their order.
#[derive(Drop)]
pub struct ScriptGate {
    states: Vec<HoldState>,
}

impl ScriptGate {
    /// A gate with these holds.
    pub fn new(alloc: Global, holds: &[Hold]) -> Result<ScriptGate, NoMemory> {
        let mut states = Vec::with_capacity(alloc, holds.len())?;
        for hold in holds {
            states.push(HoldState {
                hold: *hold,
                is_used: AtomicBool::new(false),
                is_over: AtomicBool::new(false),
                is_missed: AtomicBool::new(false),
            })?;
        }
        Ok(ScriptGate { states })
    }

    /// Whether some hold let go before it was over, or wasn't used yet.
    pub fn missed(&self) -> bool {
        self.states.iter().any(|state| {
            state.is_missed.load(Ordering::SeqCst) || !state.is_used.load(Ordering::SeqCst)
        })
    }

    /// Ends the holds that last until this point.
    fn end_holds(&self, point: GatePoint) {
        for state in &self.states {
            if state.hold.until == point {
                state.is_over.store(true, Ordering::SeqCst);
            }
        }
    }

    /// The first hold at this point that wasn't used yet; it is used then.
    fn take_hold(&self, point: GatePoint) -> Option<&HoldState> {
        self.states.iter().find(|state| state.hold.at == point
            && !state.is_used.swap(true, Ordering::SeqCst))
    }
}

impl Gate for ScriptGate {
    // The holds end before one is taken, so that a hold until its own point holds nobody.
    fn pass(&self, point: GatePoint) {
        self.end_holds(point);
        if let Some(state) = self.take_hold(point) {
            state.wait();
        }
    }
}

#[cfg(test)]
mod tests;
