//! How a survey is worked at.
ghost use Rattle.std.specs.Prelude.{◌≤◌};

use crate::desk_work::Habits;

/// How many desks and eliminators there are, and how they work.
#[derive(Clone, Copy)]
pub struct Plan {
    pub desks: u8,
    pub eliminators: u8,
    pub habits: Habits,
    /// Where random numbers begin.
    pub seed: u32,
    /// For how many looks the gate holds whoever comes by, at most.
    pub looks: u32,
    ghost some_desks: { 1 ≤ desks },
    ghost few_desks: { desks ≤ 4 },
    ghost few_eliminators: { eliminators ≤ 16 },
}

impl Plan {
    /// With one to four desks and at most sixteen eliminators.
    pub fn of(desks: u8, eliminators: u8, habits: Habits, seed: u32, looks: u32) -> Option<Plan> {
        if desks == 0 || desks > 4 || eliminators > 16 {
            return None;
        }
        Some(Plan {
            desks,
            eliminators,
            habits,
            seed,
            looks,
        })
    }
}
