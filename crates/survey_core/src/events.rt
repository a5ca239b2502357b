use criteria_model::{Side, Vector};
use farkas_check::Combination;

/// One step of a survey. Desks count from 1 to 4, eliminators from 1 to 16; worker 0 is a session's own call.
#[derive(Clone, Copy, PartialEq, Eq, Debug)]
pub enum Event {
    /// A combination of the answers proves the verdict on the class at the place.
    Eliminate {
        worker: u8,
        place: u32,
        verdict: Side,
        combination: Combination,
    },
    /// The class at the place is asked. The two vectors meet the answers and rank it in two ways.
    Issue {
        desk: u8,
        place: u32,
        plus: Vector,
        minus: Vector,
    },
    /// An answer to a question. The point meets all answers and this one.
    Commit {
        desk: u8,
        question: u32,
        side: Side,
        plus: Vector,
        minus: Vector,
        point: Vector,
    },
    /// A question is closed, since its class was eliminated.
    Close {
        desk: u8,
        question: u32,
    },
    /// The last answer is taken back.
    Withdraw {
        desk: u8,
        answer: u32,
    },
}
