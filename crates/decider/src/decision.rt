//! What a decision is.
use criteria_model::{Side, Vector};
use farkas_check::Combination;

/// What answers say of a pair.
#[derive(Clone, Copy, PartialEq, Eq, Debug)]
pub enum Decision {
    /// Two vectors that meet the answers, by which the left side is worth more, and less.
    Undecided {
        plus: Vector,
        minus: Vector,
    },
    /// The ranking that follows, and a combination that proves it.
    Implied {
        verdict: Side,
        combination: Combination,
    },
}
