//! How many decisions were come to in which way.
use decider::Decision;

/// Counts of decisions. Each stands still at its last value.
#[derive(Clone, Copy, PartialEq, Eq, Debug)]
pub struct Tally {
    /// Implied by one answer.
    pub one_answer: u32,
    /// Open by two known vectors.
    pub known: u32,
    /// Implied, by a solve.
    pub implied: u32,
    /// Open, by a solve.
    pub undecided: u32,
}

impl Tally {
    /// No decisions.
    pub fn none() -> Tally {
        Tally {
            one_answer: 0,
            known: 0,
            implied: 0,
            undecided: 0,
        }
    }

    /// Counts a decision, with a solve or without one.
    pub fn count(&mut self, decision: &Decision, solved: bool) {
        match (decision, solved) {
            (Decision::Implied { .. }, false) => self.one_answer = self
                .one_answer
                .saturating_add(1),
            (Decision::Implied { .. }, true) => self.implied = self.implied.saturating_add(1),
            (Decision::Undecided { .. }, false) => self.known = self.known.saturating_add(1),
            (Decision::Undecided { .. }, true) => self.undecided = self.undecided.saturating_add(1),
        }
    }
}
