use criteria_model::{Pair, Side, Vector};
use farkas_check::Combination;

/// The reply to a wish for a question. Each reply is made on the first `at` events of the journal.
#[derive(Clone, Copy, PartialEq, Eq, Debug)]
pub enum NextReply {
    /// A new question, which asks the class at the place.
    Question {
        at: u32,
        number: u32,
        place: u32,
        pair: Pair,
    },
    /// Four or more questions are open.
    Full {
        at: u32,
    },
    /// Each open class was asked. The vectors open the first of them.
    Waiting {
        at: u32,
        place: u32,
        plus: Vector,
        minus: Vector,
    },
    /// The answers rank every class.
    Complete {
        at: u32,
    },
}

/// The reply to an answer.
#[derive(Clone, Copy, PartialEq, Eq, Debug)]
pub enum AnswerReply {
    Accepted {
        at: u32,
        question: u32,
    },
    /// No question has the number.
    Unknown {
        at: u32,
        question: u32,
    },
    /// The question is answered or closed.
    Closed {
        at: u32,
        question: u32,
    },
    /// The answers rank the question's class, as the combination proves.
    Implied {
        at: u32,
        question: u32,
        verdict: Side,
        combination: Combination,
    },
}

/// The reply to a wish for values.
#[derive(Clone, Copy, PartialEq, Eq, Debug)]
pub enum ValuesReply {
    /// The vector meets the answers, which rank every class.
    Values {
        at: u32,
        vector: Vector,
    },
    /// The first open class; the vectors open it.
    Incomplete {
        at: u32,
        place: u32,
        pair: Pair,
        plus: Vector,
        minus: Vector,
    },
}

/// The reply to a withdrawal.
#[derive(Clone, Copy, PartialEq, Eq, Debug)]
pub enum WithdrawReply {
    /// The last answer is taken back, and its question is open again.
    Withdrawn { at: u32, answer: u32, question: u32 },
    /// There is no answer.
    Nothing { at: u32 },
    /// No further withdrawal is allowed.
    Spent { at: u32 },
}
