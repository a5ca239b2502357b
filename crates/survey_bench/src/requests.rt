//! What a desk asks of its survey.
use criteria_model::Side;
use sample_values::Draws;
use std::fmt;

/// A request, which is shown as the line of a message.
#[derive(Clone, Copy)]
pub enum Request {
    Next,
    Answer { question: u32, side: Side },
    Values,
    Withdraw,
}

impl Request {
    /// A request at random, where `asked` questions were asked. Answers are to the last of them mostly.
    pub fn random(draws: &mut Draws, asked: u32) -> Request {
        match draws.draw() {
            0..400 => Request::Next,
            400..850 => Request::Answer {
                question: random_question(draws, asked),
                side: random_side(draws),
            },
            850..900 => Request::Values,
            _ => Request::Withdraw,
        }
    }
}

/// One of the last questions, or a number that no question has yet.
fn random_question(draws: &mut Draws, asked: u32) -> u32 {
    let back = draws.draw() % 8;
    asked.saturating_add(1).saturating_sub(back)
}

fn random_side(draws: &mut Draws) -> Side {
    match draws.draw() {
        0..450 => Side::Left,
        450..900 => Side::Right,
        _ => Side::Equal,
    }
}

impl fmt::Display for Request {
    fn fmt<W: fmt::Write>(&self, out: &mut fmt::Formatter<W>) -> fmt::Result {
        match self {
            Request::Next => write!(out, "{{\"ask\":\"next\"}}"),
            Request::Answer { question, side } => {
                let word = word_of(*side);
                write!(
                    out,
                    "{{\"answer\":{{\"question\":{question},\"side\":\"{word}\"}}}}"
                )
            }
            Request::Values => write!(out, "{{\"ask\":\"values\"}}"),
            Request::Withdraw => write!(out, "{{\"ask\":\"withdraw\"}}"),
        }
    }
}

/// The word of a side.
pub fn word_of(side: Side) -> &'static str {
    match side {
        Side::Left => "left",
        Side::Right => "right",
        Side::Equal => "equal",
    }
}
