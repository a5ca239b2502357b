//! What the words ask for.
use crate::desk_work::Habits;
use crate::plan::Plan;
use crate::shapes::Shape;
use std::time::Duration;

/// What is done with a survey.
#[derive(Clone, Copy)]
pub enum Task {
    /// Desks and eliminators work at once.
    Run(Plan),
    /// A desk and an eliminator take turns on one thread: after each answer so many jobs are done at most.
    Turns { seed: u32, most: u32 },
}

/// A survey, and what is done with it.
#[derive(Clone, Copy)]
pub struct Order {
    pub shape: Shape,
    pub task: Task,
}

impl Order {
    /// What the words after the program's name say.
    pub fn from_words(words: &[String]) -> Option<Order> {
        let shape = Shape::numbered(number(words, 1)?)?;
        let task = match words.first()?.as_str() {
            "run" => Task::Run(plan(words)?),
            "turns" => Task::Turns {
                seed: number(words, 2)?,
                most: number(words, 3)?,
            },
            _ => return None,
        };
        Some(Order { shape, task })
    }
}

/// How a survey is worked at, by the words.
fn plan(words: &[String]) -> Option<Plan> {
    let seed = number(words, 2)?;
    let desks = u8::try_from(number(words, 3)?).ok()?;
    let eliminators = u8::try_from(number(words, 4)?).ok()?;
    let habits = Habits {
        rounds: number(words, 5)?,
        withdrawals: number(words, 6)?,
        thinking: Duration::from_micros(u64::from(number(words, 7)?)),
    };
    Plan::of(desks, eliminators, habits, seed, number(words, 8)?)
}

/// The number at a place of the words.
fn number(words: &[String], place: usize) -> Option<u32> {
    words.get(place)?.as_str().parse().ok()
}
