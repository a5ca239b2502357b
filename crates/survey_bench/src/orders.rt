//! What the words ask for.
use crate::shapes::Shape;

/// What is done with a survey.
#[derive(Clone, Copy)]
pub enum Task {
    /// Each question is answered by hidden values, and what is asked and replied is written.
    Replies,
    /// The same after requests at random, as many as said.
    Mixed { count: u32 },
    /// The same, but the journal is written.
    Journal { count: u32 },
    /// Each question is answered by hidden values, and that is timed.
    Time,
}

/// A survey, what is done with it, and where the random numbers begin.
#[derive(Clone, Copy)]
pub struct Order {
    pub task: Task,
    pub shape: Shape,
    pub seed: u32,
}

impl Order {
    /// What the words after the program's name say.
    pub fn from_words(words: &[String]) -> Option<Order> {
        let task = match words.first()?.as_str() {
            "replies" => Task::Replies,
            "mixed" => Task::Mixed {
                count: number(words, 3)?,
            },
            "journal" => Task::Journal {
                count: number(words, 3)?,
            },
            "time" => Task::Time,
            _ => return None,
        };
        let shape = Shape::numbered(number(words, 1)?)?;
        let seed = number(words, 2)?;
        Some(Order { task, shape, seed })
    }
}

/// The number at a place of the words.
fn number(words: &[String], place: usize) -> Option<u32> {
    words.get(place)?.as_str().parse().ok()
}
