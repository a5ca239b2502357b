/// What became of a question. `place` is that of the class that it asks.
#[derive(Clone, Copy, PartialEq, Eq, Debug)]
pub enum QuestionState {
    /// No question has the number.
    Never,
    /// It is open.
    Live { place: u32 },
    /// It is answered or closed.
    Gone { place: u32 },
}
