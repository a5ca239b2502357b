use json_forms::Word;
use session_protocol::SessionEnd;
use shared_survey::Front;

/// What a connection was served.
#[derive(Drop)]
pub enum Served {
    /// The first line is no hello, or failed a test on it; its word was written.
    Refused(Word),
    /// It ended before it was at a desk: no whole first line came, there was no memory, or the line of a refusal couldn't be written.
    Early(SessionEnd),
    /// A session at a desk.
    Ran {
        /// How many events the desk had seen when it was got.
        began: u32,
        /// All that the desk had seen at the end.
        front: Front,
        /// How many lines after the hello were replied to.
        replies: u32,
        end: SessionEnd,
    },
}
