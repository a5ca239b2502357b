use survey_core::Broken;

/// What became of an event that was offered.
#[derive(Clone, Copy, PartialEq, Eq, Debug)]
pub enum Offer {
    /// It was put at the end of the journal.
    Done,
    /// It may not follow the journal: the first part that it lacks.
    Stale(Broken),
}
