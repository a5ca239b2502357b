//! What an eliminator takes, and what becomes of it.
use criteria_model::Pair;
use survey_core::Broken;

/// A class to decide, and how often the answers had changed when it was given out.
#[derive(Clone, Copy, PartialEq, Eq, Debug)]
pub struct Job {
    pub place: u32,
    pub pair: Pair,
    pub version: u32,
}

/// What became of a job that was handed in.
#[derive(Clone, Copy, PartialEq, Eq, Debug)]
pub enum HandIn {
    /// The class was eliminated.
    Recorded,
    /// The class is open, and its vectors were kept.
    Kept,
    /// The decision doesn't hold any more: the first part that it lacks.
    Stale(Broken),
}
