//! A state behind the lock.
use pair_enumeration::Classes;
use survey_core::Event;
use survey_state::State;
use turn_lock::Journalled;

/// The state of a survey, as the lock sees it: a list of events, of a model with its classes.
#[derive(Drop)]
pub(crate) struct SharedState {
    pub(crate) state: State,
}

impl Journalled for SharedState {
    type Entry = Event;

    type Kind = Classes;

    ghost entries = { λ shared. shared.state.journal };

    ghost kind = { λ shared. shared.state.listed };

    fn count(&self) -> u64 {
        u64::from(self.state.length())
    }
}
