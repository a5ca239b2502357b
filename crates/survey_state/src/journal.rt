//! A state as the journal of its survey.
ghost use Rattle.std.specs.Prelude.{[]};

use crate::state::State;
use criteria_model::Pair;
use pair_enumeration::Classes;
use survey_core::Event;
use survey_replies::Events;

/// All events of the journal are seen, and none is one's own.
impl Events for State {
    type About = Classes;

    ghost about = { λ state. state.listed };

    ghost listed = { λ about. about };

    ghost seen = { λ state. record { journal = state.journal; own = [] } };

    ghost can_wait = { Unit {0} };

    fn length(&self) -> u32 {
        State::length(self)
    }

    fn event(&mut self, place: u32) -> Event {
        State::event(self, place)
    }

    fn class_pair(&self, place: u32) -> Pair {
        self.core().class(place)
    }
}
