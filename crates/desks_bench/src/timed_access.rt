//! A way to a state that times its turns.
ghost use Rattle.std.specs.Prelude.{◌≡◌, Some, length};
ghost use Rattle.std.specs.List.{range_with_len};
ghost use Rattle.survey_state.specs.Solos.{held_state, journal_out};

use crate::times::{Times, time_now, time_since};
use pair_enumeration::Classes;
use std::snapshot::Snapshot;
use std::time::{Clock, Duration};
use survey_state::{Access, State};

/// A state that is given out and taken back, with nobody to wait for.
#[derive(Drop)]
pub struct TimedAccess<'a, R: Clock> {
    rt: &'a R,
    state: Option<State>,
    // The state as it was given out last.
    last: Snapshot<State>,
    // When that was.
    began: Duration,
    turns: Times,
}

impl<'a, R: Clock> TimedAccess<'a, R> {
    /// To this state.
    pub fn to(rt: &'a R, state: State) -> TimedAccess<'a, R>
        ensures { result.state ≡ Some state }
    {
        let last = Snapshot::of(&state);
        TimedAccess {
            rt,
            state: Some(state),
            last,
            began: Duration::ZERO,
            turns: Times::none(),
        }
    }

    /// Those so far.
    pub fn turns(&self) -> &Times {
        &self.turns
    }
}

/// All places of the journal are its own.
impl<'a, R: Clock> Access for TimedAccess<'a, R> {
    type About = Classes;

    ghost about = { λ held. (held_state held.state held.last.value).listed };

    ghost listed = { λ about. about };

    ghost seen = { λ held. record {
      journal = (held_state held.state held.last.value).journal;
      own = range_with_len 0 (length (held_state held.state held.last.value).journal);
    } };

    ghost out = { λ held. journal_out held.state held.last.value };

    ghost can_wait = { Unit {0} };

    fn begin(&mut self) -> State {
        let Some(state) = self.state.take() else {
            unreachable!()
        };
        self.last = Snapshot::of(&state);
        self.began = time_now(self.rt);
        state
    }

    fn finish(&mut self, state: State) {
        self.turns.add(time_since(self.rt, self.began));
        self.state = Some(state);
    }
}
