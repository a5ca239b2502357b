//! A way to the state of a survey by a pass.
ghost use Rattle.std.specs.Prelude.{◌≡◌};
ghost use Rattle.shared_survey.specs.Passes.{BelongsTo};

use crate::pass::Pass;
use crate::survey::Survey;
use std::sync::Wait;
use survey_state::{Access, State};

/// What a lent pass stands for, for contracts. No value of it is made.
pub struct PassAbout {
    pub survey: Survey,
    pub weight: u64,
    pub desk: u8,
    // Which loan of a pass it is.
    pub loan: u64,
}

/// A way to the state of a survey by a pass.
#[derive(Drop)]
pub(crate) struct PassAccess<'a, R: Wait + Sync> {
    rt: &'a R,
    survey: &'a Survey,
    pass: &'a mut Pass,
    ghost of: { BelongsTo survey.now pass.now },
}

impl<'a, R: Wait + Sync> PassAccess<'a, R> {
    ghost use Rattle.shared_survey.specs.Passes.{IsPassOf};

    /// By this pass.
    pub(crate) fn lend(rt: &'a R, survey: &'a Survey, pass: &'a mut Pass) -> PassAccess<'a, R>
        requires { IsPassOf survey.now pass.old }
        ensures loan { result.pass.ghost_name ≡ pass.entry.ghost_name }
        ensures lent { (result.survey.now ≡ survey.now) × (result.pass.now ≡ pass.old) }
    {
        PassAccess { rt, survey, pass }
    }
}

impl<'a, R: Wait + Sync> Access for PassAccess<'a, R> {
    ghost use Rattle.std.specs.Thread.{IsSync};
    ghost use Rattle.shared_survey.specs.Passes.{pass_seen, survey_listed};
    ghost use Rattle.shared_survey.specs.LockSeats.{journal_out};
    ghost use Rattle.shared_survey.specs.Accesses.{about_pass};

    type About = PassAbout;

    ghost about = { λ access. about_pass access.survey.now access.pass };

    ghost listed = { λ about. survey_listed about.survey };

    ghost seen = { λ access. pass_seen access.pass.now };

    ghost out = { λ access. journal_out access.pass.now.seat };

    ghost can_wait = { IsSync R.row };

    fn begin(&mut self) -> State {
        self.pass.seat.enter(self.rt, &self.survey.turn)
    }

    fn finish(&mut self, state: State) {
        self.pass.seat.leave(&self.survey.turn, state);
    }
}
