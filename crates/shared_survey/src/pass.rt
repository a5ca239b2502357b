//! The right to take part in a survey.
ghost use Rattle.std.specs.Prelude.{◌≡◌, Some, None, length};
ghost use Rattle.survey_core.specs.Legal.{IsDesk, IsLegal};

use crate::seat::SurveySeat;
use crate::survey::Survey;
use decider::Tools;
use std::snapshot::Snapshot;

/// What a desk decides with.
#[derive(Drop)]
pub(crate) struct DeskTools {
    pub(crate) desk: u8,
    pub(crate) tools: Tools,
}

/// A right to take part in a survey, for one thread at a time: for a desk, or for none.
#[derive(Drop)]
pub struct Pass {
    pub(crate) seat: SurveySeat,
    // There is none for a pass of no desk, nor while a call works with them.
    pub(crate) desk: Option<DeskTools>,
}

/// The journal that a pass has seen. It is kept for contracts alone.
#[derive(Drop)]
pub struct Front {
    pub length: u32,
    of: Snapshot<Pass>,
}

impl Pass {
    ghost use Rattle.pair_enumeration.specs.Listed.{IsListed};
    ghost use Rattle.shared_survey.specs.Passes.{BelongsTo, desk_of, front_journal, front_seen, pass_seen, survey_listed};

    /// The journal that it has seen.
    pub fn front(&self) -> Front
        ensures seen { front_seen result ≡ pass_seen self.now }
        ensures length { result.length ≡ length (front_journal result) }
        ensures listed { (survey : Survey) → BelongsTo survey self.now → IsListed (survey_listed survey) }
        ensures legal { (survey : Survey) → BelongsTo survey self.now → IsLegal (survey_listed survey) (front_journal result) }
    {
        Front {
            length: self.length(),
            of: Snapshot::of(self),
        }
    }

    /// Its desk, or 0 where it is of no desk.
    pub fn desk(&self) -> u8
        ensures { result ≡ desk_of self.now }
    {
        match &self.desk {
            Some(tools) => tools.desk,
            None => 0,
        }
    }

    /// How many events it has seen.
    pub(crate) fn length(&self) -> u32
        ensures value { result ≡ length (pass_seen self.now).journal }
        ensures listed { (survey : Survey) → BelongsTo survey self.now → IsListed (survey_listed survey) }
        ensures legal { (survey : Survey) → BelongsTo survey self.now → IsLegal (survey_listed survey) (pass_seen self.now).journal }
    {
        self.seat.length()
    }

    /// Takes its desk's tools out for a call, which puts them back.
    pub(crate) fn take_tools(&mut self) -> DeskTools
        requires { IsDesk (desk_of self.old) }
        ensures tools { self.old.desk ≡ Some result }
        ensures left { (self.new.desk ≡ None) × (self.new.seat ≡ self.old.seat) }
    {
        let Some(tools) = self.desk.take() else {
            unreachable!()
        };
        tools
    }
}
