//! The events of a result, one after the other.
ghost use Rattle.std.specs.Prelude.{◌≡◌, ◌≢◌, ◌↔◌, ◌≤◌, length, OnOk, IfOk, IfErr, MatchOption, IsTrue};
ghost use Rattle.survey_core.specs.declared.events.Event.{Event as SurveyEvent};
ghost use Rattle.criteria_model.specs.Answers.{MeetsAll};
ghost use Rattle.survey_core.specs.Histories.{committed};
ghost use Rattle.survey_core.specs.Laws.{RanksEachClass, last_point};
ghost use Rattle.result_file.specs.Checked.{begun};
ghost use Rattle.result_file.specs.Stops.{StopsAt};
ghost use Rattle.result_file.specs.Contents.{of_events};
ghost use Rattle.result_file.specs.Events.{Tells};
ghost use Rattle.result_file.specs.EventLines.{IsEventLine};
ghost use Rattle.result_file.specs.Kept.{StartsSurvey, AddsEvent};
ghost use Rattle.result_file.specs.RightEvents.{NamesNoClass};
ghost use Rattle.result_file.specs.Texts.{end_line};

use crate::eliminations::Elimination;
use crate::entries::{Entry, Format, entry_of};
use crate::stops::Stop;
use crate::verdicts::Part;
use criteria_model::{Model, Vector};
use std::alloc::Global;
use survey_core::points::{AnswerPoint, follow, latest};
use survey_core::{Core, Event, MAX_EVENTS};

/// The history that the events of a result make.
#[derive(Drop)]
pub(crate) struct Survey {
    format: Format,
    core: Core,
    criteria: usize,
    increments: usize,
    // How many events came.
    count: u32,
    // Those of the answers that stand, since a withdrawal brings an earlier one back; there is room for one a class.
    points: Vec<AnswerPoint>,
}

impl std::marker::Model for Survey {
    ghost use Rattle.std.specs.Prelude.{◌≡◌, ◌≤◌, length, vec_capacity};
    ghost use Rattle.criteria_model.specs.Worth.{increments as increments_of};
    ghost use Rattle.pair_enumeration.specs.Listed.{IsListed};
    ghost use Rattle.survey_core.specs.declared.limits.TheConstants.{MAX_EVENTS};
    ghost use Rattle.survey_core.specs.Points.{standing_points};
    ghost use Rattle.result_file.specs.Kept.{KeptSurvey};

    ghost Value = { KeptSurvey };

    ghost view = { λ s. record { format = s.format; survey = s.core } };

    ghost invariant = { λ s. record {
      listed : IsListed s.core.listed;
      criteria : s.criteria ≡ length s.core.listed.criteria.levels;
      increments : s.increments ≡ increments_of s.core.listed.criteria.levels;
      count : s.count ≡ length s.core.history;
      few : s.count ≤ MAX_EVENTS;
      points : s.points.items ≡ standing_points s.core.history;
      room : length s.core.listed.classes ≤ vec_capacity s.points;
    } };
}

impl Survey {
    /// No event yet. It takes all memory that is needed for more.
    pub(crate) fn of(alloc: Global, format: Format, model: Model) -> Result<Survey, Stop>
        ensures none { IfOk result (λ survey. StartsSurvey survey format model) }
        ensures failed { IfErr result (λ stop. stop ≡ Stop.NoMemory) }
    {
        let criteria = usize::from(model.criteria());
        let increments = usize::from(model.increments());
        let core = Core::new(alloc, &model)?;
        let points = Vec::with_capacity(alloc, model.class_count() as usize)?;
        Ok(Survey {
            format,
            core,
            criteria,
            increments,
            count: 0,
            points,
        })
    }

    /// Adds the event of a line, or says what stops the check there.
    pub(crate) fn add(&mut self, line: &[u8]) -> Result<(), Stop>
        ensures added { OnOk result (AddsEvent self.old self.new line.now) }
        ensures failed { IfErr result (λ stop.
            line.now ≢ end_line → StopsAt (begun (of_events self.old.format self.old.survey)) line.now stop) }
    {
        let Some(entry) = entry_of(line, self.format, self.criteria, self.increments) else {
            return Err(Stop::Wrong(Part::Form));
        };
        if self.count >= MAX_EVENTS {
            return Err(Stop::Wrong(Part::Limit));
        }
        let Some(event) = event_of(&self.core, &entry) else {
            return Err(Stop::Wrong(Part::Class));
        };
        if let Err(broken) = self.core.allowed(&event) {
            return Err(Stop::Wrong(Part::from(broken)));
        }
        self.core.apply(&event);
        follow(&mut self.points, &event);
        self.count += 1;
        Ok(())
    }

    /// Whether each class has an eliminate or a commit that stands.
    pub(crate) fn is_complete(&self) -> bool
        ensures { IsTrue result ↔ RanksEachClass self.now.survey.listed self.now.survey.history }
    {
        self.core.all_ranked()
    }

    /// What the events come to.
    pub(crate) fn core(&self) -> &Core
        ensures { result.now ≡ self.now.survey }
    {
        &self.core
    }

    /// What the events come to.
    pub(crate) fn into_core(self) -> Core
        ensures { result ≡ self.survey }
    {
        self.core
    }

    /// The point of the last answer that stands, or all ones where none does.
    pub(crate) fn point(&self) -> Vector
        ensures value { result ≡ last_point self.now.survey.listed.criteria.levels self.now.survey.history }
        ensures meets { MeetsAll self.now.survey.listed.criteria.levels (committed self.now.survey.listed.classes self.now.survey.history) result }
    {
        latest(self.points.as_slice(), &self.core.model())
    }
}

/// The event that a line of a result in the second format spells, for the model of `core`, whether or not it may follow there.
pub fn read_event(line: &[u8], core: &Core) -> Option<Event>
    ensures { MatchOption result
        ((event : SurveyEvent) → ¬ IsEventLine core.now.listed line.now event)
        (λ event. IsEventLine core.now.listed line.now event) }
{
    let model = core.model();
    let criteria = usize::from(model.criteria());
    let increments = usize::from(model.increments());
    let entry = entry_of(line, Format::Two, criteria, increments)?;
    event_of(core, &entry)
}

/// The event that an entry stands for, or none where its pair isn't a class.
fn event_of(core: &Core, entry: &Entry) -> Option<Event>
    ensures { MatchOption result
        (NamesNoClass core.now.listed.criteria entry.now)
        (λ event. Tells core.now.listed entry.now event) }
{
    match entry {
        Entry::Eliminate(
            Elimination {
                worker,
                pair,
                verdict,
                combination,
            },
        ) => Some(Event::Eliminate {
            worker: *worker,
            place: core.place(pair)?,
            verdict: *verdict,
            combination: *combination,
        }),
        Entry::Issue {
            desk,
            pair,
            plus,
            minus,
        } => Some(Event::Issue {
            desk: *desk,
            place: core.place(pair)?,
            plus: *plus,
            minus: *minus,
        }),
        Entry::Commit {
            desk,
            question,
            side,
            plus,
            minus,
            point,
        } => Some(Event::Commit {
            desk: *desk,
            question: *question,
            side: *side,
            plus: *plus,
            minus: *minus,
            point: *point,
        }),
        Entry::Close { desk, question } => Some(Event::Close {
            desk: *desk,
            question: *question,
        }),
        Entry::Withdraw { desk, answer } => Some(Event::Withdraw {
            desk: *desk,
            answer: *answer,
        }),
    }
}
