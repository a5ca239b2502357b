//! The state of a survey.
ghost use Rattle.std.specs.Prelude.{◌≡◌, ◌≢◌, ◌+◌, ◌*◌, ◌≤◌, [], length, take, IsTrue, IfOk, IfSome, OnOk, OnErr, MatchOption, if◌then◌else◌};
ghost use Rattle.pair_enumeration.specs.Listed.{IsListed};
ghost use Rattle.criteria_model.specs.Answers.{MeetsAll};
ghost use Rattle.answer_rows.specs.Room.{room_of};
ghost use Rattle.question_queue.specs.Pools.{new_pool, first_place, is_job, kept_at};
ghost use Rattle.survey_core.specs.Histories.{item_at, committed};
ghost use Rattle.survey_core.specs.Kinds.{is_withdraw};
ghost use Rattle.survey_core.specs.Legal.{IsEvent, IsPlace, IsUnranked, AreEarlierAsked, IsLegal, MayFollow};
ghost use Rattle.survey_core.specs.Laws.{last_point, RanksEachClass};
ghost use Rattle.survey_replies.specs.Interview.{answered};
ghost use Rattle.survey_state.specs.States.{Surveyed, changes_answers as changes, version_of, room_for_withdrawal, IsOffered, IsAppended, IsSnapshotOf, IsFirstUnranked, IsFirstDue, RankOppositely, IsKept, with_pool, with_given, with_kept};

use crate::offer::Offer;
use crate::pool::mark;
use answer_rows::common_front;
use criteria_model::{Model, Vector};
use decider::Snapshot;
use question_queue::{Kept, Pool};
use std::alloc::{AllocError as NoMemory, Global};
use survey_core::points::{AnswerPoint, follow, last_question, latest};
use survey_core::{Core, Event, MAX_EVENTS};

/// A survey in memory: a legal journal and what it comes to. Memory is taken by `new` and `make_room` only.
#[derive(Drop)]
pub struct State {
    core: Core,
    journal: Vec<Event>,
    // Those of the answers that stand, in order.
    points: Vec<AnswerPoint>,
    version: u32,
    pool: Pool,
}

// Clauses see the model with its classes, the journal, for how many more events there is memory, and the pool.
impl std::marker::Model for State {
    ghost use Rattle.std.specs.Prelude.{◌-◌, vec_len, vec_capacity};
    ghost use Rattle.survey_state.specs.States.{Surveyed, KeepsJournal};

    ghost Value = { Surveyed };

    ghost view = { λ s. record { listed = s.core.listed; journal = s.journal.items; spare = vec_capacity s.journal - vec_len s.journal; pool = s.pool } };

    ghost invariant = { λ s. KeepsJournal s.core s.journal.items s.points.items s.pool s.version (vec_capacity s.points) (vec_capacity s.journal - vec_len s.journal) };
}

impl State {
    /// The empty journal of a model, with memory for three events a class.
    ///
    /// # Errors
    ///
    /// Out of memory.
    pub fn new(alloc: Global, model: &Model) -> Result<State, NoMemory>
        ensures model { IfOk result (λ state. state.listed.criteria ≡ model.now) }
        ensures listed { IfOk result (λ state. IsListed state.listed) }
        ensures empty { IfOk result (λ state. state.journal ≡ []) }
        ensures room { IfOk result (λ state. 3 * length state.listed.classes ≤ state.spare) }
        ensures pool { IfOk result (λ state. state.pool ≡ new_pool (length state.listed.classes)) }
    {
        let core = Core::new(alloc, model)?;
        let count = model.class_count();
        let classes = count as usize;
        let journal = Vec::with_capacity(alloc, 3 * classes)?;
        let points = Vec::with_capacity(alloc, classes)?;
        let pool = Pool::new(alloc, count)?;
        Ok(State {
            core,
            journal,
            points,
            version: 0,
            pool,
        })
    }

    /// Puts the event at the end of the journal where it may follow. It takes no memory: a withdrawal needs
    /// [`State::make_room`] before.
    pub fn offer(&mut self, event: Event) -> Offer
        requires event { IsEvent self.old.listed.criteria.levels event }
        requires room { IsTrue (is_withdraw event) → room_for_withdrawal self.old.listed ≤ self.old.spare }
        ensures { IsOffered self.old self.new event result }
    {
        match self.core.allowed(&event) {
            Err(broken) => Offer::Stale(broken),
            Ok(()) => {
                self.record(event);
                Offer::Done
            }
        }
    }

    /// Puts an event that may follow at the end.
    fn record(&mut self, event: Event)
        requires event { IsEvent self.old.listed.criteria.levels event }
        requires allowed { MayFollow self.old.listed self.old.journal event }
        requires room { IsTrue (is_withdraw event) → room_for_withdrawal self.old.listed ≤ self.old.spare }
        ensures { IsAppended self.old self.new event }
    {
        self.core.apply(&event);
        mark(&mut self.pool, &self.core, &event);
        self.version = version_after(self.version, &event);
        follow(&mut self.points, &event);
        self.journal.push_reserved(event);
    }

    /// The number of events in the journal.
    pub fn length(&self) -> u32
        ensures value { result ≡ length self.now.journal }
        ensures listed { IsListed self.now.listed }
        ensures legal { IsLegal self.now.listed self.now.journal }
        ensures short { length self.now.journal ≤ MAX_EVENTS }
    {
        self.journal.len() as u32
    }

    /// The event at a place of the journal; places count from 1.
    pub fn event(&self, place: u32) -> Event
        requires low { 1 ≤ place }
        requires high { place ≤ length self.now.journal }
        ensures { item_at self.now.journal place ≡ Some result }
    {
        self.journal[place as usize - 1]
    }

    /// What the journal comes to.
    pub fn core(&self) -> &Core
        ensures listed { result.now.listed ≡ self.now.listed }
        ensures history { result.now.history ≡ self.now.journal }
    {
        &self.core
    }

    /// The point of the last answer that stands, or all ones where none does. It meets the answers.
    pub fn point(&self) -> Vector
        ensures value { result ≡ last_point self.now.listed.criteria.levels self.now.journal }
        ensures meets { MeetsAll self.now.listed.criteria.levels (committed self.now.listed.classes self.now.journal) result }
    {
        latest(self.points.as_slice(), &self.core.model())
    }

    /// The question of the last answer that stands.
    pub fn last_question(&self) -> Option<u32>
        ensures { result ≡ item_at (answered self.now.journal) (length (answered self.now.journal)) }
    {
        last_question(self.points.as_slice())
    }

    /// How often the answers changed: the number of commits and withdrawals.
    pub fn version(&self) -> u32
        ensures { result ≡ version_of self.now.journal }
    {
        self.version
    }

    /// Brings the snapshot's answers to the journal's: they are cut to those that both have in front, and as many of the
    /// others are copied as there is memory for. Returns how many are still missing; where none is, the snapshot has the
    /// point and the version too.
    pub fn snapshot_into(&self, snapshot: &mut Snapshot) -> u32
        ensures answers { snapshot.new.answers.answers ≡ take (room_of snapshot.old.answers) (committed self.now.listed.classes self.now.journal) }
        ensures missing { length snapshot.new.answers.answers + result ≡ length (committed self.now.listed.classes self.now.journal) }
        ensures room { room_of snapshot.new.answers ≡ room_of snapshot.old.answers }
        ensures whole { result ≡ 0 → IsSnapshotOf self.now.listed self.now.journal snapshot.new }
        ensures part { result ≢ 0 → (snapshot.new.point ≡ snapshot.old.point) × (snapshot.new.version ≡ snapshot.old.version) }
    {
        let answers = self.core.answers();
        let common = common_front(snapshot.answers.as_slice(), answers.as_slice());
        snapshot.answers.cut(common as u32);
        let missing = snapshot.answers.copy_from(answers);
        if missing == 0 {
            snapshot.point = self.point();
            snapshot.version = self.version;
        }
        missing
    }

    /// The first class that no event ranks.
    pub fn first_unranked(&self) -> Option<u32>
        ensures { MatchOption result (RanksEachClass self.now.listed self.now.journal) (λ place. IsFirstUnranked self.now.listed self.now.journal place) }
    {
        self.pool.first_unranked()
    }

    /// The first class that no event ranks and that was never asked.
    pub fn first_due(&self) -> Option<u32>
        ensures { MatchOption result (AreEarlierAsked self.now.journal (length self.now.listed.classes + 1)) (λ place. IsFirstDue self.now.listed self.now.journal place) }
    {
        self.pool.first_due()
    }

    /// Gives out the first class that no event ranks and that wasn't given out since the answers changed last.
    pub fn job(&mut self) -> Option<u32>
        ensures job { result ≡ first_place (is_job (version_of self.old.journal)) self.old.pool.marks }
        ensures given { self.new ≡ with_pool self.old (with_given self.old.pool (version_of self.old.journal)) }
        ensures open { IfSome result (λ place. IsPlace self.old.listed place × IsUnranked self.old.journal place) }
    {
        self.pool.next_job(self.version)
    }

    /// Keeps vectors of a class, of which no answers are known that they meet.
    pub fn keep(&mut self, place: u32, plus: Vector, minus: Vector)
        requires place { IsPlace self.old.listed place }
        requires vectors { RankOppositely self.old.listed place plus minus }
        ensures { self.new ≡ with_pool self.old (with_kept self.old.pool place (record { plus = plus; minus = minus; met = 0 })) }
    {
        self.keep_met(place, 0, plus, minus);
    }

    /// Keeps vectors of a class that meet the first `met` answers.
    pub fn keep_met(&mut self, place: u32, met: u32, plus: Vector, minus: Vector)
        requires place { IsPlace self.old.listed place }
        requires vectors { IsKept self.old.listed (committed self.old.listed.classes self.old.journal) place (record { plus = plus; minus = minus; met = met }) }
        ensures { self.new ≡ with_pool self.old (with_kept self.old.pool place (record { plus = plus; minus = minus; met = met })) }
    {
        self.pool.keep_met(place, met, plus, minus);
    }

    /// The vectors of a class that were kept last.
    pub fn kept(&self, place: u32) -> Option<Kept>
        requires { IsPlace self.now.listed place }
        ensures value { result ≡ kept_at self.now.pool.kept place }
        ensures kept { IfSome result (λ kept. IsKept self.now.listed (committed self.now.listed.classes self.now.journal) place kept) }
    {
        let (plus, minus) = self.pool.kept(place)?;
        let met = self.pool.met(place);
        Some(Kept { plus, minus, met })
    }

    /// Takes memory for a withdrawal and for all events that may follow it up to the next one.
    ///
    /// # Errors
    ///
    /// Out of memory.
    pub fn make_room(&mut self) -> Result<(), NoMemory>
        ensures listed { self.new.listed ≡ self.old.listed }
        ensures journal { self.new.journal ≡ self.old.journal }
        ensures pool { self.new.pool ≡ self.old.pool }
        ensures room { OnOk result (room_for_withdrawal self.old.listed ≤ self.new.spare) }
        ensures kept { self.old.spare ≤ self.new.spare }
        ensures err { OnErr result (self.new ≡ self.old) }
    {
        let classes = self.core.model().class_count() as usize;
        self.journal.reserve(3 * classes + 1)
    }
}

/// The number of changes of the answers, after the event.
fn version_after(version: u32, event: &Event) -> u32
    requires { version ≤ MAX_EVENTS }
    ensures { result ≡ version + (if changes event.now then 1 else 0) }
{
    match event {
        Event::Commit { .. } | Event::Withdraw { .. } => version + 1,
        _ => version,
    }
}

#[cfg(test)]
mod tests;
