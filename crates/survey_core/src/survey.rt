ghost use Rattle.std.specs.Prelude.{◌≡◌, ◌↔◌, ◌-◌, ◌<◌, ◌≤◌, [], ◌∷◌, ◌++◌, Some, length, IsTrue, All, IsSomeAnd, IfOk, IsSome, IfSome, MatchOption, unsigned_abs};
ghost use Rattle.criteria_model.specs.Worth.{increments, IsValueVector};
ghost use Rattle.criteria_model.specs.declared.pairs.Answer.{Answer};
ghost use Rattle.farkas_check.specs.Flaws.{IsFirstFlaw};
ghost use Rattle.criteria_model.specs.Answers.{MeetsAll};
ghost use Rattle.criteria_model.specs.Pairs.{IsFit};
ghost use Rattle.criteria_model.specs.Classes.{IsClass};
ghost use Rattle.pair_enumeration.specs.Listed.{IsListed};
ghost use Rattle.survey_core.specs.Histories.{issued, is_issued, place_of, class_at, committed, is_ranked, is_eliminated, open_questions, IsOpenQuestion, withdrawals as withdrawals_of};
ghost use Rattle.survey_core.specs.Legal.{IsEvent, IsPlace, AreEarlierAsked, OpensClass, eliminate_parts, issue_parts, commit_parts, close_parts, withdraw_parts, parts, IsLastAnswer, IsSpent, MayFollow, IsLegal};
ghost use Rattle.survey_core.specs.Laws.{last_point, RanksEachClass};
ghost use Rattle.survey_core.specs.Marked.{greatest_cited};
ghost use Rattle.survey_core.specs.Parts.{IsVerdictOn};
ghost use Rattle.survey_core.specs.States.{HasState};

use crate::broken::Broken;
use crate::events::Event;
use crate::limits::{MAX_EVENTS, MAX_OPEN_QUESTIONS, spent};
use crate::marks::{Ending, Marks, Ranking};
use crate::questions::QuestionState;
use answer_rows::Answers;
use criteria_model::{Answer, CERTIFICATE_BOUND, Model, Pair, Side, Vector};
use farkas_check::{Cites, Combination, Flaw};
use pair_enumeration::Classes;
use std::alloc::{AllocError as NoMemory, Global};
use std::snapshot::Snapshot;
use witness_check::{meets, opens};

/// A legal history of a model: what may follow it, and what it comes to. It takes all its memory when it is made.
#[derive(Drop)]
pub struct Core {
    classes: Classes,
    answers: Answers,
    marks: Marks,
    withdrawals: u32,
    // The history. A snapshot has no bytes, so this is a count at run time.
    events: Vec<Snapshot<Event>>,
}

// Clauses see the model, its classes and the history.
impl std::marker::Model for Core {
    ghost use Rattle.survey_core.specs.Recorded.{Recorded};

    ghost Value = { Recorded };

    ghost use Rattle.std.specs.Prelude.{map};

    ghost view = { λ c. record { listed = c.classes; history = map (λ event. event.value) c.events.items } };

    ghost use Rattle.std.specs.Prelude.{vec_capacity};
    ghost use Rattle.survey_core.specs.Marked.{KeepsHistory};

    ghost invariant = { λ c. KeepsHistory c.classes (map (λ event. event.value) c.events.items) c.answers c.marks c.withdrawals (vec_capacity c.events) };
}

impl Core {
    /// The empty history, with memory for every legal one.
    pub fn new(alloc: Global, model: &Model) -> Result<Core, NoMemory>
        ensures model { IfOk result (λ core. core.listed.criteria ≡ model.now) }
        ensures listed { IfOk result (λ core. IsListed core.listed) }
        ensures empty { IfOk result (λ core. core.history ≡ []) }
    {
        let classes = Classes::list(alloc, model)?;
        let count = classes.count();
        let answers = Answers::reserve(alloc, count)?;
        let marks = Marks::new(alloc, count as usize)?;
        let events = Vec::with_capacity(alloc, MAX_EVENTS as usize)?;
        Ok(Core {
            classes,
            answers,
            marks,
            withdrawals: 0,
            events,
        })
    }

    /// Whether the event may follow the history.
    ///
    /// # Errors
    ///
    /// The first part that the event lacks.
    pub fn allowed(&self, event: &Event) -> Result<(), Broken>
        requires { IsEvent self.now.listed.criteria.levels event.now }
        ensures { IsVerdictOn (parts self.now.listed self.now.history event.now) result }
    {
        match event {
            Event::Eliminate {
                place,
                verdict,
                combination,
                ..
            } => self.may_eliminate(*place, *verdict, combination),
            Event::Issue {
                place,
                plus,
                minus,
                ..
            } => self.may_issue(*place, plus, minus),
            Event::Commit {
                question,
                side,
                plus,
                minus,
                point,
                ..
            } => self.may_commit(*question, *side, plus, minus, point),
            Event::Close { question, .. } => self.may_close(*question),
            Event::Withdraw { answer, .. } => self.may_withdraw(*answer),
        }
    }

    /// Whether the class at the place may be eliminated by the combination.
    fn may_eliminate(
        &self,
        place: u32,
        verdict: Side,
        combination: &Combination,
    ) -> Result<(), Broken>
        requires len { length combination.now.increments ≡ increments self.now.listed.criteria.levels }
        requires scale { unsigned_abs combination.now.scale < CERTIFICATE_BOUND }
        ensures { IsVerdictOn (eliminate_parts self.now.listed self.now.history place verdict combination.now) result }
    {
        if !self.has_class(place) {
            return Err(Broken::Class);
        }
        if self.is_ranked(place) {
            return Err(Broken::Ranked);
        }
        match self.flaw(place, verdict, combination) {
            Some(flaw) => Err(Broken::Flaw(flaw)),
            None => Ok(()),
        }
    }

    /// What keeps the combination from proving the verdict, or none.
    fn flaw(&self, place: u32, verdict: Side, combination: &Combination) -> Option<Flaw>
        requires place { IsPlace self.now.listed place }
        requires len { length combination.now.increments ≡ increments self.now.listed.criteria.levels }
        requires scale { unsigned_abs combination.now.scale < CERTIFICATE_BOUND }
        ensures { IsSomeAnd (class_at self.now.listed.classes place)
            (λ pair. IsFirstFlaw self.now.listed.criteria.levels (committed self.now.listed.classes self.now.history) combination.now pair verdict result) }
    {
        let model = self.classes.model();
        let pair = self.classes.class(place);
        farkas_check::flaw(&model, &self.answers, combination, &pair, verdict)
    }

    /// Whether a class has the place.
    fn has_class(&self, place: u32) -> bool
        ensures { IsTrue result ↔ IsPlace self.now.listed place }
    {
        place >= 1 && place <= self.classes.count()
    }

    /// Whether the class at the place may be issued with these vectors.
    fn may_issue(&self, place: u32, plus: &Vector, minus: &Vector) -> Result<(), Broken>
        requires plus { IsValueVector self.now.listed.criteria.levels plus.now }
        requires minus { IsValueVector self.now.listed.criteria.levels minus.now }
        ensures { IsVerdictOn (issue_parts self.now.listed self.now.history place plus.now minus.now) result }
    {
        if !self.has_class(place) {
            return Err(Broken::Class);
        }
        if self.is_ranked(place) {
            return Err(Broken::Ranked);
        }
        if self.is_issued(place) {
            return Err(Broken::Asked);
        }
        if self.open_questions() >= MAX_OPEN_QUESTIONS {
            return Err(Broken::Full);
        }
        if !self.is_front(place) {
            return Err(Broken::Earlier);
        }
        if !self.is_opened(place, plus, minus) {
            return Err(Broken::Vectors);
        }
        Ok(())
    }

    /// Whether the class at the place was issued.
    fn is_issued(&self, place: u32) -> bool
        requires { IsPlace self.now.listed place }
        ensures { result ≡ is_issued self.now.history place }
    {
        self.marks.class(place).issued
    }

    /// Whether each class before the place is ranked by an event or was issued.
    fn is_front(&self, place: u32) -> bool
        requires { IsPlace self.now.listed place }
        ensures { IsTrue result ↔ AreEarlierAsked self.now.history place }
    {
        self.marks.is_front(place)
    }

    /// Whether the two vectors open the class at the place.
    fn is_opened(&self, place: u32, plus: &Vector, minus: &Vector) -> bool
        requires place { IsPlace self.now.listed place }
        requires plus { IsValueVector self.now.listed.criteria.levels plus.now }
        requires minus { IsValueVector self.now.listed.criteria.levels minus.now }
        ensures { IsTrue result ↔ OpensClass self.now.listed self.now.history place plus.now minus.now }
    {
        let model = self.classes.model();
        let pair = self.classes.class(place);
        opens(&model, &self.answers, &pair, plus, minus)
    }

    /// Whether the question may be answered so, with these vectors and this point.
    fn may_commit(
        &self,
        question: u32,
        side: Side,
        plus: &Vector,
        minus: &Vector,
        point: &Vector,
    ) -> Result<(), Broken>
        requires plus { IsValueVector self.now.listed.criteria.levels plus.now }
        requires minus { IsValueVector self.now.listed.criteria.levels minus.now }
        requires point { IsValueVector self.now.listed.criteria.levels point.now }
        ensures { IsVerdictOn (commit_parts self.now.listed self.now.history question side plus.now minus.now point.now) result }
    {
        let Some(place) = self.open_place(question) else {
            return Err(Broken::Question);
        };
        if self.is_eliminated(place) {
            return Err(Broken::Ranked);
        }
        if !self.is_opened(place, plus, minus) {
            return Err(Broken::Vectors);
        }
        if !self.is_met(place, side, point) {
            return Err(Broken::Point);
        }
        Ok(())
    }

    /// The place of the class that an open question asks.
    fn open_place(&self, question: u32) -> Option<u32>
        ensures { MatchOption result
            (¬ IsOpenQuestion self.now.history question)
            (λ place. IsOpenQuestion self.now.history question × (place_of (issued self.now.history) question ≡ Some place) × IsPlace self.now.listed place) }
    {
        let question = self.marks.question(question)?;
        if question.ending.is_open() {
            Some(question.place)
        } else {
            None
        }
    }

    /// Whether the point meets the answers and that the class is ranked so.
    fn is_met(&self, place: u32, side: Side, point: &Vector) -> bool
        requires place { IsPlace self.now.listed place }
        requires point { IsValueVector self.now.listed.criteria.levels point.now }
        ensures { IsTrue result ↔ IsSomeAnd (class_at self.now.listed.classes place)
            (λ pair. MeetsAll self.now.listed.criteria.levels
            (committed self.now.listed.classes self.now.history ++ record { pair = pair; side = side } ∷ []) point.now) }
    {
        let model = self.classes.model();
        let pair = self.classes.class(place);
        meets(&model, &self.answers, point) && model.ranking(point, &pair) == side
    }

    /// Whether the question may be closed.
    fn may_close(&self, question: u32) -> Result<(), Broken>
        ensures { IsVerdictOn (close_parts self.now.history question) result }
    {
        let Some(place) = self.open_place(question) else {
            return Err(Broken::Question);
        };
        if !self.is_eliminated(place) {
            return Err(Broken::Unranked);
        }
        Ok(())
    }

    /// Whether the answer may be taken back.
    fn may_withdraw(&self, answer: u32) -> Result<(), Broken>
        ensures { IsVerdictOn (withdraw_parts self.now.listed self.now.history answer) result }
    {
        if !self.is_last_answer(answer) {
            return Err(Broken::Nothing);
        }
        if self.is_spent() {
            return Err(Broken::Spent);
        }
        Ok(())
    }

    /// Whether it is the number of the last answer.
    fn is_last_answer(&self, answer: u32) -> bool
        ensures { IsTrue result ↔ IsLastAnswer self.now.listed self.now.history answer }
    {
        answer >= 1 && answer == self.answers().len()
    }

    /// Whether no further withdrawal is allowed.
    fn is_spent(&self) -> bool
        ensures { IsTrue result ↔ IsSpent (length self.now.listed.classes) (withdrawals_of self.now.history) }
    {
        spent(self.classes.count(), self.withdrawals)
    }

    /// Puts an event that may follow at the end of the history. It takes no memory.
    pub fn apply(&mut self, event: &Event)
        requires event { IsEvent self.old.listed.criteria.levels event.now }
        requires allowed { MayFollow self.old.listed self.old.history event.now }
        ensures listed { self.new.listed ≡ self.old.listed }
        ensures history { self.new.history ≡ self.old.history ++ event.now ∷ [] }
        ensures legal { IsLegal self.new.listed self.new.history }
        ensures met { MeetsAll self.new.listed.criteria.levels (committed self.new.listed.classes self.new.history) (last_point self.new.listed.criteria.levels self.new.history) }
    {
        self.events.push_reserved(Snapshot::of(event));
        match event {
            Event::Eliminate {
                place,
                combination,
                ..
            } => {
                let rests_on = last_cited(&combination.answers);
                self.marks.rank(*place, Ranking::Eliminated { rests_on });
            }
            Event::Issue { place, .. } => self.marks.issue(*place),
            Event::Commit { question, side, .. } => {
                let answer = self.answers.len() + 1;
                let place = self.marks.asked_place(*question);
                let pair = self.classes.class(place);
                self.answers.push(Answer { pair, side: *side });
                self.marks.rank(place, Ranking::Committed { answer });
                self.marks.end(*question, Ending::Committed { answer });
            }
            Event::Close { question, .. } => {
                let rests_on = self.answers.len();
                self.marks.end(*question, Ending::Closed { rests_on });
            }
            Event::Withdraw { answer, .. } => {
                self.answers.cut(*answer - 1);
                self.marks.withdraw(*answer);
                self.withdrawals += 1;
            }
        }
    }

    /// The model.
    pub fn model(&self) -> Model
        ensures value { result ≡ self.now.listed.criteria }
        ensures listed { IsListed self.now.listed }
        ensures legal { IsLegal self.now.listed self.now.history }
        ensures short { length self.now.history ≤ MAX_EVENTS }
    {
        self.classes.model()
    }

    /// The standing answers, in order.
    pub fn answers(&self) -> &Answers
        ensures value { result.now.answers ≡ committed self.now.listed.classes self.now.history }
        ensures fit { All (λ answer. IsFit self.now.listed.criteria.levels answer.pair) result.now.answers }
        ensures few { length result.now.answers ≤ length self.now.listed.classes }
    {
        &self.answers
    }

    /// Whether the class at the place has an eliminate or a commit that stands.
    pub fn is_ranked(&self, place: u32) -> bool
        requires { IsPlace self.now.listed place }
        ensures { result ≡ is_ranked self.now.history place }
    {
        self.marks.class(place).ranking.is_ranked()
    }

    /// Whether the class at the place has an eliminate that stands.
    pub fn is_eliminated(&self, place: u32) -> bool
        requires { IsPlace self.now.listed place }
        ensures { result ≡ is_eliminated self.now.history place }
    {
        self.marks.class(place).ranking.is_eliminated()
    }

    /// Whether each class has an eliminate or a commit that stands.
    pub fn all_ranked(&self) -> bool
        ensures { IsTrue result ↔ RanksEachClass self.now.listed self.now.history }
    {
        self.marks.all_ranked()
    }

    /// The number of questions that were asked.
    pub fn asked(&self) -> u32
        ensures { result ≡ length (issued self.now.history) }
    {
        self.marks.asked()
    }

    /// The number of open questions.
    pub fn open_questions(&self) -> u32
        ensures { result ≡ length (open_questions self.now.history) }
    {
        self.marks.open_questions()
    }

    /// What became of the question of a number.
    pub fn question(&self, number: u32) -> QuestionState
        ensures { HasState self.now.listed self.now.history number result }
    {
        match self.marks.question(number) {
            None => QuestionState::Never,
            Some(question) if question.ending.is_open() => QuestionState::Live {
                place: question.place,
            },
            Some(question) => QuestionState::Gone {
                place: question.place,
            },
        }
    }

    /// The class at a place; places count from 1.
    pub fn class(&self, place: u32) -> Pair
        requires { IsPlace self.now.listed place }
        ensures value { class_at self.now.listed.classes place ≡ Some result }
        ensures class { IsClass self.now.listed.criteria result }
    {
        self.classes.class(place)
    }

    /// The place of a class, or none where the pair isn't a class of the model.
    pub fn place(&self, pair: &Pair) -> Option<u32>
        ensures some { IsSome result ↔ IsClass self.now.listed.criteria pair.now }
        ensures found { IfSome result (λ place. class_at self.now.listed.classes place ≡ Some pair.now) }
    {
        self.classes.place(pair)
    }

    /// The number of withdrawals.
    pub fn withdrawals(&self) -> u32
        ensures { result ≡ withdrawals_of self.now.history }
    {
        self.withdrawals
    }
}

/// The greatest number of a cited answer, which is that of the last cite; 0 where none is cited.
#[tactic(auto, using(crate::proofs::CitedLemmas::greatest_last))]
fn last_cited(cites: &Cites) -> u32
    ensures { result ≡ greatest_cited cites.now }
{
    let count = cites.len();
    if count == 0 {
        return 0;
    }
    cites.cite(count).answer
}

#[cfg(test)]
mod tests;
