//! What a history comes to, kept for each class and each question.
ghost use Rattle.std.specs.Prelude.{◌≡◌, ◌↔◌, ◌⊎◌, ◌+◌, ◌-◌, ◌<◌, ◌≤◌, [], ◌∷◌, ◌++◌, Some, None, length, map, replicate, count_by, slice_get, IsTrue, IsFalse, IfOk, MatchOption};
ghost use Rattle.std.specs.Option.{option_map};
ghost use Rattle.survey_core.specs.declared.marks.Mark.{Mark};
ghost use Rattle.survey_core.specs.declared.marks.Question.{Question};
ghost use Rattle.survey_core.specs.declared.marks.Ending.TheVariants.{Open as StillOpen};
ghost use Rattle.survey_core.specs.Histories.{item_at};
ghost use Rattle.survey_core.specs.Marked.{unmarked, is_ranking, is_elimination, is_settled, is_open, is_ranked_mark, is_open_mark, with_ranking, with_issued, with_ending, left_ranking, left_ending, left_mark, left_question, AreSettled};

use criteria_model::MAX_CLASSES;
use std::alloc::{AllocError as NoMemory, Global};

/// How an event ranks a class, and how many answers it needs.
#[derive(Clone, Copy)]
pub(crate) enum Ranking {
    Unranked,
    /// The last answer that the combination cites; 0 where it cites none.
    Eliminated { rests_on: u32 },
    /// The number of the class's answer.
    Committed { answer: u32 },
}

impl Ranking {
    /// Whether the class is ranked.
    pub fn is_ranked(&self) -> bool
        ensures { result ≡ is_ranking self.now }
    {
        match self {
            Ranking::Unranked => false,
            _ => true,
        }
    }

    /// Whether it is eliminated.
    pub fn is_eliminated(&self) -> bool
        ensures { result ≡ is_elimination self.now }
    {
        match self {
            Ranking::Eliminated { .. } => true,
            _ => false,
        }
    }

    /// What is left of it without this answer and later ones.
    fn without(self, answer: u32) -> Ranking
        ensures { result ≡ left_ranking answer self }
    {
        match self {
            Ranking::Eliminated { rests_on } if rests_on < answer => self,
            Ranking::Committed { answer: number } if number < answer => self,
            _ => Ranking::Unranked,
        }
    }
}

/// What is marked of a class.
#[derive(Clone, Copy)]
pub(crate) struct Mark {
    pub ranking: Ranking,
    pub issued: bool,
}

impl Mark {
    /// Whether the class is ranked or issued.
    fn is_settled(&self) -> bool
        ensures { result ≡ is_settled self.now }
    {
        self.ranking.is_ranked() || self.issued
    }
}

/// How a question ended.
#[derive(Clone, Copy)]
pub(crate) enum Ending {
    Open,
    /// The number of its answer.
    Committed { answer: u32 },
    /// How many answers there were when it was closed.
    Closed { rests_on: u32 },
}

impl Ending {
    /// Whether the question has not ended.
    pub fn is_open(&self) -> bool
        ensures { result ≡ is_open self.now }
    {
        match self {
            Ending::Open => true,
            _ => false,
        }
    }

    /// What is left of it without this answer and later ones.
    fn without(self, answer: u32) -> Ending
        ensures { result ≡ left_ending answer self }
    {
        match self {
            Ending::Committed { answer: number } if number < answer => self,
            Ending::Closed { rests_on } if rests_on < answer => self,
            _ => Ending::Open,
        }
    }
}

/// What is marked of a question; `place` is that of the class that it asks.
#[derive(Clone, Copy)]
pub(crate) struct Question {
    pub place: u32,
    pub ending: Ending,
}

/// A mark of each class, by its place, and of each question, by its number.
#[derive(Drop)]
pub(crate) struct Marks {
    classes: Vec<Mark>,
    questions: Vec<Question>,
    // How many classes are ranked, and how many questions are open.
    ranked: u32,
    open_count: u32,
    // How many classes in front are each ranked or issued; the next one is neither.
    settled: u32,
}

// Clauses see the marks; the counts follow from them.
impl std::marker::Model for Marks {
    ghost use Rattle.std.specs.Prelude.{vec_capacity};
    ghost use Rattle.survey_core.specs.Marked.{Table, IsTable};

    ghost Value = { Table };

    ghost view = { λ m. record { classes = m.classes.items; questions = m.questions.items } };

    ghost invariant = { λ m. IsTable (record { classes = m.classes.items; questions = m.questions.items }) (vec_capacity m.questions) m.ranked m.open_count m.settled };
}

impl Marks {
    /// Marks of a number of classes, none of them ranked or issued, with memory for as many questions.
    pub fn new(alloc: Global, classes: usize) -> Result<Marks, NoMemory>
        requires { classes ≤ MAX_CLASSES }
        ensures { IfOk result (λ marks. marks ≡ record { classes = replicate classes unmarked; questions = [] }) }
    {
        let unmarked = Mark {
            ranking: Ranking::Unranked,
            issued: false,
        };
        Ok(Marks {
            classes: vec![in alloc; unmarked; classes]?,
            questions: Vec::with_capacity(alloc, classes)?,
            ranked: 0,
            open_count: 0,
            settled: 0,
        })
    }

    /// The mark of the class at a place.
    pub fn class(&self, place: u32) -> Mark
        requires low { 1 ≤ place }
        requires high { place ≤ length self.now.classes }
        ensures { slice_get self.now.classes (place - 1) ≡ Some result }
    {
        self.classes[place as usize - 1]
    }

    /// The mark of the question of a number, where it was issued.
    pub fn question(&self, number: u32) -> Option<Question>
        ensures { MatchOption result
            ((number ≡ 0) ⊎ (length self.now.questions < number))
            (λ question. (1 ≤ number) × (slice_get self.now.questions (number - 1) ≡ Some question)) }
    {
        if number == 0 {
            return None;
        }
        self.questions.as_slice().get(number as usize - 1).copied()
    }

    /// The place of the class that the question of a number asks.
    pub fn asked_place(&self, number: u32) -> u32
        requires low { 1 ≤ number }
        requires high { number ≤ length self.now.questions }
        ensures { option_map (λ question. question.place) (item_at self.now.questions number) ≡ Some result }
    {
        self.questions[number as usize - 1].place
    }

    /// How many questions were issued.
    pub fn asked(&self) -> u32
        ensures { result ≡ length self.now.questions }
    {
        self.questions.len() as u32
    }

    /// How many questions are open.
    pub fn open_questions(&self) -> u32
        ensures { result ≡ count_by is_open_mark self.now.questions }
    {
        self.open_count
    }

    /// Whether each class is ranked.
    pub fn all_ranked(&self) -> bool
        ensures { IsTrue result ↔ (count_by is_ranked_mark self.now.classes ≡ length self.now.classes) }
    {
        self.ranked as usize == self.classes.len()
    }

    /// Whether each class before the place is ranked or issued.
    pub fn is_front(&self, place: u32) -> bool
        requires low { 1 ≤ place }
        requires high { place ≤ length self.now.classes }
        ensures { IsTrue result ↔ AreSettled self.now.classes (place - 1) }
    {
        place - 1 <= self.settled
    }

    /// Ranks a class that isn't ranked.
    pub fn rank(&mut self, place: u32, ranking: Ranking)
        requires low { 1 ≤ place }
        requires high { place ≤ length self.old.classes }
        requires before { (mark : Mark) → slice_get self.old.classes (place - 1) ≡ Some mark → mark.ranking ≡ Ranking.Unranked }
        requires after { IsTrue (is_ranking ranking) }
        ensures classes { self.new.classes ≡ with_ranking self.old.classes (place - 1) ranking }
        ensures questions { self.new.questions ≡ self.old.questions }
    {
        let mark = &mut self.classes[place as usize - 1];
        mark.ranking = ranking;
        self.ranked += 1;
        self.settled = settled_from(self.classes.as_slice(), self.settled as usize) as u32;
    }

    /// Issues a class that wasn't issued, as the next question.
    pub fn issue(&mut self, place: u32)
        requires low { 1 ≤ place }
        requires high { place ≤ length self.old.classes }
        requires before { (mark : Mark) → slice_get self.old.classes (place - 1) ≡ Some mark → IsFalse mark.issued }
        ensures classes { self.new.classes ≡ with_issued self.old.classes (place - 1) }
        ensures questions { self.new.questions ≡ self.old.questions ++ record { place = place; ending = StillOpen } ∷ [] }
    {
        let mark = &mut self.classes[place as usize - 1];
        mark.issued = true;
        self.questions.push_reserved(Question {
            place,
            ending: Ending::Open,
        });
        self.open_count += 1;
        self.settled = settled_from(self.classes.as_slice(), self.settled as usize) as u32;
    }

    /// Ends an open question.
    pub fn end(&mut self, number: u32, ending: Ending)
        requires low { 1 ≤ number }
        requires high { number ≤ length self.old.questions }
        requires before { (question : Question) → slice_get self.old.questions (number - 1) ≡ Some question → question.ending ≡ StillOpen }
        requires after { IsFalse (is_open ending) }
        ensures classes { self.new.classes ≡ self.old.classes }
        ensures questions { self.new.questions ≡ with_ending self.old.questions (number - 1) ending }
    {
        let question = &mut self.questions[number as usize - 1];
        question.ending = ending;
        self.open_count -= 1;
    }

    /// Takes back what rests on this answer or on later ones.
    pub fn withdraw(&mut self, answer: u32)
        ensures classes { self.new.classes ≡ map (left_mark answer) self.old.classes }
        ensures questions { self.new.questions ≡ map (left_question answer) self.old.questions }
    {
        unrank(self.classes.as_mut_slice(), answer);
        reopen(self.questions.as_mut_slice(), answer);
        self.ranked = count_ranked(self.classes.as_slice());
        self.open_count = count_open(self.questions.as_slice());
        self.settled = settled_from(self.classes.as_slice(), 0) as u32;
    }
}

/// How many classes in front are each ranked or issued, where those before `from` are.
fn settled_from(classes: &[Mark], from: usize) -> usize
    requires within { from ≤ length classes.now }
    requires front { AreSettled classes.now from }
    ensures front { AreSettled classes.now result }
    ensures next { (mark : Mark) → slice_get classes.now result ≡ Some mark → IsFalse (is_settled mark) }
    ensures within { result ≤ length classes.now }
{
    for place in from..classes.len() {
        if !classes[place].is_settled() {
            return place;
        }
    }
    classes.len()
}

/// How many classes are ranked.
fn count_ranked(classes: &[Mark]) -> u32
    requires { length classes.now ≤ MAX_CLASSES }
    ensures { result ≡ count_by is_ranked_mark classes.now }
{
    classes
        .iter()
        .filter(|mark| mark.ranking.is_ranked())
        .count() as u32
}

/// How many questions are open.
fn count_open(questions: &[Question]) -> u32
    requires { length questions.now ≤ MAX_CLASSES }
    ensures { result ≡ count_by is_open_mark questions.now }
{
    questions
        .iter()
        .filter(|question| question.ending.is_open())
        .count() as u32
}

/// Takes back the rankings that rest on this answer or on later ones.
fn unrank(classes: &mut [Mark], answer: u32)
    ensures { classes.new ≡ map (left_mark answer) classes.old }
{
    for mark in classes.iter_mut() {
        mark.ranking = mark.ranking.without(answer);
    }
}

/// Opens the questions again whose ends rest on this answer or on later ones.
fn reopen(questions: &mut [Question], answer: u32)
    ensures { questions.new ≡ map (left_question answer) questions.old }
{
    for question in questions.iter_mut() {
        question.ending = question.ending.without(answer);
    }
}
