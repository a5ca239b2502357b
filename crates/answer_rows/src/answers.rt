ghost use Rattle.std.specs.Prelude.{◌≡◌, min, ◌+◌, ◌-◌, ◌^◌, ◌<◌, ◌≤◌, [], ◌∷◌, ◌++◌, Some, length, take, slice_get, IsOk, IfOk, IfSome, OnOk, OnErr, vec_len, vec_capacity};
ghost use Rattle.std.specs.Option.{ForSome};
ghost use Rattle.criteria_model.specs.Answers.{gain};
ghost use Rattle.criteria_model.specs.Pairs.{IsFit};
ghost use Rattle.answer_rows.specs.Room.{room_of, BeginsWith};

use criteria_model::{Answer, Model, Row};
use std::alloc::{AllocError as NoMemory, Global};

/// A list of answers, numbered from 1, that keeps memory for `spare` more. Its length and `spare` together stay
/// below 2^32, and no call lessens their sum.
#[derive(Drop)]
pub struct Answers {
    items: Vec<Answer>,
    spare: u32,
}

// Clauses see the list and the number.
impl std::marker::Model for Answers {
    ghost use Rattle.std.specs.Prelude.{◌+◌, ◌^◌, ◌<◌, ◌≤◌, vec_len, vec_capacity};
    ghost use Rattle.answer_rows.specs.Room.{AnswersWithRoom};

    ghost Value = { AnswersWithRoom };

    ghost view = { λ list. record { answers = list.items.items; spare = list.spare } };

    ghost invariant = { λ list. (vec_len list.items + list.spare < 2 ^ 32) × (vec_len list.items + list.spare ≤ vec_capacity list.items) };
}

impl Answers {
    /// The empty list, with memory for `room` answers.
    pub fn reserve(alloc: Global, room: u32) -> Result<Answers, NoMemory>
        ensures empty { IfOk result (λ list. list.answers ≡ []) }
        ensures spare { IfOk result (λ list. room ≤ list.spare) }
    {
        let items = Vec::with_capacity(alloc, room as usize)?;
        Ok(Answers { items, spare: room })
    }

    /// Takes memory, so that `more` answers can be pushed.
    pub fn grow(&mut self, more: u32) -> Result<(), NoMemory>
        requires { length self.old.answers + more < 2 ^ 32 }
        ensures answers { self.new.answers ≡ self.old.answers }
        ensures spare { OnOk result (more ≤ self.new.spare) }
        ensures kept { self.old.spare ≤ self.new.spare }
        ensures enough { more ≤ self.old.spare → IsOk result × (self.new ≡ self.old) }
        ensures err { OnErr result (self.new ≡ self.old) }
    {
        if more <= self.spare {
            return Ok(());
        }
        self.items.reserve(more as usize)?;
        self.spare = spare_of(self.items.len(), self.items.capacity());
        Ok(())
    }

    /// Appends an answer; takes no memory.
    pub fn push(&mut self, answer: Answer)
        requires { 1 ≤ self.old.spare }
        ensures answers { self.new.answers ≡ self.old.answers ++ answer ∷ [] }
        ensures room { room_of self.new ≡ room_of self.old }
    {
        self.items.push_reserved(answer);
        self.spare -= 1;
    }

    /// The number of answers.
    pub fn len(&self) -> u32
        ensures value { result ≡ length self.now.answers }
        ensures room { room_of self.now < 2 ^ 32 }
    {
        self.items.len() as u32
    }

    /// The answer of a number.
    pub fn answer(&self, number: u32) -> Answer
        requires low { 1 ≤ number }
        requires high { number ≤ length self.now.answers }
        ensures { slice_get self.now.answers (number - 1) ≡ Some result }
    {
        self.items[number as usize - 1]
    }

    /// For each increment, whether the winner of the numbered answer has it minus whether the loser has it. Of an
    /// equal answer the left side counts as the winner.
    pub fn row_of(&self, model: &Model, number: u32) -> Row
        requires low { 1 ≤ number }
        requires high { number ≤ length self.now.answers }
        requires fits { ForSome (slice_get self.now.answers (number - 1)) (λ answer. IsFit model.now.levels answer.pair) }
        ensures { IfSome (slice_get self.now.answers (number - 1)) (λ answer. result ≡ gain model.now.levels answer.pair answer.side) }
    {
        let answer = &self.items[number as usize - 1];
        model.gain(&answer.pair, answer.side)
    }

    /// The answers, in order.
    pub fn as_slice(&self) -> &[Answer]
        ensures { result.now ≡ self.now.answers }
    {
        self.items.as_slice()
    }

    /// Appends what `other` has more, as far as the spare memory goes. Returns how many answers are still
    /// missing.
    pub fn copy_from(&mut self, other: &Answers) -> u32
        requires { BeginsWith other.now.answers self.old.answers }
        ensures answers { self.new.answers ≡ take (room_of self.old) other.now.answers }
        ensures missing { length self.new.answers + result ≡ length other.now.answers }
        ensures room { room_of self.new ≡ room_of self.old }
    {
        let held = self.items.len();
        let others = other.items.as_slice();
        let missing = others.len() - held;
        let copied = missing.min(self.spare as usize);
        append(&mut self.items, &others[held..held + copied]);
        self.spare -= copied as u32;
        (missing - copied) as u32
    }

    /// Keeps the first `len` answers; the memory of the others is spare again.
    pub fn cut(&mut self, len: u32)
        ensures answers { self.new.answers ≡ take len self.old.answers }
        ensures room { room_of self.new ≡ room_of self.old }
    {
        let held = self.items.len();
        self.items.truncate(len as usize);
        self.spare += (held - self.items.len()) as u32;
    }
}

// For how many more answers a vector has memory, as far as numbers below 2^32 go.
fn spare_of(len: usize, capacity: usize) -> u32
    requires low { len ≤ capacity }
    requires high { len < 2 ^ 32 }
    ensures { len + result ≡ min capacity (2 ^ 32 - 1) }
{
    (capacity - len).min(u32::MAX as usize - len) as u32
}

// Appends answers for which the vector has memory.
fn append(items: &mut Vec<Answer>, more: &[Answer])
    requires { vec_len items.old + length more.now ≤ vec_capacity items.old }
    ensures items { items.new.items ≡ items.old.items ++ more.now }
    ensures len { vec_len items.new ≡ vec_len items.old + length more.now }
    ensures capacity { vec_capacity items.old ≤ vec_capacity items.new }
{
    let _appended = items.extend_from_slice(more);
}

#[cfg(test)]
mod tests;
