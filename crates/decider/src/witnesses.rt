//! Vectors that are known to meet answers.
ghost use Rattle.std.specs.Prelude.{ℤ, ◌≡◌, ◌≢◌, ◌+◌, ◌≤◌, ◌<◌, [], length, slice_get, IsTrue, IfOk, IfSome, All, Some, pos, ◌<ℤ◌};
ghost use Rattle.criteria_model.specs.declared.pairs.Side.TheVariants.{Equal};
ghost use Rattle.row_laws.specs.Rows.{dot};
ghost use Rattle.criteria_model.specs.Worth.{increments, IsValueVector};
ghost use Rattle.criteria_model.specs.Pairs.{IsFit};
ghost use Rattle.criteria_model.specs.Answers.{Ranks, Meets, MeetsAll};
ghost use Rattle.answer_rows.specs.Room.{BeginsWith};
ghost use Rattle.simplex.specs.Rows.{IsCoprime};
ghost use Rattle.decider.specs.declared.witnesses.Witness.{Witness};
ghost use Rattle.decider.specs.Witnesses.{IsGaining};

use answer_rows::{Answers, common_front};
use criteria_model::{Model, Pair, Row, Side, Vector};
use fraction_free::NoMemory;
use std::alloc::Global;
use witness_check::meets_from;

/// How many vectors are kept at most.
pub const MAX_WITNESSES: usize = 96;

/// A vector, and how many of the answers, from the first on, it is known to meet.
#[derive(Clone, Copy)]
pub struct Witness {
    pub vector: Vector,
    pub met: u32,
}

/// Vectors that are known to meet the first answers of a list, which is kept beside them. A vector that fails a
/// later answer is dropped: all are tested where the list grew, else the one that would serve.
#[derive(Drop)]
pub struct Witnesses {
    model: Model,
    answers: Answers,
    kept: Vec<Witness>,
    // which vector is replaced next once there are as many as may be
    next: usize,
}

impl std::marker::Model for Witnesses {
    ghost use Rattle.std.specs.Prelude.{◌≤◌, ◌<◌, All, vec_len, vec_capacity};
    ghost use Rattle.decider.specs.declared.witnesses.TheConstants.{MAX_WITNESSES};
    ghost use Rattle.decider.specs.Witnesses.{IsWitness, WitnessesView};

    ghost Value = { WitnessesView };

    ghost view = { λ w. record { levels = w.model.levels; answers = w.answers; kept = w.kept.items } };

    ghost invariant = { λ w. All (IsWitness w.model.levels w.answers.answers) w.kept.items × (vec_len w.kept ≤ MAX_WITNESSES) × (MAX_WITNESSES ≤ vec_capacity w.kept) × (w.next < MAX_WITNESSES) };
}

impl Witnesses {
    /// No vectors, with memory for the greatest number of them and for an answer a class.
    pub fn reserve(alloc: Global, model: &Model) -> Result<Witnesses, NoMemory>
        ensures { IfOk result (λ witnesses. witnesses.kept ≡ []) }
    {
        let answers = Answers::reserve(alloc, model.class_count())?;
        let kept = Vec::with_capacity(alloc, MAX_WITNESSES)?;
        Ok(Witnesses {
            model: *model,
            answers,
            kept,
            next: 0,
        })
    }

    /// Sees that the answers are known. Where they don't begin with those that were, all vectors are dropped.
    fn follow(&mut self, model: &Model, answers: &Answers)
        ensures levels { self.new.levels ≡ model.now.levels }
        ensures begins { BeginsWith answers.now.answers self.new.answers.answers }
    {
        if !self.know(model, answers) {
            self.forget(model);
        }
        self.take_over(answers);
    }

    /// Whether the model is that of the vectors, and the answers begin with the known ones.
    fn know(&self, model: &Model, answers: &Answers) -> bool
        ensures levels { IsTrue result → self.now.levels ≡ model.now.levels }
        ensures begins { IsTrue result → BeginsWith answers.now.answers self.now.answers.answers }
    {
        let known = self.answers.as_slice();
        has_same_levels(&self.model, model)
            && common_front(answers.as_slice(), known) == known.len()
    }

    /// Drops all vectors and answers.
    fn forget(&mut self, model: &Model)
        ensures levels { self.new.levels ≡ model.now.levels }
        ensures answers { self.new.answers.answers ≡ [] }
    {
        self.kept.clear();
        self.answers.cut(0);
        self.model = *model;
    }

    /// Takes over what the answers have more than the known ones.
    fn take_over(&mut self, answers: &Answers)
        requires { BeginsWith answers.now.answers self.old.answers.answers }
        ensures levels { self.new.levels ≡ self.old.levels }
        ensures begins { BeginsWith answers.now.answers self.new.answers.answers }
    {
        let _missing = self.answers.copy_from(answers);
    }

    /// Where there are more answers than the known ones, drops the vectors that fail one of them: each new answer rules
    /// out some, and those that are left are all worth a product.
    fn catch_up(&mut self, model: &Model, answers: &Answers)
        requires levels { self.old.levels ≡ model.now.levels }
        requires fit { All (λ answer. IsFit model.now.levels answer.pair) answers.now.answers }
        ensures { self.new.levels ≡ model.now.levels }
    {
        if self.answers.len() < answers.len() {
            self.follow(model, answers);
            self.drop_failing(model, answers);
        }
    }

    /// Drops the vectors that fail one of the answers, which begin with the known ones.
    fn drop_failing(&mut self, model: &Model, answers: &Answers)
        requires levels { self.old.levels ≡ model.now.levels }
        requires begins { BeginsWith answers.now.answers self.old.answers.answers }
        requires fit { All (λ answer. IsFit model.now.levels answer.pair) answers.now.answers }
        ensures { self.new.levels ≡ model.now.levels }
    {
        let mut place = 0;
        'vectors: while place < self.count() {
            if self.meets_all(model, answers, place) {
                let _vector = self.confirm(place);
                place += 1;
            } else {
                self.drop_at(place);
            }
        }
    }

    /// How many vectors there are.
    fn count(&self) -> usize
        ensures { result ≡ length self.now.kept }
    {
        self.kept.len()
    }

    /// The place of the first vector from `from` on by which the row is positive.
    fn first_gaining(&self, row: &Row, from: usize) -> Option<usize>
        requires { length row.now ≡ increments self.now.levels }
        ensures { IfSome result (λ place. IsGaining self.now.kept row.now from place) }
    {
        for place in from..self.kept.len() {
            if self.kept[place].vector.dot(row) > 0 {
                return Some(place);
            }
        }
        None
    }

    /// Whether the vector at a place meets all the answers, which begin with the known ones.
    fn meets_all(&self, model: &Model, answers: &Answers, place: usize) -> bool
        requires levels { self.now.levels ≡ model.now.levels }
        requires begins { BeginsWith answers.now.answers self.now.answers.answers }
        requires within { place < length self.now.kept }
        requires fit { All (λ answer. IsFit model.now.levels answer.pair) answers.now.answers }
        ensures { IsTrue result → (witness : Witness) → slice_get self.now.kept place ≡ Some witness → MeetsAll model.now.levels answers.now.answers witness.vector × IsCoprime witness.vector }
    {
        let witness = &self.kept[place];
        meets_from(model, answers, witness.met, &witness.vector)
    }

    /// A vector that meets the answers and ranks the pair so, if there is one among those that are kept. One that
    /// would serve and fails is dropped.
    pub fn find(
        &mut self,
        model: &Model,
        answers: &Answers,
        pair: &Pair,
        side: Side,
    ) -> Option<Vector>
        requires strict { side ≢ Equal }
        requires answers_fit { All (λ answer. IsFit model.now.levels answer.pair) answers.now.answers }
        requires pair_fits { IsFit model.now.levels pair.now }
        ensures { IfSome result (λ vector. MeetsAll model.now.levels answers.now.answers vector × Ranks model.now.levels vector pair.now side × IsCoprime vector) }
    {
        if !has_same_levels(&self.model, model) {
            return None;
        }
        self.catch_up(model, answers);
        let gain = model.gain(pair, side);
        if self.first_gaining(&gain, 0).is_none() {
            return None;
        }
        self.follow(model, answers);
        self.first_meeting(model, answers, &gain)
    }

    /// A vector that meets the answers, which begin with the known ones, and by which the row is positive, if there
    /// is one among those that are kept.
    fn first_meeting(&mut self, model: &Model, answers: &Answers, row: &Row) -> Option<Vector>
        requires levels { self.old.levels ≡ model.now.levels }
        requires begins { BeginsWith answers.now.answers self.old.answers.answers }
        requires fit { All (λ answer. IsFit model.now.levels answer.pair) answers.now.answers }
        requires row { length row.now ≡ increments model.now.levels }
        ensures { IfSome result (λ vector. MeetsAll model.now.levels answers.now.answers vector × (pos 0 <ℤ dot vector row.now) × IsCoprime vector) }
    {
        let mut from = 0;
        'witnesses: loop {
            let Some(place) = self.first_gaining(row, from) else {
                return None;
            };
            if self.meets_all(model, answers, place) {
                return Some(self.confirm(place));
            }
            self.drop_at(place);
            from = place;
        }
    }

    /// Notes that the vector at a place meets all the known answers.
    fn confirm(&mut self, place: usize) -> Vector
        requires within { place < length self.old.kept }
        requires meets { (witness : Witness) → slice_get self.old.kept place ≡ Some witness → All (Meets self.old.levels witness.vector) self.old.answers.answers }
        ensures vector { (witness : Witness) → slice_get self.old.kept place ≡ Some witness → result ≡ witness.vector }
        ensures levels { self.new.levels ≡ self.old.levels }
        ensures answers { self.new.answers ≡ self.old.answers }
        ensures len { length self.new.kept ≡ length self.old.kept }
    {
        let vector = self.kept[place].vector;
        let met = self.answers.len();
        self.kept[place] = Witness { vector, met };
        vector
    }

    /// Drops the vector at a place.
    fn drop_at(&mut self, place: usize)
        requires { place < length self.old.kept }
        ensures levels { self.new.levels ≡ self.old.levels }
        ensures answers { self.new.answers ≡ self.old.answers }
        ensures len { length self.new.kept + 1 ≡ length self.old.kept }
    {
        let _dropped = self.kept.swap_remove(place);
    }

    /// Keeps a vector that meets the answers, in place of another where there are as many as may be.
    pub fn keep(&mut self, model: &Model, answers: &Answers, vector: &Vector)
        requires meets { MeetsAll model.now.levels answers.now.answers vector.now }
        requires coprime { IsCoprime vector.now }
    {
        self.follow(model, answers);
        self.put(vector);
    }

    /// Keeps a vector that meets the known answers.
    fn put(&mut self, vector: &Vector)
        requires vector { IsValueVector self.old.levels vector.now }
        requires meets { All (Meets self.old.levels vector.now) self.old.answers.answers }
        requires coprime { IsCoprime vector.now }
    {
        let witness = Witness {
            vector: *vector,
            met: self.answers.len(),
        };
        if self.kept.len() < MAX_WITNESSES {
            self.kept.push_reserved(witness);
        } else {
            self.kept[self.next] = witness;
            self.next = (self.next + 1) % MAX_WITNESSES;
        }
    }
}

/// Whether the models have the same level counts.
fn has_same_levels(one: &Model, other: &Model) -> bool
    ensures { IsTrue result → one.now.levels ≡ other.now.levels }
{
    if one.criteria() != other.criteria() {
        return false;
    }
    for at in 0..one.criteria() {
        if one.levels(at + 1) != other.levels(at + 1) {
            return false;
        }
    }
    true
}
