ghost use Rattle.std.specs.Prelude.{◌≡◌, ◌↔◌, ◌-◌, ◌*◌, ◌^◌, ◌<◌, ◌≤◌, Some, None, length, slice_get, MatchResult, IsTrue, unsigned_abs};
ghost use Rattle.criteria_model.specs.declared.pairs.Side.{Side};
ghost use Rattle.criteria_model.specs.declared.pairs.Side.TheVariants.{Left as LeftSide};
ghost use Rattle.row_laws.specs.Rows.{minus};
ghost use Rattle.criteria_model.specs.Worth.{increments as increment_count, has, worth};
ghost use Rattle.criteria_model.specs.Counts.{class_count as count_of_classes};
ghost use Rattle.criteria_model.specs.Criteria.{IsModel};
ghost use Rattle.criteria_model.specs.Faults.{model_fault};
ghost use Rattle.criteria_model.specs.Alternatives.{HasDominance, filled, degree as degree_between};
ghost use Rattle.criteria_model.specs.Pairs.{IsFit};
ghost use Rattle.criteria_model.specs.Answers.{Ranks, gain as gain_of};
ghost use Rattle.criteria_model.specs.Classes.{IsClass as IsClassOf};

use crate::counting::{count_classes, count_increments, first_low, tuple_of};
use crate::differences::differences;
use crate::faults::ModelFault;
use crate::levels::{
    all_fit, degree, is_cancelled, is_left_first, is_somewhere_higher, is_undominated,
};
use crate::limits::{CERTIFICATE_BOUND, MAX_CLASSES, MAX_INCREMENTS, MAX_LEVEL};
use crate::pairs::{Dominance, Pair, Side};
use crate::rows::Row;
use crate::tuples::Tuple;
use crate::vectors::Vector;
use std::cmp::Ordering;

/// The level counts of the criteria and the greatest degree of a question, within this project's limits.
#[derive(Clone, Copy, PartialEq, Eq, Debug)]
pub struct Model {
    counts: Tuple,
    limit: u8,
    steps: u8,
    classes: u32,
}

// Clauses see the level counts and the degree limit.
impl std::marker::Model for Model {
    ghost use Rattle.std.specs.Prelude.{◌≡◌};
    ghost use Rattle.criteria_model.specs.Worth.{increments};
    ghost use Rattle.criteria_model.specs.Counts.{class_count};
    ghost use Rattle.criteria_model.specs.Criteria.{Criteria, IsModel};

    ghost Value = { Criteria };

    ghost view = { λ m. record { levels = m.counts; degree = m.limit } };

    ghost invariant = { λ m. IsModel (record { levels = m.counts; degree = m.limit }) × (m.steps ≡ increments m.counts) × (m.classes ≡ class_count m.counts m.limit) };

    ghost inverse = { λ c. record { counts = c.levels; limit = c.degree; steps = increments c.levels; classes = class_count c.levels c.degree } };

    ghost use Rattle.std.proofs.Common.{sym};

    ghost inverse_ok = { λ m h i. record {
      counts = m.counts;
      limit = m.limit;
      steps = sym h.1 i;
      classes = sym h.2 i;
    } };
}

impl Model {
    /// The number of increments.
    pub fn increments(&self) -> u8
        ensures value { result ≡ increment_count self.now.levels }
        ensures model { IsModel self.now }
    {
        self.steps
    }

    /// The number of criteria.
    pub fn criteria(&self) -> u8
        ensures value { result ≡ length self.now.levels }
        ensures model { IsModel self.now }
    {
        self.counts.len() as u8
    }

    /// The number of levels of a criterion; criteria count from 1.
    pub fn levels(&self, criterion: u8) -> u8
        requires low { 1 ≤ criterion }
        requires high { criterion ≤ length self.now.levels }
        ensures value { slice_get self.now.levels (criterion - 1) ≡ Some result }
        ensures range { (2 ≤ result) × (result ≤ MAX_LEVEL) }
    {
        self.counts.item(usize::from(criterion))
    }

    /// The greatest degree of a question.
    pub fn degree(&self) -> u8
        ensures value { result ≡ self.now.degree }
        ensures model { IsModel self.now }
    {
        self.limit
    }

    /// The number of classes.
    pub fn class_count(&self) -> u32
        ensures value { result ≡ count_of_classes self.now.levels self.now.degree }
        ensures model { IsModel self.now }
    {
        self.classes
    }

    /// The model of criteria with these numbers of levels, from the first criterion on, and the greatest degree
    /// of a question.
    ///
    /// # Errors
    ///
    /// The first fault that holds, in the order in which [`ModelFault`] lists them.
    pub fn new(levels: &[u32], degree: u32) -> Result<Model, ModelFault>
        requires { length levels.now < 2 ^ 32 }
        ensures { MatchResult result
            (λ m. (m ≡ record { levels = levels.now; degree = degree }) × (model_fault levels.now degree ≡ None))
            (λ fault. model_fault levels.now degree ≡ Some fault) }
    {
        if levels.is_empty() {
            return Err(ModelFault::NoCriteria);
        }
        let low = first_low(levels);
        if low < levels.len() {
            return Err(ModelFault::Levels {
                criterion: low as u32 + 1,
            });
        }
        let count = count_increments(levels);
        if count > MAX_INCREMENTS as u64 {
            return Err(ModelFault::Increments { count });
        }
        if degree < 1 || degree as usize > levels.len() {
            return Err(ModelFault::Degree);
        }
        let counts = tuple_of(levels);
        let classes = count_classes(counts.as_slice(), degree as usize);
        if classes > u64::from(MAX_CLASSES) {
            return Err(ModelFault::Classes {
                count: u128::from(classes),
            });
        }
        Ok(Model {
            counts,
            limit: degree as u8,
            steps: count as u8,
            classes: classes as u32,
        })
    }

    /// Whether the pair is a written pair of this model: one place a criterion, and at each place 0 on both
    /// sides or a level on both.
    pub fn fits(&self, pair: &Pair) -> bool
        ensures { IsTrue result ↔ IsFit self.now.levels pair.now }
    {
        let counts = self.counts.as_slice();
        let left = pair.left.as_slice();
        let right = pair.right.as_slice();
        left.len() == counts.len() && right.len() == counts.len() && all_fit(counts, left, right)
    }

    /// For each increment, whether the left side has it minus whether the right side has it.
    pub fn row(&self, pair: &Pair) -> Row
        requires { IsFit self.now.levels pair.now }
        ensures { result ≡ gain_of self.now.levels pair.now LeftSide }
    {
        self.gain(pair, Side::Left)
    }

    /// For each increment, whether the winner has it minus whether the loser has it. Where the two are equal,
    /// the left side counts as the winner.
    pub fn gain(&self, pair: &Pair, side: Side) -> Row
        requires { IsFit self.now.levels pair.now }
        ensures { result ≡ gain_of self.now.levels pair.now side }
    {
        match side {
            Side::Right => self.difference(&pair.right, &pair.left),
            _ => self.difference(&pair.left, &pair.right),
        }
    }

    /// Which side of the pair dominates the other, where a cancelled criterion counts as level 1 on both.
    pub fn dominance(&self, pair: &Pair) -> Dominance
        requires { IsFit self.now.levels pair.now }
        ensures { HasDominance (filled pair.now.left) (filled pair.now.right) result }
    {
        let left = pair.left.as_slice();
        let right = pair.right.as_slice();
        match (
            is_somewhere_higher(left, right),
            is_somewhere_higher(right, left),
        ) {
            (false, false) => Dominance::Same,
            (true, false) => Dominance::LeftHigher,
            (false, true) => Dominance::RightHigher,
            (true, true) => Dominance::Neither,
        }
    }

    /// On how many criteria the two sides differ.
    pub fn degree_of(&self, pair: &Pair) -> u8
        requires { IsFit self.now.levels pair.now }
        ensures { result ≡ degree_between pair.now.left pair.now.right }
    {
        degree(pair.left.as_slice(), pair.right.as_slice()) as u8
    }

    /// Whether the pair is a class of this model in its written form.
    pub fn is_class(&self, pair: &Pair) -> bool
        ensures { IsTrue result ↔ IsClassOf self.now pair.now }
    {
        if !self.fits(pair) {
            return false;
        }
        let left = pair.left.as_slice();
        let right = pair.right.as_slice();
        if !is_cancelled(left, right) || !is_left_first(left, right) {
            return false;
        }
        if !is_undominated(left, right) {
            return false;
        }
        degree(left, right) <= usize::from(self.limit)
    }

    /// What the alternative is worth by these values; level 0 counts as level 1.
    pub fn value(&self, vector: &Vector, alternative: &Tuple) -> i128
        requires vector_len { length vector.now ≡ increment_count self.now.levels }
        requires alternative_len { length alternative.now ≡ length self.now.levels }
        ensures value { result ≡ worth self.now.levels vector.now alternative.now }
        ensures range { unsigned_abs result ≤ MAX_INCREMENTS * CERTIFICATE_BOUND }
    {
        let lowest = Tuple::of(&[0; MAX_INCREMENTS][..alternative.len()]);
        vector.dot(&self.difference(alternative, &lowest))
    }

    /// Which side of the pair is worth more by these values.
    pub fn ranking(&self, vector: &Vector, pair: &Pair) -> Side
        requires vector_len { length vector.now ≡ increment_count self.now.levels }
        requires fits { IsFit self.now.levels pair.now }
        ensures ranks { Ranks self.now.levels vector.now pair.now result }
        ensures only { (side : Side) → Ranks self.now.levels vector.now pair.now side → side ≡ result }
    {
        let lead = vector.dot(&self.row(pair));
        match lead.cmp(&0) {
            Ordering::Greater => Side::Left,
            Ordering::Less => Side::Right,
            Ordering::Equal => Side::Equal,
        }
    }

    /// For each increment, whether the first has it minus whether the second has it.
    fn difference(&self, high: &Tuple, low: &Tuple) -> Row
        requires high_len { length high.now ≡ length self.now.levels }
        requires low_len { length low.now ≡ length self.now.levels }
        ensures { result ≡ minus (has self.now.levels high.now) (has self.now.levels low.now) }
    {
        let cells = differences(self.counts.as_slice(), high.as_slice(), low.as_slice());
        Row::of(&cells[..usize::from(self.steps)])
    }
}

#[cfg(test)]
mod tests;
