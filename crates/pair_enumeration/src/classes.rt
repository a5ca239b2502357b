ghost use Rattle.std.specs.Prelude.{◌≡◌, ℕ, ◌↔◌, ◌≤◌, length, IfOk, IsSome, IfSome, Some};
ghost use Rattle.criteria_model.specs.Alternatives.{IsAlternative};
ghost use Rattle.criteria_model.specs.Classes.{IsClass};
ghost use Rattle.pair_enumeration.specs.declared.flips.Flip.{Flip};

use crate::flips::Flip;
use crate::search::{cancelled_pair, place_among};
use crate::walks::list_classes;
use criteria_model::{MAX_INCREMENTS, Model, Pair, Tuple};
use std::alloc::{AllocError as NoMemory, Global};

/// All classes of a model, in order. Places count from 1.
#[derive(Drop)]
pub struct Classes {
    model: Model,
    pairs: Vec<Pair>,
}

// Clauses see the model and the list.
impl std::marker::Model for Classes {
    ghost use Rattle.pair_enumeration.specs.Listed.{Listed, IsListed};

    ghost Value = { Listed };

    ghost view = { λ c. record { criteria = c.model; classes = c.pairs.items } };

    ghost invariant = { λ c. IsListed (record { criteria = c.model; classes = c.pairs.items }) };
}

impl Classes {
    ghost use Rattle.pair_enumeration.specs.Listed.{IsListed};
    ghost use Rattle.pair_enumeration.specs.Places.{NeedsQuestion, class_at, IsPlaceOf};

    /// All classes of the model.
    pub fn list(alloc: Global, model: &Model) -> Result<Classes, NoMemory>
        ensures { IfOk result (λ classes. (classes.criteria ≡ model.now) × IsListed classes) }
    {
        let counts = level_counts(model);
        let limit = usize::from(model.degree());
        let pairs = list_classes(
            alloc,
            counts.as_slice(),
            limit,
            model.class_count() as usize,
        )?;
        Ok(Classes {
            model: *model,
            pairs,
        })
    }

    /// The model.
    pub fn model(&self) -> Model
        ensures value { result ≡ self.now.criteria }
        ensures listed { IsListed self.now }
    {
        self.model
    }

    /// The number of classes.
    pub fn count(&self) -> u32
        ensures value { result ≡ length self.now.classes }
        ensures listed { IsListed self.now }
    {
        self.pairs.len() as u32
    }

    /// The class at a place.
    pub fn class(&self, place: u32) -> Pair
        requires low { 1 ≤ place }
        requires high { place ≤ length self.now.classes }
        ensures value { class_at self.now.classes place ≡ Some result }
        ensures class { IsClass self.now.criteria result }
    {
        self.pairs[place as usize - 1]
    }

    /// The place of a class, or none where the pair isn't a class of the model.
    pub fn place(&self, pair: &Pair) -> Option<u32>
        ensures some { IsSome result ↔ IsClass self.now.criteria pair.now }
        ensures found { IfSome result (λ place. class_at self.now.classes place ≡ Some pair.now) }
        ensures listed { IsListed self.now }
    {
        if !self.model.fits(pair) {
            return None;
        }
        place_among(&self.model, self.pairs.as_slice(), pair)
    }

    /// The place of the class of two alternatives, and whether they are its sides as given or exchanged. None
    /// where they are equal, where one dominates the other, and where their degree is above the limit.
    pub fn place_of(&self, a: &Tuple, b: &Tuple) -> Option<(u32, Flip)>
        requires a_fits { IsAlternative self.now.criteria.levels a.now }
        requires b_fits { IsAlternative self.now.criteria.levels b.now }
        ensures some { IsSome result ↔ NeedsQuestion self.now.criteria a.now b.now }
        ensures found { IfSome result (λ r. IsPlaceOf self.now a.now b.now r.0 r.1) }
        ensures only { (place : ℕ) (flip : Flip)
            → IsPlaceOf self.now a.now b.now place flip → result ≡ Some (place, flip) }
    {
        if let Some(place) = self.place(&cancelled_pair(a, b)) {
            return Some((place, Flip::Kept));
        }
        let place = self.place(&cancelled_pair(b, a))?;
        Some((place, Flip::Turned))
    }
}

/// The level counts of the model's criteria.
fn level_counts(model: &Model) -> Tuple
    ensures { result ≡ model.now.levels }
{
    let count = usize::from(model.criteria());
    let mut counts = [0; MAX_INCREMENTS];
    for place in 0..count {
        counts[place] = model.levels(place as u8 + 1);
    }
    Tuple::of(&counts[..count])
}

#[cfg(test)]
mod tests;
