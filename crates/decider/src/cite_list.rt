//! Cites that are gathered one by one.
ghost use Rattle.std.specs.Prelude.{◌≡◌, ◌<◌, true, [], length};
ghost use Rattle.farkas_check.specs.Cited.{AreCites};
ghost use Rattle.simplex.specs.Weights.{is_weight};
ghost use Rattle.decider.specs.Combining.{with_cite};

use farkas_check::{Cite, Cites, MAX_CITES};
use std::marker::Model;

/// At most [`MAX_CITES`] cites.
#[derive(Drop)]
pub struct CiteList {
    items: [Cite; MAX_CITES],
    len: usize,
}

impl Model for CiteList {
    ghost use Rattle.std.specs.Prelude.{◌≤◌, List, take};
    ghost use Rattle.farkas_check.specs.declared.cites.Cite.{Cite};
    ghost use Rattle.farkas_check.specs.declared.cites.TheConstants.{MAX_CITES};

    ghost Value = { List Cite };

    ghost view = { λ t. take t.len t.items };

    ghost invariant = { λ t. t.len ≤ MAX_CITES };
}

const NO_CITE: Cite = Cite {
    answer: 0,
    weight: 0,
};

impl CiteList {
    /// No cites.
    pub fn none() -> CiteList
        ensures { result ≡ [] }
    {
        CiteList {
            items: [NO_CITE; MAX_CITES],
            len: 0,
        }
    }

    /// Adds a cite of the answer, unless its weight is 0.
    pub fn add(&mut self, answer: u32, weight: i128)
        requires { is_weight weight ≡ true → length self.old < MAX_CITES }
        ensures { self.new ≡ with_cite self.old answer weight }
    {
        if weight != 0 {
            let cells = &mut self.items;
            cells[self.len] = Cite { answer, weight };
            self.len += 1;
        }
    }

    /// The cites.
    pub fn cites(&self) -> Cites
        requires { AreCites self.now }
        ensures { result ≡ self.now }
    {
        match Cites::of(&self.items[..self.len]) {
            Some(cites) => cites,
            None => unreachable!(),
        }
    }
}
