ghost use Rattle.std.specs.Prelude.{◌≡◌, ◌↔◌, ◌-◌, ◌≤◌, Some, length, map, slice_get, IsTrue, IsSome, IfSome};
ghost use Rattle.std.specs.List.Sorted.{IsStrictlyIncreasing};
ghost use Rattle.farkas_check.specs.Cited.{IsCite, AreCites};

use criteria_model::CERTIFICATE_BOUND;
use std::marker::Model;

/// The most answers that a combination cites.
pub const MAX_CITES: usize = 24;

/// An answer, by its number, and the weight that it has in a combination.
#[derive(Clone, Copy, PartialEq, Eq, Debug)]
pub struct Cite {
    pub answer: u32,
    pub weight: i128,
}

/// At most [`MAX_CITES`] cites: answers from 1 on, strictly ascending, each with a weight that isn't 0
/// and is below [`CERTIFICATE_BOUND`] in size.
// The cells after the cites hold the empty cite, so that equal lists are equal values.
#[derive(Clone, Copy, PartialEq, Eq, Debug)]
pub struct Cites {
    items: [Cite; MAX_CITES],
    len: u8,
}

impl Model for Cites {
    ghost use Rattle.std.specs.Prelude.{List, length, take};
    ghost use Rattle.farkas_check.specs.declared.cites.TheConstants.{MAX_CITES};
    ghost use Rattle.farkas_check.specs.declared.cites.Cite.{Cite};
    ghost use Rattle.row_laws.specs.Padded.{IsPadded, padded, padded-take, length-padded};
    ghost use Rattle.farkas_check.specs.Cited.{AreCites, no_cite};

    ghost Value = { List Cite };

    ghost view = { λ t. take t.len t.items };

    ghost invariant = { λ t. IsPadded MAX_CITES no_cite t.len t.items × AreCites (take t.len t.items) };

    ghost inverse = { λ cites. record { items = padded MAX_CITES no_cite cites; len = length cites } };

    ghost inverse_ok = { λ t h i. record {
      items = padded-take MAX_CITES no_cite t.len t.items h.0 i;
      len = length-padded MAX_CITES no_cite t.len t.items h.0 i;
    } };
}

const NO_CITE: Cite = Cite {
    answer: 0,
    weight: 0,
};

impl Cites {
    /// The list of these cites, or `None` where they are more than [`MAX_CITES`], where one has the answer
    /// 0, the weight 0 or a weight of [`CERTIFICATE_BOUND`] or more in size, or where their answers don't
    /// strictly ascend.
    pub fn of(items: &[Cite]) -> Option<Cites>
        ensures known { IsSome result ↔ AreCites items.now }
        ensures value { IfSome result (λ cites. cites ≡ items.now) }
    {
        if !are_cites(items) {
            return None;
        }
        let count = items.len();
        let mut cells = [NO_CITE; MAX_CITES];
        cells[..count].copy_from_slice(items);
        Some(Cites {
            items: cells,
            len: count as u8,
        })
    }

    /// The number of cites.
    pub fn len(&self) -> u32
        ensures value { result ≡ length self.now }
        ensures range { AreCites self.now }
    {
        u32::from(self.len)
    }

    /// The cite at a place; places count from 1.
    pub fn cite(&self, place: u32) -> Cite
        requires low { 1 ≤ place }
        requires high { place ≤ length self.now }
        ensures value { slice_get self.now (place - 1) ≡ Some result }
        ensures range { IsCite result }
    {
        let items = self.as_slice();
        items[place as usize - 1]
    }

    /// The cites, in order.
    pub fn as_slice(&self) -> &[Cite]
        ensures value { result.now ≡ self.now }
        ensures range { AreCites result.now }
    {
        &self.items[..usize::from(self.len)]
    }
}

fn are_cites(items: &[Cite]) -> bool
    ensures { IsTrue result ↔ AreCites items.now }
{
    items.len() <= MAX_CITES && items.iter().all(is_cite) && is_ascending(items)
}

fn is_cite(cite: &Cite) -> bool
    ensures { IsTrue result ↔ IsCite cite.now }
{
    cite.answer >= 1 && cite.weight != 0 && cite.weight.unsigned_abs() < CERTIFICATE_BOUND
}

fn is_ascending(items: &[Cite]) -> bool
    ensures { IsTrue result ↔ IsStrictlyIncreasing (map (λ cite. cite.answer) items.now) }
{
    items.is_sorted_by(|cite, next| cite.answer < next.answer)
}

#[cfg(test)]
mod tests;
