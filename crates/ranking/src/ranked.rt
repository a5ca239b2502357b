//! The list of alternatives by descending worth.
ghost use Rattle.std.specs.Prelude.{◌≡◌, ◌≤◌, Some, length, option_map, IfOk};
ghost use Rattle.std.specs.Ordering.{int_cmp};
ghost use Rattle.row_laws.specs.Items.{item_at};
ghost use Rattle.ranking.specs.Rankings.{IsRankingOf, is_worth_more as is_more, rank_of};

use crate::NoMemory;
use crate::stops::MAX_TABLE;
use std::cmp::Ordering;
use std::marker::Model;

/// An alternative's name, and what it is worth.
#[derive(Drop)]
pub(crate) struct NamedWorth {
    name: Vec<u8>,
    worth: i128,
}

impl Model for NamedWorth {
    ghost use Rattle.ranking.specs.NamedWorths.{NamedWorthView};

    ghost Value = { NamedWorthView };

    ghost view = { λ n. record { name = n.name.items; worth = n.worth } };
}

impl NamedWorth {
    pub(crate) fn new(name: Vec<u8>, worth: i128) -> NamedWorth
        ensures { result ≡ record { name = name.items; worth = worth } }
    {
        NamedWorth { name, worth }
    }

    /// How the other's worth compares with this one's, so that what is worth more comes first.
    fn compare(&self, other: &NamedWorth) -> Ordering
        ensures { result ≡ int_cmp other.now.worth self.now.worth }
    {
        other.worth.cmp(&self.worth)
    }

    /// Whether this one is worth more than the other.
    fn is_worth_more(&self, other: &NamedWorth) -> bool
        ensures { result ≡ is_more self.now other.now }
    {
        self.compare(other).is_lt()
    }
}

/// Alternatives by descending worth; those of equal worth are in the order in which they came. Places count from 1.
#[derive(Drop)]
pub struct Ranked {
    rows: Vec<NamedWorth>,
}

impl Model for Ranked {
    ghost use Rattle.std.specs.Prelude.{◌≤◌, List, length};
    ghost use Rattle.std.specs.List.Sorted.{IsSortedBy};
    ghost use Rattle.ranking.specs.declared.stops.TheConstants.{MAX_TABLE};
    ghost use Rattle.ranking.specs.NamedWorths.{NamedWorthView};
    ghost use Rattle.ranking.specs.Rankings.{is_worth_more};

    ghost Value = { List NamedWorthView };

    ghost view = { λ r. r.rows.items };

    // Each alternative has a record of its own, and a record at least a byte.
    ghost invariant = { λ r. (length r.rows.items ≤ MAX_TABLE) × IsSortedBy is_worth_more r.rows.items };
}

impl Ranked {
    /// These alternatives, ranked.
    pub(crate) fn of(alternatives: Vec<NamedWorth>) -> Result<Ranked, NoMemory>
        requires { length alternatives.items ≤ MAX_TABLE }
        ensures { IfOk result (IsRankingOf alternatives.items) }
    {
        let mut rows = alternatives;
        rows.sort_by(|one, other| one.compare(other))?;
        Ok(Ranked { rows })
    }

    /// How many alternatives there are.
    pub fn count(&self) -> u32
        ensures value { result ≡ length self.now }
        ensures range { result ≤ MAX_TABLE }
    {
        self.rows.len() as u32
    }

    /// The rank of the alternative at a place: 1 and the number of those that are worth more.
    pub fn rank(&self, place: u32) -> u32
        requires { (1 ≤ place) × (place ≤ length self.now) }
        ensures { option_map (rank_of self.now) (item_at self.now place) ≡ Some result }
    {
        let one = self.at(place);
        self.rows.partition_point(|other| other.is_worth_more(one)) as u32 + 1
    }

    /// Its name.
    pub fn name(&self, place: u32) -> &[u8]
        requires { (1 ≤ place) × (place ≤ length self.now) }
        ensures { option_map (λ alternative. alternative.name) (item_at self.now place) ≡ Some result.now }
    {
        self.at(place).name.as_slice()
    }

    /// What it is worth.
    pub fn value(&self, place: u32) -> i128
        requires { (1 ≤ place) × (place ≤ length self.now) }
        ensures { option_map (λ alternative. alternative.worth) (item_at self.now place) ≡ Some result }
    {
        self.at(place).worth
    }

    /// The alternative at this place.
    fn at(&self, place: u32) -> &NamedWorth
        requires { (1 ≤ place) × (place ≤ length self.now) }
        ensures { item_at self.now place ≡ Some result.now }
    {
        &self.rows[place as usize - 1]
    }
}
