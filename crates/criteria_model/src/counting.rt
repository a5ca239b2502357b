//! The numbers of a model, from the level counts of its criteria.
ghost use Rattle.std.specs.Prelude.{◌≡◌, ℕ, ◌+◌, ◌*◌, ◌-◌, ◌/◌, ◌^◌, ◌<◌, ◌≤◌, length, All, slice_index};
ghost use Rattle.criteria_model.specs.Worth.{increments};
ghost use Rattle.criteria_model.specs.Counts.{class_count, level_pairs as level_pairs_of};
ghost use Rattle.criteria_model.specs.Faults.{first_low as first_low_of};

use crate::limits::MAX_INCREMENTS;
use crate::tuples::Tuple;

// Degrees count from 0, and are at most the number of criteria.
const DEGREES: usize = MAX_INCREMENTS + 1;

/// The number of criteria before the first with fewer than 2 levels.
pub(crate) fn first_low(levels: &[u32]) -> usize
    ensures value { result ≡ first_low_of levels.now }
    ensures range { result ≤ length levels.now }
    ensures all { result ≡ length levels.now → All (λ n. 2 ≤ n) levels.now }
{
    for place in 0..levels.len() {
        if levels[place] < 2 {
            return place;
        }
    }
    levels.len()
}

/// The number of increments.
pub(crate) fn count_increments(levels: &[u32]) -> u64
    requires { length levels.now < 2 ^ 32 }
    ensures { result ≡ increments levels.now }
{
    levels.iter().map(|n| u64::from(n.saturating_sub(1))).sum()
}

/// The level counts as a `Tuple`.
pub(crate) fn tuple_of(levels: &[u32]) -> Tuple
    requires some { 1 ≤ length levels.now }
    requires two_levels { All (λ n. 2 ≤ n) levels.now }
    requires few { increments levels.now ≤ MAX_INCREMENTS }
    ensures { result ≡ levels.now }
{
    let mut cells = [0; MAX_INCREMENTS];
    for place in 0..levels.len() {
        cells[place] = levels[place] as u8;
    }
    Tuple::of(&cells[..levels.len()])
}

/// The number of classes with a degree up to the limit.
pub(crate) fn count_classes(counts: &[u8], limit: usize) -> u64
    requires few { increments counts.now ≤ MAX_INCREMENTS }
    requires two_levels { All (λ n. 2 ≤ n) counts.now }
    requires low { 1 ≤ limit }
    requires high { limit ≤ length counts.now }
    ensures { result ≡ class_count counts.now limit }
{
    let table = level_pairs(counts);
    let mut count = 0;
    for degree in 2..limit + 1 {
        count += ((1u64 << (degree - 1)) - 1) * table[degree];
    }
    count
}

/// For each degree, the sum over the sets of that many criteria of the product of the numbers of
/// pairs of two levels.
fn level_pairs(counts: &[u8]) -> [u64; DEGREES]
    requires few { increments counts.now ≤ MAX_INCREMENTS }
    requires two_levels { All (λ n. 2 ≤ n) counts.now }
    ensures { (d : ℕ) → d < DEGREES → slice_index result d ≡ level_pairs_of d counts.now }
{
    let mut table = [0; DEGREES];
    table[0] = 1;
    let mut left = counts.len();
    while left > 0 {
        left -= 1;
        let n = u64::from(counts[left]);
        add_criterion(&mut table, n * (n - 1) / 2);
    }
    table
}

/// Adds a criterion to the table: `pairs` is its number of pairs of two levels.
fn add_criterion(table: &mut [u64; DEGREES], pairs: u64)
    requires few { pairs ≤ 2 ^ MAX_INCREMENTS }
    requires small { (d : ℕ) → d < DEGREES → slice_index table.old d ≤ 2 ^ MAX_INCREMENTS }
    ensures none { slice_index table.new 0 ≡ slice_index table.old 0 }
    ensures some { (d : ℕ) → 1 ≤ d → d < DEGREES
        → slice_index table.new d ≡ slice_index table.old d + pairs * slice_index table.old (d - 1) }
{
    let mut size = MAX_INCREMENTS;
    while size > 0 {
        table[size] += pairs * table[size - 1];
        size -= 1;
    }
}
