//! The search for a pair in the ordered list of classes.
ghost use Rattle.std.specs.Prelude.{◌≡◌, Some, ◌↔◌, ◌==◌, if◌then◌else◌, ◌<◌, ◌≤◌, ◌^◌, length, All, AllPairs, IsTrue, IfSome, IsSome, Contains, zip};
ghost use Rattle.criteria_model.specs.declared.pairs.Pair.{Pair};
ghost use Rattle.criteria_model.specs.Classes.{ComesBefore, order_level as order_level_of};
ghost use Rattle.criteria_model.specs.Pairs.{IsFit};
ghost use Rattle.pair_enumeration.specs.Places.{class_at, cancelled};
ghost use Rattle.pair_enumeration.specs.Walks.{Precedes};

use criteria_model::{MAX_INCREMENTS, MAX_LEVEL, Model, Pair, Tuple};

/// The place of the pair among these ordered pairs, counted from 1.
pub(crate) fn place_among(model: &Model, pairs: &[Pair], pair: &Pair) -> Option<u32>
    requires few { length pairs.now < 2 ^ 32 }
    requires pair_fits { IsFit model.now.levels pair.now }
    requires pairs_fit { All (IsFit model.now.levels) pairs.now }
    requires ordered { AllPairs ComesBefore pairs.now }
    ensures some { IsSome result ↔ Contains pairs.now pair.now }
    ensures found { IfSome result (λ place. class_at pairs.now place ≡ Some pair.now) }
{
    let mut low = 0;
    let mut high = pairs.len();
    while low < high {
        let middle = low + (high - low) / 2;
        if comes_before(model, &pairs[middle], pair) {
            low = middle + 1;
        } else {
            high = middle;
        }
    }
    if low < pairs.len() && is_same(&pairs[low], pair) {
        Some(low as u32 + 1)
    } else {
        None
    }
}

/// Whether the two pairs are the same.
fn is_same(a: &Pair, b: &Pair) -> bool
    ensures { IsTrue result ↔ (a.now ≡ b.now) }
{
    a.left.as_slice() == b.left.as_slice() && a.right.as_slice() == b.right.as_slice()
}

/// Whether the first pair stands before the second.
fn comes_before(model: &Model, a: &Pair, b: &Pair) -> bool
    requires a_fits { IsFit model.now.levels a.now }
    requires b_fits { IsFit model.now.levels b.now }
    ensures { IsTrue result ↔ ComesBefore a.now b.now }
{
    let degree = model.degree_of(a);
    let other = model.degree_of(b);
    if degree != other {
        return degree < other;
    }
    levels_before(
        a.left.as_slice(),
        a.right.as_slice(),
        b.left.as_slice(),
        b.right.as_slice(),
    )
}

/// Whether the first two lists, read criterion by criterion, come before the last two.
fn levels_before(left: &[u8], right: &[u8], other_left: &[u8], other_right: &[u8]) -> bool
    requires right_len { length right.now ≡ length left.now }
    requires other_left_len { length other_left.now ≡ length left.now }
    requires other_right_len { length other_right.now ≡ length left.now }
    ensures { IsTrue result
        ↔ Precedes (zip left.now right.now) (zip other_left.now other_right.now) }
{
    for place in 0..left.len() {
        let level = order_level(left[place]);
        let other = order_level(other_left[place]);
        if level != other {
            return level < other;
        }
        let level = order_level(right[place]);
        let other = order_level(other_right[place]);
        if level != other {
            return level < other;
        }
    }
    false
}

/// A level as the order reads it: a cancelled place counts as the highest level.
fn order_level(level: u8) -> u8
    ensures { result ≡ order_level_of level }
{
    if level == 0 { MAX_LEVEL } else { level }
}

/// The written pair of two lists of levels: 0 on both sides where they agree.
pub(crate) fn cancelled_pair(a: &Tuple, b: &Tuple) -> Pair
    requires { length a.now ≡ length b.now }
    ensures { result ≡ record { left = cancelled a.now b.now; right = cancelled b.now a.now } }
{
    Pair {
        left: cancel(a, b),
        right: cancel(b, a),
    }
}

/// The first list's levels, and 0 where the two agree.
fn cancel(a: &Tuple, b: &Tuple) -> Tuple
    requires { length a.now ≡ length b.now }
    ensures { result ≡ cancelled a.now b.now }
{
    let levels = a.as_slice();
    let others = b.as_slice();
    let mut cells = [0; MAX_INCREMENTS];
    for place in 0..levels.len() {
        cells[place] = unless_equal(levels[place], others[place]);
    }
    Tuple::of(&cells[..levels.len()])
}

/// The level, or 0 where the other is equal.
fn unless_equal(level: u8, other: u8) -> u8
    ensures value { result ≡ (if level == other then 0 else level) }
    ensures range { result ≤ level }
{
    if level == other { 0 } else { level }
}
