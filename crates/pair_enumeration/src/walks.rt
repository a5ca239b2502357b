//! How the list of all classes is made: a walk over the criteria, which gives each its two levels or cancels it.
ghost use Rattle.std.specs.Prelude.{◌≡◌, ◌+◌, ◌-◌, ◌<◌, ◌≤◌, ◌++◌, [], ◌∷◌, length, take, All, OnOk, IfOk, slice_index};
ghost use Rattle.criteria_model.specs.declared.pairs.Pair.{Pair};
ghost use Rattle.pair_enumeration.specs.declared.walks.Stage.{Stage};
ghost use Rattle.pair_enumeration.specs.declared.walks.Walk.{Walk};
ghost use Rattle.pair_enumeration.specs.Walks.{stage_after, IsWalk, joined, found_from, found_with, listed_classes};

use criteria_model::{MAX_INCREMENTS, MAX_LEVEL, Pair, Tuple};
use std::alloc::{AllocError as NoMemory, Global};

/// Which sides are higher on some criterion so far.
#[derive(Clone, Copy, PartialEq, Eq)]
enum Stage {
    Same,
    Left,
    Both,
}

impl Stage {
    /// The stage after a criterion with these levels, or none where no class has them there.
    fn after(self, left: u8, right: u8) -> Option<Stage>
        ensures { result ≡ stage_after self left right }
    {
        match self {
            Stage::Same => {
                if right < left {
                    Some(Stage::Left)
                } else {
                    None
                }
            }
            Stage::Left => {
                if right < left {
                    Some(Stage::Left)
                } else if left < right {
                    Some(Stage::Both)
                } else {
                    None
                }
            }
            Stage::Both => {
                if left == right {
                    None
                } else {
                    Some(Stage::Both)
                }
            }
        }
    }
}

/// A walk over the criteria: the levels before `place`, and on how many criteria from there on the sides differ.
#[derive(Clone, Copy)]
struct Walk {
    left: [u8; MAX_INCREMENTS],
    right: [u8; MAX_INCREMENTS],
    place: usize,
    rest: usize,
    stage: Stage,
}

impl Walk {
    /// The walk before the first criterion, with a number of differences to come.
    fn start(degree: usize) -> Walk
        ensures place { result.place ≡ 0 }
        ensures rest { result.rest ≡ degree }
        ensures stage { result.stage ≡ Stage.Same }
    {
        Walk {
            left: [0; MAX_INCREMENTS],
            right: [0; MAX_INCREMENTS],
            place: 0,
            rest: degree,
            stage: Stage::Same,
        }
    }

    /// The walk after one more criterion, with these levels on it.
    fn after(self, left: u8, right: u8, rest: usize, stage: Stage) -> Walk
        requires { self.place < MAX_INCREMENTS }
        ensures place { result.place ≡ self.place + 1 }
        ensures left { take (self.place + 1) result.left ≡ take self.place self.left ++ left ∷ [] }
        ensures right { take (self.place + 1) result.right ≡ take self.place self.right ++ right ∷ [] }
        ensures rest { result.rest ≡ rest }
        ensures stage { result.stage ≡ stage }
    {
        let mut next = Walk {
            rest,
            stage,
            ..self
        };
        next.left[self.place] = left;
        next.right[self.place] = right;
        next.place += 1;
        next
    }

    /// The pair of the levels so far.
    fn pair(&self) -> Pair
        requires some { 1 ≤ self.now.place }
        requires most { self.now.place ≤ MAX_INCREMENTS }
        requires left { All (λ n. n ≤ MAX_LEVEL) (take self.now.place self.now.left) }
        requires right { All (λ n. n ≤ MAX_LEVEL) (take self.now.place self.now.right) }
        ensures { result ≡ joined (take self.now.place self.now.left) (take self.now.place self.now.right) [] }
    {
        Pair {
            left: Tuple::of(&self.left[..self.place]),
            right: Tuple::of(&self.right[..self.place]),
        }
    }
}

/// Appends all classes in which the walk goes on over the criteria of these level counts, in order.
#[cycle(walk)]
fn extend(classes: &mut Vec<Pair>, counts: &[u8], walk: Walk) -> Result<(), NoMemory>
    requires { IsWalk counts.now walk }
    ensures { OnOk result (classes.new.items ≡ classes.old.items ++ found_from counts.now walk) }
{
    let left = counts.len() - walk.place;
    if walk.rest > left {
        return Ok(());
    }
    if left == 0 {
        if walk.stage == Stage::Both {
            classes.push(walk.pair())?;
        }
        return Ok(());
    }
    if walk.rest > 0 {
        for level in 1..counts[walk.place] + 1 {
            extend_with(classes, counts, walk, level)?;
        }
    }
    extend(classes, counts, walk.after(0, 0, walk.rest, walk.stage))
}

/// Appends those with this level on the left side of the next criterion, and another on its right side.
#[cycle(walk)]
fn extend_with(classes: &mut Vec<Pair>, counts: &[u8], walk: Walk, left: u8) -> Result<(), NoMemory>
    requires walk { IsWalk counts.now walk }
    requires more { walk.place < length counts.now }
    requires some { 1 ≤ walk.rest }
    requires level { left ≤ MAX_LEVEL }
    ensures { OnOk result (classes.new.items
        ≡ classes.old.items ++ found_with counts.now walk (slice_index counts.now walk.place) left) }
{
    for right in 1..counts[walk.place] + 1 {
        if let Some(stage) = walk.stage.after(left, right) {
            extend(
                classes,
                counts,
                walk.after(left, right, walk.rest - 1, stage),
            )?;
        }
    }
    Ok(())
}

/// All classes with a degree up to the limit over criteria of these level counts, in order.
pub(crate) fn list_classes(
    alloc: Global,
    counts: &[u8],
    limit: usize,
    room: usize,
) -> Result<Vec<Pair>, NoMemory>
    requires some { 1 ≤ length counts.now }
    requires most { length counts.now ≤ MAX_INCREMENTS }
    requires levels { All (λ n. n ≤ MAX_LEVEL) counts.now }
    requires limit { (1 ≤ limit) × (limit ≤ length counts.now) }
    ensures { IfOk result (λ classes. classes.items ≡ listed_classes counts.now limit) }
{
    let mut classes = Vec::with_capacity(alloc, room)?;
    for degree in 2..limit + 1 {
        extend(&mut classes, counts, Walk::start(degree))?;
    }
    Ok(classes)
}
