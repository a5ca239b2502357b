use crate::tuples::Tuple;

/// Two lists of levels, one level a criterion. In a written pair a criterion that is cancelled has 0 on both sides.
#[derive(Clone, Copy, PartialEq, Eq, Debug)]
pub struct Pair {
    pub left: Tuple,
    pub right: Tuple,
}

/// Which side of a pair is worth more, in an answer or a verdict.
#[derive(Clone, Copy, PartialEq, Eq, Debug)]
pub enum Side {
    Left,
    Right,
    Equal,
}

/// Which side of a pair dominates the other.
#[derive(Clone, Copy, PartialEq, Eq, Debug)]
pub enum Dominance {
    Same,
    LeftHigher,
    RightHigher,
    Neither,
}

/// A respondent's answer on a pair.
#[derive(Clone, Copy, PartialEq, Eq, Debug)]
pub struct Answer {
    pub pair: Pair,
    pub side: Side,
}
