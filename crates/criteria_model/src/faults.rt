/// Why level counts and a degree limit make no model.
#[derive(Clone, Copy, PartialEq, Eq, Debug)]
pub enum ModelFault {
    /// There is no criterion.
    NoCriteria,
    /// The first criterion, counted from 1, with fewer than 2 levels.
    Levels { criterion: u32 },
    /// More than [`MAX_INCREMENTS`](crate::MAX_INCREMENTS) increments.
    Increments { count: u64 },
    /// The degree limit isn't from 1 to the number of criteria.
    Degree,
    /// More than [`MAX_CLASSES`](crate::MAX_CLASSES) classes.
    Classes { count: u128 },
}
