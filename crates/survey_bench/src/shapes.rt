//! The surveys that can be run.
ghost use Rattle.std.specs.Prelude.{◌<◌, ◌≤◌, ◌^◌, length};

/// The levels of each criterion, the degree limit, and how many hidden values there are to choose from: with few of
/// them worths are often equal.
#[derive(Clone, Copy)]
pub struct Shape {
    pub levels: &'static [u32],
    pub degree: u32,
    pub spread: u32,
    ghost sized: { (length levels.now < 2 ^ 32) × (1 ≤ spread) },
}

impl Shape {
    /// The survey of a number, counted from 1.
    pub fn numbered(number: u32) -> Option<Shape> {
        let (levels, degree, spread): (&'static [u32], u32, u32) = match number {
            1 => (&[2], 1, 1_000),
            2 => (&[25], 1, 1_000),
            3 => (&[2, 2], 2, 1_000),
            4 => (&[2, 2, 2], 3, 1_000),
            5 => (&[2, 2, 2], 3, 3),
            6 => (&[3, 2], 2, 1_000),
            7 => (&[3, 3, 3], 3, 1_000),
            8 => (&[3, 3, 3], 3, 4),
            9 => (&[6, 6], 2, 1_000),
            10 => (&[6, 5, 4], 2, 5),
            11 => (&[5, 4, 3, 2], 4, 9),
            12 => (&[2; 6], 4, 7),
            13 => (&[2; 24], 2, 1_000),
            14 => (&[13, 13], 2, 3),
            15 => (&[5; 6], 2, 9),
            16 => (&[4; 6], 2, 1_000),
            17 => (&[4; 8], 2, 1_000),
            18 => (&[4; 6], 3, 1_000),
            19 => (&[2, 2, 2, 2, 3, 3, 5, 5, 5], 3, 1_000),
            _ => return None,
        };
        Some(Shape {
            levels,
            degree,
            spread,
        })
    }
}
