//! The surveys that can be run.
ghost use Rattle.std.specs.Prelude.{◌<◌, ◌^◌, length};

/// The levels of each criterion, and the degree limit.
#[derive(Clone, Copy)]
pub struct Shape {
    pub levels: &'static [u32],
    pub degree: u32,
    ghost sized: { length levels.now < 2 ^ 32 },
}

impl Shape {
    /// The survey of a number, counted from 1.
    pub fn numbered(number: u32) -> Option<Shape> {
        let (levels, degree): (&'static [u32], u32) = match number {
            1 => (&[2, 2, 2], 3),
            2 => (&[3, 2], 2),
            3 => (&[3, 3, 3], 3),
            4 => (&[4; 6], 2),
            5 => (&[4; 8], 2),
            6 => (&[4; 6], 3),
            _ => return None,
        };
        Some(Shape { levels, degree })
    }
}
