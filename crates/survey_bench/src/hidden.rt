//! Hidden values of few sizes, so that some questions are answered as equal.
ghost use Rattle.std.specs.Prelude.{◌≡◌, ◌≤◌, length};

use criteria_model::{MAX_INCREMENTS, Vector};
use sample_values::Draws;

/// Hidden values from 1 to `spread`.
pub fn few_values(draws: &mut Draws, count: u8, spread: u32) -> Vector
    requires some { 1 ≤ count }
    requires most { count ≤ MAX_INCREMENTS }
    requires spread { 1 ≤ spread }
    ensures { length result ≡ count }
{
    let mut cells = [0; MAX_INCREMENTS];
    for place in 0..usize::from(count) {
        cells[place] = i128::from(draws.draw() % spread) + 1;
    }
    Vector::of(&cells[..usize::from(count)])
}
