//! Hidden values that answer questions.
ghost use Rattle.std.specs.Prelude.{◌≡◌, ◌+◌, pos};
ghost use Rattle.criteria_model.specs.Worth.{increments, IsValueVector};
ghost use Rattle.sample_values.specs.Draws.{next_state, drawn, hidden_vector};

use crate::draws::Draws;
use criteria_model::{MAX_INCREMENTS, Model, Vector};

/// The hidden values of a seed for the increments of a model.
pub fn hidden_values(seed: u32, model: &Model) -> Vector
    ensures value { result ≡ hidden_vector seed (increments model.now.levels) }
    ensures positive { IsValueVector model.now.levels result }
{
    let count = usize::from(model.increments());
    let mut draws = Draws::from_seed(seed);
    let mut cells = [0; MAX_INCREMENTS];
    for place in 0..count {
        cells[place] = next_value(&mut draws);
    }
    Vector::of(&cells[..count])
}

/// 1 plus the next draw.
fn next_value(draws: &mut Draws) -> i128
    ensures state { draws.new ≡ next_state draws.old }
    ensures value { result ≡ pos (1 + drawn draws.new) }
{
    i128::from(1 + draws.draw())
}
