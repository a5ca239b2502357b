//! The vector of a feasible dictionary.
ghost use Rattle.std.specs.Prelude.{◌≡◌, All, pos, ℤ, ◌≤ℤ◌};
ghost use Rattle.criteria_model.specs.Lists.{IsVector};
ghost use Rattle.row_laws.specs.Rows.{times};
ghost use Rattle.fraction_free.specs.Dictionary.{IsDictionary};
ghost use Rattle.simplex.specs.Rows.{MeetsRows, IsCoprime};
ghost use Rattle.simplex.specs.Choice.{IsFeasible};
ghost use Rattle.simplex.specs.Point.{IsScaledPoint, IsPointOf};

use crate::divisor::{common_divisor, divided};
use criteria_model::{MAX_INCREMENTS, Vector};
use fraction_free::Dictionary;

/// The vector where the nonbasic variables are 0, without its common divisor.
pub fn point_of(work: &Dictionary) -> Vector
    requires { IsFeasible work.now }
    ensures meets { MeetsRows work.now.columns work.now.loaded result }
    ensures reduced { IsCoprime result }
    ensures point { IsPointOf work.now result }
{
    let values = scaled_point(work);
    reduced(values.as_slice())
}

/// The vector where the nonbasic variables are 0, times the scale.
fn scaled_point(work: &Dictionary) -> Vector
    requires { IsFeasible work.now }
    ensures point { IsScaledPoint work.now result }
    ensures dictionary { IsDictionary work.now }
{
    let columns = usize::from(work.cols());
    let mut cells = [work.scale(); MAX_INCREMENTS];
    for at in 0..work.rows() {
        let row = at + 1;
        let variable = work.basic(row) as usize;
        if variable <= columns {
            cells[variable - 1] = work.scale() + work.constant(row);
        }
    }
    Vector::of(&cells[..columns])
}

/// Positive values over their greatest common divisor.
pub fn reduced(values: &[i128]) -> Vector
    requires vector { IsVector values.now }
    requires positive { All (λ x. pos 1 ≤ℤ x) values.now }
    ensures reduced { IsCoprime result }
    ensures positive { All (λ x. pos 1 ≤ℤ x) result }
    ensures multiple { (factor : ℤ) × (pos 1 ≤ℤ factor) × (values.now ≡ times factor result) }
{
    divided(values, common_divisor(values))
}
