use crate::cites::Cites;
use criteria_model::Vector;

/// A weighted sum of answers and of the increments' own values, meant to be `scale` times a verdict. By
/// their types the weights are below [`CERTIFICATE_BOUND`](criteria_model::CERTIFICATE_BOUND) in size.
#[derive(Clone, Copy, PartialEq, Eq, Debug)]
pub struct Combination {
    pub scale: i128,
    /// A weight for each increment.
    pub increments: Vector,
    pub answers: Cites,
}
