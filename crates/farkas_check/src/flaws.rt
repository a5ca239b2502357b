/// The first part that a combination lacks to prove a verdict, in the order in which the parts are tested.
#[derive(Clone, Copy, PartialEq, Eq, Debug)]
pub enum Flaw {
    /// The scale is below 1.
    Scale,
    /// An increment has a negative weight.
    Increment,
    /// A cited answer isn't there.
    Cite,
    /// An answer that isn't equal has a negative weight.
    Weight,
    /// At some increment the sums differ.
    Sum,
    /// A verdict left or right has no strict weight, or an equal verdict has one.
    Strict,
}
