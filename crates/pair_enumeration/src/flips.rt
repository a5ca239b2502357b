/// Whether two alternatives are the sides of their class as they were given, or with their sides exchanged.
#[derive(Clone, Copy, PartialEq, Eq, Debug)]
pub enum Flip {
    Kept,
    Turned,
}
