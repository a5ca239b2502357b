//! What the locks guard: a number of steps, with an empty journal.
use turn_lock::Journalled;

/// What is stepped: a plain number.
#[derive(Drop)]
pub struct Counter {
    pub steps: u64,
}

impl Journalled for Counter {
    type Entry = ();

    type Kind = ();

    ghost use Rattle.std.specs.Prelude.{[]};

    ghost entries = { λ _. [] };

    ghost kind = { λ _. tt };

    fn count(&self) -> u64 {
        0
    }
}
