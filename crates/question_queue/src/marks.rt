//! What is marked of a class, and what a search wants.
ghost use Rattle.std.specs.Prelude.{◌≡◌};
ghost use Rattle.question_queue.specs.Pools.{is_given, is_wanted};

use criteria_model::Vector;

/// What is marked of a class.
#[derive(Clone, Copy)]
pub struct Mark {
    pub ranked: bool,
    pub asked: bool,
    /// The version at which it was last given out.
    pub given: Option<u32>,
}

/// Two vectors of a class, of which the one ranks its left side higher and the other its right side.
#[derive(Clone, Copy)]
pub struct Kept {
    pub plus: Vector,
    pub minus: Vector,
    /// How many answers, from the first on, both are known to meet.
    pub met: u32,
}

/// What a search wants.
#[derive(Clone, Copy)]
pub(crate) enum Wanted {
    /// A class that isn't ranked.
    Unranked,
    /// A class that is neither ranked nor asked.
    Due,
    /// A class that isn't ranked and wasn't last given out at this version.
    Job { version: u32 },
}

impl Mark {
    /// Whether the class was last given out at the version.
    fn is_given(&self, version: u32) -> bool
        ensures { result ≡ is_given version self.now.given }
    {
        match self.given {
            Some(given) => given == version,
            None => false,
        }
    }
}

impl Wanted {
    /// Whether the class of the mark is wanted.
    pub fn is(self, mark: &Mark) -> bool
        ensures { result ≡ is_wanted self mark.now }
    {
        match self {
            Wanted::Unranked => !mark.ranked,
            Wanted::Due => !(mark.ranked || mark.asked),
            Wanted::Job { version } => !(mark.ranked || mark.is_given(version)),
        }
    }
}
