//! What a turn can lend.
ghost use Rattle.std.specs.Prelude.{◌≡◌, List, length};

/// A value that keeps a list of entries, from place 0 on, and belongs to a kind.
pub trait Journalled {
    /// What an entry is, for contracts.
    type Entry;

    /// What stays the same for as long as the list grows, for contracts.
    type Kind;

    ghost entries: { Self → List Self.Entry };

    ghost kind: { Self → Self.Kind };

    /// How many entries the list has.
    fn count(&self) -> u64
        ensures { result ≡ length (entries self.now) };
}
