//! Why a table isn't ranked.
ghost use Rattle.std.specs.Prelude.{◌≡◌};
ghost use Rattle.ranking.specs.declared.stops.RankStop.TheVariants.{NoMemory as NoMemoryStop};

use crate::NoMemory;

/// The greatest number of bytes of a table.
pub const MAX_TABLE: usize = 1_048_576;

/// Why a table isn't ranked. Records count from 1, the header being 1, and columns from 1, the name being 1.
#[derive(Clone, Copy, PartialEq, Eq, Debug)]
pub enum RankStop {
    /// The source failed.
    ReadFault,
    /// There are more than [`MAX_TABLE`] bytes.
    TableLong,
    /// The first record isn't the header for these criteria.
    Header,
    /// The record has too few or too many fields.
    Row { place: u32 },
    /// The text in this column is no level of its criterion.
    Level { place: u32, column: u32 },
    /// There was no memory.
    NoMemory,
}

impl From<NoMemory> for RankStop {
    ghost from_gives = { λ _ stop. stop ≡ NoMemoryStop };

    fn from(_: NoMemory) -> RankStop {
        RankStop::NoMemory
    }
}
