//! For each increment, what one list of levels has more than another.
ghost use Rattle.std.specs.Prelude.{◌≡◌, ◌+◌, ◌≤◌, ◌-ℤ◌, length, take};
ghost use Rattle.row_laws.specs.Rows.{minus};
ghost use Rattle.criteria_model.specs.Worth.{increments, has, has_on, lies_above};

use crate::limits::MAX_INCREMENTS;

/// For each increment, whether the first has it minus whether the second has it, and 0 after them.
pub(crate) fn differences(counts: &[u8], high: &[u8], low: &[u8]) -> [i8; MAX_INCREMENTS]
    requires few { increments counts.now ≤ MAX_INCREMENTS }
    requires high_len { length high.now ≡ length counts.now }
    requires low_len { length low.now ≡ length counts.now }
    ensures { take (increments counts.now) result ≡ minus (has counts.now high.now) (has counts.now low.now) }
{
    let mut cells = [0; MAX_INCREMENTS];
    let mut at = 0;
    for place in 0..counts.len() {
        let steps = usize::from(counts[place]).saturating_sub(1);
        fill(&mut cells[at..at + steps], high[place], low[place]);
        at += steps;
    }
    cells
}

/// Writes the differences on one criterion, from its lowest increment on.
fn fill(cells: &mut [i8], high: u8, low: u8)
    ensures { cells.new ≡ minus (has_on (length cells.old + 1) high) (has_on (length cells.old + 1) low) }
{
    for (place, cell) in cells.iter_mut().enumerate() {
        *cell = difference_at(high, low, place + 1);
    }
}

/// Whether the first level lies above the increment minus whether the second does.
fn difference_at(high: u8, low: u8, increment: usize) -> i8
    ensures { result ≡ lies_above high increment -ℤ lies_above low increment }
{
    match (increment < usize::from(high), increment < usize::from(low)) {
        (true, false) => 1,
        (false, true) => -1,
        _ => 0,
    }
}
