//! A search that goes on where the last one ended.
ghost use Rattle.std.specs.Prelude.{◌+◌, ◌≡◌, ◌≤◌};
ghost use Rattle.std.specs.List.{position_or_len};
ghost use Rattle.question_queue.specs.Pools.{is_wanted};

use crate::marks::{Mark, Wanted};
use crate::steps::Steps;
use std::sync::ledger::Ledger;

/// How many marks stand before the first that is wanted; all, where none is. So many are known to stand before it.
pub(crate) fn first_from<L: Ledger>(
    marks: &[Mark],
    wanted: Wanted,
    from: usize,
    steps: &mut Steps<L>,
) -> usize
    requires { from ≤ position_or_len (is_wanted wanted) marks.now }
    ensures first { result ≡ position_or_len (is_wanted wanted) marks.now }
    ensures cost { steps.new + from ≤ steps.old + 1 + result }
{
    for place in from..marks.len() {
        steps.look();
        if wanted.is(&marks[place]) {
            return place;
        }
    }
    marks.len()
}
