ghost use Rattle.std.specs.Prelude.{None, Some};
ghost use Rattle.result_file.specs.Reading.{read_elimination};
ghost use Rattle.result_file.specs.Eliminations.{Reads};

use crate::line_fields::{combination, ranking};
use criteria_model::{Pair, Side};
use farkas_check::{Cite, Cites, Combination};
use survey_core::MAX_WORKERS;
use text_fields::Fields;

/// What stands in a cell that holds no cite.
const NO_CITE: Cite = Cite {
    answer: 0,
    weight: 0,
};

/// A verdict on a pair, with the combination of answers that is to prove it.
#[derive(Clone, Copy)]
pub struct Elimination {
    /// Who found it: an eliminator's number, or 0.
    pub worker: u8,
    pub pair: Pair,
    pub verdict: Side,
    pub combination: Combination,
}

/// The elimination that a line spells, for these numbers of criteria and increments.
#[tactic(auto, unfolding(crate::specs::Reading::read_elimination))]
pub(crate) fn elimination_of(line: &[u8], criteria: usize, increments: usize) -> Option<Elimination>
    ensures { Reads result (read_elimination criteria increments line.now) }
{
    let mut fields = Fields::of(line);
    fields.word(b"eliminate ")?;
    let worker = fields.small_number(MAX_WORKERS)?;
    fields.word(b" ")?;
    let claim = ranking(&mut fields, criteria)?;
    fields.word(b" ")?;
    let mut cells = [NO_CITE; 24];
    let (scale, weights, count) = combination(&mut fields, increments, &mut cells)?;
    if !fields.is_empty() {
        return None;
    }
    let answers = Cites::of(&cells[..count])?;
    Some(Elimination {
        worker,
        pair: claim.pair,
        verdict: claim.side,
        combination: Combination {
            scale,
            increments: weights,
            answers,
        },
    })
}
