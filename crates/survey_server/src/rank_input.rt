//! What is to be ranked: a definition line, a values line and a table.
ghost use Rattle.std.specs.Prelude.{◌≡◌, Ok, Err, Some, true, IfErr, IfOk, IfSome, OnOk};
ghost use Rattle.edges.specs.Faults.{CountsFaults};
ghost use Rattle.edges.specs.Lines.{ahead};
ghost use Rattle.edges.specs.Told.{IsAtEnd};
ghost use Rattle.ranking.specs.declared.stops.RankStop.TheVariants.{NoMemory as NoMemoryStop};
ghost use Rattle.survey_server.specs.declared.rank_input.RankRefusal.TheVariants.{Stopped as StoppedBy};
ghost use Rattle.survey_server.specs.RankInput.{IsToldInput, IsUnderRanking};

use crate::input_lines::{FirstLineStop, read_first_line, read_line};
use crate::survey_names::SurveyNames;
use edges::{Failed, Lines, NoMemory, Rest, Source};
use json_forms::{Definition, DefinitionFault, MAX_DEFINITION, read_vector};
use ranking::{RankStop, Ranked, rank};
use result_file::MAX_LINE;
use std::alloc::Global;

/// Why nothing is ranked.
#[derive(Clone, Copy, Debug)]
pub(crate) enum RankRefusal {
    /// The first line is no definition.
    Definition(DefinitionFault),
    /// The second line is no values line of its model.
    Values,
    /// The table is refused, or the source failed, or there was no memory.
    Stopped(RankStop),
}

impl From<NoMemory> for RankRefusal {
    ghost from_gives = { λ _ refusal. refusal ≡ StoppedBy NoMemoryStop };

    fn from(_: NoMemory) -> RankRefusal {
        RankRefusal::Stopped(RankStop::NoMemory)
    }
}

/// Ranks the table that follows the two lines of the source.
pub(crate) fn rank_input<S: Source>(alloc: Global, source: &mut S) -> Result<Ranked, RankRefusal>
    ensures ranked { IsToldInput (S.left source.old) result }
    ensures ended { OnOk result (IsAtEnd (S.left source.new)) }
    ensures faults { CountsFaults (result ≡ Err (RankRefusal.Stopped RankStop.ReadFault)) (S.faults source.old) (S.faults source.new) }
{
    let mut lines = Lines::reserve(alloc, MAX_DEFINITION)?;
    match read_first_line(alloc, &mut lines, source) {
        Ok(definition) => {
            lines.limit(MAX_LINE);
            rank_under(alloc, definition, &mut lines, source)
        }
        Err(FirstLineStop::Refused(fault)) => Err(RankRefusal::Definition(fault)),
        Err(FirstLineStop::ReadFault) => Err(RankRefusal::Stopped(RankStop::ReadFault)),
        Err(FirstLineStop::NoMemory) => Err(RankRefusal::Stopped(RankStop::NoMemory)),
    }
}

/// Ranks the table that follows the values line.
fn rank_under<S: Source>(
    alloc: Global,
    definition: Definition,
    lines: &mut Lines,
    source: &mut S,
) -> Result<Ranked, RankRefusal>
    requires { lines.old.longest ≡ MAX_LINE }
    ensures ranked { IfSome (ahead lines.old (S.left source.old)) (λ text. IsUnderRanking definition text result) }
    ensures ended { OnOk result (IsAtEnd (S.left source.new)) }
    ensures faults { CountsFaults (result ≡ Err (RankRefusal.Stopped RankStop.ReadFault)) (S.faults source.old) (S.faults source.new) }
{
    let names = SurveyNames { definition };
    match read_line(lines, source) {
        Err(Failed) => Err(RankRefusal::Stopped(RankStop::ReadFault)),
        Ok(false) => Err(RankRefusal::Values),
        Ok(true) => match read_vector(alloc, lines.line(), &names.definition.model()) {
            Err(NoMemory) => Err(RankRefusal::Stopped(RankStop::NoMemory)),
            Ok(None) => Err(RankRefusal::Values),
            Ok(Some(vector)) => {
                match rank(alloc, &names, &vector, &mut Rest::of(lines, source)) {
                    Ok(ranked) => Ok(ranked),
                    Err(stop) => Err(RankRefusal::Stopped(stop)),
                }
            }
        },
    }
}
