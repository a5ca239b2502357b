//! The fields of a line.
ghost use Rattle.std.specs.Prelude.{◌≡◌, ◌<◌, ◌≤◌, None, Some, length, take, MatchOption, IfSome};
ghost use Rattle.text_fields.specs.Spelling.{IsCertificate};
ghost use Rattle.text_fields.specs.Reading.{ReadsAs, ReadsListAs, read_list};
ghost use Rattle.result_file.specs.Reading.{read_tuple, read_pair, read_side, read_ranking, read_answer, read_model, read_weights, read_cite, read_cites, read_combination};

use crate::limits::MAX_MODEL_NUMBER;
use criteria_model::{Answer, MAX_LEVEL, Pair, Side, Tuple, Vector};
use farkas_check::Cite;
use survey_core::MAX_EVENTS;
use text_fields::Fields;

/// Reads the levels into the front of `cells`, and says how many there are and what the degree is.
#[tactic(auto, unfolding(crate::specs::Reading::read_model))]
pub(crate) fn model_of(line: &[u8], cells: &mut [u32; 2048]) -> Option<(usize, u32)>
    ensures { MatchOption result
        (read_model line.now ≡ None)
        (λ found. (found.0 ≤ 2048) × (read_model line.now ≡ Some (take found.0 cells.new, found.1))) }
{
    let mut fields = Fields::of(line);
    fields.word(b"model ")?;
    let count = fields.numbers(MAX_MODEL_NUMBER, cells)?;
    fields.word(b" degree ")?;
    let degree = fields.number(MAX_MODEL_NUMBER)?;
    if !fields.is_empty() {
        return None;
    }
    Some((count, degree))
}

/// Reads one side of a pair.
#[tactic(auto, unfolding(crate::specs::Reading::read_tuple))]
fn tuple(fields: &mut Fields<'_>, criteria: usize) -> Option<Tuple>
    ensures { ReadsAs result fields.new (read_tuple criteria fields.old) }
{
    let mut cells = [0; 24];
    let count = fields.small_numbers(MAX_LEVEL, &mut cells)?;
    if count != criteria {
        return None;
    }
    Some(Tuple::of(&cells[..count]))
}

/// Reads a pair.
#[tactic(auto, unfolding(crate::specs::Reading::read_pair))]
pub(crate) fn pair(fields: &mut Fields<'_>, criteria: usize) -> Option<Pair>
    ensures { ReadsAs result fields.new (read_pair criteria fields.old) }
{
    let left = tuple(fields, criteria)?;
    fields.word(b"/")?;
    let right = tuple(fields, criteria)?;
    Some(Pair { left, right })
}

/// Reads a side.
#[tactic(auto, unfolding(crate::specs::Reading::read_side))]
pub(crate) fn side(fields: &mut Fields<'_>) -> Option<Side>
    ensures { ReadsAs result fields.new (read_side fields.old) }
{
    if fields.word(b"left").is_some() {
        return Some(Side::Left);
    }
    if fields.word(b"right").is_some() {
        return Some(Side::Right);
    }
    fields.word(b"equal")?;
    Some(Side::Equal)
}

/// Reads a pair and a side of it.
#[tactic(auto, unfolding(crate::specs::Reading::read_ranking))]
pub(crate) fn ranking(fields: &mut Fields<'_>, criteria: usize) -> Option<Answer>
    ensures { ReadsAs result fields.new (read_ranking criteria fields.old) }
{
    let pair = pair(fields, criteria)?;
    fields.word(b" ")?;
    let side = side(fields)?;
    Some(Answer { pair, side })
}

/// The answer that a line spells, for this number of criteria.
#[tactic(auto, unfolding(crate::specs::Reading::read_answer))]
pub(crate) fn answer_of(line: &[u8], criteria: usize) -> Option<Answer>
    ensures { result ≡ read_answer criteria line.now }
{
    let mut fields = Fields::of(line);
    fields.word(b"answer ")?;
    let answer = ranking(&mut fields, criteria)?;
    if !fields.is_empty() {
        return None;
    }
    Some(answer)
}

/// Reads the increments' weights.
#[tactic(auto, unfolding(crate::specs::Reading::read_weights))]
pub(crate) fn weights(fields: &mut Fields<'_>, increments: usize) -> Option<Vector>
    ensures { ReadsAs result fields.new (read_weights increments fields.old) }
{
    let mut cells = [0; 24];
    let count = fields.certificates(&mut cells)?;
    if count != increments {
        return None;
    }
    Some(Vector::of(&cells[..count]))
}

/// Reads a cited answer and its weight.
#[tactic(auto, unfolding(crate::specs::Reading::read_cite))]
fn cite(fields: &mut Fields<'_>) -> Option<Cite>
    ensures exact { ReadsAs result fields.new (read_cite fields.old) }
    ensures weight { IfSome result (λ cite. IsCertificate cite.weight) }
{
    let answer = fields.number(MAX_EVENTS)?;
    fields.word(b":")?;
    let weight = fields.certificate()?;
    Some(Cite { answer, weight })
}

/// Reads cites, joined by commas, into the front of `cells`, and says how many: at least one, and as many as come
/// next or there are cells.
fn cite_list(fields: &mut Fields<'_>, cells: &mut [Cite]) -> Option<usize>
    requires { 0 < length cells.old }
    ensures exact { ReadsListAs result cells.new fields.new (read_list read_cite (length cells.old) fields.old) }
{
    cells[0] = cite(fields)?;
    let mut count = 1;
    while count < cells.len() && fields.skip(b',') {
        cells[count] = cite(fields)?;
        count += 1;
    }
    Some(count)
}

/// Reads the cites of a combination, in whatever order, into the front of `cells`, and says how many.
#[tactic(auto, unfolding(crate::specs::Reading::read_cites))]
fn cites(fields: &mut Fields<'_>, cells: &mut [Cite; 24]) -> Option<usize>
    ensures { ReadsListAs result cells.new fields.new (read_cites fields.old) }
{
    if fields.skip(b'-') {
        return Some(0);
    }
    cite_list(fields, cells)
}

/// Reads a combination: its scale, the increments' weights, and its cites, in whatever order, into the front of
/// `cells`; says how many cites there are.
#[tactic(auto, unfolding(crate::specs::Reading::read_combination))]
pub(crate) fn combination(
    fields: &mut Fields<'_>,
    increments: usize,
    cells: &mut [Cite; 24],
) -> Option<(i128, Vector, usize)>
    ensures exact { MatchOption result
        (read_combination increments fields.old ≡ None)
        (λ found. read_combination increments fields.old
        ≡ Some (record { scale = found.0; increments = found.1; answers = take found.2 cells.new }, fields.new)) }
    ensures within { IfSome result (λ found. found.2 ≤ 24) }
    ensures scale { IfSome result (λ found. IsCertificate found.0) }
{
    let scale = fields.certificate()?;
    fields.word(b" ")?;
    let weights = weights(fields, increments)?;
    fields.word(b" ")?;
    let count = cites(fields, cells)?;
    Some((scale, weights, count))
}
