//! The lines of a result.
ghost use Rattle.std.specs.Prelude.{◌≡◌, length, int_le, pos};
ghost use Rattle.std.specs.List.{list_all};
ghost use Rattle.criteria_model.specs.Criteria.{Criteria, IsModel};
ghost use Rattle.criteria_model.specs.Worth.{increments as increments_of};
ghost use Rattle.text_fields.specs.Reading.{ReadsAs};
ghost use Rattle.result_file.specs.Entries.{ReadsEntry};
ghost use Rattle.result_file.specs.Reading.{read_desk, read_numbers, read_vector, read_vectors, read_issue, read_commit, read_close, read_withdraw, read_step};

use crate::eliminations::{Elimination, elimination_of};
use crate::line_fields::{pair, side, weights};
use criteria_model::{Pair, Side, Vector};
use survey_core::{MAX_DESKS, MAX_EVENTS};
use text_fields::Fields;

/// What a line of a result says: an event of a survey, which names its class by the pair. Desks count from 1 to 4,
/// questions and answers from 1.
#[derive(Clone, Copy)]
pub enum Entry {
    /// A combination of the answers proves a verdict on a pair.
    Eliminate(Elimination),
    /// A pair is asked. The two vectors rank it in two ways.
    Issue {
        desk: u8,
        pair: Pair,
        plus: Vector,
        minus: Vector,
    },
    /// An answer to a question. The point meets all answers and this one.
    Commit {
        desk: u8,
        question: u32,
        side: Side,
        plus: Vector,
        minus: Vector,
        point: Vector,
    },
    /// A question is closed, since its pair was eliminated.
    Close {
        desk: u8,
        question: u32,
    },
    /// An answer is taken back.
    Withdraw {
        desk: u8,
        answer: u32,
    },
}

/// The two formats of a result: the first has no withdrawals.
#[derive(Clone, Copy, PartialEq, Eq, Debug)]
pub enum Format {
    One,
    Two,
}

/// The entry that a line spells, for these numbers of criteria and increments.
pub(crate) fn entry_of(
    line: &[u8],
    format: Format,
    criteria: usize,
    increments: usize,
) -> Option<Entry>
    ensures { (model : Criteria) → IsModel model → criteria ≡ length model.levels → increments ≡ increments_of model.levels →
        ReadsEntry format model line.now result }
{
    if let Some(elimination) = elimination_of(line, criteria, increments) {
        return Some(Entry::Eliminate(elimination));
    }
    step_of(line, format, criteria, increments)
}

/// The entry that a line spells, if it is no elimination.
#[tactic(auto, unfolding(crate::specs::Reading::read_step))]
fn step_of(line: &[u8], format: Format, criteria: usize, increments: usize) -> Option<Entry>
    ensures { result ≡ read_step format criteria increments line.now }
{
    if let Some(issue) = issue_of(line, criteria, increments) {
        return Some(issue);
    }
    if let Some(commit) = commit_of(line, increments) {
        return Some(commit);
    }
    if let Some(close) = close_of(line) {
        return Some(close);
    }
    match format {
        Format::One => None,
        Format::Two => withdraw_of(line),
    }
}

/// The entry that an issue line spells.
#[tactic(auto, unfolding(crate::specs::Reading::read_issue))]
fn issue_of(line: &[u8], criteria: usize, increments: usize) -> Option<Entry>
    ensures { result ≡ read_issue criteria increments line.now }
{
    let mut fields = Fields::of(line);
    fields.word(b"issue ")?;
    let desk = desk(&mut fields)?;
    fields.word(b" ")?;
    let pair = pair(&mut fields, criteria)?;
    fields.word(b" ")?;
    let (plus, minus) = vectors(&mut fields, increments)?;
    if !fields.is_empty() {
        return None;
    }
    Some(Entry::Issue {
        desk,
        pair,
        plus,
        minus,
    })
}

/// The entry that a commit line spells.
#[tactic(auto, unfolding(crate::specs::Reading::read_commit))]
fn commit_of(line: &[u8], increments: usize) -> Option<Entry>
    ensures { result ≡ read_commit increments line.now }
{
    let mut fields = Fields::of(line);
    fields.word(b"commit ")?;
    let (desk, question) = numbers(&mut fields)?;
    fields.word(b" ")?;
    let side = side(&mut fields)?;
    fields.word(b" ")?;
    let (plus, minus) = vectors(&mut fields, increments)?;
    fields.word(b" ")?;
    let point = vector(&mut fields, increments)?;
    if !fields.is_empty() {
        return None;
    }
    Some(Entry::Commit {
        desk,
        question,
        side,
        plus,
        minus,
        point,
    })
}

/// The entry that a close line spells.
#[tactic(auto, unfolding(crate::specs::Reading::read_close))]
fn close_of(line: &[u8]) -> Option<Entry>
    ensures { result ≡ read_close line.now }
{
    let mut fields = Fields::of(line);
    fields.word(b"close ")?;
    let (desk, question) = numbers(&mut fields)?;
    if !fields.is_empty() {
        return None;
    }
    Some(Entry::Close { desk, question })
}

/// The entry that a withdraw line spells.
#[tactic(auto, unfolding(crate::specs::Reading::read_withdraw))]
fn withdraw_of(line: &[u8]) -> Option<Entry>
    ensures { result ≡ read_withdraw line.now }
{
    let mut fields = Fields::of(line);
    fields.word(b"withdraw ")?;
    let (desk, answer) = numbers(&mut fields)?;
    if !fields.is_empty() {
        return None;
    }
    Some(Entry::Withdraw { desk, answer })
}

/// Reads a desk.
#[tactic(auto, unfolding(crate::specs::Reading::read_desk))]
fn desk(fields: &mut Fields<'_>) -> Option<u8>
    ensures { ReadsAs result fields.new (read_desk fields.old) }
{
    let desk = fields.small_number(MAX_DESKS)?;
    if desk == 0 {
        return None;
    }
    Some(desk)
}

/// Reads a desk, and the number of a question or of an answer.
#[tactic(auto, unfolding(crate::specs::Reading::read_numbers))]
fn numbers(fields: &mut Fields<'_>) -> Option<(u8, u32)>
    ensures { ReadsAs result fields.new (read_numbers fields.old) }
{
    let desk = desk(fields)?;
    fields.word(b" ")?;
    let number = fields.number(MAX_EVENTS)?;
    if number == 0 {
        return None;
    }
    Some((desk, number))
}

/// Reads a vector with a positive number for each increment.
#[tactic(auto, unfolding(crate::specs::Reading::read_vector))]
fn vector(fields: &mut Fields<'_>, increments: usize) -> Option<Vector>
    ensures { ReadsAs result fields.new (read_vector increments fields.old) }
{
    let vector = weights(fields, increments)?;
    if !is_positive(&vector) {
        return None;
    }
    Some(vector)
}

/// Whether each number of the vector is positive.
fn is_positive(vector: &Vector) -> bool
    ensures { result ≡ list_all (int_le (pos 1)) vector.now }
{
    vector.as_slice().iter().all(|&number| number >= 1)
}

/// Reads the two vectors that open a pair.
#[tactic(auto, unfolding(crate::specs::Reading::read_vectors))]
fn vectors(fields: &mut Fields<'_>, increments: usize) -> Option<(Vector, Vector)>
    ensures { ReadsAs result fields.new (read_vectors increments fields.old) }
{
    let plus = vector(fields, increments)?;
    fields.word(b" ")?;
    let minus = vector(fields, increments)?;
    Some((plus, minus))
}
