//! Writes the lines of events. Each call says how many bytes it writes at most, and none takes memory.
ghost use Rattle.std.specs.Prelude.{◌≡◌, ℕ, ◌+◌, ◌*◌, ◌<◌, ◌≤◌, List, [], ◌∷◌, ◌++◌, length};
ghost use Rattle.std.specs.List.{flat_map};
ghost use Rattle.std.specs.Fmt.{decimal, signed_decimal};
ghost use Rattle.text_fields.specs.Spelling.{listed};
ghost use Rattle.criteria_model.specs.Lists.{IsVector};
ghost use Rattle.farkas_check.specs.Cited.{AreCites};
ghost use Rattle.result_file.specs.Events.{entry_on};
ghost use Rattle.result_file.specs.Numbers.{HasNumbers};
ghost use Rattle.edges.specs.Line.{unlines};
ghost use Rattle.result_file.specs.declared.entries.Format.TheVariants.{Two};
ghost use Rattle.result_file.specs.declared.kinds.Kind.TheVariants.{Result};
ghost use Rattle.result_file.specs.Texts.{heading, model_line, pair_text, side_text, cite_text, cites_text, combination_text, elimination_line, vector_text, vectors_text, numbers_text, issue_line, commit_line, entry_line};

use crate::limits::MAX_LINE;
use criteria_model::{Model, Pair, Side, Vector};
use edges::Text;
use farkas_check::{Cite, Cites, Combination};
use itoa::Buffer;
use survey_core::Event;

/// What stands in a list.
trait Item: Copy {
    // The item's text, and the most bytes of it.
    ghost text: { Self → List ℕ };

    ghost longest: { ℕ };

    /// Writes the item.
    fn write(self, out: &mut Text)
        requires { length out.old.bytes + longest ≤ out.old.room }
        ensures bytes { out.new.bytes ≡ out.old.bytes ++ text self }
        ensures room { out.new.room ≡ out.old.room }
        ensures grown { length out.new.bytes ≤ length out.old.bytes + longest };
}

/// A level, a worker or a desk.
impl Item for u8 {
    ghost text = { decimal };

    ghost longest = { 3 };

    fn write(self, out: &mut Text) {
        let mut buffer = Buffer::new();
        out.add(buffer.format(self).as_bytes());
    }
}

/// The number of a question or of an answer.
impl Item for u32 {
    ghost text = { decimal };

    ghost longest = { 10 };

    fn write(self, out: &mut Text) {
        let mut buffer = Buffer::new();
        out.add(buffer.format(self).as_bytes());
    }
}

/// A certificate number.
impl Item for i128 {
    ghost text = { signed_decimal };

    ghost longest = { 40 };

    fn write(self, out: &mut Text) {
        let mut buffer = Buffer::new();
        out.add(buffer.format(self).as_bytes());
    }
}

/// A cited answer and its weight.
impl Item for Cite {
    ghost text = { cite_text };

    ghost longest = { 51 };

    fn write(self, out: &mut Text) {
        self.answer.write(out);
        out.add(b":");
        self.weight.write(out);
    }
}

/// Writes the items, joined by commas.
fn write_list<T: Item>(items: &[T], out: &mut Text)
    requires { length out.old.bytes + (T.longest + 1) * length items.now ≤ out.old.room }
    ensures bytes { out.new.bytes ≡ out.old.bytes ++ listed T.text items.now }
    ensures room { out.new.room ≡ out.old.room }
    ensures grown { length out.new.bytes ≤ length out.old.bytes + (T.longest + 1) * length items.now }
{
    if let [first, rest @ ..] = items {
        first.write(out);
        write_others(rest, out);
    }
}

/// Writes the items, each after a comma.
fn write_others<T: Item>(items: &[T], out: &mut Text)
    requires { length out.old.bytes + (T.longest + 1) * length items.now ≤ out.old.room }
    ensures bytes { out.new.bytes ≡ out.old.bytes ++ flat_map (λ item. 0x2C ∷ T.text item) items.now }
    ensures room { out.new.room ≡ out.old.room }
    ensures grown { length out.new.bytes ≤ length out.old.bytes + (T.longest + 1) * length items.now }
{
    for item in items {
        out.add(b",");
        item.write(out);
    }
}

/// Writes a pair.
fn write_pair(pair: &Pair, out: &mut Text)
    requires { length out.old.bytes + 193 ≤ out.old.room }
    ensures bytes { out.new.bytes ≡ out.old.bytes ++ pair_text pair.now }
    ensures room { out.new.room ≡ out.old.room }
    ensures grown { length out.new.bytes ≤ length out.old.bytes + 193 }
{
    write_list(pair.left.as_slice(), out);
    out.add(b"/");
    write_list(pair.right.as_slice(), out);
}

/// The word of a side.
fn side_word(side: Side) -> &'static [u8]
    ensures value { result.now ≡ side_text side }
    ensures short { length result.now ≤ 5 }
{
    match side {
        Side::Left => b"left",
        Side::Right => b"right",
        Side::Equal => b"equal",
    }
}

/// Writes a desk, and the number of a question or of an answer.
fn write_numbers(desk: u8, number: u32, out: &mut Text)
    requires { length out.old.bytes + 14 ≤ out.old.room }
    ensures bytes { out.new.bytes ≡ out.old.bytes ++ numbers_text desk number }
    ensures room { out.new.room ≡ out.old.room }
    ensures grown { length out.new.bytes ≤ length out.old.bytes + 14 }
{
    desk.write(out);
    out.add(b" ");
    number.write(out);
}

/// Writes a vector.
fn write_vector(vector: &Vector, out: &mut Text)
    requires { length out.old.bytes + 984 ≤ out.old.room }
    ensures bytes { out.new.bytes ≡ out.old.bytes ++ vector_text vector.now }
    ensures room { out.new.room ≡ out.old.room }
    ensures grown { length out.new.bytes ≤ length out.old.bytes + 984 }
    ensures numbers { IsVector vector.now }
{
    write_list(vector.as_slice(), out);
}

/// Writes the two vectors that open a pair.
fn write_vectors(plus: &Vector, minus: &Vector, out: &mut Text)
    requires { length out.old.bytes + 1969 ≤ out.old.room }
    ensures bytes { out.new.bytes ≡ out.old.bytes ++ vectors_text plus.now minus.now }
    ensures room { out.new.room ≡ out.old.room }
    ensures grown { length out.new.bytes ≤ length out.old.bytes + 1969 }
    ensures plus { IsVector plus.now }
    ensures minus { IsVector minus.now }
{
    write_vector(plus, out);
    out.add(b" ");
    write_vector(minus, out);
}

/// Writes cites, or a dash for none.
fn write_cites(cites: &Cites, out: &mut Text)
    requires { length out.old.bytes + 1248 ≤ out.old.room }
    ensures bytes { out.new.bytes ≡ out.old.bytes ++ cites_text cites.now }
    ensures room { out.new.room ≡ out.old.room }
    ensures grown { length out.new.bytes ≤ length out.old.bytes + 1248 }
    ensures cites { AreCites cites.now }
{
    let cites = cites.as_slice();
    if cites.is_empty() {
        out.add(b"-");
    } else {
        write_list(cites, out);
    }
}

/// Writes a combination.
fn write_combination(combination: &Combination, out: &mut Text)
    requires { length out.old.bytes + 2274 ≤ out.old.room }
    ensures bytes { out.new.bytes ≡ out.old.bytes ++ combination_text combination.now }
    ensures room { out.new.room ≡ out.old.room }
    ensures grown { length out.new.bytes ≤ length out.old.bytes + 2274 }
    ensures weights { IsVector combination.now.increments }
    ensures cites { AreCites combination.now.answers }
{
    combination.scale.write(out);
    out.add(b" ");
    write_vector(&combination.increments, out);
    out.add(b" ");
    write_cites(&combination.answers, out);
}

fn write_elimination(
    worker: u8,
    pair: &Pair,
    verdict: Side,
    combination: &Combination,
    out: &mut Text,
)
    requires { length out.old.bytes + 2488 ≤ out.old.room }
    ensures bytes { out.new.bytes ≡ out.old.bytes ++ elimination_line (record { worker = worker; pair = pair.now; verdict = verdict; combination = combination.now }) }
    ensures room { out.new.room ≡ out.old.room }
    ensures grown { length out.new.bytes ≤ length out.old.bytes + 2488 }
    ensures weights { IsVector combination.now.increments }
    ensures cites { AreCites combination.now.answers }
{
    out.add(b"eliminate ");
    worker.write(out);
    out.add(b" ");
    write_pair(pair, out);
    out.add(b" ");
    out.add(side_word(verdict));
    out.add(b" ");
    write_combination(combination, out);
}

fn write_issue(desk: u8, pair: &Pair, plus: &Vector, minus: &Vector, out: &mut Text)
    requires { length out.old.bytes + 2173 ≤ out.old.room }
    ensures bytes { out.new.bytes ≡ out.old.bytes ++ issue_line desk pair.now plus.now minus.now }
    ensures room { out.new.room ≡ out.old.room }
    ensures grown { length out.new.bytes ≤ length out.old.bytes + 2173 }
    ensures plus { IsVector plus.now }
    ensures minus { IsVector minus.now }
{
    out.add(b"issue ");
    desk.write(out);
    out.add(b" ");
    write_pair(pair, out);
    out.add(b" ");
    write_vectors(plus, minus, out);
}

fn write_commit(
    desk: u8,
    question: u32,
    side: Side,
    plus: &Vector,
    minus: &Vector,
    point: &Vector,
    out: &mut Text,
)
    requires { length out.old.bytes + 2982 ≤ out.old.room }
    ensures bytes { out.new.bytes ≡ out.old.bytes ++ commit_line desk question side plus.now minus.now point.now }
    ensures room { out.new.room ≡ out.old.room }
    ensures grown { length out.new.bytes ≤ length out.old.bytes + 2982 }
    ensures plus { IsVector plus.now }
    ensures minus { IsVector minus.now }
    ensures point { IsVector point.now }
{
    out.add(b"commit ");
    write_numbers(desk, question, out);
    out.add(b" ");
    out.add(side_word(side));
    out.add(b" ");
    write_vectors(plus, minus, out);
    out.add(b" ");
    write_vector(point, out);
}

/// Writes the first two lines of a result in the second format.
pub(crate) fn write_heading(model: &Model, out: &mut Text)
    requires { length out.old.bytes + 200 ≤ out.old.room }
    ensures bytes { out.new.bytes ≡ out.old.bytes ++ unlines (heading (Result Two) ∷ model_line model.now ∷ []) }
    ensures room { out.new.room ≡ out.old.room }
{
    out.add(b"paprika result 2\nmodel ");
    write_levels(model, out);
    out.add(b" degree ");
    model.degree().write(out);
    out.add(b"\n");
}

/// Writes the number of each criterion's levels.
fn write_levels(model: &Model, out: &mut Text)
    requires { length out.old.bytes + 96 ≤ out.old.room }
    ensures bytes { out.new.bytes ≡ out.old.bytes ++ listed decimal model.now.levels }
    ensures room { out.new.room ≡ out.old.room }
    ensures grown { length out.new.bytes ≤ length out.old.bytes + 96 }
{
    let criteria = model.criteria();
    write_levels_of(model, criteria, out);
}

/// The same, where the number of criteria is known.
fn write_levels_of(model: &Model, criteria: u8, out: &mut Text)
    requires some { 1 ≤ criteria }
    requires all { criteria ≡ length model.now.levels }
    requires room { length out.old.bytes + 4 * criteria ≤ out.old.room }
    ensures bytes { out.new.bytes ≡ out.old.bytes ++ listed decimal model.now.levels }
    ensures room { out.new.room ≡ out.old.room }
    ensures grown { length out.new.bytes ≤ length out.old.bytes + 4 * criteria }
{
    model.levels(1).write(out);
    for criterion in 1..criteria {
        out.add(b",");
        model.levels(criterion + 1).write(out);
    }
}

/// Writes a word, a desk and a number.
fn write_numbered(word: &[u8], desk: u8, number: u32, out: &mut Text)
    requires word { length word.now ≤ 9 }
    requires room { length out.old.bytes + 23 ≤ out.old.room }
    ensures bytes { out.new.bytes ≡ out.old.bytes ++ (word.now ++ numbers_text desk number) }
    ensures room { out.new.room ≡ out.old.room }
    ensures grown { length out.new.bytes ≤ length out.old.bytes + 23 }
{
    out.add(word);
    write_numbers(desk, number, out);
}

/// Writes the line of an event, without its line end. The pair is that of the event's class: of an event that names no
/// class it isn't read.
pub fn write_event(event: &Event, class: &Pair, out: &mut Text)
    requires { length out.old.bytes + MAX_LINE ≤ out.old.room }
    ensures bytes { out.new.bytes ≡ out.old.bytes ++ entry_line (entry_on class.now event.now) }
    ensures room { out.new.room ≡ out.old.room }
    ensures short { length out.new.bytes < length out.old.bytes + MAX_LINE }
    ensures numbers { HasNumbers event.now }
{
    match event {
        Event::Eliminate {
            worker,
            verdict,
            combination,
            ..
        } => write_elimination(*worker, class, *verdict, combination, out),
        Event::Issue {
            desk,
            plus,
            minus,
            ..
        } => write_issue(*desk, class, plus, minus, out),
        Event::Commit {
            desk,
            question,
            side,
            plus,
            minus,
            point,
        } => write_commit(*desk, *question, *side, plus, minus, point, out),
        Event::Close { desk, question } => write_numbered(b"close ", *desk, *question, out),
        Event::Withdraw { desk, answer } => write_numbered(b"withdraw ", *desk, *answer, out),
    }
}
