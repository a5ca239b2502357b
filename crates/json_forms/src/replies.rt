#![tactic(auto, unfolding(json::specs::Print::escape_byte))]

ghost use Rattle.std.specs.Prelude.{◌≡◌, ◌+◌, ◌-◌, ◌*◌, ◌≤◌, ◌++◌, codes, decimal, length, slice_index};
ghost use Rattle.criteria_model.specs.Worth.{IsValueVector, increments};
ghost use Rattle.json.specs.Print.{quoted};
ghost use Rattle.serde_json.specs.Written.{compact_text};
ghost use Rattle.json_forms.specs.Json.{array_of, certificate, named};
ghost use Rattle.json_forms.specs.Sides.{side_word};
ghost use Rattle.json_forms.specs.Replies.{IsWritable, HasVector, json_line, reply_text, welcome_json, next_json, question_json, answer_json, implied_json, combination_json, values_json, vector_json, level_values, level_values_json, incomplete_json, withdraw_json, withdrawn_json, refused_json, word_text};

use crate::writing::{Item, separate, write_array};
use criteria_model::{MAX_LEVEL, Model, Pair, Side, Vector};
use edges::Text;
use farkas_check::Combination;
use part_worths::{level_value, shares};
use survey_replies::{AnswerReply, NextReply, ValuesReply, WithdrawReply};

/// The most bytes that are written for a reply, its line end among them.
pub const MAX_REPLY: u32 = 4_095;

/// Why a line is refused.
#[derive(Clone, Copy, PartialEq, Eq, Debug)]
pub enum Word {
    /// It is no message, or a second hello.
    Message,
    /// It is no hello.
    Hello,
    /// No respondent has the name.
    Name,
    /// The code isn't the respondent's.
    Code,
    /// There is no such desk.
    Desk,
    /// It is too long.
    Line,
    /// There were too many.
    Messages,
}

/// A reply to a line.
#[derive(Clone, Copy, PartialEq, Eq, Debug)]
pub enum Reply {
    Welcome { classes: u32, desk: u8 },
    Next(NextReply),
    Answer(AnswerReply),
    Values(ValuesReply),
    Withdraw(WithdrawReply),
    /// The result file of the first `length` events.
    Result { length: u32 },
    Bye,
    Refused(Word),
}

/// Writes the line of a reply. For [`Reply::Result`] nothing is written: its text is the result file.
pub fn write_reply(reply: &Reply, model: &Model, out: &mut Text)
    requires vector { IsWritable model.now.levels reply.now }
    requires room { length out.old.bytes + MAX_REPLY ≤ out.old.room }
    ensures bytes { out.new.bytes ≡ out.old.bytes ++ reply_text model.now.levels reply.now }
    ensures room { out.new.room ≡ out.old.room }
    ensures short { length (reply_text model.now.levels reply.now) ≤ MAX_REPLY }
{
    match reply {
        Reply::Welcome { classes, desk } => write_welcome(*classes, *desk, out),
        Reply::Next(reply) => write_next(reply, out),
        Reply::Answer(reply) => write_answer(reply, out),
        Reply::Values(reply) => write_values(reply, model, out),
        Reply::Withdraw(reply) => write_withdraw(*reply, out),
        Reply::Result { .. } => {}
        Reply::Bye => out.add(b"{\"bye\":true}\n"),
        Reply::Refused(word) => write_refused(*word, out),
    }
}

fn write_welcome(classes: u32, desk: u8, out: &mut Text)
    requires { length out.old.bytes + MAX_REPLY ≤ out.old.room }
    ensures bytes { out.new.bytes ≡ out.old.bytes ++ json_line (welcome_json classes desk) }
    ensures room { out.new.room ≡ out.old.room }
    ensures grown { length out.new.bytes ≤ length out.old.bytes + MAX_REPLY }
{
    out.add(b"{\"welcome\":{\"classes\":");
    classes.write(out);
    out.add(b",\"desk\":");
    desk.write(out);
    out.add(b"}}\n");
}

fn write_next(reply: &NextReply, out: &mut Text)
    requires { length out.old.bytes + MAX_REPLY ≤ out.old.room }
    ensures bytes { out.new.bytes ≡ out.old.bytes ++ json_line (next_json reply.now) }
    ensures room { out.new.room ≡ out.old.room }
    ensures grown { length out.new.bytes ≤ length out.old.bytes + MAX_REPLY }
{
    match reply {
        NextReply::Question { number, pair, .. } => write_question(*number, pair, out),
        NextReply::Full { .. } => out.add(b"{\"full\":true}\n"),
        NextReply::Waiting { .. } => out.add(b"{\"waiting\":true}\n"),
        NextReply::Complete { .. } => out.add(b"{\"complete\":true}\n"),
    }
}

fn write_question(number: u32, pair: &Pair, out: &mut Text)
    requires { length out.old.bytes + MAX_REPLY ≤ out.old.room }
    ensures bytes { out.new.bytes ≡ out.old.bytes ++ json_line (question_json number pair.now) }
    ensures room { out.new.room ≡ out.old.room }
    ensures grown { length out.new.bytes ≤ length out.old.bytes + MAX_REPLY }
{
    out.add(b"{\"question\":{\"left\":");
    write_array(pair.left.as_slice(), out);
    out.add(b",\"number\":");
    number.write(out);
    out.add(b",\"right\":");
    write_array(pair.right.as_slice(), out);
    out.add(b"}}\n");
}

fn write_answer(reply: &AnswerReply, out: &mut Text)
    requires { length out.old.bytes + MAX_REPLY ≤ out.old.room }
    ensures bytes { out.new.bytes ≡ out.old.bytes ++ json_line (answer_json reply.now) }
    ensures room { out.new.room ≡ out.old.room }
    ensures grown { length out.new.bytes ≤ length out.old.bytes + MAX_REPLY }
{
    match reply {
        AnswerReply::Accepted { question, .. } => write_numbered(b"{\"accepted\":", *question, out),
        AnswerReply::Unknown { question, .. } => write_numbered(b"{\"unknown\":", *question, out),
        AnswerReply::Closed { question, .. } => write_numbered(b"{\"closed\":", *question, out),
        AnswerReply::Implied {
            question,
            verdict,
            combination,
            ..
        } => write_implied(*question, *verdict, combination, out),
    }
}

/// Writes a line that ends with a number.
fn write_numbered(front: &[u8], number: u32, out: &mut Text)
    requires front { length front.now ≤ 16 }
    requires room { length out.old.bytes + 32 ≤ out.old.room }
    ensures bytes { out.new.bytes ≡ out.old.bytes ++ (front.now ++ (decimal number ++ codes "}\n")) }
    ensures room { out.new.room ≡ out.old.room }
    ensures grown { length out.new.bytes ≤ length out.old.bytes + 32 }
{
    out.add(front);
    number.write(out);
    out.add(b"}\n");
}

fn write_implied(question: u32, verdict: Side, combination: &Combination, out: &mut Text)
    requires { length out.old.bytes + MAX_REPLY ≤ out.old.room }
    ensures bytes { out.new.bytes ≡ out.old.bytes ++ json_line (implied_json question verdict combination.now) }
    ensures room { out.new.room ≡ out.old.room }
    ensures grown { length out.new.bytes ≤ length out.old.bytes + MAX_REPLY }
{
    out.add(b"{\"implied\":{\"combination\":");
    write_combination(combination, out);
    out.add(b",\"question\":");
    question.write(out);
    out.add(b",\"verdict\":");
    out.add(quoted_side(verdict).as_bytes());
    out.add(b"}}\n");
}

fn write_combination(combination: &Combination, out: &mut Text)
    requires { length out.old.bytes + 2500 ≤ out.old.room }
    ensures bytes { out.new.bytes ≡ out.old.bytes ++ compact_text (combination_json combination.now) }
    ensures room { out.new.room ≡ out.old.room }
    ensures grown { length out.new.bytes ≤ length out.old.bytes + 2500 }
{
    out.add(b"{\"answers\":");
    write_array(combination.answers.as_slice(), out);
    out.add(b",\"increments\":");
    write_array(combination.increments.as_slice(), out);
    out.add(b",\"scale\":");
    combination.scale.write(out);
    out.add(b"}");
}

/// The word of a side as a string.
fn quoted_side(side: Side) -> &'static str
    ensures value { result.now ≡ quoted (side_word side) }
    ensures short { length result.now ≤ 7 }
{
    match side {
        Side::Left => "\"left\"",
        Side::Right => "\"right\"",
        Side::Equal => "\"equal\"",
    }
}

fn write_values(reply: &ValuesReply, model: &Model, out: &mut Text)
    requires vector { HasVector model.now.levels reply.now }
    requires room { length out.old.bytes + MAX_REPLY ≤ out.old.room }
    ensures bytes { out.new.bytes ≡ out.old.bytes ++ json_line (values_json model.now.levels reply.now) }
    ensures room { out.new.room ≡ out.old.room }
    ensures grown { length out.new.bytes ≤ length out.old.bytes + MAX_REPLY }
{
    match reply {
        ValuesReply::Values { vector, .. } => write_vector(vector, model, out),
        ValuesReply::Incomplete { pair, .. } => write_incomplete(pair, out),
    }
}

fn write_vector(vector: &Vector, model: &Model, out: &mut Text)
    requires vector { IsValueVector model.now.levels vector.now }
    requires room { length out.old.bytes + MAX_REPLY ≤ out.old.room }
    ensures bytes { out.new.bytes ≡ out.old.bytes ++ json_line (named (codes "values") (vector_json model.now.levels vector.now)) }
    ensures room { out.new.room ≡ out.old.room }
    ensures grown { length out.new.bytes ≤ length out.old.bytes + MAX_REPLY }
{
    out.add(b"{\"values\":{\"levels\":");
    write_level_values(vector, model, out);
    out.add(b",\"vector\":");
    write_array(vector.as_slice(), out);
    out.add(b",\"weights\":");
    write_array(shares(model, vector).as_slice(), out);
    out.add(b"}}\n");
}

fn write_incomplete(pair: &Pair, out: &mut Text)
    requires { length out.old.bytes + MAX_REPLY ≤ out.old.room }
    ensures bytes { out.new.bytes ≡ out.old.bytes ++ json_line (incomplete_json pair.now) }
    ensures room { out.new.room ≡ out.old.room }
    ensures grown { length out.new.bytes ≤ length out.old.bytes + MAX_REPLY }
{
    out.add(b"{\"incomplete\":{\"left\":");
    write_array(pair.left.as_slice(), out);
    out.add(b",\"right\":");
    write_array(pair.right.as_slice(), out);
    out.add(b"}}\n");
}

/// Writes the values of all levels, an array for each criterion.
fn write_level_values(vector: &Vector, model: &Model, out: &mut Text)
    requires vector { IsValueVector model.now.levels vector.now }
    requires room { length out.old.bytes + 2500 ≤ out.old.room }
    ensures bytes { out.new.bytes ≡ out.old.bytes ++ compact_text (level_values_json model.now.levels vector.now) }
    ensures room { out.new.room ≡ out.old.room }
    ensures grown { length out.new.bytes ≤ length out.old.bytes + 2500 }
{
    out.add(b"[");
    for place in 0..model.criteria() {
        separate(place > 0, out);
        write_values_of(vector, model, place + 1, out);
    }
    out.add(b"]");
}

/// Writes the values of a criterion's levels.
fn write_values_of(vector: &Vector, model: &Model, criterion: u8, out: &mut Text)
    requires vector { IsValueVector model.now.levels vector.now }
    requires low { 1 ≤ criterion }
    requires high { criterion ≤ length model.now.levels }
    requires room { length out.old.bytes + 43 * slice_index model.now.levels (criterion - 1) + 2 ≤ out.old.room }
    ensures bytes { out.new.bytes ≡ out.old.bytes ++ compact_text (array_of certificate (level_values model.now.levels vector.now criterion)) }
    ensures room { out.new.room ≡ out.old.room }
    ensures grown { length out.new.bytes ≤ length out.old.bytes + 43 * slice_index model.now.levels (criterion - 1) + 2 }
{
    let count = model.levels(criterion);
    let mut values = [0; MAX_LEVEL as usize];
    for place in 0..count {
        values[usize::from(place)] = level_value(model, vector, criterion, place + 1);
    }
    write_array(&values[..usize::from(count)], out);
}

fn write_withdraw(reply: WithdrawReply, out: &mut Text)
    requires { length out.old.bytes + MAX_REPLY ≤ out.old.room }
    ensures bytes { out.new.bytes ≡ out.old.bytes ++ json_line (withdraw_json reply) }
    ensures room { out.new.room ≡ out.old.room }
    ensures grown { length out.new.bytes ≤ length out.old.bytes + MAX_REPLY }
{
    match reply {
        WithdrawReply::Withdrawn {
            answer,
            question,
            ..
        } => write_withdrawn(answer, question, out),
        WithdrawReply::Nothing { .. } => out.add(b"{\"nothing\":true}\n"),
        WithdrawReply::Spent { .. } => out.add(b"{\"spent\":true}\n"),
    }
}

fn write_withdrawn(answer: u32, question: u32, out: &mut Text)
    requires { length out.old.bytes + MAX_REPLY ≤ out.old.room }
    ensures bytes { out.new.bytes ≡ out.old.bytes ++ json_line (withdrawn_json answer question) }
    ensures room { out.new.room ≡ out.old.room }
    ensures grown { length out.new.bytes ≤ length out.old.bytes + MAX_REPLY }
{
    out.add(b"{\"withdrawn\":{\"answer\":");
    answer.write(out);
    out.add(b",\"question\":");
    question.write(out);
    out.add(b"}}\n");
}

fn write_refused(word: Word, out: &mut Text)
    requires { length out.old.bytes + MAX_REPLY ≤ out.old.room }
    ensures bytes { out.new.bytes ≡ out.old.bytes ++ json_line (refused_json word) }
    ensures room { out.new.room ≡ out.old.room }
    ensures grown { length out.new.bytes ≤ length out.old.bytes + MAX_REPLY }
{
    out.add(b"{\"refused\":\"");
    out.add(word_name(word).as_bytes());
    out.add(b"\"}\n");
}

/// The word of a refusal.
fn word_name(word: Word) -> &'static str
    ensures value { result.now ≡ word_text word }
    ensures short { length result.now ≤ 8 }
{
    match word {
        Word::Message => "message",
        Word::Hello => "hello",
        Word::Name => "name",
        Word::Code => "code",
        Word::Desk => "desk",
        Word::Line => "line",
        Word::Messages => "messages",
    }
}

#[cfg(test)]
mod tests;
