ghost use Rattle.std.specs.Prelude.{◌≡◌, option_map, option_and_then, IfOk};
ghost use Rattle.serde_json.specs.Find.{as_str};
ghost use Rattle.serde_json.specs.View.{view};
ghost use Rattle.json_forms.specs.HelloView.{HelloView};
ghost use Rattle.json_forms.specs.Sides.{side_of};
ghost use Rattle.json_forms.specs.Messages.{request_of, question_of, hello_in, answer_in, message_in, message_of};

use crate::members::{only_member, read_json, text_member, whole_member};
use criteria_model::Side;
use edges::NoMemory;
use serde_json::Value;
use std::alloc::Global;
use std::marker::Model;

/// Who says hello, and at which desk.
#[derive(Drop)]
pub struct Hello {
    name: String,
    code: String,
    desk: u64,
}

impl Model for Hello {
    ghost use Rattle.std.specs.Prelude.{string_bytes};
    ghost use Rattle.json_forms.specs.HelloView.{HelloView};

    ghost Value = { HelloView };

    ghost view = { λ h. record { name = string_bytes h.name; code = string_bytes h.code; desk = h.desk } };
}

impl Hello {
    /// The respondent's name.
    pub fn name(&self) -> &[u8]
        ensures { result.now ≡ self.now.name }
    {
        self.name.as_bytes()
    }

    /// The respondent's code.
    pub fn code(&self) -> &[u8]
        ensures { result.now ≡ self.now.code }
    {
        self.code.as_bytes()
    }

    /// The number of the desk, which may be one that there isn't.
    pub fn desk(&self) -> u64
        ensures { result ≡ self.now.desk }
    {
        self.desk
    }
}

/// A message of a session.
#[derive(Drop)]
pub enum Message {
    Hello(Hello),
    Next,
    Answer { question: u32, side: Side },
    Values,
    Withdraw,
    Result,
    Bye,
}

/// The message that the line is, without its line end; `None` where it is none. Only a hello takes memory that is kept.
pub fn read_message(alloc: Global, line: &[u8]) -> Result<Option<Message>, NoMemory>
    ensures exact { IfOk result (λ message. message ≡ message_of line.now) }
{
    match read_json(alloc, line)? {
        Some(value) => message_from(alloc, &value),
        None => Ok(None),
    }
}

/// The message that the value is.
fn message_from(alloc: Global, value: &Value) -> Result<Option<Message>, NoMemory>
    ensures { IfOk result (λ message. message ≡ message_in (view value.now)) }
{
    let Some((name, inner)) = only_member(value) else {
        return Ok(None);
    };
    match name {
        "hello" => hello_from(alloc, inner),
        "answer" => Ok(answer_from(inner)),
        "ask" => Ok(request_from(inner)),
        _ => Ok(None),
    }
}

/// The hello with these members.
fn hello_from(alloc: Global, value: &Value) -> Result<Option<Message>, NoMemory>
    ensures { IfOk result (λ message. message ≡ option_map Message.Hello (hello_in (view value.now))) }
{
    let Some(name) = text_member(value, 3, "name") else {
        return Ok(None);
    };
    let Some(code) = text_member(value, 3, "code") else {
        return Ok(None);
    };
    let Some(desk) = whole_member(value, 3, "desk") else {
        return Ok(None);
    };
    Ok(Some(Message::Hello(Hello {
        name: String::from_str(alloc, name)?,
        code: String::from_str(alloc, code)?,
        desk,
    })))
}

/// The answer with these members.
fn answer_from(value: &Value) -> Option<Message>
    ensures { result ≡ answer_in (view value.now) }
{
    let question = question_number(whole_member(value, 2, "question")?)?;
    let side = side_named(text_member(value, 2, "side")?)?;
    Some(Message::Answer { question, side })
}

/// The number of a question.
fn question_number(number: u64) -> Option<u32>
    ensures { result ≡ question_of number }
{
    u32::try_from(number).ok()
}

/// The side of this name.
fn side_named(word: &str) -> Option<Side>
    ensures { result ≡ side_of word.now }
{
    match word {
        "left" => Some(Side::Left),
        "right" => Some(Side::Right),
        "equal" => Some(Side::Equal),
        _ => None,
    }
}

/// The message that asks by a word.
fn request_from(value: &Value) -> Option<Message>
    ensures { result ≡ option_and_then request_of (as_str (view value.now)) }
{
    request_named(value.as_str()?)
}

/// The message that asks by this word.
fn request_named(word: &str) -> Option<Message>
    ensures { result ≡ request_of word.now }
{
    match word {
        "next" => Some(Message::Next),
        "values" => Some(Message::Values),
        "withdraw" => Some(Message::Withdraw),
        "result" => Some(Message::Result),
        "bye" => Some(Message::Bye),
        _ => None,
    }
}

#[cfg(test)]
mod tests;
