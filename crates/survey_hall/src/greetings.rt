//! The first line of a connection.
ghost use Rattle.std.specs.Prelude.{◌≡◌, ◌≢◌, ℕ, List, Option, IfOk};
ghost use Rattle.edges.specs.Faults.{CountsFaults};
ghost use Rattle.edges.specs.Lines.{KeepsLimits, ahead};
ghost use Rattle.json_forms.specs.DefinitionViews.{DefinitionView};
ghost use Rattle.session_protocol.specs.declared.sessions.SessionEnd.{SessionEnd};
ghost use Rattle.survey_hall.specs.Admissions.{admission_by_line, admission_by_message, in_words, word_of};
ghost use Rattle.survey_hall.specs.Greetings.{Greets, GreetsWith};

use edges::{LineGot, Lines, Source};
use json_forms::{Definition, Message, NoMemory, Word, read_message};
use result_file::MAX_LINE;
use session_protocol::SessionEnd;
use std::alloc::Global;
use survey_script::{Admitted, HelloFault, admit};

/// What the first line of a connection comes to.
#[derive(Clone, Copy, PartialEq, Eq, Debug)]
pub(crate) enum Greeting {
    /// It is a hello that passes its tests.
    Admits(Admitted),
    /// The first test that it fails.
    Refuses(Word),
    /// No whole line came, or there was no memory to read it.
    Ends(SessionEnd),
}

/// Reads the first line, and tests it.
pub(crate) fn greet<S: Source>(
    alloc: Global,
    definition: &Definition,
    lines: &mut Lines,
    source: &mut S,
) -> Greeting
    requires longest { lines.old.longest ≡ MAX_LINE }
    ensures greets { Greets definition.now lines.new.kept (ahead lines.old (S.left source.old)) (ahead lines.new (S.left source.new)) result }
    ensures faults { CountsFaults (result ≡ Greeting.Ends SessionEnd.ReadFault) (S.faults source.old) (S.faults source.new) }
    ensures limits { KeepsLimits lines.old lines.new }
{
    match lines.next_line(source) {
        LineGot::Line => match admit_line(alloc, definition, lines.line()) {
            Ok(outcome) => greeting_of(outcome),
            Err(_) => Greeting::Ends(SessionEnd::NoMemory),
        },
        LineGot::Piece => Greeting::Ends(SessionEnd::EndOfInput),
        LineGot::End => Greeting::Ends(SessionEnd::EndOfInput),
        LineGot::TooLong => Greeting::Ends(SessionEnd::LineTooLong),
        LineGot::ReadFault => Greeting::Ends(SessionEnd::ReadFault),
    }
}

/// The greeting by what the tests come to.
fn greeting_of(outcome: Result<Admitted, Word>) -> Greeting
    ensures greets { (definition : DefinitionView) (kept : List ℕ) (before after : Option (List ℕ)) →
        GreetsWith definition before after outcome → Greets definition kept before after result }
    ensures whole { (end : SessionEnd) → result ≢ Greeting.Ends end }
{
    match outcome {
        Ok(admitted) => Greeting::Admits(admitted),
        Err(word) => Greeting::Refuses(word),
    }
}

/// Whom the line admits, or the word by which it is refused.
///
/// # Errors
///
/// Out of memory.
fn admit_line(
    alloc: Global,
    definition: &Definition,
    line: &[u8],
) -> Result<Result<Admitted, Word>, NoMemory>
    ensures { IfOk result (λ outcome. admission_by_line definition.now line.now ≡ outcome) }
{
    let message = read_message(alloc, line)?;
    Ok(admit_message(definition, &message))
}

/// Whom the message of a line admits, if it is one.
fn admit_message(definition: &Definition, message: &Option<Message>) -> Result<Admitted, Word>
    ensures { result ≡ admission_by_message definition.now message.now }
{
    match message {
        Some(Message::Hello(hello)) => worded(admit(definition, hello)),
        _ => Err(Word::Hello),
    }
}

/// The same with the word of a fault.
fn worded(outcome: Result<Admitted, HelloFault>) -> Result<Admitted, Word>
    ensures { result ≡ in_words outcome }
{
    match outcome {
        Ok(admitted) => Ok(admitted),
        Err(fault) => Err(word_of(fault)),
    }
}

/// The word by which a hello that fails this test is refused.
fn word_of(fault: HelloFault) -> Word
    ensures { result ≡ word_of fault }
{
    match fault {
        HelloFault::Name => Word::Name,
        HelloFault::Code => Word::Code,
        HelloFault::Desk => Word::Desk,
    }
}
