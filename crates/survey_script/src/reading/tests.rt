//! Which texts are scripts, and which line fails first.
ghost use Rattle.std.specs.Prelude.{◌≤◌};

use super::*;
use edges::{MemSource, NoMemory};
use json_forms::Message;
use std::test::Fail;

/// A definition of three criteria of two levels, with two respondents.
const DEFINITION: &[u8] =
    b"{\"criteria\":[{\"levels\":[\"high\",\"low\"],\"name\":\"price\"},{\"levels\":[\"slow\",\"fast\"],\"name\":\"speed\"},{\"levels\":[\"loud\",\"quiet\"],\"name\":\"noise\"}],\"degree\":3,\"respondents\":[{\"code\":\"k1\",\"name\":\"ana\"},{\"code\":\"k2\",\"name\":\"ben\"}]}\n";

const HELLO: &[u8] = b"{\"hello\":{\"code\":\"k1\",\"desk\":1,\"name\":\"ana\"}}\n";

const NEXT: &[u8] = b"{\"ask\":\"next\"}\n";

const BYE: &[u8] = b"{\"ask\":\"bye\"}\n";

/// Why the text of these parts, each as often as it says, is no script; the source gives pieces, and fails at a call.
fn stop_of(
    alloc: Global,
    parts: &[(&[u8], u32)],
    piece: usize,
    fails: &[u32],
) -> Result<Option<ScriptStop>, NoMemory>
    requires { 1 ≤ piece }
{
    let mut text = Vec::new(alloc);
    for (part, times) in parts {
        for _time in 0..*times {
            text.extend_from_slice(part)?;
        }
    }
    let mut source = MemSource::new(alloc, text.as_slice(), piece, fails)?;
    match read_script(alloc, &mut source) {
        Ok(_) => Ok(None),
        Err(stop) => Ok(Some(stop)),
    }
}

/// The stop at a line.
fn at(line: u32, part: ScriptPart) -> Option<ScriptStop> {
    Some(ScriptStop::Script { line, part })
}

/// The first of the lines after the definition's, whose stop isn't the one beside them, in pieces of 1 and 64 bytes.
fn first_other(
    alloc: Global,
    table: &[(&'static [u8], Option<ScriptStop>)],
) -> Result<Option<&'static [u8]>, NoMemory> {
    for (lines, stop) in table {
        for piece in [1, 64] {
            if stop_of(alloc, &[(DEFINITION, 1), (*lines, 1)], piece, &[])? != *stop {
                return Ok(Some(*lines));
            }
        }
    }
    Ok(None)
}

/// A line outside a session that is no hello, or one that fails a test: the first and its part.
#[test]
fn script_faults_at_a_hello(rt: HostRuntime) -> Result<(), Fail> {
    let table: [(&[u8], Option<ScriptStop>); 13] = [
        // No session.
        (b"", None),
        (b"{\"ask\":\"next\"}\n", at(2, ScriptPart::Hello)),
        (b"{\"ask\":\"bye\"}\n", at(2, ScriptPart::Hello)),
        (b"\n", at(2, ScriptPart::Hello)),
        (b"hi", at(2, ScriptPart::Hello)),
        // Tests on a hello, in their order.
        (
            b"{\"hello\":{\"code\":\"k1\",\"desk\":1,\"name\":\"ann\"}}\n",
            at(2, ScriptPart::Name),
        ),
        (
            b"{\"hello\":{\"code\":\"k9\",\"desk\":9,\"name\":\"ann\"}}\n",
            at(2, ScriptPart::Name),
        ),
        (
            b"{\"hello\":{\"code\":\"k2\",\"desk\":1,\"name\":\"ana\"}}\n",
            at(2, ScriptPart::Code),
        ),
        (
            b"{\"hello\":{\"code\":\"k1\",\"desk\":9,\"name\":\"ben\"}}\n",
            at(2, ScriptPart::Code),
        ),
        (
            b"{\"hello\":{\"code\":\"k1\",\"desk\":0,\"name\":\"ana\"}}\n",
            at(2, ScriptPart::Desk),
        ),
        (
            b"{\"hello\":{\"code\":\"k1\",\"desk\":5,\"name\":\"ana\"}}\n",
            at(2, ScriptPart::Desk),
        ),
        (
            b"{\"hello\":{\"code\":\"k1\",\"desk\":257,\"name\":\"ana\"}}\n",
            at(2, ScriptPart::Desk),
        ),
        (
            b"{\"hello\":{\"code\":\"k1\",\"desk\":4294967297,\"name\":\"ana\"}}\n",
            at(2, ScriptPart::Desk),
        ),
    ];
    assert!(rt; first_other(rt.alloc(), table.as_slice())? == None);
    Ok(())
}

/// What stands in a session up to its bye, and after it.
#[test]
fn script_faults_in_a_session(rt: HostRuntime) -> Result<(), Fail> {
    let table: [(&[u8], Option<ScriptStop>); 9] = [
        // Input ends in a session.
        (
            b"{\"hello\":{\"code\":\"k1\",\"desk\":1,\"name\":\"ana\"}}\n",
            at(3, ScriptPart::Bye),
        ),
        (
            b"{\"hello\":{\"code\":\"k1\",\"desk\":1,\"name\":\"ana\"}}",
            at(3, ScriptPart::Bye),
        ),
        (
            b"{\"hello\":{\"code\":\"k2\",\"desk\":4,\"name\":\"ben\"}}\n{\"ask\":\"next\"}\n",
            at(4, ScriptPart::Bye),
        ),
        // A hello in a session.
        (
            b"{\"hello\":{\"code\":\"k1\",\"desk\":1,\"name\":\"ana\"}}\n{\"hello\":{\"code\":\"k1\",\"desk\":1,\"name\":\"ana\"}}\n",
            at(3, ScriptPart::Bye),
        ),
        // A hello in a session whose tests it fails.
        (
            b"{\"hello\":{\"code\":\"k1\",\"desk\":1,\"name\":\"ana\"}}\n{\"hello\":{\"code\":\"k1\",\"desk\":7,\"name\":\"ana\"}}\n",
            at(3, ScriptPart::Bye),
        ),
        // Lines that are no message stand in a session, and not outside.
        (
            b"{\"hello\":{\"code\":\"k1\",\"desk\":1,\"name\":\"ana\"}}\n\nhi\n{\"ask\":\"bye\"}\n",
            None,
        ),
        (
            b"{\"hello\":{\"code\":\"k1\",\"desk\":1,\"name\":\"ana\"}}\n{\"ask\":\"bye\"}\n\n",
            at(4, ScriptPart::Hello),
        ),
        (
            b"{\"hello\":{\"code\":\"k1\",\"desk\":1,\"name\":\"ana\"}}\n{\"ask\":\"bye\"}",
            None,
        ),
        (
            b"{\"hello\":{\"code\":\"k1\",\"desk\":1,\"name\":\"ana\"}}\n{\"ask\":\"bye\"}\n{\"ask\":\"bye\"}\n",
            at(4, ScriptPart::Hello),
        ),
    ];
    assert!(rt; first_other(rt.alloc(), table.as_slice())? == None);
    Ok(())
}

/// A definition line is at most 65,536 bytes long, and may be the last without its line end.
#[test]
fn definition_lines(rt: HostRuntime) -> Result<(), Fail> {
    let definition = &DEFINITION[..DEFINITION.len() - 1];
    let blanks = 65_536 - definition.len() as u32;
    let table: [(&[(&[u8], u32)], Option<ScriptStop>); 7] = [
        (&[], Some(ScriptStop::Definition(DefinitionFault::Form))),
        (
            &[(b"\n", 1)],
            Some(ScriptStop::Definition(DefinitionFault::Form)),
        ),
        (
            &[(NEXT, 1), (b"x", 1)],
            Some(ScriptStop::Definition(DefinitionFault::Form)),
        ),
        (&[(definition, 1)], None),
        (&[(b" ", blanks), (definition, 1)], None),
        (
            &[(b" ", blanks + 1), (definition, 1)],
            Some(ScriptStop::Definition(DefinitionFault::Long)),
        ),
        (
            &[(b" ", 70_000)],
            Some(ScriptStop::Definition(DefinitionFault::Long)),
        ),
    ];
    for (parts, stop) in table {
        let found = stop_of(rt.alloc(), parts, 1_000, &[])?;
        assert!(rt; found == stop, "{parts:?}");
    }
    Ok(())
}

/// The longest line, the most sessions and the most lines, and one more of each.
#[test]
fn limits(rt: HostRuntime) -> Result<(), Fail> {
    let blanks = 4_096 + 1 - NEXT.len() as u32;
    let session: &[u8] =
        b"{\"hello\":{\"code\":\"k1\",\"desk\":1,\"name\":\"ana\"}}\n{\"ask\":\"bye\"}\n";
    let table: [([(&[u8], u32); 4], Option<ScriptStop>); 8] = [
        ([(HELLO, 1), (b" ", blanks), (NEXT, 1), (BYE, 1)], None),
        (
            [(HELLO, 1), (b" ", blanks + 1), (NEXT, 1), (BYE, 1)],
            at(3, ScriptPart::Long),
        ),
        (
            [(b" ", 4_097), (b"", 0), (b"", 0), (b"", 0)],
            at(2, ScriptPart::Long),
        ),
        ([(session, 64), (b"", 0), (b"", 0), (b"", 0)], None),
        (
            [(session, 65), (b"", 0), (b"", 0), (b"", 0)],
            at(130, ScriptPart::Sessions),
        ),
        ([(HELLO, 1), (b"\n", 65_534), (BYE, 1), (b"", 0)], None),
        (
            [(HELLO, 1), (b"\n", 65_535), (BYE, 1), (b"", 0)],
            at(65_538, ScriptPart::Lines),
        ),
        (
            [(HELLO, 1), (b"\n", 65_535), (b" ", 4_097), (b"", 0)],
            at(65_538, ScriptPart::Long),
        ),
    ];
    for ([first, second, third, last], stop) in table {
        let parts = [(DEFINITION, 1), first, second, third, last];
        let found = stop_of(rt.alloc(), &parts, 100_000, &[])?;
        assert!(rt; found == stop, "{stop:?}");
    }
    Ok(())
}

/// Each call of the source that fails is a fault of reading, but a line that fails before it comes first.
#[test]
fn reads_that_fail(rt: HostRuntime) -> Result<(), Fail> {
    let text: [(&[u8], u32); 4] = [(DEFINITION, 1), (HELLO, 1), (NEXT, 1), (BYE, 1)];
    let length = DEFINITION.len() + HELLO.len() + NEXT.len() + BYE.len();
    // The last call finds the end.
    let calls = length as u32 / 64 + 2;
    for call in 1..calls + 2 {
        let found = stop_of(rt.alloc(), &text, 64, &[call])?;
        let stop = if call <= calls {
            Some(ScriptStop::ReadFault)
        } else {
            None
        };
        assert!(rt; found == stop, "{call}");
    }
    Ok(())
}

#[test]
fn wrong_line_before_a_read_that_fails(rt: HostRuntime) -> Result<(), Fail> {
    let length = (DEFINITION.len() + NEXT.len()) as u32;
    for call in [length, length + 1, length + 2] {
        let found = stop_of(rt.alloc(), &[(DEFINITION, 1), (NEXT, 2)], 1, &[call])?;
        let stop = if call <= length {
            Some(ScriptStop::ReadFault)
        } else {
            at(2, ScriptPart::Hello)
        };
        assert!(rt; found == stop, "{call}");
    }
    Ok(())
}

/// The word of the message of a line.
fn word(message: &Option<Message>) -> &'static str {
    match message {
        None => "none",
        Some(Message::Hello(_)) => "hello",
        Some(Message::Next) => "next",
        Some(Message::Answer { .. }) => "answer",
        Some(Message::Values) => "values",
        Some(Message::Withdraw) => "withdraw",
        Some(Message::Result) => "result",
        Some(Message::Bye) => "bye",
    }
}

/// What is read: respondents, desks and messages, in the order of the lines.
#[test]
fn sessions_are_read(rt: HostRuntime) -> Result<(), Fail> {
    let mut text = Vec::from_slice(rt.alloc(), DEFINITION)?;
    text.extend_from_slice(
        b"{\"hello\":{\"code\":\"k2\",\"desk\":4,\"name\":\"ben\"}}\n{\"ask\":\"next\"}\n\n{\"answer\":{\"question\":1,\"side\":\"left\"}}\n{\"ask\":\"bye\"}\n",
    )?;
    text.extend_from_slice(
        b"{\"hello\":{\"code\":\"k1\",\"desk\":1,\"name\":\"ana\"}}\n{\"ask\":\"bye\"}",
    )?;
    let mut source = MemSource::new(rt.alloc(), text.as_slice(), 7, &[])?;
    let script = read_script(rt.alloc(), &mut source).ok().ok_or("script")?;
    let mut words = Vec::new(rt.alloc());
    for session in script.sessions() {
        words.push(if session.respondent() == 2 {
            "ben"
        } else {
            "ana"
        })?;
        words.push(if session.desk() == 4 { "four" } else { "one" })?;
        for message in session.messages() {
            words.push(word(message))?;
        }
    }
    assert!(rt; script.definition().respondents() == 2);
    assert!(rt;
        words.as_slice()
            == [
                "ben", "four", "next", "none", "answer", "bye", "ana", "one", "bye"
            ]
            .as_slice()
    );
    Ok(())
}
