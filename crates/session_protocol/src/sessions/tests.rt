//! Sessions over a survey of one desk.
use super::*;
use edges::{MemSink, MemSource, NoMemory};
use result_file::{Checked, check_result};
use std::test::Fail;
use survey_state::Solo;

/// What `next`, asked three times, is replied to at first.
const QUESTIONS: &[u8] = b"{\"question\":{\"left\":[2,1,0],\"number\":1,\"right\":[1,2,0]}}\n\
    {\"question\":{\"left\":[2,0,1],\"number\":2,\"right\":[1,0,2]}}\n\
    {\"question\":{\"left\":[0,2,1],\"number\":3,\"right\":[0,1,2]}}\n";

/// The bytes of one of these questions.
const QUESTION: usize = 57;

/// Runs a session of a survey with nothing asked, of three criteria with two levels each.
fn ended(alloc: Global, source: MemSource, sink: MemSink) -> Result<(SessionEnd, MemSink), Fail> {
    let mut source = source;
    let mut sink = sink;
    let model = Model::new(&[2, 2, 2], 3).ok().ok_or("model")?;
    let mut solo = Solo::new(alloc, &model)?;
    let mut lines = Lines::reserve(alloc, MAX_LINE)?;
    let mut text = Text::reserve(alloc, MAX_LINE)?;
    let end = session(
        alloc,
        &mut solo,
        &model,
        &mut lines,
        &mut text,
        &mut source,
        &mut sink,
    );
    Ok((end, sink))
}

/// A respondent who always prefers the left side, in pieces of any size; after the bye nothing is answered.
#[test]
fn always_left(rt: HostRuntime) -> Result<(), Fail> {
    let said =
        b"{\"ask\":\"values\"}\n{\"ask\":\"next\"}\n{\"answer\":{\"question\":1,\"side\":\"left\"}}\n\
        {\"ask\":\"next\"}\n{\"answer\":{\"question\":2,\"side\":\"left\"}}\n\
        {\"ask\":\"next\"}\n{\"answer\":{\"question\":3,\"side\":\"left\"}}\n\
        {\"ask\":\"next\"}\n{\"answer\":{\"question\":4,\"side\":\"left\"}}\n\
        {\"ask\":\"next\"}\n{\"ask\":\"bye\"}\n{\"ask\":\"next\"}\n";
    let replied = b"{\"incomplete\":{\"left\":[2,1,0],\"right\":[1,2,0]}}\n\
        {\"question\":{\"left\":[2,1,0],\"number\":1,\"right\":[1,2,0]}}\n{\"accepted\":1}\n\
        {\"question\":{\"left\":[2,0,1],\"number\":2,\"right\":[1,0,2]}}\n{\"accepted\":2}\n\
        {\"question\":{\"left\":[0,2,1],\"number\":3,\"right\":[0,1,2]}}\n{\"accepted\":3}\n\
        {\"question\":{\"left\":[2,1,1],\"number\":4,\"right\":[1,2,2]}}\n{\"accepted\":4}\n\
        {\"complete\":true}\n{\"bye\":true}\n";
    for piece in [1, 64] {
        let source = MemSource::new(rt.alloc(), said, piece.max(1), &[])?;
        let sink = MemSink::new(rt.alloc(), 1_000, &[])?;
        let (end, sink) = ended(rt.alloc(), source, sink)?;
        assert!(rt; end == SessionEnd::Bye, "{end:?}");
        assert!(rt; sink.bytes() == replied.as_slice());
    }
    Ok(())
}

/// Lines that are no message, a second hello, and input that ends within a line.
#[test]
fn lines_and_ends(rt: HostRuntime) -> Result<(), Fail> {
    let table: [(&[u8], SessionEnd, &[u8]); 6] = [
        (b"", SessionEnd::EndOfInput, b""),
        (
            b"hi\n",
            SessionEnd::EndOfInput,
            b"{\"refused\":\"message\"}\n",
        ),
        (
            b"{\"hello\":{\"code\":\"k1\",\"desk\":1,\"name\":\"ana\"}}\n",
            SessionEnd::EndOfInput,
            b"{\"refused\":\"message\"}\n",
        ),
        (b"{\"ask\":\"next\"}", SessionEnd::EndOfInput, b""),
        (b"{\"ask\":\"bye\"}", SessionEnd::EndOfInput, b""),
        (
            b"\n{\"ask\":\"bye\"}\r\nhi\n",
            SessionEnd::Bye,
            b"{\"refused\":\"message\"}\n{\"bye\":true}\n",
        ),
    ];
    for (said, want, replied) in table {
        let source = MemSource::new(rt.alloc(), said, 4_096, &[])?;
        let sink = MemSink::new(rt.alloc(), 100, &[])?;
        let (end, sink) = ended(rt.alloc(), source, sink)?;
        assert!(rt; end == want, "{end:?}, not {want:?}");
        assert!(rt; sink.bytes() == replied);
    }
    Ok(())
}

/// Each call of the source fails in turn, and of the sink; a sink with little room takes part of a reply.
#[test]
fn ends_fail(rt: HostRuntime) -> Result<(), Fail> {
    let said = b"{\"ask\":\"next\"}\n{\"ask\":\"next\"}\n{\"ask\":\"next\"}\n";
    let table: [(u32, u32, usize, SessionEnd, usize); 9] = [
        (1, 0, 1_000, SessionEnd::ReadFault, 0),
        (2, 0, 1_000, SessionEnd::ReadFault, QUESTION),
        (3, 0, 1_000, SessionEnd::ReadFault, 2 * QUESTION),
        (4, 0, 1_000, SessionEnd::ReadFault, 3 * QUESTION),
        (0, 1, 1_000, SessionEnd::WriteFault, 0),
        (0, 2, 1_000, SessionEnd::WriteFault, QUESTION),
        (0, 3, 1_000, SessionEnd::WriteFault, 2 * QUESTION),
        (0, 0, 100, SessionEnd::WriteFault, 100),
        (0, 0, 1_000, SessionEnd::EndOfInput, 3 * QUESTION),
    ];
    for (read, write, room, want, bytes) in table {
        let source = MemSource::new(rt.alloc(), said, 15, &[read])?;
        let sink = MemSink::new(rt.alloc(), room, &[write])?;
        let (end, sink) = ended(rt.alloc(), source, sink)?;
        assert!(rt; end == want, "{end:?}, not {want:?}");
        assert!(rt; Some(sink.bytes()) == QUESTIONS.get(..bytes));
    }
    Ok(())
}

/// A line of 4,096 bytes is answered, one of 4,097 is too long.
#[test]
fn longest_line(rt: HostRuntime) -> Result<(), Fail> {
    let table: [(usize, SessionEnd, &[u8]); 2] = [
        (
            4_082,
            SessionEnd::EndOfInput,
            b"{\"question\":{\"left\":[2,1,0],\"number\":1,\"right\":[1,2,0]}}\n",
        ),
        (4_083, SessionEnd::LineTooLong, b"{\"refused\":\"line\"}\n"),
    ];
    for (blanks, want, replied) in table {
        let mut said = vec![in rt.alloc(); b' '; blanks]?;
        said.extend_from_slice(b"{\"ask\":\"next\"}\n")?;
        let source = MemSource::new(rt.alloc(), said.as_slice(), 1_000, &[])?;
        let sink = MemSink::new(rt.alloc(), 100, &[])?;
        let (end, sink) = ended(rt.alloc(), source, sink)?;
        assert!(rt; end == want, "{end:?}, not {want:?}");
        assert!(rt; sink.bytes() == replied);
    }
    Ok(())
}

/// A bye may be the last message that is allowed; after as many others no further line is read.
#[test]
fn most_messages(rt: HostRuntime) -> Result<(), Fail> {
    let table: [(usize, SessionEnd, &[u8]); 2] = [
        (65_535, SessionEnd::Bye, b"{\"bye\":true}\n"),
        (
            65_536,
            SessionEnd::Messages,
            b"{\"refused\":\"messages\"}\n",
        ),
    ];
    for (count, want, last) in table {
        let source = MemSource::new(
            rt.alloc(),
            refused_lines(rt.alloc(), count)?.as_slice(),
            4_096,
            &[],
        )?;
        let sink = MemSink::new(rt.alloc(), 2_000_000, &[])?;
        let (end, sink) = ended(rt.alloc(), source, sink)?;
        assert!(rt; end == want, "{end:?}, not {want:?}");
        assert!(rt; sink.bytes().get(22 * count..) == Some(last));
    }
    Ok(())
}

/// Lines that are no message, and then a bye.
fn refused_lines(alloc: Global, count: usize) -> Result<Vec<u8>, NoMemory> {
    let mut said = Vec::new(alloc);
    for _ in 0..count {
        said.extend_from_slice(b"x\n")?;
    }
    said.extend_from_slice(b"{\"ask\":\"bye\"}\n")?;
    Ok(said)
}

/// The result within a session is a file that is valid.
#[test]
fn result_is_valid(rt: HostRuntime) -> Result<(), Fail> {
    let said =
        b"{\"ask\":\"next\"}\n{\"answer\":{\"question\":1,\"side\":\"equal\"}}\n{\"ask\":\"next\"}\n\
        {\"answer\":{\"question\":2,\"side\":\"left\"}}\n{\"ask\":\"next\"}\n{\"ask\":\"result\"}\n";
    let replied =
        b"{\"question\":{\"left\":[2,1,0],\"number\":1,\"right\":[1,2,0]}}\n{\"accepted\":1}\n\
        {\"question\":{\"left\":[2,0,1],\"number\":2,\"right\":[1,0,2]}}\n{\"accepted\":2}\n{\"complete\":true}\n";
    let source = MemSource::new(rt.alloc(), said, 64, &[])?;
    let sink = MemSink::new(rt.alloc(), 10_000, &[])?;
    let (end, sink) = ended(rt.alloc(), source, sink)?;
    assert!(rt; end == SessionEnd::EndOfInput, "{end:?}");
    assert!(rt; sink.bytes().get(..replied.len()) == Some(replied.as_slice()));
    let file = sink.bytes().get(replied.len()..).ok_or("file")?;
    let mut source = MemSource::new(rt.alloc(), file, 4_096, &[])?;
    assert!(rt; check_result(rt.alloc(), &mut source) == Checked::ValidComplete);
    Ok(())
}
