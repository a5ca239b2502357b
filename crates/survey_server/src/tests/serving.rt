//! Connections that are served by the command.
use super::{THREE, USAGE, words_of};
use crate::{Ended, command};
use edges::{DoorEnds, MemDoor, MemSink, MemSource, OpenGate};
use session_protocol::SessionEnd;
use std::alloc::Global;
use std::process::Abort;
use std::sync::Wait;
use std::test::Fail;
use std::thread::Threads;
use survey_hall::{ServeEnd, Served};

/// What each connection says.
const SAID: &[u8] =
    b"{\"hello\":{\"code\":\"k1\",\"desk\":1,\"name\":\"ana\"}}\n{\"ask\":\"bye\"}\n";

/// What is served, and what comes of it.
#[derive(Clone, Copy)]
struct Case {
    words: &'static str,
    definition: &'static [u8],
    /// How many connections the door gives.
    connections: u32,
    /// The calls of the source and of the sink that fail.
    fails: (u32, u32),
    /// The room of the sink.
    room: usize,
    status: u8,
    text: &'static [u8],
}

/// The case of these words in which two connections come and nothing fails.
fn two(words: &'static str, status: u8, text: &'static [u8]) -> Case {
    Case {
        words,
        definition: THREE,
        connections: 2,
        fails: (0, 0),
        room: 256,
        status,
        text,
    }
}

/// A door with `connections` connections.
fn door_with(alloc: Global, connections: u32) -> Result<MemDoor, Fail> {
    let mut ends = DoorEnds::new(alloc);
    for _ in 0..connections {
        let source = MemSource::new(alloc, SAID, 1_000, &[])?;
        ends.push(source, MemSink::new(alloc, 1_000, &[])?)?;
    }
    Ok(MemDoor::new(ends))
}

/// Whether each connection had a session up to its bye.
fn are_byes(end: &ServeEnd) -> bool {
    for index in 0..end.count() {
        match end.served(index + 1) {
            Served::Ran {
                replies: 1,
                end: SessionEnd::Bye,
                ..
            } => {}
            _ => return false,
        }
    }
    true
}

/// What comes of a case, with the text.
fn ended<R: Threads + Wait + Sync>(
    rt: &R,
    alloc: Global,
    case: &Case,
) -> Result<(Ended, Vec<u8>), Fail> {
    let words = words_of(alloc, case.words)?;
    let mut source = MemSource::new(alloc, case.definition, 100, &[case.fails.0])?;
    let mut sink = MemSink::new(alloc, case.room, &[case.fails.1])?;
    let mut door = door_with(alloc, case.connections)?;
    let ended = command(
        rt,
        alloc,
        words.as_slice(),
        &mut source,
        &mut sink,
        &mut door,
        &OpenGate,
    );
    let text = Vec::from_slice(alloc, sink.bytes())?;
    Ok((ended, text))
}

/// Expects what comes of each case. Connections are there exactly with status 0, each with a session up to its bye.
fn expect<R: Threads + Wait + Sync + Abort>(
    rt: &R,
    alloc: Global,
    cases: &[Case],
) -> Result<(), Fail> {
    for case in cases {
        let (ended, text) = ended(rt, alloc, case)?;
        assert!(rt;
            ended.status == case.status && text.as_slice() == case.text,
            "{}: {}",
            case.words,
            ended.status
        );
        assert!(rt; ended.run.is_none());
        match &ended.served {
            Some(end) => assert!(rt; ended.status == 0 && are_byes(end)),
            None => assert!(rt; ended.status != 0),
        }
    }
    Ok(())
}

#[test]
fn connections_are_served(rt: HostRuntime) -> Result<(), Fail> {
    let cases = [
        two("serve 1 --connections 2 --eliminators 0", 0, b"served 2\n"),
        two(
            "serve --eliminators=2 --connections=1 65535",
            0,
            b"served 1\n",
        ),
        // No more is read than the first line.
        Case {
            fails: (4, 0),
            ..two("serve 1 --connections 2", 0, b"served 2\n")
        },
        two("serve 1 --connections 3", 6, b""),
        two("serve 1", 6, b""),
    ];
    expect(&rt, rt.alloc(), &cases)
}

#[test]
fn other_words_serve_nothing(rt: HostRuntime) -> Result<(), Fail> {
    let cases = [
        two("serve", 2, USAGE),
        two("serve 0", 2, USAGE),
        two("serve 65536", 2, USAGE),
        two("serve 1 2", 2, USAGE),
        two("serve 1 --connections 0", 2, USAGE),
        two("serve 1 --connections 65537", 2, USAGE),
        two("serve 1 --eliminators 17", 2, USAGE),
        two("serve 1 --shape 2x2:2 --sample 1", 2, USAGE),
    ];
    expect(&rt, rt.alloc(), &cases)
}

#[test]
fn serving_fails(rt: HostRuntime) -> Result<(), Fail> {
    let words = "serve 1 --connections 2";
    let cases = [
        Case {
            definition: b"",
            ..two(words, 1, b"definition form\n")
        },
        Case {
            fails: (1, 0),
            ..two(words, 3, b"")
        },
        Case {
            fails: (2, 0),
            ..two(words, 3, b"")
        },
        Case {
            fails: (3, 0),
            ..two(words, 3, b"")
        },
        Case {
            fails: (0, 1),
            ..two(words, 4, b"")
        },
        Case {
            room: 5,
            ..two(words, 4, b"serve")
        },
        Case {
            definition: b"",
            fails: (0, 1),
            ..two(words, 4, b"")
        },
    ];
    expect(&rt, rt.alloc(), &cases)
}
