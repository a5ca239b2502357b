//! Gates that hold desks and eliminators of a command.
use super::{CARE, THREE, words_of};
use crate::{Ended, command};
use edges::{DoorEnds, GatePoint, Hold, MemDoor, MemSink, MemSource, ScriptGate};
use std::alloc::Global;
use std::process::Abort;
use std::sync::Wait;
use std::test::Fail;
use std::thread::Threads;
use survey_core::Event;

/// Sessions of desk 1: a question, and another one after its answer; a question and its answer; a question.
const ASKS_TWICE: &[u8] =
    b"{\"hello\":{\"code\":\"k1\",\"desk\":1,\"name\":\"ana\"}}\n{\"ask\":\"next\"}\n\
    {\"answer\":{\"question\":1,\"side\":\"left\"}}\n{\"ask\":\"next\"}\n{\"ask\":\"bye\"}\n";

const ANSWERS: &[u8] =
    b"{\"hello\":{\"code\":\"k1\",\"desk\":1,\"name\":\"ana\"}}\n{\"ask\":\"next\"}\n\
    {\"answer\":{\"question\":1,\"side\":\"left\"}}\n{\"ask\":\"bye\"}\n";

const ASKS: &[u8] =
    b"{\"hello\":{\"code\":\"k1\",\"desk\":1,\"name\":\"ana\"}}\n{\"ask\":\"next\"}\n{\"ask\":\"bye\"}\n";

/// A question at desk 2.
const OTHER_ASKS: &[u8] =
    b"{\"hello\":{\"code\":\"k1\",\"desk\":2,\"name\":\"ana\"}}\n{\"ask\":\"next\"}\n{\"ask\":\"bye\"}\n";

/// What comes of a command that nothing fails, where no hold was missed. The sessions are those of its script, or of the connections
/// at its door.
fn held<R: Threads + Wait + Sync + Abort>(
    rt: &R,
    alloc: Global,
    line: &str,
    definition: &[u8],
    sessions: &[&[u8]],
    holds: &[Hold],
) -> Result<Ended, Fail> {
    let words = words_of(alloc, line)?;
    let mut text = Vec::from_slice(alloc, definition)?;
    let mut ends = DoorEnds::new(alloc);
    for session in sessions {
        if line.starts_with("serve") {
            let source = MemSource::new(alloc, session, 1_000, &[])?;
            ends.push(source, MemSink::new(alloc, 1_000, &[])?)?;
        } else {
            text.extend_from_slice(session)?;
        }
    }
    let gate = ScriptGate::new(alloc, holds)?;
    let mut source = MemSource::new(alloc, text.as_slice(), 1_000, &[])?;
    let mut sink = MemSink::new(alloc, 1_000, &[])?;
    let mut door = MemDoor::new(ends);
    let ended = command(
        rt,
        alloc,
        words.as_slice(),
        &mut source,
        &mut sink,
        &mut door,
        &gate,
    );
    assert!(rt; !gate.missed(), "{line}");
    assert_eq!(rt; ended.status, 0);
    Ok(ended)
}

/// Whoever comes by `at` waits for `until`.
fn hold(at: GatePoint, until: GatePoint) -> Hold {
    Hold { at, until }
}

/// Who eliminated a class by the third event of the first survey of a run.
fn third_worker(ended: &Ended) -> Option<u8> {
    let Some(end) = &ended.run else {
        return None;
    };
    if end.surveys() < 1 {
        return None;
    }
    let state = end.state(1);
    if state.length() < 3 {
        return None;
    }
    match state.event(3) {
        Event::Eliminate { worker, .. } => Some(worker),
        _ => None,
    }
}

/// The second question waits until an eliminator handed in the class that the answer ranks: eliminators work.
#[test]
fn session_waits_for_hand_in(rt: HostRuntime) -> Result<(), Fail> {
    let begins = GatePoint::NextBegins { desk: 1 };
    let handed_in = GatePoint::HandedIn {
        worker: 1,
        place: 2,
        eliminated: true,
    };
    let holds = [hold(begins, begins), hold(begins, handed_in)];
    let rows: [(&str, &[u8], &[&[u8]], Option<u8>); 3] = [
        ("run --eliminators 1", CARE, &[ASKS_TWICE], Some(1)),
        (
            "run --sample 1 --shape 3x2:2 --eliminators 1",
            b"",
            &[],
            None,
        ),
        (
            "serve 1 --connections 1 --eliminators 1",
            CARE,
            &[ASKS_TWICE],
            None,
        ),
    ];
    for (line, definition, sessions, worker) in rows {
        let ended = held(&rt, rt.alloc(), line, definition, sessions, &holds)?;
        assert!(rt; third_worker(&ended) == worker, "{line}");
    }
    Ok(())
}

/// A desk gets its question while an eliminator is about to solve: no turn is held.
#[test]
fn solve_outside_turn(rt: HostRuntime) -> Result<(), Fail> {
    let taken = GatePoint::JobTaken {
        worker: 1,
        place: 2,
    };
    let holds = [
        hold(GatePoint::NextBegins { desk: 2 }, taken),
        hold(taken, GatePoint::NextAnswered { desk: 2 }),
    ];
    for line in [
        "run --eliminators 1",
        "serve 1 --connections 2 --eliminators 1",
    ] {
        held(&rt, rt.alloc(), line, CARE, &[ANSWERS, OTHER_ASKS], &holds)?;
    }
    Ok(())
}

/// Each of two desks asks only once the other is about to: they are served at once.
#[test]
fn desks_at_once(rt: HostRuntime) -> Result<(), Fail> {
    let first = GatePoint::NextBegins { desk: 1 };
    let second = GatePoint::NextBegins { desk: 2 };
    let holds = [hold(first, second), hold(second, first)];
    for line in [
        "run --eliminators 0",
        "serve 1 --connections 2 --eliminators 0",
    ] {
        held(&rt, rt.alloc(), line, THREE, &[ASKS, OTHER_ASKS], &holds)?;
    }
    Ok(())
}
