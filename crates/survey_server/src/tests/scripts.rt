//! Scripts that are run.
use super::{CARE, THREE, ended_by, words_of};
use crate::{Ended, plain_command};
use criteria_model::Side;
use edges::{MemSink, MemSource, QuietSink, QuietSource};
use std::alloc::{AllocError, Global};
use std::sync::Wait;
use std::test::Fail;
use std::thread::Threads;
use survey_core::Event;
use survey_run::RunEnd;

/// A criterion of 25 levels.
const ONE: &[u8] =
    b"{\"criteria\":[{\"levels\":[\"0\",\"1\",\"2\",\"3\",\"4\",\"5\",\"6\",\"7\",\"8\",\"9\",\"10\",\"11\",\"12\",\"13\",\"14\",\"15\",\"16\",\"17\",\"18\",\"19\",\"20\",\"21\",\"22\",\"23\",\"24\"],\"name\":\"rank\"}],\
    \"degree\":1,\"respondents\":[{\"code\":\"k1\",\"name\":\"ana\"}]}\n";

/// Criteria of 13 and 14 levels.
const WIDE: &[u8] =
    b"{\"criteria\":[{\"levels\":[\"0\",\"1\",\"2\",\"3\",\"4\",\"5\",\"6\",\"7\",\"8\",\"9\",\"10\",\"11\",\"12\"],\"name\":\"first\"},\
    {\"levels\":[\"0\",\"1\",\"2\",\"3\",\"4\",\"5\",\"6\",\"7\",\"8\",\"9\",\"10\",\"11\",\"12\",\"13\"],\"name\":\"other\"}],\"degree\":2,\"respondents\":[{\"code\":\"k1\",\"name\":\"ana\"}]}\n";

/// Two criteria of two levels.
const TWO: &[u8] = b"{\"criteria\":[{\"levels\":[\"low\",\"high\"],\"name\":\"first\"},\
    {\"levels\":[\"low\",\"high\"],\"name\":\"other\"}],\"degree\":2,\"respondents\":[{\"code\":\"k1\",\"name\":\"ana\"}]}\n";

/// A respondent who always prefers the left side.
const ALWAYS_LEFT: &[u8] =
    b"{\"hello\":{\"code\":\"k1\",\"desk\":1,\"name\":\"ana\"}}\n{\"ask\":\"next\"}\n\
    {\"answer\":{\"question\":1,\"side\":\"left\"}}\n{\"ask\":\"next\"}\n{\"answer\":{\"question\":2,\"side\":\"left\"}}\n\
    {\"ask\":\"next\"}\n{\"answer\":{\"question\":3,\"side\":\"left\"}}\n{\"ask\":\"next\"}\n\
    {\"answer\":{\"question\":4,\"side\":\"left\"}}\n{\"ask\":\"next\"}\n{\"ask\":\"bye\"}\n";

const LEFT_REPLIES: &[u8] = b"{\"welcome\":{\"classes\":6,\"desk\":1}}\n\
    {\"question\":{\"left\":[2,1,0],\"number\":1,\"right\":[1,2,0]}}\n{\"accepted\":1}\n\
    {\"question\":{\"left\":[2,0,1],\"number\":2,\"right\":[1,0,2]}}\n{\"accepted\":2}\n\
    {\"question\":{\"left\":[0,2,1],\"number\":3,\"right\":[0,1,2]}}\n{\"accepted\":3}\n\
    {\"question\":{\"left\":[2,1,1],\"number\":4,\"right\":[1,2,2]}}\n{\"accepted\":4}\n\
    {\"complete\":true}\n{\"bye\":true}\n";

/// How many times the source of that script is read, in pieces of 64 bytes and up to its end.
const READS: u32 = 10;

/// A respondent who answers once equal and once left, and asks for the record.
const RECORDED: &[u8] =
    b"{\"hello\":{\"code\":\"k1\",\"desk\":1,\"name\":\"ana\"}}\n{\"ask\":\"next\"}\n\
    {\"answer\":{\"question\":1,\"side\":\"equal\"}}\n{\"ask\":\"next\"}\n\
    {\"answer\":{\"question\":2,\"side\":\"left\"}}\n{\"ask\":\"next\"}\n{\"ask\":\"result\"}\n{\"ask\":\"bye\"}\n";

/// What is replied before the record, and after it.
const BEFORE_RECORD: &[u8] = b"{\"welcome\":{\"classes\":6,\"desk\":1}}\n\
    {\"question\":{\"left\":[2,1,0],\"number\":1,\"right\":[1,2,0]}}\n{\"accepted\":1}\n\
    {\"question\":{\"left\":[2,0,1],\"number\":2,\"right\":[1,0,2]}}\n{\"accepted\":2}\n{\"complete\":true}\n";

const AFTER_RECORD: &[u8] = b"{\"bye\":true}\n";

/// Scripts, each a definition and what follows it, with the status and what is written.
const SCRIPTS: [(&[u8], &[u8], u8, &[u8]); 14] = [
    (THREE, ALWAYS_LEFT, 0, LEFT_REPLIES),
    (
        CARE,
        b"{\"hello\":{\"code\":\"k1\",\"desk\":1,\"name\":\"ana\"}}\n{\"ask\":\"next\"}\n\
        {\"answer\":{\"question\":1,\"side\":\"left\"}}\n{\"ask\":\"next\"}\nhi\n{\"ask\":\"bye\"}",
        0,
        b"{\"welcome\":{\"classes\":3,\"desk\":1}}\n{\"question\":{\"left\":[2,1],\"number\":1,\"right\":[1,2]}}\n\
        {\"accepted\":1}\n{\"question\":{\"left\":[3,1],\"number\":2,\"right\":[2,2]}}\n{\"refused\":\"message\"}\n{\"bye\":true}\n",
    ),
    (
        THREE,
        b"{\"hello\":{\"code\":\"k2\",\"desk\":1,\"name\":\"ben\"}}\n{\"ask\":\"next\"}\n{\"ask\":\"bye\"}\n\
        {\"hello\":{\"code\":\"k1\",\"desk\":4,\"name\":\"ana\"}}\n{\"ask\":\"next\"}\n{\"ask\":\"bye\"}\n\
        {\"hello\":{\"code\":\"k2\",\"desk\":1,\"name\":\"ben\"}}\n{\"answer\":{\"question\":1,\"side\":\"right\"}}\n{\"ask\":\"bye\"}\n",
        0,
        b"{\"welcome\":{\"classes\":6,\"desk\":1}}\n{\"question\":{\"left\":[2,1,0],\"number\":1,\"right\":[1,2,0]}}\n{\"bye\":true}\n\
        {\"welcome\":{\"classes\":6,\"desk\":4}}\n{\"question\":{\"left\":[2,1,0],\"number\":1,\"right\":[1,2,0]}}\n{\"bye\":true}\n\
        {\"welcome\":{\"classes\":6,\"desk\":1}}\n{\"accepted\":1}\n{\"bye\":true}\n",
    ),
    // A criterion alone leaves nothing to ask.
    (
        ONE,
        b"{\"hello\":{\"code\":\"k1\",\"desk\":1,\"name\":\"ana\"}}\n{\"ask\":\"next\"}\n\
        {\"ask\":\"values\"}\n{\"ask\":\"bye\"}\n",
        0,
        b"{\"welcome\":{\"classes\":0,\"desk\":1}}\n{\"complete\":true}\n\
        {\"values\":{\"levels\":[[\"0\",\"1\",\"2\",\"3\",\"4\",\"5\",\"6\",\"7\",\"8\",\"9\",\"10\",\"11\",\"12\",\"13\",\"14\",\"15\",\"16\",\"17\",\"18\",\"19\",\"20\",\"21\",\"22\",\"23\",\"24\"]],\
        \"vector\":[\"1\",\"1\",\"1\",\"1\",\"1\",\"1\",\"1\",\"1\",\"1\",\"1\",\"1\",\"1\",\"1\",\"1\",\"1\",\"1\",\"1\",\"1\",\"1\",\"1\",\"1\",\"1\",\"1\",\"1\"],\"weights\":[10000]}}\n{\"bye\":true}\n",
    ),
    (
        TWO,
        b"{\"hello\":{\"code\":\"k1\",\"desk\":1,\"name\":\"ana\"}}\n{\"ask\":\"next\"}\n{\"ask\":\"next\"}\n\
        {\"answer\":{\"question\":1,\"side\":\"left\"}}\n{\"ask\":\"next\"}\n{\"ask\":\"bye\"}\n",
        0,
        b"{\"welcome\":{\"classes\":1,\"desk\":1}}\n{\"question\":{\"left\":[2,1],\"number\":1,\"right\":[1,2]}}\n\
        {\"waiting\":true}\n{\"accepted\":1}\n{\"complete\":true}\n{\"bye\":true}\n",
    ),
    // An equal answer ranks with a negative weight.
    (
        THREE,
        b"{\"hello\":{\"code\":\"k1\",\"desk\":1,\"name\":\"ana\"}}\n{\"ask\":\"next\"}\n\
        {\"answer\":{\"question\":1,\"side\":\"equal\"}}\n{\"ask\":\"next\"}\n\
        {\"answer\":{\"question\":2,\"side\":\"left\"}}\n{\"ask\":\"next\"}\n{\"ask\":\"bye\"}\n",
        0,
        b"{\"welcome\":{\"classes\":6,\"desk\":1}}\n{\"question\":{\"left\":[2,1,0],\"number\":1,\"right\":[1,2,0]}}\n\
        {\"accepted\":1}\n{\"question\":{\"left\":[2,0,1],\"number\":2,\"right\":[1,0,2]}}\n\
        {\"accepted\":2}\n{\"complete\":true}\n{\"bye\":true}\n",
    ),
    (
        THREE,
        b"{\"hello\":{\"code\":\"k1\",\"desk\":1,\"name\":\"ana\"}}\n{\"ask\":\"values\"}\n{\"ask\":\"next\"}\n\
        {\"answer\":{\"question\":1,\"side\":\"equal\"}}\n{\"ask\":\"next\"}\n\
        {\"answer\":{\"question\":2,\"side\":\"equal\"}}\n{\"ask\":\"next\"}\n{\"ask\":\"values\"}\n{\"ask\":\"bye\"}\n",
        0,
        b"{\"welcome\":{\"classes\":6,\"desk\":1}}\n{\"incomplete\":{\"left\":[2,1,0],\"right\":[1,2,0]}}\n\
        {\"question\":{\"left\":[2,1,0],\"number\":1,\"right\":[1,2,0]}}\n{\"accepted\":1}\n{\"question\":{\"left\":[2,0,1],\"number\":2,\"right\":[1,0,2]}}\n\
        {\"accepted\":2}\n{\"complete\":true}\n\
        {\"values\":{\"levels\":[[\"0\",\"1\"],[\"0\",\"1\"],[\"0\",\"1\"]],\"vector\":[\"1\",\"1\",\"1\"],\"weights\":[3334,3333,3333]}}\n{\"bye\":true}\n",
    ),
    (WIDE, b"", 1, b"definition increments 25\n"),
    (THREE, b"", 0, b""),
    (b"", b"", 1, b"definition form\n"),
    (THREE, b"{\"ask\":\"next\"}\n", 1, b"script 2 hello\n"),
    (
        THREE,
        b"{\"hello\":{\"code\":\"k1\",\"desk\":1,\"name\":\"ana\"}}\n{\"ask\":\"next\"}\n",
        1,
        b"script 4 bye\n",
    ),
    (
        THREE,
        b"{\"hello\":{\"code\":\"zz\",\"desk\":1,\"name\":\"ana\"}}\n",
        1,
        b"script 2 code\n",
    ),
    (
        THREE,
        b"{\"hello\":{\"code\":\"k1\",\"desk\":5,\"name\":\"ana\"}}\n",
        1,
        b"script 2 desk\n",
    ),
];

/// Both texts, one after the other.
fn joined(alloc: Global, first: &[u8], second: &[u8]) -> Result<Vec<u8>, AllocError> {
    let mut text = Vec::new(alloc);
    text.extend_from_slice(first)?;
    text.extend_from_slice(second)?;
    Ok(text)
}

/// What comes of a script that these words run, and what is written.
fn ran<R: Threads + Wait + Sync>(
    rt: &R,
    alloc: Global,
    line: &str,
    text: &[u8],
) -> Result<(Ended, Vec<u8>), Fail> {
    let mut source = QuietSource::new(alloc, text)?;
    let mut sink = QuietSink::new(alloc, 4_096)?;
    let ended = ended_by(rt, alloc, line, &mut source, &mut sink)?;
    let written = Vec::from_slice(alloc, sink.bytes())?;
    Ok((ended, written))
}

/// Replies that carry no certificate are the same beside any number of eliminators.
#[test]
fn scripts_and_faults(rt: HostRuntime) -> Result<(), Fail> {
    for (definition, sessions, status, want) in &SCRIPTS {
        for line in ["run --eliminators 0", "run --eliminators=2"] {
            let text = joined(rt.alloc(), definition, sessions)?;
            let (ended, written) = ran(&rt, rt.alloc(), line, text.as_slice())?;
            assert_eq!(rt; ended.status, *status);
            assert!(rt; ended.run.is_some() == (*status == 0));
            assert!(rt; written.as_slice() == *want);
        }
    }
    Ok(())
}

/// The classes that the first survey of a run eliminated, with their verdicts.
fn eliminated(alloc: Global, end: &RunEnd) -> Result<Vec<(u32, Side)>, AllocError> {
    let mut list = Vec::new(alloc);
    if end.surveys() < 1 {
        return Ok(list);
    }
    let state = end.state(1);
    for before in 0..state.length() {
        if let Event::Eliminate { place, verdict, .. } = state.event(before + 1) {
            list.push((place, verdict))?;
        }
    }
    Ok(list)
}

/// Four answers rank the last two classes.
#[test]
fn always_left(rt: HostRuntime) -> Result<(), Fail> {
    let text = joined(rt.alloc(), THREE, ALWAYS_LEFT)?;
    for line in ["run --eliminators 0", "run"] {
        let (ended, _written) = ran(&rt, rt.alloc(), line, text.as_slice())?;
        let end = ended.run.ok_or("run")?;
        let classes = eliminated(rt.alloc(), &end)?;
        assert!(rt; classes.as_slice() == [(5, Side::Left), (6, Side::Left)].as_slice());
    }
    Ok(())
}

/// The record of a run is valid and complete.
#[test]
fn result_checks_complete(rt: HostRuntime) -> Result<(), Fail> {
    let text = joined(rt.alloc(), THREE, RECORDED)?;
    for line in ["run --eliminators 0", "run --eliminators 2"] {
        let (_ended, written) = ran(&rt, rt.alloc(), line, text.as_slice())?;
        let rest = written
            .as_slice()
            .strip_prefix(BEFORE_RECORD)
            .ok_or("replies")?;
        let record = rest.strip_suffix(AFTER_RECORD).ok_or("bye")?;
        let words = words_of(rt.alloc(), "check")?;
        let mut source = QuietSource::new(rt.alloc(), record)?;
        let mut sink = QuietSink::new(rt.alloc(), 64)?;
        assert_eq!(rt;
            plain_command(rt.alloc(), words.as_slice(), &mut source, &mut sink),
            0
        );
        assert!(rt; sink.bytes() == b"valid complete\n".as_slice());
    }
    Ok(())
}

/// What comes of the answers that always prefer the left side, where this call of the source and this one of the sink fail.
fn failing_run<R: Threads + Wait + Sync>(
    rt: &R,
    alloc: Global,
    fails: (u32, u32),
    room: usize,
) -> Result<(Ended, Vec<u8>), Fail> {
    let text = joined(alloc, THREE, ALWAYS_LEFT)?;
    let mut source = MemSource::new(alloc, text.as_slice(), 64, &[fails.0])?;
    let mut sink = MemSink::new(alloc, room, &[fails.1])?;
    let ended = ended_by(rt, alloc, "run --eliminators 1", &mut source, &mut sink)?;
    let written = Vec::from_slice(alloc, sink.bytes())?;
    Ok((ended, written))
}

/// The source fails at each of its calls in turn: nothing is written.
#[test]
fn reads_of_a_run_fail(rt: HostRuntime) -> Result<(), Fail> {
    for call in 1..=READS {
        let (ended, written) = failing_run(&rt, rt.alloc(), (call, 0), 4_096)?;
        assert_eq!(rt; ended.status, 3);
        assert!(rt; ended.run.is_none() && written.is_empty());
    }
    let (ended, _written) = failing_run(&rt, rt.alloc(), (READS + 1, 0), 4_096)?;
    assert_eq!(rt; ended.status, 0);
    Ok(())
}

/// The sink fails at each of its calls in turn, or has little room: what was written before stays.
#[test]
fn writes_of_a_run_fail(rt: HostRuntime) -> Result<(), Fail> {
    let mut cases = Vec::new(rt.alloc());
    cases.push((0, 50, 50usize))?;
    let (mut call, mut out) = (0u32, 0usize);
    for line in LEFT_REPLIES.split_inclusive(|byte| *byte == b'\n') {
        call = call.saturating_add(1);
        cases.push((call, 4_096, out))?;
        out = out.saturating_add(line.len());
    }
    assert_eq!(rt; call, 11);
    for (call, room, out) in cases {
        let (ended, written) = failing_run(&rt, rt.alloc(), (0, call), room)?;
        assert_eq!(rt; ended.status, 4);
        assert!(rt; ended.run.is_some());
        assert!(rt; Some(written.as_slice()) == LEFT_REPLIES.get(..out));
    }
    Ok(())
}
