//! Times the messages of sessions in which nothing is to be decided. Without the word `time` it only counts. With the word `talk`
//! it holds one session, over standard input and output.
#![tactic(auto)]

mod rounds;

use edges::{StdSink, StdSource};
use std::time::{Duration, Instant};
use std::{env, io};

fn main(rt: HostRuntime) -> io::Result<()> {
    if env::args(&rt)?.any(|word| word.as_str() == "talk") {
        let mut source = StdSource::new(rt.stdin());
        let mut sink = StdSink::new(rt.stdout());
        rounds::talk(rt.alloc(), &mut source, &mut sink)?;
        return Ok(());
    }
    let timed = env::args(&rt)?.any(|word| word.as_str() == "time");
    let sessions = if timed { 20 } else { 1 };
    println!(rt; "messages  bytes")?;
    let said = rounds::said(rt.alloc())?;
    let start = Instant::now(&rt)?;
    let written = rounds::hold_sessions(rt.alloc(), said.as_slice(), sessions)?;
    report(
        &rt,
        rounds::MESSAGES,
        sessions,
        written,
        start.elapsed(&rt)?,
        timed,
    )
}

// A line with the number of messages of a session and of the bytes of all replies, and with the nanoseconds a message where they
// are asked for.
fn report<R: Print>(
    rt: &R,
    messages: u32,
    sessions: u32,
    written: u64,
    took: Duration,
    timed: bool,
) -> io::Result<()> {
    if timed {
        let each = (took / sessions.max(1) / messages.max(1)).subsec_nanos();
        println!(rt; "{messages:<9} {written} {each} ns")
    } else {
        println!(rt; "{messages:<9} {written}")
    }
}
