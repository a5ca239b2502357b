//! What is timed.
use criteria_model::Model;
use edges::{Lines, NoMemory, QuietSink, QuietSource, Sink, Source, Text};
use result_file::MAX_LINE;
use session_protocol::{MAX_MESSAGES, session};
use std::alloc::Global;
use survey_state::Solo;

/// The messages of a session.
pub const MESSAGES: u32 = MAX_MESSAGES;

/// As many wishes for a question as a session may have. All but the first four find four questions open.
pub fn said(alloc: Global) -> Result<Vec<u8>, NoMemory> {
    let mut said = Vec::new(alloc);
    for _ in 0..MESSAGES {
        said.extend_from_slice(b"{\"ask\":\"next\"}\n")?;
    }
    Ok(said)
}

/// Holds this many sessions, and returns how many bytes of the replies were written in all.
pub fn hold_sessions(alloc: Global, said: &[u8], sessions: u32) -> Result<u64, NoMemory> {
    let mut written: u64 = 0;
    for _ in 0..sessions {
        written = written.wrapping_add(hold_session(alloc, said)?);
    }
    Ok(written)
}

/// Holds a session of a survey with nothing asked, and returns how many bytes of its replies were written.
fn hold_session(alloc: Global, said: &[u8]) -> Result<u64, NoMemory> {
    let mut source = QuietSource::new(alloc, said)?;
    let mut sink = QuietSink::new(alloc, 2_000_000)?;
    talk(alloc, &mut source, &mut sink)?;
    Ok(sink.bytes().len() as u64)
}

/// Holds a session of a survey with nothing asked, of three criteria with two levels each.
pub fn talk<S: Source, K: Sink>(
    alloc: Global,
    source: &mut S,
    sink: &mut K,
) -> Result<(), NoMemory> {
    let Ok(model) = Model::new(&[2, 2, 2], 3) else {
        return Ok(());
    };
    let mut solo = Solo::new(alloc, &model)?;
    let mut lines = Lines::reserve(alloc, MAX_LINE)?;
    let mut text = Text::reserve(alloc, MAX_LINE)?;
    session(
        alloc, &mut solo, &model, &mut lines, &mut text, source, sink,
    );
    Ok(())
}
