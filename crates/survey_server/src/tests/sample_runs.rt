//! Sample surveys beside eliminators.
use super::ended_by;
use edges::{QuietSink, QuietSource};
use std::alloc::{AllocError, Global};
use std::process::Abort;
use std::sync::Wait;
use std::test::Fail;
use std::thread::Threads;

/// Words of one sample survey of 1,008 classes.
const SAME_SAMPLE: [&str; 4] = [
    "sample 7 4x4x4x4x4x4x4x4:2",
    "run --sample 7 --shape 4x4x4x4x4x4x4x4:2 --eliminators 0",
    "run --sample 7 --shape 4x4x4x4x4x4x4x4:2 --eliminators 4",
    "run --eliminators=1 --shape=4x4x4x4x4x4x4x4:2 --sample=7",
];

/// Words, with the status and the text.
const SAMPLE_RUNS: [(&str, u8, &[u8]); 4] = [
    (
        "run --sample 1 --shape 2x2x2:3",
        0,
        b"sample 1 2x2x2:3 classes 6 questions 4 left 3 right 1 equal 0 eliminated 2 trace 95431 complete\n",
    ),
    (
        "run --shape 3x2:2 --sample 1 --eliminators 1",
        0,
        b"sample 1 3x2:2 classes 3 questions 2 left 2 right 0 equal 0 eliminated 1 trace 102 complete\n",
    ),
    (
        "run --sample 1 --shape 13x14:2",
        1,
        b"definition increments 25\n",
    ),
    ("run --sample 1 --shape 2x2:3", 1, b"definition degree\n"),
];

/// The status that the words end with, and what they write.
fn ended<R: Threads + Wait + Sync>(
    rt: &R,
    alloc: Global,
    line: &str,
) -> Result<(u8, Vec<u8>), AllocError> {
    let mut source = QuietSource::new(alloc, b"")?;
    let mut sink = QuietSink::new(alloc, 256)?;
    let ended = ended_by(rt, alloc, line, &mut source, &mut sink)?;
    let mut text = Vec::new(alloc);
    text.extend_from_slice(sink.bytes())?;
    Ok((ended.status, text))
}

/// Expects the status and the text of a line of words.
fn expect_ended<R: Threads + Wait + Sync + Abort>(
    rt: &R,
    alloc: Global,
    case: &(&str, u8, &[u8]),
) -> Result<(), Fail> {
    let (line, want, out) = case;
    let (status, text) = ended(rt, alloc, line)?;
    assert!(rt; status == *want && text.as_slice() == *out, "{line}");
    Ok(())
}

#[test]
fn sample_lines_beside_eliminators(rt: HostRuntime) -> Result<(), Fail> {
    for case in &SAMPLE_RUNS {
        expect_ended(&rt, rt.alloc(), case)?;
    }
    Ok(())
}

/// The line is that of the survey of one thread, beside any number of eliminators.
#[test]
fn same_line_with_eliminators(rt: HostRuntime) -> Result<(), Fail> {
    let mut first: Vec<u8> = Vec::new(rt.alloc());
    for line in SAME_SAMPLE {
        let (status, text) = ended(&rt, rt.alloc(), line)?;
        assert!(&rt; status == 0 && text.starts_with(b"sample 7 4x4x4x4x4x4x4x4:2 classes 1008 "));
        if first.is_empty() {
            first = text;
        } else {
            assert!(&rt; text.as_slice() == first.as_slice());
        }
    }
    Ok(())
}
