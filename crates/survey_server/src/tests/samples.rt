//! Sample surveys, and what is refused of their shapes.
use super::words_of;
use crate::plain_command;
use criteria_model::Model;
use edges::{MemSink, QuietSink, QuietSource};
use sample_survey::solo_sample;
use std::alloc::Global;
use std::process::Abort;
use std::test::Fail;

/// Words, with the status and how the text begins and ends.
const SAMPLES: [(&str, u8, &[u8], &[u8]); 14] = [
    (
        "sample 1 2x2x2:3",
        0,
        b"sample 1 2x2x2:3 classes 6 questions 4 left 3 right 1 equal 0 eliminated 2 trace 95431 complete\n",
        b"",
    ),
    (
        "sample 1 3x2:2",
        0,
        b"sample 1 3x2:2 classes 3 questions 2 left 2 right 0 equal 0 eliminated 1 trace 102 complete\n",
        b"",
    ),
    // A model without classes.
    (
        "sample 2147483647 25:1",
        0,
        b"sample 2147483647 25:1 classes 0 questions 0 left 0 right 0 equal 0 eliminated 0 trace 0 complete\n",
        b"",
    ),
    (
        "sample 7 4x4x4x4x4x4:2",
        0,
        b"sample 7 4x4x4x4x4x4:2 classes 540 questions ",
        b" complete\n",
    ),
    (
        "sample 7 4x4x4x4x4x4x4x4:2",
        0,
        b"sample 7 4x4x4x4x4x4x4x4:2 classes 1008 questions ",
        b" complete\n",
    ),
    ("sample 7 13x14:2", 1, b"definition increments 25\n", b""),
    ("sample 7 0:1", 1, b"definition levels 1\n", b""),
    ("sample 7 999x1:9", 1, b"definition levels 2\n", b""),
    ("sample 7 26:5", 1, b"definition increments 25\n", b""),
    ("sample 7 2x2:0", 1, b"definition degree\n", b""),
    ("sample 7 2x2:3", 1, b"definition degree\n", b""),
    (
        "sample 7 2x2x2x2x2x2x2x2x2x2x2x2x2x2x2x2x2x2x2x2x2x2x2x2:4",
        1,
        b"definition classes 80730\n",
        b"",
    ),
    ("sample 7 2x02:2", 2, b"usage: ", b"connections K]\n"),
    (
        "sample 2147483648 2x2:2",
        2,
        b"usage: ",
        b"connections K]\n",
    ),
];

/// Expects the status and the text of a sample survey, or the text's begin and end.
fn expect_sample(
    rt: &impl Abort,
    alloc: Global,
    case: &(&str, u8, &[u8], &[u8]),
) -> Result<(), Fail> {
    let (line, status, begin, end) = case;
    let words = words_of(alloc, line)?;
    let mut source = QuietSource::new(alloc, b"")?;
    let mut sink = QuietSink::new(alloc, 256)?;
    assert_eq!(rt;
        plain_command(alloc, words.as_slice(), &mut source, &mut sink),
        *status
    );
    assert!(rt;
        sink.bytes().starts_with(begin) && sink.bytes().ends_with(end),
        "{line}"
    );
    if end.is_empty() {
        assert_eq!(rt; sink.bytes().len(), begin.len());
    }
    Ok(())
}

#[test]
fn sample_lines_and_refused_shapes(rt: HostRuntime) -> Result<(), Fail> {
    for case in &SAMPLES {
        expect_sample(&rt, rt.alloc(), case)?;
    }
    Ok(())
}

/// Each class of a survey was asked or eliminated.
#[test]
fn six_by_four(rt: HostRuntime) -> Result<(), Fail> {
    let model = Model::new(&[4, 4, 4, 4, 4, 4], 2).ok().ok_or("model")?;
    let summary = solo_sample(rt.alloc(), 7, &model)?;
    assert_eq!(rt; summary.classes, 540);
    let answered = summary
        .left
        .saturating_add(summary.right)
        .saturating_add(summary.equal);
    assert_eq!(rt; answered, summary.questions);
    assert_eq!(rt;
        answered.saturating_add(summary.eliminated),
        summary.classes
    );
    Ok(())
}

#[test]
fn sample_line_that_a_sink_cuts(rt: HostRuntime) -> Result<(), Fail> {
    let words = words_of(rt.alloc(), "sample 1 3x2:2")?;
    for (room, fails, out) in [
        (10, [].as_slice(), b"sample 1 3".as_slice()),
        (256, [1].as_slice(), b"".as_slice()),
    ] {
        let mut source = QuietSource::new(rt.alloc(), b"")?;
        let mut sink = MemSink::new(rt.alloc(), room, fails)?;
        let status = plain_command(rt.alloc(), words.as_slice(), &mut source, &mut sink);
        assert_eq!(rt; status, 4);
        assert!(rt; sink.bytes() == out);
    }
    Ok(())
}
